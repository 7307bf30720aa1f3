// What stands in the place of a module, and what a walk finds.
ghost use Rattle.std.specs.Prelude.{◌≡◌, IfOk};
ghost use Rattle.graph_errors.specs.declared.errors.ModuleErrorKind.TheVariants.{Load, Missing, MissingDynamic, Parse, WasmParse, UnsupportedMediaType, InvalidTypeAssertion, UnsupportedImportAttributeType, UnsupportedModuleTypeForSourcePhaseImport};

use crate::jsr_error::JsrLoadError;
use crate::resolution::ResolutionError;
use media_types::{DecodeFault, MediaType};
use semver_npm::NpmLoadError;
use spec_base::{Boxed, ChecksumIntegrityError, Fault, LoadError, ModuleSpecifier, Range, Text};
use std::alloc::AllocError;
use wasm_dts::WasmRefusal;

/// Bytes that have no text.
#[derive(Clone, Debug, PartialEq, Eq, Drop)]
pub struct DecodeError {
    /// When the source was last changed, in milliseconds since 1970, where that is known.
    pub mtime: Option<u64>,
    pub err: DecodeFault,
}

/// Why a load gives no module.
#[derive(Clone, Debug, PartialEq, Eq)]
pub enum ModuleLoadError {
    /// The source isn't the one whose sum is known.
    HttpsChecksumIntegrity(ChecksumIntegrityError),
    Decode(DecodeError),
    /// The loader answered a failure.
    Loader(LoadError),
    /// The registry of packages gives no module.
    Jsr(JsrLoadError),
    /// npm gives no module.
    Npm(NpmLoadError),
    /// As many redirects were followed as one load may, or they lead in a circle.
    TooManyRedirects,
}

// So that its drop is one call at each way out of what owns it.
impl Drop for ModuleLoadError {
    fn drop(self) {
        match self {
            ModuleLoadError::HttpsChecksumIntegrity(value) => drop(value),
            ModuleLoadError::Decode(value) => drop(value),
            ModuleLoadError::Loader(value) => drop(value),
            ModuleLoadError::Jsr(value) => drop(value),
            ModuleLoadError::Npm(value) => drop(value),
            ModuleLoadError::TooManyRedirects => (),
        }
    }
}

/// What an error in the place of a module is.
#[derive(Debug, PartialEq, Eq)]
pub enum ModuleErrorKind {
    /// The bytes that were loaded make no module.
    Load {
        specifier: ModuleSpecifier,
        maybe_referrer: Option<Range>,
        err: ModuleLoadError,
    },
    /// The loader has nothing at the specifier.
    Missing {
        specifier: ModuleSpecifier,
        maybe_referrer: Option<Range>,
    },
    /// The loader has nothing where a dynamic import leads.
    MissingDynamic {
        specifier: ModuleSpecifier,
        referrer: Range,
    },
    /// The analyzer refused the text.
    Parse {
        specifier: ModuleSpecifier,
        /// When the source was last changed, in milliseconds since 1970, where that is known.
        mtime: Option<u64>,
        diagnostic: Fault,
    },
    /// The bytes are no WebAssembly module of a form that is read.
    WasmParse {
        specifier: ModuleSpecifier,
        /// When the source was last changed, in milliseconds since 1970, where that is known.
        mtime: Option<u64>,
        err: WasmRefusal,
    },
    /// Modules of this media type aren't taken.
    UnsupportedMediaType {
        specifier: ModuleSpecifier,
        media_type: MediaType,
        maybe_referrer: Option<Range>,
    },
    /// An attribute of the import says that the module is of another media type than it is.
    InvalidTypeAssertion {
        specifier: ModuleSpecifier,
        referrer: Range,
        actual_media_type: MediaType,
        expected_media_type: MediaType,
    },
    /// No module is made under this attribute `type` of the import.
    UnsupportedImportAttributeType {
        specifier: ModuleSpecifier,
        referrer: Range,
        kind: Text,
    },
    /// Modules of this media type, or under this attribute `type` of the import, aren't taken in the source phase.
    UnsupportedModuleTypeForSourcePhaseImport {
        specifier: ModuleSpecifier,
        referrer: Range,
        actual_media_type: MediaType,
        actual_attribute_type: Option<Text>,
    },
}

// So that its drop is one call at each way out of what owns it.
impl Drop for ModuleErrorKind {
    fn drop(self) {
        match self {
            ModuleErrorKind::Load {
                specifier,
                maybe_referrer,
                err,
            } => {
                drop(specifier);
                drop(maybe_referrer);
                drop(err);
            }
            ModuleErrorKind::Missing {
                specifier,
                maybe_referrer,
            } => {
                drop(specifier);
                drop(maybe_referrer);
            }
            ModuleErrorKind::MissingDynamic {
                specifier,
                referrer,
            } => {
                drop(specifier);
                drop(referrer);
            }
            ModuleErrorKind::Parse {
                specifier,
                mtime,
                diagnostic,
            } => {
                drop(specifier);
                drop(mtime);
                drop(diagnostic);
            }
            ModuleErrorKind::WasmParse {
                specifier,
                mtime,
                err,
            } => {
                drop(specifier);
                drop(mtime);
                drop(err);
            }
            ModuleErrorKind::UnsupportedMediaType {
                specifier,
                media_type: _,
                maybe_referrer,
            } => {
                drop(specifier);
                drop(maybe_referrer);
            }
            ModuleErrorKind::InvalidTypeAssertion {
                specifier,
                referrer,
                actual_media_type: _,
                expected_media_type: _,
            } => {
                drop(specifier);
                drop(referrer);
            }
            ModuleErrorKind::UnsupportedImportAttributeType {
                specifier,
                referrer,
                kind,
            } => {
                drop(specifier);
                drop(referrer);
                drop(kind);
            }
            ModuleErrorKind::UnsupportedModuleTypeForSourcePhaseImport {
                specifier,
                referrer,
                actual_media_type: _,
                actual_attribute_type,
            } => {
                drop(specifier);
                drop(referrer);
                drop(actual_attribute_type);
            }
        }
    }
}

/// An error in the place of a module.
#[derive(Clone, Debug, PartialEq, Eq, Drop)]
pub struct ModuleError(pub Boxed<ModuleErrorKind>);

/// What a walk finds: an error in the place of a module, or an import whose code or whose types lead
/// nowhere.
#[derive(Clone, Debug, PartialEq, Eq)]
pub enum ModuleGraphError {
    ModuleError(ModuleError),
    /// The code of an import.
    ResolutionError(ResolutionError),
    /// The types of an import, or of a module.
    TypesResolutionError(ResolutionError),
}

// So that its drop is one call at each way out of what owns it.
impl Drop for ModuleGraphError {
    fn drop(self) {
        match self {
            ModuleGraphError::ModuleError(value) => drop(value),
            ModuleGraphError::ResolutionError(value) => drop(value),
            ModuleGraphError::TypesResolutionError(value) => drop(value),
        }
    }
}

impl DecodeError {
    /// A copy. The only refusal is want of memory.
    pub fn try_clone(&self) -> Result<DecodeError, AllocError>
        ensures { IfOk result (λ e. e ≡ self.now) }
    {
        self.clone()
    }
}

impl ModuleLoadError {
    /// A copy. The only refusal is want of memory.
    pub fn try_clone(&self) -> Result<ModuleLoadError, AllocError>
        ensures { IfOk result (λ e. e ≡ self.now) }
    {
        self.clone()
    }
}

impl From<JsrLoadError> for ModuleLoadError {
    ghost use Rattle.graph_errors.specs.declared.errors.ModuleLoadError.TheVariants.{Jsr};

    ghost from_gives = { λ error e. e ≡ Jsr error };

    fn from(error: JsrLoadError) -> ModuleLoadError {
        ModuleLoadError::Jsr(error)
    }
}

fn copy_of_load(
    specifier: &ModuleSpecifier,
    maybe_referrer: &Option<Range>,
    err: &ModuleLoadError,
) -> Result<ModuleErrorKind, AllocError>
    ensures { IfOk result (λ e. e ≡ Load specifier.now maybe_referrer.now err.now) }
{
    let specifier = specifier.clone()?;
    let maybe_referrer = maybe_referrer.clone()?;
    let err = err.try_clone()?;
    Ok(ModuleErrorKind::Load {
        specifier,
        maybe_referrer,
        err,
    })
}

fn copy_of_missing(
    specifier: &ModuleSpecifier,
    maybe_referrer: &Option<Range>,
) -> Result<ModuleErrorKind, AllocError>
    ensures { IfOk result (λ e. e ≡ Missing specifier.now maybe_referrer.now) }
{
    let specifier = specifier.clone()?;
    let maybe_referrer = maybe_referrer.clone()?;
    Ok(ModuleErrorKind::Missing {
        specifier,
        maybe_referrer,
    })
}

fn copy_of_missing_dynamic(
    specifier: &ModuleSpecifier,
    referrer: &Range,
) -> Result<ModuleErrorKind, AllocError>
    ensures { IfOk result (λ e. e ≡ MissingDynamic specifier.now referrer.now) }
{
    let specifier = specifier.clone()?;
    let referrer = referrer.try_clone()?;
    Ok(ModuleErrorKind::MissingDynamic {
        specifier,
        referrer,
    })
}

fn copy_of_parse(
    specifier: &ModuleSpecifier,
    mtime: Option<u64>,
    diagnostic: &Fault,
) -> Result<ModuleErrorKind, AllocError>
    ensures { IfOk result (λ e. e ≡ Parse specifier.now mtime diagnostic.now) }
{
    let specifier = specifier.clone()?;
    let diagnostic = diagnostic.try_clone()?;
    Ok(ModuleErrorKind::Parse {
        specifier,
        mtime,
        diagnostic,
    })
}

fn copy_of_wasm_parse(
    specifier: &ModuleSpecifier,
    mtime: Option<u64>,
    err: WasmRefusal,
) -> Result<ModuleErrorKind, AllocError>
    ensures { IfOk result (λ e. e ≡ WasmParse specifier.now mtime err) }
{
    let specifier = specifier.clone()?;
    Ok(ModuleErrorKind::WasmParse {
        specifier,
        mtime,
        err,
    })
}

fn copy_of_unsupported_media(
    specifier: &ModuleSpecifier,
    media_type: MediaType,
    maybe_referrer: &Option<Range>,
) -> Result<ModuleErrorKind, AllocError>
    ensures { IfOk result
        (λ e. e ≡ UnsupportedMediaType specifier.now media_type maybe_referrer.now) }
{
    let specifier = specifier.clone()?;
    let maybe_referrer = maybe_referrer.clone()?;
    Ok(ModuleErrorKind::UnsupportedMediaType {
        specifier,
        media_type,
        maybe_referrer,
    })
}

fn copy_of_assertion(
    specifier: &ModuleSpecifier,
    referrer: &Range,
    actual_media_type: MediaType,
    expected_media_type: MediaType,
) -> Result<ModuleErrorKind, AllocError>
    ensures { IfOk result
        (λ e. e
        ≡ InvalidTypeAssertion specifier.now referrer.now actual_media_type
        expected_media_type) }
{
    let specifier = specifier.clone()?;
    let referrer = referrer.try_clone()?;
    Ok(ModuleErrorKind::InvalidTypeAssertion {
        specifier,
        referrer,
        actual_media_type,
        expected_media_type,
    })
}

fn copy_of_attribute(
    specifier: &ModuleSpecifier,
    referrer: &Range,
    kind: &Text,
) -> Result<ModuleErrorKind, AllocError>
    ensures { IfOk result
        (λ e. e ≡ UnsupportedImportAttributeType specifier.now referrer.now kind.now) }
{
    let specifier = specifier.clone()?;
    let referrer = referrer.try_clone()?;
    let kind = kind.try_clone()?;
    Ok(ModuleErrorKind::UnsupportedImportAttributeType {
        specifier,
        referrer,
        kind,
    })
}

fn copy_of_source_phase(
    specifier: &ModuleSpecifier,
    referrer: &Range,
    actual_media_type: MediaType,
    actual_attribute_type: &Option<Text>,
) -> Result<ModuleErrorKind, AllocError>
    ensures { IfOk result (λ e. e
        ≡ UnsupportedModuleTypeForSourcePhaseImport specifier.now referrer.now actual_media_type
        actual_attribute_type.now) }
{
    let specifier = specifier.clone()?;
    let referrer = referrer.try_clone()?;
    let actual_attribute_type = actual_attribute_type.clone()?;
    Ok(ModuleErrorKind::UnsupportedModuleTypeForSourcePhaseImport {
        specifier,
        referrer,
        actual_media_type,
        actual_attribute_type,
    })
}

impl ModuleErrorKind {
    /// A copy.
    pub fn try_clone(&self) -> Result<ModuleErrorKind, AllocError>
        ensures { IfOk result (λ k. k ≡ self.now) }
    {
        match self {
            ModuleErrorKind::Load {
                specifier,
                maybe_referrer,
                err,
            } => copy_of_load(specifier, maybe_referrer, err),
            ModuleErrorKind::Missing {
                specifier,
                maybe_referrer,
            } => copy_of_missing(specifier, maybe_referrer),
            ModuleErrorKind::MissingDynamic {
                specifier,
                referrer,
            } => copy_of_missing_dynamic(specifier, referrer),
            ModuleErrorKind::Parse {
                specifier,
                mtime,
                diagnostic,
            } => copy_of_parse(specifier, *mtime, diagnostic),
            ModuleErrorKind::WasmParse {
                specifier,
                mtime,
                err,
            } => copy_of_wasm_parse(specifier, *mtime, *err),
            ModuleErrorKind::UnsupportedMediaType {
                specifier,
                media_type,
                maybe_referrer,
            } => copy_of_unsupported_media(specifier, *media_type, maybe_referrer),
            ModuleErrorKind::InvalidTypeAssertion {
                specifier,
                referrer,
                actual_media_type,
                expected_media_type,
            } => copy_of_assertion(
                specifier,
                referrer,
                *actual_media_type,
                *expected_media_type,
            ),
            ModuleErrorKind::UnsupportedImportAttributeType {
                specifier,
                referrer,
                kind,
            } => copy_of_attribute(specifier, referrer, kind),
            ModuleErrorKind::UnsupportedModuleTypeForSourcePhaseImport {
                specifier,
                referrer,
                actual_media_type,
                actual_attribute_type,
            } => copy_of_source_phase(
                specifier,
                referrer,
                *actual_media_type,
                actual_attribute_type,
            ),
        }
    }
}

impl Clone for ModuleErrorKind {
    ghost is_clone = { λ kind copy. copy ≡ kind };

    fn clone(&self) -> Result<ModuleErrorKind, AllocError> {
        self.try_clone()
    }
}

impl ModuleError {
    /// A copy.
    pub fn try_clone(&self) -> Result<ModuleError, AllocError>
        ensures { IfOk result (λ e. e ≡ self.now) }
    {
        self.clone()
    }
}

impl ModuleGraphError {
    /// A copy.
    pub fn try_clone(&self) -> Result<ModuleGraphError, AllocError>
        ensures { IfOk result (λ e. e ≡ self.now) }
    {
        self.clone()
    }
}
