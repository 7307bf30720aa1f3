// Where the text of an import leads.
ghost use Rattle.std.specs.Prelude.{◌≡◌, IfOk, option_copied};
ghost use Rattle.graph_errors.specs.declared.resolution.ResolutionError.TheVariants.{InvalidDowngrade, InvalidJsrHttpsTypesImport, InvalidLocalImport, InvalidSpecifier, ResolverError};
ghost use Rattle.graph_errors.specs.Included.{resolution_including};
ghost use Rattle.graph_errors.specs.Resolutions.{is_nowhere, resolved_in, failure_in, failed_range, specifier_in, range_in, answered};

use spec_base::{Boxed, ModuleSpecifier, Position, Range, ResolveError, SpecifierError, Text};
use std::alloc::{AllocError, Global};

/// A target, and the range of the text that names it.
#[derive(Clone, Debug, PartialEq, Eq, Drop)]
pub struct ResolutionResolved {
    pub specifier: ModuleSpecifier,
    pub range: Range,
}

/// Why the text of an import has no target. Two refusals of a resolver are equal where their texts and
/// ranges are.
#[derive_where(Debug, PartialEq, Eq)]
pub enum ResolutionError {
    /// A module loaded over https imports one over http.
    InvalidDowngrade {
        specifier: ModuleSpecifier,
        range: Range,
    },
    /// The types of a package of the registry are named by their URL, from outside of the package.
    InvalidJsrHttpsTypesImport {
        specifier: ModuleSpecifier,
        range: Range,
    },
    /// A module loaded over http or https names a local file.
    InvalidLocalImport {
        specifier: ModuleSpecifier,
        range: Range,
    },
    InvalidSpecifier {
        error: SpecifierError,
        range: Range,
    },
    /// The resolver refused the text.
    ResolverError {
        #[derive_where(skip(EqHashOrd))]
        error: ResolveError,
        specifier: Text,
        range: Range,
    },
}

// So that its drop is one call at each way out of what owns it.
impl Drop for ResolutionError {
    fn drop(self) {
        match self {
            ResolutionError::InvalidDowngrade { specifier, range } => {
                drop(specifier);
                drop(range);
            }
            ResolutionError::InvalidJsrHttpsTypesImport { specifier, range } => {
                drop(specifier);
                drop(range);
            }
            ResolutionError::InvalidLocalImport { specifier, range } => {
                drop(specifier);
                drop(range);
            }
            ResolutionError::InvalidSpecifier { error, range } => {
                drop(error);
                drop(range);
            }
            ResolutionError::ResolverError {
                error,
                specifier,
                range,
            } => {
                drop(error);
                drop(specifier);
                drop(range);
            }
        }
    }
}

/// What the text of an import resolves to.
#[derive(Clone, Debug, PartialEq, Eq)]
pub enum Resolution {
    /// Nothing was resolved.
    None,
    Ok(Boxed<ResolutionResolved>),
    Err(Boxed<ResolutionError>),
}

// So that its drop is one call at each way out of what owns it.
impl Drop for Resolution {
    fn drop(self) {
        match self {
            Resolution::None => (),
            Resolution::Ok(value) => drop(value),
            Resolution::Err(value) => drop(value),
        }
    }
}

impl Default for Resolution {
    ghost use Rattle.graph_errors.specs.declared.resolution.Resolution.TheVariants.{None as Nowhere};

    ghost is_default = { λ r. r ≡ Nowhere };

    fn default() -> Resolution {
        Resolution::None
    }
}

impl Resolution {
    /// Whether nothing was resolved.
    pub fn is_none(&self) -> bool
        ensures { result ≡ is_nowhere self.now }
    {
        matches!(self, Resolution::None)
    }

    /// The target with the range of its text, where the text leads to one.
    pub fn ok(&self) -> Option<&ResolutionResolved>
        ensures { option_copied result ≡ resolved_in self.now }
    {
        match self {
            Resolution::Ok(resolved) => Some(resolved.get()),
            _ => None,
        }
    }

    /// The error, where the text leads nowhere.
    pub fn err(&self) -> Option<&ResolutionError>
        ensures { option_copied result ≡ failure_in self.now }
    {
        match self {
            Resolution::Err(error) => Some(error.get()),
            _ => None,
        }
    }

    /// The target, where the text leads to one.
    pub fn maybe_specifier(&self) -> Option<&ModuleSpecifier>
        ensures { option_copied result ≡ specifier_in self.now }
    {
        match self {
            Resolution::Ok(resolved) => Some(&resolved.get().specifier),
            _ => None,
        }
    }

    /// The range of the text, where it was resolved.
    pub fn maybe_range(&self) -> Option<&Range>
        ensures { option_copied result ≡ range_in self.now }
    {
        match self {
            Resolution::None => None,
            Resolution::Ok(resolved) => Some(&resolved.get().range),
            Resolution::Err(error) => Some(error.get().range()),
        }
    }

    /// The range of the text, where it was resolved and the place is within the range, to which both its
    /// ends belong.
    pub fn includes(&self, position: Position) -> Option<&Range>
        ensures { option_copied result ≡ resolution_including self.now position }
    {
        let range = self.maybe_range()?;
        if range.includes(position) {
            Some(range)
        } else {
            None
        }
    }

    /// What a text resolves to from a range, by the answer of a resolver: `InvalidSpecifier` where the answer
    /// is an error of specifiers, and `ResolverError` where it is another one. The only refusal is want of
    /// memory.
    pub fn from_resolve_result(
        alloc: Global,
        answer: Result<ModuleSpecifier, ResolveError>,
        specifier_text: &str,
        range: Range,
    ) -> Result<Resolution, AllocError>
        ensures { IfOk result (λ r. r ≡ answered specifier_text.now range answer) }
    {
        match answer {
            Ok(specifier) => {
                let resolved = Boxed::new(alloc, ResolutionResolved { specifier, range })?;
                Ok(Resolution::Ok(resolved))
            }
            Err(ResolveError::Specifier(error)) => {
                let error = Boxed::new(alloc, ResolutionError::InvalidSpecifier { error, range })?;
                Ok(Resolution::Err(error))
            }
            Err(error) => {
                let specifier = Text::from_str(alloc, specifier_text)?;
                let error = Boxed::new(
                    alloc,
                    ResolutionError::ResolverError {
                        error,
                        specifier,
                        range,
                    },
                )?;
                Ok(Resolution::Err(error))
            }
        }
    }

    /// A copy.
    pub fn try_clone(&self) -> Result<Resolution, AllocError>
        ensures { IfOk result (λ r. r ≡ self.now) }
    {
        self.clone()
    }
}

impl ResolutionResolved {
    /// A copy.
    pub fn try_clone(&self) -> Result<ResolutionResolved, AllocError>
        ensures { IfOk result (λ r. r ≡ self.now) }
    {
        self.clone()
    }
}

fn copy_of_downgrade(
    specifier: &ModuleSpecifier,
    range: &Range,
) -> Result<ResolutionError, AllocError>
    ensures { IfOk result (λ e. e ≡ InvalidDowngrade specifier.now range.now) }
{
    let specifier = specifier.clone()?;
    let range = range.try_clone()?;
    Ok(ResolutionError::InvalidDowngrade { specifier, range })
}

fn copy_of_types_import(
    specifier: &ModuleSpecifier,
    range: &Range,
) -> Result<ResolutionError, AllocError>
    ensures { IfOk result (λ e. e ≡ InvalidJsrHttpsTypesImport specifier.now range.now) }
{
    let specifier = specifier.clone()?;
    let range = range.try_clone()?;
    Ok(ResolutionError::InvalidJsrHttpsTypesImport { specifier, range })
}

fn copy_of_local_import(
    specifier: &ModuleSpecifier,
    range: &Range,
) -> Result<ResolutionError, AllocError>
    ensures { IfOk result (λ e. e ≡ InvalidLocalImport specifier.now range.now) }
{
    let specifier = specifier.clone()?;
    let range = range.try_clone()?;
    Ok(ResolutionError::InvalidLocalImport { specifier, range })
}

fn copy_of_specifier_error(
    error: &SpecifierError,
    range: &Range,
) -> Result<ResolutionError, AllocError>
    ensures { IfOk result (λ e. e ≡ InvalidSpecifier error.now range.now) }
{
    let error = error.try_clone()?;
    let range = range.try_clone()?;
    Ok(ResolutionError::InvalidSpecifier { error, range })
}

fn copy_of_resolver_error(
    error: &ResolveError,
    specifier: &Text,
    range: &Range,
) -> Result<ResolutionError, AllocError>
    ensures { IfOk result (λ e. e ≡ ResolverError error.now specifier.now range.now) }
{
    let error = error.try_clone()?;
    let specifier = specifier.try_clone()?;
    let range = range.try_clone()?;
    Ok(ResolutionError::ResolverError {
        error,
        specifier,
        range,
    })
}

impl ResolutionError {
    /// The range of the text that leads nowhere.
    pub fn range(&self) -> &Range
        ensures { result.now ≡ failed_range self.now }
    {
        match self {
            ResolutionError::InvalidDowngrade {
                specifier: _,
                range,
            } => range,
            ResolutionError::InvalidJsrHttpsTypesImport {
                specifier: _,
                range,
            } => range,
            ResolutionError::InvalidLocalImport {
                specifier: _,
                range,
            } => range,
            ResolutionError::InvalidSpecifier { error: _, range } => range,
            ResolutionError::ResolverError {
                error: _,
                specifier: _,
                range,
            } => range,
        }
    }

    /// A copy.
    pub fn try_clone(&self) -> Result<ResolutionError, AllocError>
        ensures { IfOk result (λ e. e ≡ self.now) }
    {
        match self {
            ResolutionError::InvalidDowngrade { specifier, range } => copy_of_downgrade(
                specifier, range,
            ),
            ResolutionError::InvalidJsrHttpsTypesImport { specifier, range } =>
                copy_of_types_import(specifier, range),
            ResolutionError::InvalidLocalImport { specifier, range } => copy_of_local_import(
                specifier, range,
            ),
            ResolutionError::InvalidSpecifier { error, range } => copy_of_specifier_error(
                error, range,
            ),
            ResolutionError::ResolverError {
                error,
                specifier,
                range,
            } => copy_of_resolver_error(error, specifier, range),
        }
    }
}

impl Clone for ResolutionError {
    ghost is_clone = { λ error copy. copy ≡ error };

    fn clone(&self) -> Result<ResolutionError, AllocError> {
        self.try_clone()
    }
}
