// The parts of errors.
ghost use Rattle.std.specs.Prelude.{◌≡◌, Some, IfOk, option_copied, string_bytes};
ghost use Rattle.graph_errors.specs.ErrorParts.{kind_specifier, kind_referrer, kind_mtime, graph_error_kind, graph_error_range, ranged_text, plain_error_text};
ghost use Rattle.graph_errors.specs.Errors.{error_of, kind_text, error_text, resolution_error_text};
ghost use Rattle.graph_errors.specs.Resolutions.{failed_range};

use crate::errors::{ModuleError, ModuleErrorKind, ModuleGraphError, ModuleLoadError};
use crate::resolution::ResolutionError;
use spec_base::{Boxed, ModuleSpecifier, Range};
use std::alloc::{AllocError, Global};

impl ModuleErrorKind {
    /// The specifier at which the error stands.
    pub fn specifier(&self) -> &ModuleSpecifier
        ensures { result.now ≡ kind_specifier self.now }
    {
        match self {
            ModuleErrorKind::Load { specifier, .. } => specifier,
            ModuleErrorKind::Missing { specifier, .. } => specifier,
            ModuleErrorKind::MissingDynamic { specifier, .. } => specifier,
            ModuleErrorKind::Parse { specifier, .. } => specifier,
            ModuleErrorKind::WasmParse { specifier, .. } => specifier,
            ModuleErrorKind::UnsupportedMediaType { specifier, .. } => specifier,
            ModuleErrorKind::InvalidTypeAssertion { specifier, .. } => specifier,
            ModuleErrorKind::UnsupportedImportAttributeType { specifier, .. } => specifier,
            ModuleErrorKind::UnsupportedModuleTypeForSourcePhaseImport { specifier, .. } => {
                specifier
            }
        }
    }

    /// The import that is to blame, where one is known.
    pub fn maybe_referrer(&self) -> Option<&Range>
        ensures { option_copied result ≡ kind_referrer self.now }
    {
        match self {
            ModuleErrorKind::Load { maybe_referrer, .. } => maybe_referrer.as_ref(),
            ModuleErrorKind::Missing { maybe_referrer, .. } => maybe_referrer.as_ref(),
            ModuleErrorKind::MissingDynamic { referrer, .. } => Some(referrer),
            ModuleErrorKind::Parse { .. } => None,
            ModuleErrorKind::WasmParse { .. } => None,
            ModuleErrorKind::UnsupportedMediaType { maybe_referrer, .. } => maybe_referrer.as_ref(),
            ModuleErrorKind::InvalidTypeAssertion { referrer, .. } => Some(referrer),
            ModuleErrorKind::UnsupportedImportAttributeType { referrer, .. } => Some(referrer),
            ModuleErrorKind::UnsupportedModuleTypeForSourcePhaseImport { referrer, .. } => {
                Some(referrer)
            }
        }
    }

    /// When the source that makes no module was last changed, in milliseconds since 1970, where that is known.
    pub fn mtime(&self) -> Option<u64>
        ensures { result ≡ kind_mtime self.now }
    {
        match self {
            ModuleErrorKind::Parse { mtime, .. } => *mtime,
            ModuleErrorKind::WasmParse { mtime, .. } => *mtime,
            ModuleErrorKind::Load {
                err: ModuleLoadError::Decode(error),
                ..
            } => error.mtime,
            _ => None,
        }
    }

    /// The text, and on a line of its own the import that is to blame, where one is known. The only error
    /// is want of memory.
    pub fn to_string_with_range(&self, alloc: Global) -> Result<String, AllocError>
        ensures { IfOk result
            (λ s. string_bytes s ≡ ranged_text (kind_text self.now) (kind_referrer self.now)) }
    {
        match self.maybe_referrer() {
            None => format!(in alloc; "{self}"),
            Some(range) => format!(in alloc; "{self}\n    at {range}"),
        }
    }

    /// The error of the kind. The only error is want of memory.
    pub fn into_box(self, alloc: Global) -> Result<ModuleError, AllocError>
        ensures { IfOk result (λ e. e ≡ error_of self) }
    {
        let kind = Boxed::new(alloc, self)?;
        Ok(ModuleError(kind))
    }
}

impl ModuleError {
    /// What the error is.
    pub fn as_kind(&self) -> &ModuleErrorKind
        ensures { error_of result.now ≡ self.now }
    {
        self.0.get()
    }

    /// What the error is, moved out.
    pub fn into_kind(self) -> ModuleErrorKind
        ensures { error_of result ≡ self }
    {
        let ModuleError(kind) = self;
        kind.into_inner()
    }

    /// The specifier at which the error stands.
    pub fn specifier(&self) -> &ModuleSpecifier
        ensures { result.now ≡ kind_specifier self.now.0 }
    {
        self.as_kind().specifier()
    }

    /// The import that is to blame, where one is known.
    pub fn maybe_referrer(&self) -> Option<&Range>
        ensures { option_copied result ≡ kind_referrer self.now.0 }
    {
        self.as_kind().maybe_referrer()
    }

    /// When the source that makes no module was last changed, in milliseconds since 1970, where that is known.
    pub fn mtime(&self) -> Option<u64>
        ensures { result ≡ kind_mtime self.now.0 }
    {
        self.as_kind().mtime()
    }

    /// The text, and on a line of its own the import that is to blame, where one is known. The only error
    /// is want of memory.
    pub fn to_string_with_range(&self, alloc: Global) -> Result<String, AllocError>
        ensures { IfOk result
            (λ s. string_bytes s ≡ ranged_text (error_text self.now) (kind_referrer self.now.0)) }
    {
        self.as_kind().to_string_with_range(alloc)
    }
}

impl ResolutionError {
    /// The text, and on a line of its own the import that is to blame. The only error
    /// is want of memory.
    pub fn to_string_with_range(&self, alloc: Global) -> Result<String, AllocError>
        ensures { IfOk result
            (λ s. string_bytes s
            ≡ ranged_text (resolution_error_text self.now) (Some (failed_range self.now))) }
    {
        let range = self.range();
        format!(in alloc; "{self}\n    at {range}")
    }
}

impl ModuleGraphError {
    /// What the error in the place of a module is, where it is one.
    pub fn as_module_error_kind(&self) -> Option<&ModuleErrorKind>
        ensures { option_copied result ≡ graph_error_kind self.now }
    {
        match self {
            ModuleGraphError::ModuleError(error) => Some(error.as_kind()),
            ModuleGraphError::ResolutionError(_) => None,
            ModuleGraphError::TypesResolutionError(_) => None,
        }
    }

    /// The import that is to blame, where one is known.
    pub fn maybe_range(&self) -> Option<&Range>
        ensures { option_copied result ≡ graph_error_range self.now }
    {
        match self {
            ModuleGraphError::ModuleError(error) => error.maybe_referrer(),
            ModuleGraphError::ResolutionError(error) => Some(error.range()),
            ModuleGraphError::TypesResolutionError(error) => Some(error.range()),
        }
    }

    /// The text of the error that it holds, without the words that tell types from code, and on a line of
    /// its own the import that is to blame, where one is known. The only error is want of memory.
    pub fn to_string_with_range(&self, alloc: Global) -> Result<String, AllocError>
        ensures { IfOk result
            (λ s. string_bytes s
            ≡ ranged_text (plain_error_text self.now) (graph_error_range self.now)) }
    {
        match self {
            ModuleGraphError::ModuleError(error) => error.to_string_with_range(alloc),
            ModuleGraphError::ResolutionError(error) => error.to_string_with_range(alloc),
            ModuleGraphError::TypesResolutionError(error) => error.to_string_with_range(alloc),
        }
    }
}
