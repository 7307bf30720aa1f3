// Why a resolver has no target for a text.
ghost use Rattle.std.specs.Prelude.{◌≡◌, Some, IfOk};
ghost use Rattle.spec_base.specs.ErrorTexts.{resolve_error_text};

use crate::refusal::Fault;
use crate::resolve::SpecifierError;
use std::alloc::AllocError;
use std::fmt;

/// Why a resolver has no target for a text.
#[derive(Clone, Debug, PartialEq, Eq, Drop)]
pub enum ResolveError {
    /// The text is no URL, or it is a bare name.
    Specifier(SpecifierError),
    /// A fault of the resolver's own.
    Other(Fault),
}

impl ResolveError {
    /// The error of a fault of the resolver's own.
    pub fn from_err(err: Fault) -> ResolveError
        ensures { result ≡ ResolveError.Other err }
    {
        ResolveError::Other(err)
    }

    /// A copy.
    pub fn try_clone(&self) -> Result<ResolveError, AllocError>
        ensures { IfOk result (λ e. e ≡ self.now) }
    {
        self.clone()
    }
}

impl From<SpecifierError> for ResolveError {
    ghost use Rattle.spec_base.specs.declared.resolve_error.ResolveError.TheVariants.{Specifier};

    ghost from_gives = { λ error e. e ≡ Specifier error };

    fn from(error: SpecifierError) -> ResolveError {
        ResolveError::Specifier(error)
    }
}

impl From<Fault> for ResolveError {
    ghost use Rattle.spec_base.specs.declared.resolve_error.ResolveError.TheVariants.{Other};

    ghost from_gives = { λ fault e. e ≡ Other fault };

    fn from(fault: Fault) -> ResolveError {
        ResolveError::Other(fault)
    }
}

impl fmt::Display for ResolveError {
    ghost output = { λ e. Some (resolve_error_text e) };

    fn fmt<W: fmt::Write>(&self, f: &mut fmt::Formatter<W>) -> fmt::Result {
        match self {
            ResolveError::Specifier(error) => fmt::Display::fmt(error, f),
            ResolveError::Other(fault) => fmt::Display::fmt(fault, f),
        }
    }
}
