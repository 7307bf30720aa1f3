// Why a load failed.
ghost use Rattle.std.specs.Prelude.{◌≡◌, Some, IfOk};
ghost use Rattle.spec_base.specs.ErrorTexts.{loader_error_text};

use crate::checksum_error::ChecksumIntegrityError;
use crate::refusal::Fault;
use std::alloc::AllocError;
use std::fmt;

/// Why a load failed.
#[derive(Clone, PartialEq, Eq, Debug, Drop)]
pub enum LoadError {
    /// The source isn't the one whose sum is known.
    ChecksumIntegrity(ChecksumIntegrityError),
    /// A fault of the loader's own, which it tells in place of an answer.
    Other(Fault),
}

impl LoadError {
    /// A copy.
    pub fn try_clone(&self) -> Result<LoadError, AllocError>
        ensures { IfOk result (λ e. e ≡ self.now) }
    {
        self.clone()
    }
}

impl From<ChecksumIntegrityError> for LoadError {
    ghost use Rattle.spec_base.specs.declared.load_error.LoadError.TheVariants.{ChecksumIntegrity};

    ghost from_gives = { λ error e. e ≡ ChecksumIntegrity error };

    fn from(error: ChecksumIntegrityError) -> LoadError {
        LoadError::ChecksumIntegrity(error)
    }
}

impl fmt::Display for LoadError {
    ghost output = { λ e. Some (loader_error_text e) };

    fn fmt<W: fmt::Write>(&self, f: &mut fmt::Formatter<W>) -> fmt::Result {
        match self {
            LoadError::ChecksumIntegrity(error) => fmt::Display::fmt(error, f),
            LoadError::Other(fault) => fmt::Display::fmt(fault, f),
        }
    }
}
