// That a source isn't the one whose checksum is known.
ghost use Rattle.std.specs.Prelude.{◌≡◌, Some, IfOk};
ghost use Rattle.spec_base.specs.ErrorTexts.{checksum_error_text};

use crate::text::Text;
use std::alloc::AllocError;
use std::fmt;

/// A source has another checksum than the one that is known of it: the source's own, and the known one.
#[derive(Clone, PartialEq, Eq, Debug, Drop)]
pub struct ChecksumIntegrityError {
    pub actual: Text,
    pub expected: Text,
}

impl ChecksumIntegrityError {
    /// A copy.
    pub fn try_clone(&self) -> Result<ChecksumIntegrityError, AllocError>
        ensures { IfOk result (λ e. e ≡ self.now) }
    {
        self.clone()
    }
}

impl fmt::Display for ChecksumIntegrityError {
    ghost output = { λ e. Some (checksum_error_text e) };

    fn fmt<W: fmt::Write>(&self, f: &mut fmt::Formatter<W>) -> fmt::Result {
        let ChecksumIntegrityError { actual, expected } = self;
        write!(
            f,
            "Integrity check failed.\n\nActual: {actual}\nExpected: {expected}"
        )
    }
}
