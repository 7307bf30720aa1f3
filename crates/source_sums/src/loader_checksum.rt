// The sum of a source, and whether a source has it.
ghost use Rattle.std.specs.Prelude.{◌≡◌, IfOk, Some, bytes_eq, string_bytes};
ghost use Rattle.std.proofs.Common.{rules};
ghost use Rattle.std.specs.Hash as fed;
ghost use Rattle.std.specs.Cmp.{partial_equiv_from_equiv};
ghost use Rattle.std.specs.Cmp.Lexicographic.{nat_list_eq_equiv};
ghost use Rattle.std.specs.Cmp.Rules.{hashing};
ghost use Rattle.spec_base.specs.Refusal.{Answers};
ghost use Rattle.source_sums.specs.Sums.{sum_of, checked};

use sha2::{Digest, Sha256};
use spec_base::{ChecksumIntegrityError, Refusal, Text};
use std::alloc::{AllocError, Global};
use std::fmt;
use std::hash::{Hash, Hasher};
use std::marker::Model;

/// What is known of a source: the text of its SHA-256 (FIPS 180-4) in lower-case hex. Any text may stand
/// here, and one that is no such text is the sum of no source.
#[derive(Drop)]
pub struct LoaderChecksum {
    text: Text,
}

impl Model for LoaderChecksum {
    ghost use Rattle.std.specs.Prelude.{List, ℕ};

    ghost Value = { List ℕ };

    ghost view = { λ checksum. checksum.text };
}

impl LoaderChecksum {
    /// The text as a sum.
    pub fn new(checksum: String) -> LoaderChecksum
        ensures { result ≡ string_bytes checksum }
    {
        LoaderChecksum {
            text: checksum.into(),
        }
    }

    /// The text, with no copy.
    pub fn into_string(self) -> String
        ensures { string_bytes result ≡ self }
    {
        let LoaderChecksum { text } = self;
        text.into_string()
    }

    /// The text.
    pub fn as_str(&self) -> &str
        ensures { result.now ≡ self.now }
    {
        self.text.as_str()
    }

    /// A copy. The only refusal is want of memory.
    pub fn try_clone(&self) -> Result<LoaderChecksum, AllocError>
        ensures { IfOk result (λ copy. copy ≡ self.now) }
    {
        let text = self.text.try_clone()?;
        Ok(LoaderChecksum { text })
    }

    /// The sum of a source: its SHA-256 (FIPS 180-4) in lower-case hex, which are 64 digits. The only refusal
    /// is want of memory.
    pub fn generate(alloc: Global, source: &[u8]) -> Result<String, AllocError>
        ensures { IfOk result (λ sum. string_bytes sum ≡ sum_of source.now) }
    {
        let digest = Sha256::digest(source);
        hex::encode(alloc, digest.as_slice())
    }

    /// Ok exactly where the sum of the source is this text; else both. A sum in upper case is refused.
    pub fn check_source(
        &self,
        alloc: Global,
        source: &[u8],
    ) -> Result<(), Refusal<ChecksumIntegrityError>>
        ensures { Answers result (checked self.now source.now) }
    {
        let actual = LoaderChecksum::generate(alloc, source)?;
        if actual.as_str() == self.as_str() {
            return Ok(());
        }
        let expected = Text::from_str(alloc, self.as_str())?;
        Err(Refusal::Is(ChecksumIntegrityError {
            actual: actual.into(),
            expected,
        }))
    }
}

impl Clone for LoaderChecksum {
    ghost is_clone = { λ checksum copy. copy ≡ checksum };

    fn clone(&self) -> Result<LoaderChecksum, AllocError> {
        self.try_clone()
    }
}

impl fmt::Display for LoaderChecksum {
    ghost output = { λ checksum. Some checksum };

    fn fmt<W: fmt::Write>(&self, f: &mut fmt::Formatter<W>) -> fmt::Result {
        fmt::Display::fmt(&self.text, f)
    }
}

impl fmt::Debug for LoaderChecksum {
    fn fmt<W: fmt::Write>(&self, f: &mut fmt::Formatter<W>) -> fmt::Result {
        fmt::Debug::fmt(&self.text, f)
    }
}

impl PartialEq for LoaderChecksum {
    ghost eq = { bytes_eq };

    ghost laws = { partial_equiv_from_equiv nat_list_eq_equiv };

    fn eq(&self, other: &LoaderChecksum) -> bool {
        self.as_str() == other.as_str()
    }
}

impl Eq for LoaderChecksum {
    ghost laws = { nat_list_eq_equiv };
}

impl Hash for LoaderChecksum {
    ghost hash_input = { fed.str };

    ghost respects_eq = { Prim.search (hashing, rules) };

    fn hash<H: Hasher>(&self, state: &mut H) {
        self.as_str().hash(state);
    }
}
