// Versions: a text's version, and the version of a package, which contracts see by its parts.
ghost use Rattle.std.specs.Prelude.{◌≡◌, ◌≢◌, Some, IfOk, refl};
ghost use Rattle.std.proofs.Common.{ap};
ghost use Rattle.std.specs.Cmp.{eq_by_cmp_equiv, partial_equiv_from_equiv, partial_order_from_total};
ghost use Rattle.std.specs.Ordering.{eq_by_cmp};
ghost use Rattle.semver.specs.Identifiers.{parts_of, parts_text};
ghost use Rattle.semver.specs.Parse.{memory_error};
ghost use Rattle.spec_base.specs.declared.refusal.Refusal.TheVariants.{Memory, Is};
ghost use Rattle.semver_npm.specs.Versions.{AnswersVersion, ver_cmp};
ghost use Rattle.semver_npm.specs.OrderLaws.{same_ver, ver_total, ver_writes};

use semver::{Error, Version};
use spec_base::Refusal;
use std::alloc::{AllocError, Global};
use std::cmp::Ordering;
use std::fmt;
use std::hash::{Hash, Hasher};
use std::marker::Model;

/// A text is no version of SemVer 2.0 whose numbers have at most 64 bits.
#[derive(Clone, Copy, Debug, PartialEq, Eq)]
pub struct VersionFault;

/// The version of a text, by the grammar of SemVer 2.0 (semver.org).
///
/// `VersionFault` comes exactly where the text is no such version, or where one of its three numbers
/// has more than 64 bits.
pub fn parse_standard(alloc: Global, text: &str) -> Result<Version, Refusal<VersionFault>>
    ensures { AnswersVersion result text.now }
{
    match Version::parse(alloc, text) {
        Ok(version) => Ok(version),
        Err(error) => Err(refusal_of(error)),
    }
}

// Want of memory, told apart from a text that is no version.
fn refusal_of(error: Error) -> Refusal<VersionFault>
    ensures memory { error ≡ memory_error → result ≡ Memory }
    ensures other { (error ≢ memory_error) → result ≡ Is (record {}) }
{
    if error == Error::from(AllocError) {
        Refusal::Memory
    } else {
        Refusal::Is(VersionFault)
    }
}

/// A version of a package, which contracts see by its three numbers, its pre-release and its build
/// text.
#[derive(Drop)]
pub struct PlainVersion {
    version: Version,
}

impl Model for PlainVersion {
    ghost use Rattle.semver.specs.Identifiers.{parts_of};
    ghost use Rattle.semver_npm.specs.Versions.{Ver};

    ghost Value = { Ver };

    ghost view = { λ v. parts_of v.version };
}

impl PlainVersion {
    /// The version, for the calls of `semver`.
    pub fn as_version(&self) -> &Version
        ensures { parts_of result.now ≡ self.now }
    {
        &self.version
    }

    /// The version, with no copy.
    pub fn into_version(self) -> Version
        ensures { parts_of result ≡ self }
    {
        let PlainVersion { version } = self;
        version
    }

    /// A copy.
    pub fn try_clone(&self) -> Result<PlainVersion, AllocError>
        ensures { IfOk result (λ v. v ≡ self.now) }
    {
        let version = self.version.clone()?;
        Ok(PlainVersion { version })
    }
}

impl From<Version> for PlainVersion {
    ghost from_gives = { λ version v. v ≡ parts_of version };

    fn from(version: Version) -> PlainVersion {
        PlainVersion { version }
    }
}

impl Clone for PlainVersion {
    ghost is_clone = { λ v copy. copy ≡ v };

    fn clone(&self) -> Result<PlainVersion, AllocError> {
        self.try_clone()
    }
}

impl fmt::Display for PlainVersion {
    ghost output = { λ v. Some (parts_text v) };

    fn fmt<W: fmt::Write>(&self, f: &mut fmt::Formatter<W>) -> fmt::Result {
        fmt::Display::fmt(&self.version, f)
    }
}

impl fmt::Debug for PlainVersion {
    fn fmt<W: fmt::Write>(&self, f: &mut fmt::Formatter<W>) -> fmt::Result {
        fmt::Display::fmt(&self.version, f)
    }
}

impl PartialEq for PlainVersion {
    ghost eq = { eq_by_cmp ver_cmp };

    ghost laws = { partial_equiv_from_equiv (eq_by_cmp_equiv ver_total) };

    fn eq(&self, other: &PlainVersion) -> bool {
        self.version.cmp(&other.version) == Ordering::Equal
    }
}

impl Eq for PlainVersion {
    ghost laws = { eq_by_cmp_equiv ver_total };
}

impl PartialOrd for PlainVersion {
    ghost partial_cmp = { λ a b. Some (ver_cmp a b) };

    ghost laws = { partial_order_from_total ver_total };

    fn partial_cmp(&self, other: &PlainVersion) -> Option<Ordering> {
        Some(self.cmp(other))
    }
}

impl Ord for PlainVersion {
    ghost cmp = { ver_cmp };

    ghost total = { ver_total };

    ghost matches_partial_cmp = { λ a b. refl };

    ghost matches_eq = { λ a b. refl };

    fn cmp(&self, other: &PlainVersion) -> Ordering {
        self.version.cmp(&other.version)
    }
}

impl Hash for PlainVersion {
    ghost hash_input = { ver_writes };

    ghost respects_eq = { λ x y h. ap ver_writes (same_ver x y h) };

    fn hash<H: Hasher>(&self, state: &mut H) {
        self.version.hash(state);
    }
}
