// Requirements on versions.
ghost use Rattle.std.specs.Prelude.{◌≡◌, Some, IfOk, refl, bytes_eq, option_copied};
ghost use Rattle.std.specs.Ordering.{nat_cmp};
ghost use Rattle.std.specs.Cmp.{partial_equiv_from_equiv};
ghost use Rattle.std.specs.Cmp.Lexicographic.{slice_cmp, nat_list_eq_equiv, nat_list_cmp_total, texts_ties, texts_po};
ghost use Rattle.semver.specs.Identifiers.{parts_of};
ghost use Rattle.spec_base.specs.Refusal.{Answers};
ghost use Rattle.semver_npm.specs.Meaning.{in_ranges};
ghost use Rattle.semver_npm.specs.Requirements.{IsMatch, IsRead, IsTagOf, IsWildcard};
ghost use Rattle.semver_npm.specs.Reader.{is_any_ranges, is_any_simples, is_wildcard, req_matches, requirement_of, tag_of};

use crate::range::Range;
use crate::reader::{is_tag_text, ranges};
use crate::simple::Simple;
use semver::Version;
use spec_base::{Items, Refusal, Text};
use std::alloc::{AllocError, Global};
use std::cmp::Ordering;
use std::fmt;
use std::marker::Model;

/// A text is no requirement; it holds the text.
#[derive(Clone, Debug, PartialEq, Eq, Drop)]
pub struct VersionReqFault {
    pub text: Text,
}

impl VersionReqFault {
    /// A copy.
    pub fn try_clone(&self) -> Result<VersionReqFault, AllocError>
        ensures { IfOk result (λ fault. fault ≡ self.now) }
    {
        self.clone()
    }
}

/// A requirement on versions, which contracts see as its text.
#[derive(Drop)]
pub struct VersionReq {
    text: Text,
    // None where the text is a tag.
    ranges: Option<Items<Range>>,
}

impl Model for VersionReq {
    ghost use Rattle.std.specs.Prelude.{◌≡◌, List, ℕ, true};
    ghost use Rattle.semver_npm.specs.Reader.{is_requirement, ranges_of};

    ghost Value = { List ℕ };

    ghost view = { λ r. r.text };

    ghost invariant = { λ r. (ranges_of r.text ≡ r.ranges) × (is_requirement r.text ≡ true) };
}

// Whether the ranges are one, of one simple without operator whose first part is an x.
fn is_any_ranges(ranges: &[Range]) -> bool
    ensures { result ≡ is_any_ranges ranges.now }
{
    match ranges {
        [range] => is_any_simples(range.as_slice()),
        _ => false,
    }
}

fn is_any_simples(simples: &[Simple]) -> bool
    ensures { result ≡ is_any_simples simples.now }
{
    match simples {
        [simple] => simple.is_any(),
        _ => false,
    }
}

// Whether a version lies in one of the ranges.
fn in_ranges(ranges: &[Range], version: &Version) -> bool
    ensures { result ≡ in_ranges ranges.now (parts_of version.now) }
{
    ranges.iter().any(|range| range.matches(version))
}

impl VersionReq {
    /// The requirement of a text: ranges by npm's range grammar (node-semver), or a tag, which is a
    /// letter followed by letters, digits, `-`, `_` and `.`.
    ///
    /// `VersionReqFault` comes exactly where the text is neither.
    pub fn parse_from_specifier(
        alloc: Global,
        text: &str,
    ) -> Result<VersionReq, Refusal<VersionReqFault>>
        ensures value { Answers result (requirement_of text.now) }
        ensures grammar { IsRead result text.now }
    {
        let found = ranges(alloc, text.as_bytes())?;
        let is_tag = found.is_none();
        let kept = Text::from_str(alloc, text)?;
        if is_tag && !is_tag_text(text.as_bytes()) {
            return Err(Refusal::Is(VersionReqFault { text: kept }));
        }
        Ok(VersionReq {
            text: kept,
            ranges: found,
        })
    }

    /// Whether a version matches: it lies in one of the ranges, and a pre-release only in one that
    /// names a pre-release of the same three numbers. A tag matches nothing.
    pub fn matches(&self, version: &Version) -> bool
        ensures value { result ≡ req_matches self.now (parts_of version.now) }
        ensures meaning { IsMatch result self.now (parts_of version.now) }
    {
        match &self.ranges {
            Some(ranges) => in_ranges(ranges.as_slice(), version),
            None => false,
        }
    }

    /// The tag, where the requirement is one.
    pub fn tag(&self) -> Option<&str>
        ensures value { option_copied result ≡ tag_of self.now }
        ensures meaning { IsTagOf (option_copied result) self.now }
    {
        match &self.ranges {
            Some(_) => None,
            None => Some(self.text.as_str()),
        }
    }

    /// Whether the requirement is one range of one simple without operator whose first part is an x.
    pub fn is_wildcard(&self) -> bool
        ensures value { result ≡ is_wildcard self.now }
        ensures meaning { IsWildcard result self.now }
    {
        if let Some(ranges) = &self.ranges {
            is_any_ranges(ranges.as_slice())
        } else {
            false
        }
    }

    /// The requirement's own text, as it was read.
    pub fn as_str(&self) -> &str
        ensures { result.now ≡ self.now }
    {
        self.text.as_str()
    }

    /// A copy.
    pub fn try_clone(&self) -> Result<VersionReq, AllocError>
        ensures { IfOk result (λ r. r ≡ self.now) }
    {
        let text = self.text.try_clone()?;
        let ranges = match &self.ranges {
            Some(ranges) => Some(ranges.try_clone()?),
            None => None,
        };
        Ok(VersionReq { text, ranges })
    }
}

impl Clone for VersionReq {
    ghost is_clone = { λ r copy. copy ≡ r };

    fn clone(&self) -> Result<VersionReq, AllocError> {
        self.try_clone()
    }
}

impl fmt::Display for VersionReq {
    ghost output = { λ r. Some r };

    fn fmt<W: fmt::Write>(&self, f: &mut fmt::Formatter<W>) -> fmt::Result {
        fmt::Display::fmt(&self.as_str(), f)
    }
}

impl fmt::Debug for VersionReq {
    fn fmt<W: fmt::Write>(&self, f: &mut fmt::Formatter<W>) -> fmt::Result {
        fmt::Debug::fmt(&self.as_str(), f)
    }
}

impl PartialEq for VersionReq {
    ghost eq = { bytes_eq };

    ghost laws = { partial_equiv_from_equiv nat_list_eq_equiv };

    fn eq(&self, other: &VersionReq) -> bool {
        self.as_str() == other.as_str()
    }
}

impl Eq for VersionReq {
    ghost laws = { nat_list_eq_equiv };
}

impl PartialOrd for VersionReq {
    ghost partial_cmp = { λ a b. Some (slice_cmp nat_cmp a b) };

    ghost laws = { texts_po };

    fn partial_cmp(&self, other: &VersionReq) -> Option<Ordering> {
        Some(self.cmp(other))
    }
}

impl Ord for VersionReq {
    ghost cmp = { slice_cmp nat_cmp };

    ghost total = { nat_list_cmp_total };

    ghost matches_partial_cmp = { λ a b. refl };

    ghost matches_eq = { texts_ties };

    fn cmp(&self, other: &VersionReq) -> Ordering {
        self.as_str().cmp(other.as_str())
    }
}
