// One simple of a range: an operator and a partial version, and the versions that meet it.
ghost use Rattle.std.specs.Prelude.{◌≡◌, ◌&&◌, option_map};
ghost use Rattle.std.specs.Ordering.{is_ge, is_gt, is_le, is_lt};
ghost use Rattle.semver.specs.Identifiers.{parts_of};
ghost use Rattle.semver_npm.specs.Meaning.{at_least, at_most, below, caret_end, caret_end_of, exactly, from_end, greater_than, in_simple, is_under, less_than, major_end, minor_end, names_pre, patch_end, tilde_end_of, within};
ghost use Rattle.semver_npm.specs.Reader.{is_any_partial, is_plain};
ghost use Rattle.semver_npm.specs.Versions.{precedence};

use crate::version::PlainVersion;
use semver::Version;

/// What stands before a partial version.
#[derive(Clone, Copy, Debug, PartialEq, Eq)]
pub enum Operator {
    /// Nothing.
    Plain,
    /// `=`
    Exact,
    /// `<`
    Less,
    /// `<=`
    AtMost,
    /// `>`
    Greater,
    /// `>=`
    AtLeast,
    /// `^`
    Caret,
    /// `~`
    Tilde,
}

/// A version of which parts may be missing; what follows an x is missing too.
#[derive(Clone, Debug, Drop)]
pub enum Partial {
    /// `*`
    Any,
    /// `1`
    Major(u64),
    /// `1.2`
    Minor(u64, u64),
    /// `1.2.3`, with a pre-release and build text where they are given
    Full(PlainVersion),
}

/// An operator and a partial version.
#[derive(Clone, Debug, Drop)]
pub struct Simple {
    pub operator: Operator,
    pub partial: Partial,
}

fn is_at_least(version: &Version, bound: &Version) -> bool
    ensures { result ≡ is_ge (precedence (parts_of version.now) (parts_of bound.now)) }
{
    version.cmp_precedence(bound).is_ge()
}

fn is_above(version: &Version, bound: &Version) -> bool
    ensures { result ≡ is_gt (precedence (parts_of version.now) (parts_of bound.now)) }
{
    version.cmp_precedence(bound).is_gt()
}

fn is_at_most(version: &Version, bound: &Version) -> bool
    ensures { result ≡ is_le (precedence (parts_of version.now) (parts_of bound.now)) }
{
    version.cmp_precedence(bound).is_le()
}

fn is_below(version: &Version, bound: &Version) -> bool
    ensures { result ≡ is_lt (precedence (parts_of version.now) (parts_of bound.now)) }
{
    version.cmp_precedence(bound).is_lt()
}

// Whether a version lies below an end; where there is none, it does.
fn is_before(version: &Version, end: &Option<Version>) -> bool
    ensures { result ≡ is_under (below (option_map parts_of end.now)) (parts_of version.now) }
{
    match end {
        Some(end) => is_below(version, end),
        None => true,
    }
}

// Whether a version lies at an end or after it; where there is none, it doesn't.
fn is_from(version: &Version, end: &Option<Version>) -> bool
    ensures { result ≡ within (from_end (option_map parts_of end.now)) (parts_of version.now) }
{
    match end {
        Some(end) => is_at_least(version, end),
        None => false,
    }
}

// The first version of the next major number, where 64 bits hold it.
fn major_end(major: u64) -> Option<Version>
    ensures { option_map parts_of result ≡ major_end major }
{
    Some(Version::new(major.checked_add(1)?, 0, 0))
}

// The first version of the next minor number, where 64 bits hold it.
fn minor_end(major: u64, minor: u64) -> Option<Version>
    ensures { option_map parts_of result ≡ minor_end major minor }
{
    Some(Version::new(major, minor.checked_add(1)?, 0))
}

// The version of the next patch number, where 64 bits hold it.
fn patch_end(major: u64, minor: u64, patch: u64) -> Option<Version>
    ensures { option_map parts_of result ≡ patch_end major minor patch }
{
    Some(Version::new(major, minor, patch.checked_add(1)?))
}

// The next of the first number that isn't 0, or of the last where all are.
fn caret_end(version: &Version) -> Option<Version>
    ensures { option_map parts_of result
        ≡ caret_end version.now.major version.now.minor version.now.patch }
{
    if version.major != 0 {
        major_end(version.major)
    } else if version.minor != 0 {
        minor_end(version.major, version.minor)
    } else {
        patch_end(version.major, version.minor, version.patch)
    }
}

impl Operator {
    fn is_plain(self) -> bool
        ensures { result ≡ is_plain self }
    {
        match self {
            Operator::Plain => true,
            Operator::Exact => false,
            Operator::Less => false,
            Operator::AtMost => false,
            Operator::Greater => false,
            Operator::AtLeast => false,
            Operator::Caret => false,
            Operator::Tilde => false,
        }
    }
}

impl Partial {
    fn is_any(&self) -> bool
        ensures { result ≡ is_any_partial self.now }
    {
        match self {
            Partial::Any => true,
            Partial::Major(_) => false,
            Partial::Minor(_, _) => false,
            Partial::Full(_) => false,
        }
    }

    // Without an operator, or with `=`.
    fn exactly(&self, version: &Version) -> bool
        ensures { result ≡ within (exactly self.now) (parts_of version.now) }
    {
        match self {
            Partial::Any => true,
            Partial::Major(major) => {
                is_at_least(version, &Version::new(*major, 0, 0))
                    && is_before(version, &major_end(*major))
            }
            Partial::Minor(major, minor) => {
                is_at_least(version, &Version::new(*major, *minor, 0))
                    && is_before(version, &minor_end(*major, *minor))
            }
            Partial::Full(full) => {
                is_at_least(version, full.as_version()) && is_at_most(version, full.as_version())
            }
        }
    }

    // After `<`.
    fn less_than(&self, version: &Version) -> bool
        ensures { result ≡ within (less_than self.now) (parts_of version.now) }
    {
        match self {
            Partial::Any => false,
            Partial::Major(major) => is_below(version, &Version::new(*major, 0, 0)),
            Partial::Minor(major, minor) => is_below(version, &Version::new(*major, *minor, 0)),
            Partial::Full(full) => is_below(version, full.as_version()),
        }
    }

    // After `<=`.
    fn at_most(&self, version: &Version) -> bool
        ensures { result ≡ within (at_most self.now) (parts_of version.now) }
    {
        match self {
            Partial::Any => true,
            Partial::Major(major) => is_before(version, &major_end(*major)),
            Partial::Minor(major, minor) => is_before(version, &minor_end(*major, *minor)),
            Partial::Full(full) => is_at_most(version, full.as_version()),
        }
    }

    // After `>`.
    fn greater_than(&self, version: &Version) -> bool
        ensures { result ≡ within (greater_than self.now) (parts_of version.now) }
    {
        match self {
            Partial::Any => false,
            Partial::Major(major) => is_from(version, &major_end(*major)),
            Partial::Minor(major, minor) => is_from(version, &minor_end(*major, *minor)),
            Partial::Full(full) => is_above(version, full.as_version()),
        }
    }

    // After `>=`.
    fn at_least(&self, version: &Version) -> bool
        ensures { result ≡ within (at_least self.now) (parts_of version.now) }
    {
        match self {
            Partial::Any => true,
            Partial::Major(major) => is_at_least(version, &Version::new(*major, 0, 0)),
            Partial::Minor(major, minor) => is_at_least(version, &Version::new(*major, *minor, 0)),
            Partial::Full(full) => is_at_least(version, full.as_version()),
        }
    }

    // The end of the versions after `^`.
    fn caret_end(&self) -> Option<Version>
        ensures { option_map parts_of result ≡ caret_end_of self.now }
    {
        match self {
            Partial::Any => None,
            Partial::Major(given) => major_end(*given),
            Partial::Minor(0, minor) => minor_end(0, *minor),
            Partial::Minor(major, _) => major_end(*major),
            Partial::Full(full) => caret_end(full.as_version()),
        }
    }

    // The end of the versions after `~`.
    fn tilde_end(&self) -> Option<Version>
        ensures { option_map parts_of result ≡ tilde_end_of self.now }
    {
        match self {
            Partial::Any => None,
            Partial::Major(major) => major_end(*major),
            Partial::Minor(major, minor) => minor_end(*major, *minor),
            Partial::Full(full) => minor_end(full.as_version().major, full.as_version().minor),
        }
    }

    // Whether the partial version has a pre-release, and the version's three numbers.
    fn names_pre(&self, version: &Version) -> bool
        ensures { result ≡ names_pre self.now (parts_of version.now) }
    {
        match self {
            Partial::Any => false,
            Partial::Major(_) => false,
            Partial::Minor(_, _) => false,
            Partial::Full(full) => {
                let full = full.as_version();
                !full.pre.is_empty()
                    && (full.major == version.major
                        && (full.minor == version.minor && full.patch == version.patch))
            }
        }
    }
}

impl Simple {
    /// Whether a version meets the operator and the partial version, pre-releases too.
    pub(crate) fn matches(&self, version: &Version) -> bool
        ensures { result ≡ in_simple self.now (parts_of version.now) }
    {
        let partial = &self.partial;
        match self.operator {
            Operator::Plain => partial.exactly(version),
            Operator::Exact => partial.exactly(version),
            Operator::Less => partial.less_than(version),
            Operator::AtMost => partial.at_most(version),
            Operator::Greater => partial.greater_than(version),
            Operator::AtLeast => partial.at_least(version),
            Operator::Caret => partial.at_least(version)
                && is_before(version, &partial.caret_end()),
            Operator::Tilde => partial.at_least(version)
                && is_before(version, &partial.tilde_end()),
        }
    }

    /// Whether there is no operator, and the first part is an x.
    pub(crate) fn is_any(&self) -> bool
        ensures { result ≡ is_plain self.now.operator && is_any_partial self.now.partial }
    {
        self.operator.is_plain() && self.partial.is_any()
    }

    /// Whether the partial version has a pre-release, and the version's three numbers.
    pub(crate) fn names_pre(&self, version: &Version) -> bool
        ensures { result ≡ names_pre self.now.partial (parts_of version.now) }
    {
        self.partial.names_pre(version)
    }
}
