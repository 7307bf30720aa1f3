// The dates that the versions of packages must be below, and the packages that they bind.
ghost use Rattle.std.specs.Prelude.{◌≡◌, None, Some, IfOk, [], nat_eq, pos, option_copied};
ghost use Rattle.std.specs.List.{list_any, starts_with};
ghost use Rattle.version_dates.specs.Dates.{date_for, is_below, is_excluded, is_longer, limit_of, longest_prefix};
ghost use Rattle.version_dates.specs.Times.{limit_text};

use crate::plain_instant::{PlainInstant, instant_of, timestamp_of};
use crate::sorted_set::SortedSet;
use jiff::Timestamp;
use jiff::fmt::temporal::DateTimePrinter;
use jiff::tz::Offset;
use semver_npm::PackageName;
use spec_base::Items;
use std::alloc::{AllocError, Global};
use std::fmt;

/// A limit on dates: what is older than it counts.
#[derive(Clone, Copy, Debug, PartialEq, Eq)]
pub struct NewestDependencyDate(pub PlainInstant);

impl NewestDependencyDate {
    /// Whether a date is strictly below the limit.
    pub fn matches(&self, date: PlainInstant) -> bool
        ensures { result ≡ is_below self.now date }
    {
        date.nanosecond() < self.0.nanosecond()
    }
}

impl Default for NewestDependencyDate {
    ghost is_default = { λ limit. limit.0 ≡ pos 0 };

    /// 1970-01-01T00:00:00Z.
    fn default() -> NewestDependencyDate {
        NewestDependencyDate(instant_of(Timestamp::UNIX_EPOCH))
    }
}

impl fmt::Display for NewestDependencyDate {
    ghost output = { λ limit. Some (limit_text limit.0) };

    /// `YYYY-MM-DD HH:MM:SS UTC`, without a fraction of the second; a year below 0 is a sign and six digits.
    fn fmt<W: fmt::Write>(&self, f: &mut fmt::Formatter<W>) -> fmt::Result {
        let shown = Offset::UTC.to_datetime(timestamp_of(self.0)).to_plain();
        let printer = DateTimePrinter::new().separator(b' ').precision(Some(0));
        let text = printer.datetime_text(shown);
        let text = text.as_str();
        write!(f, "{text} UTC")
    }
}

/// The limit on the dates of the packages whose names begin so.
#[derive(Clone, Debug, PartialEq, Eq, Drop)]
pub struct PrefixDate {
    pub prefix: PackageName,
    pub date: NewestDependencyDate,
}

/// The limits on the dates of versions, and the packages that they don't bind.
#[derive(Debug)]
pub struct NewestDependencyDateOptions {
    /// The limit for a package that no prefix names. None sets none.
    pub date: Option<NewestDependencyDate>,
    /// Packages whose versions count whatever their date.
    pub exclude_jsr_pkgs: SortedSet<PackageName>,
    /// Beginnings of the names of such packages.
    pub exclude_jsr_pkg_prefixes: Items<PackageName>,
    /// Limits for the packages whose names begin so: the longest beginning counts, and of equal ones the first.
    pub prefix_dates: Items<PrefixDate>,
}

// So that its drop is one call at each way out of what owns it.
impl Drop for NewestDependencyDateOptions {
    fn drop(self) {
        let NewestDependencyDateOptions {
            date: _,
            exclude_jsr_pkgs: _,
            exclude_jsr_pkg_prefixes: _,
            prefix_dates: _,
        } = self;
    }
}

impl NewestDependencyDateOptions {
    /// A limit that binds each package.
    pub fn from_date(alloc: Global, date: PlainInstant) -> NewestDependencyDateOptions
        ensures { result
            ≡ record {
              date = Some (record { 0 = date });
              exclude_jsr_pkgs = [];
              exclude_jsr_pkg_prefixes = [];
              prefix_dates = [];
            } }
    {
        NewestDependencyDateOptions {
            date: Some(NewestDependencyDate(date)),
            exclude_jsr_pkgs: SortedSet::new(alloc),
            exclude_jsr_pkg_prefixes: Items::new(alloc),
            prefix_dates: Items::new(alloc),
        }
    }

    /// The limit for a package: None where the name is excluded, or an excluded prefix begins it; else the date of the
    /// longest prefix that begins it, the first of equal ones; else the date that binds each package, where one is set.
    pub fn get_for_package(&self, package_name: &PackageName) -> Option<NewestDependencyDate>
        ensures { result ≡ limit_of self.now package_name.now }
    {
        if self.is_excluded(package_name) {
            None
        } else {
            self.date_for(package_name)
        }
    }

    fn is_excluded(&self, package_name: &PackageName) -> bool
        ensures { result ≡ is_excluded self.now package_name.now }
    {
        self.exclude_jsr_pkgs.contains(package_name)
            || begins_with_one(package_name, self.exclude_jsr_pkg_prefixes.as_slice())
    }

    // The limit for a package that isn't excluded.
    fn date_for(&self, package_name: &PackageName) -> Option<NewestDependencyDate>
        ensures { result ≡ date_for self.now package_name.now }
    {
        match longest_prefix(package_name, self.prefix_dates.as_slice()) {
            Some(longest) => Some(longest.date),
            None => self.date,
        }
    }

    /// A copy.
    pub fn try_clone(&self) -> Result<NewestDependencyDateOptions, AllocError>
        ensures { IfOk result (λ options. options ≡ self.now) }
    {
        let exclude_jsr_pkgs = self.exclude_jsr_pkgs.try_clone()?;
        let exclude_jsr_pkg_prefixes = self.exclude_jsr_pkg_prefixes.try_clone()?;
        let prefix_dates = self.prefix_dates.try_clone()?;
        Ok(NewestDependencyDateOptions {
            date: self.date,
            exclude_jsr_pkgs,
            exclude_jsr_pkg_prefixes,
            prefix_dates,
        })
    }
}

fn begins_with_one(name: &PackageName, prefixes: &[PackageName]) -> bool
    ensures { result ≡ list_any (starts_with nat_eq name.now) prefixes.now }
{
    for prefix in prefixes {
        if begins(name, prefix) {
            return true;
        }
    }
    false
}

fn begins(name: &PackageName, prefix: &PackageName) -> bool
    ensures { result ≡ starts_with nat_eq name.now prefix.now }
{
    let name = name.as_str().as_bytes();
    name.starts_with(prefix.as_str().as_bytes())
}

// The longest prefix that begins a name, the first of equal ones.
fn longest_prefix<'a>(name: &PackageName, dates: &'a [PrefixDate]) -> Option<&'a PrefixDate>
    ensures { option_copied result ≡ longest_prefix name.now dates.now }
{
    let mut found = None;
    for date in dates {
        if begins(name, &date.prefix) && is_longer(found, &date.prefix) {
            found = Some(date);
        }
    }
    found
}

fn is_longer(found: Option<&PrefixDate>, prefix: &PackageName) -> bool
    ensures { result ≡ is_longer (option_copied found.entry) prefix.now }
{
    match found {
        Some(date) => date.prefix.as_str().len() < prefix.as_str().len(),
        None => true,
    }
}
