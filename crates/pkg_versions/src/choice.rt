// Which versions a requirement takes, and the greatest of them.
ghost use Rattle.std.specs.Prelude.{◌≡◌, ◌&&◌, not, map, option_copied};
ghost use Rattle.std.specs.Iterator.{Drains, IsFinite};
ghost use Rattle.std.specs.List.{filter, list_any};
ghost use Rattle.semver_npm.specs.Versions.{Ver};
ghost use Rattle.pkg_versions.specs.Choice.{Listed, fits_known, greatest, is_match, is_pre_release, resolved_of, takes_pre_releases};
ghost use Rattle.pkg_versions.specs.Greater.{greater};
ghost use Rattle.pkg_versions.specs.Views.{offered_view, resolved_view};

use crate::package_info::{JsrPackageInfo, JsrPackageInfoVersion};
use semver_npm::{PlainVersion, VersionReq};
use std::cmp::Ordering;
use version_dates::NewestDependencyDate;

/// A requirement, and what else counts where the greatest version is looked for.
#[derive(Debug, Drop)]
pub struct ResolveVersionOptions<'a> {
    pub version_req: &'a VersionReq,
    /// A limit on the versions' dates.
    pub newest_dependency_date: Option<NewestDependencyDate>,
    /// Whether each pre-release matches.
    pub include_all_prereleases: bool,
}

/// The greatest version that matches within the date.
#[derive(Debug, Drop)]
pub enum ResolveVersionResult<'a> {
    Some(&'a PlainVersion),
    None {
        /// Whether some version matches, and is too new.
        had_higher_date_version: bool,
    },
}

fn is_pre_release(version: &PlainVersion) -> bool
    ensures { result ≡ is_pre_release version.now }
{
    !version.as_version().pre.is_empty()
}

/// Whether a requirement takes pre-releases because there is nothing else: it is a wildcard, and no
/// unyanked version of the package is a release.
pub fn prerelease_fallback_applies(version_req: &VersionReq, package_info: &JsrPackageInfo) -> bool
    ensures { result ≡ takes_pre_releases version_req.now package_info.now }
{
    version_req.is_wildcard() && !has_release(package_info)
}

fn has_release(info: &JsrPackageInfo) -> bool
    ensures { result
        ≡ list_any (λ (e : Listed). not e.1.yanked && not (is_pre_release e.0)) info.now.versions }
{
    for (version, entry) in info.versions.as_map().iter() {
        if !entry.yanked && !is_pre_release(version) {
            return true;
        }
    }
    false
}

/// Whether a version matches a requirement, or is a pre-release where all of these count.
pub fn version_matches(
    version_req: &VersionReq,
    version: &PlainVersion,
    include_all_prereleases: bool,
) -> bool
    ensures { result ≡ is_match version_req.now include_all_prereleases version.now }
{
    version_req.matches(version.as_version())
        || (include_all_prereleases && is_pre_release(version))
}

// The greater of the best version so far and another one.
pub(crate) fn greater<'a>(
    best: Option<&'a PlainVersion>,
    version: &'a PlainVersion,
) -> Option<&'a PlainVersion>
    ensures { option_copied result ≡ greater (option_copied best.entry) version.now }
{
    match best {
        Some(best) => if version.cmp(best) == Ordering::Less {
            Some(best)
        } else {
            Some(version)
        },
        None => Some(version),
    }
}

/// The greatest of some versions that matches a requirement within a limit on dates. A version of which
/// nothing is known counts as within it. `None` comes exactly where no version does so, and its flag
/// holds exactly where some version matches.
pub fn resolve_version<
    'a,
    I: Iterator<Item = (&'a PlainVersion, Option<&'a JsrPackageInfoVersion>)> + Drop,
>(options: ResolveVersionOptions<'_>, versions: I) -> ResolveVersionResult<'a>
    requires can { I.can_next versions }
    requires ends { IsFinite (I.remaining versions) }
    ensures { (vs : _) × Drains I.next_gives versions vs
        × (resolved_view result
        ≡ resolved_of options.entry.version_req.now options.entry.newest_dependency_date
        options.entry.include_all_prereleases (map offered_view vs)) }
{
    let ResolveVersionOptions {
        version_req,
        newest_dependency_date,
        include_all_prereleases,
    } = options;
    let mut best = None;
    let mut had_match = false;
    for (version, entry) in versions {
        let is_match = version_matches(version_req, version, include_all_prereleases);
        let fits = fits_known(&newest_dependency_date, entry);
        had_match |= is_match;
        if is_match && fits {
            best = greater(best, version);
        }
    }
    match best {
        Some(version) => ResolveVersionResult::Some(version),
        None => ResolveVersionResult::None {
            had_higher_date_version: had_match,
        },
    }
}

fn fits_known(limit: &Option<NewestDependencyDate>, entry: Option<&JsrPackageInfoVersion>) -> bool
    ensures { result ≡ fits_known limit.now (option_copied entry.entry) }
{
    match entry {
        Some(entry) => entry.fits(*limit),
        None => true,
    }
}
