// The version that a requirement picks, by classes: versions in use, cached ones, and all that a package file lists.
ghost use Rattle.std.specs.Prelude.{◌≡◌, ◌&&◌, IfOk, map, not, option_copied};
ghost use Rattle.std.specs.Iterator.{Drains, IsFinite};
ghost use Rattle.std.specs.List.{filter, list_any};
ghost use Rattle.std.specs.Option.{option_or};
ghost use Rattle.spec_base.specs.Refusal.{Answers};
ghost use Rattle.pkg_versions.specs.Choice.{Listed, best_of, choice_of, fits, greatest, is_match, limit_met, listed, takes_pre_releases};
ghost use Rattle.version_dates.specs.Dates.{limit_of};
ghost use Rattle.pkg_versions.specs.Greater.{is_of_class};
ghost use Rattle.pkg_versions.specs.Views.{IfIs, chosen_view};
ghost use Rattle.pkg_versions.specs.declared.resolver.Class.TheVariants.{CachedUnyanked, Unyanked, Yanked};

use crate::choice::{greater, prerelease_fallback_applies, version_matches};
use crate::package_info::{JsrPackageInfo, JsrPackageInfoVersion};
use semver_npm::{PackageName, PackageReq, PlainVersion, VersionReq};
use spec_base::Refusal;
use std::alloc::{AllocError, Global};
use std::collections::BTreeSet;
use version_dates::{
    JsrPackageReqNotFoundError, NewestDependencyDate, NewestDependencyDateOptions,
};

/// Picks versions of packages, under a limit on their dates.
#[derive(Debug, Drop)]
pub struct JsrVersionResolver {
    pub newest_dependency_date_options: NewestDependencyDateOptions,
}

impl JsrVersionResolver {
    /// The resolver for one package, over its package file.
    pub fn get_for_package<'a>(
        &'a self,
        package_name: &PackageName,
        package_info: &'a JsrPackageInfo,
    ) -> JsrPackageVersionResolver<'a>
        ensures info { result.package_info.now ≡ package_info.now }
        ensures limit { result.newest_dependency_date
            ≡ limit_of self.now.newest_dependency_date_options package_name.now }
    {
        JsrPackageVersionResolver {
            newest_dependency_date: self
                .newest_dependency_date_options
                .get_for_package(package_name),
            package_info,
        }
    }

    /// A copy.
    pub fn try_clone(&self) -> Result<JsrVersionResolver, AllocError>
        ensures { IfOk result (λ resolver. resolver ≡ self.now) }
    {
        let newest_dependency_date_options = self.newest_dependency_date_options.try_clone()?;
        Ok(JsrVersionResolver {
            newest_dependency_date_options,
        })
    }
}

/// A version that was picked.
#[derive(Debug, Drop)]
pub struct JsrVersionResolverResolvedVersion<'a> {
    /// Whether the package file says that the version was withdrawn.
    pub is_yanked: bool,
    pub version: &'a PlainVersion,
}

/// Picks versions of one package.
#[derive(Debug, Drop)]
pub struct JsrPackageVersionResolver<'a> {
    // None sets no limit.
    newest_dependency_date: Option<NewestDependencyDate>,
    package_info: &'a JsrPackageInfo,
}

/// The classes of listed versions, in the order in which they are looked through.
#[derive(Clone, Copy)]
enum Class {
    CachedUnyanked,
    Unyanked,
    Yanked,
}

impl<'a> JsrPackageVersionResolver<'a> {
    /// What the package file says.
    pub fn info(&self) -> &'a JsrPackageInfo
        ensures { result.now ≡ self.now.package_info.now }
    {
        self.package_info
    }

    /// Whether a version may be used under the package's limit; each may where there is none.
    pub fn matches_newest_dependency_date(&self, version_info: &JsrPackageInfoVersion) -> bool
        ensures { result ≡ fits self.now.newest_dependency_date version_info.now }
    {
        version_info.fits(self.newest_dependency_date)
    }

    /// The greatest version of the first class that has one that meets the requirement: the existing
    /// versions, whatever their date; then, within the limit on dates, the cached unyanked versions, the
    /// unyanked ones, and the yanked ones. A wildcard takes pre-releases too, where no unyanked version is
    /// a release.
    ///
    /// `JsrPackageReqNotFoundError` comes exactly where no class has such a version. It carries the limit
    /// exactly where the package file lists one that the limit refused.
    pub fn resolve_version<'b, I: Iterator<Item = &'b PlainVersion> + Drop>(
        &'b self,
        package_req: &PackageReq,
        existing_versions: I,
        cached_versions: &BTreeSet<PlainVersion>,
    ) -> Result<JsrVersionResolverResolvedVersion<'b>, Refusal<JsrPackageReqNotFoundError>>
        requires can { I.can_next existing_versions }
        requires ends { IsFinite (I.remaining existing_versions) }
        ensures { (existing : _) × Drains I.next_gives existing_versions existing
            × Answers (chosen_view result) (choice_of package_req.now self.now.package_info.now
            (map (λ v. v.now) existing) cached_versions.now.keys self.now.newest_dependency_date) }
    {
        match self.best(&package_req.version_req, existing_versions, cached_versions) {
            Some(version) => Ok(JsrVersionResolverResolvedVersion {
                is_yanked: self.package_info.is_yanked(version),
                version,
            }),
            None => Err(self.not_found(package_req)),
        }
    }

    // The greatest match of the first class that has one.
    fn best<'b, I: Iterator<Item = &'b PlainVersion> + Drop>(
        &'b self,
        req: &VersionReq,
        existing: I,
        cached: &BTreeSet<PlainVersion>,
    ) -> Option<&'b PlainVersion>
        requires can { I.can_next existing }
        requires ends { IsFinite (I.remaining existing) }
        ensures { (vs : _) × Drains I.next_gives existing vs
            × (option_copied result
            ≡ best_of req.now self.now.package_info.now (map (λ v. v.now) vs)
            cached.now.keys self.now.newest_dependency_date) }
    {
        let all_pre = prerelease_fallback_applies(req, self.package_info);
        match greatest_match(req, all_pre, existing) {
            Some(version) => Some(version),
            None => self.first_listed(req, all_pre, cached),
        }
    }

    // The greatest match of the first class of listed versions that has one.
    fn first_listed(
        &self,
        req: &VersionReq,
        all_pre: bool,
        cached: &BTreeSet<PlainVersion>,
    ) -> Option<&'a PlainVersion>
        ensures { let within = λ (e : Listed).
            is_match req.now all_pre e.0 && fits self.now.newest_dependency_date e.1 in
            option_copied result
            ≡ option_or
            (greatest (listed (λ e. within e && is_of_class cached.now.keys CachedUnyanked e)
            self.now.package_info.now))
            (option_or
            (greatest (listed (λ e. within e && is_of_class cached.now.keys Unyanked e)
            self.now.package_info.now))
            (greatest (listed (λ e. within e && is_of_class cached.now.keys Yanked e)
            self.now.package_info.now))) }
    {
        if let Some(version) = self.greatest_listed(req, all_pre, cached, Class::CachedUnyanked) {
            return Some(version);
        }
        if let Some(version) = self.greatest_listed(req, all_pre, cached, Class::Unyanked) {
            return Some(version);
        }
        self.greatest_listed(req, all_pre, cached, Class::Yanked)
    }

    // The greatest match of one class of listed versions.
    #[tactic(auto, using(crate::proofs::Greatest::greatest_after_all), unfolding(crate::specs::Greater::greatest_after))]
    fn greatest_listed(
        &self,
        req: &VersionReq,
        all_pre: bool,
        cached: &BTreeSet<PlainVersion>,
        class: Class,
    ) -> Option<&'a PlainVersion>
        ensures { option_copied result ≡ greatest (listed (λ e. (is_match req.now all_pre e.0 && fits self.now.newest_dependency_date e.1)
            && is_of_class cached.now.keys class e) self.now.package_info.now) }
    {
        let mut best = None;
        for (version, entry) in self.package_info.versions.as_map().iter() {
            if version_matches(req, version, all_pre)
                && entry.fits(self.newest_dependency_date)
                && is_of_class(version, entry, cached, class)
            {
                best = greater(best, version);
            }
        }
        best
    }

    // That there is no version, with the limit where it refused one that the package file lists.
    fn not_found(&self, package_req: &PackageReq) -> Refusal<JsrPackageReqNotFoundError>
        ensures { IfIs result
            (λ e. e
            ≡ record {
              req = package_req.now;
              newest_dependency_date = limit_met
                  package_req.now.version_req self.now.package_info.now
                  self.now.newest_dependency_date;
            }) }
    {
        let req = match package_req.try_clone() {
            Ok(req) => req,
            Err(_) => return Refusal::Memory,
        };
        let newest_dependency_date = if self.limit_is_met(&package_req.version_req) {
            self.newest_dependency_date
        } else {
            None
        };
        Refusal::Is(JsrPackageReqNotFoundError {
            req,
            newest_dependency_date,
        })
    }

    fn limit_is_met(&self, req: &VersionReq) -> bool
        ensures { result ≡ list_any (λ (e : Listed). is_match req.now (takes_pre_releases req.now self.now.package_info.now) e.0
            && not (fits self.now.newest_dependency_date e.1)) self.now.package_info.now.versions }
    {
        let all_pre = prerelease_fallback_applies(req, self.package_info);
        for (version, entry) in self.package_info.versions.as_map().iter() {
            if version_matches(req, version, all_pre) && !entry.fits(self.newest_dependency_date) {
                return true;
            }
        }
        false
    }
}

// Whether a listed version is of a class.
fn is_of_class(
    version: &PlainVersion,
    entry: &JsrPackageInfoVersion,
    cached: &BTreeSet<PlainVersion>,
    class: Class,
) -> bool
    ensures { result ≡ is_of_class cached.now.keys class (version.now, entry.now) }
{
    match class {
        Class::CachedUnyanked => !entry.yanked && cached.contains(version),
        Class::Unyanked => !entry.yanked,
        Class::Yanked => entry.yanked,
    }
}

// The greatest match of some versions.
#[tactic(auto, using(crate::proofs::Greatest::greatest_after_all, crate::proofs::Greatest::greatest_after_more))]
fn greatest_match<'b, I: Iterator<Item = &'b PlainVersion> + Drop>(
    req: &VersionReq,
    all_pre: bool,
    versions: I,
) -> Option<&'b PlainVersion>
    requires can { I.can_next versions }
    requires ends { IsFinite (I.remaining versions) }
    ensures { (vs : _) × Drains I.next_gives versions vs
        × (option_copied result ≡ greatest (filter (is_match req.now all_pre) (map (λ v. v.now) vs))) }
{
    let mut best = None;
    for version in versions {
        if version_matches(req, version, all_pre) {
            best = greater(best, version);
        }
    }
    best
}
