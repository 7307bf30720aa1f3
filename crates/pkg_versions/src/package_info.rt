// What a package file of the registry says: the versions of a package.
ghost use Rattle.std.specs.Prelude.{◌≡◌, IfOk, None, false};
ghost use Rattle.pkg_versions.specs.Choice.{fits, is_yanked_in};
ghost use Rattle.version_dates.specs.Dates.{is_in_time};

use crate::timestamp::PlainTimestamp;
use pkg_records::SortedMap;
use semver_npm::PlainVersion;
use std::alloc::AllocError;
use version_dates::NewestDependencyDate;

/// What is said of one version.
#[derive(Clone, Debug, Drop)]
pub struct JsrPackageInfoVersion {
    /// When the version was published, where that is told.
    pub created_at: Option<PlainTimestamp>,
    /// Whether the version was withdrawn.
    pub yanked: bool,
}

impl JsrPackageInfoVersion {
    /// A copy.
    pub fn try_clone(&self) -> Result<JsrPackageInfoVersion, AllocError>
        ensures { IfOk result (λ entry. entry ≡ self.now) }
    {
        self.clone()
    }

    /// Whether the version may be used under a limit on dates: it has no date, or one strictly below it.
    pub fn matches_newest_dependency_date(&self, cutoff: NewestDependencyDate) -> bool
        ensures { result ≡ is_in_time cutoff self.now.created_at }
    {
        match &self.created_at {
            Some(date) => cutoff.matches(date.as_instant()),
            None => true,
        }
    }

    // Whether the version fits a limit, where there is one.
    pub(crate) fn fits(&self, limit: Option<NewestDependencyDate>) -> bool
        ensures { result ≡ fits limit self.now }
    {
        match limit {
            Some(limit) => self.matches_newest_dependency_date(limit),
            None => true,
        }
    }
}

impl Default for JsrPackageInfoVersion {
    ghost is_default = { λ entry. entry ≡ record { created_at = None; yanked = false } };

    /// Undated, and not yanked.
    fn default() -> JsrPackageInfoVersion {
        JsrPackageInfoVersion {
            created_at: None,
            yanked: false,
        }
    }
}

/// What a package file says: each version of the package.
#[derive(Debug)]
pub struct JsrPackageInfo {
    pub versions: SortedMap<PlainVersion, JsrPackageInfoVersion>,
    /// The version that the registry shows first.
    pub latest: Option<PlainVersion>,
}

// So that its drop is one call at each way out of what owns it.
impl Drop for JsrPackageInfo {
    fn drop(self) {
        let JsrPackageInfo {
            versions: _,
            latest: _,
        } = self;
    }
}

impl JsrPackageInfo {
    /// A copy.
    pub fn try_clone(&self) -> Result<JsrPackageInfo, AllocError>
        ensures { IfOk result (λ info. info ≡ self.now) }
    {
        let versions = self.versions.try_clone()?;
        let latest = self.latest.clone()?;
        Ok(JsrPackageInfo { versions, latest })
    }

    // Whether a version is known to be yanked.
    pub(crate) fn is_yanked(&self, version: &PlainVersion) -> bool
        ensures { result ≡ is_yanked_in self.now version.now }
    {
        match self.versions.get(version) {
            Some(entry) => entry.yanked,
            None => false,
        }
    }
}
