// The registry that a build asks, and what is asked of it.
use build_reports::Reporter;
use graph_errors::JsrLoadError;
use metadata_store::{NameAnswers, VersionAnswers};
use pkg_versions::{JsrPackageInfo, JsrVersionResolver};
use semver_npm::{PackageName, PackageNv};
use source_io::JsrUrlProvider;

/// The registry that a build asks, what picks versions of its packages, and what hears of the choices.
#[derive(Drop)]
pub struct Registry<'a, U: JsrUrlProvider, R: Reporter> {
    pub urls: &'a U,
    pub versions: &'a JsrVersionResolver,
    pub reporter: Option<&'a R>,
}

/// A file of the registry that a pass asks about.
#[derive(Drop)]
pub enum RegistryFile {
    /// The file of a package.
    Package(PackageName),
    /// The same once more, under Reload, where no version met a requirement.
    PackageAgain(PackageName),
    /// The file of a version.
    Version(PackageNv),
    /// The same, where a cache holds it: whether it does is all that counts.
    Probe(PackageNv),
}

/// What was answered about the files of packages.
pub type PackageFiles = NameAnswers<Result<JsrPackageInfo, JsrLoadError>>;

/// Whether a cache holds the files of versions, of those that were looked for.
pub type ProbedVersions = VersionAnswers<bool>;
