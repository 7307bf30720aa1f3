// Why a registry of packages gives no module.
ghost use Rattle.std.specs.Prelude.{◌≡◌, IfOk};
ghost use Rattle.graph_errors.specs.declared.jsr_error.JsrLoadError.TheVariants.{PackageManifestLoad, PackageVersionManifestLoad, PackageVersionManifestChecksumIntegrity, UnknownExport, UnjoinableExport};

use semver_npm::{PackageName, PackageNv, PackageReqReferenceParseError};
use spec_base::{Boxed, ChecksumIntegrityError, Fault, Items, LoadError, ModuleSpecifier, Text};
use std::alloc::AllocError;
use version_dates::JsrPackageReqNotFoundError;

/// Why a `jsr:` specifier names no package that can be looked for.
#[derive(Clone, Debug, PartialEq, Eq, Drop)]
pub enum JsrPackageFormatError {
    /// The specifier is no reference to a package.
    JsrPackageParseError(PackageReqReferenceParseError),
    /// The requirement is a tag.
    VersionTagNotSupported { tag: Text },
}

/// Why a registry of packages gives no module.
#[derive(Debug, PartialEq, Eq)]
pub enum JsrLoadError {
    /// The sum of a version's file, as the package's file tells it, is of no form that is known.
    UnsupportedManifestChecksum,
    /// The content isn't the one whose sum is known.
    ContentChecksumIntegrity(ChecksumIntegrityError),
    /// The loader answered content by a module outside of the graph.
    ContentLoadExternalSpecifier,
    /// The loader answered a failure for content.
    ContentLoad(LoadError),
    /// The loader answered a failure for the package's file, or what it answered isn't such a file.
    PackageManifestLoad(PackageName, LoadError),
    /// The registry has no package of this name.
    PackageNotFound(PackageName),
    /// The registry has no file of this version.
    PackageVersionNotFound(Boxed<PackageNv>),
    /// The loader answered a failure for the version's file, or what it answered isn't such a file.
    PackageVersionManifestLoad(Boxed<PackageNv>, Fault),
    /// The version's file isn't the one whose sum is known.
    PackageVersionManifestChecksumIntegrity(Boxed<PackageNv>, ChecksumIntegrityError),
    /// The specifier names no package that can be looked for.
    PackageFormat(JsrPackageFormatError),
    /// No version of the package meets the requirement.
    PackageReqNotFound(JsrPackageReqNotFoundError),
    /// A file of the registry is answered by a redirect, which leads to this specifier.
    RedirectInPackage(ModuleSpecifier),
    /// The version has no export of this name.
    UnknownExport {
        nv: Boxed<PackageNv>,
        export_name: Text,
        /// The names of the exports that the version has, in their order.
        exports: Items<Text>,
    },
    /// What the version's file has for the export is no path within the package.
    UnjoinableExport {
        nv: Boxed<PackageNv>,
        export_name: Text,
        value: Text,
    },
}

// So that its drop is one call at each way out of what owns it.
impl Drop for JsrLoadError {
    fn drop(self) {
        match self {
            JsrLoadError::UnsupportedManifestChecksum => (),
            JsrLoadError::ContentChecksumIntegrity(value) => drop(value),
            JsrLoadError::ContentLoadExternalSpecifier => (),
            JsrLoadError::ContentLoad(value) => drop(value),
            JsrLoadError::PackageManifestLoad(value_0, value_1) => {
                drop(value_0);
                drop(value_1);
            }
            JsrLoadError::PackageNotFound(value) => drop(value),
            JsrLoadError::PackageVersionNotFound(value) => drop(value),
            JsrLoadError::PackageVersionManifestLoad(value_0, value_1) => {
                drop(value_0);
                drop(value_1);
            }
            JsrLoadError::PackageVersionManifestChecksumIntegrity(value_0, value_1) => {
                drop(value_0);
                drop(value_1);
            }
            JsrLoadError::PackageFormat(value) => drop(value),
            JsrLoadError::PackageReqNotFound(value) => drop(value),
            JsrLoadError::RedirectInPackage(value) => drop(value),
            JsrLoadError::UnknownExport {
                nv,
                export_name,
                exports,
            } => {
                drop(nv);
                drop(export_name);
                drop(exports);
            }
            JsrLoadError::UnjoinableExport {
                nv,
                export_name,
                value,
            } => {
                drop(nv);
                drop(export_name);
                drop(value);
            }
        }
    }
}

impl JsrPackageFormatError {
    /// A copy. The only refusal is want of memory.
    pub fn try_clone(&self) -> Result<JsrPackageFormatError, AllocError>
        ensures { IfOk result (λ e. e ≡ self.now) }
    {
        self.clone()
    }
}

fn copy_of_package(name: &PackageName, error: &LoadError) -> Result<JsrLoadError, AllocError>
    ensures { IfOk result (λ e. e ≡ PackageManifestLoad name.now error.now) }
{
    let name = name.try_clone()?;
    let error = error.try_clone()?;
    Ok(JsrLoadError::PackageManifestLoad(name, error))
}

fn copy_of_version(nv: &Boxed<PackageNv>, fault: &Fault) -> Result<JsrLoadError, AllocError>
    ensures { IfOk result (λ e. e ≡ PackageVersionManifestLoad nv.now fault.now) }
{
    let nv = nv.try_clone()?;
    let fault = fault.try_clone()?;
    Ok(JsrLoadError::PackageVersionManifestLoad(nv, fault))
}

fn copy_of_sum(
    nv: &Boxed<PackageNv>,
    error: &ChecksumIntegrityError,
) -> Result<JsrLoadError, AllocError>
    ensures { IfOk result (λ e. e ≡ PackageVersionManifestChecksumIntegrity nv.now error.now) }
{
    let nv = nv.try_clone()?;
    let error = error.try_clone()?;
    Ok(JsrLoadError::PackageVersionManifestChecksumIntegrity(nv, error))
}

fn copy_of_unknown(
    nv: &Boxed<PackageNv>,
    export_name: &Text,
    exports: &Items<Text>,
) -> Result<JsrLoadError, AllocError>
    ensures { IfOk result (λ e. e ≡ UnknownExport nv.now export_name.now exports.now) }
{
    let nv = nv.try_clone()?;
    let export_name = export_name.try_clone()?;
    let exports = exports.try_clone()?;
    Ok(JsrLoadError::UnknownExport {
        nv,
        export_name,
        exports,
    })
}

fn copy_of_unjoinable(
    nv: &Boxed<PackageNv>,
    export_name: &Text,
    value: &Text,
) -> Result<JsrLoadError, AllocError>
    ensures { IfOk result (λ e. e ≡ UnjoinableExport nv.now export_name.now value.now) }
{
    let nv = nv.try_clone()?;
    let export_name = export_name.try_clone()?;
    let value = value.try_clone()?;
    Ok(JsrLoadError::UnjoinableExport {
        nv,
        export_name,
        value,
    })
}

impl JsrLoadError {
    /// A copy. The only refusal is want of memory.
    pub fn try_clone(&self) -> Result<JsrLoadError, AllocError>
        ensures { IfOk result (λ e. e ≡ self.now) }
    {
        match self {
            JsrLoadError::UnsupportedManifestChecksum => {
                Ok(JsrLoadError::UnsupportedManifestChecksum)
            }
            JsrLoadError::ContentChecksumIntegrity(error) => {
                Ok(JsrLoadError::ContentChecksumIntegrity(error.try_clone()?))
            }
            JsrLoadError::ContentLoadExternalSpecifier => {
                Ok(JsrLoadError::ContentLoadExternalSpecifier)
            }
            JsrLoadError::ContentLoad(error) => Ok(JsrLoadError::ContentLoad(error.try_clone()?)),
            JsrLoadError::PackageManifestLoad(name, error) => copy_of_package(name, error),
            JsrLoadError::PackageNotFound(name) => {
                Ok(JsrLoadError::PackageNotFound(name.try_clone()?))
            }
            JsrLoadError::PackageVersionNotFound(nv) => {
                Ok(JsrLoadError::PackageVersionNotFound(nv.try_clone()?))
            }
            JsrLoadError::PackageVersionManifestLoad(nv, fault) => copy_of_version(nv, fault),
            JsrLoadError::PackageVersionManifestChecksumIntegrity(nv, error) => {
                copy_of_sum(nv, error)
            }
            JsrLoadError::PackageFormat(error) => {
                Ok(JsrLoadError::PackageFormat(error.try_clone()?))
            }
            JsrLoadError::PackageReqNotFound(error) => {
                Ok(JsrLoadError::PackageReqNotFound(error.try_clone()?))
            }
            JsrLoadError::RedirectInPackage(specifier) => {
                Ok(JsrLoadError::RedirectInPackage(specifier.clone()?))
            }
            JsrLoadError::UnknownExport {
                nv,
                export_name,
                exports,
            } => copy_of_unknown(nv, export_name, exports),
            JsrLoadError::UnjoinableExport {
                nv,
                export_name,
                value,
            } => copy_of_unjoinable(nv, export_name, value),
        }
    }
}

impl Clone for JsrLoadError {
    ghost is_clone = { λ e copy. copy ≡ e };

    fn clone(&self) -> Result<JsrLoadError, AllocError> {
        self.try_clone()
    }
}
