// What comes of the answers of a loader about registry files.
ghost use Rattle.std.specs.Prelude.{◌≡◌, IfOk};
ghost use Rattle.graph_errors.specs.declared.jsr_error.JsrLoadError.TheVariants.{PackageVersionNotFound};
ghost use Rattle.pkg_versions.specs.RegistryFiles.{package_file};
ghost use Rattle.registry_files.specs.Answers.{package_answer, package_in, read_package, read_version, version_answer, version_failure, version_in};
ghost use Rattle.registry_files.specs.VersionFiles.{version_file_in};

use crate::version_file::VersionFile;
use graph_errors::JsrLoadError;
use pkg_versions::JsrPackageInfo;
use semver_npm::{PackageName, PackageNv};
use source_io::{LoadResponse, LoadResult};
use spec_base::{Boxed, LoadError, Refusal};
use std::alloc::{AllocError, Global};

// Bytes as a package file.
fn read_package(
    alloc: Global,
    name: &PackageName,
    content: &[u8],
) -> Result<Result<JsrPackageInfo, JsrLoadError>, AllocError>
    ensures { IfOk result (λ read. read ≡ read_package name.now (package_file content.now)) }
{
    match JsrPackageInfo::from_json(alloc, content) {
        Ok(info) => Ok(Ok(info)),
        Err(Refusal::Memory) => Err(AllocError),
        Err(Refusal::Is(fault)) => {
            let name = name.clone()?;
            Ok(Err(JsrLoadError::PackageManifestLoad(name, LoadError::Other(fault))))
        }
    }
}

// What a response about the file of a package says.
fn package_in(
    alloc: Global,
    name: &PackageName,
    response: &LoadResponse,
) -> Result<Result<JsrPackageInfo, JsrLoadError>, AllocError>
    ensures { IfOk result (λ read. read ≡ package_in name.now response.now) }
{
    match response {
        LoadResponse::Module { content, .. } => read_package(alloc, name, content.as_slice()),
        LoadResponse::External { .. } => Ok(Err(JsrLoadError::PackageNotFound(name.clone()?))),
        LoadResponse::Redirect { specifier } => {
            Ok(Err(JsrLoadError::RedirectInPackage(specifier.clone()?)))
        }
    }
}

/// What the answer about the file of a package says, or the error that comes of it: `PackageNotFound` where the file is missing or
/// external, `RedirectInPackage` for a redirect, else `PackageManifestLoad` where the loader failed or the bytes are no package
/// file. The only refusal is want of memory.
#[tactic(auto, unfolding(crate::specs::Answers::package_answer))]
pub fn read_package_answer(
    alloc: Global,
    name: &PackageName,
    answer: &LoadResult,
) -> Result<Result<JsrPackageInfo, JsrLoadError>, AllocError>
    ensures { IfOk result (λ read. read ≡ package_answer name.now answer.now) }
{
    match answer {
        Ok(Some(response)) => package_in(alloc, name, response),
        Ok(None) => Ok(Err(JsrLoadError::PackageNotFound(name.clone()?))),
        Err(error) => {
            let name = name.clone()?;
            let error = error.clone()?;
            Ok(Err(JsrLoadError::PackageManifestLoad(name, error)))
        }
    }
}

// Bytes as a version file.
fn read_version(
    alloc: Global,
    nv: &PackageNv,
    content: &[u8],
) -> Result<Result<VersionFile, JsrLoadError>, AllocError>
    ensures { IfOk result (λ read. read ≡ read_version nv.now (version_file_in content.now)) }
{
    match VersionFile::from_json(alloc, content) {
        Ok(file) => Ok(Ok(file)),
        Err(Refusal::Memory) => Err(AllocError),
        Err(Refusal::Is(fault)) => {
            let nv = Boxed::new(alloc, nv.clone()?)?;
            Ok(Err(JsrLoadError::PackageVersionManifestLoad(nv, fault)))
        }
    }
}

// The error that there is no file of a version.
fn no_version(alloc: Global, nv: &PackageNv) -> Result<JsrLoadError, AllocError>
    ensures { IfOk result (λ e. e ≡ PackageVersionNotFound nv.now) }
{
    let nv = Boxed::new(alloc, nv.clone()?)?;
    Ok(JsrLoadError::PackageVersionNotFound(nv))
}

// What a response about the file of a version says.
fn version_in(
    alloc: Global,
    nv: &PackageNv,
    response: &LoadResponse,
) -> Result<Result<VersionFile, JsrLoadError>, AllocError>
    ensures { IfOk result (λ read. read ≡ version_in nv.now response.now) }
{
    match response {
        LoadResponse::Module { content, .. } => read_version(alloc, nv, content.as_slice()),
        LoadResponse::External { .. } => Ok(Err(no_version(alloc, nv)?)),
        LoadResponse::Redirect { specifier } => {
            Ok(Err(JsrLoadError::RedirectInPackage(specifier.clone()?)))
        }
    }
}

// A failure of the load of a version file.
fn version_failure(
    alloc: Global,
    nv: &PackageNv,
    error: &LoadError,
) -> Result<JsrLoadError, AllocError>
    ensures { IfOk result (λ e. e ≡ version_failure nv.now error.now) }
{
    let nv = Boxed::new(alloc, nv.clone()?)?;
    match error {
        LoadError::ChecksumIntegrity(error) => {
            Ok(JsrLoadError::PackageVersionManifestChecksumIntegrity(nv, error.clone()?))
        }
        LoadError::Other(fault) => Ok(JsrLoadError::PackageVersionManifestLoad(nv, fault.clone()?)),
    }
}

/// What the answer about the file of a version says, or the error that comes of it: `PackageVersionNotFound` where the file is
/// missing or external, `RedirectInPackage` for a redirect, `PackageVersionManifestChecksumIntegrity` where it isn't the one whose sum
/// is known, else `PackageVersionManifestLoad` where the loader failed or the bytes are no version file. The only refusal is want
/// of memory.
#[tactic(auto, unfolding(crate::specs::Answers::version_answer))]
pub fn read_version_answer(
    alloc: Global,
    nv: &PackageNv,
    answer: &LoadResult,
) -> Result<Result<VersionFile, JsrLoadError>, AllocError>
    ensures { IfOk result (λ read. read ≡ version_answer nv.now answer.now) }
{
    match answer {
        Ok(Some(response)) => version_in(alloc, nv, response),
        Ok(None) => Ok(Err(no_version(alloc, nv)?)),
        Err(error) => Ok(Err(version_failure(alloc, nv, error)?)),
    }
}
