// How the turn of an open load goes: its question is put, the file of its version is read first, or it fails without one.
ghost use Rattle.std.specs.Prelude.{◌≡◌, IfOk, option_copied};
ghost use Rattle.std.specs.FinMap as finite;
ghost use Rattle.registry_files.specs.Kept.{held_in};
ghost use Rattle.graph_turns.specs.Machine.Manners.{along_manner, by_url_manner, known_manner, manner_of, own_manner};
ghost use Rattle.graph_turns.specs.Machine.Runs.{sums_for};
ghost use Rattle.graph_turns.specs.Machine.Sums.{known_by};

use crate::question_of::Asked;
use crate::sums::KnownSums;
use graph_core::LoadContext;
use graph_errors::JsrLoadError;
use metadata_store::VersionAnswers;
use registry_files::KeptVersion;
use semver_npm::PackageNv;
use source_io::{JsrUrlProvider, Locker};
use spec_base::{Boxed, ModuleSpecifier};
use std::alloc::{AllocError, Global};

/// How the turn of an open load goes.
#[derive(Drop)]
pub enum Manner {
    /// It is asked about.
    Asks(Asked),
    /// The file of the version that its URL names is asked about first.
    Reads(PackageNv),
    /// The file of the version that its URL names can't be read: this error stands where the version lies.
    Unread(ModuleSpecifier, JsrLoadError),
    /// The file of its version has a sum of its module in no form that is known.
    Unsupported,
}

/// What was answered about the files of versions.
pub type VersionFiles = VersionAnswers<Result<KeptVersion, JsrLoadError>>;

// How the turn of a load goes that a URL alone brings into a version whose file was read.
fn by_url(
    alloc: Global,
    version: &KeptVersion,
    specifier: &ModuleSpecifier,
) -> Result<Manner, AllocError>
    ensures { IfOk result (λ m. m ≡ by_url_manner specifier.now version.now) }
{
    match version
        .file
        .manifest_sum(alloc, version.path_of(specifier))?
    {
        None => Ok(Manner::Unsupported),
        Some(sum) => Ok(Manner::Asks(Asked {
            held: Some(version.nv.clone()?),
            checksum: Some(sum),
            info: None,
        })),
    }
}

// How the turn of a load goes whose version came along.
fn along(
    alloc: Global,
    version: &KeptVersion,
    specifier: &ModuleSpecifier,
) -> Result<Manner, AllocError>
    ensures { IfOk result (λ m. m ≡ along_manner specifier.now version.now) }
{
    let path = version.path_of(specifier);
    let Some(sum) = version.file.manifest_sum(alloc, path)? else {
        return Ok(Manner::Unsupported);
    };
    let info = match version.file.info(path) {
        None => None,
        Some(info) => Some(Boxed::new(alloc, info.try_clone()?)?),
    };
    Ok(Manner::Asks(Asked {
        held: Some(version.nv.clone()?),
        checksum: Some(sum),
        info,
    }))
}

// The file of a version can't be read.
fn unread<U: JsrUrlProvider>(
    alloc: Global,
    urls: &U,
    nv: &PackageNv,
    error: &JsrLoadError,
) -> Result<Manner, AllocError>
    ensures { IfOk result
        (λ m. m ≡ Manner.Unread ((U.meaning urls.now).package_url nv.now) error.now) }
{
    let name = urls.package_url(alloc, nv)?;
    let error = error.try_clone()?;
    Ok(Manner::Unread(name, error))
}

// How the turn of a load goes by what is known of the file of the version that its URL names.
fn in_version<U: JsrUrlProvider>(
    alloc: Global,
    urls: &U,
    nv: PackageNv,
    file: Option<&Result<KeptVersion, JsrLoadError>>,
    specifier: &ModuleSpecifier,
) -> Result<Manner, AllocError>
    ensures { IfOk result
        (λ m. m ≡ known_manner (U.meaning urls.now) specifier.now nv (option_copied file.entry)) }
{
    match file {
        None => Ok(Manner::Reads(nv)),
        Some(Ok(version)) => by_url(alloc, version, specifier),
        Some(Err(error)) => unread(alloc, urls, &nv, error),
    }
}

// How the turn of a load goes whose version didn't come along.
fn own<U: JsrUrlProvider, L: Locker>(
    alloc: Global,
    urls: &U,
    known: &KnownSums<'_, L>,
    files: &VersionFiles,
    specifier: &ModuleSpecifier,
) -> Result<Manner, AllocError>
    ensures { IfOk result
        (λ m. m
        ≡ own_manner (sums_for (known_by L.remote known.now.locker.now) known.now.run.now)
        (U.meaning urls.now) (finite.get files.now) specifier.now) }
{
    match urls.package_url_to_nv(alloc, specifier)? {
        None => Ok(Manner::Asks(Asked::outside(known.source(alloc, specifier)?))),
        Some(nv) => {
            let file = files.get(&nv);
            in_version(alloc, urls, nv, file, specifier)
        }
    }
}

/// The file of a load's version, where it was read and the specifier is in it.
pub(crate) fn version_along<'a>(
    files: &'a VersionFiles,
    specifier: &ModuleSpecifier,
    context: &LoadContext,
) -> Option<&'a KeptVersion>
    ensures { option_copied result
        ≡ held_in (finite.get files.now) specifier.now context.now.«package» }
{
    match &context.package {
        None => None,
        Some(nv) => match files.get(nv) {
            Some(Ok(version)) => {
                if version.holds(specifier) {
                    Some(version)
                } else {
                    None
                }
            }
            Some(Err(_)) | None => None,
        },
    }
}

/// How the turn of a load goes, by what was answered about the files of versions. The only refusal is want of memory.
pub fn manner_of<U: JsrUrlProvider, L: Locker>(
    alloc: Global,
    urls: &U,
    known: &KnownSums<'_, L>,
    files: &VersionFiles,
    specifier: &ModuleSpecifier,
    context: &LoadContext,
) -> Result<Manner, AllocError>
    ensures { IfOk result
        (λ m. m
        ≡ manner_of (sums_for (known_by L.remote known.now.locker.now) known.now.run.now)
        (U.meaning urls.now) (finite.get files.now) specifier.now context.now) }
{
    match version_along(files, specifier, context) {
        Some(version) => along(alloc, version, specifier),
        None => own(alloc, urls, known, files, specifier),
    }
}
