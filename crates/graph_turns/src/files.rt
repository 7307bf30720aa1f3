// The files of versions: what is asked about them, and what the answers leave.
ghost use Rattle.std.specs.Prelude.{◌≡◌, IfOk, OnOk, slice_get};
ghost use Rattle.graph_turns.specs.Machine.Files.{file_kept, noted};
ghost use Rattle.graph_turns.specs.Machine.RegistryFiles.{answer_kept, wanted_kept};
ghost use Rattle.graph_turns.specs.Machine.Runs.{manifests_for};
ghost use Rattle.graph_turns.specs.Machine.Sums.{known_by};
ghost use Rattle.graph_turns.specs.Promise.Versions.{kept_of, loaded, metadata_question, package_question, probe_question, version_question};

use crate::probing::has_file;
use crate::registry::RegistryFile;
use crate::state::State;
use crate::sums::KnownSums;
use graph_core::ModuleGraph;
use graph_errors::JsrLoadError;
use registry_files::{KeptVersion, read_package_answer, read_version_answer};
use registry_urls::{registry_package_file_url, registry_version_file_url};
use semver_npm::{PackageName, PackageNv};
use source_io::{
    Answer, CacheSetting, JsrUrlProvider, LoadOptions, LoadResult, LoaderChecksum, Locker, Question,
};
use spec_base::ModuleSpecifier;
use std::alloc::{AllocError, Global};

/// An answer as one to a load.
pub fn loaded(answer: Answer) -> LoadResult
    ensures { result ≡ loaded answer }
{
    match answer {
        Answer::Load(result) => result,
        Answer::Ensure(_) => Ok(None),
    }
}

// What is kept of the answer about the file of a version.
fn kept_of<U: JsrUrlProvider>(
    alloc: Global,
    urls: &U,
    nv: &PackageNv,
    answer: &LoadResult,
) -> Result<Result<KeptVersion, JsrLoadError>, AllocError>
    ensures { IfOk result (λ kept. kept ≡ kept_of (U.meaning urls.now) nv.now answer.now) }
{
    // Copied before the file is there, which would have to be let go.
    let url = urls.package_url(alloc, nv)?;
    let copy = nv.clone()?;
    match read_version_answer(alloc, nv, answer)? {
        Err(error) => Ok(Err(error)),
        Ok(file) => Ok(Ok(KeptVersion {
            nv: copy,
            url,
            file,
        })),
    }
}

/// A question about a file of the registry, which no import names.
pub fn metadata_question(
    specifier: ModuleSpecifier,
    cache_setting: CacheSetting,
    maybe_checksum: Option<LoaderChecksum>,
) -> Question
    ensures { result ≡ metadata_question cache_setting specifier maybe_checksum }
{
    Question {
        specifier,
        asset: false,
        options: LoadOptions {
            in_dynamic_branch: false,
            was_dynamic_root: false,
            cache_setting,
            maybe_checksum,
        },
    }
}

/// The question about the file of a version, with the sum that is known of it. The only refusal is want of memory.
pub fn version_question<U: JsrUrlProvider, L: Locker>(
    alloc: Global,
    urls: &U,
    known: &KnownSums<'_, L>,
    cache_setting: CacheSetting,
    nv: &PackageNv,
) -> Result<Question, AllocError>
    ensures { IfOk result (λ q. q
        ≡ version_question cache_setting (U.meaning urls.now)
        (manifests_for (known_by L.manifests known.now.locker.now) known.now.run.now) nv.now) }
{
    let specifier = registry_version_file_url(alloc, urls.url(), nv)?;
    let sum = known.manifest(alloc, nv)?;
    Ok(metadata_question(specifier, cache_setting, sum))
}

// Notes a version whose file was read.
fn note(
    alloc: Global,
    graph: &mut ModuleGraph,
    kept: &Result<KeptVersion, JsrLoadError>,
) -> Result<(), AllocError>
    ensures { OnOk result (graph.new ≡ noted graph.old kept.now) }
{
    match kept {
        Err(_) => Ok(()),
        Ok(version) => graph
            .packages
            .ensure_package(alloc, version.nv.try_clone()?),
    }
}

/// The question about the file of a package. The only refusal is want of memory.
pub fn package_question<U: JsrUrlProvider>(
    alloc: Global,
    urls: &U,
    cache_setting: CacheSetting,
    name: &PackageName,
) -> Result<Question, AllocError>
    ensures { IfOk result (λ q. q ≡ package_question cache_setting (U.meaning urls.now) name.now) }
{
    let specifier = registry_package_file_url(alloc, urls.url(), name)?;
    Ok(metadata_question(specifier, cache_setting, None))
}

/// The question about the file of a version in a cache. The only refusal is want of memory.
pub fn probe_question<U: JsrUrlProvider>(
    alloc: Global,
    urls: &U,
    nv: &PackageNv,
) -> Result<Question, AllocError>
    ensures { IfOk result (λ q. q ≡ probe_question (U.meaning urls.now) nv.now) }
{
    let specifier = registry_version_file_url(alloc, urls.url(), nv)?;
    Ok(metadata_question(specifier, CacheSetting::Only, None))
}

impl State {
    // What was answered about the file of a version is kept.
    fn keep_file(
        &mut self,
        alloc: Global,
        nv: PackageNv,
        kept: Result<KeptVersion, JsrLoadError>,
    ) -> Result<(), AllocError>
        ensures { OnOk result (self.new ≡ file_kept self.old nv kept) }
    {
        let Ok(()) = note(alloc, &mut self.graph, &kept) else {
            drop(kept);
            return Err(AllocError);
        };
        self.files.add(nv, kept)?;
        Ok(())
    }

    /// What an answer about the file of a version gives is kept. The load that it was asked for stays the first.
    pub fn keep_version<U: JsrUrlProvider>(
        &mut self,
        alloc: Global,
        urls: &U,
        nv: &PackageNv,
        answer: &LoadResult,
    ) -> Result<(), AllocError>
        ensures { OnOk result
            (self.new
            ≡ file_kept self.old nv.now (kept_of (U.meaning urls.now) nv.now answer.now)) }
    {
        let copy = nv.clone()?;
        let kept = kept_of(alloc, urls, nv, answer)?;
        self.keep_file(alloc, copy, kept)?;
        Ok(())
    }

    // What was answered about a file of the registry is kept.
    fn keep_answer<U: JsrUrlProvider>(
        &mut self,
        alloc: Global,
        urls: &U,
        file: &RegistryFile,
        answer: &LoadResult,
    ) -> Result<(), AllocError>
        ensures { OnOk result
            (self.new ≡ answer_kept (U.meaning urls.now) self.old file.now answer.now) }
    {
        match file {
            RegistryFile::Version(nv) => self.keep_version(alloc, urls, nv, answer),
            RegistryFile::Package(name) => {
                let copy = name.clone()?;
                let read = read_package_answer(alloc, name, answer)?;
                self.packages.add(copy, read)?;
                Ok(())
            }
            RegistryFile::PackageAgain(name) => {
                let copy = name.clone()?;
                let read = read_package_answer(alloc, name, answer)?;
                self.reloaded.add(copy, read)?;
                Ok(())
            }
            RegistryFile::Probe(nv) => self.probed.add(nv.clone()?, has_file(answer)),
        }
    }

    /// What was answered about the first file that the pass asks about is kept; answers which file it was.
    pub fn keep_wanted<U: JsrUrlProvider>(
        &mut self,
        alloc: Global,
        urls: &U,
        answer: &LoadResult,
    ) -> Result<Option<RegistryFile>, AllocError>
        ensures kept { OnOk result
            (self.new ≡ wanted_kept (U.meaning urls.now) self.old answer.now) }
        ensures which { IfOk result (λ file. file ≡ slice_get self.old.wanted 0) }
    {
        let Some(file) = self.wanted.pop_front() else {
            return Ok(None);
        };
        self.keep_answer(alloc, urls, &file, answer)?;
        Ok(Some(file))
    }
}
