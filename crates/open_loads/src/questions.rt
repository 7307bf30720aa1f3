// The questions of turns.
ghost use Rattle.std.specs.Prelude.{◌≡◌, IfOk};
ghost use Rattle.graph_turns.specs.Machine.Known.{Known};
ghost use Rattle.graph_turns.specs.Promise.Versions.{file_question};
ghost use Rattle.graph_turns.specs.Machine.Runs.{manifests_for};
ghost use Rattle.graph_turns.specs.Machine.Sums.{known_by};
ghost use Rattle.graph_turns.specs.Promise.Contents.{content_question};
ghost use Rattle.graph_turns.specs.Promise.Taken.{put_asked};

use graph_core::Load;
use graph_turns::{
    Asked, Flags, KnownSums, LaterContent, RegistryFile, package_question, probe_question,
    version_question,
};
use source_io::{CacheSetting, JsrUrlProvider, LoadOptions, LoaderChecksum, Locker, Question};
use std::alloc::{AllocError, Global};

// A copy of a sum, where there is one.
fn copied(sum: &Option<LoaderChecksum>) -> Result<Option<LoaderChecksum>, AllocError>
    ensures { IfOk result (λ copy. copy ≡ sum.now) }
{
    match sum {
        None => Ok(None),
        Some(sum) => Ok(Some(sum.try_clone()?)),
    }
}

/// The question about a load under a setting, with the flag of the build and under what it is asked about. The only refusal is want of
/// memory.
pub(crate) fn question_about(
    flags: Flags,
    load: &Load,
    cache_setting: CacheSetting,
    asked: &Asked,
) -> Result<Question, AllocError>
    ensures { IfOk result (λ q. (known : Known) → known.flags ≡ flags
        → q ≡ put_asked cache_setting known asked.now load.now.specifier load.now.context) }
{
    Ok(Question {
        specifier: load.specifier.clone()?,
        asset: load.context.asset,
        options: LoadOptions {
            in_dynamic_branch: load.context.is_dynamic,
            was_dynamic_root: flags.is_dynamic,
            cache_setting,
            maybe_checksum: copied(&asked.checksum)?,
        },
    })
}

/// The question about a content that comes later, with the flag of the build. The only refusal is want of memory.
pub(crate) fn content_question(flags: Flags, later: &LaterContent) -> Result<Question, AllocError>
    ensures { IfOk result
        (λ q. (known : Known) → known.flags ≡ flags → q ≡ content_question known later.now) }
{
    Ok(Question {
        specifier: later.specifier.clone()?,
        asset: false,
        options: LoadOptions {
            in_dynamic_branch: later.context.is_dynamic,
            was_dynamic_root: flags.is_dynamic,
            cache_setting: CacheSetting::Use,
            maybe_checksum: copied(&later.checksum)?,
        },
    })
}

/// The question about a file of the registry that a pass asks about, under the setting of the run. The only refusal is want of memory.
pub(crate) fn wanted_question<U: JsrUrlProvider, L: Locker>(
    alloc: Global,
    urls: &U,
    known: &KnownSums<'_, L>,
    setting: CacheSetting,
    file: &RegistryFile,
) -> Result<Question, AllocError>
    ensures { IfOk result (λ q. q
        ≡ file_question setting (U.meaning urls.now)
        (manifests_for (known_by L.manifests known.now.locker.now) known.now.run.now) file.now) }
{
    match file {
        RegistryFile::Package(name) => package_question(alloc, urls, setting, name),
        RegistryFile::PackageAgain(name) => package_question(
            alloc,
            urls,
            CacheSetting::Reload,
            name,
        ),
        RegistryFile::Version(nv) => version_question(alloc, urls, known, setting, nv),
        RegistryFile::Probe(nv) => probe_question(alloc, urls, nv),
    }
}
