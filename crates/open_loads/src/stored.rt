// Answers about files of the registry that stand in a store, which a first run takes in the place of questions, and to which it adds
// those that it gets under Use.
ghost use Rattle.std.specs.Prelude.{◌≡◌, [], Some, OnOk, OnErr, fold, option_copied};
ghost use Rattle.graph_turns.specs.declared.registry.RegistryFile.TheVariants.{Version};
ghost use Rattle.graph_turns.specs.Promise.Versions.{answer_in, store_with};
ghost use Rattle.open_loads.specs.Taught.{KeepsStore};

use graph_turns::RegistryFile;
use metadata_store::JsrMetadataStore;
use semver_npm::PackageNv;
use source_io::LoadResult;
use spec_base::Queue;
use std::alloc::AllocError;

/// The answer about a file in a store, where there is one; none counts that is asked about under Reload, or looked for in a cache.
pub(crate) fn stored<'a>(
    store: &'a Option<JsrMetadataStore>,
    file: &RegistryFile,
) -> Option<&'a LoadResult>
    ensures { option_copied result ≡ answer_in store.now file.now }
{
    match store {
        None => None,
        Some(store) => match file {
            RegistryFile::Package(name) => store.package_answer(name),
            RegistryFile::Version(nv) => store.version_answer(nv),
            RegistryFile::PackageAgain(_) | RegistryFile::Probe(_) => None,
        },
    }
}

/// The answer about the file of a version in a store, where there is one.
pub(crate) fn stored_version<'a>(
    store: &'a Option<JsrMetadataStore>,
    nv: &PackageNv,
) -> Option<&'a LoadResult>
    ensures { option_copied result ≡ answer_in store.now (Version nv.now) }
{
    match store {
        None => None,
        Some(store) => store.version_answer(nv),
    }
}

/// Adds the answer about a file to a store; none is added that was asked for under Reload, or looked for in a cache. The only refusal is want of memory.
pub(crate) fn add_stored(
    store: &mut JsrMetadataStore,
    file: RegistryFile,
    answer: LoadResult,
) -> Result<(), AllocError>
    ensures ok { OnOk result (store.new ≡ store_with store.old file answer) }
    ensures err { OnErr result (store.new ≡ store.old) }
{
    match file {
        RegistryFile::Package(name) => store.add_package_answer(name, answer),
        RegistryFile::Version(nv) => store.add_version_answer(nv, answer),
        RegistryFile::PackageAgain(_) | RegistryFile::Probe(_) => Ok(()),
    }
}

/// Adds answers about files to a store, in order; what isn't added by then is left. The only refusal is want of memory.
pub(crate) fn add_all(
    store: &mut JsrMetadataStore,
    added: &mut Queue<(RegistryFile, LoadResult)>,
) -> Result<(), AllocError>
    ensures filled { OnOk result
        (store.new ≡ fold (λ s e. store_with s e.0 e.1) store.old added.old) }
    ensures none_left { OnOk result (added.new ≡ []) }
    ensures kept { KeepsStore (Some store.old) (Some store.new) }
{
    while let Some((file, answer)) = added.pop_front() {
        add_stored(store, file, answer)?;
    }
    Ok(())
}
