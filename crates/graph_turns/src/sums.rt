// The sums of sources: those that a locker knew as a build began, by which it asks, and those that the build adds, which
// are told when it ends. Until then the locker isn't changed.
ghost use Rattle.std.specs.Prelude.{◌≡◌, IfOk, OnErr, OnOk, Some};
ghost use Rattle.std.specs.Option.{option_or};
ghost use Rattle.semver_npm.specs.declared.package.PackageNv.{PackageNv};
ghost use Rattle.metadata_store.specs.Store.{with_answer};
ghost use Rattle.graph_turns.specs.Machine.Runs.{manifests_for, sums_for};
ghost use Rattle.graph_turns.specs.Promise.Versions.{manifest_at};
ghost use Rattle.std.specs.FinMap as finite;
ghost use Rattle.graph_turns.specs.Machine.Sums.{IsTaught, LearnsAtMost, IsTaughtManifests, KeepsManifests, KeepsSums, is_summed, known_by, slot_sum, source_sum, sums_with};
ghost use Rattle.graph_turns.specs.Machine.Manners.{sum_at};

use crate::manner::VersionFiles;
use crate::run::Run;
use graph_core::{Module, ModuleSlot};
use media_types::MediaType;
use metadata_store::VersionAnswers;
use semver_npm::PackageNv;
use source_io::{LoaderChecksum, Locker};
use spec_base::{ModuleSpecifier, SpecifierMap};
use std::alloc::{AllocError, Global};

/// What knows sums: the locker of a build, where there is one, and what its first run found.
#[derive(Drop)]
pub struct KnownSums<'a, L: Locker> {
    pub locker: &'a Option<L>,
    pub run: &'a Run,
}

impl<'a, L: Locker> KnownSums<'a, L> {
    /// The sum that is known of a specifier, where there is a locker. The only refusal is want of memory.
    pub fn source(
        &self,
        alloc: Global,
        specifier: &ModuleSpecifier,
    ) -> Result<Option<LoaderChecksum>, AllocError>
        ensures { IfOk result
            (λ sum. sum
            ≡ sum_at (sums_for (known_by L.remote self.now.locker.now) self.now.run.now)
            specifier.now) }
    {
        match self.locker {
            None => Ok(None),
            Some(locker) => match locker.get_remote_checksum(alloc, specifier)? {
                Some(sum) => Ok(Some(sum)),
                None => self.run.earlier_sum(specifier),
            },
        }
    }

    /// The sum that is known of the file of a version, where there is a locker. The only refusal is want of memory.
    pub fn manifest(
        &self,
        alloc: Global,
        nv: &PackageNv,
    ) -> Result<Option<LoaderChecksum>, AllocError>
        ensures { IfOk result
            (λ sum. sum
            ≡ manifest_at
            (manifests_for (known_by L.manifests self.now.locker.now) self.now.run.now)
            nv.now) }
    {
        match self.locker {
            None => Ok(None),
            Some(locker) => match locker.get_pkg_manifest_checksum(alloc, nv)? {
                Some(sum) => Ok(Some(sum)),
                None => self.run.earlier_manifest(nv),
            },
        }
    }
}

// The sum of a source is told where it comes from the network and holds no declarations.
fn is_summed(specifier: &ModuleSpecifier, media: MediaType) -> bool
    ensures { result ≡ is_summed specifier.now media }
{
    let scheme = specifier.scheme();
    (scheme == "http" || scheme == "https") && !media.is_declaration()
}

fn source_sum(
    alloc: Global,
    specifier: &ModuleSpecifier,
    media: MediaType,
    text: &[u8],
) -> Result<Option<LoaderChecksum>, AllocError>
    ensures { IfOk result (λ sum. sum ≡ source_sum specifier.now media text.now) }
{
    if !is_summed(specifier, media) {
        return Ok(None);
    }
    let sum = LoaderChecksum::generate(alloc, text)?;
    Ok(Some(LoaderChecksum::new(sum)))
}

// The sum of the source of a slot's module, where it is told.
fn slot_sum(alloc: Global, slot: &ModuleSlot) -> Result<Option<LoaderChecksum>, AllocError>
    ensures { IfOk result (λ sum. sum ≡ slot_sum slot.now) }
{
    match slot {
        ModuleSlot::Module(Module::Js(script)) => source_sum(
            alloc,
            &script.specifier,
            script.media_type,
            script.source.text.as_str().as_bytes(),
        ),
        ModuleSlot::Module(Module::Json(json)) => source_sum(
            alloc,
            &json.specifier,
            json.media_type,
            json.source.text.as_str().as_bytes(),
        ),
        ModuleSlot::Module(Module::Wasm(wasm)) => source_sum(
            alloc,
            &wasm.specifier,
            MediaType::Wasm,
            wasm.source.as_slice(),
        ),
        ModuleSlot::Module(Module::Npm(_) | Module::Node(_) | Module::External(_)) => Ok(None),
        ModuleSlot::Err(_) | ModuleSlot::Pending { is_asset: _ } => Ok(None),
    }
}

/// Adds the sum of a slot at its name, where none stands there. The only refusal is want of memory.
pub(crate) fn add_sum(
    alloc: Global,
    sums: &mut Option<SpecifierMap<LoaderChecksum>>,
    name: &ModuleSpecifier,
    slot: &ModuleSlot,
) -> Result<(), AllocError>
    ensures { OnOk result (sums.new ≡ sums_with sums.old name.now slot.now) }
{
    if let Some(sums) = sums {
        if let Some(sum) = slot_sum(alloc, slot)? {
            sums.insert_first(name, sum)?;
        }
    }
    Ok(())
}

/// Tells a locker the sums that it doesn't know. The only refusal is want of memory; whatever the answer, it still knows all
/// that it knew, has learned none but these, and knows of manifests nothing else.
pub fn tell_all<L: Locker>(
    locker: &mut L,
    sums: &SpecifierMap<LoaderChecksum>,
) -> Result<(), AllocError>
    ensures taught { OnOk result
        (IsTaught (Some (L.remote locker.old)) (Some sums.now) (Some (L.remote locker.new))) }
    ensures learned { LearnsAtMost (Some (L.remote locker.old)) (Some sums.now)
        (Some (L.remote locker.new)) }
    ensures kept { KeepsSums (Some (L.remote locker.old)) (Some (L.remote locker.new)) }
    ensures others { L.manifests locker.new ≡ L.manifests locker.old }
{
    for (specifier, sum) in sums.as_map().iter() {
        if !locker.has_remote_checksum(specifier) {
            let sum = sum.try_clone()?;
            locker.set_remote_checksum(specifier, sum)?;
        }
    }
    Ok(())
}

// Tells a locker the sum of the file of a version, where it knows none.
fn tell_manifest<L: Locker>(
    alloc: Global,
    locker: &mut L,
    nv: &PackageNv,
    sum: &LoaderChecksum,
) -> Result<(), AllocError>
    ensures told { OnOk result
        (L.manifests locker.new ≡ with_answer (L.manifests locker.old) nv.now sum.now) }
    ensures kept { OnErr result (L.manifests locker.new ≡ L.manifests locker.old) }
    ensures others { L.remote locker.new ≡ L.remote locker.old }
{
    if locker.get_pkg_manifest_checksum(alloc, nv)?.is_none() {
        let sum = sum.try_clone()?;
        locker.set_pkg_manifest_checksum(nv, sum)?;
    }
    Ok(())
}

/// Tells a locker the sums of the files of versions that were read and that it doesn't know. The only refusal is want of memory;
/// whatever the answer, it still knows all that it knew, and of sources nothing else.
pub fn tell_manifests<L: Locker>(
    alloc: Global,
    locker: &mut L,
    files: &VersionFiles,
) -> Result<(), AllocError>
    ensures taught { OnOk result
        (IsTaughtManifests (L.manifests locker.old) (finite.get files.now)
        (L.manifests locker.new)) }
    ensures kept { KeepsManifests (L.manifests locker.old) (L.manifests locker.new) }
    ensures others { L.remote locker.new ≡ L.remote locker.old }
{
    for (nv, read) in files.as_map().iter() {
        if let Ok(version) = read {
            tell_manifest(alloc, locker, nv, &version.file.checksum)?;
        }
    }
    Ok(())
}

/// Tells a locker the sums of the files of versions that the run before read and that it doesn't know. The only refusal is want of memory;
/// whatever the answer, it still knows all that it knew, and of sources nothing else.
pub fn tell_earlier<L: Locker>(
    alloc: Global,
    locker: &mut L,
    manifests: &VersionAnswers<LoaderChecksum>,
) -> Result<(), AllocError>
    ensures taught { OnOk result ((nv : PackageNv)
        → finite.get (L.manifests locker.new) nv
        ≡ option_or (finite.get (L.manifests locker.old) nv) (finite.get manifests.now nv)) }
    ensures kept { KeepsManifests (L.manifests locker.old) (L.manifests locker.new) }
    ensures others { L.remote locker.new ≡ L.remote locker.old }
{
    for (nv, sum) in manifests.as_map().iter() {
        tell_manifest(alloc, locker, nv, sum)?;
    }
    Ok(())
}
