// Builds of an input over a loader of one's own.
ghost use Rattle.std.specs.Prelude.{◌≡◌, [], ◌≤◌, ◌+◌, true, Some, IfErr, IfOk, OnErr, OnOk};
ghost use Rattle.source_io.specs.Answers.{lists_cache_info};
ghost use Rattle.graph_builder.specs.Calls.Loaders.{KeepsLoader};
ghost use Rattle.graph_core.specs.Graph.{new_graph};
ghost use Rattle.graph_store.specs.Stores.{entries_in};
ghost use Rattle.source_io.specs.declared.types.World.{World};
ghost use Rattle.world_file.specs.declared.input.Input.{Input};
ghost use Rattle.tools_program.specs.StoreTool.{IsStoreOfBuild};
ghost use Rattle.tools_program.specs.Told.{ArePartsOf, IsTooLargeOver, KeepsPromiseOver};

use graph_builder::{BuildFault, BuildGraph};
use graph_core::{GraphKind, ModuleGraph};
use graph_dependencies::ReferrerImports;
use graph_store::Recorder;
use program_phases::{Tellers, locker_of};
use source_io::{HashMapLocker, Loader, World};
use spec_base::{Items, ModuleSpecifier};
use std::alloc::{AllocError, Global};
use store_turns::{BuildInput, record};
use world_file::{Input, Settings};

/// What a build goes by beside its loader.
#[derive(Drop)]
pub(crate) struct BuildParts {
    pub(crate) roots: Items<ModuleSpecifier>,
    pub(crate) imports: Items<ReferrerImports>,
    pub(crate) locker: Option<HashMapLocker>,
    pub(crate) settings: Settings,
    pub(crate) max_loads: u64,
    pub(crate) tellers: Tellers,
}

/// What a loader over a world goes by.
#[derive(Drop)]
pub(crate) struct LoaderParts {
    pub(crate) world: World,
    pub(crate) arrival: Items<u64>,
    pub(crate) fail_next: Items<u64>,
}

/// What a build of an input goes by, and what a loader over its world does. The only refusal is want of memory.
pub(crate) fn parts_of(alloc: Global, input: Input) -> Result<(BuildParts, LoaderParts), AllocError>
    ensures build { IfOk result (λ parts. ArePartsOf input parts.0) }
    ensures world { IfOk result (λ parts. parts.1.world ≡ input.world) }
    ensures fail_next { IfOk result (λ parts. parts.1.fail_next ≡ input.fail_next) }
{
    let locker = locker_of(alloc, &input)?;
    let tellers = Tellers::new(alloc, &input)?;
    let Input {
        roots,
        imports,
        kind: _,
        world,
        arrival,
        fail_next,
        max_loads,
        settings,
        registry: _,
        npm: _,
    } = input;
    let build = BuildParts {
        roots,
        imports,
        locker,
        settings,
        max_loads,
        tellers,
    };
    let loader = LoaderParts {
        world,
        arrival,
        fail_next,
    };
    Ok((build, loader))
}

/// Builds the graph of an input into the empty graph of its kind over a loader of one's own, in which nothing is open. What
/// is told holds of each input whose parts these are and each world that the loader tells.
pub(crate) fn build_over<L: Loader>(
    alloc: Global,
    parts: BuildParts,
    loader: &mut L,
    graph: &mut ModuleGraph,
) -> Result<(), BuildFault>
    requires closed { L.open_tickets loader.old ≡ [] }
    ensures promise { (input : Input) (world : World) → ArePartsOf input parts
        → L.world loader.old ≡ Some world
        → L.caches loader.old ≡ lists_cache_info world
        → graph.old ≡ new_graph input.kind
        → OnOk result (KeepsPromiseOver world input graph.new) }
    ensures emptied { OnErr result (graph.new ≡ new_graph graph.old.kind) }
    ensures budget { (input : Input) (world : World) → ArePartsOf input parts
        → L.world loader.old ≡ Some world
        → graph.old ≡ new_graph input.kind
        → IfErr result (λ fault. fault ≡ BuildFault.Budget → IsTooLargeOver world input) }
    ensures loader { KeepsLoader L.world L.may_fail L.caches L.faults loader.old loader.new }
    ensures within { L.asked loader.new ≤ L.asked loader.old + parts.max_loads }
    ensures allowed { IfErr result
        (λ fault. fault ≡ BuildFault.Loader → L.may_fail loader.old (L.asked loader.new) ≡ true) }
    ensures closed { OnOk result (L.open_tickets loader.new ≡ []) }
{
    let BuildParts {
        roots,
        imports,
        locker,
        settings,
        max_loads,
        tellers,
    } = parts;
    let mut options = tellers.options(locker, &settings, max_loads);
    match graph.build(
        alloc,
        roots.into_vec(),
        imports.into_vec(),
        loader,
        &mut options,
    ) {
        Ok(()) => Ok(()),
        Err(fault) => Err(fault),
    }
}

/// Builds a graph of an input through a recorder in which nothing is open or kept. What is told holds of each input whose parts
/// these are and each world that the recorder's loader tells.
pub(crate) fn record_over<L: Loader + Drop>(
    alloc: Global,
    kind: GraphKind,
    parts: BuildParts,
    recorder: &mut Recorder<L>,
) -> Result<ModuleGraph, BuildFault>
    requires closed { recorder.old.unanswered.items ≡ [] }
    requires empty { entries_in recorder.old.store ≡ [] }
    ensures promise { (input : Input) (world : World) → ArePartsOf input parts
        → L.world recorder.old.inner ≡ Some world
        → L.caches recorder.old.inner ≡ lists_cache_info world
        → kind ≡ input.kind
        → IfOk result (λ g. KeepsPromiseOver world input g) }
    ensures kept { (input : Input) (world : World) → ArePartsOf input parts
        → L.world recorder.old.inner ≡ Some world
        → L.caches recorder.old.inner ≡ lists_cache_info world
        → kind ≡ input.kind
        → IfOk result (λ g. IsStoreOfBuild world input (entries_in recorder.new.store) g) }
    ensures budget { (input : Input) (world : World) → ArePartsOf input parts
        → L.world recorder.old.inner ≡ Some world
        → kind ≡ input.kind
        → IfErr result (λ fault. fault ≡ BuildFault.Budget → IsTooLargeOver world input) }
    ensures loader { KeepsLoader L.world L.may_fail L.caches L.faults recorder.old.inner recorder.new.inner }
    ensures within { L.asked recorder.new.inner ≤ L.asked recorder.old.inner + parts.max_loads }
    ensures allowed { IfErr result
        (λ fault. fault ≡ BuildFault.Loader
        → L.may_fail recorder.old.inner (L.asked recorder.new.inner) ≡ true) }
{
    let BuildParts {
        roots,
        imports,
        locker,
        settings,
        max_loads,
        tellers,
    } = parts;
    let options = tellers.options(locker, &settings, max_loads);
    let given = BuildInput {
        kind,
        roots: roots.into_vec(),
        imports: imports.into_vec(),
        options,
    };
    match record(alloc, given, recorder) {
        Ok(recorded) => Ok(recorded.into_graph()),
        Err(fault) => Err(fault),
    }
}
