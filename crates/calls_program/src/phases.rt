// The phases of a run: the graph of an input is built, and a call is made on it.
ghost use Rattle.std.specs.Prelude.{◌≡◌, IfOk, IfErr, OnOk, OnErr, Some, [], ℕ};
ghost use Rattle.source_io.specs.Calls.{lists_within};
ghost use Rattle.source_io.specs.Loaders.{world_told, open_in, asked_of, may_fail_in};
ghost use Rattle.graph_core.specs.Graph.{new_graph};
ghost use Rattle.graph_turns.specs.Machine.Redirects.{HasNoCircle};
ghost use Rattle.graph_walk.specs.Prune.{Prunes};
ghost use Rattle.graph_walk.specs.Segment.{segment_of};
ghost use Rattle.program_phases.specs.Outcome.{FailsWithin, IsTooLarge, KeepsPromise};
ghost use Rattle.calls_program.specs.Called.{IsCalled, Exceeds, without_resolutions};

use crate::call::{Call, PackagesCall};
use graph_builder::BuildFault;
use graph_core::{GraphKind, ModuleGraph};
use graph_program::{build_by, build_input};
use graph_reloads::ReloadGraph;
use graph_walk::WalkGraph;
use program_phases::{Tellers, locker_of};
use source_io::WorldLoader;
use spec_base::{Items, ModuleSpecifier};
use std::alloc::{AllocError, Global};
use world_file::Input;

/// Puts the empty graph of a kind in the place of a graph.
pub(crate) fn empty(alloc: Global, graph: &mut ModuleGraph, kind: GraphKind)
    ensures { graph.new ≡ new_graph kind }
{
    *graph = ModuleGraph::new(alloc, kind);
}

// A loader over a copy of the world of an input.
fn loader_of(alloc: Global, input: &Input) -> Result<WorldLoader, AllocError>
    ensures world { IfOk result (λ l. world_told l ≡ Some input.now.world) }
    ensures opened { IfOk result (λ l. open_in l ≡ []) }
    ensures asked { IfOk result (λ l. asked_of l ≡ 0) }
    ensures may_fail { IfOk result
        (λ l. (n : ℕ) → may_fail_in l n ≡ lists_within input.now.fail_next n) }
{
    let arrival = input.arrival.try_clone()?;
    let fail_next = input.fail_next.try_clone()?;
    let world = input.world.try_clone()?;
    WorldLoader::new(alloc, world, arrival.into_vec(), fail_next.into_vec())
}

// Builds the graph of an input into the empty graph of its kind, and loads specifiers again over it.
fn reload_input(
    alloc: Global,
    input: Input,
    specifiers: &Items<ModuleSpecifier>,
    graph: &mut ModuleGraph,
) -> Result<(), BuildFault>
    requires fresh { graph.old ≡ new_graph input.kind }
    ensures called { OnOk result (IsCalled input (Call.Reload specifiers.now) graph.new) }
    ensures emptied { OnErr result (graph.new ≡ new_graph input.kind) }
    ensures budget { IfErr result
        (λ fault. fault ≡ BuildFault.Budget → Exceeds input (Call.Reload specifiers.now)) }
    ensures loader { IfErr result (λ fault. fault ≡ BuildFault.Loader → FailsWithin input) }
{
    let given = specifiers.try_clone()?;
    let locker = locker_of(alloc, &input)?;
    let tellers = Tellers::new(alloc, &input)?;
    let mut again = loader_of(alloc, &input)?;
    let mut options = tellers.options(locker, &input.settings, input.max_loads);
    match build_by(alloc, input, &tellers, graph) {
        Ok(()) => (),
        Err(fault) => return Err(fault),
    }
    match graph.reload(alloc, given.into_vec(), &mut again, &mut options) {
        Ok(()) => Ok(()),
        Err(fault) => Err(fault),
    }
}

// An input without the resolutions of its world.
fn without_resolutions(alloc: Global, input: Input) -> Input
    ensures { result ≡ without_resolutions input }
{
    let mut bare = input;
    bare.world.resolutions = Items::new(alloc);
    bare
}

// Builds the graph of an input without the resolutions of its world into the empty graph of its kind.
fn build_bare(alloc: Global, input: Input, graph: &mut ModuleGraph) -> Result<(), BuildFault>
    requires fresh { graph.old ≡ new_graph input.kind }
    ensures promise { OnOk result (KeepsPromise (without_resolutions input) graph.new) }
    ensures no_circle { OnOk result (HasNoCircle graph.new) }
    ensures emptied { OnErr result (graph.new ≡ new_graph input.kind) }
    ensures budget { IfErr result
        (λ fault. fault ≡ BuildFault.Budget → IsTooLarge (without_resolutions input)) }
    ensures loader { IfErr result (λ fault. fault ≡ BuildFault.Loader → FailsWithin input) }
{
    let bare = without_resolutions(alloc, input);
    let tellers = Tellers::new(alloc, &bare)?;
    build_by(alloc, bare, &tellers, graph)
}

// Builds the graph of an input without the resolutions of its world into the empty graph of its kind, and puts packages in the
// place of the modules of npm by all that the world tells.
fn packages_input(
    alloc: Global,
    input: Input,
    called: &PackagesCall,
    graph: &mut ModuleGraph,
) -> Result<(), BuildFault>
    requires fresh { graph.old ≡ new_graph input.kind }
    ensures called { OnOk result (IsCalled input (Call.Packages called.now) graph.new) }
    ensures emptied { OnErr result (graph.new ≡ new_graph input.kind) }
    ensures budget { IfErr result
        (λ fault. fault ≡ BuildFault.Budget → Exceeds input (Call.Packages called.now)) }
    ensures loader { IfErr result (λ fault. fault ≡ BuildFault.Loader → FailsWithin input) }
{
    let locker = locker_of(alloc, &input)?;
    let tellers = Tellers::new(alloc, &input)?;
    let mut again = loader_of(alloc, &input)?;
    let mut options = tellers.options(locker, &input.settings, input.max_loads);
    match build_bare(alloc, input, graph) {
        Ok(()) => (),
        Err(fault) => return Err(fault),
    }
    match graph.build_npm_packages(
        alloc,
        &called.root_dir,
        called.kind,
        &mut again,
        &mut options,
    ) {
        Ok(()) => Ok(()),
        Err(fault) => Err(fault),
    }
}

// Puts the segment of some roots in the place of a graph, or the empty graph where there is no memory.
fn take_segment(
    alloc: Global,
    roots: &Items<ModuleSpecifier>,
    graph: &mut ModuleGraph,
) -> Result<(), BuildFault>
    ensures ok { OnOk result (graph.new ≡ segment_of graph.old roots.now) }
    ensures emptied { OnErr result (graph.new ≡ new_graph graph.old.kind) }
    ensures fault { IfErr result (λ fault. fault ≡ BuildFault.Memory) }
{
    let kind = graph.graph_kind();
    match graph.segment(alloc, roots.as_slice()) {
        Ok(segment) => {
            *graph = segment;
            Ok(())
        }
        Err(_) => {
            empty(alloc, graph, kind);
            Err(BuildFault::Memory)
        }
    }
}

// Takes the types out of a graph, or puts the empty graph in its place where there is no memory.
fn take_types_out(alloc: Global, graph: &mut ModuleGraph) -> Result<(), BuildFault>
    ensures ok { OnOk result (Prunes graph.old graph.new) }
    ensures emptied { OnErr result (graph.new ≡ new_graph graph.old.kind) }
    ensures fault { IfErr result (λ fault. fault ≡ BuildFault.Memory) }
{
    let kind = graph.graph_kind();
    match graph.prune_types(alloc) {
        Ok(()) => Ok(()),
        Err(_) => {
            empty(alloc, graph, kind);
            Err(BuildFault::Memory)
        }
    }
}

// Builds the graph of an input, and puts the segment of some roots in its place.
fn segment_input(
    alloc: Global,
    input: Input,
    roots: &Items<ModuleSpecifier>,
    graph: &mut ModuleGraph,
) -> Result<(), BuildFault>
    requires fresh { graph.old ≡ new_graph input.kind }
    ensures called { OnOk result (IsCalled input (Call.Segment roots.now) graph.new) }
    ensures emptied { OnErr result (graph.new ≡ new_graph input.kind) }
    ensures budget { IfErr result (λ fault. fault ≡ BuildFault.Budget → IsTooLarge input) }
    ensures loader { IfErr result (λ fault. fault ≡ BuildFault.Loader → FailsWithin input) }
{
    match build_input(alloc, input, graph) {
        Ok(()) => (),
        Err(fault) => return Err(fault),
    }
    match take_segment(alloc, roots, graph) {
        Ok(()) => Ok(()),
        Err(fault) => Err(fault),
    }
}

// Builds the graph of an input, and takes its types out.
fn prune_input(alloc: Global, input: Input, graph: &mut ModuleGraph) -> Result<(), BuildFault>
    requires fresh { graph.old ≡ new_graph input.kind }
    ensures called { OnOk result (IsCalled input Call.Prune graph.new) }
    ensures emptied { OnErr result (graph.new ≡ new_graph input.kind) }
    ensures budget { IfErr result (λ fault. fault ≡ BuildFault.Budget → IsTooLarge input) }
    ensures loader { IfErr result (λ fault. fault ≡ BuildFault.Loader → FailsWithin input) }
{
    match build_input(alloc, input, graph) {
        Ok(()) => (),
        Err(fault) => return Err(fault),
    }
    match take_types_out(alloc, graph) {
        Ok(()) => Ok(()),
        Err(fault) => Err(fault),
    }
}

/// Builds the graph of an input into the empty graph of its kind, and makes a call on it by a loader of its own.
pub(crate) fn call_input(
    alloc: Global,
    input: Input,
    call: &Call,
    graph: &mut ModuleGraph,
) -> Result<(), BuildFault>
    requires fresh { graph.old ≡ new_graph input.kind }
    ensures called { OnOk result (IsCalled input call.now graph.new) }
    ensures emptied { OnErr result (graph.new ≡ new_graph input.kind) }
    ensures budget { IfErr result (λ fault. fault ≡ BuildFault.Budget → Exceeds input call.now) }
    ensures loader { IfErr result (λ fault. fault ≡ BuildFault.Loader → FailsWithin input) }
{
    match call {
        Call::Walk(_) => build_input(alloc, input, graph),
        Call::Entries(_) => build_input(alloc, input, graph),
        Call::Errors(_) => build_input(alloc, input, graph),
        Call::Segment(roots) => segment_input(alloc, input, roots, graph),
        Call::Prune => prune_input(alloc, input, graph),
        Call::Reload(specifiers) => reload_input(alloc, input, specifiers, graph),
        Call::Packages(called) => packages_input(alloc, input, called, graph),
    }
}
