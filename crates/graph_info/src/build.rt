// Builds of an input's graph through a pool of workers.
ghost use Rattle.std.specs.Prelude.{◌≡◌, IfErr, IfOk, OnErr, OnOk, Some};
ghost use Rattle.std.specs.Arc.{arc_value};
ghost use Rattle.source_io.specs.Loaders.{world_told};
ghost use Rattle.graph_core.specs.Graph.{new_graph};
ghost use Rattle.program_phases.specs.Outcome.{KeepsPromise, IsTooLarge};
ghost use Rattle.program_phases.specs.Phases.{TellsInput};

use graph_builder::BuildFault;
use graph_core::ModuleGraph;
use program_phases::{Tellers, locker_of};
use source_io::{World, WorldLoader};
use std::alloc::{AllocError, Global};
use std::sync::{Arc, Wait};
use std::thread::Threads;
use waiting_builds::build_pooled;
use world_file::Input;

// What answers by a world to many threads. The only refusal is want of memory.
fn fetcher_of(alloc: Global, world: World) -> Result<Arc<WorldLoader, Global>, AllocError>
    ensures { IfOk result (λ fetcher. world_told (arc_value fetcher) ≡ Some world) }
{
    let loader = WorldLoader::new(alloc, world, Vec::new(alloc), Vec::new(alloc))?;
    match Arc::new(alloc, loader) {
        Ok(fetcher) => Ok(fetcher),
        Err(_) => Err(AllocError),
    }
}

// Builds the graph of an input into the empty graph of its kind through workers, by what its world tells and by its settings.
fn build_pooled_by<R>(
    rt: &R,
    alloc: Global,
    input: Input,
    tellers: &Tellers,
    workers: usize,
    graph: &mut ModuleGraph,
) -> Result<(), BuildFault>
where
    R: Wait + Threads + Clone + Drop + Send + Sync + 'static,
    requires fresh { graph.old ≡ new_graph input.kind }
    requires tells { TellsInput input tellers.now }
    ensures promise { OnOk result (KeepsPromise input graph.new) }
    ensures emptied { OnErr result (graph.new ≡ new_graph input.kind) }
    ensures budget { IfErr result (λ fault. fault ≡ BuildFault.Budget → IsTooLarge input) }
    ensures no_fault { IfErr result (λ fault. fault ≡ BuildFault.Loader → ⊥) }
{
    let locker = locker_of(alloc, &input)?;
    let Input {
        roots,
        imports,
        kind: _,
        world,
        arrival: _,
        fail_next: _,
        max_loads,
        settings,
        registry: _,
        npm: _,
    } = input;
    let fetcher = fetcher_of(alloc, world)?;
    let mut options = tellers.options(locker, &settings, max_loads);
    match build_pooled(
        rt,
        alloc,
        graph,
        roots.into_vec(),
        imports.into_vec(),
        fetcher,
        workers,
        &mut options,
    ) {
        Ok(()) => Ok(()),
        Err(fault) => Err(fault),
    }
}

/// Builds the graph of an input into the empty graph of its kind through a pool of workers: as many as can be had, up to the
/// given number. It may wait; the clauses hold if it returns.
///
/// The answers are those of the input's world in any order: its `arrival` and `fail_next` count for nothing. After each fault
/// the graph is empty again; `Budget` comes only where no list of as many questions as may be put covers the input, `Memory`
/// where there was no memory, also of a worker, and `Loader` never.
pub fn build_input_pooled<R>(
    rt: &R,
    alloc: Global,
    input: Input,
    workers: usize,
    graph: &mut ModuleGraph,
) -> Result<(), BuildFault>
where
    R: Wait + Threads + Clone + Drop + Send + Sync + 'static,
    requires fresh { graph.old ≡ new_graph input.kind }
    ensures promise { OnOk result (KeepsPromise input graph.new) }
    ensures emptied { OnErr result (graph.new ≡ new_graph input.kind) }
    ensures budget { IfErr result (λ fault. fault ≡ BuildFault.Budget → IsTooLarge input) }
    ensures no_fault { IfErr result (λ fault. fault ≡ BuildFault.Loader → ⊥) }
{
    let tellers = Tellers::new(alloc, &input)?;
    build_pooled_by(rt, alloc, input, &tellers, workers, graph)
}
