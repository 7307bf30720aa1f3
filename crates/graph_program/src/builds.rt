// The graph of an input is built.
ghost use Rattle.std.specs.Prelude.{◌≡◌, IfErr, OnOk, OnErr};
ghost use Rattle.graph_core.specs.Graph.{new_graph};
ghost use Rattle.graph_turns.specs.Machine.Redirects.{HasNoCircle};
ghost use Rattle.program_phases.specs.Outcome.{FailsInTurns, FailsWithin, IsTooLarge, KeepsPromise};
ghost use Rattle.program_phases.specs.Phases.{TellsInput};

use byte_io::{ByteSink, ByteSource};
use graph_builder::{BuildFault, BuildGraph};
use graph_core::ModuleGraph;
use program_phases::{Tellers, locker_of};
use source_io::WorldLoader;
use std::alloc::Global;
use std::mem::forget;
use world_file::Input;

/// Builds the graph of an input into the empty graph of its kind, by what its world tells and by its settings; its locker
/// begins with the world's sums, where there is one. After each fault the graph is empty again; `Budget` comes only where no
/// list of as many questions as may be put covers the input, `Loader` only where a call that fails has a number up to theirs,
/// and `Memory` where there was no memory.
pub fn build_by(
    alloc: Global,
    input: Input,
    tellers: &Tellers,
    graph: &mut ModuleGraph,
) -> Result<(), BuildFault>
    requires fresh { graph.old ≡ new_graph input.kind }
    requires tells { TellsInput input tellers.now }
    ensures promise { OnOk result (KeepsPromise input graph.new) }
    // So that a further call on the graph is told.
    ensures no_circle { OnOk result (HasNoCircle graph.new) }
    ensures emptied { OnErr result (graph.new ≡ new_graph input.kind) }
    ensures budget { IfErr result (λ fault. fault ≡ BuildFault.Budget → IsTooLarge input) }
    ensures loader { IfErr result (λ fault. fault ≡ BuildFault.Loader → FailsWithin input) }
    ensures paced { IfErr result (λ fault. fault ≡ BuildFault.Loader → FailsInTurns input) }
{
    let locker = locker_of(alloc, &input)?;
    let Input {
        roots,
        imports,
        kind: _,
        world,
        arrival,
        fail_next,
        max_loads,
        settings,
        registry: _,
        npm: _,
    } = input;
    let mut loader = WorldLoader::new(alloc, world, arrival.into_vec(), fail_next.into_vec())?;
    let mut options = tellers.options(locker, &settings, max_loads);
    match graph.build(
        alloc,
        roots.into_vec(),
        imports.into_vec(),
        &mut loader,
        &mut options,
    ) {
        Ok(()) => {
            // A program ends soon after its build, and the system takes the memory of the answers back at once.
            forget(loader);
            Ok(())
        }
        Err(fault) => Err(fault),
    }
}

/// Builds the graph of an input into the empty graph of its kind, as `build_by` does.
pub fn build_input(alloc: Global, input: Input, graph: &mut ModuleGraph) -> Result<(), BuildFault>
    requires fresh { graph.old ≡ new_graph input.kind }
    ensures promise { OnOk result (KeepsPromise input graph.new) }
    ensures emptied { OnErr result (graph.new ≡ new_graph input.kind) }
    ensures budget { IfErr result (λ fault. fault ≡ BuildFault.Budget → IsTooLarge input) }
    ensures loader { IfErr result (λ fault. fault ≡ BuildFault.Loader → FailsWithin input) }
    ensures paced { IfErr result (λ fault. fault ≡ BuildFault.Loader → FailsInTurns input) }
{
    let tellers = Tellers::new(alloc, &input)?;
    match build_by(alloc, input, &tellers, graph) {
        Ok(()) => {
            // As the loader.
            forget(tellers);
            Ok(())
        }
        Err(fault) => Err(fault),
    }
}
