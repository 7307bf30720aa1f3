// The command `gen`, from its words to the lines of a graph.
ghost use Rattle.std.specs.Prelude.{◌≡◌, [], IfErr, IfSome, OnErr, OnOk};
ghost use Rattle.spec_base.specs.Counters.{Rose};
ghost use Rattle.graph_core.specs.Graph.{new_graph};
ghost use Rattle.generated_world.specs.Generated.{generated};
ghost use Rattle.program_phases.specs.Outcome.{IsTooLarge, KeepsPromise, SaysOfText};
ghost use Rattle.program_phases.specs.Phases.{SaysOfRun, SaysOfVerdict};
ghost use Rattle.generator_program.specs.Completes.{CompletesOver};
ghost use Rattle.generator_program.specs.Lines.{generator_lines};

use crate::generator_words::Generator;
use crate::report::generator_text;
use byte_io::ByteSink;
use generated_world::generated;
use graph_builder::BuildFault;
use graph_core::{GraphKind, ModuleGraph};
use graph_program::build_input;
use program_phases::{Status, write_text};
use std::alloc::Global;
use world_file::Input;

// Writes the lines of a graph, and says by the status whether it is valid.
fn write_lines<K: ByteSink>(alloc: Global, sink: &mut K, graph: &ModuleGraph) -> Status
    ensures text { IfSome (K.written sink.old)
        (λ done. SaysOfText done (K.written sink.new) (generator_lines graph.now) result) }
    ensures verdict { SaysOfVerdict graph.now result }
    ensures fault { result ≡ Status.WriteFault → Rose (K.faults sink.old) (K.faults sink.new) }
{
    match generator_text(alloc, graph) {
        Ok(text) => write_text(alloc, text.as_str(), sink, graph),
        Err(_) => Status::Memory,
    }
}

// Builds the graph of an input whose loader never fails.
fn build_calmly(alloc: Global, input: Input, graph: &mut ModuleGraph) -> Result<(), BuildFault>
    requires fresh { graph.old ≡ new_graph input.kind }
    requires none_fails { input.fail_next ≡ [] }
    ensures promise { OnOk result (KeepsPromise input graph.new) }
    ensures emptied { OnErr result (graph.new ≡ new_graph input.kind) }
    ensures budget { IfErr result (λ fault. fault ≡ BuildFault.Budget → IsTooLarge input) }
    ensures no_fault { IfErr result (λ fault. fault ≡ BuildFault.Loader → ⊥) }
{
    build_input(alloc, input, graph)
}

// Builds the graph of an input whose loader never fails, and writes the lines of the graph.
fn run_input<K: ByteSink>(
    alloc: Global,
    input: Input,
    sink: &mut K,
    graph: &mut ModuleGraph,
) -> Status
    requires fresh { graph.old ≡ new_graph input.kind }
    requires none_fails { input.fail_next ≡ [] }
    ensures says { SaysOfRun input graph.new result }
    ensures text { IfSome (K.written sink.old)
        (λ done. SaysOfText done (K.written sink.new) (generator_lines graph.new) result) }
    ensures no_fault { result ≡ Status.LoaderFault → ⊥ }
    ensures fault { result ≡ Status.WriteFault → Rose (K.faults sink.old) (K.faults sink.new) }
{
    match build_calmly(alloc, input, graph) {
        Ok(()) => write_lines(alloc, sink, graph),
        Err(BuildFault::Memory) => Status::Memory,
        Err(BuildFault::Budget) => Status::Budget,
        Err(BuildFault::Loader) => unreachable!(),
    }
}

/// Builds the graph of a generated world, and writes to the sink what `generator_text` says of it. Nothing is read. `graph` is
/// the graph that was built; where none was, the empty graph of the kind `All`.
///
/// `Valid` comes where the graph is written and has no error, `Invalid` where it is and has one, `WriteFault` only where the
/// sink failed, `Budget` only where no list of as many questions as may be put covers the world, `Memory` where there was no
/// memory, and no other status ever.
pub fn run_generator<K: ByteSink>(
    alloc: Global,
    generator: Generator,
    sink: &mut K,
    graph: &mut ModuleGraph,
) -> Status
    // The graph promise over the generated world; `Invalid` exactly where the graph has an error; which graph is left where memory fails.
    ensures graph { SaysOfRun (generated generator.start generator.count) graph.new result }
    ensures text { IfSome (K.written sink.old)
        (λ done. SaysOfText done (K.written sink.new) (generator_lines graph.new) result) }
    // No call of the loader fails.
    ensures no_fault { result ≡ Status.LoaderFault → ⊥ }
    ensures write_fault { result ≡ Status.WriteFault
        → Rose (K.faults sink.old) (K.faults sink.new) }
    // Where enough questions may be put and the sink doesn't fail, the lines are written: only want of memory is left.
    ensures completes { CompletesOver (generated generator.start generator.count)
        (Rose (K.faults sink.old) (K.faults sink.new)) result }
{
    *graph = ModuleGraph::new(alloc, GraphKind::All);
    let input = match generated(alloc, generator.start, generator.count) {
        Ok(input) => input,
        Err(_) => return Status::Memory,
    };
    run_input(alloc, input, sink, graph)
}
