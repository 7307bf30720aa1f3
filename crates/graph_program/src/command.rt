// A command, from words and bytes to the text of a graph.
ghost use Rattle.std.specs.Prelude.{◌≡◌, ◌↔◌, false, map, IfSome, string_bytes};
ghost use Rattle.spec_base.specs.Counters.{Rose};
ghost use Rattle.graph_core.specs.Graph.{new_graph};
ghost use Rattle.program_phases.specs.Completes.{Completes};
ghost use Rattle.graph_printing.specs.Commands.{is_command};
ghost use Rattle.program_phases.specs.Outcome.{SaysOfInput, SaysOfGraph, SaysOfText};
ghost use Rattle.program_phases.specs.Phases.{SaysOfRun};
ghost use Rattle.graph_printing.specs.Printed.{printed_by, printed_for};

use crate::builds::build_input;
use byte_io::{ByteSink, ByteSource};
use graph_builder::BuildFault;
use graph_core::{GraphKind, ModuleGraph};
use graph_printing::{Command, command_of};
use program_phases::{Status, read_input, write_by};
use std::alloc::Global;
use world_file::Input;

// Builds the graph of an input, and writes what the command writes of it.
fn run_input<K: ByteSink>(
    alloc: Global,
    command: Command,
    input: Input,
    sink: &mut K,
    graph: &mut ModuleGraph,
) -> Status
    requires fresh { graph.old ≡ new_graph input.kind }
    ensures says { SaysOfRun input graph.new result }
    ensures text { IfSome (K.written sink.old)
        (λ done. SaysOfText done (K.written sink.new) (printed_by command graph.new) result) }
    ensures fault { result ≡ Status.WriteFault → Rose (K.faults sink.old) (K.faults sink.new) }
{
    match build_input(alloc, input, graph) {
        Ok(()) => write_by(alloc, command, sink, graph),
        Err(BuildFault::Memory) => Status::Memory,
        Err(BuildFault::Budget) => Status::Budget,
        Err(BuildFault::Loader) => Status::LoaderFault,
    }
}

// Puts the empty graph of a kind in the place of a graph.
fn empty(alloc: Global, graph: &mut ModuleGraph, kind: GraphKind)
    ensures { graph.new ≡ new_graph kind }
{
    *graph = ModuleGraph::new(alloc, kind);
}

/// Runs the program on the words after its name: reads a world file from the source, builds its graph, and writes to the
/// sink what the command writes of it: `build` the graph's text, `walk` with `all`, `code` or `types` the lines of a walk
/// over that part of the modules. `graph` is the graph that was built; where none was, the empty graph, of the input's
/// kind where an input was read and else of the kind `All`.
///
/// The refusals come in this order: the words, reading, the world, the build, writing; want of memory can
/// come at each but the first. Each status says what its clauses tell: of the words (`words`), of the
/// bytes that the source had (`input`), of the graph (`graph`) and of what is written (`text`).
pub fn run<S: ByteSource, K: ByteSink>(
    alloc: Global,
    words: &[String],
    source: &mut S,
    sink: &mut K,
    graph: &mut ModuleGraph,
) -> Status
    // `Words` comes exactly where the words aren't those of a command.
    ensures words { (result ≡ Status.Words)
        ↔ (is_command (map (λ w. string_bytes w) words.now) ≡ false) }
    // `NotAWorld` comes exactly where the whole input was read and is no world, `TooLong` exactly where one byte too many was taken.
    ensures input { IfSome (S.left source.old)
        (λ bytes. SaysOfInput bytes (S.left source.new) result) }
    // The graph promise; `Invalid` exactly where the graph has an error; the causes of `Budget` and `LoaderFault`; which graph is left where memory fails.
    ensures graph { SaysOfGraph (S.left source.old) graph.new result }
    ensures text { IfSome (K.written sink.old)
        (λ done. SaysOfText done (K.written sink.new)
        (printed_for (map (λ w. string_bytes w) words.now) graph.new) result) }
    ensures read_fault { result ≡ Status.ReadFault
        → Rose (S.faults source.old) (S.faults source.new) }
    ensures write_fault { result ≡ Status.WriteFault
        → Rose (K.faults sink.old) (K.faults sink.new) }
    // Where nothing stops a run, its graph is written: only want of memory is left.
    ensures completes { Completes (map (λ w. string_bytes w) words.now) (S.left source.old)
        (Rose (S.faults source.old) (S.faults source.new))
        (Rose (K.faults sink.old) (K.faults sink.new)) result }
{
    empty(alloc, graph, GraphKind::All);
    let command = match command_of(words) {
        Some(command) => command,
        None => return Status::Words,
    };
    let input = match read_input(alloc, source) {
        Ok(input) => input,
        Err(status) => return status,
    };
    empty(alloc, graph, input.kind);
    run_input(alloc, command, input, sink, graph)
}
