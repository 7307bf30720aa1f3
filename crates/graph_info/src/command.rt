// A command with workers or without, from words and bytes to the text of a graph.
ghost use Rattle.std.specs.Prelude.{◌≡◌, ◌↔◌, true, false, map, IfSome, is_some, string_bytes};
ghost use Rattle.spec_base.specs.Counters.{Rose};
ghost use Rattle.graph_core.specs.Graph.{new_graph};
ghost use Rattle.program_phases.specs.Outcome.{SaysOfInput, SaysOfGraph, SaysOfText};
ghost use Rattle.program_phases.specs.Phases.{SaysOfRun};
ghost use Rattle.graph_printing.specs.Printed.{printed};
ghost use Rattle.graph_info.specs.Pooled.{CompletesOfAll, CompletesPooled, printed_of_all};
ghost use Rattle.graph_info.specs.Words.{is_command_of_all, workers_of};

use crate::build::build_input_pooled;
use crate::worker_words::workers_of;
use byte_io::{ByteSink, ByteSource};
use graph_builder::BuildFault;
use graph_core::{GraphKind, ModuleGraph};
use graph_program::run;
use program_phases::{Status, read_input, write_graph};
use std::alloc::Global;
use std::sync::Wait;
use std::thread::Threads;
use world_file::Input;

// Builds the graph of an input through workers, and writes its text.
fn run_input_pooled<K, R>(
    rt: &R,
    alloc: Global,
    input: Input,
    workers: usize,
    sink: &mut K,
    graph: &mut ModuleGraph,
) -> Status
where
    K: ByteSink,
    R: Wait + Threads + Clone + Drop + Send + Sync + 'static,
    requires fresh { graph.old ≡ new_graph input.kind }
    ensures says { SaysOfRun input graph.new result }
    ensures text { IfSome (K.written sink.old)
        (λ done. SaysOfText done (K.written sink.new) (printed graph.new) result) }
    ensures fault { result ≡ Status.WriteFault → Rose (K.faults sink.old) (K.faults sink.new) }
    ensures no_fault { result ≡ Status.LoaderFault → ⊥ }
{
    match build_input_pooled(rt, alloc, input, workers, graph) {
        Ok(()) => write_graph(alloc, sink, graph),
        Err(BuildFault::Memory) => Status::Memory,
        Err(BuildFault::Budget) => Status::Budget,
        Err(BuildFault::Loader) => unreachable!(),
    }
}

// Puts the empty graph of a kind in the place of a graph.
fn empty(alloc: Global, graph: &mut ModuleGraph, kind: GraphKind)
    ensures { graph.new ≡ new_graph kind }
{
    *graph = ModuleGraph::new(alloc, kind);
}

// Reads a world file, builds its graph through workers, and writes the graph's text.
fn run_pooled<S, K, R>(
    rt: &R,
    alloc: Global,
    workers: usize,
    source: &mut S,
    sink: &mut K,
    graph: &mut ModuleGraph,
) -> Status
where
    S: ByteSource,
    K: ByteSink,
    R: Wait + Threads + Clone + Drop + Send + Sync + 'static,
    ensures input { IfSome (S.left source.old)
        (λ bytes. SaysOfInput bytes (S.left source.new) result) }
    ensures graph { SaysOfGraph (S.left source.old) graph.new result }
    ensures text { IfSome (K.written sink.old)
        (λ done. SaysOfText done (K.written sink.new) (printed graph.new) result) }
    ensures words { result ≡ Status.Words → ⊥ }
    ensures no_fault { result ≡ Status.LoaderFault → ⊥ }
    ensures read_fault { result ≡ Status.ReadFault
        → Rose (S.faults source.old) (S.faults source.new) }
    ensures write_fault { result ≡ Status.WriteFault
        → Rose (K.faults sink.old) (K.faults sink.new) }
    ensures completes { CompletesPooled (S.left source.old)
        (Rose (S.faults source.old) (S.faults source.new))
        (Rose (K.faults sink.old) (K.faults sink.new)) result }
{
    empty(alloc, graph, GraphKind::All);
    let input = match read_input(alloc, source) {
        Ok(input) => input,
        Err(status) => return status,
    };
    empty(alloc, graph, input.kind);
    run_input_pooled(rt, alloc, input, workers, sink, graph)
}

/// Runs the program on the words after its name, as `run` does, and on the words `build --workers N` too, with N from 0 to 64:
/// it then builds through so many workers, and writes what `build` writes. `graph` is the graph that was built; where none was,
/// the empty graph, of the input's kind where an input was read and else of the kind `All`. It may wait for other threads; the
/// clauses hold if it returns.
///
/// The refusals come in this order: the words, reading, the world, the build, writing; want of memory can come at each but the
/// first. Each status says what its clauses tell: of the words (`words`), of the bytes that the source had (`input`), of the
/// graph (`graph`) and of what is written (`text`). With workers the world's `arrival` and `fail_next` count for nothing, and
/// `LoaderFault` never comes (`no_fault`); where a worker can't be started, the others and this thread load.
pub fn run_all<S, K, R>(
    rt: &R,
    alloc: Global,
    words: &[String],
    source: &mut S,
    sink: &mut K,
    graph: &mut ModuleGraph,
) -> Status
where
    S: ByteSource,
    K: ByteSink,
    R: Wait + Threads + Clone + Drop + Send + Sync + 'static,
    // `Words` comes exactly where the words aren't those of a command.
    ensures words { (result ≡ Status.Words)
        ↔ (is_command_of_all (map (λ w. string_bytes w) words.now) ≡ false) }
    // `NotAWorld` comes exactly where the whole input was read and is no world, `TooLong` exactly where one byte too many was taken.
    ensures input { IfSome (S.left source.old)
        (λ bytes. SaysOfInput bytes (S.left source.new) result) }
    // The graph promise; `Invalid` exactly where the graph has an error; the causes of `Budget` and `LoaderFault`; which graph is left where memory fails.
    ensures graph { SaysOfGraph (S.left source.old) graph.new result }
    ensures text { IfSome (K.written sink.old)
        (λ done. SaysOfText done (K.written sink.new)
        (printed_of_all (map (λ w. string_bytes w) words.now) graph.new) result) }
    // With workers no call of the loader fails.
    ensures no_fault { is_some (workers_of (map (λ w. string_bytes w) words.now)) ≡ true
        → result ≡ Status.LoaderFault
        → ⊥ }
    ensures read_fault { result ≡ Status.ReadFault
        → Rose (S.faults source.old) (S.faults source.new) }
    ensures write_fault { result ≡ Status.WriteFault
        → Rose (K.faults sink.old) (K.faults sink.new) }
    // Where nothing stops a run, its graph is written: only want of memory is left.
    ensures completes { CompletesOfAll (map (λ w. string_bytes w) words.now) (S.left source.old)
        (Rose (S.faults source.old) (S.faults source.new))
        (Rose (K.faults sink.old) (K.faults sink.new)) result }
{
    match workers_of(words) {
        Some(workers) => run_pooled(rt, alloc, workers, source, sink, graph),
        None => run(alloc, words, source, sink, graph),
    }
}
