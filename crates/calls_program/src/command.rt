// One call on the graph of a world file, from words and bytes to the text that the call writes.
ghost use Rattle.std.specs.Prelude.{◌≡◌, map, IfSome, string_bytes};
ghost use Rattle.spec_base.specs.Counters.{Rose};
ghost use Rattle.graph_core.specs.Graph.{new_graph};
ghost use Rattle.program_phases.specs.Outcome.{SaysOfInput, SaysOfText};
ghost use Rattle.calls_program.specs.Called.{IsLeft, RefusesWords, SaysOfCall};
ghost use Rattle.calls_program.specs.Calls.{call_of};
ghost use Rattle.calls_program.specs.Lines.{printed_by_call, printed_for};

use crate::call::{Call, call_of};
use crate::phases::{call_input, empty};
use crate::report::write_call;
use byte_io::{ByteSink, ByteSource};
use graph_builder::BuildFault;
use graph_core::{GraphKind, ModuleGraph};
use program_phases::{Status, read_input};
use spec_base::Refusal;
use std::alloc::Global;
use world_file::Input;

// Makes a call on the graph of an input, and writes what the call writes of the graph that it leaves.
fn run_input<K: ByteSink>(
    alloc: Global,
    input: Input,
    call: &Call,
    sink: &mut K,
    graph: &mut ModuleGraph,
) -> Status
    requires fresh { graph.old ≡ new_graph input.kind }
    ensures says { SaysOfCall input call.now graph.new result }
    ensures text { IfSome (K.written sink.old)
        (λ done. SaysOfText done (K.written sink.new) (printed_by_call call.now graph.new) result) }
    ensures fault { result ≡ Status.WriteFault → Rose (K.faults sink.old) (K.faults sink.new) }
{
    match call_input(alloc, input, call, graph) {
        Ok(()) => write_call(alloc, call, sink, graph),
        Err(BuildFault::Memory) => Status::Memory,
        Err(BuildFault::Budget) => Status::Budget,
        Err(BuildFault::Loader) => Status::LoaderFault,
    }
}

/// Runs the program on the words after its name: reads a world file from the source, builds its graph, makes the call that
/// the words name, and writes to the sink what it writes of the graph that it leaves. `walk` and `errors` leave the graph of
/// the input, and write the lines of a walk or of its errors; `segment`, `prune`, `reload` and `npm-packages` leave another, and
/// write its text. `npm-packages` goes over the graph of the input without the resolutions of its world. What it loads, and what
/// a reload does, is answered by a loader of its own over the same world, which fails at the calls that the world names, counted
/// anew, and puts at most `max_loads` questions.
///
/// `Words` comes exactly where the words name no call, unless there is no memory to read them. `Invalid` comes exactly where
/// `errors` lists one, and of another call where the graph that it leaves isn't valid; the other statuses come as those of
/// the program `graph_info` do.
pub fn run_call<S: ByteSource, K: ByteSink>(
    alloc: Global,
    words: &[String],
    source: &mut S,
    sink: &mut K,
    graph: &mut ModuleGraph,
) -> Status
    // The graph was built by the graph promise, and the call leaves it as its contract says.
    ensures graph { IsLeft (S.left source.old) (call_of (map (λ w. string_bytes w) words.now))
        graph.new result }
    // Words that name no call are refused.
    ensures words { RefusesWords (call_of (map (λ w. string_bytes w) words.now)) result }
    // The bytes that are told are no world exactly under `NotAWorld`, and too many exactly under `TooLong`.
    ensures input { IfSome (S.left source.old)
        (λ bytes. SaysOfInput bytes (S.left source.new) result) }
    // What is written is what the call writes of that graph.
    ensures text { IfSome (K.written sink.old) (λ done. SaysOfText done (K.written sink.new)
        (printed_for (call_of (map (λ w. string_bytes w) words.now)) graph.new) result) }
    ensures read_fault { result ≡ Status.ReadFault
        → Rose (S.faults source.old) (S.faults source.new) }
    ensures write_fault { result ≡ Status.WriteFault
        → Rose (K.faults sink.old) (K.faults sink.new) }
{
    empty(alloc, graph, GraphKind::All);
    let call = match call_of(alloc, words) {
        Ok(call) => call,
        Err(Refusal::Memory) => return Status::Memory,
        Err(Refusal::Is(_)) => return Status::Words,
    };
    let input = match read_input(alloc, source) {
        Ok(input) => input,
        Err(status) => return status,
    };
    empty(alloc, graph, input.kind);
    run_input(alloc, input, &call, sink, graph)
}
