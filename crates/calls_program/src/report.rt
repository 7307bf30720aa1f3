// What a call writes of the graph that it leaves.
ghost use Rattle.std.specs.Prelude.{◌≡◌, IfSome};
ghost use Rattle.spec_base.specs.Counters.{Rose};
ghost use Rattle.graph_walk.specs.Errors.{first_of};
ghost use Rattle.program_phases.specs.Outcome.{SaysOfText};
ghost use Rattle.program_phases.specs.Phases.{SaysOfVerdict};
ghost use Rattle.calls_program.specs.Called.{SaysOfFound};
ghost use Rattle.calls_program.specs.Lines.{entries_lines, errors_lines, listed_errors, printed_by_call, found_by_call};

use crate::call::{Call, EntriesCall, ErrorsCall};
use crate::entry_lines::entries_text;
use crate::error_lines::errors_text;
use byte_io::{ByteSink, write_all};
use graph_core::ModuleGraph;
use graph_printing::Command;
use program_phases::{Status, write_by, write_graph, write_text};
use std::alloc::Global;

// Writes a line for each of the listed errors, and says by the status whether there is one.
fn write_errors<K: ByteSink>(
    alloc: Global,
    listed: ErrorsCall,
    sink: &mut K,
    graph: &ModuleGraph,
) -> Status
    ensures text { IfSome (K.written sink.old)
        (λ done. SaysOfText done (K.written sink.new) (errors_lines listed graph.now) result) }
    ensures found { SaysOfFound (first_of (listed_errors listed graph.now)) result }
    ensures fault { result ≡ Status.WriteFault → Rose (K.faults sink.old) (K.faults sink.new) }
{
    let text = match errors_text(alloc, graph, listed) {
        Ok(text) => text,
        Err(_) => return Status::Memory,
    };
    match write_all(sink, text.as_str().as_bytes()) {
        Ok(()) => {
            if text.is_empty() {
                Status::Valid
            } else {
                Status::Invalid
            }
        }
        Err(_) => Status::WriteFault,
    }
}

// Writes a line for each entry of a walk, and says by the status whether the graph is valid.
fn write_entries<K: ByteSink>(
    alloc: Global,
    called: &EntriesCall,
    sink: &mut K,
    graph: &ModuleGraph,
) -> Status
    ensures text { IfSome (K.written sink.old)
        (λ done. SaysOfText done (K.written sink.new) (entries_lines called.now graph.now) result) }
    ensures verdict { SaysOfVerdict graph.now result }
    ensures fault { result ≡ Status.WriteFault → Rose (K.faults sink.old) (K.faults sink.new) }
{
    match entries_text(alloc, graph, called) {
        Ok(text) => write_text(alloc, text.as_str(), sink, graph),
        Err(_) => Status::Memory,
    }
}

/// Writes what a call writes of the graph that it leaves, and says by the status what it finds: `Invalid` where it lists
/// errors, and where the graph of another call isn't valid. `WriteFault` comes only where the sink failed, `Memory` where
/// there was no memory; nothing is written then.
pub(crate) fn write_call<K: ByteSink>(
    alloc: Global,
    call: &Call,
    sink: &mut K,
    graph: &ModuleGraph,
) -> Status
    ensures text { IfSome (K.written sink.old)
        (λ done. SaysOfText done (K.written sink.new) (printed_by_call call.now graph.now) result) }
    ensures found { SaysOfFound (found_by_call call.now graph.now) result }
    ensures fault { result ≡ Status.WriteFault → Rose (K.faults sink.old) (K.faults sink.new) }
{
    match call {
        Call::Walk(kind) => write_by(alloc, Command::Walk(*kind), sink, graph),
        Call::Entries(called) => write_entries(alloc, called, sink, graph),
        Call::Errors(listed) => write_errors(alloc, *listed, sink, graph),
        Call::Segment(_) => write_graph(alloc, sink, graph),
        Call::Prune => write_graph(alloc, sink, graph),
        Call::Reload(_) => write_graph(alloc, sink, graph),
        Call::Packages(_) => write_graph(alloc, sink, graph),
    }
}
