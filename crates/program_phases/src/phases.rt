// The phases of a run: an input is read from a source, its graph is built, and the graph's text goes to a sink.
ghost use Rattle.std.specs.Prelude.{◌≡◌, IfSome, IfErr};
ghost use Rattle.spec_base.specs.Counters.{Rose};
ghost use Rattle.program_phases.specs.Outcome.{SaysOfText};
ghost use Rattle.program_phases.specs.Phases.{IsInputBy, IsRefusedStatus, SaysOfVerdict};
ghost use Rattle.graph_printing.specs.Printed.{printed, printed_by};

use crate::status::Status;
use byte_io::{ByteSink, ByteSource, ReadRefusal, read_all, write_all};
use graph_core::ModuleGraph;
use graph_printing::{Command, report_by, verdict};
use spec_base::Refusal;
use std::alloc::Global;
use world_file::{Input, world_of_own};

/// The input that the source gives, or the status of a run without one: `ReadFault`, `TooLong`, `NotAWorld` or `Memory`.
pub fn read_input<S: ByteSource>(alloc: Global, source: &mut S) -> Result<Input, Status>
    ensures input { IfSome (S.left source.old)
        (λ bytes. IsInputBy bytes (S.left source.new) result) }
    ensures refused { IfErr result IsRefusedStatus }
    ensures fault { IfErr result
        (λ status. status ≡ Status.ReadFault → Rose (S.faults source.old) (S.faults source.new)) }
{
    let bytes = match read_all(alloc, source) {
        Ok(bytes) => bytes,
        Err(ReadRefusal::Memory) => return Err(Status::Memory),
        Err(ReadRefusal::Failed) => return Err(Status::ReadFault),
        Err(ReadRefusal::TooLong) => return Err(Status::TooLong),
    };
    match world_of_own(alloc, bytes) {
        Ok(input) => Ok(input),
        Err(Refusal::Memory) => Err(Status::Memory),
        Err(Refusal::Is(_)) => Err(Status::NotAWorld),
    }
}

/// Writes what a command writes of a graph, and says by the status whether the graph is valid. `WriteFault` comes only
/// where the sink failed, `Memory` where there was no memory; nothing is written then.
pub fn write_by<K: ByteSink>(
    alloc: Global,
    command: Command,
    sink: &mut K,
    graph: &ModuleGraph,
) -> Status
    ensures text { IfSome (K.written sink.old)
        (λ done. SaysOfText done (K.written sink.new) (printed_by command graph.now) result) }
    ensures verdict { SaysOfVerdict graph.now result }
    ensures fault { result ≡ Status.WriteFault → Rose (K.faults sink.old) (K.faults sink.new) }
{
    let report = match report_by(alloc, command, graph) {
        Ok(report) => report,
        Err(_) => return Status::Memory,
    };
    match write_all(sink, report.text.as_str().as_bytes()) {
        Ok(()) => {
            if report.is_valid {
                Status::Valid
            } else {
                Status::Invalid
            }
        }
        Err(_) => Status::WriteFault,
    }
}

/// Writes a text that was made of a graph, and says by the status whether the graph is valid. `WriteFault` comes only where
/// the sink failed, `Memory` where there was no memory; nothing is written then.
pub fn write_text<K: ByteSink>(
    alloc: Global,
    text: &str,
    sink: &mut K,
    graph: &ModuleGraph,
) -> Status
    ensures text { IfSome (K.written sink.old)
        (λ done. SaysOfText done (K.written sink.new) text.now result) }
    ensures verdict { SaysOfVerdict graph.now result }
    ensures fault { result ≡ Status.WriteFault → Rose (K.faults sink.old) (K.faults sink.new) }
{
    let last = match verdict(alloc, graph) {
        Ok(last) => last,
        Err(_) => return Status::Memory,
    };
    match write_all(sink, text.as_bytes()) {
        Ok(()) => {
            if last.is_valid {
                Status::Valid
            } else {
                Status::Invalid
            }
        }
        Err(_) => Status::WriteFault,
    }
}

/// Writes the text of a graph, as the command `build` does.
pub fn write_graph<K: ByteSink>(alloc: Global, sink: &mut K, graph: &ModuleGraph) -> Status
    ensures text { IfSome (K.written sink.old)
        (λ done. SaysOfText done (K.written sink.new) (printed graph.now) result) }
    ensures verdict { SaysOfVerdict graph.now result }
    ensures fault { result ≡ Status.WriteFault → Rose (K.faults sink.old) (K.faults sink.new) }
{
    write_by(alloc, Command::Build, sink, graph)
}
