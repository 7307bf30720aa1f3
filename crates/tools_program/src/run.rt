// A tool, from words and bytes to the bytes of its report.
ghost use Rattle.std.specs.Prelude.{◌≡◌, ◌↔◌, false, map, IfSome, string_bytes};
ghost use Rattle.spec_base.specs.Counters.{Rose};
ghost use Rattle.graph_core.specs.Graph.{new_graph};
ghost use Rattle.tools_program.specs.Tasks.{task_in};
ghost use Rattle.tools_program.specs.ToolCompletes.{Completes};
ghost use Rattle.tools_program.specs.ToolOutcome.{IsLeft, IsReported, SaysOfBytes};
ghost use Rattle.tools_program.specs.ToolWords.{is_tool};

use crate::jobs::Job;
use crate::phases::{empty, report_by, write_report};
use crate::reading::read_job;
use crate::task::ToolTask;
use crate::tool_command::tool_of;
use crate::tool_status::ToolStatus;
use byte_io::{ByteSink, ByteSource};
use graph_builder::BuildFault;
use graph_core::{GraphKind, ModuleGraph};
use std::alloc::Global;
use world_file::Input;

// Builds the graph of an input, and writes a tool's report of it.
fn run_task<K: ByteSink>(
    alloc: Global,
    task: ToolTask,
    input: Input,
    sink: &mut K,
    graph: &mut ModuleGraph,
) -> ToolStatus
    requires fresh { graph.old ≡ new_graph input.kind }
    ensures says { IsReported (task_in task) input (K.written sink.old) (K.written sink.new)
        graph.new result }
    ensures fault { result ≡ ToolStatus.WriteFault → Rose (K.faults sink.old) (K.faults sink.new) }
{
    match report_by(alloc, task, input, graph) {
        Ok(report) => write_report(sink, &report),
        Err(BuildFault::Memory) => ToolStatus::Memory,
        Err(BuildFault::Budget) => ToolStatus::Budget,
        Err(BuildFault::Loader) => ToolStatus::LoaderFault,
    }
}

/// Runs the tool that the words after the program's name name: reads the input from the source, builds the graph of its
/// world, and writes to the sink what the tool says of it. `graph` is the graph that was built; where none was, the empty
/// graph, of the input's kind where an input was read and else of the kind `All`.
///
/// - `lock` says whether the graph's modules are those that the world's locker knows: `locked N`, `differs S ACTUAL
///   EXPECTED`, or with `--strict` also `unlocked S`.
/// - `policy` reads the rules from the first line, and says which edges of the graph break them: a line for each finding, and
///   `findings N`.
/// - `map` reads an import map and its base from the first line, and writes the text of the graph in which texts lead as it
///   says.
/// - `store` writes the store of the answers to the build, and `replay` reads a world without answers from the first line and
///   a store behind it, and writes the text of the graph for which the store answers.
///
/// The refusals come in this order: the words, reading, what stands beside the world, the world, the build, writing; want of
/// memory can come at each but the first. `No` comes exactly where the tool's report is no yes, and the report is written.
pub fn run_tool<S: ByteSource, K: ByteSink>(
    alloc: Global,
    words: &[String],
    source: &mut S,
    sink: &mut K,
    graph: &mut ModuleGraph,
) -> ToolStatus
    // `Words` comes exactly where the words aren't those of a tool.
    ensures words { (result ≡ ToolStatus.Words)
        ↔ (is_tool (map (λ w. string_bytes w) words.now) ≡ false) }
    // `NotAPart` and `NotAWorld` come exactly where the whole input was read and has no part or no world for the tool, `TooLong`
    // exactly where one byte too many was taken.
    ensures input { IfSome (S.left source.old)
        (λ bytes.
        SaysOfBytes (map (λ w. string_bytes w) words.now) bytes (S.left source.new) result) }
    // The graph promise; what is written is the tool's report, and `No` comes exactly where it is no yes; the causes of `Budget`
    // and `LoaderFault`; nothing is written where there is no report.
    ensures left { IsLeft (map (λ w. string_bytes w) words.now) (S.left source.old)
        (K.written sink.old) (K.written sink.new) graph.new result }
    ensures read_fault { result ≡ ToolStatus.ReadFault
        → Rose (S.faults source.old) (S.faults source.new) }
    ensures write_fault { result ≡ ToolStatus.WriteFault
        → Rose (K.faults sink.old) (K.faults sink.new) }
    // Where nothing stops a run, its report is written: only want of memory is left.
    ensures completes { Completes (map (λ w. string_bytes w) words.now) (S.left source.old)
        (Rose (S.faults source.old) (S.faults source.new))
        (Rose (K.faults sink.old) (K.faults sink.new)) result }
{
    empty(alloc, graph, GraphKind::All);
    let command = match tool_of(words) {
        Some(command) => command,
        None => return ToolStatus::Words,
    };
    let Job { task, input } = match read_job(alloc, command, source) {
        Ok(job) => job,
        Err(status) => return status,
    };
    empty(alloc, graph, input.kind);
    run_task(alloc, task, input, sink, graph)
}
