// The phases of a run: a tool's graph is built, the tool makes its report of it, and the report is written.
ghost use Rattle.std.specs.Prelude.{◌≡◌, IfOk, IfErr, IfSome, OnOk};
ghost use Rattle.spec_base.specs.Counters.{Rose};
ghost use Rattle.graph_core.specs.Graph.{new_graph};
ghost use Rattle.tools_program.specs.Reported.{IsReportOf};
ghost use Rattle.tools_program.specs.Tasks.{task_in};
ghost use Rattle.tools_program.specs.Told.{KeepsPromiseBy, SaysOfFault};
ghost use Rattle.tools_program.specs.ToolOutcome.{SaysOfReport, SaysOfWritten};

use crate::graphs::map_input;
use crate::lock::lock_input;
use crate::policy::policy_input;
use crate::stores::{replay_input, store_input};
use crate::task::ToolTask;
use crate::tool_report::ToolReport;
use crate::tool_status::ToolStatus;
use byte_io::{ByteSink, write_all};
use graph_builder::BuildFault;
use graph_core::{GraphKind, ModuleGraph};
use std::alloc::Global;
use world_file::Input;

/// Puts the empty graph of a kind in the place of a graph.
pub(crate) fn empty(alloc: Global, graph: &mut ModuleGraph, kind: GraphKind)
    ensures { graph.new ≡ new_graph kind }
{
    *graph = ModuleGraph::new(alloc, kind);
}

/// Builds the graph of an input into the empty graph of its kind, and makes a tool's report of it: a function for each tool.
pub(crate) fn report_by(
    alloc: Global,
    task: ToolTask,
    input: Input,
    graph: &mut ModuleGraph,
) -> Result<ToolReport, BuildFault>
    requires fresh { graph.old ≡ new_graph input.kind }
    ensures promise { OnOk result (KeepsPromiseBy (task_in task) input graph.new) }
    ensures report { IfOk result (λ report. IsReportOf (task_in task) input graph.new report) }
    ensures fault { IfErr result (λ fault. SaysOfFault (task_in task) input graph.new fault) }
{
    match task {
        ToolTask::Lock { strict } => lock_input(alloc, strict, input, graph),
        ToolTask::Policy(rules) => policy_input(alloc, rules.as_slice(), input, graph),
        ToolTask::Map(_) => map_input(alloc, input, graph),
        ToolTask::Store => store_input(alloc, input, graph),
        ToolTask::Replay(store) => replay_input(alloc, store, input, graph),
    }
}

/// Writes a report, and says by the status whether it is a yes. `WriteFault` comes only where the sink failed.
pub(crate) fn write_report<K: ByteSink>(sink: &mut K, report: &ToolReport) -> ToolStatus
    ensures text { IfSome (K.written sink.old)
        (λ done. SaysOfWritten done (K.written sink.new) report.now.bytes result) }
    ensures verdict { SaysOfReport report.now result }
    ensures fault { result ≡ ToolStatus.WriteFault → Rose (K.faults sink.old) (K.faults sink.new) }
{
    match write_all(sink, report.bytes.as_slice()) {
        Ok(()) => {
            if report.is_yes {
                ToolStatus::Yes
            } else {
                ToolStatus::No
            }
        }
        Err(_) => ToolStatus::WriteFault,
    }
}
