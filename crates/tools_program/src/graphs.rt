// The graph itself as a report.
ghost use Rattle.std.specs.Prelude.{◌≡◌, IfOk, IfErr, OnOk};
ghost use Rattle.graph_core.specs.Graph.{new_graph};
ghost use Rattle.program_phases.specs.Outcome.{KeepsPromise};
ghost use Rattle.tools_program.specs.Reports.{graph_report};
ghost use Rattle.tools_program.specs.Told.{SaysOfOwnFault};

use crate::tool_report::{ToolReport, said};
use crate::verdict::is_valid;
use graph_builder::BuildFault;
use graph_core::ModuleGraph;
use graph_printing::graph_text;
use graph_program::build_input;
use std::alloc::{AllocError, Global};
use world_file::Input;

/// The graph's text, which is a yes where it is valid. The only refusal is want of memory.
pub(crate) fn graph_report(alloc: Global, graph: &ModuleGraph) -> Result<ToolReport, AllocError>
    ensures { IfOk result (λ report. report ≡ graph_report graph.now) }
{
    let is_yes = is_valid(alloc, graph)?;
    let text = graph_text(alloc, graph)?;
    Ok(said(text, is_yes))
}

/// Builds the graph of an input, whose texts lead as a map says already, into the empty graph of its kind, and gives its text.
pub(crate) fn map_input(
    alloc: Global,
    input: Input,
    graph: &mut ModuleGraph,
) -> Result<ToolReport, BuildFault>
    requires fresh { graph.old ≡ new_graph input.kind }
    ensures promise { OnOk result (KeepsPromise input graph.new) }
    ensures report { IfOk result (λ report. report ≡ graph_report graph.new) }
    ensures fault { IfErr result (λ fault. SaysOfOwnFault input graph.new fault) }
{
    match build_input(alloc, input, graph) {
        Ok(()) => Ok(graph_report(alloc, graph)?),
        Err(fault) => Err(fault),
    }
}
