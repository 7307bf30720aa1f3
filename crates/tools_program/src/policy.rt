// Which edges of a graph break the rules of a policy.
ghost use Rattle.std.specs.Prelude.{◌≡◌, IfOk, IfErr, OnOk};
ghost use Rattle.graph_core.specs.Graph.{new_graph};
ghost use Rattle.program_phases.specs.Outcome.{KeepsPromise};
ghost use Rattle.tools_program.specs.PolicyTool.{IsPolicyReport};
ghost use Rattle.tools_program.specs.Told.{SaysOfOwnFault};

use crate::tool_report::{ToolReport, said};
use graph_builder::BuildFault;
use graph_core::ModuleGraph;
use graph_program::build_input;
use import_policy::{PolicyRule, graph_report, report_text};
use std::alloc::{AllocError, Global};
use world_file::Input;

// The report of rules on a graph: a yes where it has no finding.
fn policy_report(
    alloc: Global,
    rules: &[PolicyRule],
    graph: &ModuleGraph,
) -> Result<ToolReport, AllocError>
    ensures { IfOk result (λ report. IsPolicyReport rules.now graph.now report) }
{
    let findings = graph_report(alloc, graph, rules)?;
    let text = report_text(alloc, rules, findings.as_slice())?;
    Ok(said(text, findings.is_empty()))
}

/// Builds the graph of an input into the empty graph of its kind, and says which of its edges break the rules.
pub(crate) fn policy_input(
    alloc: Global,
    rules: &[PolicyRule],
    input: Input,
    graph: &mut ModuleGraph,
) -> Result<ToolReport, BuildFault>
    requires fresh { graph.old ≡ new_graph input.kind }
    ensures promise { OnOk result (KeepsPromise input graph.new) }
    ensures report { IfOk result (λ report. IsPolicyReport rules.now graph.new report) }
    ensures fault { IfErr result (λ fault. SaysOfOwnFault input graph.new fault) }
{
    match build_input(alloc, input, graph) {
        Ok(()) => Ok(policy_report(alloc, rules, graph)?),
        Err(fault) => Err(fault),
    }
}
