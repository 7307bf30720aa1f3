// Whether the modules of a graph are those that the world's locker knows.
ghost use Rattle.std.specs.Prelude.{◌≡◌, IfOk, IfErr, OnOk, string_bytes};
ghost use Rattle.graph_core.specs.Graph.{new_graph};
ghost use Rattle.program_phases.specs.Outcome.{KeepsPromise};
ghost use Rattle.tools_program.specs.LockTool.{finding_line, lock_report, lock_sums, report_of};
ghost use Rattle.tools_program.specs.Told.{SaysOfOwnFault};

use crate::tool_report::{ToolReport, said};
use graph_builder::BuildFault;
use graph_core::ModuleGraph;
use graph_program::build_input;
use lock_verify::{LockFinding, LockVerdict, verify_lock};
use program_phases::locker_of;
use source_io::HashMapLocker;
use spec_base::ModuleSpecifier;
use std::alloc::{AllocError, Global};
use world_file::Input;

// The world's own locker, and one that knows nothing where it has none.
fn own_locker(alloc: Global, input: &Input) -> Result<HashMapLocker, AllocError>
    ensures { IfOk result (λ locker. locker.remote ≡ lock_sums input.now) }
{
    match locker_of(alloc, input)? {
        Some(locker) => Ok(locker),
        None => Ok(HashMapLocker::new(alloc)),
    }
}

// The line of a module that breaks the lock.
fn finding_line(
    alloc: Global,
    specifier: &ModuleSpecifier,
    finding: &LockFinding,
) -> Result<String, AllocError>
    ensures { IfOk result (λ line. string_bytes line ≡ finding_line specifier.now finding.now) }
{
    match finding {
        LockFinding::Unlocked => format!(in alloc; "unlocked {specifier}\n"),
        LockFinding::Differs { actual, expected } => {
            format!(in alloc; "differs {specifier} {actual} {expected}\n")
        }
    }
}

// What is said of a verdict. It is lent, so that its drop isn't written out at each way out.
fn report_of(alloc: Global, verdict: &LockVerdict) -> Result<ToolReport, AllocError>
    ensures { IfOk result (λ report. report ≡ report_of verdict.now) }
{
    match verdict {
        LockVerdict::Yes { checked } => {
            let text = format!(in alloc; "locked {checked}\n")?;
            Ok(said(text, true))
        }
        LockVerdict::No { specifier, finding } => {
            let text = finding_line(alloc, specifier, finding)?;
            Ok(said(text, false))
        }
    }
}

/// Builds the graph of an input into the empty graph of its kind, and says whether it keeps the lock of the world's own
/// locker, of which the build has a copy.
pub(crate) fn lock_input(
    alloc: Global,
    strict: bool,
    input: Input,
    graph: &mut ModuleGraph,
) -> Result<ToolReport, BuildFault>
    requires fresh { graph.old ≡ new_graph input.kind }
    ensures promise { OnOk result (KeepsPromise input graph.new) }
    ensures report { IfOk result (λ report. report ≡ lock_report strict input graph.new) }
    ensures fault { IfErr result (λ fault. SaysOfOwnFault input graph.new fault) }
{
    let locker = own_locker(alloc, &input)?;
    let jsr = input.registry.provider.try_clone()?;
    match build_input(alloc, input, graph) {
        Ok(()) => (),
        Err(fault) => return Err(fault),
    }
    let verdict = verify_lock(alloc, graph, &locker, &jsr, strict)?;
    Ok(report_of(alloc, &verdict)?)
}
