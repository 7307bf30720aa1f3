// The text of a graph, and whether it is valid.
ghost use Rattle.std.specs.Prelude.{◌≡◌, Ok, Err, IfOk, Result, string_bytes};
ghost use Rattle.spec_base.specs.Refusal.{Answers};
ghost use Rattle.graph_walk.specs.Walk.{validity};
ghost use Rattle.graph_errors.specs.declared.errors.ModuleGraphError.{ModuleGraphError};
ghost use Rattle.graph_printing.specs.Printed.{printed, printed_by, verdict_line};
ghost use Rattle.graph_printing.specs.Verdicts.{IsVerdict};

use crate::command_words::Command;
use crate::walk_lines::walk_text;
use graph_core::{ModuleGraph, ModuleGraphError};
use graph_walk::{WalkGraph, json_text};
use spec_base::Refusal;
use std::alloc::{AllocError, Global};

/// The text of a graph, and whether it is valid.
#[derive(Drop)]
pub struct GraphReport {
    pub text: String,
    pub is_valid: bool,
}

// The line with an error.
fn error_line(alloc: Global, error: &ModuleGraphError) -> Result<String, AllocError>
    ensures { IfOk result (λ s. string_bytes s ≡ verdict_line (Err error.now)) }
{
    let mut text = format!(in alloc; "error: {error}")?;
    text.push_str("\n")?;
    Ok(text)
}

// The line with what was found of a graph, and whether that is that the graph is valid. What was found is lent, so that
// the drop of an error isn't written out at each way out.
fn line_of(
    alloc: Global,
    found: &Result<(), Refusal<ModuleGraphError>>,
) -> Result<GraphReport, AllocError>
    ensures line { (v : Result (Unit {0}) ModuleGraphError) → Answers found.now v
        → IfOk result (λ r. string_bytes r.text ≡ verdict_line v) }
    ensures verdict { (v : Result (Unit {0}) ModuleGraphError) → Answers found.now v
        → IfOk result (λ r. IsVerdict v r.is_valid) }
{
    match found {
        Ok(_) => Ok(GraphReport {
            text: String::from_str(alloc, "valid\n")?,
            is_valid: true,
        }),
        Err(Refusal::Is(error)) => Ok(GraphReport {
            text: error_line(alloc, error)?,
            is_valid: false,
        }),
        Err(Refusal::Memory) => Err(AllocError),
    }
}

/// The line with the verdict, and whether it is that the graph is valid. The only error is want of memory.
pub fn verdict(alloc: Global, graph: &ModuleGraph) -> Result<GraphReport, AllocError>
    ensures line { IfOk result (λ r. string_bytes r.text ≡ verdict_line (validity graph.now)) }
    ensures verdict { IfOk result (λ r. IsVerdict (validity graph.now) r.is_valid) }
{
    let found = graph.valid(alloc);
    line_of(alloc, &found)
}

/// The text of a graph and whether it is valid. The only error is want of memory.
#[tactic(auto, unfolding(crate::specs::Printed::printed))]
pub fn make_report(alloc: Global, graph: &ModuleGraph) -> Result<GraphReport, AllocError>
    ensures text { IfOk result (λ r. string_bytes r.text ≡ printed graph.now) }
    ensures verdict { IfOk result (λ r. IsVerdict (validity graph.now) r.is_valid) }
{
    let last = verdict(alloc, graph)?;
    let mut text = json_text(alloc, graph)?;
    text.push_str("\n")?;
    text.push_str(last.text.as_str())?;
    Ok(GraphReport {
        text,
        is_valid: last.is_valid,
    })
}

/// What a command writes of a graph, and whether the graph is valid. The only error is want of memory.
pub fn report_by(
    alloc: Global,
    command: Command,
    graph: &ModuleGraph,
) -> Result<GraphReport, AllocError>
    ensures text { IfOk result (λ r. string_bytes r.text ≡ printed_by command graph.now) }
    ensures verdict { IfOk result (λ r. IsVerdict (validity graph.now) r.is_valid) }
{
    match command {
        Command::Build => make_report(alloc, graph),
        Command::Walk(kind) => {
            let last = verdict(alloc, graph)?;
            let text = walk_text(alloc, graph, kind)?;
            Ok(GraphReport {
                text,
                is_valid: last.is_valid,
            })
        }
    }
}

/// The text of a graph: its JSON without spaces, and a line `valid` or `error: ` with its first error.
/// The only error is want of memory.
pub fn graph_text(alloc: Global, graph: &ModuleGraph) -> Result<String, AllocError>
    ensures { IfOk result (λ s. string_bytes s ≡ printed graph.now) }
{
    let GraphReport { text, is_valid: _ } = make_report(alloc, graph)?;
    Ok(text)
}
