// Whether a graph is valid.
ghost use Rattle.std.specs.Prelude.{◌≡◌, IfOk, Result};
ghost use Rattle.spec_base.specs.Refusal.{Answers};
ghost use Rattle.graph_errors.specs.declared.errors.ModuleGraphError.{ModuleGraphError};
ghost use Rattle.tools_program.specs.Reports.{has_none, is_valid};

use graph_core::{ModuleGraph, ModuleGraphError};
use graph_walk::WalkGraph;
use spec_base::Refusal;
use std::alloc::{AllocError, Global};

// Whether no error was found. What was found is lent, so that the drop of an error isn't written out at each way out.
fn has_none(found: &Result<(), Refusal<ModuleGraphError>>) -> Result<bool, AllocError>
    ensures { (v : Result (Unit {0}) ModuleGraphError) → Answers found.now v
        → IfOk result (λ none. none ≡ has_none v) }
{
    match found {
        Ok(_) => Ok(true),
        Err(Refusal::Is(_)) => Ok(false),
        Err(Refusal::Memory) => Err(AllocError),
    }
}

/// Whether a graph is valid. The only refusal is want of memory.
pub(crate) fn is_valid(alloc: Global, graph: &ModuleGraph) -> Result<bool, AllocError>
    ensures { IfOk result (λ valid. valid ≡ is_valid graph.now) }
{
    let found = graph.valid(alloc);
    has_none(&found)
}
