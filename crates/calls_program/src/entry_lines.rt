// The entries of a walk from roots of its own, a line for each.
ghost use Rattle.std.specs.Prelude.{◌≡◌, IfOk, string_bytes};
ghost use Rattle.calls_program.specs.Lines.{entries_lines};

use crate::call::EntriesCall;
use crate::error_lines::options_of;
use graph_core::ModuleGraph;
use graph_printing::push_entry;
use graph_walk::WalkGraph;
use std::alloc::{AllocError, Global};

/// A line for each entry of the walk from the roots of a call, in order, as the walk of the program `graph_info` writes it. The
/// only error is want of memory.
#[tactic(auto, unfolding(crate::specs::Lines::entries_lines))]
pub(crate) fn entries_text(
    alloc: Global,
    graph: &ModuleGraph,
    called: &EntriesCall,
) -> Result<String, AllocError>
    ensures { IfOk result (λ s. string_bytes s ≡ entries_lines called.now graph.now) }
{
    let mut text = String::new(alloc);
    let options = options_of(called.how);
    let mut walk = graph.walk(alloc, called.roots.as_slice(), options)?;
    while let Some((specifier, entry)) = walk.next() {
        push_entry(&mut text, specifier, entry)?;
    }
    Ok(text)
}
