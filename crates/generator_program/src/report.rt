// What is written of the graph of a generated world.
ghost use Rattle.std.specs.Prelude.{◌≡◌, IfOk, string_bytes};
ghost use Rattle.generator_program.specs.Lines.{generator_lines};

use crate::counts::counts_of;
use crate::lines::lines_by;
use graph_core::ModuleGraph;
use graph_printing::graph_text;
use source_sums::LoaderChecksum;
use std::alloc::{AllocError, Global};

/// Four lines: `modules N`, `redirects N`, `edges N`, the number of dependencies of all modules, and `sha256 H`, the SHA-256 sum
/// (FIPS 180-4) in lower-case hex of the text that the command `build` writes of the graph. The only error is want of memory.
#[tactic(auto, unfolding(crate::specs::Lines::generator_lines))]
pub fn generator_text(alloc: Global, graph: &ModuleGraph) -> Result<String, AllocError>
    ensures { IfOk result (λ s. string_bytes s ≡ generator_lines graph.now) }
{
    let counts = counts_of(graph)?;
    let text = graph_text(alloc, graph)?;
    let sum = LoaderChecksum::generate(alloc, text.as_str().as_bytes())?;
    let redirects = graph.redirects.len() as u64;
    lines_by(alloc, counts.modules, redirects, counts.edges, sum.as_str())
}
