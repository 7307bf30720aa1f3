// What is counted of a graph.
ghost use Rattle.std.specs.Prelude.{◌≡◌, ◌+◌, IfOk};
ghost use Rattle.generator_program.specs.Counts.{counts_of, dependency_count, with_slot};

use graph_core::{Module, ModuleGraph, ModuleSlot};
use std::alloc::AllocError;

/// How many modules a graph has, and how many dependencies these have.
#[derive(Clone, Copy, PartialEq, Eq, Debug)]
pub struct Counts {
    pub modules: u64,
    pub edges: u64,
}

// A sum. One that has more than 64 bits is wanting memory, of which so much can't be there.
fn sum(one: u64, other: u64) -> Result<u64, AllocError>
    ensures { IfOk result (λ sum. sum ≡ one + other) }
{
    match one.checked_add(other) {
        Some(sum) => Ok(sum),
        None => Err(AllocError),
    }
}

// How many dependencies a module has.
fn dependency_count(module: &Module) -> u64
    ensures { result ≡ dependency_count module.now }
{
    match module.dependencies() {
        Some(dependencies) => dependencies.len() as u64,
        None => 0,
    }
}

impl Counts {
    // With what stands in a slot.
    fn with_slot(self, slot: &ModuleSlot) -> Result<Counts, AllocError>
        ensures { IfOk result (λ counts. counts ≡ with_slot self slot.now) }
    {
        match slot {
            ModuleSlot::Module(module) => Ok(Counts {
                modules: sum(self.modules, 1)?,
                edges: sum(self.edges, dependency_count(module))?,
            }),
            ModuleSlot::Err(_) | ModuleSlot::Pending { .. } => Ok(self),
        }
    }
}

/// The modules of a graph, and their dependencies. The only error is want of memory.
pub fn counts_of(graph: &ModuleGraph) -> Result<Counts, AllocError>
    ensures { IfOk result (λ counts. counts ≡ counts_of graph.now) }
{
    let mut counts = Counts {
        modules: 0,
        edges: 0,
    };
    for (_specifier, slot) in graph.slots() {
        counts = counts.with_slot(slot)?;
    }
    Ok(counts)
}
