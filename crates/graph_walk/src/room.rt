// As many specifiers as a walk can come to: each is a root, or is named by a configured import, a redirect or a module.
ghost use Rattle.std.specs.Prelude.{◌≡◌, ◌+◌, length, IfSome, sum_by};
ghost use Rattle.std.specs.FinMap as finite;
ghost use Rattle.graph_walk.specs.Options.{how};
ghost use Rattle.graph_walk.specs.Order.{texts, slot_room, import_room, room};

use crate::options::{CheckJsResolver, WalkOptions};
use crate::walk::walked;
use graph_core::{GraphImport, Module, ModuleGraph, ModuleSlot};
use spec_base::{Entries, ModuleSpecifier};

// How many specifiers a slot may add; None from 2^64 on.
fn slot_room<C: CheckJsResolver>(options: &WalkOptions<'_, C>, slot: &ModuleSlot) -> Option<usize>
    ensures { IfSome result (λ n. n ≡ slot_room (how C.resolves options.now) slot.now) }
{
    match slot {
        ModuleSlot::Module(Module::Js(script)) => {
            let dependencies = walked(options, script).len();
            dependencies.checked_add(dependencies)?.checked_add(1)
        }
        ModuleSlot::Module(Module::Json(_)) => Some(0),
        ModuleSlot::Module(Module::Wasm(wasm)) => {
            let dependencies = wasm.dependencies.len();
            dependencies.checked_add(dependencies)
        }
        ModuleSlot::Module(Module::Npm(_)) => Some(0),
        ModuleSlot::Module(Module::Node(_)) => Some(0),
        ModuleSlot::Module(Module::External(_)) => Some(0),
        ModuleSlot::Err(_) => Some(0),
        ModuleSlot::Pending { .. } => Some(0),
    }
}

// How many specifiers all slots may add; None from 2^64 on.
fn slots_room<C: CheckJsResolver>(
    graph: &ModuleGraph,
    options: &WalkOptions<'_, C>,
) -> Option<usize>
    ensures { IfSome result
        (λ n. n
        ≡ sum_by (λ e. slot_room (how C.resolves options.now) e.1)
        (finite.entries graph.now.slots)) }
{
    let mut room: usize = 0;
    for (_specifier, slot) in graph.slots() {
        room = room.checked_add(slot_room(options, slot)?)?;
    }
    Some(room)
}

fn import_room(import: &GraphImport) -> Option<usize>
    ensures { IfSome result
        (λ n. n ≡ length import.now.dependencies + length import.now.dependencies) }
{
    let dependencies = import.dependencies.len();
    dependencies.checked_add(dependencies)
}

// How many specifiers the configured imports may add; None from 2^64 on.
fn imports_room(imports: &Entries<ModuleSpecifier, GraphImport>) -> Option<usize>
    ensures { IfSome result (λ n. n ≡ sum_by import_room imports.now) }
{
    let mut room: usize = 0;
    for (_referrer, import) in imports.as_map().iter() {
        room = room.checked_add(import_room(import)?)?;
    }
    Some(room)
}

/// As many specifiers as a walk can come to; None from 2^64 on.
pub(crate) fn room<C: CheckJsResolver>(
    graph: &ModuleGraph,
    options: &WalkOptions<'_, C>,
    roots: &[ModuleSpecifier],
) -> Option<usize>
    ensures { IfSome result
        (λ n. n ≡ room graph.now (how C.resolves options.now) (texts roots.now)) }
{
    let slots = slots_room(graph, options)?;
    let known = graph.redirects.len().checked_add(slots)?;
    let named = imports_room(&graph.imports)?.checked_add(known)?;
    roots.len().checked_add(named)
}
