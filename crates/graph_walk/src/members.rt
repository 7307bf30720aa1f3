// The modules and the errors of a graph in the order of their specifiers, and how much the graph knows.
ghost use Rattle.std.specs.Prelude.{◌≡◌, min};
ghost use Rattle.std.specs.Iterator.{YieldsFirstBy, item_count};
ghost use Rattle.graph_walk.specs.Members.{modules_of, errors_at, known_count};
ghost use Rattle.graph_walk.specs.MembersValue.{modules_left, errors_left_of, lent_module, lent_error};

use graph_core::{Module, ModuleError, ModuleGraph, ModuleSlot, Slots};

/// The modules of a graph in the order of their specifiers.
#[derive(Drop)]
pub struct Modules<'a> {
    slots: Slots<'a>,
}

/// The errors that stand in the place of modules, in the order of their specifiers.
#[derive(Drop)]
pub struct ModuleErrors<'a> {
    slots: Slots<'a>,
}

/// The modules of a graph.
pub(crate) fn modules_of(graph: &ModuleGraph) -> Modules<'_>
    ensures { modules_left result ≡ modules_of graph.now }
{
    Modules {
        slots: graph.slots(),
    }
}

/// The errors of a graph.
pub(crate) fn errors_at(graph: &ModuleGraph) -> ModuleErrors<'_>
    ensures { errors_left_of result ≡ errors_at graph.now }
{
    ModuleErrors {
        slots: graph.slots(),
    }
}

/// How many slots, redirects and configured imports a graph has, at most 2^64 - 1.
pub(crate) fn known_count(graph: &ModuleGraph) -> usize
    ensures { result ≡ min (known_count graph.now) 18446744073709551615 }
{
    let slots = graph.slot_map().len();
    let redirects = graph.redirects.len();
    slots
        .saturating_add(redirects)
        .saturating_add(graph.imports.len())
}

impl<'a> Iterator for Modules<'a> {
    type Item = &'a Module;

    ghost next_gives = { YieldsFirstBy lent_module modules_left };

    ghost remaining = { item_count modules_left };

    #[tactic(auto, unfolding(crate::specs::Members::modules_in))]
    fn next(&mut self) -> Option<&'a Module> {
        while let Some((_specifier, slot)) = self.slots.next() {
            match slot {
                ModuleSlot::Module(found) => return Some(found),
                ModuleSlot::Err(_) => (),
                ModuleSlot::Pending { .. } => (),
            }
        }
        None
    }
}

impl<'a> Iterator for ModuleErrors<'a> {
    type Item = &'a ModuleError;

    ghost next_gives = { YieldsFirstBy lent_error errors_left_of };

    ghost remaining = { item_count errors_left_of };

    #[tactic(auto, unfolding(crate::specs::Members::errors_in))]
    fn next(&mut self) -> Option<&'a ModuleError> {
        while let Some((_specifier, slot)) = self.slots.next() {
            match slot {
                ModuleSlot::Err(error) => return Some(error),
                ModuleSlot::Module(_) => (),
                ModuleSlot::Pending { .. } => (),
            }
        }
        None
    }
}
