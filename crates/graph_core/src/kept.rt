// What is left of a graph's maps at some specifiers, in place and without memory.
ghost use Rattle.std.specs.Prelude.{◌≡◌, ◌&&◌, not, ℕ, List, None, map, filter, option_map, if◌then◌else◌};
ghost use Rattle.std.specs.List.{list_any};
ghost use Rattle.std.specs.FinMap as finite;
ghost use Rattle.spec_base.specs.Specifier.{same_specifier, specifier_text};
ghost use Rattle.graph_core.specs.Pruned.{freed_slot, has_text_of};

use crate::freed::free_slot;
use indexmap::IndexMap;
use module_slots::ModuleSlot;
use spec_base::{ModuleSpecifier, SpecifierMap, SpecifierSet};
use specifier_index::{SpecifierIndex, SpecifierTable};
use std::alloc::Global;
use std::collections::BTreeMap;
use std::mem;

fn keep_redirected(redirects: &mut BTreeMap<ModuleSpecifier, ModuleSpecifier>, kept: &SpecifierSet)
    ensures { redirects.new.entries
        ≡ filter (λ e. list_any (same_specifier e.0) kept.now) redirects.old.entries }
{
    redirects.retain(|specifier, _| kept.contains(specifier));
}

fn keep_unredirected(
    slots: &mut IndexMap<ModuleSpecifier, ModuleSlot>,
    redirects: &SpecifierMap<ModuleSpecifier>,
    kept: &SpecifierSet,
)
    ensures { slots.new.entries
        ≡ filter (λ e. list_any (same_specifier e.0) kept.now && not
        (finite.contains_key redirects.now (specifier_text e.0))) slots.old.entries }
{
    slots.retain(|specifier, _| kept.contains(specifier) && !redirects.contains_key(specifier));
}

fn free_slots(alloc: Global, slots: &mut IndexMap<ModuleSpecifier, ModuleSlot>)
    ensures { slots.new.entries ≡ map (λ e. (e.0, freed_slot e.1)) slots.old.entries }
{
    slots.retain(|_, slot| {
        free_slot(alloc, slot);
        true
    });
}

/// Leaves the slots at these specifiers alone where no redirect stands, freed of types. It takes no memory.
pub(crate) fn keep_slots(
    alloc: Global,
    slots: &mut SpecifierTable<ModuleSlot>,
    redirects: &SpecifierMap<ModuleSpecifier>,
    kept: &SpecifierSet,
)
    ensures { (t : List ℕ)
        → finite.get slots.new t
        ≡ (if has_text_of kept.now t && not (finite.contains_key redirects.now t) then
        option_map freed_slot (finite.get slots.old t) else None) }
{
    let (order, values) = mem::replace(slots, SpecifierTable::new(alloc)).into_parts();
    let mut map = values.into_map();
    keep_unredirected(&mut map, redirects, kept);
    free_slots(alloc, &mut map);
    *slots = SpecifierTable::from_parts(order, SpecifierIndex::from(map));
}

/// Leaves the redirects from these specifiers alone. It takes no memory.
pub(crate) fn keep_redirects(
    alloc: Global,
    redirects: &mut SpecifierMap<ModuleSpecifier>,
    kept: &SpecifierSet,
)
    ensures { (t : List ℕ)
        → finite.get redirects.new t
        ≡ (if has_text_of kept.now t then finite.get redirects.old t else None) }
{
    let mut map = mem::replace(redirects, SpecifierMap::new(alloc)).into_map();
    keep_redirected(&mut map, kept);
    *redirects = SpecifierMap::from(map);
}
