// What fast checks found, stored at the scripts of a graph in place and without memory.
ghost use Rattle.std.specs.Prelude.{◌≡◌, ℕ, List, option_map};
ghost use Rattle.std.specs.FinMap as finite;
ghost use Rattle.indexmap.specs.IndexMap as index;
ghost use Rattle.std.specs.Map.{set_value};
ghost use Rattle.spec_base.specs.Options.{by_option};
ghost use Rattle.spec_base.specs.Specifier.{same_specifier};
ghost use Rattle.graph_core.specs.FastChecks.{checked_slot, last_found, with_found};

use indexmap::IndexMap;
use module_slots::{FastCheckTypeModuleSlot, Module, ModuleSlot};
use spec_base::ModuleSpecifier;
use specifier_index::{SpecifierIndex, SpecifierTable};
use std::alloc::Global;
use std::mem;

// A script keeps what a fast check found; every other slot stays as it is.
fn put_found(slot: &mut ModuleSlot, found: FastCheckTypeModuleSlot)
    ensures { slot.new ≡ checked_slot found slot.old }
{
    match slot {
        ModuleSlot::Module(Module::Js(script)) => script.fast_check = Some(found),
        ModuleSlot::Module(Module::Json(_)) => drop(found),
        ModuleSlot::Module(Module::Wasm(_)) => drop(found),
        ModuleSlot::Module(Module::Npm(_)) => drop(found),
        ModuleSlot::Module(Module::Node(_)) => drop(found),
        ModuleSlot::Module(Module::External(_)) => drop(found),
        ModuleSlot::Err(_) => drop(found),
        ModuleSlot::Pending { .. } => drop(found),
    }
}

// The script at a specifier keeps what a fast check found.
#[tactic(auto, using(std::proofs::lemmas::Map::Steps::set_value_same))]
fn store_found(
    slots: &mut IndexMap<ModuleSpecifier, ModuleSlot>,
    specifier: &ModuleSpecifier,
    found: FastCheckTypeModuleSlot,
)
    ensures { slots.new.entries
        ≡ by_option (index.get same_specifier slots.old specifier.now) slots.old.entries
        (λ slot. set_value (same_specifier specifier.now) slots.old.entries
        (checked_slot found slot)) }
{
    if let Some(slot) = slots.get_mut(specifier) {
        put_found(slot, found);
    }
}

/// The scripts at these specifiers keep what fast checks found; of two of one specifier the last counts. It takes no memory.
pub(crate) fn store_all_found(
    alloc: Global,
    slots: &mut SpecifierTable<ModuleSlot>,
    modules: Vec<(ModuleSpecifier, FastCheckTypeModuleSlot)>,
)
    ensures { (t : List ℕ)
        → finite.get slots.new t
        ≡ option_map (with_found (last_found modules.items t)) (finite.get slots.old t) }
{
    let (order, values) = mem::replace(slots, SpecifierTable::new(alloc)).into_parts();
    let mut map = values.into_map();
    for (specifier, found) in modules {
        store_found(&mut map, &specifier, found);
    }
    *slots = SpecifierTable::from_parts(order, SpecifierIndex::from(map));
}
