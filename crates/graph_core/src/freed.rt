// Slots that lose their types, in place and without memory.
ghost use Rattle.std.specs.Prelude.{◌≡◌, map};
ghost use Rattle.graph_core.specs.Pruned.{freed_dependency, freed_named, freed_script, freed_slot, freed_wasm};

use graph_dependencies::Dependency;
use graph_errors::Resolution;
use indexmap::IndexMap;
use module_slots::{JsModule, Module, ModuleSlot, WasmModule};
use spec_base::{Text, TextMap};
use std::alloc::Global;
use std::mem;

fn free_dependency(dependency: &mut Dependency)
    ensures { dependency.new ≡ freed_dependency dependency.old }
{
    dependency.maybe_type = Resolution::None;
    dependency.maybe_deno_types_specifier = None;
}

fn free_entries(entries: &mut IndexMap<String, Dependency>)
    ensures { entries.new.entries ≡ map (λ e. (e.0, freed_dependency e.1)) entries.old.entries }
{
    entries.retain(|_, dependency| {
        free_dependency(dependency);
        true
    });
}

#[tactic(auto, using(crate::proofs::FreedLemmas::freed_shown))]
fn free_dependencies(alloc: Global, dependencies: &mut TextMap<Dependency>)
    ensures { dependencies.new ≡ map freed_named dependencies.old }
{
    let mut entries = mem::replace(dependencies, TextMap::new(alloc)).into_map();
    free_entries(&mut entries);
    *dependencies = TextMap::from(entries);
}

fn free_script(alloc: Global, script: &mut JsModule)
    ensures { script.new ≡ freed_script script.old }
{
    free_dependencies(alloc, &mut script.dependencies);
    script.maybe_types_dependency = None;
    script.fast_check = None;
}

fn free_wasm(alloc: Global, wasm: &mut WasmModule)
    ensures { wasm.new ≡ freed_wasm wasm.old }
{
    free_dependencies(alloc, &mut wasm.dependencies);
    wasm.source_dts = Text::from(String::new(alloc));
}

/// The slot loses its types. It takes no memory.
pub(crate) fn free_slot(alloc: Global, slot: &mut ModuleSlot)
    ensures { slot.new ≡ freed_slot slot.old }
{
    match slot {
        ModuleSlot::Module(Module::Js(script)) => free_script(alloc, script),
        ModuleSlot::Module(Module::Json(_)) => (),
        ModuleSlot::Module(Module::Wasm(wasm)) => free_wasm(alloc, wasm),
        ModuleSlot::Module(Module::Npm(_)) => (),
        ModuleSlot::Module(Module::Node(_)) => (),
        ModuleSlot::Module(Module::External(_)) => (),
        ModuleSlot::Err(_) => (),
        ModuleSlot::Pending { .. } => (),
    }
}
