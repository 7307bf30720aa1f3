// The slots of a graph, taken out and stored again with what is told of cached copies, one after another.
ghost use Rattle.std.specs.Prelude.{◌≡◌, ◌≢◌, ℕ, List, map, IfOk, OnOk};
ghost use Rattle.std.specs.FinMap as finite;
ghost use Rattle.spec_base.specs.Specifier.{specifier_text};
ghost use Rattle.graph_core.specs.Graph.{slot_at};
ghost use Rattle.cache_filling.specs.Filled.{IsFilled, IsFilledAt, IsTold};
ghost use Rattle.cache_filling.specs.Copies.{has_copy, with_copies};
ghost use Rattle.cache_filling.specs.Noted.{NotesCopies};

use graph_core::{Module, ModuleGraph, ModuleSlot};
use source_io::LoaderCore;
use spec_base::ModuleSpecifier;
use std::alloc::{AllocError, Global};

// Whether the module of a slot may have a cached copy.
fn has_copy(slot: &ModuleSlot) -> bool
    ensures { result ≡ has_copy slot.now }
{
    match slot {
        ModuleSlot::Module(Module::Js(_)) => true,
        ModuleSlot::Module(Module::Json(_)) => true,
        ModuleSlot::Module(Module::Wasm(_)) => true,
        ModuleSlot::Module(Module::Npm(_)) => false,
        ModuleSlot::Module(Module::Node(_)) => false,
        ModuleSlot::Module(Module::External(_)) => true,
        ModuleSlot::Err(_) => false,
        ModuleSlot::Pending { .. } => false,
    }
}

// Copies of the specifiers of the slots with such modules, in the order of their texts.
fn with_copies(alloc: Global, graph: &ModuleGraph) -> Result<Vec<ModuleSpecifier>, AllocError>
    ensures { IfOk result
        (λ found. map specifier_text found.items ≡ with_copies (finite.entries graph.now.slots)) }
{
    let mut found = Vec::new(alloc);
    for (specifier, slot) in graph.slots() {
        if has_copy(slot) {
            let specifier = specifier.clone()?;
            found.push(specifier)?;
        }
    }
    Ok(found)
}

// Notes at the module of a slot what the loader tells of its copy.
fn fill_slot<L: LoaderCore>(slot: &mut ModuleSlot, loader: &L) -> Result<(), AllocError>
    ensures { OnOk result (IsTold (L.world loader.now) slot.old slot.new) }
{
    match slot {
        ModuleSlot::Module(Module::Js(script)) => {
            script.maybe_cache_info = loader.get_cache_info(&script.specifier)?;
        }
        ModuleSlot::Module(Module::Json(json)) => {
            json.maybe_cache_info = loader.get_cache_info(&json.specifier)?;
        }
        ModuleSlot::Module(Module::Wasm(wasm)) => {
            wasm.maybe_cache_info = loader.get_cache_info(&wasm.specifier)?;
        }
        ModuleSlot::Module(Module::Npm(_)) => (),
        ModuleSlot::Module(Module::Node(_)) => (),
        ModuleSlot::Module(Module::External(external)) => {
            external.maybe_cache_info = loader.get_cache_info(&external.specifier)?;
        }
        ModuleSlot::Err(_) => (),
        ModuleSlot::Pending { .. } => (),
    }
    Ok(())
}

// The slot at a specifier with what the loader tells of its module's copy.
fn fill_at<L: LoaderCore>(
    graph: &mut ModuleGraph,
    specifier: ModuleSpecifier,
    loader: &L,
) -> Result<(), AllocError>
    ensures rest { OnOk result (graph.new ≡ record graph.old { slots = graph.new.slots }) }
    ensures others { OnOk result
        ((t : List ℕ) → t ≢ specifier_text specifier
        → finite.get graph.new.slots t ≡ finite.get graph.old.slots t) }
    ensures slot { OnOk result
        (IsFilledAt (L.world loader.now) (slot_at graph.old specifier)
        (slot_at graph.new specifier)) }
{
    let Some(mut slot) = graph.remove_slot(&specifier) else {
        return Ok(());
    };
    fill_slot(&mut slot, loader)?;
    graph.store_slot(specifier, slot)
}

// Notes at each module of a graph what a loader tells of its copy in a cache. The only refusal is want of memory, after which a
// slot may be gone.
fn fill_all<L: LoaderCore>(
    alloc: Global,
    graph: &mut ModuleGraph,
    loader: &L,
) -> Result<(), AllocError>
    ensures { OnOk result (IsFilled (L.world loader.now) graph.old graph.new) }
{
    let with_copies = with_copies(alloc, graph)?;
    for specifier in with_copies {
        fill_at(graph, specifier, loader)?;
    }
    Ok(())
}

/// Notes at each module of a graph what a loader tells of its copy in a cache, where the loader is to be asked about copies. The only
/// refusal is want of memory, after which a slot may be gone.
pub fn fill_cache_info<L: LoaderCore>(
    alloc: Global,
    graph: &mut ModuleGraph,
    loader: &L,
) -> Result<(), AllocError>
    ensures { OnOk result
        (NotesCopies (L.caches loader.now) (L.world loader.now) graph.old graph.new) }
{
    if !loader.cache_info_enabled() {
        return Ok(());
    }
    fill_all(alloc, graph, loader)
}
