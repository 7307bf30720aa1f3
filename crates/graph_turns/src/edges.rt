// The edges of a module that was stored: they enter in order, but dynamic ones wait until the dynamic phase begins.
ghost use Rattle.std.specs.Prelude.{◌≡◌, OnOk, IfOk, option_copied};
ghost use Rattle.std.specs.Map.{lookup};
ghost use Rattle.indexmap.specs.IndexMap.{insert_entry};
ghost use Rattle.spec_base.specs.Specifier.{same_specifier};
ghost use Rattle.graph_turns.specs.Machine.Entering.{edges_from, enter_edge, enter_edges, goes_before, queued, stays, with_mark};

use crate::state::State;
use graph_core::{GraphKind, Load, LoadContext, ModuleSlot, loads_of};
use spec_base::{Entries, Items, ModuleSpecifier, SpecifierSet};
use std::alloc::{AllocError, Global};

/// The followed edges of a slot. The only refusal is want of memory.
pub(crate) fn edges_from(
    alloc: Global,
    kind: GraphKind,
    skip_dynamic_deps: bool,
    slot: &ModuleSlot,
    context: &LoadContext,
) -> Result<Items<Load>, AllocError>
    ensures { IfOk result
        (λ loads. loads ≡ edges_from kind skip_dynamic_deps slot.now context.now) }
{
    match slot {
        ModuleSlot::Module(module) => loads_of(alloc, module, kind, skip_dynamic_deps, context),
        ModuleSlot::Err(_) | ModuleSlot::Pending { is_asset: _ } => Ok(Items::new(alloc)),
    }
}

/// A load, which counts as one of a root where its specifier is a name that a root's answer gave.
pub(crate) fn with_mark(names: &SpecifierSet, load: Load) -> Load
    ensures { result ≡ with_mark names.now load }
{
    let Load {
        specifier,
        mut context,
        is_type,
    } = load;
    context.is_root = context.is_root || names.contains(&specifier);
    Load {
        specifier,
        context,
        is_type,
    }
}

// Whether a dynamic import takes the place of another one of its target: one that reads it that of an asset's, and between
// equals one of a type.
fn goes_before(load: &Load, old: &Load) -> bool
    ensures { result ≡ goes_before load.now old.now }
{
    if old.context.asset {
        !load.context.asset || load.is_type
    } else {
        !load.context.asset && load.is_type
    }
}

// Whether a dynamic import stands that another one of its target doesn't replace.
fn stays(old: Option<&Load>, load: &Load) -> bool
    ensures { result ≡ stays (option_copied old.entry) load.now }
{
    match old {
        None => false,
        Some(old) => !goes_before(load, old),
    }
}

// Whether a dynamic import of a load's target stands that it doesn't replace.
fn stays_in(waiting: &Entries<ModuleSpecifier, Load>, load: &Load) -> bool
    ensures { result ≡ stays (lookup (same_specifier load.now.specifier) waiting.now) load.now }
{
    stays(waiting.as_map().get(&load.specifier), load)
}

// Puts a dynamic import at its target.
fn put_import(waiting: &mut Entries<ModuleSpecifier, Load>, load: Load) -> Result<(), AllocError>
    ensures { OnOk result
        (waiting.new ≡ insert_entry same_specifier waiting.old load.specifier load) }
{
    let Ok(target) = load.specifier.clone() else {
        drop(load);
        return Err(AllocError);
    };
    let before = waiting.insert(target, load)?;
    drop(before);
    Ok(())
}

// A dynamic import waits, where none of its target stands that it doesn't replace.
fn queue_in(waiting: &mut Entries<ModuleSpecifier, Load>, load: Load) -> Result<(), AllocError>
    ensures { OnOk result (waiting.new ≡ queued waiting.old load) }
{
    if stays_in(waiting, &load) {
        drop(load);
        return Ok(());
    }
    put_import(waiting, load)
}

impl State {
    // Keeps a dynamic import until the dynamic phase begins.
    fn queue(&mut self, load: Load) -> Result<(), AllocError>
        ensures { OnOk result
            (self.new ≡ record self.old { dynamic = queued self.old.dynamic load }) }
    {
        queue_in(&mut self.dynamic, load)?;
        Ok(())
    }

    #[tactic(auto, unfolding(crate::specs::Machine::Entering::enter_edge))]
    fn enter_edge(&mut self, alloc: Global, load: Load) -> Result<(), AllocError>
        ensures { OnOk result (self.new ≡ enter_edge self.old load) }
    {
        if load.context.in_dynamic_phase && !self.is_dynamic {
            self.queue(load)
        } else {
            let load = with_mark(&self.root_names, load);
            self.enter(alloc, load)
        }
    }

    /// Edges enter in order, and dynamic ones wait where the dynamic phase hasn't begun.
    #[tactic(auto, unfolding(crate::specs::Machine::Entering::enter_edges))]
    pub(crate) fn enter_edges(&mut self, alloc: Global, loads: Vec<Load>) -> Result<(), AllocError>
        ensures { OnOk result (self.new ≡ enter_edges self.old loads.items) }
    {
        for load in loads {
            self.enter_edge(alloc, load)?;
        }
        Ok(())
    }
}
