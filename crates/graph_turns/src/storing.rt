// What the answer to a load gives is stored. A slot is stored before its edges enter, so that an edge back to it finds it.
ghost use Rattle.std.specs.Prelude.{◌≡◌, ◌<◌, ◌-◌, ◌^◌, OnOk};
ghost use Rattle.graph_turns.specs.Machine.Entering.{edges_from, enter_edges, gives_way, is_module, is_outside, names_with, placed, placed_at, redirected, redirects_ended, stored, stored_at, sums_by, with_content};
ghost use Rattle.graph_turns.specs.Machine.Redirects.{renamed};

use crate::edges::edges_from;
use crate::later_content::LaterContent;
use crate::outcome::Outcome;
use crate::redirects::{is_settled_at, leads_back, move_to, rename};
use crate::state::State;
use crate::sums::add_sum;
use graph_core::{Load, LoadContext, Module, ModuleGraph, ModuleLoadError, ModuleSlot};
use semver_npm::PackageNv;
use spec_base::{Boxed, ModuleSpecifier, SpecifierSet};
use std::alloc::{AllocError, Global};

// Whether a slot is a module outside of the graph.
fn is_outside(slot: &ModuleSlot) -> bool
    ensures { result ≡ is_outside slot.now }
{
    match slot {
        ModuleSlot::Module(Module::External(_)) => true,
        ModuleSlot::Module(
            Module::Js(_) | Module::Json(_) | Module::Wasm(_) | Module::Npm(_) | Module::Node(_),
        ) => false,
        ModuleSlot::Err(_) | ModuleSlot::Pending { is_asset: _ } => false,
    }
}

// Whether a slot is a module, and no error.
fn is_module(slot: &ModuleSlot) -> bool
    ensures { result ≡ is_module slot.now }
{
    match slot {
        ModuleSlot::Module(_) => true,
        ModuleSlot::Err(_) | ModuleSlot::Pending { is_asset: _ } => false,
    }
}

// Whether a slot gives way to the one at its name: a module outside of the graph replaces no slot but a pending one.
fn gives_way(graph: &ModuleGraph, name: &ModuleSpecifier, slot: &ModuleSlot) -> bool
    ensures { result ≡ gives_way graph.now name.now slot.now }
{
    is_outside(slot) && is_settled_at(graph, name)
}

// Adds the name of a module that a root's answer gave.
fn add_name(
    names: &mut SpecifierSet,
    context: &LoadContext,
    name: &ModuleSpecifier,
    slot: &ModuleSlot,
) -> Result<(), AllocError>
    ensures { OnOk result (names.new ≡ names_with names.old context.now name.now slot.now) }
{
    if context.is_root && is_module(slot) {
        let _ = names.insert(name.clone()?)?;
    }
    Ok(())
}

impl State {
    // Puts a slot at its name; a module outside of the graph replaces no slot but a pending one.
    fn place(&mut self, name: ModuleSpecifier, slot: ModuleSlot) -> Result<(), AllocError>
        ensures { OnOk result
            (self.new ≡ record self.old { graph = placed self.old.graph name slot }) }
    {
        if gives_way(&self.graph, &name, &slot) {
            drop(name);
            drop(slot);
            return Ok(());
        }
        self.graph.store_slot(name, slot)?;
        Ok(())
    }

    // What a slot at the name that an answer has leaves beside it: the redirect to the name, the sum of its source where it counts
    // in no package, and the name where a root's answer gave it.
    fn note_place(
        &mut self,
        alloc: Global,
        load: &Load,
        name: &ModuleSpecifier,
        slot: &ModuleSlot,
    ) -> Result<(), AllocError>
        ensures { OnOk result (self.new
            ≡ record self.old {
              graph = renamed self.old.graph load.now.specifier name.now;
              root_names = names_with
                  self.old.root_names load.now.context name.now slot.now;
              sums = sums_by
                  load.now.context.«package» self.old.sums name.now slot.now;
            }) }
    {
        add_name(&mut self.root_names, &load.context, name, slot)?;
        if load.context.package.is_none() {
            add_sum(alloc, &mut self.sums, name, slot)?;
        }
        rename(&mut self.graph, &load.specifier, name)?;
        Ok(())
    }

    // Puts a slot at the name that an answer has, with the sum of its source where it counts in no package, and keeps the name
    // where a root's answer gave it.
    fn place_at(
        &mut self,
        alloc: Global,
        load: &Load,
        name: ModuleSpecifier,
        slot: ModuleSlot,
    ) -> Result<(), AllocError>
        ensures { OnOk result
            (self.new ≡ placed_at self.old load.now load.now.context.«package» name slot) }
    {
        match self.note_place(alloc, load, &name, &slot) {
            Ok(()) => {
                self.place(name, slot)?;
                Ok(())
            }
            Err(error) => {
                drop(name);
                drop(slot);
                Err(error)
            }
        }
    }

    // Stores a slot at the name that an answer has, and then enters the edges from it.
    fn store_with_edges(
        &mut self,
        alloc: Global,
        load: &Load,
        name: ModuleSpecifier,
        slot: ModuleSlot,
    ) -> Result<(), AllocError>
        ensures { OnOk result
            (self.new
            ≡ enter_edges (placed_at self.old load.now load.now.context.«package» name slot)
            (edges_from self.old.graph.kind self.old.flags.skip_dynamic_deps slot
            load.now.context)) }
    {
        let kind = self.graph.graph_kind();
        let skip = self.flags.skip_dynamic_deps;
        match edges_from(alloc, kind, skip, &slot, &load.context) {
            Ok(edges) => {
                self.place_at(alloc, load, name, slot)?;
                self.enter_edges(alloc, edges.into_vec())?;
                Ok(())
            }
            Err(error) => {
                drop(name);
                drop(slot);
                Err(error)
            }
        }
    }

    // Stores a slot at the name that an answer has, and then enters the edges from it, in the version of a package that it counts
    // in.
    fn store_at(
        &mut self,
        alloc: Global,
        load: Load,
        name: ModuleSpecifier,
        slot: ModuleSlot,
        held: Option<PackageNv>,
    ) -> Result<(), AllocError>
        ensures { OnOk result (self.new ≡ stored_at self.old load held name slot) }
    {
        let mut load = load;
        load.context.package = held;
        let stored = self.store_with_edges(alloc, &load, name, slot);
        drop(load);
        stored
    }

    // Keeps a content that comes later.
    fn keep_content(&mut self, content: Option<Boxed<LaterContent>>) -> Result<(), AllocError>
        ensures { OnOk result (self.new ≡ with_content self.old content) }
    {
        if let Some(content) = content {
            self.contents.push_back(content.into_inner())?;
        }
        Ok(())
    }

    /// A redirect isn't followed.
    pub(crate) fn end_redirects(&mut self, alloc: Global, load: Load) -> Result<(), AllocError>
        ensures { OnOk result (self.new ≡ redirects_ended self.old load) }
    {
        let Load {
            specifier,
            context,
            is_type: _,
        } = load;
        self.refuse_load(alloc, context, specifier, ModuleLoadError::TooManyRedirects)
    }

    // The load goes on at another specifier.
    fn follow_redirect(
        &mut self,
        alloc: Global,
        load: Load,
        name: ModuleSpecifier,
    ) -> Result<(), AllocError>
        requires hops { load.context.hops < 2 ^ 64 - 1 }
        ensures { OnOk result (self.new ≡ redirected self.old load name) }
    {
        match move_to(&mut self.graph, &load.specifier, &name) {
            Ok(()) => {
                let Load {
                    specifier,
                    mut context,
                    is_type: _,
                } = load;
                drop(specifier);
                context.hops += 1;
                let next = Load {
                    specifier: name,
                    context,
                    is_type: false,
                };
                self.enter(alloc, next)?;
                Ok(())
            }
            Err(error) => {
                drop(load);
                drop(name);
                Err(error)
            }
        }
    }

    /// Stores what the answer to a load that was taken gives; a load follows so many redirects at most.
    #[tactic(auto, unfolding(crate::specs::Machine::Entering::stored))]
    pub fn store(
        &mut self,
        alloc: Global,
        most: usize,
        load: Load,
        outcome: Outcome,
    ) -> Result<(), AllocError>
        ensures { OnOk result (self.new ≡ stored most self.old load outcome) }
    {
        match outcome {
            Outcome::At(name, slot, held, content) => match self.keep_content(content) {
                Ok(()) => {
                    self.store_at(alloc, load, name, slot, held)?;
                    Ok(())
                }
                Err(error) => {
                    drop(load);
                    drop(name);
                    drop(slot);
                    drop(held);
                    Err(error)
                }
            },
            Outcome::To(name) => {
                if most <= load.context.hops || leads_back(&self.graph, &load.specifier, &name) {
                    drop(name);
                    self.end_redirects(alloc, load)
                } else {
                    self.follow_redirect(alloc, load, name)
                }
            }
        }
    }
}
