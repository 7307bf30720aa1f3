// The slots that change, taken out of a graph and stored in it again, one after another.
ghost use Rattle.std.specs.Prelude.{◌≡◌, ◌≢◌, ◌++◌, [], ℕ, List, map, flat_map, true, IfOk, OnOk, option_and_then};
ghost use Rattle.std.specs.FinMap as finite;
ghost use Rattle.spec_base.specs.Options.{by_option};
ghost use Rattle.spec_base.specs.Specifier.{specifier_text};
ghost use Rattle.import_records.specs.Target.{is_told_resolver};
ghost use Rattle.graph_core.specs.Graph.{slot_at};
ghost use Rattle.npm_targets.specs.Edges.{repointing};
ghost use Rattle.npm_targets.specs.Graphs.{IsLeftAs, KeepsOutset, repointed_slot, repointed_slots, slot_loads};
ghost use Rattle.npm_targets.specs.Steps.{changing};

use crate::repointing::Repointing;
use crate::slots::{changes, is_npm_slot};
use graph_core::{Load, ModuleGraph};
use source_io::{JsrUrlProvider, Resolver};
use spec_base::ModuleSpecifier;
use std::alloc::AllocError;

impl<U: JsrUrlProvider, R: Resolver> Repointing<'_, U, R> {
    // Copies of the specifiers of the slots that change, in the order of their texts.
    fn changing(&self, graph: &ModuleGraph) -> Result<Vec<ModuleSpecifier>, AllocError>
        ensures { IfOk result
            (λ found. map specifier_text found.items
            ≡ changing self.now.resolution_kind (finite.entries graph.now.slots)) }
    {
        let mut found = Vec::new(self.targets.alloc);
        for (specifier, slot) in graph.slots() {
            if changes(self.resolution_kind, slot) {
                let specifier = specifier.clone()?;
                found.push(specifier)?;
            }
        }
        Ok(found)
    }

    // The slot at a specifier: a module of npm goes, and of any other the edges are resolved again.
    fn step(
        &self,
        graph: &mut ModuleGraph,
        specifier: ModuleSpecifier,
        loads: &mut Vec<Load>,
    ) -> Result<(), AllocError>
        ensures rest { OnOk result (graph.new ≡ record graph.old { slots = graph.new.slots }) }
        ensures others { OnOk result
            ((t : List ℕ) → t ≢ specifier_text specifier
            → finite.get graph.new.slots t ≡ finite.get graph.old.slots t) }
        ensures slot { is_told_resolver R.is_told self.now.targets.resolver ≡ true
            → OnOk result
            (slot_at graph.new specifier
            ≡ option_and_then (repointed_slot (repointing U.meaning R.meaning self.now))
            (slot_at graph.old specifier)) }
        ensures loads { is_told_resolver R.is_told self.now.targets.resolver ≡ true
            → OnOk result
            (loads.new.items
            ≡ loads.old.items ++ by_option (slot_at graph.old specifier) []
            (slot_loads (repointing U.meaning R.meaning self.now))) }
        ensures left { OnOk result
            (IsLeftAs (slot_at graph.old specifier) (slot_at graph.new specifier)) }
        ensures outset { OnOk result (KeepsOutset loads.old.items loads.new.items) }
    {
        let Some(mut slot) = graph.remove_slot(&specifier) else {
            return Ok(());
        };
        if is_npm_slot(&slot) {
            return Ok(());
        }
        self.repoint_slot(&mut slot, loads)?;
        graph.store_slot(specifier, slot)
    }

    /// Takes the modules of npm out of a graph, resolves the edges of the other modules again that lead to npm, and adds the loads
    /// of where they lead then, in the order of the modules' texts. The only refusal is want of memory, after which a slot
    /// may be gone.
    pub(crate) fn repoint_slots(
        &self,
        graph: &mut ModuleGraph,
        loads: &mut Vec<Load>,
    ) -> Result<(), AllocError>
        ensures slots { is_told_resolver R.is_told self.now.targets.resolver ≡ true
            → OnOk result
            (graph.new.slots
            ≡ repointed_slots (repointing U.meaning R.meaning self.now) graph.old.slots) }
        ensures loads { is_told_resolver R.is_told self.now.targets.resolver ≡ true
            → OnOk result
            (loads.new.items
            ≡ loads.old.items ++ flat_map
            (λ e. slot_loads (repointing U.meaning R.meaning self.now) e.1)
            (finite.entries graph.old.slots)) }
        ensures rest { OnOk result (graph.new ≡ record graph.old { slots = graph.new.slots }) }
        ensures left { OnOk result
            ((t : List ℕ) → IsLeftAs (finite.get graph.old.slots t)
            (finite.get graph.new.slots t)) }
        ensures outset { OnOk result (KeepsOutset loads.old.items loads.new.items) }
    {
        let changing = self.changing(graph)?;
        for specifier in changing {
            self.step(graph, specifier, loads)?;
        }
        Ok(())
    }
}
