// What waits enters: the deferred loads, and the dynamic imports.
ghost use Rattle.std.specs.Prelude.{◌≡◌, OnOk, IfOk};
ghost use Rattle.graph_turns.specs.Machine.Turns.{deferred_entered, dynamic_entered, waited_imports, waited_loads};

use crate::edges::with_mark;
use crate::state::State;
use graph_core::{Load, LoadContext};
use spec_base::{Entries, ModuleSpecifier};
use std::alloc::{AllocError, Global};

// Loads that waited, in order.
fn waited_loads(
    alloc: Global,
    waits: &Entries<ModuleSpecifier, LoadContext>,
) -> Result<Vec<Load>, AllocError>
    ensures { IfOk result (λ loads. loads.items ≡ waited_loads waits.now) }
{
    let mut loads = Vec::new(alloc);
    for (specifier, context) in waits.as_map().iter() {
        let specifier = specifier.clone()?;
        let context = context.try_clone()?;
        loads.push(Load {
            specifier,
            context,
            is_type: false,
        })?;
    }
    Ok(loads)
}

impl State {
    // The loads of the dynamic imports that waited, those of names that roots' answers gave as roots.
    fn dynamic_loads(&self, alloc: Global) -> Result<Vec<Load>, AllocError>
        ensures { IfOk result
            (λ loads. loads.items ≡ waited_imports self.now.root_names self.now.dynamic) }
    {
        let mut loads = Vec::new(alloc);
        for (_target, load) in self.dynamic.as_map().iter() {
            loads.push(with_mark(&self.root_names, load.try_clone()?))?;
        }
        Ok(loads)
    }

    /// Deferred loads enter.
    #[tactic(auto, unfolding(crate::specs::Machine::Turns::deferred_entered))]
    pub(crate) fn enter_deferred(&mut self, alloc: Global) -> Result<(), AllocError>
        ensures { OnOk result (self.new ≡ deferred_entered self.old) }
    {
        let loads = waited_loads(alloc, &self.deferred)?;
        self.deferred = Entries::new(alloc);
        self.enter_all(alloc, loads)?;
        Ok(())
    }

    /// The dynamic phase begins, and the dynamic imports that waited enter.
    #[tactic(auto, unfolding(crate::specs::Machine::Turns::dynamic_entered))]
    pub(crate) fn enter_dynamic(&mut self, alloc: Global) -> Result<(), AllocError>
        ensures { OnOk result (self.new ≡ dynamic_entered self.old) }
    {
        let loads = self.dynamic_loads(alloc)?;
        self.dynamic = Entries::new(alloc);
        self.is_dynamic = true;
        self.enter_all(alloc, loads)?;
        Ok(())
    }
}
