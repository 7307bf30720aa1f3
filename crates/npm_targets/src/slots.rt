// Slots whose edges are resolved again in place.
ghost use Rattle.std.specs.Prelude.{◌≡◌, ◌++◌, Some, true, false, OnOk};
ghost use Rattle.import_records.specs.Target.{is_told_resolver};
ghost use Rattle.npm_targets.specs.Edges.{all_loads_again, repointing};
ghost use Rattle.npm_targets.specs.Graphs.{IsLeftAs, KeepsOutset, repointed_script, repointed_slot, repointed_wasm, script_loads, slot_loads};
ghost use Rattle.npm_targets.specs.Steps.{changes, has_types_again, is_npm_slot};

use crate::entries::has_again;
use crate::repointing::Repointing;
use crate::types::types_range_again;
use graph_core::{JsModule, Load, Module, ModuleSlot, WasmModule};
use graph_dependencies::TypesDependency;
use source_io::{JsrUrlProvider, Resolver};
use spec_base::ResolutionKind;
use std::alloc::AllocError;

fn has_types_again(kind: ResolutionKind, types: &Option<TypesDependency>) -> bool
    ensures { result ≡ has_types_again kind types.now }
{
    match types {
        None => false,
        Some(types) => types_range_again(kind, types).is_some(),
    }
}

/// Whether a slot is of npm, or has an edge that is resolved again.
pub(crate) fn changes(kind: ResolutionKind, slot: &ModuleSlot) -> bool
    ensures { result ≡ changes kind slot.now }
{
    match slot {
        ModuleSlot::Module(Module::Js(script)) => {
            has_types_again(kind, &script.maybe_types_dependency)
                || has_again(kind, &script.dependencies)
        }
        ModuleSlot::Module(Module::Json(_)) => false,
        ModuleSlot::Module(Module::Wasm(wasm)) => has_again(kind, &wasm.dependencies),
        ModuleSlot::Module(Module::Npm(_)) => true,
        ModuleSlot::Module(Module::Node(_)) => false,
        ModuleSlot::Module(Module::External(_)) => false,
        ModuleSlot::Err(_) => false,
        ModuleSlot::Pending { .. } => false,
    }
}

/// Whether a module of npm stands at a slot.
pub(crate) fn is_npm_slot(slot: &ModuleSlot) -> bool
    ensures { result ≡ is_npm_slot slot.now }
{
    matches!(slot, ModuleSlot::Module(Module::Npm(_)))
}

impl<U: JsrUrlProvider, R: Resolver> Repointing<'_, U, R> {
    fn repoint_script(&self, script: &mut JsModule, loads: &mut Vec<Load>) -> Result<(), AllocError>
        ensures script { is_told_resolver R.is_told self.now.targets.resolver ≡ true
            → OnOk result
            (script.new
            ≡ repointed_script (repointing U.meaning R.meaning self.now) script.old) }
        ensures loads { is_told_resolver R.is_told self.now.targets.resolver ≡ true
            → OnOk result
            (loads.new.items
            ≡ loads.old.items ++ script_loads (repointing U.meaning R.meaning self.now)
            script.old) }
        ensures rest { OnOk result
            (script.new
            ≡ record script.old {
              dependencies = script.new.dependencies;
              maybe_types_dependency = script.new.maybe_types_dependency;
            }) }
        ensures outset { OnOk result (KeepsOutset loads.old.items loads.new.items) }
    {
        self.repoint_types(&mut script.maybe_types_dependency, loads)?;
        self.repoint_dependencies(&mut script.dependencies, loads)?;
        Ok(())
    }

    fn repoint_wasm(&self, wasm: &mut WasmModule, loads: &mut Vec<Load>) -> Result<(), AllocError>
        ensures wasm { is_told_resolver R.is_told self.now.targets.resolver ≡ true
            → OnOk result
            (wasm.new ≡ repointed_wasm (repointing U.meaning R.meaning self.now) wasm.old) }
        ensures loads { is_told_resolver R.is_told self.now.targets.resolver ≡ true
            → OnOk result
            (loads.new.items
            ≡ loads.old.items ++ all_loads_again (repointing U.meaning R.meaning self.now)
            wasm.old.dependencies) }
        ensures rest { OnOk result
            (wasm.new ≡ record wasm.old { dependencies = wasm.new.dependencies }) }
        ensures outset { OnOk result (KeepsOutset loads.old.items loads.new.items) }
    {
        self.repoint_dependencies(&mut wasm.dependencies, loads)?;
        Ok(())
    }

    /// Resolves the edges of a slot again that lead to npm, and adds the loads of where they lead then. A module of npm stays
    /// here. The only refusal is want of memory.
    pub(crate) fn repoint_slot(
        &self,
        slot: &mut ModuleSlot,
        loads: &mut Vec<Load>,
    ) -> Result<(), AllocError>
        ensures slot { is_told_resolver R.is_told self.now.targets.resolver ≡ true
            → is_npm_slot slot.old ≡ false
            → OnOk result
            (repointed_slot (repointing U.meaning R.meaning self.now) slot.old ≡ Some slot.new) }
        ensures loads { is_told_resolver R.is_told self.now.targets.resolver ≡ true
            → OnOk result
            (loads.new.items
            ≡ loads.old.items ++ slot_loads (repointing U.meaning R.meaning self.now)
            slot.old) }
        ensures left { is_npm_slot slot.old ≡ false
            → OnOk result (IsLeftAs (Some slot.old) (Some slot.new)) }
        ensures outset { OnOk result (KeepsOutset loads.old.items loads.new.items) }
    {
        match slot {
            ModuleSlot::Module(Module::Js(script)) => self.repoint_script(script, loads),
            ModuleSlot::Module(Module::Json(_)) => Ok(()),
            ModuleSlot::Module(Module::Wasm(wasm)) => self.repoint_wasm(wasm, loads),
            ModuleSlot::Module(Module::Npm(_)) => Ok(()),
            ModuleSlot::Module(Module::Node(_)) => Ok(()),
            ModuleSlot::Module(Module::External(_)) => Ok(()),
            ModuleSlot::Err(_) => Ok(()),
            ModuleSlot::Pending { .. } => Ok(()),
        }
    }
}
