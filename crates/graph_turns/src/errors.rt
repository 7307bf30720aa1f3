// The slots of loads that fail: an error stands in the place of the module, with the import that the load comes from.
ghost use Rattle.std.specs.Prelude.{◌≡◌, IfOk};
ghost use Rattle.module_slots.specs.Slots.{failed_slot};
ghost use Rattle.graph_errors.specs.declared.errors.ModuleErrorKind.TheVariants.{Missing};
ghost use Rattle.graph_turns.specs.Promise.Slots.{jsr_slot};

use graph_core::{LoadContext, ModuleErrorKind, ModuleLoadError, ModuleSlot};
use graph_errors::JsrLoadError;
use module_slots::failure_slot;
use spec_base::ModuleSpecifier;
use std::alloc::{AllocError, Global};

/// The slot of a load that a registry of packages gives no module. The only refusal is want of memory.
pub(crate) fn error_slot(
    alloc: Global,
    specifier: &ModuleSpecifier,
    context: &LoadContext,
    error: JsrLoadError,
) -> Result<ModuleSlot, AllocError>
    ensures { IfOk result (λ slot. slot ≡ jsr_slot specifier.now context.now error) }
{
    failure_slot(alloc, specifier, context, ModuleLoadError::Jsr(error))
}

/// The slot of a load that finds nothing. The only refusal is want of memory.
pub(crate) fn missing_slot(
    alloc: Global,
    specifier: &ModuleSpecifier,
    context: &LoadContext,
) -> Result<ModuleSlot, AllocError>
    ensures { IfOk result (λ slot. slot ≡ failed_slot (Missing specifier.now context.now.range)) }
{
    let kind = ModuleErrorKind::Missing {
        specifier: specifier.clone()?,
        maybe_referrer: context.range.clone()?,
    };
    let error = kind.into_box(alloc)?;
    Ok(ModuleSlot::Err(error))
}
