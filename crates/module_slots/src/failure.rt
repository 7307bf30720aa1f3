// The slot of a load that fails.
ghost use Rattle.std.specs.Prelude.{◌≡◌, IfOk};
ghost use Rattle.graph_errors.specs.declared.errors.ModuleErrorKind.TheVariants.{Load as LoadFails};
ghost use Rattle.module_slots.specs.Slots.{failed_slot};

use crate::load::LoadContext;
use crate::slot::ModuleSlot;
use graph_errors::{ModuleErrorKind, ModuleLoadError};
use spec_base::ModuleSpecifier;
use std::alloc::{AllocError, Global};

/// The slot of a load that fails. The only refusal is want of memory.
pub fn failure_slot(
    alloc: Global,
    specifier: &ModuleSpecifier,
    context: &LoadContext,
    err: ModuleLoadError,
) -> Result<ModuleSlot, AllocError>
    ensures { IfOk result
        (λ slot. slot ≡ failed_slot (LoadFails specifier.now context.now.range err)) }
{
    let Ok(specifier) = specifier.clone() else {
        drop(err);
        return Err(AllocError);
    };
    let Ok(maybe_referrer) = context.range.clone() else {
        drop(err);
        return Err(AllocError);
    };
    let kind = ModuleErrorKind::Load {
        specifier,
        maybe_referrer,
        err,
    };
    let error = kind.into_box(alloc)?;
    Ok(ModuleSlot::Err(error))
}
