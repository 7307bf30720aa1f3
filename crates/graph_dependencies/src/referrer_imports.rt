// The imports that a configuration names, before they are resolved.
ghost use Rattle.std.specs.Prelude.{◌≡◌, IfOk};

use spec_base::{Items, ModuleSpecifier, Text};
use std::alloc::AllocError;

/// The imports that a referrer, such as a configuration file, configures, by their texts.
#[derive(Debug, PartialEq, Eq, Drop)]
pub struct ReferrerImports {
    pub referrer: ModuleSpecifier,
    pub imports: Items<Text>,
}

impl ReferrerImports {
    /// A copy. The only refusal is want of memory.
    pub fn try_clone(&self) -> Result<ReferrerImports, AllocError>
        ensures { IfOk result (λ copy. copy ≡ self.now) }
    {
        let referrer = self.referrer.clone()?;
        let imports = self.imports.try_clone()?;
        Ok(ReferrerImports { referrer, imports })
    }
}

impl Clone for ReferrerImports {
    ghost is_clone = { λ source copy. copy ≡ source };

    fn clone(&self) -> Result<ReferrerImports, AllocError> {
        self.try_clone()
    }
}
