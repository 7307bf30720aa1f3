// What tells the imports of modules, and what its answers mean.
ghost use Rattle.std.specs.Prelude.{◌≡◌, Option, IfSome};
ghost use Rattle.spec_base.specs.Refusal.{Answers};
ghost use Rattle.module_info.specs.Infos.{Infos};

use crate::types::ModuleInfo;
use media_types::MediaType;
use spec_base::{Fault, ModuleSpecifier, Refusal};
use std::alloc::Global;

/// What tells the imports of a module from its text.
pub trait ModuleAnalyzer {
    /// What it answers, where it tells that: the info or the fault of a specifier, a text and its media type.
    ghost infos: { Self → Option Infos };

    /// The info of the module at a specifier, with its text and media type, or the fault of the
    /// analysis: what the analyzer tells of these three, where it tells anything. The only other refusal
    /// is want of memory.
    fn analyze(
        &self,
        alloc: Global,
        specifier: &ModuleSpecifier,
        source: &str,
        media_type: MediaType,
    ) -> Result<ModuleInfo, Refusal<Fault>>
        ensures { IfSome (infos self.now)
            (λ infos. Answers result (infos specifier.now source.now media_type)) };
}
