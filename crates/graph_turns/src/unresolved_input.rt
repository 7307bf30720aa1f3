// What a build begins with, before its imports are resolved.
ghost use Rattle.std.specs.Prelude.{◌≡◌, true, false, IfOk};
ghost use Rattle.import_records.specs.Target.{told_resolving};
ghost use Rattle.graph_turns.specs.Machine.Starting.{nothing_left};
ghost use Rattle.graph_turns.specs.Machine.Starting.{IsResolved};

use crate::imports::resolve_imports;
use crate::starting::ResolvedStart;
use graph_core::ReferrerImports;
use source_io::{JsrUrlProvider, Resolver};
use spec_base::{Items, ModuleSpecifier};
use std::alloc::{AllocError, Global};

/// Roots and configured imports that haven't entered a graph yet.
#[derive(Drop)]
pub struct LeftOver {
    pub roots: Items<ModuleSpecifier>,
    pub imports: Items<ReferrerImports>,
}

impl LeftOver {
    /// Whether no roots or imports are left.
    pub fn is_empty(&self) -> bool
        ensures empty { result ≡ true → self.now ≡ nothing_left }
        ensures not_empty { result ≡ false → self.now ≡ nothing_left → ⊥ }
    {
        self.roots.len() == 0 && self.imports.len() == 0
    }

    /// Resolves the imports. The only refusal is want of memory.
    pub fn resolve<U: JsrUrlProvider, R: Resolver>(
        self,
        alloc: Global,
        jsr_url_provider: &U,
        maybe_resolver: Option<&R>,
    ) -> Result<ResolvedStart, AllocError>
        ensures { IfOk result
            (λ start. IsResolved
            (told_resolving (U.meaning jsr_url_provider.now).nv_of R.is_told R.meaning
            maybe_resolver.entry) self start) }
    {
        let imports = resolve_imports(
            alloc,
            self.imports.as_slice(),
            jsr_url_provider,
            maybe_resolver,
        )?;
        let LeftOver { roots, imports: _ } = self;
        Ok(ResolvedStart { roots, imports })
    }
}
