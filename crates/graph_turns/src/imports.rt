// The imports that are configured beside those that modules have, as a build resolves them.
ghost use Rattle.std.specs.Prelude.{◌≡◌, map, Some, IfOk};
ghost use Rattle.import_records.specs.Target.{Resolving, told_resolving};
ghost use Rattle.graph_turns.specs.Promise.Input.{resolved_import};

use graph_core::{GraphImport, ReferrerImports};
use import_records::graph_import;
use source_io::{JsrUrlProvider, Resolver};
use spec_base::{Items, ModuleSpecifier};
use std::alloc::{AllocError, Global};

// The imports of a referrer, resolved.
fn resolve_import<U: JsrUrlProvider, R: Resolver>(
    alloc: Global,
    given: &ReferrerImports,
    jsr_url_provider: &U,
    maybe_resolver: Option<&R>,
) -> Result<(ModuleSpecifier, GraphImport), AllocError>
    ensures referrer { IfOk result (λ import. import.0 ≡ given.now.referrer) }
    ensures told { (m : Resolving)
        → told_resolving (U.meaning jsr_url_provider.now).nv_of R.is_told R.meaning
        maybe_resolver.entry
        ≡ Some m
        → IfOk result (λ import. import ≡ resolved_import m given.now) }
{
    let referrer = given.referrer.clone()?;
    let import = graph_import(
        alloc,
        &referrer,
        given.imports.as_slice(),
        jsr_url_provider,
        maybe_resolver,
    )?;
    Ok((referrer, import))
}

/// Configured imports, resolved, in order. The only refusal is want of memory.
pub(crate) fn resolve_imports<U: JsrUrlProvider, R: Resolver>(
    alloc: Global,
    imports: &[ReferrerImports],
    jsr_url_provider: &U,
    maybe_resolver: Option<&R>,
) -> Result<Items<(ModuleSpecifier, GraphImport)>, AllocError>
    ensures referrers { IfOk result
        (λ resolved. map (λ i. i.0) resolved ≡ map (λ i. i.referrer) imports.now) }
    ensures told { (m : Resolving)
        → told_resolving (U.meaning jsr_url_provider.now).nv_of R.is_told R.meaning
        maybe_resolver.entry
        ≡ Some m
        → IfOk result (λ resolved. resolved ≡ map (resolved_import m) imports.now) }
{
    let mut resolved = Items::new(alloc);
    for given in imports {
        resolved.push(resolve_import(alloc, given, jsr_url_provider, maybe_resolver)?)?;
    }
    Ok(resolved)
}
