// The resolver of a world: what it answers of types that are named in another module.
use crate::specifiers::url;
use source_io::{JsxDefaults, Resolver, WorldResolver};
use spec_base::{Items, ModuleSpecifier, PositionRange, Range, Refusal, ResolveError};
use std::alloc::Global;
use std::test::Fail;

// A range in a module.
fn range(alloc: Global, module: &str) -> Result<Range, Fail> {
    Ok(Range {
        specifier: url(alloc, module)?,
        range: PositionRange::zeroed(),
        resolution_mode: None,
    })
}

type TypesEntry = (ModuleSpecifier, ModuleSpecifier, Option<Range>);

// Adds the types of a module, named in another one.
fn tell(
    alloc: Global,
    types: &mut Items<TypesEntry>,
    module: &str,
    of_types: &str,
) -> Result<(), Fail> {
    let named = range(alloc, "file:///m/types.json")?;
    types.push((url(alloc, module)?, url(alloc, of_types)?, Some(named)))?;
    Ok(())
}

// A resolver that tells the types of a module twice, and of a second module once.
fn typed(alloc: Global) -> Result<WorldResolver, Fail> {
    let mut types = Items::new(alloc);
    tell(alloc, &mut types, "file:///m/a.js", "file:///m/a.d.ts")?;
    tell(alloc, &mut types, "file:///m/c.js", "file:///m/c.d.ts")?;
    tell(alloc, &mut types, "file:///m/a.js", "file:///m/second.d.ts")?;
    Ok(WorldResolver::new(alloc, Items::new(alloc), types, JsxDefaults::none())?)
}

// Whether what is told of a module's types is this specifier, named in the other module, or `none`.
fn is_told(
    types: &Result<Option<(ModuleSpecifier, Option<Range>)>, Refusal<ResolveError>>,
    wanted: &str,
) -> bool {
    match types {
        Ok(None) => wanted == "none",
        Ok(Some((types, Some(named)))) => {
            types.as_str() == wanted && named.specifier.as_str() == "file:///m/types.json"
        }
        _ => false,
    }
}

fn has_types(
    alloc: Global,
    resolver: &impl Resolver,
    module: &str,
    wanted: &str,
) -> Result<bool, Fail> {
    let module = url(alloc, module)?;
    let types = resolver.resolve_types(alloc, &module);
    let is_told = is_told(&types, wanted);
    drop(types);
    Ok(is_told)
}

fn have_types(alloc: Global, resolver: &impl Resolver) -> Result<bool, Fail> {
    Ok(
        has_types(alloc, resolver, "file:///m/a.js", "file:///m/a.d.ts")?
            && has_types(alloc, resolver, "file:///m/b.js", "none")?
            && has_types(alloc, resolver, "file:///m/c.js", "file:///m/c.d.ts")?,
    )
}

#[test]
fn types_are_as_listed(rt: HostRuntime) -> Result<(), Fail> {
    let resolver = typed(rt.alloc())?;
    let told = have_types(rt.alloc(), &resolver);
    drop(resolver);
    assert!(rt; told?);
    Ok(())
}
