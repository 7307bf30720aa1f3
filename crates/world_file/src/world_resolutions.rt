// What a world file says of where texts lead, of the types of modules and of JSX.
ghost use Rattle.std.specs.Prelude.{◌≡◌, IfOk, codes};
ghost use Rattle.serde_json.specs.View as serde;
ghost use Rattle.json_documents.specs.Documents as documents;
ghost use Rattle.spec_base.specs.Refusal.{Reads};
ghost use Rattle.json_forms.specs.Form.{choice, items_of};
ghost use Rattle.json_forms.specs.Member.{required, with_default, or_empty};
ghost use Rattle.source_io.specs.Resolvers.{no_jsx};
ghost use Rattle.world_file.specs.WorldResolutions.{resolution_kinds, resolution_result, world_resolution, types_target, types_listed, jsx_defaults, resolver_parts};

use crate::world_infos::read_fault;
use json_documents::{Json, JsonItems};
use json_forms::{Form, Misfit, choose, has_names, keyed_or_empty, optional, required};
use source_io::{JsxDefaults, WorldResolution};
use spec_base::{Fault, Items, ModuleSpecifier, Range, Refusal, ResolutionKind};
use std::alloc::{AllocError, Global};

/// What a resolver answers by a world file, as `WorldResolver` takes it.
#[derive(Drop)]
pub struct ResolverParts {
    pub resolutions: Items<WorldResolution>,
    pub types: Items<(ModuleSpecifier, ModuleSpecifier, Option<Range>)>,
    pub jsx: JsxDefaults,
}

/// The module of a module's types.
#[derive(Drop)]
pub struct TypesTarget {
    pub to: ModuleSpecifier,
}

// What a text is resolved for.
fn read_resolution_kind(value: &Json<'_, '_>) -> Result<ResolutionKind, Refusal<Misfit>>
    ensures { Reads result (required (choice resolution_kinds) (codes "kind") (documents.view value.now)) }
{
    match value.get("kind") {
        Some(kind) => choose(
            &kind,
            &[
                ("code", ResolutionKind::Execution),
                ("types", ResolutionKind::Types),
            ],
        ),
        None => Err(Refusal::Is(Misfit)),
    }
}

// Where a text leads: exactly one of the members `to` and `error` stands.
fn read_result(
    alloc: Global,
    value: &Json<'_, '_>,
) -> Result<Result<ModuleSpecifier, Fault>, Refusal<Misfit>>
    ensures { Reads result (resolution_result (documents.view value.now)) }
{
    match (value.get("to"), value.get("error")) {
        (Some(to), None) => Ok(Ok(ModuleSpecifier::read(alloc, &to)?)),
        (None, Some(error)) => Ok(Err(read_fault(alloc, &error)?)),
        _ => Err(Refusal::Is(Misfit)),
    }
}

#[tactic(auto, unfolding(crate::specs::WorldResolutions::world_resolution))]
fn read_resolution(alloc: Global, value: &Json<'_, '_>) -> Result<WorldResolution, Refusal<Misfit>>
    ensures { Reads result (world_resolution (documents.view value.now)) }
{
    if !has_names(
        value,
        &["referrer", "text", "kind", "attribute", "to", "error"],
    ) {
        return Err(Refusal::Is(Misfit));
    }
    let referrer = required(alloc, value, "referrer")?;
    let text = required(alloc, value, "text")?;
    let kind = read_resolution_kind(value)?;
    let attribute = optional(alloc, value, "attribute")?;
    let result = read_result(alloc, value)?;
    Ok(WorldResolution {
        referrer,
        text,
        kind,
        attribute,
        result,
    })
}

fn read_each(
    alloc: Global,
    items: JsonItems<'_, '_>,
) -> Result<Items<WorldResolution>, Refusal<Misfit>>
    ensures { Reads result (items_of world_resolution (serde.items_of (documents.items_left items.entry))) }
{
    let mut resolutions = Items::new(alloc);
    for item in items {
        resolutions.push(read_resolution(alloc, &item)?)?;
    }
    Ok(resolutions)
}

fn read_resolutions(
    alloc: Global,
    value: &Json<'_, '_>,
) -> Result<Items<WorldResolution>, Refusal<Misfit>>
    ensures { Reads result (or_empty world_resolution (codes "resolutions") (documents.view value.now)) }
{
    let Some(resolutions) = value.get("resolutions") else {
        return Ok(Items::new(alloc));
    };
    match resolutions.as_array() {
        Some(items) => read_each(alloc, items),
        None => Err(Refusal::Is(Misfit)),
    }
}

impl Form for TypesTarget {
    ghost form = { types_target };

    fn read(alloc: Global, value: &Json<'_, '_>) -> Result<TypesTarget, Refusal<Misfit>> {
        if !has_names(value, &["to"]) {
            return Err(Refusal::Is(Misfit));
        }
        let to = required(alloc, value, "to")?;
        Ok(TypesTarget { to })
    }
}

// The types of modules as a resolver takes them; no range is told for them.
fn types_listed(
    alloc: Global,
    targets: Items<(ModuleSpecifier, TypesTarget)>,
) -> Result<Items<(ModuleSpecifier, ModuleSpecifier, Option<Range>)>, AllocError>
    ensures { IfOk result (λ types. types ≡ types_listed targets) }
{
    let mut types = Items::new(alloc);
    for (specifier, target) in targets.into_vec() {
        types.push((specifier, target.to, None))?;
    }
    Ok(types)
}

fn read_jsx_defaults(alloc: Global, value: &Json<'_, '_>) -> Result<JsxDefaults, Refusal<Misfit>>
    ensures { Reads result (jsx_defaults (documents.view value.now)) }
{
    if !has_names(value, &["source", "types", "module"]) {
        return Err(Refusal::Is(Misfit));
    }
    let source = optional(alloc, value, "source")?;
    let types = optional(alloc, value, "types")?;
    let name = optional(alloc, value, "module")?;
    Ok(JsxDefaults {
        source,
        types,
        module: name,
    })
}

fn read_jsx(alloc: Global, value: &Json<'_, '_>) -> Result<JsxDefaults, Refusal<Misfit>>
    ensures { Reads result (with_default no_jsx jsx_defaults (codes "jsx") (documents.view value.now)) }
{
    match value.get("jsx") {
        Some(jsx) => read_jsx_defaults(alloc, &jsx),
        None => Ok(JsxDefaults::none()),
    }
}

/// What a resolver answers by a world file.
pub fn read_resolver_parts(
    alloc: Global,
    value: &Json<'_, '_>,
) -> Result<ResolverParts, Refusal<Misfit>>
    ensures { Reads result (resolver_parts (documents.view value.now)) }
{
    let resolutions = read_resolutions(alloc, value)?;
    let targets = keyed_or_empty(alloc, value, "types")?;
    let jsx = read_jsx(alloc, value)?;
    let types = types_listed(alloc, targets)?;
    Ok(ResolverParts {
        resolutions,
        types,
        jsx,
    })
}
