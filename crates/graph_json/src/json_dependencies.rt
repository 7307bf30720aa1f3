// Resolutions and dependencies as JSON.
ghost use Rattle.std.specs.Prelude.{◌≡◌, IfOk, codes, Some, option_map};
ghost use Rattle.std.specs.List.{list_all};
ghost use Rattle.serde_json.specs.View.{view};
ghost use Rattle.json_forms.specs.Rows.{object_of, list_json, if_any, if_true};
ghost use Rattle.graph_dependencies.specs.Kinds.{is_source_phase};
ghost use Rattle.graph_json.specs.GraphJson.{position_object, span_json, mode_json, resolution_rows, if_resolved, resolution_json, is_source, phase_json, attribute_json, dependency_json, types_dependency_json};

use graph_core::{Dependency, Import, Resolution, TypesDependency};
use json_forms::put_optional;
use serde_json::{Map, Value, put};
use spec_base::{Position, PositionRange, Range, ResolutionMode, Text, TextMap};
use std::alloc::{AllocError, Global};

fn position_json(alloc: Global, position: &Position) -> Result<Value, AllocError>
    ensures { IfOk result (λ v. view v ≡ position_object position.now) }
{
    let mut members = Map::new(alloc);
    put(
        &mut members,
        alloc,
        "character",
        Value::from(position.character as u64),
    )?;
    put(
        &mut members,
        alloc,
        "line",
        Value::from(position.line as u64),
    )?;
    Ok(Value::Object(members))
}

fn span_json(alloc: Global, range: &PositionRange) -> Result<Value, AllocError>
    ensures { IfOk result (λ v. view v ≡ span_json range.now) }
{
    let mut members = Map::new(alloc);
    let end = position_json(alloc, &range.end)?;
    put(&mut members, alloc, "end", end)?;
    let start = position_json(alloc, &range.start)?;
    put(&mut members, alloc, "start", start)?;
    Ok(Value::Object(members))
}

fn mode_json(alloc: Global, mode: Option<ResolutionMode>) -> Result<Option<Value>, AllocError>
    ensures { IfOk result (λ v. option_map view v ≡ option_map mode_json mode) }
{
    match mode {
        None => Ok(None),
        Some(ResolutionMode::Import) => Ok(Some(Value::try_from_str(alloc, "import")?)),
        Some(ResolutionMode::Require) => Ok(Some(Value::try_from_str(alloc, "require")?)),
    }
}

// What a resolution is under a name, with the range of its text.
fn ranged_json(alloc: Global, name: &str, value: Value, range: &Range) -> Result<Value, AllocError>
    ensures { IfOk result
        (λ v. view v ≡ object_of (resolution_rows name.now (view value) range.now)) }
{
    let mut members = Map::new(alloc);
    put(&mut members, alloc, name, value)?;
    let mode = mode_json(alloc, range.resolution_mode)?;
    put_optional(&mut members, alloc, "resolutionMode", mode)?;
    let span = span_json(alloc, &range.range)?;
    put(&mut members, alloc, "span", span)?;
    Ok(Value::Object(members))
}

// A resolution, where something was resolved.
fn resolved_json(alloc: Global, resolution: &Resolution) -> Result<Option<Value>, AllocError>
    ensures { IfOk result (λ v. option_map view v ≡ if_resolved resolution.now) }
{
    match resolution {
        Resolution::None => Ok(None),
        Resolution::Ok(resolved) => {
            let resolved = resolved.get();
            let target = Value::try_from_str(alloc, resolved.specifier.as_str())?;
            let value = ranged_json(alloc, "specifier", target, &resolved.range)?;
            Ok(Some(value))
        }
        Resolution::Err(error) => {
            let error = error.get();
            let text = Value::String(format!(in alloc; "{error}")?);
            let value = ranged_json(alloc, "error", text, error.range())?;
            Ok(Some(value))
        }
    }
}

// A resolution; null where nothing was resolved.
fn resolution_json(alloc: Global, resolution: &Resolution) -> Result<Value, AllocError>
    ensures { IfOk result (λ v. view v ≡ resolution_json resolution.now) }
{
    match resolved_json(alloc, resolution)? {
        Some(value) => Ok(value),
        None => Ok(Value::Null),
    }
}

// The known attribute `type`, where there is one.
fn attribute_json(alloc: Global, attribute: &Option<Text>) -> Result<Option<Value>, AllocError>
    ensures { IfOk result (λ v. option_map view v ≡ attribute_json attribute.now) }
{
    match attribute {
        Some(text) => Ok(Some(Value::try_from_str(alloc, text.as_str())?)),
        None => Ok(None),
    }
}

// Whether all imports are in the source phase.
fn all_source(imports: &[Import]) -> bool
    ensures { result ≡ list_all (λ i. is_source_phase i.kind) imports.now }
{
    imports.iter().all(|import| import.kind.is_source_phase())
}

// Whether there are imports, and all of them are in the source phase.
pub(crate) fn is_source(imports: &[Import]) -> bool
    ensures { result ≡ is_source imports.now }
{
    imports.len() > 0 && all_source(imports)
}

// The phase of imports, where it isn't that of a run.
fn phase_json(alloc: Global, imports: &[Import]) -> Result<Option<Value>, AllocError>
    ensures { IfOk result (λ v. option_map view v ≡ phase_json imports.now) }
{
    if is_source(imports) {
        Ok(Some(Value::try_from_str(alloc, "source")?))
    } else {
        Ok(None)
    }
}

fn flag_json(flag: bool) -> Option<Value>
    ensures { option_map view result ≡ if_true flag }
{
    if flag { Some(Value::Bool(true)) } else { None }
}

fn dependency_json(alloc: Global, text: &str, dependency: &Dependency) -> Result<Value, AllocError>
    ensures { IfOk result (λ v. view v ≡ dependency_json (text.now, dependency.now)) }
{
    let mut members = Map::new(alloc);
    let attribute = attribute_json(alloc, &dependency.maybe_attribute_type)?;
    put_optional(&mut members, alloc, "assertionType", attribute)?;
    let code = resolved_json(alloc, &dependency.maybe_code)?;
    put_optional(&mut members, alloc, "code", code)?;
    let dynamic = flag_json(dependency.is_dynamic);
    put_optional(&mut members, alloc, "isDynamic", dynamic)?;
    let phase = phase_json(alloc, dependency.imports.as_slice())?;
    put_optional(&mut members, alloc, "phase", phase)?;
    let specifier = Value::try_from_str(alloc, text)?;
    put(&mut members, alloc, "specifier", specifier)?;
    let types = resolved_json(alloc, &dependency.maybe_type)?;
    put_optional(&mut members, alloc, "type", types)?;
    Ok(Value::Object(members))
}

// Where the types of a module stand.
pub(crate) fn types_dependency_json(
    alloc: Global,
    types: &TypesDependency,
) -> Result<Value, AllocError>
    ensures { IfOk result (λ v. view v ≡ types_dependency_json types.now) }
{
    let mut members = Map::new(alloc);
    let dependency = resolution_json(alloc, &types.dependency)?;
    put(&mut members, alloc, "dependency", dependency)?;
    let specifier = Value::try_from_str(alloc, types.specifier.as_str())?;
    put(&mut members, alloc, "specifier", specifier)?;
    Ok(Value::Object(members))
}

// Dependencies, in their order.
pub(crate) fn dependency_list(
    alloc: Global,
    dependencies: &TextMap<Dependency>,
) -> Result<Value, AllocError>
    ensures { IfOk result (λ v. view v ≡ list_json dependency_json dependencies.now) }
{
    let mut values = Vec::new(alloc);
    for (text, dependency) in dependencies.as_map().iter() {
        values.push(dependency_json(alloc, text.as_str(), dependency)?)?;
    }
    Ok(Value::Array(values))
}

// Dependencies, where there are some.
pub(crate) fn dependencies_json(
    alloc: Global,
    dependencies: &TextMap<Dependency>,
) -> Result<Option<Value>, AllocError>
    ensures { IfOk result (λ v. option_map view v ≡ if_any dependency_json dependencies.now) }
{
    if dependencies.len() == 0 {
        Ok(None)
    } else {
        Ok(Some(dependency_list(alloc, dependencies)?))
    }
}
