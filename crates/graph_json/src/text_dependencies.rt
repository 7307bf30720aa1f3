// Resolutions and dependencies as text, token by token.
ghost use Rattle.std.specs.Prelude.{◌≡◌, ◌++◌, Some, OnOk, codes, option_map};
ghost use Rattle.json_forms.specs.Rows.{object_of, list_json, if_any, if_true};
ghost use Rattle.json_tokens.specs.Tokens.{data_tokens, member_tokens, list_tokens};
ghost use Rattle.graph_errors.specs.Errors.{resolution_error_text};
ghost use Rattle.graph_errors.specs.Resolutions.{failed_range};
ghost use Rattle.serde_json.specs.Data.{string};
ghost use Rattle.graph_json.specs.GraphJson.{specifier_json, position_object, span_json, mode_json, resolution_rows, if_resolved, resolution_json, phase_json, attribute_json, dependency_json, types_dependency_json};

use crate::json_dependencies::is_source;
use graph_core::{Dependency, Import, Resolution, TypesDependency};
use graph_errors::{ResolutionError, ResolutionResolved};
use json_tokens::TokenWriter;
use spec_base::{
    Items, ModuleSpecifier, Position, PositionRange, Range, ResolutionMode, Text, TextMap,
};
use std::alloc::{AllocError, Global};

fn push_position(out: &mut TokenWriter, position: &Position) -> Result<(), AllocError>
    ensures { OnOk result (out.new ≡ out.old ++ data_tokens (position_object position.now)) }
{
    out.begin_object()?;
    out.number_member("character", position.character as u64)?;
    out.number_member("line", position.line as u64)?;
    out.end_object()?;
    Ok(())
}

fn push_span(out: &mut TokenWriter, range: &PositionRange) -> Result<(), AllocError>
    ensures { OnOk result (out.new ≡ out.old ++ data_tokens (span_json range.now)) }
{
    out.begin_object()?;
    out.key("end")?;
    push_position(out, &range.end)?;
    out.key("start")?;
    push_position(out, &range.start)?;
    out.end_object()?;
    Ok(())
}

fn push_mode(out: &mut TokenWriter, mode: Option<ResolutionMode>) -> Result<(), AllocError>
    ensures { OnOk result
        (out.new ≡ out.old ++ member_tokens (codes "resolutionMode") (option_map mode_json mode)) }
{
    match mode {
        None => Ok(()),
        Some(ResolutionMode::Import) => out.text_member("resolutionMode", "import"),
        Some(ResolutionMode::Require) => out.text_member("resolutionMode", "require"),
    }
}

// The member of a specifier.
pub(crate) fn push_specifier(
    out: &mut TokenWriter,
    specifier: &ModuleSpecifier,
) -> Result<(), AllocError>
    ensures { OnOk result
        (out.new ≡ out.old
        ++ member_tokens (codes "specifier") (Some (specifier_json specifier.now))) }
{
    out.text_member("specifier", specifier.as_str())
}

fn push_target(out: &mut TokenWriter, resolved: &ResolutionResolved) -> Result<(), AllocError>
    ensures { OnOk result (out.new ≡ out.old
        ++ data_tokens (object_of (resolution_rows (codes "specifier")
        (specifier_json resolved.now.specifier) resolved.now.range))) }
{
    out.begin_object()?;
    push_mode(out, resolved.range.resolution_mode)?;
    out.key("span")?;
    push_span(out, &resolved.range.range)?;
    push_specifier(out, &resolved.specifier)?;
    out.end_object()?;
    Ok(())
}

// An error, by its text.
fn push_refused(out: &mut TokenWriter, text: &str, range: &Range) -> Result<(), AllocError>
    ensures { OnOk result (out.new ≡ out.old
        ++ data_tokens (object_of (resolution_rows (codes "error") (string text.now) range.now))) }
{
    out.begin_object()?;
    out.text_member("error", text)?;
    push_mode(out, range.resolution_mode)?;
    out.key("span")?;
    push_span(out, &range.range)?;
    out.end_object()?;
    Ok(())
}

fn push_failure(
    out: &mut TokenWriter,
    alloc: Global,
    error: &ResolutionError,
) -> Result<(), AllocError>
    ensures { OnOk result (out.new ≡ out.old
        ++ data_tokens (object_of (resolution_rows (codes "error")
        (string (resolution_error_text error.now)) (failed_range error.now)))) }
{
    let text = format!(in alloc; "{error}")?;
    push_refused(out, text.as_str(), error.range())
}

// A resolution; null where nothing was resolved.
fn push_resolution(
    out: &mut TokenWriter,
    alloc: Global,
    resolution: &Resolution,
) -> Result<(), AllocError>
    ensures { OnOk result (out.new ≡ out.old ++ data_tokens (resolution_json resolution.now)) }
{
    match resolution {
        Resolution::None => out.null(),
        Resolution::Ok(resolved) => push_target(out, resolved.get()),
        Resolution::Err(error) => push_failure(out, alloc, error.get()),
    }
}

// The member of a resolution, where something was resolved.
fn push_resolved(
    out: &mut TokenWriter,
    alloc: Global,
    name: &str,
    resolution: &Resolution,
) -> Result<(), AllocError>
    ensures { OnOk result
        (out.new ≡ out.old ++ member_tokens name.now (if_resolved resolution.now)) }
{
    if resolution.is_none() {
        return Ok(());
    }
    out.key(name)?;
    push_resolution(out, alloc, resolution)?;
    Ok(())
}

// The known attribute `type`, where there is one.
fn push_attribute(out: &mut TokenWriter, attribute: &Option<Text>) -> Result<(), AllocError>
    ensures { OnOk result
        (out.new ≡ out.old
        ++ member_tokens (codes "assertionType") (attribute_json attribute.now)) }
{
    match attribute {
        Some(text) => out.text_member("assertionType", text.as_str()),
        None => Ok(()),
    }
}

fn push_dynamic(out: &mut TokenWriter, flag: bool) -> Result<(), AllocError>
    ensures { OnOk result (out.new ≡ out.old ++ member_tokens (codes "isDynamic") (if_true flag)) }
{
    if flag {
        out.key("isDynamic")?;
        out.boolean(true)?;
    }
    Ok(())
}

// The phase of imports, where it isn't that of a run.
fn push_phase(out: &mut TokenWriter, imports: &Items<Import>) -> Result<(), AllocError>
    ensures { OnOk result
        (out.new ≡ out.old ++ member_tokens (codes "phase") (phase_json imports.now)) }
{
    if is_source(imports.as_slice()) {
        out.text_member("phase", "source")?;
    }
    Ok(())
}

fn push_dependency(
    out: &mut TokenWriter,
    alloc: Global,
    text: &str,
    dependency: &Dependency,
) -> Result<(), AllocError>
    ensures { OnOk result
        (out.new ≡ out.old ++ data_tokens (dependency_json (text.now, dependency.now))) }
{
    out.begin_object()?;
    push_attribute(out, &dependency.maybe_attribute_type)?;
    push_resolved(out, alloc, "code", &dependency.maybe_code)?;
    push_dynamic(out, dependency.is_dynamic)?;
    push_phase(out, &dependency.imports)?;
    out.text_member("specifier", text)?;
    push_resolved(out, alloc, "type", &dependency.maybe_type)?;
    out.end_object()?;
    Ok(())
}

// The member of a text that names a module.
fn push_text(out: &mut TokenWriter, text: &Text) -> Result<(), AllocError>
    ensures { OnOk result
        (out.new ≡ out.old ++ member_tokens (codes "specifier") (Some (string text.now))) }
{
    out.text_member("specifier", text.as_str())
}

fn push_types_dependency(
    out: &mut TokenWriter,
    alloc: Global,
    types: &TypesDependency,
) -> Result<(), AllocError>
    ensures { OnOk result (out.new ≡ out.old ++ data_tokens (types_dependency_json types.now)) }
{
    out.begin_object()?;
    out.key("dependency")?;
    push_resolution(out, alloc, &types.dependency)?;
    push_text(out, &types.specifier)?;
    out.end_object()?;
    Ok(())
}

// The member that says where the types or the source map of a module stand, where that is told.
pub(crate) fn push_types(
    out: &mut TokenWriter,
    alloc: Global,
    name: &str,
    types: &Option<TypesDependency>,
) -> Result<(), AllocError>
    ensures { OnOk result
        (out.new ≡ out.old ++ member_tokens name.now (option_map types_dependency_json types.now)) }
{
    if let Some(types) = types {
        out.key(name)?;
        push_types_dependency(out, alloc, types)?;
    }
    Ok(())
}

// Dependencies, one behind the other.
fn push_each_dependency(
    out: &mut TokenWriter,
    alloc: Global,
    dependencies: &TextMap<Dependency>,
) -> Result<(), AllocError>
    ensures { OnOk result (out.new ≡ out.old ++ list_tokens dependency_json dependencies.now) }
{
    for (text, dependency) in dependencies.as_map().iter() {
        push_dependency(out, alloc, text.as_str(), dependency)?;
    }
    Ok(())
}

// Dependencies, in their order.
pub(crate) fn push_dependency_list(
    out: &mut TokenWriter,
    alloc: Global,
    dependencies: &TextMap<Dependency>,
) -> Result<(), AllocError>
    ensures { OnOk result
        (out.new ≡ out.old ++ data_tokens (list_json dependency_json dependencies.now)) }
{
    out.begin_array()?;
    push_each_dependency(out, alloc, dependencies)?;
    out.end_array()?;
    Ok(())
}

// The member of dependencies, where there are some.
pub(crate) fn push_dependencies(
    out: &mut TokenWriter,
    alloc: Global,
    dependencies: &TextMap<Dependency>,
) -> Result<(), AllocError>
    ensures { OnOk result
        (out.new ≡ out.old
        ++ member_tokens (codes "dependencies") (if_any dependency_json dependencies.now)) }
{
    if dependencies.len() == 0 {
        return Ok(());
    }
    out.key("dependencies")?;
    push_dependency_list(out, alloc, dependencies)?;
    Ok(())
}
