// The text of a graph's JSON, token by token.
ghost use Rattle.std.specs.Prelude.{◌≡◌, ◌++◌, Some, IfOk, OnOk, codes, map, option_copied, option_map, string_bytes};
ghost use Rattle.std.specs.FinMap as finite;
ghost use Rattle.serde_json.specs.Data.{string};
ghost use Rattle.serde_json.specs.View.{view};
ghost use Rattle.serde_json.specs.Written.{compact_text};
ghost use Rattle.json_forms.specs.Rows.{object_of, list_json, if_any, IsFree};
ghost use Rattle.json_tokens.specs.Tokens.{data_tokens, member_tokens, list_tokens, rows_tokens};
ghost use Rattle.graph_json.specs.GraphJson.{local_json, media_json, path_json, script_rows, asserted_rows, wasm_rows, outside_rows, module_json, error_rows, by_slot, slot_json, specifier_json, import_json, redirect_row, packages_json, graph_json};

use crate::json::packages_json;
use crate::text_dependencies::{
    push_dependencies, push_dependency_list, push_specifier, push_types,
};
use graph_core::{GraphImport, JsModule, JsonModule, Module, ModuleGraph, ModuleSlot, WasmModule};
use json_tokens::{TokenWriter, push_value};
use media_types::MediaType;
use pkg_records::PackageSpecifiers;
use serde_json::Value;
use source_io::CacheInfo;
use spec_base::{Entries, ModuleSpecifier, SpecifierMap, SpecifierSet, Text};
use std::alloc::{AllocError, Global};

fn push_media(out: &mut TokenWriter, media: MediaType) -> Result<(), AllocError>
    ensures { OnOk result
        (out.new ≡ out.old ++ member_tokens (codes "mediaType") (media_json media)) }
{
    match media {
        MediaType::Unknown => Ok(()),
        _ => out.text_member("mediaType", media.name()),
    }
}

// The path of a cached copy, or null where none is known.
fn push_path(out: &mut TokenWriter, path: &Option<Text>) -> Result<(), AllocError>
    ensures { OnOk result
        (out.new ≡ out.old ++ member_tokens (codes "local") (Some (path_json path.now))) }
{
    match path {
        Some(path) => out.text_member("local", path.as_str()),
        None => {
            out.key("local")?;
            out.null()
        }
    }
}

// What is known of a cached copy, where it is told.
fn push_local(out: &mut TokenWriter, info: &Option<CacheInfo>) -> Result<(), AllocError>
    ensures { OnOk result
        (out.new ≡ out.old ++ member_tokens (codes "local") (local_json info.now)) }
{
    match info {
        Some(info) => push_path(out, &info.local),
        None => Ok(()),
    }
}

fn push_script(out: &mut TokenWriter, alloc: Global, script: &JsModule) -> Result<(), AllocError>
    ensures { OnOk result (out.new ≡ out.old ++ data_tokens (object_of (script_rows script.now))) }
{
    out.begin_object()?;
    push_dependencies(out, alloc, &script.dependencies)?;
    out.text_member("kind", "esm")?;
    push_local(out, &script.maybe_cache_info)?;
    push_types(
        out,
        alloc,
        "maybeSourceMapDependency",
        &script.maybe_source_map_dependency,
    )?;
    push_media(out, script.media_type)?;
    out.number_member("size", script.size() as u64)?;
    push_specifier(out, &script.specifier)?;
    push_types(
        out,
        alloc,
        "typesDependency",
        &script.maybe_types_dependency,
    )?;
    out.end_object()?;
    Ok(())
}

fn push_asserted(out: &mut TokenWriter, json: &JsonModule) -> Result<(), AllocError>
    ensures { OnOk result (out.new ≡ out.old ++ data_tokens (object_of (asserted_rows json.now))) }
{
    out.begin_object()?;
    out.text_member("kind", "asserted")?;
    push_local(out, &json.maybe_cache_info)?;
    push_media(out, json.media_type)?;
    out.number_member("size", json.size() as u64)?;
    push_specifier(out, &json.specifier)?;
    out.end_object()?;
    Ok(())
}

fn push_wasm(out: &mut TokenWriter, alloc: Global, wasm: &WasmModule) -> Result<(), AllocError>
    ensures { OnOk result (out.new ≡ out.old ++ data_tokens (object_of (wasm_rows wasm.now))) }
{
    out.begin_object()?;
    push_dependencies(out, alloc, &wasm.dependencies)?;
    out.text_member("kind", "wasm")?;
    push_local(out, &wasm.maybe_cache_info)?;
    out.number_member("size", wasm.size() as u64)?;
    push_specifier(out, &wasm.specifier)?;
    out.end_object()?;
    Ok(())
}

fn push_name(out: &mut TokenWriter, name: Option<&str>) -> Result<(), AllocError>
    ensures { OnOk result
        (out.new ≡ out.old
        ++ member_tokens (codes "moduleName") (option_map string (option_copied name.entry))) }
{
    match name {
        Some(name) => out.text_member("moduleName", name),
        None => Ok(()),
    }
}

// A module of which the kind and the specifier are told, and maybe its cached copy or its name.
fn push_outside(
    out: &mut TokenWriter,
    kind: &str,
    info: &Option<CacheInfo>,
    name: Option<&str>,
    specifier: &ModuleSpecifier,
) -> Result<(), AllocError>
    ensures { OnOk result
        (out.new
        ≡ out.old ++ data_tokens
        (object_of
        (outside_rows kind.now info.now (option_map string (option_copied name.entry))
        specifier.now))) }
{
    out.begin_object()?;
    out.text_member("kind", kind)?;
    push_local(out, info)?;
    push_name(out, name)?;
    push_specifier(out, specifier)?;
    out.end_object()?;
    Ok(())
}

fn push_module(out: &mut TokenWriter, alloc: Global, module: &Module) -> Result<(), AllocError>
    ensures { OnOk result (out.new ≡ out.old ++ data_tokens (module_json «module».now)) }
{
    match module {
        Module::Js(script) => push_script(out, alloc, script),
        Module::Json(json) => push_asserted(out, json),
        Module::Wasm(wasm) => push_wasm(out, alloc, wasm),
        Module::Npm(module) => push_outside(out, "npm", &None, None, &module.specifier),
        Module::Node(module) => push_outside(
            out,
            "node",
            &None,
            Some(module.module_name.as_str()),
            &module.specifier,
        ),
        Module::External(module) => push_outside(
            out,
            "external",
            &module.maybe_cache_info,
            None,
            &module.specifier,
        ),
    }
}

fn push_error(out: &mut TokenWriter, text: &str, key: &str) -> Result<(), AllocError>
    ensures { OnOk result
        (out.new ≡ out.old ++ data_tokens (object_of (error_rows text.now key.now))) }
{
    out.begin_object()?;
    out.text_member("error", text)?;
    out.text_member("specifier", key)?;
    out.end_object()?;
    Ok(())
}

fn push_slot(
    out: &mut TokenWriter,
    alloc: Global,
    key: &str,
    slot: &ModuleSlot,
) -> Result<(), AllocError>
    ensures { OnOk result (out.new ≡ out.old ++ data_tokens (by_slot key.now slot.now)) }
{
    match slot {
        ModuleSlot::Module(module) => push_module(out, alloc, module),
        ModuleSlot::Err(error) => {
            let text = format!(in alloc; "{error}")?;
            push_error(out, text.as_str(), key)
        }
        ModuleSlot::Pending { .. } => push_error(
            out,
            "[INTERNAL ERROR] A pending module load never completed.",
            key,
        ),
    }
}

// Slots, one behind the other.
fn push_each_slot(
    out: &mut TokenWriter,
    alloc: Global,
    graph: &ModuleGraph,
) -> Result<(), AllocError>
    ensures { OnOk result
        (out.new ≡ out.old ++ list_tokens slot_json (finite.entries graph.now.slots)) }
{
    for (specifier, slot) in graph.slots() {
        push_slot(out, alloc, specifier.as_str(), slot)?;
    }
    Ok(())
}

fn push_slots(out: &mut TokenWriter, alloc: Global, graph: &ModuleGraph) -> Result<(), AllocError>
    ensures { OnOk result
        (out.new ≡ out.old ++ data_tokens (list_json slot_json (finite.entries graph.now.slots))) }
{
    out.begin_array()?;
    push_each_slot(out, alloc, graph)?;
    out.end_array()?;
    Ok(())
}

fn push_referrer(out: &mut TokenWriter, referrer: &ModuleSpecifier) -> Result<(), AllocError>
    ensures { OnOk result
        (out.new ≡ out.old
        ++ member_tokens (codes "referrer") (Some (specifier_json referrer.now))) }
{
    out.text_member("referrer", referrer.as_str())
}

fn push_import(
    out: &mut TokenWriter,
    alloc: Global,
    referrer: &ModuleSpecifier,
    import: &GraphImport,
) -> Result<(), AllocError>
    ensures { OnOk result
        (out.new ≡ out.old ++ data_tokens (import_json (referrer.now, import.now))) }
{
    out.begin_object()?;
    out.key("dependencies")?;
    push_dependency_list(out, alloc, &import.dependencies)?;
    push_referrer(out, referrer)?;
    out.end_object()?;
    Ok(())
}

// Configured imports, one behind the other.
fn push_each_import(
    out: &mut TokenWriter,
    alloc: Global,
    imports: &Entries<ModuleSpecifier, GraphImport>,
) -> Result<(), AllocError>
    ensures { OnOk result (out.new ≡ out.old ++ list_tokens import_json imports.now) }
{
    for (referrer, import) in imports.as_map().iter() {
        push_import(out, alloc, referrer, import)?;
    }
    Ok(())
}

fn push_import_list(
    out: &mut TokenWriter,
    alloc: Global,
    imports: &Entries<ModuleSpecifier, GraphImport>,
) -> Result<(), AllocError>
    ensures { OnOk result (out.new ≡ out.old ++ data_tokens (list_json import_json imports.now)) }
{
    out.begin_array()?;
    push_each_import(out, alloc, imports)?;
    out.end_array()?;
    Ok(())
}

// The configured imports, where there are some.
fn push_imports(
    out: &mut TokenWriter,
    alloc: Global,
    imports: &Entries<ModuleSpecifier, GraphImport>,
) -> Result<(), AllocError>
    ensures { OnOk result
        (out.new ≡ out.old ++ member_tokens (codes "imports") (if_any import_json imports.now)) }
{
    if imports.len() == 0 {
        return Ok(());
    }
    out.key("imports")?;
    push_import_list(out, alloc, imports)?;
    Ok(())
}

// The member of a value that holds no float, where there is one.
fn push_optional(out: &mut TokenWriter, name: &str, value: &Option<Value>) -> Result<(), AllocError>
    requires { IsFree (option_map view value.now) }
    ensures { OnOk result
        (out.new ≡ out.old ++ member_tokens name.now (option_map view value.now)) }
{
    if let Some(value) = value {
        out.key(name)?;
        push_value(out, value)?;
    }
    Ok(())
}

// The versions that requirements lead to, where there are some.
fn push_packages(
    out: &mut TokenWriter,
    alloc: Global,
    packages: &PackageSpecifiers,
) -> Result<(), AllocError>
    ensures { OnOk result
        (out.new ≡ out.old
        ++ member_tokens (codes "packages") (packages_json packages.now.package_reqs)) }
{
    let value = packages_json(alloc, packages)?;
    push_optional(out, "packages", &value)?;
    Ok(())
}

// Where each specifier is redirected to, by its text, with the closing bracket.
fn push_each_redirect(
    out: &mut TokenWriter,
    redirects: &SpecifierMap<ModuleSpecifier>,
) -> Result<(), AllocError>
    ensures { OnOk result
        (out.new ≡ out.old ++ rows_tokens (map redirect_row (finite.entries redirects.now))) }
{
    for (specifier, target) in redirects.as_map().iter() {
        out.text_member(specifier.as_str(), target.as_str())?;
    }
    out.end_object()
}

fn push_redirects(
    out: &mut TokenWriter,
    redirects: &SpecifierMap<ModuleSpecifier>,
) -> Result<(), AllocError>
    ensures { OnOk result
        (out.new
        ≡ out.old ++ data_tokens
        (object_of (map redirect_row (finite.entries redirects.now)))) }
{
    out.begin_object()?;
    push_each_redirect(out, redirects)?;
    Ok(())
}

// Roots, one behind the other.
fn push_each_root(out: &mut TokenWriter, roots: &SpecifierSet) -> Result<(), AllocError>
    ensures { OnOk result (out.new ≡ out.old ++ list_tokens specifier_json roots.now) }
{
    for root in roots.as_set().iter() {
        out.string(root.as_str())?;
    }
    Ok(())
}

fn push_roots(out: &mut TokenWriter, roots: &SpecifierSet) -> Result<(), AllocError>
    ensures { OnOk result (out.new ≡ out.old ++ data_tokens (list_json specifier_json roots.now)) }
{
    out.begin_array()?;
    push_each_root(out, roots)?;
    out.end_array()?;
    Ok(())
}

fn push_graph(out: &mut TokenWriter, alloc: Global, graph: &ModuleGraph) -> Result<(), AllocError>
    ensures { OnOk result (out.new ≡ out.old ++ data_tokens (graph_json graph.now)) }
{
    out.begin_object()?;
    push_imports(out, alloc, &graph.imports)?;
    out.key("modules")?;
    push_slots(out, alloc, graph)?;
    push_packages(out, alloc, &graph.packages)?;
    out.key("redirects")?;
    push_redirects(out, &graph.redirects)?;
    out.key("roots")?;
    push_roots(out, &graph.roots)?;
    out.end_object()?;
    Ok(())
}

/// The text of the graph's JSON, without spaces and with the keys of each object sorted (RFC 8259). The
/// only error is want of memory.
pub fn json_text(alloc: Global, graph: &ModuleGraph) -> Result<String, AllocError>
    ensures { IfOk result (λ s. string_bytes s ≡ compact_text (graph_json graph.now)) }
{
    let mut out = TokenWriter::new(alloc);
    push_graph(&mut out, alloc, graph)?;
    let text = out.into_text()?;
    Ok(text)
}
