// Modules and graphs as JSON.
ghost use Rattle.std.specs.Prelude.{◌≡◌, IfOk, codes, map, Some, None, option_map};
ghost use Rattle.std.specs.FinMap as finite;
ghost use Rattle.serde_json.specs.Data.{Data, string};
ghost use Rattle.serde_json.specs.View.{view};
ghost use Rattle.json_forms.specs.Rows.{object_of, list_json, if_any};
ghost use Rattle.spec_base.specs.Specifier.{specifier_text};
ghost use Rattle.graph_json.specs.GraphJson.{specifier_json, types_dependency_json, media_json, local_json, path_json, script_rows, asserted_rows, wasm_rows, outside_rows, module_json, error_rows, by_slot, slot_json, redirect_row, import_json, package_row, packages_json, graph_json};

use crate::json_dependencies::{dependencies_json, dependency_list, types_dependency_json};
use graph_core::{
    GraphImport, JsModule, JsonModule, Module, ModuleGraph, ModuleSlot, TypesDependency, WasmModule,
};
use json_forms::put_optional;
use media_types::MediaType;
use pkg_records::PackageSpecifiers;
use semver_npm::{PackageNv, PackageReq};
use serde_json::{Map, Value, put};
use source_io::CacheInfo;
use spec_base::{Entries, ModuleSpecifier, SpecifierMap, SpecifierSet, Text};
use std::alloc::{AllocError, Global};
use std::collections::BTreeMap;

fn media_json(alloc: Global, media: MediaType) -> Result<Option<Value>, AllocError>
    ensures { IfOk result (λ v. option_map view v ≡ media_json media) }
{
    match media {
        MediaType::Unknown => Ok(None),
        _ => Ok(Some(Value::try_from_str(alloc, media.name())?)),
    }
}

// The path of a cached copy, or null where none is known.
fn path_json(alloc: Global, path: &Option<Text>) -> Result<Value, AllocError>
    ensures { IfOk result (λ v. view v ≡ path_json path.now) }
{
    match path {
        Some(path) => Value::try_from_str(alloc, path.as_str()),
        None => Ok(Value::Null),
    }
}

// What is known of a cached copy, where it is told.
fn local_json(alloc: Global, info: &Option<CacheInfo>) -> Result<Option<Value>, AllocError>
    ensures { IfOk result (λ v. option_map view v ≡ local_json info.now) }
{
    match info {
        Some(info) => Ok(Some(path_json(alloc, &info.local)?)),
        None => Ok(None),
    }
}

// Where the types or the source map of a module stand, where that is told.
fn types_json(alloc: Global, types: &Option<TypesDependency>) -> Result<Option<Value>, AllocError>
    ensures { IfOk result (λ v. option_map view v ≡ option_map types_dependency_json types.now) }
{
    match types {
        Some(types) => Ok(Some(types_dependency_json(alloc, types)?)),
        None => Ok(None),
    }
}

fn script_json(alloc: Global, script: &JsModule) -> Result<Value, AllocError>
    ensures { IfOk result (λ v. view v ≡ object_of (script_rows script.now)) }
{
    let mut members = Map::new(alloc);
    let dependencies = dependencies_json(alloc, &script.dependencies)?;
    put_optional(&mut members, alloc, "dependencies", dependencies)?;
    let kind = Value::try_from_str(alloc, "esm")?;
    put(&mut members, alloc, "kind", kind)?;
    let local = local_json(alloc, &script.maybe_cache_info)?;
    put_optional(&mut members, alloc, "local", local)?;
    let source_map = types_json(alloc, &script.maybe_source_map_dependency)?;
    put_optional(&mut members, alloc, "maybeSourceMapDependency", source_map)?;
    let media = media_json(alloc, script.media_type)?;
    put_optional(&mut members, alloc, "mediaType", media)?;
    let size = Value::from(script.size() as u64);
    put(&mut members, alloc, "size", size)?;
    let specifier = Value::try_from_str(alloc, script.specifier.as_str())?;
    put(&mut members, alloc, "specifier", specifier)?;
    let types = types_json(alloc, &script.maybe_types_dependency)?;
    put_optional(&mut members, alloc, "typesDependency", types)?;
    Ok(Value::Object(members))
}

fn asserted_json(alloc: Global, json: &JsonModule) -> Result<Value, AllocError>
    ensures { IfOk result (λ v. view v ≡ object_of (asserted_rows json.now)) }
{
    let mut members = Map::new(alloc);
    let kind = Value::try_from_str(alloc, "asserted")?;
    put(&mut members, alloc, "kind", kind)?;
    let local = local_json(alloc, &json.maybe_cache_info)?;
    put_optional(&mut members, alloc, "local", local)?;
    let media = media_json(alloc, json.media_type)?;
    put_optional(&mut members, alloc, "mediaType", media)?;
    let size = Value::from(json.size() as u64);
    put(&mut members, alloc, "size", size)?;
    let specifier = Value::try_from_str(alloc, json.specifier.as_str())?;
    put(&mut members, alloc, "specifier", specifier)?;
    Ok(Value::Object(members))
}

fn wasm_json(alloc: Global, wasm: &WasmModule) -> Result<Value, AllocError>
    ensures { IfOk result (λ v. view v ≡ object_of (wasm_rows wasm.now)) }
{
    let mut members = Map::new(alloc);
    let dependencies = dependencies_json(alloc, &wasm.dependencies)?;
    put_optional(&mut members, alloc, "dependencies", dependencies)?;
    let kind = Value::try_from_str(alloc, "wasm")?;
    put(&mut members, alloc, "kind", kind)?;
    let local = local_json(alloc, &wasm.maybe_cache_info)?;
    put_optional(&mut members, alloc, "local", local)?;
    let size = Value::from(wasm.size() as u64);
    put(&mut members, alloc, "size", size)?;
    let specifier = Value::try_from_str(alloc, wasm.specifier.as_str())?;
    put(&mut members, alloc, "specifier", specifier)?;
    Ok(Value::Object(members))
}

// A module of which the kind and the specifier are told, and maybe its cached copy or its name.
fn outside_json(
    alloc: Global,
    kind: &str,
    info: &Option<CacheInfo>,
    name: Option<Value>,
    specifier: &ModuleSpecifier,
) -> Result<Value, AllocError>
    ensures { IfOk result
        (λ v. view v ≡ object_of (outside_rows kind.now info.now (option_map view name) specifier.now)) }
{
    let mut members = Map::new(alloc);
    let kind = Value::try_from_str(alloc, kind)?;
    put(&mut members, alloc, "kind", kind)?;
    let local = local_json(alloc, info)?;
    put_optional(&mut members, alloc, "local", local)?;
    put_optional(&mut members, alloc, "moduleName", name)?;
    let specifier = Value::try_from_str(alloc, specifier.as_str())?;
    put(&mut members, alloc, "specifier", specifier)?;
    Ok(Value::Object(members))
}

fn module_json(alloc: Global, module: &Module) -> Result<Value, AllocError>
    ensures { IfOk result (λ v. view v ≡ module_json «module».now) }
{
    match module {
        Module::Js(script) => script_json(alloc, script),
        Module::Json(json) => asserted_json(alloc, json),
        Module::Wasm(wasm) => wasm_json(alloc, wasm),
        Module::Npm(module) => outside_json(alloc, "npm", &None, None, &module.specifier),
        Module::Node(module) => {
            let name = Value::try_from_str(alloc, module.module_name.as_str())?;
            outside_json(alloc, "node", &None, Some(name), &module.specifier)
        }
        Module::External(module) => outside_json(
            alloc,
            "external",
            &module.maybe_cache_info,
            None,
            &module.specifier,
        ),
    }
}

fn error_json(alloc: Global, text: &str, key: &str) -> Result<Value, AllocError>
    ensures { IfOk result (λ v. view v ≡ object_of (error_rows text.now key.now)) }
{
    let mut members = Map::new(alloc);
    let error = Value::try_from_str(alloc, text)?;
    put(&mut members, alloc, "error", error)?;
    let specifier = Value::try_from_str(alloc, key)?;
    put(&mut members, alloc, "specifier", specifier)?;
    Ok(Value::Object(members))
}

fn slot_json(alloc: Global, key: &str, slot: &ModuleSlot) -> Result<Value, AllocError>
    ensures { IfOk result (λ v. view v ≡ by_slot key.now slot.now) }
{
    match slot {
        ModuleSlot::Module(module) => module_json(alloc, module),
        ModuleSlot::Err(error) => {
            let text = format!(in alloc; "{error}")?;
            error_json(alloc, text.as_str(), key)
        }
        ModuleSlot::Pending { .. } => error_json(
            alloc,
            "[INTERNAL ERROR] A pending module load never completed.",
            key,
        ),
    }
}

fn slots_json(alloc: Global, graph: &ModuleGraph) -> Result<Value, AllocError>
    ensures { IfOk result (λ v. view v ≡ list_json slot_json (finite.entries graph.now.slots)) }
{
    let mut values = Vec::new(alloc);
    for (specifier, slot) in graph.slots() {
        values.push(slot_json(alloc, specifier.as_str(), slot)?)?;
    }
    Ok(Value::Array(values))
}

fn redirects_json(
    alloc: Global,
    redirects: &SpecifierMap<ModuleSpecifier>,
) -> Result<Value, AllocError>
    ensures { IfOk result
        (λ v. view v ≡ object_of (map redirect_row (finite.entries redirects.now))) }
{
    let mut members = Map::new(alloc);
    for (specifier, target) in redirects.as_map().iter() {
        let target = Value::try_from_str(alloc, target.as_str())?;
        put(&mut members, alloc, specifier.as_str(), target)?;
    }
    Ok(Value::Object(members))
}

fn roots_json(alloc: Global, roots: &SpecifierSet) -> Result<Value, AllocError>
    ensures { IfOk result (λ v. view v ≡ list_json specifier_json roots.now) }
{
    let mut values = Vec::new(alloc);
    for root in roots.as_set().iter() {
        values.push(Value::try_from_str(alloc, root.as_str())?)?;
    }
    Ok(Value::Array(values))
}

fn import_json(
    alloc: Global,
    referrer: &ModuleSpecifier,
    import: &GraphImport,
) -> Result<Value, AllocError>
    ensures { IfOk result (λ v. view v ≡ import_json (referrer.now, import.now)) }
{
    let mut members = Map::new(alloc);
    let dependencies = dependency_list(alloc, &import.dependencies)?;
    put(&mut members, alloc, "dependencies", dependencies)?;
    let referrer = Value::try_from_str(alloc, referrer.as_str())?;
    put(&mut members, alloc, "referrer", referrer)?;
    Ok(Value::Object(members))
}

fn import_list(
    alloc: Global,
    imports: &Entries<ModuleSpecifier, GraphImport>,
) -> Result<Value, AllocError>
    ensures { IfOk result (λ v. view v ≡ list_json import_json imports.now) }
{
    let mut values = Vec::new(alloc);
    for (referrer, import) in imports.as_map().iter() {
        values.push(import_json(alloc, referrer, import)?)?;
    }
    Ok(Value::Array(values))
}

// The configured imports, where there are some.
fn imports_json(
    alloc: Global,
    imports: &Entries<ModuleSpecifier, GraphImport>,
) -> Result<Option<Value>, AllocError>
    ensures { IfOk result (λ v. option_map view v ≡ if_any import_json imports.now) }
{
    if imports.len() == 0 {
        Ok(None)
    } else {
        Ok(Some(import_list(alloc, imports)?))
    }
}

// The version that each requirement leads to, under the requirement's text.
fn mappings_json(
    alloc: Global,
    mappings: &BTreeMap<PackageReq, PackageNv>,
) -> Result<Value, AllocError>
    ensures { IfOk result (λ v. view v ≡ object_of (map package_row mappings.now.entries)) }
{
    let mut members = Map::new(alloc);
    for (requirement, version) in mappings.iter() {
        let key = format!(in alloc; "{requirement}")?;
        let text = format!(in alloc; "{version}")?;
        let value = Value::try_from_str(alloc, text.as_str())?;
        put(&mut members, alloc, key.as_str(), value)?;
    }
    Ok(Value::Object(members))
}

// The versions that requirements lead to, where there are some.
pub(crate) fn packages_json(
    alloc: Global,
    packages: &PackageSpecifiers,
) -> Result<Option<Value>, AllocError>
    ensures { IfOk result (λ v. option_map view v ≡ packages_json packages.now.package_reqs) }
{
    if packages.is_empty() {
        Ok(None)
    } else {
        Ok(Some(mappings_json(alloc, packages.mappings())?))
    }
}

/// The graph as JSON: its configured imports in order, where there are some, its slots and its redirects in the
/// order of their specifiers' texts, its roots in order, and, where requirements on packages lead to versions, the
/// text of each version under that of its requirement. The only error is want of memory.
#[tactic(auto, unfolding(crate::specs::GraphJson::graph_json))]
pub fn to_json(alloc: Global, graph: &ModuleGraph) -> Result<Value, AllocError>
    ensures { IfOk result (λ v. view v ≡ graph_json graph.now) }
{
    let mut members = Map::new(alloc);
    let imports = imports_json(alloc, &graph.imports)?;
    put_optional(&mut members, alloc, "imports", imports)?;
    let modules = slots_json(alloc, graph)?;
    put(&mut members, alloc, "modules", modules)?;
    let packages = packages_json(alloc, &graph.packages)?;
    put_optional(&mut members, alloc, "packages", packages)?;
    let redirects = redirects_json(alloc, &graph.redirects)?;
    put(&mut members, alloc, "redirects", redirects)?;
    let roots = roots_json(alloc, &graph.roots)?;
    put(&mut members, alloc, "roots", roots)?;
    Ok(Value::Object(members))
}
