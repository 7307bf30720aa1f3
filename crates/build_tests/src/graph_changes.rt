// Changes of graphs that no build makes: dependencies and types that aren't resolved, and what fast checks found.
use crate::graph_worlds::script_dependencies;
use graph_core::{
    Dependency, FastCheckDiagnostic, FastCheckTypeModule, FastCheckTypeModuleSlot,
    FillFromLockfileOptions, GraphImport, Module, ModuleGraph, ModuleSlot, Resolution,
    TypesDependency,
};
use graph_tests::url;
use media_types::MediaType;
use semver_npm::{JsrDepPackageReq, PackageReq, VersionReq};
use spec_base::{Boxed, Items, ModuleSpecifier, Text, TextMap};
use std::alloc::Global;
use std::test::Fail;

// The slot at a specifier, which is taken out.
fn taken(graph: &mut ModuleGraph, specifier: &ModuleSpecifier) -> Result<ModuleSlot, Fail> {
    match graph.remove_slot(specifier) {
        Some(slot) => Ok(slot),
        None => Err(Fail::new("no slot")),
    }
}

fn tell_types(slot: &mut ModuleSlot, types: TypesDependency) {
    if let ModuleSlot::Module(Module::Js(script)) = slot {
        script.media_type = MediaType::Unknown;
        script.maybe_types_dependency = Some(types);
    }
}

// Gives a script no known media, and types that stand where an empty text names them, which isn't resolved.
fn open_types(
    alloc: Global,
    graph: &mut ModuleGraph,
    specifier: ModuleSpecifier,
) -> Result<(), Fail> {
    let types = TypesDependency {
        specifier: Text::from_str(alloc, "")?,
        dependency: Resolution::None,
    };
    let mut slot = taken(graph, &specifier)?;
    tell_types(&mut slot, types);
    graph.store_slot(specifier, slot)?;
    Ok(())
}

// A configured import that isn't resolved, but has an attribute.
fn open_import(alloc: Global) -> Result<GraphImport, Fail> {
    let dependency = Dependency {
        maybe_code: Resolution::None,
        maybe_type: Resolution::None,
        maybe_deno_types_specifier: None,
        is_dynamic: false,
        maybe_attribute_type: Some(Text::from_str(alloc, "css")?),
        imports: Items::new(alloc),
    };
    let mut dependencies = TextMap::new(alloc);
    dependencies.insert(String::from_str(alloc, "t")?, dependency)?;
    Ok(GraphImport { dependencies })
}

/// Gives the script at a specifier no known media and types that aren't resolved, and that specifier a configured import of the same
/// sort.
pub fn open(
    alloc: Global,
    graph: &mut ModuleGraph,
    specifier: ModuleSpecifier,
) -> Result<(), Fail> {
    let referrer = specifier.clone()?;
    open_types(alloc, graph, specifier)?;
    drop(graph.imports.insert(referrer, open_import(alloc)?)?);
    Ok(())
}

// A module of types with these dependencies.
fn found(
    alloc: Global,
    dependencies: TextMap<Dependency>,
) -> Result<FastCheckTypeModuleSlot, Fail> {
    let found = FastCheckTypeModule {
        dependencies,
        source: Text::from_str(alloc, "export {};")?,
        source_map: Text::from_str(alloc, "{}")?,
    };
    Ok(FastCheckTypeModuleSlot::Module(Boxed::new(alloc, found)?))
}

fn refused(alloc: Global) -> Result<FastCheckTypeModuleSlot, Fail> {
    let mut diagnostics = Items::new(alloc);
    diagnostics.push(FastCheckDiagnostic {
        message: Text::from_str(alloc, "missing explicit type")?,
        range: None,
    })?;
    Ok(FastCheckTypeModuleSlot::Error(diagnostics))
}

// What a fast check found: the dependencies of the script at a name, or a refusal without a name.
fn outcome(
    alloc: Global,
    graph: &ModuleGraph,
    left: &str,
) -> Result<FastCheckTypeModuleSlot, Fail> {
    if left.is_empty() {
        refused(alloc)
    } else {
        found(alloc, script_dependencies(graph, &url(alloc, left)?)?)
    }
}

/// Gives the script at a specifier what a fast check found of it: the dependencies of the script at a name, or a refusal where the name
/// is empty.
pub fn check(
    alloc: Global,
    graph: &mut ModuleGraph,
    specifier: ModuleSpecifier,
    left: &str,
) -> Result<(), Fail> {
    let outcome = outcome(alloc, graph, left)?;
    let mut modules = Vec::new(alloc);
    modules.push((specifier, outcome))?;
    graph.store_fast_check(alloc, modules);
    Ok(())
}

// A requirement on a package: `jsr NAME REQUIREMENT` or `npm NAME REQUIREMENT`.
fn requirement(alloc: Global, texts: &str) -> Result<JsrDepPackageReq, Fail> {
    let (kind, texts) = texts.split_once(" ").unwrap_or((texts, ""));
    let (name, text) = texts.split_once(" ").unwrap_or((texts, ""));
    let version_req = VersionReq::parse_from_specifier(alloc, text)?;
    let name = Text::from_str(alloc, name)?;
    let req = PackageReq { name, version_req };
    if kind == "npm" {
        Ok(JsrDepPackageReq::npm(req))
    } else {
        Ok(JsrDepPackageReq::jsr(req))
    }
}

/// Takes over a redirect of a lockfile, of two texts with a space between.
pub fn lock(alloc: Global, graph: &mut ModuleGraph, texts: &str) -> Result<(), Fail> {
    let (from, to) = texts.split_once(" ").unwrap_or((texts, ""));
    let from = String::from_str(alloc, from)?;
    let to = String::from_str(alloc, to)?;
    let mut redirects = Vec::new(alloc);
    redirects.push((from, to))?;
    graph.fill_from_lockfile(
        alloc,
        FillFromLockfileOptions {
            redirects,
            package_specifiers: Vec::new(alloc),
        },
    )?;
    Ok(())
}

/// Takes over a version of a lockfile: `VERSION jsr NAME REQUIREMENT` or `VERSION npm NAME REQUIREMENT`.
pub fn pin(alloc: Global, graph: &mut ModuleGraph, texts: &str) -> Result<(), Fail> {
    let (version, texts) = texts.split_once(" ").unwrap_or((texts, ""));
    let required = requirement(alloc, texts)?;
    let version = String::from_str(alloc, version)?;
    let mut package_specifiers = Vec::new(alloc);
    package_specifiers.push((required, version))?;
    graph.fill_from_lockfile(
        alloc,
        FillFromLockfileOptions {
            redirects: Vec::new(alloc),
            package_specifiers,
        },
    )?;
    Ok(())
}
