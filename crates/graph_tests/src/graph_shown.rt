// Dependencies, as text: what a graph's own text doesn't show of them too.
use crate::specifiers::url;
use graph_core::{
    Dependency, Import, ImportKind, ModuleError, ModuleGraph, ModuleSlot, Resolution,
};
use spec_base::{ResolutionMode, TextMap};
use std::alloc::Global;
use std::test::Fail;

fn kind_name(imports: &[Import]) -> &'static str {
    let Some(import) = imports.first() else {
        return "-";
    };
    match import.kind {
        ImportKind::Es => "Es",
        ImportKind::EsSource => "EsSource",
        ImportKind::Require => "Require",
        ImportKind::TsType => "TsType",
        ImportKind::TsModuleAugmentation => "TsModuleAugmentation",
        ImportKind::TsReferencePath => "TsReferencePath",
        ImportKind::TsReferenceTypes => "TsReferenceTypes",
        ImportKind::JsxImportSource => "JsxImportSource",
        ImportKind::JsDoc => "JsDoc",
    }
}

fn mode(imports: &[Import]) -> &'static str {
    let Some(import) = imports.first() else {
        return "";
    };
    match import.specifier_range.resolution_mode {
        None => " -",
        Some(ResolutionMode::Import) => " import",
        Some(ResolutionMode::Require) => " require",
    }
}

/// The target, or the error's text, and `-` where nothing was resolved.
pub fn target(alloc: Global, resolution: &Resolution) -> Result<String, Fail> {
    match resolution {
        Resolution::None => Ok(String::from_str(alloc, "-")?),
        Resolution::Ok(resolved) => {
            Ok(String::from_str(alloc, resolved.get().specifier.as_str())?)
        }
        Resolution::Err(error) => Ok(format!(in alloc; "{}", error.get())?),
    }
}

// What stands between one and the next.
fn gap(text: &String) -> &'static str {
    if text.is_empty() { "" } else { "; " }
}

// The text of the types, the number of imports, and what else a dependency has.
fn put_marks(alloc: Global, text: &mut String, dependency: &Dependency) -> Result<(), Fail> {
    let own = match &dependency.maybe_deno_types_specifier {
        None => "-",
        Some(own) => own.as_str(),
    };
    let marks = format!(in alloc; " {own} {}", dependency.imports.len())?;
    text.push_str(marks.as_str())?;
    if dependency.is_dynamic {
        text.push_str(" dynamic")?;
    }
    if let Some(attribute) = &dependency.maybe_attribute_type {
        text.push_str(" as ")?;
        text.push_str(attribute.as_str())?;
    }
    Ok(())
}

/// Adds the dependency of a text: the first import with its mode, the code, the type, the text of the types, how many
/// imports there are, whether it is dynamic, and the attribute.
pub fn put_dependency(
    alloc: Global,
    text: &mut String,
    name: &str,
    dependency: &Dependency,
) -> Result<(), Fail> {
    let kind = kind_name(dependency.imports.as_slice());
    let mode = mode(dependency.imports.as_slice());
    let code = target(alloc, &dependency.maybe_code)?;
    let types = target(alloc, &dependency.maybe_type)?;
    let shown = format!(in alloc; "{name} {kind}{mode} {code} {types}")?;
    let gap = gap(text);
    text.push_str(gap)?;
    text.push_str(shown.as_str())?;
    put_marks(alloc, text, dependency)
}

/// Each dependency with its text.
pub fn dependencies_text(
    alloc: Global,
    dependencies: &TextMap<Dependency>,
) -> Result<String, Fail> {
    let mut text = String::new(alloc);
    for (name, dependency) in dependencies.as_map().iter() {
        put_dependency(alloc, &mut text, name.as_str(), dependency)?;
    }
    Ok(text)
}

/// The dependencies of the module at a name, or of the imports that are configured there.
pub fn imports(alloc: Global, graph: &ModuleGraph, name: &str) -> Result<String, Fail> {
    let specifier = url(alloc, name)?;
    if let Some(import) = graph.imports.as_map().get(&specifier) {
        return dependencies_text(alloc, &import.dependencies);
    }
    match graph.slot(&specifier) {
        Some(ModuleSlot::Module(module)) => match module.dependencies() {
            Some(dependencies) => dependencies_text(alloc, dependencies),
            None => Err(Fail::new("no dependencies")),
        },
        _ => Err(Fail::new("no module")),
    }
}

/// The first line of an error.
pub fn first_line(alloc: Global, error: &ModuleError) -> Result<String, Fail> {
    let error = format!(in alloc; "{error}")?;
    let line = error.as_str().lines().next().unwrap_or("");
    Ok(String::from_str(alloc, line)?)
}
