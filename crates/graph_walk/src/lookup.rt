// What stands where texts of imports lead, with a wish for types. Nothing here takes memory.
ghost use Rattle.std.specs.Prelude.{◌≡◌, option_copied};
ghost use Rattle.graph_core.specs.Lookup.{tried_copied};
ghost use Rattle.graph_walk.specs.Lookups.{resolved_types, tried_types, module_place, types_place, target_place, wished_target, dependency_place, place_among, place_from_module, place_from_imports, place_from};

use graph_core::{Dependency, Module, ModuleError, ModuleGraph};
use spec_base::{ModuleSpecifier, TextMap};

// Where the types of a module stand, where that was resolved.
fn resolved_types(found: &Module) -> Option<&ModuleSpecifier>
    ensures { option_copied result ≡ resolved_types found.now }
{
    found.maybe_types_dependency()?.dependency.maybe_specifier()
}

/// The module where a specifier leads along redirects, or what stands where its types do; or the error in
/// its place.
pub(crate) fn try_get_prefer_types<'a>(
    graph: &'a ModuleGraph,
    specifier: &ModuleSpecifier,
) -> Result<Option<&'a Module>, &'a ModuleError>
    ensures { tried_copied result ≡ tried_types graph.now specifier.now }
{
    match graph.try_get(specifier) {
        Err(error) => Err(error),
        Ok(None) => Ok(None),
        Ok(Some(found)) => match resolved_types(found) {
            None => Ok(Some(found)),
            Some(types) => graph.try_get(types),
        },
    }
}

// Where a specifier leads, where a module stands there.
fn module_place<'a>(
    graph: &'a ModuleGraph,
    specifier: &'a ModuleSpecifier,
) -> Option<&'a ModuleSpecifier>
    ensures { option_copied result ≡ module_place graph.now specifier.now }
{
    if graph.contains(specifier) {
        Some(graph.resolve(specifier))
    } else {
        None
    }
}

fn types_place<'a>(graph: &'a ModuleGraph, found: &'a Module) -> Option<&'a ModuleSpecifier>
    ensures { option_copied result ≡ types_place graph.now found.now }
{
    match resolved_types(found) {
        None => None,
        Some(types) => module_place(graph, types),
    }
}

// Where a target leads, where a module stands there.
fn target_place<'a>(
    graph: &'a ModuleGraph,
    target: &'a ModuleSpecifier,
    prefer_types: bool,
) -> Option<&'a ModuleSpecifier>
    ensures { option_copied result ≡ target_place graph.now prefer_types target.now }
{
    let found = graph.get(target)?;
    if prefer_types {
        if let Some(place) = types_place(graph, found) {
            return Some(place);
        }
    }
    Some(graph.resolve(target))
}

fn wished_target(dependency: &Dependency, prefer_types: bool) -> Option<&ModuleSpecifier>
    ensures { option_copied result ≡ wished_target prefer_types dependency.now }
{
    let (first, second) = if prefer_types {
        (&dependency.maybe_type, &dependency.maybe_code)
    } else {
        (&dependency.maybe_code, &dependency.maybe_type)
    };
    match first.maybe_specifier() {
        Some(target) => Some(target),
        None => second.maybe_specifier(),
    }
}

/// Where a dependency leads, where a module stands there.
pub(crate) fn dependency_place<'a>(
    graph: &'a ModuleGraph,
    dependency: &'a Dependency,
    prefer_types: bool,
) -> Option<&'a ModuleSpecifier>
    ensures { option_copied result ≡ dependency_place graph.now prefer_types dependency.now }
{
    let target = wished_target(dependency, prefer_types)?;
    target_place(graph, target, prefer_types)
}

fn place_among<'a>(
    graph: &'a ModuleGraph,
    text: &str,
    dependencies: &'a TextMap<Dependency>,
    prefer_types: bool,
) -> Option<&'a ModuleSpecifier>
    ensures { option_copied result ≡ place_among graph.now prefer_types text.now dependencies.now }
{
    let dependency = dependencies.get(text)?;
    dependency_place(graph, dependency, prefer_types)
}

/// Where the text of a module's import leads, where a module stands there.
pub(crate) fn place_from_module<'a>(
    graph: &'a ModuleGraph,
    text: &str,
    referring: &'a Module,
    prefer_types: bool,
) -> Option<&'a ModuleSpecifier>
    ensures { option_copied result
        ≡ place_from_module graph.now prefer_types text.now referring.now }
{
    let dependencies = referring.dependencies()?;
    place_among(graph, text, dependencies, prefer_types)
}

// Where the text of an import leads that is configured at a referrer.
fn place_from_imports<'a>(
    graph: &'a ModuleGraph,
    text: &str,
    referrer: &ModuleSpecifier,
    prefer_types: bool,
) -> Option<&'a ModuleSpecifier>
    ensures { option_copied result
        ≡ place_from_imports graph.now prefer_types text.now referrer.now }
{
    let import = graph.imports.as_map().get(referrer)?;
    place_among(graph, text, &import.dependencies, prefer_types)
}

/// Where the text of an import of a referrer leads, where a module stands there.
pub(crate) fn place_from<'a>(
    graph: &'a ModuleGraph,
    text: &str,
    referrer: &ModuleSpecifier,
    prefer_types: bool,
) -> Option<&'a ModuleSpecifier>
    ensures { option_copied result ≡ place_from graph.now prefer_types text.now referrer.now }
{
    match graph.get(referrer) {
        Some(referring) => place_from_module(graph, text, referring, prefer_types),
        None => place_from_imports(graph, text, graph.resolve(referrer), prefer_types),
    }
}
