// What a graph knows without a walk: where specifiers and the texts of imports lead, and what its slots and modules tell of themselves.
use graph_core::{Dependency, Module, ModuleGraph, ModuleSlot};
use graph_tests::{first_line, url};
use graph_walk::WalkGraph;
use media_types::MediaType;
use spec_base::{Boxed, ModuleSpecifier, Position, Range};
use std::alloc::Global;
use std::test::Fail;

/// Where a name leads along redirects, and what stands there.
pub fn resolved(alloc: Global, graph: &ModuleGraph, name: &str) -> Result<String, Fail> {
    let asked = url(alloc, name)?;
    let leads = graph.resolve(&asked);
    let has = graph.contains(&asked) && graph.get(&asked).is_some();
    match graph.try_get(&asked) {
        Ok(Some(module)) => Ok(format!(in alloc; "{leads} has {} {has}", module.specifier())?),
        Ok(None) => Ok(format!(in alloc; "{leads} has nothing {has}")?),
        Err(error) => {
            let error = first_line(alloc, error)?;
            Ok(format!(in alloc; "{leads} fails: {error} {has}")?)
        }
    }
}

fn text_of(found: Option<&ModuleSpecifier>) -> &str {
    match found {
        Some(specifier) => specifier.as_str(),
        None => "none",
    }
}

/// Where a text of a referrer leads for code, and where with a wish for types.
pub fn led(alloc: Global, graph: &ModuleGraph, rest: &str) -> Result<String, Fail> {
    let (text, referrer) = rest.split_once(" ").unwrap_or((rest, ""));
    let referrer = url(alloc, referrer)?;
    let code = text_of(graph.resolve_dependency(text, &referrer, false));
    let types = text_of(graph.resolve_dependency(text, &referrer, true));
    Ok(format!(in alloc; "{code} {types}")?)
}

/// The module that stands at a name, or that of its types.
pub fn preferred(alloc: Global, graph: &ModuleGraph, name: &str) -> Result<String, Fail> {
    let specifier = url(alloc, name)?;
    let found = match graph.try_get_prefer_types(&specifier) {
        Ok(Some(found)) => found.specifier().as_str(),
        Ok(None) => "none",
        Err(_) => "error",
    };
    Ok(String::from_str(alloc, found)?)
}

/// How many slots, redirects and configured imports there are, the modules, where each leads by its first dependency, and how many
/// errors.
pub fn counted(alloc: Global, graph: &ModuleGraph) -> Result<String, Fail> {
    let mut text = format!(in alloc; "{}:", graph.specifiers_count())?;
    for module in graph.modules() {
        text.push_str(format!(in alloc; " {}", module.specifier())?.as_str())?;
        text.push_str(first_led(graph, module))?;
    }
    let mut errors: usize = 0;
    for _error in graph.module_errors() {
        errors = errors.saturating_add(1);
    }
    text.push_str(format!(in alloc; " {errors}")?.as_str())?;
    Ok(text)
}

// An arrow where the first dependency of a module leads to a module, by itself and by its text.
fn first_led(graph: &ModuleGraph, module: &Module) -> &'static str {
    let Some(dependencies) = module.dependencies() else {
        return "";
    };
    let Some((text, dependency)) = dependencies.as_map().as_slice().first() else {
        return "";
    };
    let led = graph.resolve_dependency_from_dep(dependency, false);
    if led.is_some() && led == graph.resolve_dependency_from_module(text.as_str(), module, false) {
        ">"
    } else {
        "|"
    }
}

/// What stands at slots and redirects: a module or an error.
pub fn known(alloc: Global, graph: &ModuleGraph) -> Result<String, Fail> {
    let mut text = String::new(alloc);
    for (specifier, found) in graph.specifiers() {
        let word = if found.is_ok() { "module" } else { "error" };
        text.push_str(format!(in alloc; "{specifier} {word}; ")?.as_str())?;
    }
    Ok(text)
}

/// Where the assets of a graph stand.
pub fn assets(alloc: Global, graph: &ModuleGraph) -> Result<String, Fail> {
    let mut text = String::new(alloc);
    let urls = graph.asset_module_urls(alloc)?;
    for url in urls.as_slice() {
        text.push_str(url.as_str())?;
        text.push_str(" ")?;
    }
    Ok(text)
}

fn marks(slot: &ModuleSlot) -> &'static str {
    match (
        slot.is_pending(),
        slot.is_pending_asset_load(),
        slot.was_external_asset_load(),
    ) {
        (false, false, false) => "-",
        (true, false, false) => "pending",
        (true, true, false) => "pending-asset",
        (false, false, true) => "external-asset",
        _ => "contradiction",
    }
}

/// Each slot, in order, with what a copy of it tells of itself.
pub fn marked(alloc: Global, graph: &ModuleGraph) -> Result<String, Fail> {
    let mut text = String::new(alloc);
    for (specifier, slot) in graph.slots() {
        let copy = Boxed::new(alloc, slot.try_clone()?)?;
        let marks = marks(copy.get());
        text.push_str(format!(in alloc; "{specifier} {marks}; ")?.as_str())?;
    }
    Ok(text)
}

// The module at a name.
fn module_at<'a>(alloc: Global, graph: &'a ModuleGraph, name: &str) -> Result<&'a Module, Fail> {
    match graph.slot(&url(alloc, name)?) {
        Some(ModuleSlot::Module(module)) => Ok(module),
        _ => Err(Fail::new("no module")),
    }
}

// The first dependency of a module.
fn first(module: &Module) -> Result<&Dependency, Fail> {
    match module.dependencies() {
        None => Err(Fail::new("no dependencies")),
        Some(dependencies) => match dependencies.as_map().as_slice().first() {
            None => Err(Fail::new("no dependency")),
            Some((_text, dependency)) => Ok(dependency),
        },
    }
}

// The first column of a range; 99 without one.
fn column(range: Option<&Range>) -> usize {
    match range {
        Some(range) => range.range.start.character,
        None => 99,
    }
}

/// The columns of what the first dependency of a module has at a line and a column: of its code, and of all.
pub fn placed(alloc: Global, graph: &ModuleGraph, rest: &str) -> Result<String, Fail> {
    let (name, place) = rest.split_once(" ").unwrap_or((rest, ""));
    let (line, character) = place.split_once(":").unwrap_or((place, ""));
    let line = line.parse::<usize>().unwrap_or(0);
    let place = Position::new(line, character.parse::<usize>().unwrap_or(0));
    let dependency = first(module_at(alloc, graph, name)?)?;
    let code = column(dependency.maybe_code.includes(place));
    let whole = column(dependency.includes(place));
    Ok(format!(in alloc; "{code} {whole}")?)
}

// Whether a dependency and the target of its code are copied.
fn is_copied(dependency: &Dependency) -> Result<bool, Fail> {
    let Some(resolved) = dependency.maybe_code.ok() else {
        return Ok(false);
    };
    Ok(dependency.try_clone()? == *dependency && resolved.try_clone()? == *resolved)
}

/// Where the code and the types of the first dependency of a module lead, where the module's types stand, and whether these are copied.
pub fn named(alloc: Global, graph: &ModuleGraph, name: &str) -> Result<String, Fail> {
    let module = module_at(alloc, graph, name)?;
    let dependency = first(module)?;
    let Some(types) = module.maybe_types_dependency() else {
        return Err(Fail::new("no types"));
    };
    let copied = is_copied(dependency)? && types.try_clone()? == *types;
    let code = text_of(dependency.get_code());
    let own = text_of(dependency.get_type());
    let types = text_of(types.dependency.maybe_specifier());
    Ok(format!(in alloc; "{code} {own} {types} {copied}")?)
}

/// The size and the declaration of a module of WebAssembly, by its copy, and whether it has what only others have.
pub fn declared(alloc: Global, graph: &ModuleGraph, name: &str) -> Result<String, Fail> {
    let module = module_at(alloc, graph, name)?;
    let Module::Wasm(wasm) = module else {
        return Err(Fail::new("another module"));
    };
    let copy = Boxed::new(alloc, wasm.try_clone()?)?;
    let is_copied = copy.get().source.as_slice() == wasm.source.as_slice();
    let is_other = module.source().is_some()
        || module.js().is_some()
        || module.json().is_some()
        || module.media_type() != MediaType::Wasm;
    Ok(format!(in alloc;
        "{} {} {is_copied} {is_other}",
        wasm.size(),
        copy.get().source_dts.as_str().trim_end()
    )?)
}

// Whether a module has what one of npm hasn't.
fn has_more(module: &Module) -> bool {
    module.js().is_some()
        || module.json().is_some()
        || module.node().is_some()
        || module.external().is_some()
        || module.source().is_some()
        || module.dependencies().is_some()
        || module.dependencies_prefer_fast_check().is_some()
        || module.maybe_types_dependency().is_some()
        || module.mtime().is_some()
}

/// What the package of npm at a name is told to be, by its copy, its media, and whether it has what only others have.
pub fn packaged(alloc: Global, graph: &ModuleGraph, name: &str) -> Result<String, Fail> {
    let module = module_at(alloc, graph, name)?;
    let Some(npm) = module.npm() else {
        return Err(Fail::new("another module"));
    };
    let copy = Boxed::new(alloc, npm.try_clone()?)?;
    let named = &copy.get().pkg_req_ref;
    let media_type = module.media_type();
    let path = named.sub_path().unwrap_or("-");
    let specifier = &copy.get().specifier;
    Ok(format!(in alloc;
        "{specifier} {} {path} {media_type} {}",
        named.req(),
        has_more(module)
    )?)
}

// The first text among a module's preferred dependencies.
fn first_text(found: &Module) -> &str {
    match found.dependencies_prefer_fast_check() {
        None => "",
        Some(dependencies) => match dependencies.as_map().as_slice().first() {
            None => "",
            Some((text, _)) => text.as_str(),
        },
    }
}

// What a fast check found of a module.
fn outcome(found: &Module) -> &'static str {
    match found.js() {
        None => "",
        Some(script) => match (script.fast_check_module(), script.fast_check_diagnostics()) {
            (Some(_), _) => " found",
            (None, Some(diagnostics)) if diagnostics.len() == 1 => " refused",
            (None, Some(_)) => " many",
            (None, None) => "",
        },
    }
}

/// The first preferred text of each module of a copy of the graph, and what a fast check found.
pub fn checked(alloc: Global, graph: &ModuleGraph) -> Result<String, Fail> {
    let copy = Boxed::new(alloc, graph.try_clone()?)?;
    let mut text = String::new(alloc);
    for found in copy.get().modules() {
        text.push_str(first_text(found))?;
        text.push_str(outcome(found))?;
        text.push_str("; ")?;
    }
    Ok(text)
}
