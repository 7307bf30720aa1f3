// The graphs of world files, and changes that no build makes.
use crate::graph_changes::{check, lock, open, pin};
use graph_core::{
    Dependency, GraphImport, GraphKind, Module, ModuleErrorKind, ModuleGraph, ModuleSlot,
};
use graph_program::build_input;
use graph_tests::{read, url};
use graph_walk::WalkGraph;
use media_types::MediaType;
use spec_base::{Boxed, ModuleSpecifier, TextMap};
use std::alloc::Global;
use std::test::Fail;

// The graph of a world file.
fn built(alloc: Global, world: &str) -> Result<ModuleGraph, Fail> {
    let input = read(alloc, world)?.into_inner();
    let mut graph = ModuleGraph::new(alloc, input.kind);
    match build_input(alloc, input, &mut graph) {
        Ok(()) => Ok(graph),
        Err(_) => Err(Fail::new("no graph")),
    }
}

// The slot of a word; an error where the word names none, of a media that is supported nowhere.
fn slot(alloc: Global, word: &str, specifier: ModuleSpecifier) -> Result<ModuleSlot, Fail> {
    match word {
        "pending" => Ok(ModuleSlot::Pending { is_asset: false }),
        "asset" => Ok(ModuleSlot::Pending { is_asset: true }),
        _ => {
            let media_type = MediaType::from_specifier(&specifier);
            let kind = ModuleErrorKind::UnsupportedMediaType {
                specifier,
                media_type,
                maybe_referrer: None,
            };
            Ok(ModuleSlot::Err(kind.into_box(alloc)?))
        }
    }
}

/// The dependencies of the script at a specifier.
pub fn script_dependencies(
    graph: &ModuleGraph,
    specifier: &ModuleSpecifier,
) -> Result<TextMap<Dependency>, Fail> {
    match graph.slot(specifier) {
        Some(ModuleSlot::Module(Module::Js(script))) => Ok(script.dependencies.try_clone()?),
        _ => Err(Fail::new("no script")),
    }
}

// Makes the dependencies of a script configured imports, and takes the script out.
fn configure(graph: &mut ModuleGraph, referrer: ModuleSpecifier) -> Result<(), Fail> {
    let dependencies = script_dependencies(graph, &referrer)?;
    graph.clear_slot(&referrer);
    drop(
        graph
            .imports
            .insert(referrer, GraphImport { dependencies })?,
    );
    Ok(())
}

// Takes out a slot that stands.
fn remove(graph: &mut ModuleGraph, specifier: &ModuleSpecifier) -> Result<(), Fail> {
    let stands = graph.has_slot(specifier);
    let removed = graph.remove_slot(specifier);
    let is_removed = removed.is_some();
    drop(removed);
    if stands && is_removed {
        Ok(())
    } else {
        Err(Fail::new("nothing to remove"))
    }
}

fn redirect(
    alloc: Global,
    graph: &mut ModuleGraph,
    specifier: ModuleSpecifier,
    target: &str,
) -> Result<(), Fail> {
    let target = url(alloc, target)?;
    drop(graph.redirects.insert(specifier, target)?);
    Ok(())
}

fn put(
    alloc: Global,
    graph: &mut ModuleGraph,
    specifier: ModuleSpecifier,
    word: &str,
) -> Result<(), Fail> {
    let slot = slot(alloc, word, specifier.clone()?)?;
    graph.store_slot(specifier, slot)?;
    Ok(())
}

// Makes a change: `redirect NAME TARGET`, `imports NAME` where a script's dependencies become configured imports, `removed NAME`,
// `open NAME` and `checked NAME LEFT` (`graph_changes.rt`), or the slot `pending NAME`, `asset NAME` of a pending asset,
// `unsupported NAME`.
fn change(
    alloc: Global,
    graph: &mut ModuleGraph,
    word: &str,
    specifier: ModuleSpecifier,
    rest: &str,
) -> Result<(), Fail> {
    match word {
        "redirect" => redirect(alloc, graph, specifier, rest),
        "imports" => configure(graph, specifier),
        "removed" => remove(graph, &specifier),
        "open" => open(alloc, graph, specifier),
        "checked" => check(alloc, graph, specifier, rest),
        _ => put(alloc, graph, specifier, word),
    }
}

// Makes a change of the whole graph: `pruned` without types, `code` of that kind, `locked FROM TO` and `pinned VERSION REGISTRY NAME
// REQUIREMENT` what a lockfile says; or one at a name.
fn change_by(alloc: Global, graph: &mut ModuleGraph, line: &str) -> Result<(), Fail> {
    match line.split_once(" ") {
        None if line == "pruned" => {
            graph.prune_types(alloc)?;
            Ok(())
        }
        None => {
            graph.set_graph_kind(GraphKind::CodeOnly);
            Ok(())
        }
        Some(("locked", texts)) => lock(alloc, graph, texts),
        Some(("pinned", texts)) => pin(alloc, graph, texts),
        Some((word, names)) => {
            let (name, rest) = names.split_once(" ").unwrap_or((names, ""));
            change(alloc, graph, word, url(alloc, name)?, rest)
        }
    }
}

// The graph of a text: a world file, and behind ` & ` the changes, with `, ` between.
fn changed(alloc: Global, text: &str) -> Result<ModuleGraph, Fail> {
    let Some((world, changes)) = text.split_once(" & ") else {
        return built(alloc, text);
    };
    let mut graph = built(alloc, world)?;
    for line in changes.split(", ") {
        change_by(alloc, &mut graph, line)?;
    }
    Ok(graph)
}

/// The graph of a text, to read.
pub fn graph_of(alloc: Global, text: &str) -> Result<Boxed<ModuleGraph>, Fail> {
    let graph = changed(alloc, text)?;
    Ok(Boxed::new(alloc, graph)?)
}
