// What builds and reloads ask, and what is known then.
//
// A text has calls with a line `+` between, which are made over one graph: a world whose roots are built, or `reload ` and a world whose
// roots are loaded again. Of each call the questions stand in order, a line each (`listing.rt`), and then how it ended, the number of
// package versions whose file was read, and the sums that a locker knows, where there is one.
ghost use Rattle.std.specs.Prelude.{◌≡◌, [], IfOk};
ghost use Rattle.source_io.specs.Loaders.{open_in};

use crate::ended::{Ended, Left};
use crate::listing::Listing;
use build_options::BuildOptions;
use graph_builder::{BuildFault, BuildGraph};
use graph_core::{GraphKind, ModuleGraph};
use graph_printing::graph_text;
use graph_reloads::ReloadGraph;
use graph_walk::WalkGraph;
use metadata_store::JsrMetadataStore;
use program_phases::{Tellers, locker_of};
use slot_making::WorldServices;
use source_io::{HashMapLocker, WorldLoader};
use std::alloc::{AllocError, Global};
use world_file::{Input, world_of};

// The input that a text is, by its copy.
fn read(alloc: Global, text: &str) -> Result<Left<Input>, Ended> {
    let input = Left::new(world_of(alloc, text.as_bytes())?);
    Ok(Left::new(input.try_clone()?))
}

// A loader over a copy of the world of an input, by its order of arrival.
fn loader_of(alloc: Global, input: &Input) -> Result<WorldLoader, AllocError>
    ensures opened { IfOk result (λ l. open_in l ≡ []) }
{
    let arrival = input.arrival.try_clone()?;
    let fail_next = input.fail_next.try_clone()?;
    let world = input.world.try_clone()?;
    WorldLoader::new(alloc, world, arrival.into_vec(), fail_next.into_vec())
}

fn ending_word(done: Result<(), BuildFault>) -> &'static str {
    match done {
        Ok(()) => "ok\n",
        Err(BuildFault::Budget) => "budget\n",
        Err(BuildFault::Loader) => "loader\n",
        Err(BuildFault::Memory) => "memory\n",
    }
}

// Builds what an input begins with over a graph.
fn push_built(
    alloc: Global,
    lines: &mut String,
    graph: &mut ModuleGraph,
    input: &Input,
    options: &mut BuildOptions<'_, WorldServices>,
) -> Result<(), AllocError> {
    let roots = input.roots.try_clone()?.into_vec();
    let imports = input.imports.try_clone()?.into_vec();
    let mut loader = Listing::new(alloc, loader_of(alloc, input)?);
    let done = graph.build(alloc, roots, imports, &mut loader, options);
    lines.push_str(loader.into_lines().as_str())?;
    lines.push_str(ending_word(done))
}

// Loads the roots of an input again.
fn push_reloaded(
    alloc: Global,
    lines: &mut String,
    graph: &mut ModuleGraph,
    input: &Input,
    options: &mut BuildOptions<'_, WorldServices>,
) -> Result<(), AllocError> {
    let roots = input.roots.try_clone()?.into_vec();
    let mut loader = Listing::new(alloc, loader_of(alloc, input)?);
    let done = graph.reload(alloc, roots, &mut loader, options);
    lines.push_str(loader.into_lines().as_str())?;
    lines.push_str(ending_word(done))
}

// What a locker knows, a line for each sum, in no order.
fn known(alloc: Global, locker: &HashMapLocker) -> Result<Vec<String>, AllocError> {
    let mut known = Vec::new(alloc);
    for (package_nv, sum) in locker.pkg_manifests().iter() {
        known.push(format!(in alloc; "manifest {package_nv} {sum}\n")?)?;
    }
    for (specifier, sum) in locker.remote().iter() {
        known.push(format!(in alloc; "sum {specifier} {sum}\n")?)?;
    }
    Ok(known)
}

fn push_known(
    alloc: Global,
    lines: &mut String,
    locker: &Option<HashMapLocker>,
) -> Result<(), AllocError> {
    let Some(locker) = locker else {
        return Ok(());
    };
    let mut known = known(alloc, locker)?;
    known.sort()?;
    for line in known.as_slice() {
        lines.push_str(line.as_str())?;
    }
    Ok(())
}

fn push_versions(alloc: Global, lines: &mut String, graph: &ModuleGraph) -> Result<(), AllocError> {
    let versions = graph.packages.packages_len();
    let line = Left::new(format!(in alloc; "versions {versions}\n")?);
    lines.push_str(line.as_str())
}

// Makes a call over a graph by what the world of its input tells.
fn push_call(
    alloc: Global,
    lines: &mut String,
    graph: &mut ModuleGraph,
    input: &Input,
    is_reload: bool,
) -> Result<(), AllocError> {
    let tellers = Left::new(Tellers::new(alloc, input)?);
    let locker = locker_of(alloc, input)?;
    let mut options = Left::new(tellers.options(locker, &input.settings, input.max_loads));
    graph.set_graph_kind(input.kind);
    if is_reload {
        push_reloaded(alloc, lines, graph, input, &mut *options)?;
    } else {
        push_built(alloc, lines, graph, input, &mut *options)?;
    }
    push_versions(alloc, lines, graph)?;
    push_known(alloc, lines, &options.locker)
}

// What a call loads again, or what it builds.
fn world_in(call: &str) -> (bool, &str) {
    match call.strip_prefix("reload ") {
        Some(world) => (true, world),
        None => (false, call),
    }
}

// Makes the calls of a text over a graph.
fn push_calls(
    alloc: Global,
    lines: &mut String,
    graph: &mut ModuleGraph,
    text: &str,
) -> Result<(), Ended> {
    for call in text.split("\n+\n") {
        let (is_reload, world) = world_in(call);
        let input = read(alloc, world)?;
        push_call(alloc, lines, graph, &*input, is_reload)?;
    }
    Ok(())
}

/// What the calls of a text ask, and how they end.
pub fn asked(alloc: Global, text: &str) -> Result<String, Ended> {
    let mut graph = Left::new(ModuleGraph::new(alloc, GraphKind::All));
    let mut lines = String::new(alloc);
    push_calls(alloc, &mut lines, &mut *graph, text)?;
    Ok(lines)
}

// A line without how many questions are open, where it says so.
fn without_open(line: &str) -> &str {
    match line.split_once(" ") {
        Some((open, rest)) if open.parse::<u64>().is_ok() => rest,
        _ => line,
    }
}

/// The same, without how many questions are open at each: so it is alike whatever order answers arrive in.
pub fn questions(alloc: Global, text: &str) -> Result<String, Ended> {
    let listed = Left::new(asked(alloc, text)?);
    let mut lines = String::new(alloc);
    for line in listed.as_str().lines() {
        lines.push_str(without_open(line))?;
        lines.push_str("\n")?;
    }
    Ok(lines)
}

fn push_count(alloc: Global, lines: &mut String, graph: &ModuleGraph) -> Result<(), AllocError> {
    let known = graph.specifiers_count();
    let line = Left::new(format!(in alloc; "specifiers {known}\n")?);
    lines.push_str(line.as_str())
}

fn push_graph(alloc: Global, lines: &mut String, graph: &ModuleGraph) -> Result<(), AllocError> {
    let shown = Left::new(graph_text(alloc, graph)?);
    lines.push_str(shown.as_str())
}

/// What the calls of a text ask, how they end, and the graph that they leave: how many specifiers it knows, and its text.
pub fn left(alloc: Global, text: &str) -> Result<String, Ended> {
    let mut graph = Left::new(ModuleGraph::new(alloc, GraphKind::All));
    let mut lines = String::new(alloc);
    push_calls(alloc, &mut lines, &mut *graph, text)?;
    push_count(alloc, &mut lines, &*graph)?;
    push_graph(alloc, &mut lines, &*graph)?;
    Ok(lines)
}

// Builds the graph of an input by a store of a registry's answers, and gives the store back.
fn push_stored(
    alloc: Global,
    lines: &mut String,
    input: &Input,
    store: Option<JsrMetadataStore>,
) -> Result<Option<JsrMetadataStore>, AllocError> {
    let tellers = Left::new(Tellers::new(alloc, input)?);
    let mut options = Left::new(tellers.options(None, &input.settings, input.max_loads));
    options.jsr_metadata_store = store;
    let mut graph = Left::new(ModuleGraph::new(alloc, input.kind));
    push_built(alloc, lines, &mut *graph, input, &mut *options)?;
    push_graph(alloc, lines, &*graph)?;
    Ok(options.jsr_metadata_store.take())
}

// Adds of how many files a store knows the answers.
fn push_answers(
    alloc: Global,
    lines: &mut String,
    store: &Option<JsrMetadataStore>,
) -> Result<(), AllocError> {
    if let Some(store) = store {
        let answers = store.len();
        let line = Left::new(format!(in alloc; "answers {answers}\n")?);
        lines.push_str(line.as_str())?;
    }
    Ok(())
}

/// What the builds of worlds ask, each of which makes a graph of its own, and which are given one store of a registry's answers, empty at
/// first; the graph that each leaves, and of how many files the store knows the answers then.
pub fn stored(alloc: Global, text: &str) -> Result<String, Ended> {
    let mut store = Left::new(Some(JsrMetadataStore::new(alloc)));
    let mut lines = String::new(alloc);
    for world in text.split("\n+\n") {
        let input = read(alloc, world)?;
        *store = push_stored(alloc, &mut lines, &*input, store.take())?;
        push_answers(alloc, &mut lines, &*store)?;
    }
    Ok(lines)
}
