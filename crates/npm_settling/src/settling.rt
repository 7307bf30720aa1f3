// `npm:` specifiers that waited for the end of a build: an npm resolver is asked about their requirements, and each specifier without a slot
// gets the module of npm that it names, or the error of its requirement.
ghost use Rattle.std.specs.Prelude.{◌≡◌, ◌||◌, [], find, not, option_copied, true, zip, IfOk, OnOk, IfSome};
ghost use Rattle.std.specs.List.{list_any};
ghost use Rattle.npm_resolver.specs.Results.{listed_result, same_requirement};
ghost use Rattle.graph_core.specs.Npm.{dynamic_npm, is_none, listed_npm, npm_put, npm_put_all, npm_requirements, static_npm, with_requirement, ArePut, AreSettledTogether, IsNpmSettled, IsStaticAnswer, npm_result, npm_slot, whole_result};

use graph_core::{Module, ModuleGraph, ModuleLoadError, ModuleSlot, NpmModule};
use module_slots::{NpmLoad, failure_slot};
use npm_resolver::{NpmResolvePkgReqsResult, NpmResolver};
use semver_npm::{NpmLoadError, PackageReq};
use spec_base::{Fault, Items, Queue, SpecifierSet, Text};
use std::alloc::{AllocError, Global};
use std::collections::BTreeSet;
use std::mem;

// Those that wait: the ones that aren't met behind a dynamic import, by their questions' flag, and those that are, each in order.
#[derive(Drop)]
struct Parted {
    statics: Vec<NpmLoad>,
    dynamics: Vec<NpmLoad>,
}

impl Parted {
    // Whether the graph of all packages is asked about.
    fn asks_graph(&self) -> bool
        ensures { result
            ≡ not (is_none self.now.statics.items) || is_none self.now.dynamics.items }
    {
        !self.statics.is_empty() || self.dynamics.is_empty()
    }
}

// What was answered about requirements that were asked for at once.
#[derive(Drop)]
struct StaticAnswer {
    results: Vec<(PackageReq, Result<(), NpmLoadError>)>,
    // That of the graph of all packages.
    graph: Result<(), Fault>,
}

// The slot that it gets by the result of its requirement.
fn slot(
    alloc: Global,
    item: &NpmLoad,
    resolved: Result<(), NpmLoadError>,
) -> Result<ModuleSlot, AllocError>
    ensures { IfOk result (λ slot. slot
        ≡ npm_slot item.now.specifier item.now.context item.now.reference resolved) }
{
    match resolved {
        Ok(()) => {
            let specifier = item.specifier.clone()?;
            let pkg_req_ref = item.reference.try_clone()?;
            Ok(ModuleSlot::Module(Module::Npm(NpmModule {
                specifier,
                pkg_req_ref,
            })))
        }
        Err(error) => {
            let err = ModuleLoadError::Npm(error);
            failure_slot(alloc, &item.specifier, &item.context, err)
        }
    }
}

// It gets its slot, where none stands.
fn put(
    alloc: Global,
    graph: &mut ModuleGraph,
    item: &NpmLoad,
    resolved: Result<(), NpmLoadError>,
) -> Result<(), AllocError>
    ensures { OnOk result (graph.new ≡ npm_put graph.old (item.now, resolved)) }
{
    if graph.has_slot(&item.specifier) {
        drop(resolved);
        return Ok(());
    }
    let slot = slot(alloc, item, resolved)?;
    let key = item.specifier.clone()?;
    graph.store_slot(key, slot)?;
    Ok(())
}

// Those that wait, by whether they are met behind a dynamic import.
fn part(alloc: Global, waiting: Queue<NpmLoad>) -> Result<Parted, AllocError>
    ensures statics { IfOk result (λ p. p.statics.items ≡ static_npm waiting) }
    ensures dynamics { IfOk result (λ p. p.dynamics.items ≡ dynamic_npm waiting) }
{
    let mut waiting = waiting;
    let mut statics = Vec::new(alloc);
    let mut dynamics = Vec::new(alloc);
    while let Some(item) = waiting.pop_front() {
        if item.context.is_dynamic {
            dynamics.push(item)?;
        } else {
            statics.push(item)?;
        }
    }
    Ok(Parted { statics, dynamics })
}

// A resolver hears the name of each package that is waited for, once.
fn tell_names<N: NpmResolver>(
    resolver: &N,
    told: &mut BTreeSet<Text>,
    items: &[NpmLoad],
) -> Result<(), AllocError> {
    for item in items {
        let name = &item.reference.req().name;
        if told.insert(name.clone()?)? {
            resolver.load_and_cache_npm_package_info(name.as_str());
        }
    }
    Ok(())
}

// Whether a requirement is among some.
fn has_requirement(reqs: &[PackageReq], req: &PackageReq) -> bool
    ensures { result ≡ list_any (same_requirement req.now) reqs.now }
{
    reqs.iter().any(|known| req == known)
}

// A requirement is put behind others, unless it is among them.
fn add_requirement(reqs: &mut Vec<PackageReq>, req: &PackageReq) -> Result<(), AllocError>
    ensures { OnOk result (reqs.new.items ≡ with_requirement reqs.old.items req.now) }
{
    if has_requirement(reqs, req) {
        return Ok(());
    }
    reqs.push(req.clone()?)?;
    Ok(())
}

// The requirements of those that wait, each once, in order.
fn requirements(alloc: Global, items: &[NpmLoad]) -> Result<Vec<PackageReq>, AllocError>
    ensures { IfOk result (λ reqs. reqs.items ≡ npm_requirements items.now) }
{
    let mut reqs = Vec::new(alloc);
    for item in items {
        add_requirement(&mut reqs, item.reference.req())?;
    }
    Ok(reqs)
}

// The results of an answer, and that of the graph of all packages.
fn parts_of(
    alloc: Global,
    answer: NpmResolvePkgReqsResult,
) -> (Items<Result<(), NpmLoadError>>, Result<(), Fault>)
    ensures results { result.0 ≡ answer.results }
    ensures graph { result.1 ≡ answer.dep_graph_result }
{
    let mut answer = answer;
    let results = mem::replace(&mut answer.results, Items::new(alloc));
    let graph = mem::replace(&mut answer.dep_graph_result, Ok(()));
    (results, graph)
}

// Requirements beside their results.
fn paired(
    alloc: Global,
    reqs: Vec<PackageReq>,
    results: Items<Result<(), NpmLoadError>>,
) -> Result<Vec<(PackageReq, Result<(), NpmLoadError>)>, AllocError>
    ensures { IfOk result (λ paired. paired.items ≡ zip reqs.items results) }
{
    reqs.into_iter()
        .zip(results.into_vec().into_iter())
        .collect(alloc)
}

// What a resolver says of the requirements of those that wait, each asked for once and all together.
fn ask_static<N: NpmResolver>(
    alloc: Global,
    resolver: &N,
    items: &[NpmLoad],
) -> Result<StaticAnswer, AllocError>
    ensures { IfOk result
        (λ answer. IfSome (N.table resolver.now)
        (λ t. IsStaticAnswer t items.now answer.results.items answer.graph)) }
{
    let reqs = requirements(alloc, items)?;
    let answer = resolver.resolve_pkg_reqs(alloc, &reqs)?;
    let (resolved, graph) = parts_of(alloc, answer);
    match paired(alloc, reqs, resolved) {
        Ok(results) => Ok(StaticAnswer { results, graph }),
        Err(error) => {
            drop(graph);
            Err(error)
        }
    }
}

// The first result that is listed for a requirement.
fn first_listed<'a>(
    results: &'a [(PackageReq, Result<(), NpmLoadError>)],
    req: &PackageReq,
) -> Option<&'a (PackageReq, Result<(), NpmLoadError>)>
    ensures { option_copied result ≡ find (λ e. same_requirement e.0 req.now) results.now }
{
    results.iter().find(|entry| entry.0 == *req)
}

// A copy of it; Ok where none is listed.
fn listed(
    results: &[(PackageReq, Result<(), NpmLoadError>)],
    req: &PackageReq,
) -> Result<Result<(), NpmLoadError>, AllocError>
    ensures { IfOk result (λ listed. listed ≡ listed_result results.now req.now) }
{
    match first_listed(results, req) {
        Some(entry) => entry.1.clone(),
        None => Ok(Ok(())),
    }
}

// Those that were asked for together get their slots.
fn put_static(
    alloc: Global,
    graph: &mut ModuleGraph,
    items: &[NpmLoad],
    results: &[(PackageReq, Result<(), NpmLoadError>)],
) -> Result<(), AllocError>
    ensures { OnOk result
        (graph.new ≡ npm_put_all graph.old (listed_npm results.now items.now)) }
{
    for item in items {
        let resolved = listed(results, item.reference.req())?;
        put(alloc, graph, item, resolved)?;
    }
    Ok(())
}

// The result of a requirement, where that of the graph of all packages counts as well.
fn whole_result(
    graph: Result<(), Fault>,
    resolved: Result<(), NpmLoadError>,
) -> Result<(), NpmLoadError>
    ensures { result ≡ whole_result graph resolved }
{
    match resolved {
        Err(error) => Err(error),
        Ok(()) => match graph {
            Ok(()) => Ok(()),
            Err(fault) => Err(NpmLoadError::PackageReqResolution(fault)),
        },
    }
}

// The result of a requirement that is asked for alone, where the graph of all packages counts as well.
fn ask_whole<N: NpmResolver>(
    alloc: Global,
    resolver: &N,
    req: &PackageReq,
) -> Result<Result<(), NpmLoadError>, AllocError>
    ensures { IfOk result
        (λ r. IfSome (N.table resolver.now) (λ t. r ≡ npm_result t req.now true)) }
{
    let mut reqs = Vec::new(alloc);
    reqs.push(req.clone()?)?;
    let answer = resolver.resolve_pkg_reqs(alloc, &reqs)?;
    let (results, graph) = parts_of(alloc, answer);
    match results.into_vec().pop() {
        Some(resolved) => Ok(whole_result(graph, resolved)),
        None => Ok(Ok(())),
    }
}

// Those that are asked for together get their slots, and the graph keeps the result of the graph of all packages.
fn settle_static<N: NpmResolver>(
    alloc: Global,
    graph: &mut ModuleGraph,
    resolver: &N,
    items: &[NpmLoad],
) -> Result<(), AllocError>
    ensures { OnOk result
        (AreSettledTogether (N.table resolver.now) graph.old items.now graph.new) }
{
    let StaticAnswer {
        results,
        graph: whole,
    } = ask_static(alloc, resolver, items)?;
    let before = mem::replace(&mut graph.npm_dep_graph_result, whole);
    drop(before);
    put_static(alloc, graph, items, &results)?;
    Ok(())
}

// Those behind dynamic imports get their slots: each specifier's requirement is asked for alone.
fn settle_dynamic<N: NpmResolver>(
    alloc: Global,
    graph: &mut ModuleGraph,
    resolver: &N,
    items: &[NpmLoad],
) -> Result<(), AllocError>
    ensures { OnOk result (ArePut (N.table resolver.now) true graph.old items.now graph.new) }
{
    let mut asked = SpecifierSet::new(alloc);
    for item in items {
        if asked.contains(&item.specifier) && graph.has_slot(&item.specifier) {
            continue;
        }
        asked.insert(item.specifier.clone()?)?;
        let resolved = ask_whole(alloc, resolver, item.reference.req())?;
        put(alloc, graph, item, resolved)?;
    }
    Ok(())
}

// A resolver hears the names of the packages that are waited for, each once.
fn tell_all_names<N: NpmResolver>(
    alloc: Global,
    resolver: &N,
    parted: &Parted,
) -> Result<(), AllocError> {
    let mut told = BTreeSet::new(alloc);
    tell_names(resolver, &mut told, &parted.statics)?;
    tell_names(resolver, &mut told, &parted.dynamics)?;
    Ok(())
}

/// Each `npm:` specifier that waits and has no slot gets one by what a resolver says of its requirement: its module, or an error.
///
/// The resolver hears the name of each package once. Then it is asked once for the requirements of those that aren't met behind a
/// dynamic import, each requirement once, and for each other specifier once more alone; there a failed graph of all packages is an error
/// too. The first question is left out where only specifiers behind dynamic imports wait; its result of the graph of all packages is kept.
/// The only refusal is want of memory.
pub fn settle_npm<N: NpmResolver>(
    alloc: Global,
    graph: &mut ModuleGraph,
    waiting: Queue<NpmLoad>,
    resolver: &N,
) -> Result<(), AllocError>
    ensures { OnOk result
        (IsNpmSettled (N.table resolver.now) waiting graph.old graph.new) }
{
    let parted = part(alloc, waiting)?;
    tell_all_names(alloc, resolver, &parted)?;
    if parted.asks_graph() {
        settle_static(alloc, graph, resolver, &parted.statics)?;
    }
    settle_dynamic(alloc, graph, resolver, &parted.dynamics)?;
    Ok(())
}
