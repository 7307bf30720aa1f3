// A part of a graph, as a graph of its own.
ghost use Rattle.std.specs.Prelude.{◌≡◌, false, OnOk, IfOk};
ghost use Rattle.spec_base.specs.Specifier.{specifier_text};
ghost use Rattle.graph_walk.specs.EntryValue.{entry_value};
ghost use Rattle.graph_walk.specs.Options.{how};
ghost use Rattle.graph_walk.specs.Segment.{put_entry, put_entries, each_root, segment_start, segment_how, walked_part, are_roots, segment_of, IsSegment};
ghost use Rattle.graph_walk.specs.Order.{rest, texts};

use crate::options::{AllCheckJs, CheckJsOption, CheckJsResolver, WalkOptions};
use crate::walk::{ModuleEntryIterator, ModuleEntryRef, walk_from};
use graph_core::{ModuleGraph, ModuleSlot};
use spec_base::{ModuleSpecifier, SpecifierSet};
use std::alloc::{AllocError, Global};

fn put_entry(
    graph: &mut ModuleGraph,
    specifier: &ModuleSpecifier,
    entry: ModuleEntryRef<'_>,
) -> Result<(), AllocError>
    ensures { OnOk result
        (graph.new ≡ put_entry graph.old (specifier_text specifier.now) (entry_value entry.entry)) }
{
    let key = specifier.clone()?;
    match entry {
        ModuleEntryRef::Module(found) => {
            let copy = found.try_clone()?;
            graph.store_slot(key, ModuleSlot::Module(copy))?;
            Ok(())
        }
        ModuleEntryRef::Err(error) => {
            let copy = error.try_clone()?;
            graph.store_slot(key, ModuleSlot::Err(copy))?;
            Ok(())
        }
        ModuleEntryRef::Redirect(target) => {
            let copy = target.clone()?;
            graph.redirects.insert(key, copy)?;
            Ok(())
        }
    }
}

#[tactic(auto, unfolding(crate::specs::Segment::put_entries))]
fn put_entries<'a, C: CheckJsResolver>(
    graph: &mut ModuleGraph,
    mut walk: ModuleEntryIterator<'a, '_, C>,
) -> Result<(), AllocError>
    ensures { OnOk result (graph.new ≡ put_entries graph.old (rest (how C.resolves) walk.entry)) }
{
    while let Some((specifier, entry)) = walk.advance() {
        put_entry(graph, specifier, entry)?;
    }
    Ok(())
}

fn each_root(alloc: Global, roots: &[ModuleSpecifier]) -> Result<SpecifierSet, AllocError>
    ensures { IfOk result (λ s. s ≡ each_root roots.now) }
{
    let mut set = SpecifierSet::new(alloc);
    for root in roots {
        let root = root.clone()?;
        set.insert(root)?;
    }
    Ok(set)
}

// The graph of these roots that has no slot and no redirect.
fn segment_start(
    alloc: Global,
    graph: &ModuleGraph,
    roots: &[ModuleSpecifier],
) -> Result<ModuleGraph, AllocError>
    ensures { IfOk result (λ g. g ≡ segment_start graph.now roots.now) }
{
    let mut segment = ModuleGraph::new(alloc, graph.graph_kind());
    segment.roots = each_root(alloc, roots)?;
    segment.imports = graph.imports.try_clone()?;
    segment.has_node_specifier = graph.has_node_specifier;
    segment.packages = graph.packages.try_clone()?;
    Ok(segment)
}

// What the walk from these roots over a graph gives, as a graph of these roots.
fn walked_part(
    alloc: Global,
    graph: &ModuleGraph,
    roots: &[ModuleSpecifier],
) -> Result<ModuleGraph, AllocError>
    ensures whole { IfOk result (λ g. g ≡ walked_part graph.now roots.now) }
    ensures exact { IfOk result (IsSegment graph.now (segment_how graph.now) (texts roots.now)) }
{
    let options: WalkOptions<'_, AllCheckJs> = WalkOptions {
        check_js: CheckJsOption::True,
        follow_dynamic: true,
        kind: graph.graph_kind(),
        prefer_fast_check_graph: false,
    };
    let walk = walk_from(alloc, graph, roots, options)?;
    let mut segment = segment_start(alloc, graph, roots)?;
    put_entries(&mut segment, walk)?;
    Ok(segment)
}

// Whether each of these roots is a root of the graph.
fn are_roots(graph: &ModuleGraph, roots: &[ModuleSpecifier]) -> bool
    ensures { result ≡ are_roots graph.now roots.now }
{
    roots.iter().all(|root| graph.roots.contains(root))
}

/// A copy of the graph where all of these roots are its own; else what the walk from them gives, as a graph of these roots.
pub(crate) fn segment_from(
    alloc: Global,
    graph: &ModuleGraph,
    roots: &[ModuleSpecifier],
) -> Result<ModuleGraph, AllocError>
    ensures whole { IfOk result (λ g. g ≡ segment_of graph.now roots.now) }
    ensures exact { IfOk result
        (λ g. are_roots graph.now roots.now ≡ false
        → IsSegment graph.now (segment_how graph.now) (texts roots.now) g) }
{
    if are_roots(graph, roots) {
        graph.try_clone()
    } else {
        walked_part(alloc, graph, roots)
    }
}
