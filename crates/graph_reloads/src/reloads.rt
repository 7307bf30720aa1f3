// What is loaded again: where specifiers lead along redirects, each text once, without the slots there.
ghost use Rattle.std.specs.Prelude.{◌≡◌, [], map, IfOk};
ghost use Rattle.indexmap.specs.IndexSet.{insert_all};
ghost use Rattle.spec_base.specs.Specifier.{same_specifier};
ghost use Rattle.graph_core.specs.Graph.{resolved};
ghost use Rattle.graph_turns.specs.Promise.Input.{root_load};
ghost use Rattle.turn_laws.specs.Promise.Reloads.{reload_entry, reload_loads, reloaded_of, without_slots};
ghost use Rattle.graph_builder.specs.Calls.Over.{entered};

use graph_core::{Load, LoadContext, ModuleGraph};
use spec_base::{ModuleSpecifier, SpecifierSet};
use std::alloc::{AllocError, Global};

// Where specifiers lead along redirects, each text once.
fn reloaded_of(
    alloc: Global,
    graph: &ModuleGraph,
    given: &[ModuleSpecifier],
) -> Result<SpecifierSet, AllocError>
    ensures { IfOk result (λ ends. ends ≡ reloaded_of graph.now given.now) }
{
    let mut ends = SpecifierSet::new(alloc);
    for specifier in given {
        let end = graph.resolve(specifier).clone()?;
        let _ = ends.insert(end)?;
    }
    Ok(ends)
}

// The load of a root.
fn root_load(dynamic: bool, specifier: ModuleSpecifier) -> Load
    ensures { result ≡ root_load dynamic specifier }
{
    Load {
        specifier,
        context: LoadContext {
            attribute: None,
            asset: false,
            source_phase: None,
            range: None,
            in_dynamic_phase: dynamic,
            is_dynamic: dynamic,
            is_root: true,
            hops: 0,
            package: None,
        },
        is_type: false,
    }
}

// The loads of where specifiers lead, each once, as those of roots.
fn loads_again(
    alloc: Global,
    dynamic: bool,
    graph: &ModuleGraph,
    specifiers: &[ModuleSpecifier],
) -> Result<Vec<Load>, AllocError>
    ensures { IfOk result (λ loads. loads.items ≡ reload_loads dynamic graph.now specifiers.now) }
{
    let ends = reloaded_of(alloc, graph, specifiers)?;
    let mut loads = Vec::new(alloc);
    for end in ends.as_set().as_slice() {
        let specifier = end.clone()?;
        loads.push(root_load(dynamic, specifier))?;
    }
    Ok(loads)
}

// Removes the slots of some loads.
fn remove_slots(graph: &mut ModuleGraph, loads: &[Load])
    ensures { graph.new ≡ without_slots graph.old loads.now }
{
    for load in loads {
        graph.clear_slot(&load.specifier);
    }
}

/// Removes the slots where specifiers lead along redirects, and hands out the loads of these, each once, as those of roots. The only
/// refusal is want of memory, after which the graph is as it was.
pub(crate) fn unload(
    alloc: Global,
    dynamic: bool,
    graph: &mut ModuleGraph,
    specifiers: &[ModuleSpecifier],
) -> Result<Vec<Load>, AllocError>
    ensures { IfOk result
        (λ loads. entered graph.new loads.items ≡ reload_entry dynamic graph.old specifiers.now) }
{
    let loads = loads_again(alloc, dynamic, graph, specifiers)?;
    remove_slots(graph, &loads);
    Ok(loads)
}
