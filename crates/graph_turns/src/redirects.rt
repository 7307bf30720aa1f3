// Known redirects, followed to their end, and how an answer's name becomes one. A redirect is tested for
// a circle before it is added, so that each circle of names has a slot on it.
ghost use Rattle.std.specs.Prelude.{◌≡◌, OnOk, IfOk, IfSome, option_copied};
ghost use Rattle.std.specs.FinMap as finite;
ghost use Rattle.indexmap.specs.IndexSet.{insert_key};
ghost use Rattle.spec_base.specs.Specifier.{same_specifier};
ghost use Rattle.graph_core.specs.Graph.{slot_at};
ghost use Rattle.module_slots.specs.Slots.{is_pending_at};
ghost use Rattle.graph_turns.specs.Machine.Redirects.{follow, is_settled, redirected_end, leads_back, moved, onward_at, renamed, unknown_at};

use graph_core::ModuleGraph;
use spec_base::{ModuleSpecifier, SpecifierSet};
use std::alloc::{AllocError, Global};

// Where a known redirect leads on from a specifier: none does from one with a slot.
fn onward<'a>(graph: &'a ModuleGraph, specifier: &ModuleSpecifier) -> Option<&'a ModuleSpecifier>
    ensures { option_copied result ≡ onward_at graph.now specifier.now }
{
    if graph.has_slot(specifier) {
        return None;
    }
    graph.redirects.get(specifier)
}

// Where the known redirects from a specifier on end; None where they turn in a circle, which is seen after three
// times as many of them as lead into it and round it.
fn end_of<'a>(graph: &'a ModuleGraph, specifier: &'a ModuleSpecifier) -> Option<&'a ModuleSpecifier>
    ensures { IfSome result (λ end. end.now ≡ redirected_end graph.now specifier.now) }
{
    // Nothing is looked up where no specifier was redirected.
    if graph.redirects.len() == 0 {
        return Some(specifier);
    }
    let mut at = specifier;
    // A circle comes back to the mark, which is moved after twice as many redirects each time.
    let mut mark = specifier;
    let mut left: usize = 1;
    let mut lap: usize = 1;
    for _ in 0..graph.redirects.len() {
        match onward(graph, at) {
            None => return Some(at),
            Some(to) => at = to,
        }
        if at == mark {
            return None;
        }
        left = left.saturating_sub(1);
        if left == 0 {
            mark = at;
            lap = lap.saturating_add(lap);
            left = lap;
        }
    }
    match onward(graph, at) {
        None => Some(at),
        Some(_) => None,
    }
}

// The last specifier on the known redirects before one that is met, where these were met before.
fn last_unmet<'a>(
    graph: &'a ModuleGraph,
    specifier: &'a ModuleSpecifier,
    met: &mut SpecifierSet,
) -> Result<&'a ModuleSpecifier, AllocError>
    ensures { IfOk result
        (λ end. end.now
        ≡ follow graph.now (finite.len graph.now.redirects)
        (insert_key same_specifier met.old specifier.now) specifier.now) }
{
    let _ = met.insert(specifier.clone()?)?;
    let mut at = specifier;
    for _ in 0..graph.redirects.len() {
        match onward(graph, at) {
            None => return Ok(at),
            Some(to) => {
                if !met.insert(to.clone()?)? {
                    return Ok(at);
                }
                at = to;
            }
        }
    }
    Ok(at)
}

// The last specifier on the known redirects before one that was met.
fn last_before_repeat<'a>(
    alloc: Global,
    graph: &'a ModuleGraph,
    specifier: &'a ModuleSpecifier,
) -> Result<&'a ModuleSpecifier, AllocError>
    ensures { IfOk result (λ end. end.now ≡ redirected_end graph.now specifier.now) }
{
    let mut met = SpecifierSet::new(alloc);
    let last = last_unmet(graph, specifier, &mut met);
    drop(met);
    last
}

/// The end of the known redirects from a specifier on: where a slot stands, or no redirect goes on, or on a circle
/// without a slot the last one before a repeat. It takes the time of the way that it goes.
pub(crate) fn led(
    alloc: Global,
    graph: &ModuleGraph,
    specifier: &ModuleSpecifier,
) -> Result<ModuleSpecifier, AllocError>
    ensures { IfOk result (λ end. end ≡ redirected_end graph.now specifier.now) }
{
    match end_of(graph, specifier) {
        Some(end) => end.clone(),
        None => match last_before_repeat(alloc, graph, specifier) {
            Ok(last) => last.clone(),
            Err(error) => Err(error),
        },
    }
}

// Where a known redirect leads on from a specifier, where slot and redirect of the asked one don't count.
fn onward_but<'a>(
    graph: &'a ModuleGraph,
    asked: &ModuleSpecifier,
    at: &ModuleSpecifier,
) -> Option<&'a ModuleSpecifier>
    ensures { option_copied result ≡ onward_at (unknown_at graph.now asked.now) at.now }
{
    if at == asked {
        return None;
    }
    onward(graph, at)
}

/// Whether the known redirects lead from a name back to the asked specifier, whose own slot and redirect don't count.
pub(crate) fn leads_back(
    graph: &ModuleGraph,
    asked: &ModuleSpecifier,
    name: &ModuleSpecifier,
) -> bool
    ensures { result ≡ leads_back graph.now asked.now name.now }
{
    let mut at = name;
    for _ in 0..graph.redirects.len() {
        match onward_but(graph, asked, at) {
            None => return at == asked,
            Some(to) => at = to,
        }
    }
    at == asked
}

// Whether a load is under way there.
fn is_pending_at(graph: &ModuleGraph, specifier: &ModuleSpecifier) -> bool
    ensures { result ≡ is_pending_at (slot_at graph.now specifier.now) }
{
    match graph.slot(specifier) {
        Some(slot) => slot.is_pending(),
        None => false,
    }
}

/// Whether a slot that isn't pending stands there.
pub(crate) fn is_settled_at(graph: &ModuleGraph, specifier: &ModuleSpecifier) -> bool
    ensures { result ≡ is_settled (slot_at graph.now specifier.now) }
{
    match graph.slot(specifier) {
        Some(slot) => !slot.is_pending(),
        None => false,
    }
}

/// Redirects the asked specifier: its slot goes where it is pending; an earlier redirect stays where another slot
/// stands there, else the new one takes its place.
pub(crate) fn move_to(
    graph: &mut ModuleGraph,
    asked: &ModuleSpecifier,
    name: &ModuleSpecifier,
) -> Result<(), AllocError>
    ensures { OnOk result (graph.new ≡ moved graph.old asked.now name.now) }
{
    if is_settled_at(graph, asked) && graph.redirects.contains_key(asked) {
        return Ok(());
    }
    let key = asked.clone()?;
    let target = name.clone()?;
    if is_pending_at(graph, asked) {
        graph.clear_slot(asked);
    }
    let _ = graph.redirects.insert(key, target)?;
    Ok(())
}

/// Redirects the asked specifier where an answer is named otherwise.
pub(crate) fn rename(
    graph: &mut ModuleGraph,
    asked: &ModuleSpecifier,
    name: &ModuleSpecifier,
) -> Result<(), AllocError>
    ensures { OnOk result (graph.new ≡ renamed graph.old asked.now name.now) }
{
    if asked == name {
        return Ok(());
    }
    move_to(graph, asked, name)
}
