// A graph that loses its types.
ghost use Rattle.std.specs.Prelude.{◌≡◌, ◌≤◌, length, IfOk, IfSome, OnOk, OnErr};
ghost use Rattle.spec_base.specs.Specifier.{specifier_text};
ghost use Rattle.graph_walk.specs.Order.{offered, texts, room, late_at_slot};
ghost use Rattle.graph_walk.specs.Prune.{prune_adds, prune_how, is_node_at, has_node, IsPruned, Prunes};
ghost use Rattle.graph_walk.specs.Pruning.{Pruning};

use crate::options::{AllCheckJs, CheckJsOption, WalkOptions};
use crate::room::room;
use crate::seen_and_waiting::Front;
use crate::walk::add_late_of_slot;
use graph_core::{GraphKind, Module, ModuleGraph, ModuleSlot};
use spec_base::{ModuleSpecifier, SpecifierSet};
use std::alloc::{AllocError, Global};

// What a slot adds of code, dynamic imports too.
fn add_late_code<'a>(front: &mut Front<'a>, slot: &'a ModuleSlot)
    requires { length (offered front.old.front (late_at_slot prune_how slot.now)).seen
        ≤ front.old.bound }
    ensures { front.new
        ≡ record {
          front = offered front.old.front (late_at_slot prune_how slot.now);
          bound = front.old.bound;
        } }
{
    let options: WalkOptions<'_, AllCheckJs> = WalkOptions {
        check_js: CheckJsOption::True,
        follow_dynamic: true,
        kind: GraphKind::CodeOnly,
        prefer_fast_check_graph: false,
    };
    add_late_of_slot(&options, front, slot);
}

// As many specifiers as a pruning can come to; None from 2^64 on.
fn code_room(graph: &ModuleGraph, roots: &[ModuleSpecifier]) -> Option<usize>
    ensures { IfSome result (λ n. n ≡ room graph.now prune_how (texts roots.now)) }
{
    let options: WalkOptions<'_, AllCheckJs> = WalkOptions {
        check_js: CheckJsOption::True,
        follow_dynamic: true,
        kind: GraphKind::CodeOnly,
        prefer_fast_check_graph: false,
    };
    room(graph, &options, roots)
}

#[tactic(auto, unfolding(crate::specs::Prune::prune_adds, crate::specs::Order::offered))]
fn add_code<'a>(graph: &'a ModuleGraph, front: &mut Front<'a>, specifier: &ModuleSpecifier)
    requires { length
        (offered front.old.front (prune_adds graph.now (specifier_text specifier.now))).seen
        ≤ front.old.bound }
    ensures { front.new
        ≡ record {
          front = offered front.old.front (prune_adds graph.now (specifier_text specifier.now));
          bound = front.old.bound;
        } }
{
    match graph.redirects.get(specifier) {
        Some(target) => front.offer(target),
        None => match graph.slot(specifier) {
            Some(slot) => add_late_code(front, slot),
            None => (),
        },
    }
}

fn add_all<'a>(graph: &'a ModuleGraph, front: &mut Front<'a>)
    requires { Pruning graph.now front.old }
    ensures { IsPruned graph.now front.new.front.seen }
{
    while let Some(specifier) = front.take() {
        add_code(graph, front, specifier);
    }
}

// The specifiers that a pruning keeps.
fn kept<'a>(alloc: Global, graph: &'a ModuleGraph) -> Result<Front<'a>, AllocError>
    ensures { IfOk result (λ f. IsPruned graph.now f.front.seen) }
{
    let roots = graph.roots.as_set().as_slice();
    let bound = match code_room(graph, roots) {
        None => return Err(AllocError),
        Some(bound) => bound,
    };
    let mut front = Front::with_room(alloc, bound)?;
    front.queue_all(roots);
    add_all(graph, &mut front);
    Ok(front)
}

// Copies of the specifiers that a pruning keeps.
fn kept_copies(alloc: Global, graph: &ModuleGraph) -> Result<SpecifierSet, AllocError>
    ensures { IfOk result (λ s. IsPruned graph.now (texts s)) }
{
    let front = kept(alloc, graph)?;
    front.seen_copies(alloc)
}

fn is_node_at(graph: &ModuleGraph, specifier: &ModuleSpecifier) -> bool
    ensures { result ≡ is_node_at graph.now (specifier_text specifier.now) }
{
    !graph.redirects.contains_key(specifier)
        && matches!(
            graph.slot(specifier),
            Some(ModuleSlot::Module(Module::Node(_)))
        )
}

fn has_node(graph: &ModuleGraph, kept: &SpecifierSet) -> bool
    ensures { result ≡ has_node graph.now kept.now }
{
    kept.as_set()
        .as_slice()
        .iter()
        .any(|specifier| is_node_at(graph, specifier))
}

/// Takes the types out of a graph, unless it is one of code alone. After want of memory it is as it was.
pub(crate) fn prune_types(alloc: Global, graph: &mut ModuleGraph) -> Result<(), AllocError>
    ensures ok { OnOk result (Prunes graph.old graph.new) }
    ensures err { OnErr result (graph.new ≡ graph.old) }
{
    if !graph.graph_kind().include_types() {
        return Ok(());
    }
    let kept = kept_copies(alloc, graph)?;
    let has_node = has_node(graph, &kept);
    graph.keep_code(alloc, &kept, has_node);
    Ok(())
}
