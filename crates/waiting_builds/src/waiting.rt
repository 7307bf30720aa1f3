// Builds over a loader that waits.
ghost use Rattle.std.specs.Prelude.{◌≡◌, ◌≤◌, ◌+◌, ℕ, List, [], true, Some, OnOk, OnErr, IfErr, IfSome};
ghost use Rattle.source_io.specs.Tickets.{IsPut};
ghost use Rattle.spec_base.specs.Counters.{Rose};
ghost use Rattle.graph_core.specs.Graph.{new_graph};
ghost use Rattle.turn_laws.specs.Promise.Complete.{IsComplete, NonePending};
ghost use Rattle.turn_laws.specs.Budget.Asked.{AsksOnce};
ghost use Rattle.turn_laws.specs.Budget.Covers.{Counted, Covers, CoversRuns, enough};
ghost use Rattle.graph_builder.specs.Calls.Builds.{IsBuiltOver};
ghost use Rattle.graph_turns.specs.Machine.Redirects.{HasNoCircle};
ghost use Rattle.graph_turns.specs.Promise.Choices.{IsMade};
ghost use Rattle.graph_turns.specs.Promise.Runs.{AreStaticFirst, IsGrownTo, IsStaticFirst};
ghost use Rattle.graph_turns.specs.declared.starting.ResolvedStart.{ResolvedStart};
ghost use Rattle.graph_turns.specs.Machine.Runs.{begun_over};
ghost use Rattle.graph_turns.specs.Machine.Starting.{IsResolved, told_start};
ghost use Rattle.graph_turns.specs.Promise.Input.{given_to};
ghost use Rattle.build_options.specs.Telling.{Tells, flags_of, known_in, manifests_in, npm_in, sums_in, telling_of, without_locker};
ghost use Rattle.graph_turns.specs.Promise.Told.{Told};
ghost use Rattle.cache_filling.specs.Noted.{Noted};
ghost use Rattle.graph_builder.specs.Calls.Loaders.{KeepsLoader};
ghost use Rattle.graph_builder.specs.Calls.Makers.{means_by};
ghost use Rattle.graph_builder.specs.Calls.Steps.{given_over};
ghost use Rattle.open_loads.specs.Taught.{KeepsStore, LearnsSourcesIn, LearnsVersions, StillKnows};
ghost use Rattle.open_loads.specs.Budget.Runs.{IsOver};
ghost use Rattle.graph_turns.specs.Machine.Sums.{KeepsSums};
ghost use Rattle.graph_turns.specs.Machine.Turns.{PutsAtLeast, PutsOver, PutsWithin, TellsTurns};

use build_options::BuildOptions;
use graph_builder::{BuildFault, BuildGraph};
use graph_core::{ModuleGraph, ReferrerImports};
use slot_making::Services;
use source_io::WaitingLoader;
use spec_base::ModuleSpecifier;
use std::alloc::Global;
use std::sync::Wait;
use waiting_loader::Waiting;

/// Builds the graph of these roots and configured imports into a graph as `build` does, over a loader whose answers are waited
/// for, and gives the loader back. It may wait as long as the loader does; the clauses are those of `build`, and hold if it
/// returns.
///
/// What it makes of a graph is told where nothing is pending in that, and each circle of its redirects has a slot on it; so it
/// is with every graph that a build leaves.
///
/// `Budget` comes only where `max_loads` questions were put and one more was to be put, `Loader` only where the loader failed
/// in this call, `Memory` where there was no memory; after each of them the graph is empty. Nothing is left open in the loader
/// after Ok.
pub fn build_waiting<R, W, S>(
    rt: &R,
    alloc: Global,
    graph: &mut ModuleGraph,
    roots: Vec<ModuleSpecifier>,
    imports: Vec<ReferrerImports>,
    loader: W,
    options: &mut BuildOptions<'_, S>,
) -> (Result<(), BuildFault>, W)
where
    R: Wait,
    W: WaitingLoader,
    S: Services,
    requires closed { W.open_tickets loader ≡ [] }
    // Over the empty graph: nothing is pending, and each root, each target of a configured import and each followed edge of a stored module leads to a slot.
    ensures complete { graph.old ≡ new_graph graph.old.kind
        → OnOk result.0
        (Noted (W.caches loader) (W.world loader)
        (IsComplete
        (telling_of S.Analyze.infos S.Tree.paths S.Urls.meaning S.Resolve.is_told
        S.Resolve.meaning options.old).resolving (flags_of options.old)
        (given_to graph.old.kind roots.items imports.items)) graph.new) }
    // Over the empty graph: one run made it, whose registry files were asked for under Use, or a second one under Reload, where some requirement that the first one reaches has no choice; each slot and each redirect is what the world's answers give an import leading to it, and each requirement leads to a version that it picks.
    ensures explained { graph.old ≡ new_graph graph.old.kind
        → (told : Told)
        → Tells (W.world loader)
        (telling_of S.Analyze.infos S.Tree.paths S.Urls.meaning S.Resolve.is_told
        S.Resolve.meaning options.old) (known_in S.Lock.remote S.Lock.manifests options.old)
        told
        → npm_in S.Npm.table options.old ≡ Some told.npm
        → OnOk result.0
        (Noted (W.caches loader) (W.world loader)
        (IsMade told (given_to graph.old.kind roots.items imports.items)) graph.new) }
    // Over any graph: the roots and imports that are given stand behind its own, nothing is pending, each specifier that was loaded and each followed edge of a module that was stored leads to a slot, and each circle of redirects has a slot on it.
    ensures complete_over { HasNoCircle graph.old
        → NonePending graph.old
        → OnOk result.0
        (Noted (W.caches loader) (W.world loader)
        (IsBuiltOver
        (telling_of S.Analyze.infos S.Tree.paths S.Urls.meaning S.Resolve.is_told
        S.Resolve.meaning options.old).resolving (flags_of options.old) graph.old
        (given_over roots.items imports.items)) graph.new) }
    // Over any graph, or where it has no roots and the build began once more, over the empty one: each slot and each redirect stood so before, or is what the world's answers give an import leading to it; what stood stays, but where an explained one took its place; and each requirement leads to a version that it picks.
    ensures explained_over { HasNoCircle graph.old
        → NonePending graph.old
        → (told : Told)
        → Tells (W.world loader)
        (telling_of S.Analyze.infos S.Tree.paths S.Urls.meaning S.Resolve.is_told
        S.Resolve.meaning options.old) (known_in S.Lock.remote S.Lock.manifests options.old)
        told
        → npm_in S.Npm.table options.old ≡ Some told.npm
        → OnOk result.0
        (Noted (W.caches loader) (W.world loader)
        (IsGrownTo told graph.old (given_over roots.items imports.items)) graph.new) }
    // One meaning for every order of arrival: the graph is that of the turns, and as many questions are put as they put.
    ensures turned { HasNoCircle graph.old
        → (told : Told)
        → Tells (W.world loader)
        (telling_of S.Analyze.infos S.Tree.paths S.Urls.meaning S.Resolve.is_told
        S.Resolve.meaning options.old) (known_in S.Lock.remote S.Lock.manifests options.old)
        told
        → npm_in S.Npm.table options.old ≡ Some told.npm
        → OnOk result.0
        (Noted (W.caches loader) (W.world loader)
        (λ bare. TellsTurns told graph.old.kind
        (begun_over told.known graph.old
        (told_start told (given_over roots.items imports.items))) bare
        (sums_in S.Lock.remote options.new) options.new.jsr_metadata_store (W.asked loader)
        (W.asked result.1)) graph.new) }
    // After Ok no number of turns puts more questions than the budget has.
    ensures afforded { HasNoCircle graph.old
        → (told : Told)
        → Tells (W.world loader)
        (telling_of S.Analyze.infos S.Tree.paths S.Urls.meaning S.Resolve.is_told
        S.Resolve.meaning options.old) (known_in S.Lock.remote S.Lock.manifests options.old)
        told
        → OnOk result.0
        (PutsWithin told graph.old.kind
        (begun_over told.known graph.old
        (told_start told (given_over roots.items imports.items))) options.old.max_loads) }
    // After `Budget` some number of turns does.
    ensures overspent { (told : Told)
        → Tells (W.world loader)
        (telling_of S.Analyze.infos S.Tree.paths S.Urls.meaning S.Resolve.is_told
        S.Resolve.meaning options.old) (known_in S.Lock.remote S.Lock.manifests options.old)
        told
        → IfErr result.0
        (λ fault. fault ≡ BuildFault.Budget
        → PutsOver told graph.old.kind
        (begun_over told.known graph.old
        (told_start told (given_over roots.items imports.items))) options.old.max_loads) }
    // Static before dynamic, over the empty graph: where it begins in the static phase, answers are named as asked and no edge is an asset's, each slot that static imports lead to is what a static import gives.
    ensures static_first { graph.old ≡ new_graph graph.old.kind
        → (told : Told)
        → Tells (W.world loader)
        (telling_of S.Analyze.infos S.Tree.paths S.Urls.meaning S.Resolve.is_told
        S.Resolve.meaning options.old) (known_in S.Lock.remote S.Lock.manifests options.old)
        told
        → AreStaticFirst told (given_to graph.old.kind roots.items imports.items)
        → OnOk result.0
        (Noted (W.caches loader) (W.world loader)
        (IsStaticFirst told (given_to graph.old.kind roots.items imports.items)) graph.new) }
    // Whatever the answer, each sum that the locker is told is that of the source of a module that was made there, from the network and no declaration.
    ensures sources { HasNoCircle graph.old
        → (told : Told)
        → Tells (W.world loader)
        (telling_of S.Analyze.infos S.Tree.paths S.Urls.meaning S.Resolve.is_told
        S.Resolve.meaning options.old) (known_in S.Lock.remote S.Lock.manifests options.old)
        told
        → LearnsSourcesIn told graph.old (given_over roots.items imports.items)
        (sums_in S.Lock.remote options.old) (sums_in S.Lock.remote options.new) }
    // Each sum of a manifest that it is told is that of the version's file.
    ensures versions { HasNoCircle graph.old
        → (told : Told)
        → Tells (W.world loader)
        (telling_of S.Analyze.infos S.Tree.paths S.Urls.meaning S.Resolve.is_told
        S.Resolve.meaning options.old) (known_in S.Lock.remote S.Lock.manifests options.old)
        told
        → OnOk result.0
        (LearnsVersions told graph.old (given_over roots.items imports.items)
        (manifests_in S.Lock.manifests options.old)
        (manifests_in S.Lock.manifests options.new)) }
    // Whoever answers, each question that a run puts is another one, and what the last run asks about the graph knows in the end.
    ensures asks_once { HasNoCircle graph.old
        → OnOk result.0
        (Noted (W.caches loader) (W.world loader)
        (λ bare. AsksOnce (S.Urls.meaning options.old.jsr_url_provider.now) bare
        (W.asked loader) (W.asked result.1)) graph.new) }
    ensures closed { OnOk result.0 (W.open_tickets result.1 ≡ []) }
    ensures loader { KeepsLoader W.world W.may_fail W.caches W.faults loader result.1 }
    ensures options { without_locker options.new ≡ without_locker options.old }
    // The store, where one is given, keeps what it had.
    ensures store { KeepsStore options.old.jsr_metadata_store options.new.jsr_metadata_store }
    // Whatever the answer, the locker still knows all that it knew.
    ensures locker { KeepsSums (sums_in S.Lock.remote options.old)
        (sums_in S.Lock.remote options.new) }
    ensures manifests_kept { StillKnows (manifests_in S.Lock.manifests options.old)
        (manifests_in S.Lock.manifests options.new) }
    // After every other fault than want of memory the locker knows exactly what it knew.
    ensures unlearned { IfErr result.0 (λ fault. (fault ≡ BuildFault.Memory → ⊥)
        → (sums_in S.Lock.remote options.new ≡ sums_in S.Lock.remote options.old)
        × (manifests_in S.Lock.manifests options.new ≡ manifests_in S.Lock.manifests options.old)) }
    ensures emptied { OnErr result.0 (graph.new ≡ new_graph graph.old.kind) }
    // Over the empty graph: a budget of as many loads as a list that covers the reached questions of each run has, twice where the build may begin once more, is never spent.
    ensures room { graph.old ≡ new_graph graph.old.kind
        → (told : Told) (questions : List Counted)
        → Tells (W.world loader)
        (telling_of S.Analyze.infos S.Tree.paths S.Urls.meaning S.Resolve.is_told
        S.Resolve.meaning options.old) (known_in S.Lock.remote S.Lock.manifests options.old)
        told
        → Covers told (given_to graph.old.kind roots.items imports.items) questions
        → enough graph.old (given_over roots.items imports.items) questions ≤ options.old.max_loads
        → IfErr result.0 (λ fault. fault ≡ BuildFault.Budget → ⊥) }
    // Over any graph, where the list covers what this call reaches.
    ensures room_over { HasNoCircle graph.old
        → (told : Told) (questions : List Counted)
        → Tells (W.world loader)
        (telling_of S.Analyze.infos S.Tree.paths S.Urls.meaning S.Resolve.is_told
        S.Resolve.meaning options.old) (known_in S.Lock.remote S.Lock.manifests options.old)
        told
        → CoversRuns told graph.old (given_over roots.items imports.items) questions
        → enough graph.old (given_over roots.items imports.items) questions ≤ options.old.max_loads
        → IfErr result.0 (λ fault. fault ≡ BuildFault.Budget → ⊥) }
    // A covered build over a loader that doesn't fail succeeds, or finds no memory.
    ensures covered_over { HasNoCircle graph.old
        → (told : Told) (questions : List Counted)
        → Tells (W.world loader)
        (telling_of S.Analyze.infos S.Tree.paths S.Urls.meaning S.Resolve.is_told
        S.Resolve.meaning options.old) (known_in S.Lock.remote S.Lock.manifests options.old)
        told
        → CoversRuns told graph.old (given_over roots.items imports.items) questions
        → enough graph.old (given_over roots.items imports.items) questions ≤ options.old.max_loads
        → (Rose (W.faults loader) (W.faults result.1) → ⊥)
        → IfErr result.0 (λ fault. fault ≡ BuildFault.Memory) }
    // From what is given, the loads that turns answered and those that are open are more than the budget.
    ensures over { IfErr result.0 (λ fault. fault ≡ BuildFault.Budget
        → (redirects : ℕ) × (start : ResolvedStart)
        × IsResolved (telling_of S.Analyze.infos S.Tree.paths S.Urls.meaning S.Resolve.is_told
        S.Resolve.meaning options.old).resolving (given_over roots.items imports.items) start
        × IsOver redirects (known_in S.Lock.remote S.Lock.manifests options.old) (W.world loader)
        (means_by (telling_of S.Analyze.infos S.Tree.paths S.Urls.meaning S.Resolve.is_told
        S.Resolve.meaning options.old) (flags_of options.old) graph.old.kind)
        (begun_over (known_in S.Lock.remote S.Lock.manifests options.old) graph.old start)
        options.old.max_loads) }
    // And those of a run that follows as many redirects as the world says.
    ensures over_told { IfErr result.0
        (λ fault. fault ≡ BuildFault.Budget
        → IfSome (W.world loader)
        (λ w. (start : ResolvedStart)
        × IsResolved
        (telling_of S.Analyze.infos S.Tree.paths S.Urls.meaning S.Resolve.is_told
        S.Resolve.meaning options.old).resolving
        (given_over roots.items imports.items) start
        × IsOver w.max_redirects (known_in S.Lock.remote S.Lock.manifests options.old)
        (W.world loader)
        (means_by
        (telling_of S.Analyze.infos S.Tree.paths S.Urls.meaning
        S.Resolve.is_told S.Resolve.meaning options.old)
        (flags_of options.old) graph.old.kind)
        (begun_over (known_in S.Lock.remote S.Lock.manifests options.old) graph.old
        start) options.old.max_loads)) }
    ensures budget { IfErr result.0
        (λ fault. fault ≡ BuildFault.Budget
        → IsPut options.old.max_loads (W.asked loader) (W.asked result.1)) }
    // At most as many questions are put as the budget allows.
    ensures within { W.asked result.1 ≤ W.asked loader + options.old.max_loads }
    ensures allowed { IfErr result.0
        (λ fault. fault ≡ BuildFault.Loader → W.may_fail loader (W.asked result.1) ≡ true) }
    // Some number of turns puts as many questions at least as were put before the loader failed.
    ensures paced { HasNoCircle graph.old
        → (told : Told)
        → Tells (W.world loader)
        (telling_of S.Analyze.infos S.Tree.paths S.Urls.meaning S.Resolve.is_told
        S.Resolve.meaning options.old) (known_in S.Lock.remote S.Lock.manifests options.old)
        told
        → IfErr result.0
        (λ fault. fault ≡ BuildFault.Loader
        → PutsAtLeast told graph.old.kind
        (begun_over told.known graph.old
        (told_start told (given_over roots.items imports.items))) (W.asked loader)
        (W.asked result.1)) }
    ensures failed { IfErr result.0
        (λ fault. fault ≡ BuildFault.Loader → Rose (W.faults loader) (W.faults result.1)) }
{
    let mut waiting = Waiting { rt, loader };
    let done = graph.build(alloc, roots, imports, &mut waiting, options);
    let Waiting { rt: _, loader } = waiting;
    (done, loader)
}
