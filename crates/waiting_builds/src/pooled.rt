// Builds through a pool of workers.
ghost use Rattle.std.specs.Prelude.{◌≡◌, ◌≤◌, ℕ, List, Some, OnOk, OnErr, IfErr, IfSome};
ghost use Rattle.cache_filling.specs.Noted.{Noted};
ghost use Rattle.graph_core.specs.Graph.{new_graph};
ghost use Rattle.turn_laws.specs.Promise.Complete.{IsComplete};
ghost use Rattle.turn_laws.specs.Budget.Asked.{AsksOnce};
ghost use Rattle.turn_laws.specs.Budget.Covers.{Counted, Covers, CoversRuns, enough};
ghost use Rattle.graph_turns.specs.Machine.Redirects.{HasNoCircle};
ghost use Rattle.graph_turns.specs.Promise.Choices.{IsMade};
ghost use Rattle.graph_turns.specs.Promise.Runs.{AreStaticFirst, IsStaticFirst};
ghost use Rattle.graph_turns.specs.declared.starting.ResolvedStart.{ResolvedStart};
ghost use Rattle.graph_turns.specs.Machine.Runs.{begun_over};
ghost use Rattle.graph_turns.specs.Machine.Starting.{IsResolved, told_start};
ghost use Rattle.graph_turns.specs.Promise.Input.{given_to};
ghost use Rattle.build_options.specs.Telling.{Tells, flags_of, known_in, manifests_in, npm_in, sums_in, telling_of, without_locker};
ghost use Rattle.graph_turns.specs.Promise.Told.{Told};
ghost use Rattle.graph_builder.specs.Calls.Makers.{means_by};
ghost use Rattle.graph_builder.specs.Calls.Steps.{given_over};
ghost use Rattle.open_loads.specs.Taught.{KeepsStore, LearnsSourcesIn, LearnsVersions, StillKnows};
ghost use Rattle.open_loads.specs.Budget.Runs.{IsOver};
ghost use Rattle.graph_turns.specs.Machine.Sums.{KeepsSums};
ghost use Rattle.graph_turns.specs.Machine.Turns.{PutsOver, PutsWithin, TellsTurns};
ghost use Rattle.std.specs.Arc.{arc_value};

use crate::waiting::build_waiting;
use build_options::BuildOptions;
use graph_builder::BuildFault;
use graph_core::{ModuleGraph, ReferrerImports};
use graph_pool::Pool;
use slot_making::Services;
use source_io::Fetch;
use spec_base::ModuleSpecifier;
use std::alloc::Global;
use std::sync::{Arc, Wait};
use std::thread::Threads;

/// How many questions are out with the workers at most.
pub const WINDOW: usize = 64;

/// Builds the graph of these roots and configured imports into the empty graph through a pool of workers over a fetcher: as
/// many as can be had, up to the given number. It may wait; the clauses are those of `build` over such a graph, and hold if it
/// returns.
///
/// `Budget` comes only where `max_loads` questions were put and one more was to be put, `Memory` where there was no memory,
/// also of a worker, and `Loader` never; after each of them the graph is empty.
pub fn build_pooled<F, S, R>(
    rt: &R,
    alloc: Global,
    graph: &mut ModuleGraph,
    roots: Vec<ModuleSpecifier>,
    imports: Vec<ReferrerImports>,
    fetcher: Arc<F, Global>,
    workers: usize,
    options: &mut BuildOptions<'_, S>,
) -> Result<(), BuildFault>
where
    F: Fetch + Send + Sync + Drop + 'static,
    S: Services,
    R: Wait + Threads + Clone + Drop + Send + Sync + 'static,
    requires fresh { graph.old ≡ new_graph graph.old.kind }
    // Nothing is pending, and each root, each target of a configured import and each followed edge of a stored module leads to a slot.
    ensures complete { OnOk result
        (Noted (F.caches (arc_value fetcher)) (F.world (arc_value fetcher))
        (IsComplete
        (telling_of S.Analyze.infos S.Tree.paths S.Urls.meaning S.Resolve.is_told
        S.Resolve.meaning options.old).resolving (flags_of options.old)
        (given_to graph.old.kind roots.items imports.items)) graph.new) }
    // One run made it, whose registry files were asked for under Use, or a second one under Reload, where some requirement that the first one reaches has no choice; each slot and each redirect is what the world's answers give an import leading to it, and each requirement leads to a version that it picks.
    ensures explained { (told : Told)
        → Tells (F.world (arc_value fetcher))
        (telling_of S.Analyze.infos S.Tree.paths S.Urls.meaning S.Resolve.is_told
        S.Resolve.meaning options.old) (known_in S.Lock.remote S.Lock.manifests options.old)
        told
        → npm_in S.Npm.table options.old ≡ Some told.npm
        → OnOk result
        (Noted (F.caches (arc_value fetcher)) (F.world (arc_value fetcher))
        (IsMade told (given_to graph.old.kind roots.items imports.items)) graph.new) }
    // One meaning for every order of arrival: the graph is that of the turns, and as many questions are put as they put.
    ensures turned { (told : Told)
        → Tells (F.world (arc_value fetcher))
        (telling_of S.Analyze.infos S.Tree.paths S.Urls.meaning S.Resolve.is_told
        S.Resolve.meaning options.old) (known_in S.Lock.remote S.Lock.manifests options.old)
        told
        → npm_in S.Npm.table options.old ≡ Some told.npm
        → OnOk result
        (Noted (F.caches (arc_value fetcher)) (F.world (arc_value fetcher))
        (λ bare. (asked : ℕ)
        × TellsTurns told graph.old.kind
        (begun_over told.known graph.old
        (told_start told (given_over roots.items imports.items))) bare
        (sums_in S.Lock.remote options.new) options.new.jsr_metadata_store 0 asked)
        graph.new) }
    // After Ok no number of turns puts more questions than the budget has.
    ensures afforded { (told : Told)
        → Tells (F.world (arc_value fetcher))
        (telling_of S.Analyze.infos S.Tree.paths S.Urls.meaning S.Resolve.is_told
        S.Resolve.meaning options.old) (known_in S.Lock.remote S.Lock.manifests options.old)
        told
        → OnOk result
        (PutsWithin told graph.old.kind
        (begun_over told.known graph.old
        (told_start told (given_over roots.items imports.items))) options.old.max_loads) }
    // After `Budget` some number of turns does.
    ensures overspent { (told : Told)
        → Tells (F.world (arc_value fetcher))
        (telling_of S.Analyze.infos S.Tree.paths S.Urls.meaning S.Resolve.is_told
        S.Resolve.meaning options.old) (known_in S.Lock.remote S.Lock.manifests options.old)
        told
        → IfErr result
        (λ fault. fault ≡ BuildFault.Budget
        → PutsOver told graph.old.kind
        (begun_over told.known graph.old
        (told_start told (given_over roots.items imports.items))) options.old.max_loads) }
    // Static before dynamic: where it begins in the static phase, answers are named as asked and no edge is an asset's, each slot that static imports lead to is what a static import gives.
    ensures static_first { (told : Told)
        → Tells (F.world (arc_value fetcher))
        (telling_of S.Analyze.infos S.Tree.paths S.Urls.meaning S.Resolve.is_told
        S.Resolve.meaning options.old) (known_in S.Lock.remote S.Lock.manifests options.old)
        told
        → AreStaticFirst told (given_to graph.old.kind roots.items imports.items)
        → OnOk result
        (Noted (F.caches (arc_value fetcher)) (F.world (arc_value fetcher))
        (IsStaticFirst told (given_to graph.old.kind roots.items imports.items)) graph.new) }
    // Whatever the answer, each sum that the locker is told is that of the source of a module that was made there, from the network and no declaration.
    ensures sources { (told : Told)
        → Tells (F.world (arc_value fetcher))
        (telling_of S.Analyze.infos S.Tree.paths S.Urls.meaning S.Resolve.is_told
        S.Resolve.meaning options.old) (known_in S.Lock.remote S.Lock.manifests options.old)
        told
        → LearnsSourcesIn told graph.old (given_over roots.items imports.items)
        (sums_in S.Lock.remote options.old) (sums_in S.Lock.remote options.new) }
    // Each sum of a manifest that it is told is that of the version's file.
    ensures versions { (told : Told)
        → Tells (F.world (arc_value fetcher))
        (telling_of S.Analyze.infos S.Tree.paths S.Urls.meaning S.Resolve.is_told
        S.Resolve.meaning options.old) (known_in S.Lock.remote S.Lock.manifests options.old)
        told
        → OnOk result
        (LearnsVersions told graph.old (given_over roots.items imports.items)
        (manifests_in S.Lock.manifests options.old)
        (manifests_in S.Lock.manifests options.new)) }
    // Whoever answers, each question that a run puts is another one, and what the last run asks about the graph knows in the end; at most as many are put as the budget allows.
    ensures asks_once { OnOk result
        (Noted (F.caches (arc_value fetcher)) (F.world (arc_value fetcher))
        (λ bare. (asked : ℕ)
        × AsksOnce (S.Urls.meaning options.old.jsr_url_provider.now) bare 0 asked
        × (asked ≤ options.old.max_loads)) graph.new) }
    ensures options { without_locker options.new ≡ without_locker options.old }
    // The store, where one is given, keeps what it had.
    ensures store { KeepsStore options.old.jsr_metadata_store options.new.jsr_metadata_store }
    // Whatever the answer, the locker still knows all that it knew.
    ensures locker { KeepsSums (sums_in S.Lock.remote options.old)
        (sums_in S.Lock.remote options.new) }
    ensures manifests_kept { StillKnows (manifests_in S.Lock.manifests options.old)
        (manifests_in S.Lock.manifests options.new) }
    // After every other fault than want of memory the locker knows exactly what it knew.
    ensures unlearned { IfErr result (λ fault. (fault ≡ BuildFault.Memory → ⊥)
        → (sums_in S.Lock.remote options.new ≡ sums_in S.Lock.remote options.old)
        × (manifests_in S.Lock.manifests options.new ≡ manifests_in S.Lock.manifests options.old)) }
    ensures emptied { OnErr result (graph.new ≡ new_graph graph.old.kind) }
    // A budget of as many loads as a list that covers the reached questions of each run has, twice where the build may begin once more, is never spent.
    ensures room { (told : Told) (questions : List Counted)
        → Tells (F.world (arc_value fetcher))
        (telling_of S.Analyze.infos S.Tree.paths S.Urls.meaning S.Resolve.is_told
        S.Resolve.meaning options.old) (known_in S.Lock.remote S.Lock.manifests options.old)
        told
        → Covers told (given_to graph.old.kind roots.items imports.items) questions
        → enough graph.old (given_over roots.items imports.items) questions ≤ options.old.max_loads
        → IfErr result (λ fault. fault ≡ BuildFault.Budget → ⊥) }
    // A covered build succeeds, or finds no memory.
    ensures covered { (told : Told) (questions : List Counted)
        → Tells (F.world (arc_value fetcher))
        (telling_of S.Analyze.infos S.Tree.paths S.Urls.meaning S.Resolve.is_told
        S.Resolve.meaning options.old) (known_in S.Lock.remote S.Lock.manifests options.old)
        told
        → CoversRuns told graph.old (given_over roots.items imports.items) questions
        → enough graph.old (given_over roots.items imports.items) questions ≤ options.old.max_loads
        → IfErr result (λ fault. fault ≡ BuildFault.Memory) }
    // From what is given, the loads that turns answered and those that are open are more than the budget.
    ensures over { IfErr result
        (λ fault. fault ≡ BuildFault.Budget
        → (redirects : ℕ) × (start : ResolvedStart)
        × IsResolved
        (telling_of S.Analyze.infos S.Tree.paths S.Urls.meaning S.Resolve.is_told
        S.Resolve.meaning options.old).resolving
        (given_over roots.items imports.items) start
        × IsOver redirects (known_in S.Lock.remote S.Lock.manifests options.old)
        (F.world (arc_value fetcher))
        (means_by
        (telling_of S.Analyze.infos S.Tree.paths S.Urls.meaning S.Resolve.is_told
        S.Resolve.meaning options.old) (flags_of options.old) graph.old.kind)
        (begun_over (known_in S.Lock.remote S.Lock.manifests options.old) graph.old
        start) options.old.max_loads) }
    // And those of a run that follows as many redirects as the world says.
    ensures over_told { IfErr result
        (λ fault. fault ≡ BuildFault.Budget
        → IfSome (F.world (arc_value fetcher))
        (λ w. (start : ResolvedStart)
        × IsResolved
        (telling_of S.Analyze.infos S.Tree.paths S.Urls.meaning S.Resolve.is_told
        S.Resolve.meaning options.old).resolving
        (given_over roots.items imports.items) start
        × IsOver w.max_redirects (known_in S.Lock.remote S.Lock.manifests options.old)
        (F.world (arc_value fetcher))
        (means_by
        (telling_of S.Analyze.infos S.Tree.paths S.Urls.meaning
        S.Resolve.is_told S.Resolve.meaning options.old)
        (flags_of options.old) graph.old.kind)
        (begun_over (known_in S.Lock.remote S.Lock.manifests options.old) graph.old
        start) options.old.max_loads)) }
    // So that a further call on the graph is told.
    ensures no_circle { OnOk result (HasNoCircle graph.new) }
    // A pool never fails but for want of memory.
    ensures no_fault { IfErr result (λ fault. fault ≡ BuildFault.Loader → ⊥) }
{
    let pool = Pool::start(rt, alloc, fetcher, workers, WINDOW)?;
    let built = build_waiting(rt, alloc, graph, roots, imports, pool, options);
    let (done, pool) = built;
    pool.close(rt);
    done
}
