// Loads enter a graph, which is built to its end: what a reload and the packages of npm in their place have in common.
ghost use Rattle.std.specs.Prelude.{◌≡◌, ◌≤◌, ◌<◌, ◌+◌, ℕ, List, [], true, false, length, Some, OnOk, OnErr, IfErr, IfSome};
ghost use Rattle.source_io.specs.Tickets.{IsPut};
ghost use Rattle.spec_base.specs.Counters.{Rose};
ghost use Rattle.graph_core.specs.Graph.{new_graph};
ghost use Rattle.graph_core.specs.declared.graph.ModuleGraph.{ModuleGraph};
ghost use Rattle.turn_laws.specs.Promise.Complete.{NonePending};
ghost use Rattle.turn_laws.specs.Budget.Asked.{AsksOnce};
ghost use Rattle.turn_laws.specs.Budget.Covers.{Counted, CoversFrom};
ghost use Rattle.graph_turns.specs.Promise.Explains.{LearnsSources};
ghost use Rattle.graph_turns.specs.Promise.Runs.{IsGrownBy};
ghost use Rattle.graph_turns.specs.declared.run.Run.TheVariants.{Only};
ghost use Rattle.graph_turns.specs.Machine.Runs.{told_for};
ghost use Rattle.build_options.specs.Telling.{Tells, flags_of, known_in, manifests_in, npm_in, sums_in, telling_of, without_locker};
ghost use Rattle.graph_turns.specs.Promise.Told.{Told};
ghost use Rattle.graph_builder.specs.Calls.Loaders.{KeepsLoader};
ghost use Rattle.graph_builder.specs.Calls.Makers.{means_by, means_in};
ghost use Rattle.cache_filling.specs.Noted.{Noted};
ghost use Rattle.graph_builder.specs.Calls.Steps.{KeepsGiven, given_graph, is_begun, is_finished, IsGoing};
ghost use Rattle.open_loads.specs.Order.Entered.{no_turns};
ghost use Rattle.open_loads.specs.Taught.{KeepsStore, LearnsVersionsIn, StillKnows};
ghost use Rattle.graph_builder.specs.Order.InFlight.{Matches};
ghost use Rattle.open_loads.specs.Order.Means.{IsTold};
ghost use Rattle.open_loads.specs.Budget.Runs.{IsOver};
ghost use Rattle.graph_turns.specs.Machine.Sums.{IsTaught, KeepsSums};
ghost use Rattle.graph_turns.specs.Machine.Turns.{PutsOver, PutsWithin, TellsTurns, TurnsOut};
ghost use Rattle.graph_turns.specs.Machine.Entering.{begun_at};
ghost use Rattle.graph_builder.specs.Calls.Over.{AreOutset, IsLeftBy, IsMended, entered};

use build_options::BuildOptions;
use graph_builder::{Build, give_back, run_turns};
use graph_core::{Load, ModuleGraph};
use open_loads::BuildFault;
use slot_making::Services;
use source_io::Loader;
use std::alloc::Global;
use std::mem;

// Loads enter the graph of a build, which runs to its end and is finished.
fn run_over<L: Loader, S: Services>(
    build: &mut Build<'_, S>,
    loads: Vec<Load>,
    loader: &mut L,
) -> Result<(), BuildFault>
    requires going { IsGoing build.old }
    requires begins { build.old.turns
        ≡ no_turns build.old.turns.known build.old.turns.state.graph build.old.turns.redirects
        build.old.turns.max_loads }
    requires begun { is_begun build.old.phase ≡ true }
    requires unfinished { is_finished build.old.phase ≡ false }
    requires matches { Matches (L.open_tickets loader.old) build.old.turns }
    requires closed { L.open_tickets loader.old ≡ [] }
    requires outset { AreOutset loads.items }
    ensures complete { IsMended (entered build.old.turns.state.graph loads.items)
        → NonePending build.old.turns.state.graph
        → OnOk result
        (Noted (L.caches loader.old) (L.world loader.old)
        (IsLeftBy build.old.turns.known.flags (entered build.old.turns.state.graph loads.items))
        (given_graph build.new)) }
    ensures explained { (told : Told)
        → IsTold (L.world loader.old)
        (means_in S.Analyze.infos S.Tree.paths S.Urls.meaning S.Resolve.is_told
        S.Resolve.meaning build.old) told build.old.turns.state.graph.kind
        → npm_in S.Npm.table build.old.options ≡ Some told.npm
        → build.old.turns.redirects ≡ told.world.max_redirects
        → build.old.turns.known ≡ told.known
        → IsMended (entered build.old.turns.state.graph loads.items)
        → NonePending build.old.turns.state.graph
        → OnOk result
        (Noted (L.caches loader.old) (L.world loader.old)
        (λ bare. IsGrownBy bare (told_for told Only)
        (entered build.old.turns.state.graph loads.items)) (given_graph build.new)) }
    ensures turned { (told : Told)
        → IsTold (L.world loader.old)
        (means_in S.Analyze.infos S.Tree.paths S.Urls.meaning S.Resolve.is_told
        S.Resolve.meaning build.old) told build.old.turns.state.graph.kind
        → npm_in S.Npm.table build.old.options ≡ Some told.npm
        → build.old.turns.redirects ≡ told.world.max_redirects
        → build.old.turns.known ≡ told.known
        → OnOk result
        (Noted (L.caches loader.old) (L.world loader.old)
        (λ bare. TurnsOut told build.old.turns.state.graph.kind
        (begun_at told.known (entered build.old.turns.state.graph loads.items)) bare
        build.new.turns.state.sums build.new.turns.known.store (L.asked loader.old)
        (L.asked loader.new)) (given_graph build.new)) }
    ensures afforded { (told : Told)
        → IsTold (L.world loader.old)
        (means_in S.Analyze.infos S.Tree.paths S.Urls.meaning S.Resolve.is_told
        S.Resolve.meaning build.old) told build.old.turns.state.graph.kind
        → build.old.turns.redirects ≡ told.world.max_redirects
        → build.old.turns.known ≡ told.known
        → OnOk result
        (PutsWithin told build.old.turns.state.graph.kind
        (begun_at told.known (entered build.old.turns.state.graph loads.items))
        build.old.turns.max_loads) }
    ensures taught { OnOk result
        (IsTaught build.old.turns.known.sums build.new.turns.state.sums
        build.new.turns.known.sums) }
    ensures kept { KeepsSums build.old.turns.known.sums build.new.turns.known.sums }
    ensures manifests_kept { StillKnows build.old.turns.known.manifests
        build.new.turns.known.manifests }
    ensures store { KeepsStore build.old.turns.known.store build.new.turns.known.store }
    ensures sources { (told : Told)
        → IsTold (L.world loader.old)
        (means_in S.Analyze.infos S.Tree.paths S.Urls.meaning S.Resolve.is_told
        S.Resolve.meaning build.old) told build.old.turns.state.graph.kind
        → build.old.turns.redirects ≡ told.world.max_redirects
        → build.old.turns.known ≡ told.known
        → LearnsSources (told_for told Only)
        (entered build.old.turns.state.graph loads.items)
        build.new.turns.known.sums }
    ensures unlearned { IfErr result
        (λ f. (f ≡ BuildFault.Memory → ⊥) → build.new.turns.known ≡ build.old.turns.known) }
    ensures over { IfErr result
        (λ f. f ≡ BuildFault.Budget
        → IsOver build.old.turns.redirects build.old.turns.known (L.world loader.old)
        (means_in S.Analyze.infos S.Tree.paths S.Urls.meaning S.Resolve.is_told
        S.Resolve.meaning build.old)
        (begun_at build.old.turns.known (entered build.old.turns.state.graph loads.items))
        build.old.turns.max_loads) }
    ensures versions { (told : Told)
        → IsTold (L.world loader.old)
        (means_in S.Analyze.infos S.Tree.paths S.Urls.meaning S.Resolve.is_told
        S.Resolve.meaning build.old) told build.old.turns.state.graph.kind
        → build.old.turns.redirects ≡ told.world.max_redirects
        → build.old.turns.known ≡ told.known
        → OnOk result
        (LearnsVersionsIn (told_for told Only)
        (entered build.old.turns.state.graph loads.items) build.old.turns.known.manifests
        build.new.turns.known.manifests) }
    ensures asks { IsMended (entered build.old.turns.state.graph loads.items)
        → OnOk result
        (Noted (L.caches loader.old) (L.world loader.old)
        (λ bare. AsksOnce (S.Urls.meaning build.old.options.jsr_url_provider.now) bare
        (L.asked loader.old) (L.asked loader.new)) (given_graph build.new)) }
    ensures emptied { OnErr result (given_graph build.new ≡ new_graph build.old.kind) }
    ensures closed { OnOk result (L.open_tickets loader.new ≡ []) }
    ensures room { (told : Told) (questions : List Counted)
        → IsTold (L.world loader.old)
        (means_in S.Analyze.infos S.Tree.paths S.Urls.meaning S.Resolve.is_told
        S.Resolve.meaning build.old) told build.old.turns.state.graph.kind
        → build.old.turns.redirects ≡ told.world.max_redirects
        → build.old.turns.known ≡ told.known
        → IsMended (entered build.old.turns.state.graph loads.items)
        → CoversFrom (told_for told Only)
        (entered build.old.turns.state.graph loads.items)
        questions
        → length questions ≤ build.old.turns.max_loads
        → IfErr result (λ f. f ≡ BuildFault.Budget → ⊥) }
    ensures keeps { KeepsGiven build.old build.new }
    ensures loader { KeepsLoader L.world L.may_fail L.caches L.faults loader.old loader.new }
    ensures budget { IfErr result
        (λ f. f ≡ BuildFault.Budget
        → IsPut build.old.turns.max_loads (L.asked loader.old) (L.asked loader.new)) }
    ensures within { L.asked loader.new ≤ L.asked loader.old + build.old.turns.max_loads }
    ensures allowed { IfErr result
        (λ f. f ≡ BuildFault.Loader → L.may_fail loader.old (L.asked loader.new) ≡ true) }
    ensures failed { IfErr result
        (λ f. f ≡ BuildFault.Loader → Rose (L.faults loader.old) (L.faults loader.new)) }
{
    build.enter_loads(loads)?;
    match run_turns(build, loader) {
        Ok(()) => build.finish(loader),
        Err(fault) => Err(fault),
    }
}

/// Loads enter a graph: the loader is asked for each specifier without a slot that they and their imports and redirects lead
/// to, once, and the module or the error that its answer gives is stored. The faults are those of a build; after each of them
/// the graph is empty.
pub(crate) fn build_over<L: Loader, S: Services>(
    alloc: Global,
    graph: &mut ModuleGraph,
    loads: Vec<Load>,
    loader: &mut L,
    options: &mut BuildOptions<'_, S>,
) -> Result<(), BuildFault>
    requires closed { L.open_tickets loader.old ≡ [] }
    requires outset { AreOutset loads.items }
    ensures complete { IsMended (entered graph.old loads.items)
        → NonePending graph.old
        → OnOk result
        (Noted (L.caches loader.old) (L.world loader.old)
        (IsLeftBy (flags_of options.old) (entered graph.old loads.items)) graph.new) }
    ensures explained { IsMended (entered graph.old loads.items)
        → NonePending graph.old
        → (told : Told)
        → Tells (L.world loader.old)
        (telling_of S.Analyze.infos S.Tree.paths S.Urls.meaning S.Resolve.is_told
        S.Resolve.meaning options.old)
        (known_in S.Lock.remote S.Lock.manifests options.old) told
        → npm_in S.Npm.table options.old ≡ Some told.npm
        → OnOk result
        (Noted (L.caches loader.old) (L.world loader.old)
        (λ bare. IsGrownBy bare (told_for told Only) (entered graph.old loads.items))
        graph.new) }
    ensures turned { (told : Told)
        → Tells (L.world loader.old)
        (telling_of S.Analyze.infos S.Tree.paths S.Urls.meaning S.Resolve.is_told
        S.Resolve.meaning options.old)
        (known_in S.Lock.remote S.Lock.manifests options.old) told
        → npm_in S.Npm.table options.old ≡ Some told.npm
        → OnOk result
        (Noted (L.caches loader.old) (L.world loader.old)
        (λ bare. TellsTurns told graph.old.kind
        (begun_at told.known (entered graph.old loads.items)) bare
        (sums_in S.Lock.remote options.new) options.new.jsr_metadata_store
        (L.asked loader.old) (L.asked loader.new)) graph.new) }
    ensures afforded { (told : Told)
        → Tells (L.world loader.old)
        (telling_of S.Analyze.infos S.Tree.paths S.Urls.meaning S.Resolve.is_told
        S.Resolve.meaning options.old)
        (known_in S.Lock.remote S.Lock.manifests options.old) told
        → OnOk result
        (PutsWithin told graph.old.kind
        (begun_at told.known (entered graph.old loads.items)) options.old.max_loads) }
    ensures overspent { (told : Told)
        → Tells (L.world loader.old)
        (telling_of S.Analyze.infos S.Tree.paths S.Urls.meaning S.Resolve.is_told
        S.Resolve.meaning options.old)
        (known_in S.Lock.remote S.Lock.manifests options.old) told
        → IfErr result
        (λ fault. fault ≡ BuildFault.Budget
        → PutsOver told graph.old.kind
        (begun_at told.known (entered graph.old loads.items)) options.old.max_loads) }
    ensures sources { (told : Told)
        → Tells (L.world loader.old)
        (telling_of S.Analyze.infos S.Tree.paths S.Urls.meaning S.Resolve.is_told
        S.Resolve.meaning options.old)
        (known_in S.Lock.remote S.Lock.manifests options.old) told
        → LearnsSources (told_for told Only)
        (entered graph.old loads.items)
        (sums_in S.Lock.remote options.new) }
    ensures versions { (told : Told)
        → Tells (L.world loader.old)
        (telling_of S.Analyze.infos S.Tree.paths S.Urls.meaning S.Resolve.is_told
        S.Resolve.meaning options.old)
        (known_in S.Lock.remote S.Lock.manifests options.old) told
        → OnOk result
        (LearnsVersionsIn (told_for told Only)
        (entered graph.old loads.items)
        (manifests_in S.Lock.manifests options.old)
        (manifests_in S.Lock.manifests options.new)) }
    ensures asks_once { IsMended (entered graph.old loads.items)
        → OnOk result
        (Noted (L.caches loader.old) (L.world loader.old)
        (λ bare. AsksOnce (S.Urls.meaning options.old.jsr_url_provider.now) bare
        (L.asked loader.old) (L.asked loader.new)) graph.new) }
    ensures closed { OnOk result (L.open_tickets loader.new ≡ []) }
    ensures loader { KeepsLoader L.world L.may_fail L.caches L.faults loader.old loader.new }
    ensures options { without_locker options.new ≡ without_locker options.old }
    ensures store { KeepsStore options.old.jsr_metadata_store options.new.jsr_metadata_store }
    ensures locker { KeepsSums (sums_in S.Lock.remote options.old)
        (sums_in S.Lock.remote options.new) }
    ensures manifests_kept { StillKnows (manifests_in S.Lock.manifests options.old)
        (manifests_in S.Lock.manifests options.new) }
    ensures unlearned { IfErr result
        (λ fault. (fault ≡ BuildFault.Memory → ⊥)
        → (sums_in S.Lock.remote options.new ≡ sums_in S.Lock.remote options.old)
        × (manifests_in S.Lock.manifests options.new
        ≡ manifests_in S.Lock.manifests options.old)) }
    ensures emptied { OnErr result (graph.new ≡ new_graph graph.old.kind) }
    ensures room { IsMended (entered graph.old loads.items)
        → (told : Told) (questions : List Counted)
        → Tells (L.world loader.old)
        (telling_of S.Analyze.infos S.Tree.paths S.Urls.meaning S.Resolve.is_told
        S.Resolve.meaning options.old)
        (known_in S.Lock.remote S.Lock.manifests options.old) told
        → CoversFrom (told_for told Only)
        (entered graph.old loads.items)
        questions
        → length questions ≤ options.old.max_loads
        → IfErr result (λ fault. fault ≡ BuildFault.Budget → ⊥) }
    ensures covered { IsMended (entered graph.old loads.items)
        → (told : Told) (questions : List Counted)
        → Tells (L.world loader.old)
        (telling_of S.Analyze.infos S.Tree.paths S.Urls.meaning S.Resolve.is_told
        S.Resolve.meaning options.old)
        (known_in S.Lock.remote S.Lock.manifests options.old) told
        → CoversFrom (told_for told Only)
        (entered graph.old loads.items)
        questions
        → length questions ≤ options.old.max_loads
        → (Rose (L.faults loader.old) (L.faults loader.new) → ⊥)
        → IfErr result (λ fault. fault ≡ BuildFault.Memory) }
    ensures over { IfErr result
        (λ fault. fault ≡ BuildFault.Budget
        → (redirects : ℕ)
        × IsOver redirects (known_in S.Lock.remote S.Lock.manifests options.old)
        (L.world loader.old)
        (means_by
        (telling_of S.Analyze.infos S.Tree.paths S.Urls.meaning
        S.Resolve.is_told S.Resolve.meaning options.old)
        (flags_of options.old) graph.old.kind)
        (begun_at (known_in S.Lock.remote S.Lock.manifests options.old) (entered graph.old loads.items)) options.old.max_loads) }
    ensures over_told { IfErr result
        (λ fault. fault ≡ BuildFault.Budget
        → IfSome (L.world loader.old)
        (λ w. IsOver w.max_redirects
        (known_in S.Lock.remote S.Lock.manifests options.old) (L.world loader.old)
        (means_by
        (telling_of S.Analyze.infos S.Tree.paths S.Urls.meaning
        S.Resolve.is_told S.Resolve.meaning options.old)
        (flags_of options.old) graph.old.kind)
        (begun_at (known_in S.Lock.remote S.Lock.manifests options.old) (entered graph.old loads.items)) options.old.max_loads)) }
    ensures budget { IfErr result (λ fault. fault ≡ BuildFault.Budget
        → IsPut options.old.max_loads (L.asked loader.old) (L.asked loader.new)) }
    ensures within { L.asked loader.new ≤ L.asked loader.old + options.old.max_loads }
    ensures allowed { IfErr result
        (λ fault. fault ≡ BuildFault.Loader
        → L.may_fail loader.old (L.asked loader.new) ≡ true) }
    ensures failed { IfErr result
        (λ fault. fault ≡ BuildFault.Loader
        → Rose (L.faults loader.old) (L.faults loader.new)) }
{
    let kind = graph.graph_kind();
    let own_graph = mem::replace(graph, ModuleGraph::new(alloc, kind));
    let max_redirects = loader.max_redirects();
    let own = options.take();
    let mut build = Build::start(
        alloc,
        own_graph,
        Vec::new(alloc),
        Vec::new(alloc),
        max_redirects,
        own,
    );
    let done = run_over(&mut build, loads, loader);
    give_back(build, graph, options);
    done
}
