// A build runs: all queued questions are asked, one answer is taken, and so on, whatever order the answers arrive in.
ghost use Rattle.std.specs.Prelude.{◌≡◌, ◌≤◌, ◌<◌, ◌+◌, ℕ, List, [], true, false, length, Some, OnOk, OnErr, IfErr};
ghost use Rattle.source_io.specs.Tickets.{IsPut};
ghost use Rattle.spec_base.specs.Counters.{Rose};
ghost use Rattle.graph_core.specs.Graph.{new_graph};
ghost use Rattle.graph_core.specs.declared.graph.ModuleGraph.{ModuleGraph};
ghost use Rattle.turn_laws.specs.Promise.Complete.{IsComplete, NonePending};
ghost use Rattle.turn_laws.specs.Budget.Asked.{AsksOnce};
ghost use Rattle.turn_laws.specs.Budget.Covers.{Counted, CoversRuns, enough};
ghost use Rattle.graph_turns.specs.declared.unresolved_input.LeftOver.{LeftOver};
ghost use Rattle.graph_builder.specs.Calls.Builds.{BuildsOn, GoesBy, IsBuiltOver};
ghost use Rattle.graph_builder.specs.Calls.Driven.{IsLater, IsAllAsked, IsOneAnswered, EndsOver, GoesOver, IsSpent};
ghost use Rattle.graph_turns.specs.Promise.Runs.{AreStaticFirst, IsGrownTo, IsStaticFirst, left_of};
ghost use Rattle.graph_turns.specs.Machine.Runs.{begun_over};
ghost use Rattle.graph_turns.specs.Machine.Starting.{told_start};
ghost use Rattle.graph_turns.specs.Promise.Input.{Given};
ghost use Rattle.build_options.specs.Telling.{manifests_in, npm_in, sums_in, without_locker};
ghost use Rattle.graph_turns.specs.Promise.Told.{Told};
ghost use Rattle.graph_builder.specs.Calls.Loaders.{KeepsLoader};
ghost use Rattle.graph_builder.specs.Calls.Makers.{directions_in, means_in, resolving_in};
ghost use Rattle.cache_filling.specs.Noted.{Noted};
ghost use Rattle.graph_builder.specs.Calls.Steps.{KeepsBuild, KeepsGiven, given_graph, is_begun, is_finished, IsDone, IsGoing};
ghost use Rattle.open_loads.specs.Order.Entered.{no_turns};
ghost use Rattle.open_loads.specs.Taught.{KeepsStore, LearnsSourcesIn, LearnsVersions, StillKnows};
ghost use Rattle.graph_builder.specs.Order.InFlight.{Matches};
ghost use Rattle.open_loads.specs.Order.Means.{IsTold};
ghost use Rattle.graph_turns.specs.Machine.Sums.{IsTaught, KeepsSums};
ghost use Rattle.graph_turns.specs.Machine.Turns.{PutsAtLeast, PutsWithin, TurnsOut};

use crate::machine::Build;
use build_options::BuildOptions;
use graph_core::ModuleGraph;
use open_loads::BuildFault;
use slot_making::Services;
use source_io::{Loader, LoaderCore};

// Asks all queued questions.
fn ask_all<L: LoaderCore, S: Services>(
    build: &mut Build<'_, S>,
    loader: &mut L,
) -> Result<(), BuildFault>
    requires going { IsGoing build.old }
    requires begun { is_begun build.old.phase ≡ true }
    requires matches { Matches (L.open_tickets loader.old) build.old.turns }
    ensures asked { OnOk result (IsAllAsked build.old build.new) }
    ensures none_queued { OnOk result (build.new.turns.queue ≡ []) }
    ensures matches { OnOk result (Matches (L.open_tickets loader.new) build.new.turns) }
    ensures keeps { KeepsBuild build.old build.new }
    ensures finished { is_finished build.old.phase ≡ false → is_finished build.new.phase ≡ false }
    ensures below { OnOk result
        (L.asked loader.new + build.old.turns.taken ≤ L.asked loader.old + build.new.turns.taken) }
    ensures within { L.asked loader.new + build.old.turns.taken
        ≤ L.asked loader.old + build.old.turns.max_loads }
    ensures counted { OnOk result
        ((before : ℕ) → IsPut build.old.turns.taken before (L.asked loader.old)
        → IsPut build.new.turns.taken before (L.asked loader.new)) }
    ensures counted_over { IfErr result (λ f. f ≡ BuildFault.Budget
        → (before : ℕ) → IsPut build.old.turns.taken before (L.asked loader.old)
        → IsPut build.old.turns.max_loads before (L.asked loader.new)) }
    ensures opened { OnOk result
        ((n : ℕ) → n + length (L.open_tickets loader.old) ≡ build.old.turns.taken
        → n + length (L.open_tickets loader.new) ≡ build.new.turns.taken) }
    ensures loader { KeepsLoader L.world L.may_fail L.caches L.faults loader.old loader.new }
    ensures over { IfErr result (λ f. f ≡ BuildFault.Budget → IsSpent build.old) }
    ensures no_fault { IfErr result (λ f. f ≡ BuildFault.Loader → ⊥) }
{
    while let Some((ticket, question)) = build.take_question()? {
        loader.ask(ticket, question)?;
    }
    Ok(())
}

// Gives the build the loader's next answer, whichever open question it answers.
fn answer_one<L: Loader, S: Services>(
    build: &mut Build<'_, S>,
    loader: &mut L,
) -> Result<(), BuildFault>
    requires going { IsGoing build.old }
    requires begun { is_begun build.old.phase ≡ true }
    requires matches { Matches (L.open_tickets loader.old) build.old.turns }
    requires some { 0 < length (L.open_tickets loader.old) }
    ensures answered { OnOk result
        (IsOneAnswered (L.world loader.old)
        (means_in S.Analyze.infos S.Tree.paths S.Urls.meaning S.Resolve.is_told
        S.Resolve.meaning build.old) build.old build.new) }
    ensures matches { OnOk result (Matches (L.open_tickets loader.new) build.new.turns) }
    ensures keeps { KeepsBuild build.old build.new }
    ensures finished { is_finished build.old.phase ≡ false → is_finished build.new.phase ≡ false }
    ensures closed { OnOk result
        (length (L.open_tickets loader.old) ≡ length (L.open_tickets loader.new) + 1) }
    ensures uncounted { L.asked loader.new ≡ L.asked loader.old }
    ensures loader { KeepsLoader L.world L.may_fail L.caches L.faults loader.old loader.new }
    ensures no_budget { IfErr result (λ f. f ≡ BuildFault.Budget → ⊥) }
    ensures allowed { IfErr result
        (λ f. f ≡ BuildFault.Loader → L.may_fail loader.old (L.asked loader.new) ≡ true) }
    ensures failed { IfErr result
        (λ f. f ≡ BuildFault.Loader → Rose (L.faults loader.old) (L.faults loader.new)) }
{
    let (ticket, answer) = loader.next()?;
    build.answer(ticket, answer)?;
    Ok(())
}

/// Takes the turns of a build that has begun: all queued questions are put to the loader, one of its answers is taken, and so on, until
/// nothing is left.
///
/// `Budget` comes only where as many questions were put as may be and one more is queued, `Loader` only where the loader failed, and `Memory`
/// where there was no memory. Nothing is left open in the loader after Ok.
pub fn run_turns<L: Loader, S: Services>(
    build: &mut Build<'_, S>,
    loader: &mut L,
) -> Result<(), BuildFault>
    requires going { IsGoing build.old }
    requires none_taken { build.old.turns.taken ≡ 0 }
    requires begun { is_begun build.old.phase ≡ true }
    requires matches { Matches (L.open_tickets loader.old) build.old.turns }
    requires closed { L.open_tickets loader.old ≡ [] }
    ensures done { OnOk result (IsDone build.new) }
    ensures going { OnOk result (IsGoing build.new) }
    ensures later { OnOk result
        (IsLater (L.world loader.old)
        (means_in S.Analyze.infos S.Tree.paths S.Urls.meaning S.Resolve.is_told
        S.Resolve.meaning build.old) build.old build.new) }
    ensures finished { is_finished build.old.phase ≡ false → is_finished build.new.phase ≡ false }
    ensures keeps { KeepsBuild build.old build.new }
    ensures closed { OnOk result (L.open_tickets loader.new ≡ []) }
    ensures counted { OnOk result
        (IsPut build.new.turns.taken (L.asked loader.old) (L.asked loader.new)) }
    ensures over { IfErr result
        (λ f. f ≡ BuildFault.Budget
        → GoesOver (L.world loader.old)
        (means_in S.Analyze.infos S.Tree.paths S.Urls.meaning S.Resolve.is_told
        S.Resolve.meaning build.old) build.old) }
    ensures loader { KeepsLoader L.world L.may_fail L.caches L.faults loader.old loader.new }
    ensures budget { IfErr result
        (λ f. f ≡ BuildFault.Budget
        → IsPut build.old.turns.max_loads (L.asked loader.old) (L.asked loader.new)) }
    ensures within { L.asked loader.new ≤ L.asked loader.old + build.old.turns.max_loads }
    ensures allowed { IfErr result
        (λ f. f ≡ BuildFault.Loader → L.may_fail loader.old (L.asked loader.new) ≡ true) }
    ensures failed { IfErr result
        (λ f. f ≡ BuildFault.Loader → Rose (L.faults loader.old) (L.faults loader.new)) }
    ensures paced { IfErr result (λ f. f ≡ BuildFault.Loader
        → (told : Told) (g : ModuleGraph) (given : LeftOver)
        → IsTold (L.world loader.old)
        (means_in S.Analyze.infos S.Tree.paths S.Urls.meaning S.Resolve.is_told
        S.Resolve.meaning build.old) told g.kind
        → GoesBy told g given build.old
        → PutsAtLeast told g.kind (begun_over told.known g (told_start told given))
        (L.asked loader.old) (L.asked loader.new)) }
{
    let budget = build.max_loads();
    let mut answered: u64 = 0;
    'turns: loop {
        match ask_all(build, loader) {
            Ok(()) => (),
            Err(fault) => return Err(fault),
        }
        if loader.open_len() == 0 {
            return Ok(());
        }
        match answer_one(build, loader) {
            Ok(()) => (),
            Err(fault) => return Err(fault),
        }
        answered += 1;
    }
}

// Enters what is left over, runs a build to its end, and finishes it.
pub(crate) fn run_build<L: Loader, S: Services>(
    build: &mut Build<'_, S>,
    loader: &mut L,
) -> Result<(), BuildFault>
    requires going { IsGoing build.old }
    requires begins { build.old.turns
        ≡ no_turns build.old.turns.known build.old.turns.state.graph build.old.turns.redirects
        build.old.turns.max_loads }
    requires unfinished { is_finished build.old.phase ≡ false }
    requires matches { Matches (L.open_tickets loader.old) build.old.turns }
    requires closed { L.open_tickets loader.old ≡ [] }
    ensures complete { (given : Given)
        → BuildsOn (directions_in S.Urls.meaning S.Resolve.is_told S.Resolve.meaning build.old)
        (new_graph given.kind) (left_of given) build.old
        → OnOk result
        (Noted (L.caches loader.old) (L.world loader.old)
        (IsComplete (resolving_in S.Urls.meaning S.Resolve.is_told S.Resolve.meaning build.old)
        build.old.turns.known.flags given) (given_graph build.new)) }
    ensures complete_over { (g : ModuleGraph) (given : LeftOver)
        → BuildsOn (directions_in S.Urls.meaning S.Resolve.is_told S.Resolve.meaning build.old) g
        given build.old
        → NonePending g
        → OnOk result
        (Noted (L.caches loader.old) (L.world loader.old)
        (IsBuiltOver (resolving_in S.Urls.meaning S.Resolve.is_told S.Resolve.meaning build.old)
        build.old.turns.known.flags g given) (given_graph build.new)) }
    ensures explained { (told : Told) (g : ModuleGraph) (given : LeftOver)
        → IsTold (L.world loader.old)
        (means_in S.Analyze.infos S.Tree.paths S.Urls.meaning S.Resolve.is_told
        S.Resolve.meaning build.old) told g.kind
        → npm_in S.Npm.table build.old.options ≡ Some told.npm
        → GoesBy told g given build.old
        → NonePending g
        → OnOk result
        (Noted (L.caches loader.old) (L.world loader.old) (IsGrownTo told g given) (given_graph build.new)) }
    ensures turned { (told : Told) (g : ModuleGraph) (given : LeftOver)
        → IsTold (L.world loader.old)
        (means_in S.Analyze.infos S.Tree.paths S.Urls.meaning S.Resolve.is_told
        S.Resolve.meaning build.old) told g.kind
        → npm_in S.Npm.table build.old.options ≡ Some told.npm
        → GoesBy told g given build.old
        → OnOk result
        (Noted (L.caches loader.old) (L.world loader.old)
        (λ bare. TurnsOut told g.kind (begun_over told.known g (told_start told given)) bare
        build.new.turns.state.sums build.new.turns.known.store (L.asked loader.old)
        (L.asked loader.new)) (given_graph build.new)) }
    ensures afforded { (told : Told) (g : ModuleGraph) (given : LeftOver)
        → IsTold (L.world loader.old)
        (means_in S.Analyze.infos S.Tree.paths S.Urls.meaning S.Resolve.is_told
        S.Resolve.meaning build.old) told g.kind
        → GoesBy told g given build.old
        → OnOk result
        (PutsWithin told g.kind (begun_over told.known g (told_start told given))
        build.old.turns.max_loads) }
    ensures taught { OnOk result
        (IsTaught build.old.turns.known.sums build.new.turns.state.sums
        build.new.turns.known.sums) }
    ensures kept { KeepsSums build.old.turns.known.sums build.new.turns.known.sums }
    ensures manifests_kept { StillKnows build.old.turns.known.manifests
        build.new.turns.known.manifests }
    ensures store { KeepsStore build.old.turns.known.store build.new.turns.known.store }
    ensures static_first { (told : Told) (given : Given)
        → IsTold (L.world loader.old)
        (means_in S.Analyze.infos S.Tree.paths S.Urls.meaning S.Resolve.is_told
        S.Resolve.meaning build.old) told given.kind
        → GoesBy told (new_graph given.kind) (left_of given) build.old
        → AreStaticFirst told given
        → OnOk result
        (Noted (L.caches loader.old) (L.world loader.old) (IsStaticFirst told given) (given_graph build.new)) }
    ensures sources { (told : Told) (g : ModuleGraph) (given : LeftOver)
        → IsTold (L.world loader.old)
        (means_in S.Analyze.infos S.Tree.paths S.Urls.meaning S.Resolve.is_told
        S.Resolve.meaning build.old) told g.kind
        → GoesBy told g given build.old
        → LearnsSourcesIn told g given build.old.turns.known.sums build.new.turns.known.sums }
    ensures unlearned { IfErr result
        (λ f. (f ≡ BuildFault.Memory → ⊥) → build.new.turns.known ≡ build.old.turns.known) }
    ensures versions { (told : Told) (g : ModuleGraph) (given : LeftOver)
        → IsTold (L.world loader.old)
        (means_in S.Analyze.infos S.Tree.paths S.Urls.meaning S.Resolve.is_told
        S.Resolve.meaning build.old) told g.kind
        → GoesBy told g given build.old
        → OnOk result
        (LearnsVersions told g given build.old.turns.known.manifests
        build.new.turns.known.manifests) }
    ensures asks { (g : ModuleGraph) (given : LeftOver)
        → BuildsOn (directions_in S.Urls.meaning S.Resolve.is_told S.Resolve.meaning build.old) g
        given build.old
        → OnOk result
        (Noted (L.caches loader.old) (L.world loader.old)
        (λ bare. AsksOnce (S.Urls.meaning build.old.options.jsr_url_provider.now) bare
        (L.asked loader.old) (L.asked loader.new)) (given_graph build.new)) }
    ensures emptied { OnErr result (given_graph build.new ≡ new_graph build.old.kind) }
    ensures closed { OnOk result (L.open_tickets loader.new ≡ []) }
    ensures room { (told : Told) (g : ModuleGraph) (given : LeftOver) (questions : List Counted)
        → GoesBy told g given build.old
        → IsTold (L.world loader.old)
        (means_in S.Analyze.infos S.Tree.paths S.Urls.meaning S.Resolve.is_told
        S.Resolve.meaning build.old) told g.kind
        → CoversRuns told g given questions
        → enough g given questions ≤ build.old.turns.max_loads
        → IfErr result (λ f. f ≡ BuildFault.Budget → ⊥) }
    ensures over { IfErr result
        (λ f. f ≡ BuildFault.Budget
        → EndsOver (L.world loader.old)
        (resolving_in S.Urls.meaning S.Resolve.is_told S.Resolve.meaning build.old)
        (means_in S.Analyze.infos S.Tree.paths S.Urls.meaning S.Resolve.is_told
        S.Resolve.meaning build.old) build.old) }
    ensures keeps { KeepsGiven build.old build.new }
    ensures loader { KeepsLoader L.world L.may_fail L.caches L.faults loader.old loader.new }
    ensures budget { IfErr result
        (λ f. f ≡ BuildFault.Budget
        → IsPut build.old.turns.max_loads (L.asked loader.old) (L.asked loader.new)) }
    ensures within { L.asked loader.new ≤ L.asked loader.old + build.old.turns.max_loads }
    ensures allowed { IfErr result
        (λ f. f ≡ BuildFault.Loader → L.may_fail loader.old (L.asked loader.new) ≡ true) }
    ensures failed { IfErr result
        (λ f. f ≡ BuildFault.Loader → Rose (L.faults loader.old) (L.faults loader.new)) }
    ensures paced { IfErr result (λ f. f ≡ BuildFault.Loader
        → (told : Told) (g : ModuleGraph) (given : LeftOver)
        → IsTold (L.world loader.old)
        (means_in S.Analyze.infos S.Tree.paths S.Urls.meaning S.Resolve.is_told
        S.Resolve.meaning build.old) told g.kind
        → GoesBy told g given build.old
        → PutsAtLeast told g.kind (begun_over told.known g (told_start told given))
        (L.asked loader.old) (L.asked loader.new)) }
{
    build.enter_left_over()?;
    match run_turns(build, loader) {
        Ok(()) => build.finish(loader),
        Err(fault) => Err(fault),
    }
}

/// Ends a build: the graph that it built, or the empty one where `finish` wasn't Ok, stands in a graph's place from now on, and its options,
/// with their locker and their store, in the given ones'.
pub fn give_back<'a, S: Services>(
    build: Build<'a, S>,
    graph: &mut ModuleGraph,
    options: &mut BuildOptions<'a, S>,
)
    ensures graph { graph.new ≡ given_graph build.entry }
    ensures options { without_locker options.new ≡ without_locker build.entry.options }
    ensures locker { sums_in S.Lock.remote options.new ≡ build.entry.turns.known.sums }
    ensures manifests { manifests_in S.Lock.manifests options.new
        ≡ build.entry.turns.known.manifests }
    ensures store { options.new.jsr_metadata_store ≡ build.entry.turns.known.store }
{
    let (given, own) = build.into_parts();
    *graph = given;
    *options = own;
}
