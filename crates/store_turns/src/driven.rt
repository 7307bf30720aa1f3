// How a build is driven through a recorder: all queued questions are put, one answer is taken, and so on.
ghost use Rattle.std.specs.Prelude.{◌≡◌, ◌≤◌, ◌<◌, ◌+◌, ℕ, List, [], true, false, length, IfErr, IfOk, OnOk};
ghost use Rattle.source_io.specs.Tickets.{IsPut};
ghost use Rattle.spec_base.specs.Counters.{Rose};
ghost use Rattle.graph_core.specs.declared.graph.ModuleGraph.{ModuleGraph};
ghost use Rattle.turn_laws.specs.Budget.Covers.{Counted, CoversRuns, enough};
ghost use Rattle.graph_turns.specs.Promise.Told.{Told};
ghost use Rattle.graph_turns.specs.declared.unresolved_input.LeftOver.{LeftOver};
ghost use Rattle.open_loads.specs.declared.fault.BuildFault.TheVariants as fault;
ghost use Rattle.graph_builder.specs.Calls.Builds.{BuildsOn, GoesBy};
ghost use Rattle.graph_builder.specs.Calls.Loaders.{KeepsLoader};
ghost use Rattle.graph_builder.specs.Calls.Makers.{directions_in, means_in};
ghost use Rattle.graph_builder.specs.Calls.Steps.{IsDone, IsGoing, KeepsBuild};
ghost use Rattle.graph_builder.specs.Order.InFlight.{Matches};
ghost use Rattle.open_loads.specs.Order.Means.{IsTold};
ghost use Rattle.open_loads.specs.Order.Ordered.{IsInFlight};
ghost use Rattle.graph_store.specs.Stores.{entries_in};
ghost use Rattle.store_turns.specs.Driven.{KeepsGoing};
ghost use Rattle.store_turns.specs.Questions.{KeepsReached};

use graph_builder::{Build, BuildFault};
use graph_store::Recorder;
use slot_making::Services;
use source_io::{Loader, LoaderCore};

// Puts all queued questions, and counts them behind those that were put.
fn ask_all<L: Loader + Drop, S: Services>(
    build: &mut Build<'_, S>,
    recorder: &mut Recorder<L>,
    from: u64,
    budget: u64,
) -> Result<u64, BuildFault>
    requires going { IsGoing build.old }
    requires matches { Matches recorder.old.unanswered.items build.old.turns }
    requires counted { build.old.turns.taken ≡ from }
    requires budget { build.old.turns.max_loads ≡ budget }
    ensures going { OnOk result (IsGoing build.new) }
    ensures done { OnOk result (((t : ℕ) → IsInFlight build.new.turns t → ⊥) → IsDone build.new) }
    ensures matches { OnOk result (Matches recorder.new.unanswered.items build.new.turns) }
    ensures counted { IfOk result (λ n. build.new.turns.taken ≡ n) }
    ensures budget { OnOk result (build.new.turns.max_loads ≡ budget) }
    ensures opened { OnOk result
        ((n : ℕ) → n + length recorder.old.unanswered.items ≡ from
        → n + length recorder.new.unanswered.items ≡ build.new.turns.taken) }
    ensures asked { OnOk result
        ((before : ℕ) → IsPut from before (L.asked recorder.old.inner)
        → IsPut build.new.turns.taken before (L.asked recorder.new.inner)) }
    ensures over { IfErr result
        (λ f. f ≡ fault.Budget
        → (before : ℕ) → IsPut from before (L.asked recorder.old.inner)
        → IsPut budget before (L.asked recorder.new.inner)) }
    ensures goes { OnOk result
        (KeepsGoing (L.world recorder.old.inner)
        (means_in S.Analyze.infos S.Tree.paths S.Urls.meaning S.Resolve.is_told
        S.Resolve.meaning build.old) (entries_in recorder.old.store) build.old
        (entries_in recorder.new.store) build.new) }
    ensures reached { OnOk result
        (KeepsReached (L.world recorder.old.inner)
        (means_in S.Analyze.infos S.Tree.paths S.Urls.meaning S.Resolve.is_told
        S.Resolve.meaning build.old) recorder.old.unanswered.items
        (entries_in recorder.old.store) build.old recorder.new.unanswered.items
        (entries_in recorder.new.store)) }
    ensures builds { (g : ModuleGraph) (given : LeftOver)
        → BuildsOn (directions_in S.Urls.meaning S.Resolve.is_told S.Resolve.meaning build.old) g
        given build.old
        → OnOk result
        (BuildsOn (directions_in S.Urls.meaning S.Resolve.is_told S.Resolve.meaning build.old) g
        given build.new) }
    ensures room { (told : Told) (g : ModuleGraph) (given : LeftOver) (questions : List Counted)
        → IsTold (L.world recorder.old.inner)
        (means_in S.Analyze.infos S.Tree.paths S.Urls.meaning S.Resolve.is_told
        S.Resolve.meaning build.old) told g.kind
        → GoesBy told g given build.old
        → CoversRuns told g given questions
        → enough g given questions ≤ build.old.turns.max_loads
        → IfErr result (λ f. f ≡ fault.Budget → ⊥) }
    ensures below { IfOk result
        (λ n. L.asked recorder.new.inner + from ≤ L.asked recorder.old.inner + n) }
    ensures within { L.asked recorder.new.inner + from ≤ L.asked recorder.old.inner + budget }
    ensures keeps { KeepsBuild build.old build.new }
    ensures loader { KeepsLoader L.world L.may_fail L.caches L.faults recorder.old.inner recorder.new.inner }
    ensures no_fault { IfErr result (λ f. f ≡ fault.Loader → ⊥) }
{
    let mut put = from;
    while let Some((ticket, question)) = build.take_question()? {
        recorder.ask(ticket, question)?;
        put += 1;
    }
    Ok(put)
}

// Takes one answer, which the recorder keeps.
fn answer_one<L: Loader + Drop, S: Services>(
    build: &mut Build<'_, S>,
    recorder: &mut Recorder<L>,
) -> Result<(), BuildFault>
    requires going { IsGoing build.old }
    requires matches { Matches recorder.old.unanswered.items build.old.turns }
    requires some { 0 < length recorder.old.unanswered.items }
    ensures going { OnOk result (IsGoing build.new) }
    ensures matches { OnOk result (Matches recorder.new.unanswered.items build.new.turns) }
    ensures same_taken { OnOk result (build.new.turns.taken ≡ build.old.turns.taken) }
    ensures same_budget { OnOk result (build.new.turns.max_loads ≡ build.old.turns.max_loads) }
    ensures closed { OnOk result
        (length recorder.old.unanswered.items ≡ length recorder.new.unanswered.items + 1) }
    ensures goes { OnOk result
        (KeepsGoing (L.world recorder.old.inner)
        (means_in S.Analyze.infos S.Tree.paths S.Urls.meaning S.Resolve.is_told
        S.Resolve.meaning build.old) (entries_in recorder.old.store) build.old
        (entries_in recorder.new.store) build.new) }
    ensures reached { OnOk result
        (KeepsReached (L.world recorder.old.inner)
        (means_in S.Analyze.infos S.Tree.paths S.Urls.meaning S.Resolve.is_told
        S.Resolve.meaning build.old) recorder.old.unanswered.items
        (entries_in recorder.old.store) build.old recorder.new.unanswered.items
        (entries_in recorder.new.store)) }
    ensures builds { (g : ModuleGraph) (given : LeftOver)
        → BuildsOn (directions_in S.Urls.meaning S.Resolve.is_told S.Resolve.meaning build.old) g
        given build.old
        → OnOk result
        (BuildsOn (directions_in S.Urls.meaning S.Resolve.is_told S.Resolve.meaning build.old) g
        given build.new) }
    ensures keeps { KeepsBuild build.old build.new }
    ensures uncounted { L.asked recorder.new.inner ≡ L.asked recorder.old.inner }
    ensures loader { KeepsLoader L.world L.may_fail L.caches L.faults recorder.old.inner recorder.new.inner }
    ensures no_budget { IfErr result (λ f. f ≡ fault.Budget → ⊥) }
    ensures allowed { IfErr result
        (λ f. f ≡ fault.Loader
        → L.may_fail recorder.old.inner (L.asked recorder.new.inner) ≡ true) }
    ensures failed { IfErr result
        (λ f. f ≡ fault.Loader → Rose (L.faults recorder.old.inner) (L.faults recorder.new.inner)) }
{
    let (ticket, answer) = recorder.next()?;
    build.answer(ticket, answer)?;
    Ok(())
}

/// Puts questions and takes answers until nothing is left, and answers how many questions were put.
pub(crate) fn run_turns<L: Loader + Drop, S: Services>(
    build: &mut Build<'_, S>,
    recorder: &mut Recorder<L>,
    budget: u64,
) -> Result<u64, BuildFault>
    requires going { IsGoing build.old }
    requires none_taken { build.old.turns.taken ≡ 0 }
    requires budget { build.old.turns.max_loads ≡ budget }
    requires closed { recorder.old.unanswered.items ≡ [] }
    ensures going { OnOk result (IsGoing build.new) }
    ensures done { OnOk result (IsDone build.new) }
    ensures counted { IfOk result
        (λ n. (build.new.turns.taken ≡ n)
        × (n ≤ budget)
        × IsPut n (L.asked recorder.old.inner) (L.asked recorder.new.inner)) }
    ensures goes { OnOk result
        (KeepsGoing (L.world recorder.old.inner)
        (means_in S.Analyze.infos S.Tree.paths S.Urls.meaning S.Resolve.is_told
        S.Resolve.meaning build.old) (entries_in recorder.old.store) build.old
        (entries_in recorder.new.store) build.new) }
    ensures closed { OnOk result (recorder.new.unanswered.items ≡ []) }
    ensures reached { OnOk result
        (KeepsReached (L.world recorder.old.inner)
        (means_in S.Analyze.infos S.Tree.paths S.Urls.meaning S.Resolve.is_told
        S.Resolve.meaning build.old) recorder.old.unanswered.items
        (entries_in recorder.old.store) build.old recorder.new.unanswered.items
        (entries_in recorder.new.store)) }
    ensures builds { (g : ModuleGraph) (given : LeftOver)
        → BuildsOn (directions_in S.Urls.meaning S.Resolve.is_told S.Resolve.meaning build.old) g
        given build.old
        → OnOk result
        (BuildsOn (directions_in S.Urls.meaning S.Resolve.is_told S.Resolve.meaning build.old) g
        given build.new) }
    ensures room { (told : Told) (g : ModuleGraph) (given : LeftOver) (questions : List Counted)
        → IsTold (L.world recorder.old.inner)
        (means_in S.Analyze.infos S.Tree.paths S.Urls.meaning S.Resolve.is_told
        S.Resolve.meaning build.old) told g.kind
        → GoesBy told g given build.old
        → CoversRuns told g given questions
        → enough g given questions ≤ build.old.turns.max_loads
        → IfErr result (λ f. f ≡ fault.Budget → ⊥) }
    ensures within { L.asked recorder.new.inner ≤ L.asked recorder.old.inner + budget }
    ensures keeps { KeepsBuild build.old build.new }
    ensures loader { KeepsLoader L.world L.may_fail L.caches L.faults recorder.old.inner recorder.new.inner }
    ensures over { IfErr result
        (λ f. f ≡ fault.Budget
        → IsPut budget (L.asked recorder.old.inner) (L.asked recorder.new.inner)) }
    ensures allowed { IfErr result
        (λ f. f ≡ fault.Loader
        → L.may_fail recorder.old.inner (L.asked recorder.new.inner) ≡ true) }
    ensures failed { IfErr result
        (λ f. f ≡ fault.Loader → Rose (L.faults recorder.old.inner) (L.faults recorder.new.inner)) }
{
    let mut put: u64 = 0;
    let mut answered: u64 = 0;
    'turns: loop {
        match ask_all(build, recorder, put, budget) {
            Ok(now) => put = now,
            Err(fault) => return Err(fault),
        }
        if recorder.open_len() == 0 {
            return Ok(put);
        }
        match answer_one(build, recorder) {
            Ok(()) => (),
            Err(fault) => return Err(fault),
        }
        answered += 1;
    }
}
