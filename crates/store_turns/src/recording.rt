// Builds whose answers are kept.
ghost use Rattle.std.specs.Prelude.{◌≡◌, ◌≤◌, ◌+◌, List, [], true, Some, IfErr, IfOk, OnOk};
ghost use Rattle.source_io.specs.Tickets.{IsPut};
ghost use Rattle.spec_base.specs.Counters.{Rose};
ghost use Rattle.source_io.specs.declared.types.World.{World};
ghost use Rattle.graph_core.specs.Graph.{new_graph};
ghost use Rattle.turn_laws.specs.Budget.Covers.{Counted, Covers, enough};
ghost use Rattle.graph_turns.specs.Promise.Choices.{IsMade};
ghost use Rattle.turn_laws.specs.Promise.Complete.{IsComplete};
ghost use Rattle.graph_turns.specs.Promise.Input.{Given};
ghost use Rattle.graph_turns.specs.Promise.Runs.{AreStaticFirst, IsStaticFirst, left_of};
ghost use Rattle.graph_turns.specs.Promise.Told.{Told};
ghost use Rattle.open_loads.specs.declared.fault.BuildFault.TheVariants as fault;
ghost use Rattle.cache_filling.specs.Noted.{Noted};
ghost use Rattle.graph_builder.specs.Calls.Builds.{BuildsOn, GoesBy};
ghost use Rattle.graph_builder.specs.Calls.Loaders.{KeepsLoader};
ghost use Rattle.build_options.specs.Telling.{Tells, flags_of, known_in, npm_in, sums_in, telling_of, without_locker};
ghost use Rattle.graph_builder.specs.Calls.Steps.{IsDone, IsGoing};
ghost use Rattle.open_loads.specs.Order.Means.{Directions};
ghost use Rattle.graph_store.specs.Stores.{entries_in};
ghost use Rattle.store_turns.specs.Answering.{AreKept, Fits, IsStorable};
ghost use Rattle.store_turns.specs.Builds.{LeavesTurns, answered_by};
ghost use Rattle.store_turns.specs.Inputs.{given_in};
ghost use Rattle.store_turns.specs.Questions.{AreAnswersTo};

use crate::driven::run_turns;
use crate::input::BuildInput;
use build_options::BuildOptions;
use graph_builder::{Build, BuildFault};
use graph_core::ModuleGraph;
use graph_store::Recorder;
use slot_making::Services;
use source_io::{Loader, LoaderCore};
use std::alloc::Global;

/// What a build through a recorder leaves beside it.
pub struct Recorded<'a, S: Services> {
    pub graph: ModuleGraph,
    /// How many questions were put.
    pub questions: u64,
    /// How many redirects of one load were followed.
    pub max_redirects: usize,
    /// The options, with their locker and their metadata store as the build left them.
    pub options: BuildOptions<'a, S>,
}

// So that its drop is one call at each way out of what owns it.
impl<'a, S: Services> Drop for Recorded<'a, S> {
    fn drop(self) {
        let Recorded {
            graph: _,
            questions: _,
            max_redirects: _,
            options: _,
        } = self;
    }
}

impl<'a, S: Services> Recorded<'a, S> {
    /// The graph alone.
    pub fn into_graph(self) -> ModuleGraph
        ensures { result ≡ self.entry.graph }
    {
        let Recorded {
            graph,
            questions: _,
            max_redirects: _,
            options: _,
        } = self;
        graph
    }
}

// Ends a build that is done, to which so many questions were put.
fn finished<'a, L: Loader + Drop, S: Services>(
    build: Build<'a, S>,
    recorder: &Recorder<L>,
    questions: u64,
    max_redirects: usize,
) -> Result<Recorded<'a, S>, BuildFault>
    requires going { IsGoing build }
    requires done { IsDone build }
    requires counted { build.turns.taken ≡ questions }
    ensures left { (told : Told) (given : Given)
        → npm_in S.Npm.table build.entry.options ≡ Some told.npm
        → GoesBy told (new_graph given.kind) (left_of given) build.entry
        → IfOk result
        (λ r. Noted (L.caches recorder.now.inner) (L.world recorder.now.inner)
        (λ bare. LeavesTurns told given bare (sums_in S.Lock.remote r.options)
        r.options.jsr_metadata_store r.questions) r.graph) }
    ensures complete { (directions : Directions) (given : Given)
        → BuildsOn directions (new_graph given.kind) (left_of given) build.entry
        → IfOk result
        (λ r. Noted (L.caches recorder.now.inner) (L.world recorder.now.inner)
        (IsComplete directions.resolving build.entry.turns.known.flags given) r.graph) }
    ensures static_first { (told : Told) (given : Given)
        → GoesBy told (new_graph given.kind) (left_of given) build.entry
        → AreStaticFirst told given
        → IfOk result
        (λ r. Noted (L.caches recorder.now.inner) (L.world recorder.now.inner) (IsStaticFirst told given)
        r.graph) }
    ensures questions { IfOk result (λ r. r.questions ≡ questions) }
    ensures redirects { IfOk result (λ r. r.max_redirects ≡ max_redirects) }
    ensures options { IfOk result
        (λ r. without_locker r.options ≡ without_locker build.entry.options) }
    ensures memory { IfErr result (λ f. f ≡ fault.Memory) }
{
    let mut build = build;
    let done = build.finish(recorder);
    let (graph, options) = build.into_parts();
    match done {
        Ok(()) => Ok(Recorded {
            graph,
            questions,
            max_redirects,
            options,
        }),
        Err(fault) => Err(fault),
    }
}

/// Builds a graph through a recorder, as `build` does over the empty graph; the recorder keeps each answer.
///
/// `Budget` comes only where as many questions were put as the options allow and one more was to be put, `Loader`
/// only where the loader failed in this call, `Memory` where there was no memory. Nothing is left open in the
/// recorder after Ok. The clauses tell of the graph without what the loader tells of cached copies.
pub fn record<'a, L: Loader + Drop, S: Services>(
    alloc: Global,
    input: BuildInput<'a, S>,
    recorder: &mut Recorder<L>,
) -> Result<Recorded<'a, S>, BuildFault>
    requires closed { recorder.old.unanswered.items ≡ [] }
    // Nothing is pending, and each root, each target of a configured import and each followed edge of a stored
    // module leads to a slot.
    ensures complete { IfOk result
        (λ r. Noted (L.caches recorder.old.inner) (L.world recorder.old.inner)
        (IsComplete
        (telling_of S.Analyze.infos S.Tree.paths S.Urls.meaning S.Resolve.is_told
        S.Resolve.meaning input.entry.options).resolving (flags_of input.entry.options)
        (given_in input.entry)) r.graph) }
    // One run made it, or a second one; each slot and each redirect is what the world's answers give an import
    // leading to it.
    ensures explained { (told : Told)
        → Tells (L.world recorder.old.inner)
        (telling_of S.Analyze.infos S.Tree.paths S.Urls.meaning S.Resolve.is_told
        S.Resolve.meaning input.entry.options)
        (known_in S.Lock.remote S.Lock.manifests input.entry.options) told
        → npm_in S.Npm.table input.entry.options ≡ Some told.npm
        → IfOk result
        (λ r. Noted (L.caches recorder.old.inner) (L.world recorder.old.inner)
        (IsMade told (given_in input.entry)) r.graph) }
    // Static before dynamic: each slot that static imports lead to is what a static import gives.
    ensures static_first { (told : Told)
        → Tells (L.world recorder.old.inner)
        (telling_of S.Analyze.infos S.Tree.paths S.Urls.meaning S.Resolve.is_told
        S.Resolve.meaning input.entry.options)
        (known_in S.Lock.remote S.Lock.manifests input.entry.options) told
        → AreStaticFirst told (given_in input.entry)
        → IfOk result
        (λ r. Noted (L.caches recorder.old.inner) (L.world recorder.old.inner)
        (IsStaticFirst told (given_in input.entry)) r.graph) }
    // One meaning for every order of arrival: the graph is that of the turns over the loader's world, and as
    // many questions are put as they put.
    ensures turned { (told : Told)
        → Tells (L.world recorder.old.inner)
        (telling_of S.Analyze.infos S.Tree.paths S.Urls.meaning S.Resolve.is_told
        S.Resolve.meaning input.entry.options)
        (known_in S.Lock.remote S.Lock.manifests input.entry.options) told
        → npm_in S.Npm.table input.entry.options ≡ Some told.npm
        → IfOk result
        (λ r. Noted (L.caches recorder.old.inner) (L.world recorder.old.inner)
        (λ bare. LeavesTurns told (given_in input.entry) bare
        (sums_in S.Lock.remote r.options) r.options.jsr_metadata_store r.questions)
        r.graph) }
    // What the recorder keeps tells all that the build was told: by each world that answers as its entries do,
    // the turns leave this graph, and put as many questions.
    ensures kept { (told : Told) (other : World)
        → Tells (L.world recorder.old.inner)
        (telling_of S.Analyze.infos S.Tree.paths S.Urls.meaning S.Resolve.is_told
        S.Resolve.meaning input.entry.options)
        (known_in S.Lock.remote S.Lock.manifests input.entry.options) told
        → npm_in S.Npm.table input.entry.options ≡ Some told.npm
        → IsStorable told.world
        → AreKept (L.world recorder.old.inner) (entries_in recorder.old.store)
        → Fits (entries_in recorder.new.store) other
        → other.max_redirects ≡ told.world.max_redirects
        → IfOk result
        (λ r. Noted (L.caches recorder.old.inner) (L.world recorder.old.inner)
        (λ bare. LeavesTurns (answered_by told other) (given_in input.entry) bare
        (sums_in S.Lock.remote r.options) r.options.jsr_metadata_store r.questions)
        r.graph) }
    // And nothing else: each entry answers a question about a pair that some run of the build reaches.
    ensures about { (told : Told)
        → Tells (L.world recorder.old.inner)
        (telling_of S.Analyze.infos S.Tree.paths S.Urls.meaning S.Resolve.is_told
        S.Resolve.meaning input.entry.options)
        (known_in S.Lock.remote S.Lock.manifests input.entry.options) told
        → AreAnswersTo told (given_in input.entry) (entries_in recorder.old.store)
        → OnOk result
        (AreAnswersTo told (given_in input.entry) (entries_in recorder.new.store)) }
    ensures redirects { (told : Told)
        → Tells (L.world recorder.old.inner)
        (telling_of S.Analyze.infos S.Tree.paths S.Urls.meaning S.Resolve.is_told
        S.Resolve.meaning input.entry.options)
        (known_in S.Lock.remote S.Lock.manifests input.entry.options) told
        → IfOk result (λ r. r.max_redirects ≡ told.world.max_redirects) }
    ensures told { AreKept (L.world recorder.old.inner) (entries_in recorder.old.store)
        → OnOk result (AreKept (L.world recorder.old.inner) (entries_in recorder.new.store)) }
    ensures put { IfOk result
        (λ r. (r.questions ≤ input.entry.options.max_loads)
        × IsPut r.questions (L.asked recorder.old.inner) (L.asked recorder.new.inner)) }
    ensures options { IfOk result
        (λ r. without_locker r.options ≡ without_locker input.entry.options) }
    ensures closed { OnOk result (recorder.new.unanswered.items ≡ []) }
    ensures loader { KeepsLoader L.world L.may_fail L.caches L.faults recorder.old.inner recorder.new.inner }
    // A budget of as many loads as a list that covers the reached questions of each run has, twice where the
    // build may begin once more, is never spent.
    ensures room { (told : Told) (questions : List Counted)
        → Tells (L.world recorder.old.inner)
        (telling_of S.Analyze.infos S.Tree.paths S.Urls.meaning S.Resolve.is_told
        S.Resolve.meaning input.entry.options)
        (known_in S.Lock.remote S.Lock.manifests input.entry.options) told
        → Covers told (given_in input.entry) questions
        → enough (new_graph input.entry.kind) (left_of (given_in input.entry)) questions
        ≤ input.entry.options.max_loads
        → IfErr result (λ f. f ≡ fault.Budget → ⊥) }
    ensures within { L.asked recorder.new.inner
        ≤ L.asked recorder.old.inner + input.entry.options.max_loads }
    ensures budget { IfErr result
        (λ f. f ≡ fault.Budget
        → IsPut input.entry.options.max_loads (L.asked recorder.old.inner)
        (L.asked recorder.new.inner)) }
    ensures allowed { IfErr result
        (λ f. f ≡ fault.Loader
        → L.may_fail recorder.old.inner (L.asked recorder.new.inner) ≡ true) }
    ensures failed { IfErr result
        (λ f. f ≡ fault.Loader → Rose (L.faults recorder.old.inner) (L.faults recorder.new.inner)) }
{
    let BuildInput {
        kind,
        roots,
        imports,
        options,
    } = input;
    let budget = options.max_loads;
    let max_redirects = recorder.max_redirects();
    let graph = ModuleGraph::new(alloc, kind);
    let mut build = Build::start(alloc, graph, roots, imports, max_redirects, options);
    match run_turns(&mut build, recorder, budget) {
        Ok(questions) => finished(build, recorder, questions, max_redirects),
        Err(fault) => {
            let _parts = build.into_parts();
            Err(fault)
        }
    }
}
