// That a build by the bytes of its store is the build itself.
ghost use Rattle.std.specs.Prelude.{◌≡◌, ◌≤◌, [], ℕ, Option, Some, IfErr, IfOk};
ghost use Rattle.source_sums.specs.Sums.{KnownSums};
ghost use Rattle.metadata_store.specs.declared.store.JsrMetadataStore.{JsrMetadataStore};
ghost use Rattle.cache_filling.specs.Noted.{Noted};
ghost use Rattle.graph_core.specs.declared.graph.ModuleGraph.{ModuleGraph};
ghost use Rattle.graph_turns.specs.Machine.Turns.{IsTurnedFrom, begun};
ghost use Rattle.graph_turns.specs.Promise.Told.{Told};
ghost use Rattle.build_options.specs.Telling.{Tells, known_in, npm_in, sums_in, telling_of};
ghost use Rattle.graph_store.specs.Named.{AreWritable};
ghost use Rattle.graph_store.specs.Stores.{entries_in};
ghost use Rattle.graph_store.specs.Worlds.{store_world};
ghost use Rattle.store_turns.specs.Answering.{IsStorable};
ghost use Rattle.store_turns.specs.Builds.{LeavesTurns};
ghost use Rattle.store_turns.specs.Inputs.{AreAlike, given_in};
ghost use Rattle.store_turns.specs.Replays.{ReplaysOrMemory};

use crate::input::BuildInput;
use crate::recording::{Recorded, record};
use crate::replaying::{StoredBuild, replay};
use graph_builder::BuildFault;
use graph_store::{NotAStore, Recorder, Store};
use slot_making::Services;
use source_io::Loader;
use spec_base::Refusal;
use std::alloc::Global;

/// Why a build by the bytes of a store gives no graph.
#[derive(Clone, Copy, PartialEq, Eq, Debug)]
pub enum ReplayFault {
    /// There was no memory for the bytes.
    Memory,
    /// The bytes are no store.
    NotAStore,
    /// The build gave no graph.
    Build(BuildFault),
}

/// A build whose answers were kept, what was kept, and the build by the bytes of that store.
pub struct TwoBuilds<'a, S: Services> {
    pub first: Recorded<'a, S>,
    pub store: Store,
    pub second: Result<StoredBuild<'a, S>, ReplayFault>,
}

// So that its drop is one call at each way out of what owns it.
impl<'a, S: Services> Drop for TwoBuilds<'a, S> {
    fn drop(self) {
        let TwoBuilds {
            first: _,
            store: _,
            second: _,
        } = self;
    }
}

// The store of the bytes of a store.
fn read_back(alloc: Global, store: &Store) -> Result<Store, ReplayFault>
    ensures same { AreWritable (entries_in store.now)
        → IfOk result (λ read. entries_in read ≡ entries_in store.now) }
    ensures memory { AreWritable (entries_in store.now)
        → IfErr result (λ f. f ≡ ReplayFault.Memory) }
{
    let Ok(bytes) = store.encode() else {
        return Err(ReplayFault::Memory);
    };
    match Store::decode(alloc, &bytes) {
        Ok(read) => Ok(read),
        Err(Refusal::Memory) => Err(ReplayFault::Memory),
        Err(Refusal::Is(NotAStore)) => Err(ReplayFault::NotAStore),
    }
}

// A build by the bytes of a store.
fn by_bytes<'a, S: Services>(
    alloc: Global,
    input: BuildInput<'a, S>,
    store: &Store,
    max_redirects: usize,
) -> Result<StoredBuild<'a, S>, ReplayFault>
    ensures { (told : Told) (g : ModuleGraph) (sums : Option KnownSums)
        (own : Option JsrMetadataStore) (put : ℕ)
        → Tells (Some (store_world (entries_in store.now) max_redirects))
        (telling_of S.Analyze.infos S.Tree.paths S.Urls.meaning S.Resolve.is_told
        S.Resolve.meaning input.entry.options)
        (known_in S.Lock.remote S.Lock.manifests input.entry.options) told
        → npm_in S.Npm.table input.entry.options ≡ Some told.npm
        → IsTurnedFrom told input.entry.kind (begun told (given_in input.entry)) g sums own put
        → put ≤ input.entry.options.max_loads
        → AreWritable (entries_in store.now)
        → ReplaysOrMemory g put result }
{
    match read_back(alloc, store) {
        Ok(read) => match replay(alloc, input, read, max_redirects) {
            Ok(done) => Ok(done),
            Err(fault) => Err(ReplayFault::Build(fault)),
        },
        Err(fault) => Err(fault),
    }
}

/// Builds a graph and keeps what the loader answers, writes the store and reads it, and builds by what was read: the second
/// graph is the first one, but for what the loader tells of cached copies, or there was no memory.
///
/// The first fault is that of `record`.
pub fn replayed<'a, L: Loader + Drop, S: Services>(
    alloc: Global,
    input: BuildInput<'a, S>,
    again: BuildInput<'a, S>,
    loader: L,
) -> Result<TwoBuilds<'a, S>, BuildFault>
    requires closed { L.open_tickets loader ≡ [] }
    // One meaning for every order of arrival: the first graph is that of the turns over the loader's world, and as many questions are put as they put.
    ensures turned { (told : Told)
        → Tells (L.world loader)
        (telling_of S.Analyze.infos S.Tree.paths S.Urls.meaning S.Resolve.is_told
        S.Resolve.meaning input.entry.options)
        (known_in S.Lock.remote S.Lock.manifests input.entry.options) told
        → npm_in S.Npm.table input.entry.options ≡ Some told.npm
        → IfOk result
        (λ r. Noted (L.caches loader) (L.world loader)
        (λ bare. LeavesTurns told (given_in input.entry) bare
        (sums_in S.Lock.remote r.first.options) r.first.options.jsr_metadata_store
        r.first.questions) r.first.graph) }
    // Over a world that a store can tell, a build by the bytes of its store, given the same again, leaves an equal graph, but for what the loader tells of cached copies, and puts equally many questions, or finds no memory.
    ensures same { (told : Told)
        → Tells (L.world loader)
        (telling_of S.Analyze.infos S.Tree.paths S.Urls.meaning S.Resolve.is_told
        S.Resolve.meaning input.entry.options)
        (known_in S.Lock.remote S.Lock.manifests input.entry.options) told
        → npm_in S.Npm.table input.entry.options ≡ Some told.npm
        → IsStorable told.world
        → AreAlike S.Lock.remote S.Lock.manifests input.entry again.entry
        → IfOk result
        (λ r. AreWritable (entries_in r.store)
        → Noted (L.caches loader) (L.world loader)
        (λ bare. ReplaysOrMemory bare r.first.questions r.second) r.first.graph) }
{
    let mut recorder = Recorder::new(alloc, loader);
    match record(alloc, input, &mut recorder) {
        Ok(first) => {
            let (_loader, store) = recorder.finish();
            let second = by_bytes(alloc, again, &store, first.max_redirects);
            Ok(TwoBuilds {
                first,
                store,
                second,
            })
        }
        Err(fault) => Err(fault),
    }
}
