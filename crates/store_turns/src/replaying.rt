// Builds by a store.
ghost use Rattle.std.specs.Prelude.{◌≡◌, ◌≤◌, ℕ, Option, Some, IfErr, IfOk};
ghost use Rattle.source_io.specs.Tickets.{IsPut};
ghost use Rattle.source_sums.specs.Sums.{KnownSums};
ghost use Rattle.metadata_store.specs.declared.store.JsrMetadataStore.{JsrMetadataStore};
ghost use Rattle.graph_core.specs.declared.graph.ModuleGraph.{ModuleGraph};
ghost use Rattle.graph_turns.specs.Machine.Turns.{IsTurnedFrom, TellsTurns, begun};
ghost use Rattle.graph_turns.specs.Promise.Told.{Told};
ghost use Rattle.open_loads.specs.declared.fault.BuildFault.TheVariants as fault;
ghost use Rattle.build_options.specs.Telling.{Tells, known_in, npm_in, sums_in, telling_of, without_locker};
ghost use Rattle.graph_store.specs.Loaders.{asked_of};
ghost use Rattle.graph_store.specs.Stores.{entries_in};
ghost use Rattle.graph_store.specs.Worlds.{store_world};
ghost use Rattle.store_turns.specs.Inputs.{given_in};

use crate::input::BuildInput;
use build_options::BuildOptions;
use graph_builder::{BuildFault, BuildGraph};
use graph_core::ModuleGraph;
use graph_store::{Store, StoreLoader};
use slot_making::Services;
use std::alloc::Global;

/// What a build by a store leaves.
pub struct StoredBuild<'a, S: Services> {
    pub graph: ModuleGraph,
    /// The loader over the store.
    pub loader: StoreLoader,
    /// The options, with their locker and their metadata store as the build left them.
    pub options: BuildOptions<'a, S>,
}

// So that its drop is one call at each way out of what owns it.
impl<'a, S: Services> Drop for StoredBuild<'a, S> {
    fn drop(self) {
        let StoredBuild {
            graph: _,
            loader: _,
            options: _,
        } = self;
    }
}

/// Builds a graph by a store: over the empty graph, each question is answered by the store's entry, and is missing where there is
/// none. A load follows so many redirects.
///
/// `Budget` comes only where as many questions were put as the options allow and one more was to be put, `Memory` where there was
/// no memory; `Loader` never comes.
pub fn replay<'a, S: Services>(
    alloc: Global,
    input: BuildInput<'a, S>,
    store: Store,
    max_redirects: usize,
) -> Result<StoredBuild<'a, S>, BuildFault>
    // The graph is that of the turns over the store's world, and as many questions are put as they put.
    ensures turned { (told : Told)
        → Tells (Some (store_world (entries_in store) max_redirects))
        (telling_of S.Analyze.infos S.Tree.paths S.Urls.meaning S.Resolve.is_told
        S.Resolve.meaning input.entry.options)
        (known_in S.Lock.remote S.Lock.manifests input.entry.options) told
        → npm_in S.Npm.table input.entry.options ≡ Some told.npm
        → IfOk result
        (λ r. TellsTurns told input.entry.kind (begun told (given_in input.entry)) r.graph
        (sums_in S.Lock.remote r.options) r.options.jsr_metadata_store 0
        (asked_of r.loader)) }
    // So it is the graph of any build whose turns these are, and as many questions are put.
    ensures same { (told : Told) (g : ModuleGraph) (sums : Option KnownSums)
        (own : Option JsrMetadataStore) (put : ℕ)
        → Tells (Some (store_world (entries_in store) max_redirects))
        (telling_of S.Analyze.infos S.Tree.paths S.Urls.meaning S.Resolve.is_told
        S.Resolve.meaning input.entry.options)
        (known_in S.Lock.remote S.Lock.manifests input.entry.options) told
        → npm_in S.Npm.table input.entry.options ≡ Some told.npm
        → IsTurnedFrom told input.entry.kind (begun told (given_in input.entry)) g sums own put
        → IfOk result (λ r. (r.graph ≡ g) × IsPut put 0 (asked_of r.loader)) }
    // Where the options allow as many, the only fault is want of memory.
    ensures memory { (told : Told) (g : ModuleGraph) (sums : Option KnownSums)
        (own : Option JsrMetadataStore) (put : ℕ)
        → Tells (Some (store_world (entries_in store) max_redirects))
        (telling_of S.Analyze.infos S.Tree.paths S.Urls.meaning S.Resolve.is_told
        S.Resolve.meaning input.entry.options)
        (known_in S.Lock.remote S.Lock.manifests input.entry.options) told
        → IsTurnedFrom told input.entry.kind (begun told (given_in input.entry)) g sums own put
        → put ≤ input.entry.options.max_loads
        → IfErr result (λ f. f ≡ fault.Memory) }
    ensures options { IfOk result
        (λ r. without_locker r.options ≡ without_locker input.entry.options) }
    ensures no_fault { IfErr result (λ f. f ≡ fault.Loader → ⊥) }
{
    let BuildInput {
        kind,
        roots,
        imports,
        mut options,
    } = input;
    let mut loader = StoreLoader::new(store, max_redirects);
    let mut graph = ModuleGraph::new(alloc, kind);
    match graph.build(alloc, roots, imports, &mut loader, &mut options) {
        Ok(()) => Ok(StoredBuild {
            graph,
            loader,
            options,
        }),
        Err(fault) => Err(fault),
    }
}
