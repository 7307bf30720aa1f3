// The answers of a build as one file, and a build for which such a file answers.
ghost use Rattle.std.specs.Prelude.{◌≡◌, ℕ, [], Some, IfErr, IfOk, OnOk};
ghost use Rattle.source_io.specs.Calls.{lists_within};
ghost use Rattle.source_io.specs.Loaders.{asked_of, may_fail_in, open_in, world_told};
ghost use Rattle.graph_core.specs.Graph.{new_graph};
ghost use Rattle.graph_store.specs.Stores.{entries_in};
ghost use Rattle.tools_program.specs.Reports.{graph_report};
ghost use Rattle.tools_program.specs.StoreTool.{IsStoreReport, IsStored};
ghost use Rattle.tools_program.specs.Told.{KeepsPromiseBy, SaysOfFault};
ghost use Rattle.tools_program.specs.Tasks.Task.{Stores, Replays};

use crate::building::{LoaderParts, build_over, parts_of, record_over};
use crate::graphs::graph_report;
use crate::tool_report::ToolReport;
use crate::verdict::is_valid;
use graph_builder::BuildFault;
use graph_core::ModuleGraph;
use graph_store::{Recorder, Store, StoreLoader};
use source_io::WorldLoader;
use spec_base::Items;
use std::alloc::{AllocError, Global};
use world_file::Input;

// The loader over a world.
fn loader_of(alloc: Global, parts: LoaderParts) -> Result<WorldLoader, AllocError>
    ensures opened { IfOk result (λ l. open_in l ≡ []) }
    ensures world { IfOk result (λ l. world_told l ≡ Some parts.world) }
    ensures asked { IfOk result (λ l. asked_of l ≡ 0) }
    ensures may_fail { IfOk result
        (λ l. (n : ℕ) → may_fail_in l n ≡ lists_within parts.fail_next n) }
{
    let LoaderParts {
        world,
        arrival,
        fail_next,
    } = parts;
    WorldLoader::new(alloc, world, arrival.into_vec(), fail_next.into_vec())
}

// The bytes of a store as a report, which is a yes where the graph is valid.
fn store_report(alloc: Global, store: &Store, graph: &ModuleGraph) -> Result<ToolReport, AllocError>
    ensures { IfOk result (λ report. IsStored (entries_in store.now) graph.now report) }
{
    // (what the entries are is told by this call)
    let _entries = store.entries();
    let is_yes = is_valid(alloc, graph)?;
    let bytes = store.encode()?;
    Ok(ToolReport {
        bytes: Items::from(bytes),
        is_yes,
    })
}

/// Builds the graph of an input into the empty graph of its kind, and gives the bytes of the store of all answers.
pub(crate) fn store_input(
    alloc: Global,
    input: Input,
    graph: &mut ModuleGraph,
) -> Result<ToolReport, BuildFault>
    requires fresh { graph.old ≡ new_graph input.kind }
    ensures promise { OnOk result (KeepsPromiseBy Stores input graph.new) }
    ensures report { IfOk result (λ report. IsStoreReport input graph.new report) }
    ensures fault { IfErr result (λ fault. SaysOfFault Stores input graph.new fault) }
{
    let kind = input.kind;
    let (build, loader) = parts_of(alloc, input)?;
    let mut recorder = Recorder::new(alloc, loader_of(alloc, loader)?);
    match record_over(alloc, kind, build, &mut recorder) {
        Ok(built) => *graph = built,
        Err(fault) => return Err(fault),
    }
    let (_loader, store) = recorder.finish();
    Ok(store_report(alloc, &store, graph)?)
}

/// Builds the graph of an input into the empty graph of its kind, for which a store answers in the place of its world, and
/// gives the graph's text.
pub(crate) fn replay_input(
    alloc: Global,
    store: Store,
    input: Input,
    graph: &mut ModuleGraph,
) -> Result<ToolReport, BuildFault>
    requires fresh { graph.old ≡ new_graph input.kind }
    ensures promise { OnOk result (KeepsPromiseBy (Replays (entries_in store)) input graph.new) }
    ensures report { IfOk result (λ report. report ≡ graph_report graph.new) }
    ensures fault { IfErr result
        (λ fault. SaysOfFault (Replays (entries_in store)) input graph.new fault) }
{
    let max_redirects = input.world.max_redirects;
    let (build, _loader) = parts_of(alloc, input)?;
    let mut loader = StoreLoader::new(store, max_redirects);
    match build_over(alloc, build, &mut loader, graph) {
        Ok(()) => Ok(graph_report(alloc, graph)?),
        Err(fault) => Err(fault),
    }
}
