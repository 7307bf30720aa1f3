// The contents of modules that were made by their infos: asked for when all else is done.
ghost use Rattle.std.specs.Prelude.{◌≡◌, OnOk};
ghost use Rattle.graph_turns.specs.Machine.Contents.{content_placed, content_stored, filled_at, refused_content, response_placed};
ghost use Rattle.graph_turns.specs.Machine.Contents.{with_missing};
ghost use Rattle.slot_making.specs.Filled.{filled_slot};
ghost use Rattle.graph_core.specs.Graph.{with_slot};

use crate::errors::{error_slot, missing_slot};
use crate::files::loaded;
use crate::later_content::LaterContent;
use crate::manner::{VersionFiles, version_along};
use crate::state::State;
use build_reports::ModuleInfoCacher;
use graph_core::{Module, ModuleGraph, ModuleSlot};
use graph_errors::JsrLoadError;
use slot_making::fill_content;
use source_io::{Answer, LoadResponse, LoadResult};
use spec_base::{Bytes, ModuleSpecifier};
use std::alloc::{AllocError, Global};

// Stores a slot at a copy of a specifier.
fn put_at(
    graph: &mut ModuleGraph,
    specifier: &ModuleSpecifier,
    slot: ModuleSlot,
) -> Result<(), AllocError>
    ensures { OnOk result (graph.new ≡ with_slot graph.old specifier.now slot) }
{
    let Ok(specifier) = specifier.clone() else {
        drop(slot);
        return Err(AllocError);
    };
    graph.store_slot(specifier, slot)?;
    Ok(())
}

// An error in the place of a module.
fn put_failure(
    alloc: Global,
    graph: &mut ModuleGraph,
    later: &LaterContent,
    error: JsrLoadError,
) -> Result<(), AllocError>
    ensures { OnOk result (graph.new ≡ refused_content graph.old later.now error) }
{
    let slot = error_slot(alloc, &later.specifier, &later.context, error)?;
    put_at(graph, &later.specifier, slot)?;
    Ok(())
}

// There is no content.
fn put_missing(
    alloc: Global,
    graph: &mut ModuleGraph,
    later: &LaterContent,
) -> Result<(), AllocError>
    ensures { OnOk result (graph.new ≡ with_missing graph.old later.now) }
{
    let slot = missing_slot(alloc, &later.specifier, &later.context)?;
    put_at(graph, &later.specifier, slot)?;
    Ok(())
}

// Puts a slot that was taken out back at its specifier, with its content.
fn put_filled(
    alloc: Global,
    graph: &mut ModuleGraph,
    specifier: &ModuleSpecifier,
    slot: ModuleSlot,
    content: Bytes,
) -> Result<(), AllocError>
    ensures { OnOk result
        (graph.new ≡ with_slot graph.old specifier.now (filled_slot content slot)) }
{
    let mut slot = slot;
    let Ok(()) = fill_content(alloc, &mut slot, content) else {
        drop(slot);
        return Err(AllocError);
    };
    put_at(graph, specifier, slot)?;
    Ok(())
}

// The module of a specifier gets its content.
fn fill_at(
    alloc: Global,
    graph: &mut ModuleGraph,
    specifier: &ModuleSpecifier,
    content: Bytes,
) -> Result<(), AllocError>
    ensures { OnOk result (graph.new ≡ filled_at graph.old specifier.now content) }
{
    let Some(slot) = graph.remove_slot(specifier) else {
        return Ok(());
    };
    put_filled(alloc, graph, specifier, slot, content)?;
    Ok(())
}

// What a response gives: under its own name alone a source is the content.
fn put_response(
    alloc: Global,
    graph: &mut ModuleGraph,
    later: &LaterContent,
    response: LoadResponse,
) -> Result<(), AllocError>
    ensures { OnOk result (graph.new ≡ response_placed graph.old later.now response) }
{
    match response {
        LoadResponse::Module {
            content,
            mtime: _,
            specifier,
            maybe_headers: _,
        } => {
            if specifier == later.specifier {
                fill_at(alloc, graph, &later.specifier, content)
            } else {
                put_failure(
                    alloc,
                    graph,
                    later,
                    JsrLoadError::RedirectInPackage(specifier),
                )
            }
        }
        LoadResponse::External { specifier: _ } => put_failure(
            alloc,
            graph,
            later,
            JsrLoadError::ContentLoadExternalSpecifier,
        ),
        LoadResponse::Redirect { specifier } => put_failure(
            alloc,
            graph,
            later,
            JsrLoadError::RedirectInPackage(specifier),
        ),
    }
}

// What the answer about a content leaves of a graph.
fn put_content(
    alloc: Global,
    graph: &mut ModuleGraph,
    later: &LaterContent,
    answer: LoadResult,
) -> Result<(), AllocError>
    ensures { OnOk result (graph.new ≡ content_placed graph.old later.now answer) }
{
    match answer {
        Ok(Some(response)) => put_response(alloc, graph, later, response),
        Ok(None) => put_missing(alloc, graph, later),
        Err(error) => put_failure(alloc, graph, later, JsrLoadError::ContentLoad(error)),
    }
}

// Tells a cacher the info of a script whose content came, by what the file of its version says of it.
fn tell_info<C: ModuleInfoCacher>(
    cacher: &C,
    graph: &ModuleGraph,
    files: &VersionFiles,
    later: &LaterContent,
    content: &Bytes,
) {
    let Some(ModuleSlot::Module(Module::Js(script))) = graph.slot(&later.specifier) else {
        return;
    };
    let Some(version) = version_along(files, &later.specifier, &later.context) else {
        return;
    };
    if let Some(info) = version.file.info(version.path_of(&later.specifier)) {
        cacher.cache_module_info(
            &later.specifier,
            script.media_type,
            content.as_slice(),
            info,
        );
    }
}

// Tells a cacher the info of a script where an answer is its content.
fn tell_content<C: ModuleInfoCacher>(
    cacher: &C,
    graph: &ModuleGraph,
    files: &VersionFiles,
    later: &LaterContent,
    answer: &Answer,
) {
    if let Answer::Load(
        Ok(
            Some(
                LoadResponse::Module {
                    content,
                    specifier,
                    ..
                },
            ),
        ),
    ) = answer
    {
        if *specifier == later.specifier {
            tell_info(cacher, graph, files, later, content);
        }
    }
}

impl State {
    /// The first content that comes later was asked for: the module gets it, or an error takes its place. The cacher hears the info of
    /// a script that gets it.
    pub fn store_content<C: ModuleInfoCacher>(
        &mut self,
        alloc: Global,
        cacher: &C,
        answer: Answer,
    ) -> Result<(), AllocError>
        ensures { OnOk result (self.new ≡ content_stored self.old answer) }
    {
        let Some(later) = self.contents.pop_front() else {
            drop(answer);
            return Ok(());
        };
        tell_content(cacher, &self.graph, &self.files, &later, &answer);
        let placed = put_content(alloc, &mut self.graph, &later, loaded(answer));
        drop(later);
        placed
    }
}
