// The error of one edge: an import that leads nowhere, where its module may not go, or to what is missing.
ghost use Rattle.std.specs.Prelude.{◌≡◌, ◌++◌, IfOk, OnOk, option_copied, is_some};
ghost use Rattle.graph_core.specs.Graph.{slot_at, resolved};
ghost use Rattle.graph_walk.specs.Crossing.{is_downgrade, is_local_import};
ghost use Rattle.graph_walk.specs.EdgeValue.{edge_value};
ghost use Rattle.graph_walk.specs.Errors.{as_error, missing_in, missing_of, missing_kind, missing_at, missing_behind, leading_error, edge_error, edge_errors};
ghost use Rattle.graph_walk.specs.Options.{how};

use crate::crossing::{is_downgrade, is_local_import};
use crate::options::{CheckJsResolver, WalkOptions};
use graph_core::{
    ModuleError, ModuleErrorKind, ModuleGraph, ModuleGraphError, ModuleSlot, Resolution,
    ResolutionError, ResolutionResolved,
};
use spec_base::{ModuleSpecifier, Range};
use std::alloc::{AllocError, Global};

fn as_error(is_type: bool, error: ResolutionError) -> ModuleGraphError
    ensures { result ≡ as_error is_type error }
{
    if is_type {
        ModuleGraphError::TypesResolutionError(error)
    } else {
        ModuleGraphError::ResolutionError(error)
    }
}

// What is missing: with the edge's range where the edge is dynamic, else with the import that is to blame.
fn missing(
    alloc: Global,
    specifier: &ModuleSpecifier,
    maybe_referrer: &Option<Range>,
    is_dynamic: bool,
    range: &Range,
) -> Result<ModuleError, AllocError>
    ensures { IfOk result
        (λ e. e ≡ missing_at is_dynamic range.now (specifier.now, maybe_referrer.now)) }
{
    let specifier = specifier.clone()?;
    let kind = if is_dynamic {
        let referrer = range.try_clone()?;
        ModuleErrorKind::MissingDynamic {
            specifier,
            referrer,
        }
    } else {
        let maybe_referrer = maybe_referrer.clone()?;
        ModuleErrorKind::Missing {
            specifier,
            maybe_referrer,
        }
    };
    kind.into_box(alloc)
}

// The error of an edge that leads to a missing module.
fn missing_kind(
    alloc: Global,
    kind: &ModuleErrorKind,
    is_dynamic: bool,
    range: &Range,
) -> Result<Option<ModuleGraphError>, AllocError>
    ensures { IfOk result (λ e. e ≡ missing_behind is_dynamic range.now (missing_kind kind.now)) }
{
    match kind {
        ModuleErrorKind::Missing {
            specifier,
            maybe_referrer,
        } => {
            let error = missing(alloc, specifier, maybe_referrer, is_dynamic, range)?;
            Ok(Some(ModuleGraphError::ModuleError(error)))
        }
        ModuleErrorKind::Load { .. } => Ok(None),
        ModuleErrorKind::MissingDynamic { .. } => Ok(None),
        ModuleErrorKind::Parse { .. } => Ok(None),
        ModuleErrorKind::WasmParse { .. } => Ok(None),
        ModuleErrorKind::UnsupportedMediaType { .. } => Ok(None),
        ModuleErrorKind::InvalidTypeAssertion { .. } => Ok(None),
        ModuleErrorKind::UnsupportedImportAttributeType { .. } => Ok(None),
        ModuleErrorKind::UnsupportedModuleTypeForSourcePhaseImport { .. } => Ok(None),
    }
}

fn missing_behind(
    alloc: Global,
    slot: Option<&ModuleSlot>,
    is_dynamic: bool,
    range: &Range,
) -> Result<Option<ModuleGraphError>, AllocError>
    ensures { IfOk result
        (λ e. e ≡ missing_behind is_dynamic range.now (missing_in (option_copied slot.entry))) }
{
    match slot {
        Some(ModuleSlot::Err(error)) => missing_kind(alloc, error.0.get(), is_dynamic, range),
        Some(ModuleSlot::Module(_)) => Ok(None),
        Some(ModuleSlot::Pending { .. }) => Ok(None),
        None => Ok(None),
    }
}

/// Whether nothing was loaded there.
pub(crate) fn is_missing(error: &ModuleError) -> bool
    ensures { result ≡ is_some (missing_of error.now) }
{
    matches!(error.0.get(), ModuleErrorKind::Missing { .. })
}

/// An edge, by the text that names it.
#[derive(Clone, Copy)]
pub(crate) struct EdgeRef<'a> {
    pub(crate) here: &'a ModuleSpecifier,
    pub(crate) text: &'a str,
    pub(crate) is_type: bool,
    pub(crate) is_dynamic: bool,
}

fn leading_error<C: CheckJsResolver>(
    alloc: Global,
    graph: &ModuleGraph,
    options: &WalkOptions<'_, C>,
    edge: EdgeRef<'_>,
    resolved: &ResolutionResolved,
) -> Result<Option<ModuleGraphError>, AllocError>
    ensures { IfOk result
        (λ e. e
        ≡ leading_error graph.now (how C.resolves options.now) (edge_value edge.entry)
        resolved.now) }
{
    if is_downgrade(edge.here, &resolved.specifier) {
        let ResolutionResolved { specifier, range } = resolved.try_clone()?;
        let error = ResolutionError::InvalidDowngrade { specifier, range };
        return Ok(Some(as_error(edge.is_type, error)));
    }
    if is_local_import(edge.here, edge.text, &resolved.specifier) {
        let ResolutionResolved { specifier, range } = resolved.try_clone()?;
        let error = ResolutionError::InvalidLocalImport { specifier, range };
        return Ok(Some(as_error(edge.is_type, error)));
    }
    if options.follow_dynamic {
        let slot = graph.slot(graph.resolve(&resolved.specifier));
        missing_behind(alloc, slot, edge.is_dynamic, &resolved.range)
    } else {
        Ok(None)
    }
}

fn edge_error<C: CheckJsResolver>(
    alloc: Global,
    graph: &ModuleGraph,
    options: &WalkOptions<'_, C>,
    edge: EdgeRef<'_>,
    resolution: &Resolution,
) -> Result<Option<ModuleGraphError>, AllocError>
    ensures { IfOk result
        (λ e. e
        ≡ edge_error graph.now (how C.resolves options.now) (edge_value edge.entry)
        resolution.now) }
{
    match resolution {
        Resolution::None => Ok(None),
        Resolution::Ok(resolved) => leading_error(alloc, graph, options, edge, resolved.get()),
        Resolution::Err(error) => {
            let error = error.get().try_clone()?;
            Ok(Some(as_error(edge.is_type, error)))
        }
    }
}

/// Adds the error of an edge, if there is one.
pub(crate) fn push_edge<C: CheckJsResolver>(
    alloc: Global,
    graph: &ModuleGraph,
    options: &WalkOptions<'_, C>,
    errors: &mut Vec<ModuleGraphError>,
    edge: EdgeRef<'_>,
    resolution: &Resolution,
) -> Result<(), AllocError>
    ensures { OnOk result
        (errors.new.items
        ≡ errors.old.items ++ edge_errors graph.now (how C.resolves options.now)
        (edge_value edge.entry) resolution.now) }
{
    if let Some(error) = edge_error(alloc, graph, options, edge, resolution)? {
        errors.push(error)?;
    }
    Ok(())
}
