// The edges that are followed from a module and from configured imports.
ghost use Rattle.std.specs.Prelude.{◌≡◌, ◌∷◌, ◌++◌, [], IfOk, OnOk, option_map};
ghost use Rattle.graph_dependencies.specs.Assets.{source_phase_of};
ghost use Rattle.graph_core.specs.Edges.{edge_context, plain_context, source_map_context, types_context, import_context, edge_of, edges_by, edges_of, source_map_edges, types_edge, import_edges, loads_of, import_loads};

use graph_dependencies::{Dependency, GraphImport, GraphKind, TypesDependency};
use graph_errors::{Resolution, ResolutionResolved};
use module_slots::{JsModule, Load, LoadContext, Module};
use spec_base::{Boxed, Entries, Items, ModuleSpecifier, Range, Text, TextMap};
use std::alloc::{AllocError, Global};

// The attribute of a dependency, with the range of an edge.
fn attribute_at(
    alloc: Global,
    attribute: &Option<Text>,
    range: &Range,
) -> Result<Option<Boxed<(Text, Range)>>, AllocError>
    ensures { IfOk result (λ at. at ≡ option_map (λ t. (t, range.now)) attribute.now) }
{
    match attribute {
        None => Ok(None),
        Some(text) => {
            let text = text.try_clone()?;
            let range = range.try_clone()?;
            let attribute = Boxed::new(alloc, (text, range))?;
            Ok(Some(attribute))
        }
    }
}

// A copy of the range of the first import in the source phase.
fn source_phase_of(
    alloc: Global,
    dependency: &Dependency,
) -> Result<Option<Boxed<Range>>, AllocError>
    ensures { IfOk result (λ range. range ≡ source_phase_of dependency.now) }
{
    match dependency.source_phase() {
        None => Ok(None),
        Some(range) => {
            let range = Boxed::new(alloc, range.try_clone()?)?;
            Ok(Some(range))
        }
    }
}

// The context of an edge of a dependency.
fn edge_context(
    alloc: Global,
    context: &LoadContext,
    dependency: &Dependency,
    range: &Range,
) -> Result<LoadContext, AllocError>
    ensures { IfOk result (λ c. c ≡ edge_context context.now dependency.now range.now) }
{
    let attribute = attribute_at(alloc, &dependency.maybe_attribute_type, range)?;
    let asset = dependency.is_asset();
    let source_phase = source_phase_of(alloc, dependency)?;
    let range = range.try_clone()?;
    let package = context.package.clone()?;
    let dynamic = context.in_dynamic_phase || dependency.is_dynamic;
    Ok(LoadContext {
        attribute,
        asset,
        source_phase,
        range: Some(range),
        in_dynamic_phase: dynamic,
        is_dynamic: dynamic,
        is_root: false,
        hops: 0,
        package,
    })
}

// The context of an edge that no import says more of.
fn plain_context(range: &Range) -> Result<LoadContext, AllocError>
    ensures { IfOk result (λ c. c ≡ plain_context range.now) }
{
    let range = range.try_clone()?;
    Ok(LoadContext {
        attribute: None,
        asset: false,
        source_phase: None,
        range: Some(range),
        in_dynamic_phase: false,
        is_dynamic: false,
        is_root: false,
        hops: 0,
        package: None,
    })
}

// Where the source map of a module stands.
fn source_map_context(context: &LoadContext, range: &Range) -> Result<LoadContext, AllocError>
    ensures { IfOk result (λ c. c ≡ source_map_context context.now range.now) }
{
    let mut edge = plain_context(range)?;
    edge.asset = true;
    edge.in_dynamic_phase = context.in_dynamic_phase;
    edge.is_dynamic = context.in_dynamic_phase;
    edge.package = context.package.clone()?;
    Ok(edge)
}

// Where the types of a module stand.
fn types_context(context: &LoadContext, range: &Range) -> Result<LoadContext, AllocError>
    ensures { IfOk result (λ c. c ≡ types_context context.now range.now) }
{
    let mut edge = plain_context(range)?;
    edge.in_dynamic_phase = context.in_dynamic_phase;
    edge.package = context.package.clone()?;
    Ok(edge)
}

// A target of a configured import.
fn import_context(dynamic: bool, range: &Range) -> Result<LoadContext, AllocError>
    ensures { IfOk result (λ c. c ≡ import_context dynamic range.now) }
{
    let mut edge = plain_context(range)?;
    edge.in_dynamic_phase = dynamic;
    edge.is_dynamic = dynamic;
    Ok(edge)
}

// Adds the load of a target.
fn push_load(
    loads: &mut Items<Load>,
    target: &ResolutionResolved,
    context: LoadContext,
    is_type: bool,
) -> Result<(), AllocError>
    ensures { OnOk result
        (loads.new
        ≡ loads.old ++
        (record { specifier = target.now.specifier; context = context; is_type = is_type } ∷
        [])) }
{
    let specifier = target.specifier.clone()?;
    loads.push(Load {
        specifier,
        context,
        is_type,
    })?;
    Ok(())
}

fn push_edge(
    alloc: Global,
    loads: &mut Items<Load>,
    context: &LoadContext,
    dependency: &Dependency,
    is_type: bool,
    resolution: &Resolution,
) -> Result<(), AllocError>
    ensures { OnOk result
        (loads.new
        ≡ loads.old ++ edge_of (edge_context context.now dependency.now) is_type
        resolution.now) }
{
    if let Resolution::Ok(target) = resolution {
        let target = target.get();
        let context = edge_context(alloc, context, dependency, &target.range)?;
        push_load(loads, target, context, is_type)?;
    }
    Ok(())
}

// The code of a dependency, then its type.
fn push_dependency(
    alloc: Global,
    loads: &mut Items<Load>,
    skip_dynamic_deps: bool,
    context: &LoadContext,
    dependency: &Dependency,
) -> Result<(), AllocError>
    ensures { OnOk result
        (loads.new ≡ loads.old ++ edges_by skip_dynamic_deps context.now dependency.now) }
{
    if dependency.is_dynamic && skip_dynamic_deps {
        return Ok(());
    }
    push_edge(
        alloc,
        loads,
        context,
        dependency,
        false,
        &dependency.maybe_code,
    )?;
    push_edge(
        alloc,
        loads,
        context,
        dependency,
        true,
        &dependency.maybe_type,
    )?;
    Ok(())
}

fn push_edges(
    alloc: Global,
    loads: &mut Items<Load>,
    skip_dynamic_deps: bool,
    context: &LoadContext,
    dependencies: &TextMap<Dependency>,
) -> Result<(), AllocError>
    ensures { OnOk result
        (loads.new ≡ loads.old ++ edges_of skip_dynamic_deps context.now dependencies.now) }
{
    for (_text, dependency) in dependencies.as_map().iter() {
        push_dependency(alloc, loads, skip_dynamic_deps, context, dependency)?;
    }
    Ok(())
}

// The source map of a module, but not in the place of types that stand elsewhere.
fn push_source_map_edge(
    loads: &mut Items<Load>,
    kind: GraphKind,
    context: &LoadContext,
    script: &JsModule,
) -> Result<(), AllocError>
    ensures { OnOk result (loads.new ≡ loads.old ++ source_map_edges kind script.now context.now) }
{
    if !kind.include_code() && script.maybe_types_dependency.is_some() {
        return Ok(());
    }
    if let Some(map) = &script.maybe_source_map_dependency {
        if let Resolution::Ok(target) = &map.dependency {
            let target = target.get();
            let context = source_map_context(context, &target.range)?;
            push_load(loads, target, context, false)?;
        }
    }
    Ok(())
}

fn push_types_edge(
    loads: &mut Items<Load>,
    context: &LoadContext,
    types: &Option<TypesDependency>,
) -> Result<(), AllocError>
    ensures { OnOk result (loads.new ≡ loads.old ++ types_edge context.now types.now) }
{
    if let Some(types) = types {
        if let Resolution::Ok(target) = &types.dependency {
            let target = target.get();
            let context = types_context(context, &target.range)?;
            push_load(loads, target, context, true)?;
        }
    }
    Ok(())
}

/// The edges that a graph of this kind follows from a module that was loaded under a context, in order, each as
/// a load of its target under its own context: the source map, to be kept at hand alone, but not where types
/// alone are held and those of the module stand elsewhere; then the resolved code of each dependency and its
/// resolved type; and last where the module's types stand. Where dynamic dependencies are skipped, they have no
/// edges. The only refusal is want of memory.
#[tactic(auto, unfolding(crate::specs::Edges::loads_of))]
pub fn loads_of(
    alloc: Global,
    module: &Module,
    kind: GraphKind,
    skip_dynamic_deps: bool,
    context: &LoadContext,
) -> Result<Items<Load>, AllocError>
    ensures { IfOk result
        (λ loads. loads ≡ loads_of kind skip_dynamic_deps «module».now context.now) }
{
    let mut loads = Items::new(alloc);
    match module {
        Module::Js(script) => {
            push_source_map_edge(&mut loads, kind, context, script)?;
            push_edges(
                alloc,
                &mut loads,
                skip_dynamic_deps,
                context,
                &script.dependencies,
            )?;
            push_types_edge(&mut loads, context, &script.maybe_types_dependency)?;
        }
        Module::Wasm(wasm) => {
            push_edges(
                alloc,
                &mut loads,
                skip_dynamic_deps,
                context,
                &wasm.dependencies,
            )?;
        }
        Module::Json(_) | Module::Npm(_) | Module::Node(_) | Module::External(_) => (),
    }
    Ok(loads)
}

fn push_import_edge(
    loads: &mut Items<Load>,
    dynamic: bool,
    is_type: bool,
    resolution: &Resolution,
) -> Result<(), AllocError>
    ensures { OnOk result
        (loads.new ≡ loads.old ++ edge_of (import_context dynamic) is_type resolution.now) }
{
    if let Resolution::Ok(target) = resolution {
        let target = target.get();
        let context = import_context(dynamic, &target.range)?;
        push_load(loads, target, context, is_type)?;
    }
    Ok(())
}

fn push_import_edges(
    loads: &mut Items<Load>,
    dynamic: bool,
    dependencies: &TextMap<Dependency>,
) -> Result<(), AllocError>
    ensures { OnOk result (loads.new ≡ loads.old ++ import_edges dynamic dependencies.now) }
{
    for (_text, dependency) in dependencies.as_map().iter() {
        push_import_edge(loads, dynamic, false, &dependency.maybe_code)?;
        push_import_edge(loads, dynamic, true, &dependency.maybe_type)?;
    }
    Ok(())
}

/// The resolved targets of configured imports, in order, each as a load under its own context, in the dynamic
/// phase or not. The only refusal is want of memory.
pub fn import_loads(
    alloc: Global,
    imports: &Entries<ModuleSpecifier, GraphImport>,
    dynamic: bool,
) -> Result<Items<Load>, AllocError>
    ensures { IfOk result (λ loads. loads ≡ import_loads dynamic imports.now) }
{
    let mut loads = Items::new(alloc);
    for (_referrer, import) in imports.as_map().iter() {
        push_import_edges(&mut loads, dynamic, &import.dependencies)?;
    }
    Ok(loads)
}
