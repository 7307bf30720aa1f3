// The errors of one entry, in the order in which they are collected.
ghost use Rattle.std.specs.Prelude.{◌≡◌, ◌++◌, ◌&&◌, OnOk};
ghost use Rattle.module_slots.specs.declared.slot.Module.TheVariants.{Js};
ghost use Rattle.graph_dependencies.specs.Kinds.{include_types};
ghost use Rattle.graph_walk.specs.EntryValue.{entry_value};
ghost use Rattle.graph_walk.specs.Errors.{named_errors, dependencies_errors, types_errors, wasm_errors, module_errors, entry_errors};
ghost use Rattle.graph_walk.specs.Options.{how, is_checkable};

use crate::edges::{EdgeRef, is_missing, push_edge};
use crate::options::{CheckJsResolver, WalkOptions};
use crate::walk::{ModuleEntryRef, walked};
use graph_core::{
    Dependency, JsModule, Module, ModuleGraph, ModuleGraphError, TypesDependency, WasmModule,
};
use spec_base::{ModuleSpecifier, TextMap};
use std::alloc::{AllocError, Global};

// Adds those of a dependency that is followed.
fn push_named<C: CheckJsResolver>(
    alloc: Global,
    graph: &ModuleGraph,
    options: &WalkOptions<'_, C>,
    errors: &mut Vec<ModuleGraphError>,
    is_checked: bool,
    here: &ModuleSpecifier,
    text: &str,
    dependency: &Dependency,
) -> Result<(), AllocError>
    ensures { OnOk result
        (errors.new.items
        ≡ errors.old.items ++ named_errors graph.now (how C.resolves options.now) is_checked
        here.now (text.now, dependency.now)) }
{
    let is_dynamic = dependency.is_dynamic;
    if is_dynamic && !options.follow_dynamic {
        return Ok(());
    }
    let edge = EdgeRef {
        here,
        text,
        is_type: false,
        is_dynamic,
    };
    push_edge(alloc, graph, options, errors, edge, &dependency.maybe_code)?;
    if is_checked {
        let edge = EdgeRef {
            here,
            text,
            is_type: true,
            is_dynamic,
        };
        push_edge(alloc, graph, options, errors, edge, &dependency.maybe_type)?;
    }
    Ok(())
}

fn push_dependencies<C: CheckJsResolver>(
    alloc: Global,
    graph: &ModuleGraph,
    options: &WalkOptions<'_, C>,
    errors: &mut Vec<ModuleGraphError>,
    is_checked: bool,
    here: &ModuleSpecifier,
    dependencies: &TextMap<Dependency>,
) -> Result<(), AllocError>
    ensures { OnOk result
        (errors.new.items
        ≡ errors.old.items ++ dependencies_errors graph.now (how C.resolves options.now)
        is_checked here.now dependencies.now) }
{
    for (text, dependency) in dependencies.as_map().iter() {
        push_named(
            alloc,
            graph,
            options,
            errors,
            is_checked,
            here,
            text.as_str(),
            dependency,
        )?;
    }
    Ok(())
}

fn push_types<C: CheckJsResolver>(
    alloc: Global,
    graph: &ModuleGraph,
    options: &WalkOptions<'_, C>,
    errors: &mut Vec<ModuleGraphError>,
    here: &ModuleSpecifier,
    types: &Option<TypesDependency>,
) -> Result<(), AllocError>
    ensures { OnOk result
        (errors.new.items
        ≡ errors.old.items ++ types_errors graph.now (how C.resolves options.now) here.now
        types.now) }
{
    match types {
        None => Ok(()),
        Some(types) => {
            if !options.kind.include_types() {
                return Ok(());
            }
            let edge = EdgeRef {
                here,
                text: types.specifier.as_str(),
                is_type: true,
                is_dynamic: false,
            };
            push_edge(alloc, graph, options, errors, edge, &types.dependency)
        }
    }
}

// Whether the errors at types of a script's dependencies count.
fn is_checked<C: CheckJsResolver>(options: &WalkOptions<'_, C>, script: &JsModule) -> bool
    ensures { result
        ≡ (include_types options.now.kind && is_checkable (how C.resolves options.now)
        script.now.specifier script.now.media_type) }
{
    options.kind.include_types() && options.is_checkable(&script.specifier, script.media_type)
}

fn push_script<C: CheckJsResolver>(
    alloc: Global,
    graph: &ModuleGraph,
    options: &WalkOptions<'_, C>,
    errors: &mut Vec<ModuleGraphError>,
    script: &JsModule,
) -> Result<(), AllocError>
    ensures { OnOk result
        (errors.new.items
        ≡ errors.old.items ++ module_errors graph.now (how C.resolves options.now)
        (Js script.now)) }
{
    let here = &script.specifier;
    push_types(
        alloc,
        graph,
        options,
        errors,
        here,
        &script.maybe_types_dependency,
    )?;
    let is_checked = is_checked(options, script);
    push_dependencies(
        alloc,
        graph,
        options,
        errors,
        is_checked,
        here,
        walked(options, script),
    )
}

// Adds those of a WebAssembly module, whose types always count.
fn push_wasm<C: CheckJsResolver>(
    alloc: Global,
    graph: &ModuleGraph,
    options: &WalkOptions<'_, C>,
    errors: &mut Vec<ModuleGraphError>,
    wasm: &WasmModule,
) -> Result<(), AllocError>
    ensures { OnOk result
        (errors.new.items
        ≡ errors.old.items ++ wasm_errors graph.now (how C.resolves options.now) wasm.now) }
{
    let is_checked = options.kind.include_types();
    push_dependencies(
        alloc,
        graph,
        options,
        errors,
        is_checked,
        &wasm.specifier,
        &wasm.dependencies,
    )
}

/// Adds those of an entry.
pub(crate) fn push_entry<C: CheckJsResolver>(
    alloc: Global,
    graph: &ModuleGraph,
    options: &WalkOptions<'_, C>,
    errors: &mut Vec<ModuleGraphError>,
    entry: ModuleEntryRef<'_>,
) -> Result<(), AllocError>
    ensures { OnOk result
        (errors.new.items
        ≡ errors.old.items ++ entry_errors graph.now (how C.resolves options.now)
        (entry_value entry.entry)) }
{
    match entry {
        ModuleEntryRef::Module(Module::Js(script)) => {
            push_script(alloc, graph, options, errors, script)
        }
        ModuleEntryRef::Module(Module::Json(_)) => Ok(()),
        ModuleEntryRef::Module(Module::Wasm(wasm)) => {
            push_wasm(alloc, graph, options, errors, wasm)
        }
        ModuleEntryRef::Module(Module::Npm(_)) => Ok(()),
        ModuleEntryRef::Module(Module::Node(_)) => Ok(()),
        ModuleEntryRef::Module(Module::External(_)) => Ok(()),
        ModuleEntryRef::Err(error) => {
            if is_missing(error) && options.follow_dynamic {
                return Ok(());
            }
            let error = error.try_clone()?;
            errors.push(ModuleGraphError::ModuleError(error))?;
            Ok(())
        }
        ModuleEntryRef::Redirect(_) => Ok(()),
    }
}
