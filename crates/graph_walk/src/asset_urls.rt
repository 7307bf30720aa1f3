// Where the assets of a graph stand, which are taken as they are and not run.
ghost use Rattle.std.specs.Prelude.{◌≡◌, [], ◌∷◌, IfOk, OnOk};
ghost use Rattle.spec_base.specs.Specifier.{specifier_text};
ghost use Rattle.graph_walk.specs.Assets.{Adds, all_have_asset_type, asset_place, assets_among, module_assets, asset_places};
ghost use Rattle.graph_walk.specs.Lent.{lent_texts};

use crate::members::modules_of;
use graph_core::{Dependency, Module, ModuleGraph};
use indexmap::IndexSet;
use spec_base::{ModuleSpecifier, TextMap};
use std::alloc::{AllocError, Global};

// Whether each import has an asset's type; the source phase alone doesn't count.
fn is_asset(dependency: &Dependency) -> bool
    ensures { result ≡ all_have_asset_type dependency.now }
{
    dependency
        .imports
        .as_slice()
        .iter()
        .all(|import| import.attributes.has_asset())
}

// Adds a specifier whose text isn't there.
fn add<'a>(
    urls: &mut IndexSet<&'a ModuleSpecifier>,
    specifier: &'a ModuleSpecifier,
) -> Result<(), AllocError>
    ensures { OnOk result (Adds (specifier_text specifier.now ∷ []) urls.old.keys urls.new.keys) }
{
    urls.insert(specifier)?;
    Ok(())
}

fn add_asset<'a>(
    graph: &'a ModuleGraph,
    urls: &mut IndexSet<&'a ModuleSpecifier>,
    dependency: &'a Dependency,
) -> Result<(), AllocError>
    ensures { OnOk result
        (Adds (asset_place graph.now dependency.now) urls.old.keys urls.new.keys) }
{
    if !is_asset(dependency) {
        return Ok(());
    }
    match dependency.get_code() {
        Some(target) => add(urls, graph.resolve(target)),
        None => Ok(()),
    }
}

fn add_assets<'a>(
    graph: &'a ModuleGraph,
    urls: &mut IndexSet<&'a ModuleSpecifier>,
    dependencies: &'a TextMap<Dependency>,
) -> Result<(), AllocError>
    ensures { OnOk result
        (Adds (assets_among graph.now dependencies.now) urls.old.keys urls.new.keys) }
{
    for (_text, dependency) in dependencies.as_map().iter() {
        add_asset(graph, urls, dependency)?;
    }
    Ok(())
}

fn add_module<'a>(
    graph: &'a ModuleGraph,
    urls: &mut IndexSet<&'a ModuleSpecifier>,
    found: &'a Module,
) -> Result<(), AllocError>
    ensures { OnOk result (Adds (module_assets graph.now found.now) urls.old.keys urls.new.keys) }
{
    match found.dependencies() {
        Some(dependencies) => add_assets(graph, urls, dependencies),
        None => Ok(()),
    }
}

/// Where the assets of a graph stand.
pub(crate) fn asset_module_urls<'a>(
    alloc: Global,
    graph: &'a ModuleGraph,
) -> Result<IndexSet<&'a ModuleSpecifier>, AllocError>
    ensures { IfOk result (λ urls. lent_texts urls.keys ≡ asset_places graph.now) }
{
    let mut urls = IndexSet::new(alloc);
    for found in modules_of(graph) {
        add_module(graph, &mut urls, found)?;
    }
    Ok(urls)
}
