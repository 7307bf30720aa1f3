// What a build begins with, roots and configured imports, and how a graph gets those that it hasn't yet.
ghost use Rattle.std.specs.Prelude.{◌≡◌, ◌==◌, ◌&&◌, length, map, OnOk, IfOk};
ghost use Rattle.graph_turns.specs.Promise.Input.{root_load, imports_with};
ghost use Rattle.graph_turns.specs.Machine.Starting.{roots_with, added_roots, added_imports};
ghost use Rattle.graph_core.specs.Edges.{import_loads};

use graph_core::{GraphImport, Load, LoadContext, import_loads};
use spec_base::{Entries, Items, ModuleSpecifier, SpecifierSet};
use std::alloc::{AllocError, Global};

/// Roots and configured imports, resolved, that enter a graph.
#[derive(Drop)]
pub struct ResolvedStart {
    pub roots: Items<ModuleSpecifier>,
    pub imports: Items<(ModuleSpecifier, GraphImport)>,
}

impl ResolvedStart {
    /// Whether neither a root nor an import is given.
    pub(crate) fn is_nothing(&self) -> bool
        ensures { result ≡ (length self.now.roots == 0 && length self.now.imports == 0) }
    {
        self.roots.len() == 0 && self.imports.len() == 0
    }

    /// A copy. The only refusal is want of memory.
    pub fn try_clone(&self, alloc: Global) -> Result<ResolvedStart, AllocError>
        ensures { IfOk result (λ copy. copy ≡ self.now) }
    {
        let roots = self.roots.try_clone()?;
        let mut imports = Items::new(alloc);
        for (referrer, import) in self.imports.as_slice() {
            imports.push((referrer.clone()?, import.try_clone()?))?;
        }
        Ok(ResolvedStart { roots, imports })
    }
}

// The load of a root, which no import names.
fn root_load(dynamic: bool, root: &ModuleSpecifier) -> Result<Load, AllocError>
    ensures { IfOk result (λ load. load ≡ root_load dynamic root.now) }
{
    let specifier = root.clone()?;
    let context = LoadContext {
        attribute: None,
        asset: false,
        source_phase: None,
        range: None,
        in_dynamic_phase: dynamic,
        is_dynamic: dynamic,
        is_root: true,
        hops: 0,
        package: None,
    };
    Ok(Load {
        specifier,
        context,
        is_type: false,
    })
}

/// Adds the roots that aren't in the set yet, each text once, and answers their loads, which no import names.
/// The only refusal is want of memory.
pub(crate) fn add_roots(
    alloc: Global,
    dynamic: bool,
    set: &mut SpecifierSet,
    given: &[ModuleSpecifier],
) -> Result<Vec<Load>, AllocError>
    ensures set { OnOk result (set.new ≡ roots_with set.old given.now) }
    ensures loads { IfOk result
        (λ loads. loads.items ≡ map (root_load dynamic) (added_roots set.old given.now)) }
{
    let mut loads = Vec::with_capacity(alloc, given.len())?;
    for root in given {
        if set.insert(root.clone()?)? {
            loads.push(root_load(dynamic, root)?)?;
        }
    }
    Ok(loads)
}

// Adds the imports of the referrers that have none yet; the first ones of a referrer count.
fn put_imports(
    imports: &mut Entries<ModuleSpecifier, GraphImport>,
    given: Vec<(ModuleSpecifier, GraphImport)>,
) -> Result<(), AllocError>
    ensures { OnOk result (imports.new ≡ imports_with imports.old given.items) }
{
    for (referrer, import) in given {
        if !imports.as_map().contains_key(&referrer) {
            let before = imports.insert(referrer, import)?;
            drop(before);
        }
    }
    Ok(())
}

/// Adds the imports of the referrers that have none yet, and answers the loads of their targets. The only
/// refusal is want of memory.
#[tactic(auto, using(crate::proofs::Entering::Behind::added_behind, crate::proofs::Entering::Behind::stood_within))]
pub(crate) fn add_imports(
    alloc: Global,
    dynamic: bool,
    imports: &mut Entries<ModuleSpecifier, GraphImport>,
    given: Vec<(ModuleSpecifier, GraphImport)>,
) -> Result<Vec<Load>, AllocError>
    ensures imports { OnOk result (imports.new ≡ imports_with imports.old given.items) }
    ensures loads { IfOk result
        (λ loads. loads.items ≡ import_loads dynamic (added_imports imports.old given.items)) }
{
    let stood = import_loads(alloc, imports, dynamic)?.len();
    put_imports(imports, given)?;
    // The loads of the imports that stood before come first.
    let mut loads = import_loads(alloc, imports, dynamic)?.into_vec();
    let added = loads.split_off(stood)?;
    Ok(added)
}
