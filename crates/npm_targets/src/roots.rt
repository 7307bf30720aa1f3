// Roots that lead to npm, resolved again.
ghost use Rattle.std.specs.Prelude.{◌≡◌, ◌++◌, filter, flat_map, fold, true, IfOk, OnOk};
ghost use Rattle.import_records.specs.Target.{is_told_resolver};
ghost use Rattle.import_records.specs.TypesDependency.{beginning};
ghost use Rattle.npm_targets.specs.Edges.{is_npm, repointing};
ghost use Rattle.npm_targets.specs.Graphs.{KeepsOutset, exchanged, repointed_roots, root_context_again, root_loads, root_target};

use crate::edges::is_npm;
use crate::repointing::Repointing;
use graph_core::{Load, LoadContext};
use indexmap::IndexSet;
use source_io::{JsrUrlProvider, Resolver};
use spec_base::{ModuleSpecifier, PositionRange, Range, SpecifierSet};
use std::alloc::{AllocError, Global};

/// The range at the beginning of a specifier.
pub(crate) fn beginning_of(specifier: &ModuleSpecifier) -> Result<Range, AllocError>
    ensures { IfOk result (λ r. r ≡ beginning specifier.now) }
{
    let specifier = specifier.clone()?;
    Ok(Range {
        specifier,
        range: PositionRange::zeroed(),
        resolution_mode: None,
    })
}

// Copies of the roots that lead to npm.
fn npm_roots(alloc: Global, roots: &[ModuleSpecifier]) -> Result<Vec<ModuleSpecifier>, AllocError>
    ensures { IfOk result (λ found. found.items ≡ filter is_npm roots.now) }
{
    let mut found = Vec::new(alloc);
    for root in roots {
        if is_npm(root) {
            let root = root.clone()?;
            found.push(root)?;
        }
    }
    Ok(found)
}

// A root is loaded without an import that names it.
fn root_context(in_dynamic_phase: bool) -> LoadContext
    ensures { result ≡ root_context_again in_dynamic_phase }
{
    LoadContext {
        attribute: None,
        asset: false,
        source_phase: None,
        range: None,
        in_dynamic_phase,
        is_dynamic: false,
        is_root: true,
        hops: 0,
        package: None,
    }
}

// The specifiers of a set, in their order.
fn specifiers_of(alloc: Global, set: IndexSet<ModuleSpecifier>) -> Result<SpecifierSet, AllocError>
    ensures { IfOk result (λ specifiers. specifiers ≡ set.keys) }
{
    let mut specifiers = SpecifierSet::new(alloc);
    for specifier in set {
        let _ = specifiers.insert(specifier)?;
    }
    Ok(specifiers)
}

impl<U: JsrUrlProvider, R: Resolver> Repointing<'_, U, R> {
    // Where a root leads from a range.
    #[tactic(auto, unfolding(spec_base::specs::Specifier::specifier_text))]
    fn root_target(
        &self,
        root: &ModuleSpecifier,
        range: &Range,
    ) -> Result<Option<ModuleSpecifier>, AllocError>
        ensures { is_told_resolver R.is_told self.now.targets.resolver ≡ true
            → IfOk result
            (λ target. target
            ≡ root_target (repointing U.meaning R.meaning self.now) range.now root.now) }
    {
        let range = range.try_clone()?;
        let target = self
            .targets
            .target(root.as_str(), range, self.resolution_kind, None)?;
        match target.maybe_specifier() {
            Some(specifier) => Ok(Some(specifier.clone()?)),
            None => Ok(None),
        }
    }

    // A root that leads somewhere goes, and where it leads stands last.
    fn exchange(
        &self,
        root: &ModuleSpecifier,
        range: &Range,
        set: &mut IndexSet<ModuleSpecifier>,
        loads: &mut Vec<Load>,
    ) -> Result<(), AllocError>
        ensures set { is_told_resolver R.is_told self.now.targets.resolver ≡ true
            → OnOk result
            (set.new.keys
            ≡ exchanged (repointing U.meaning R.meaning self.now) range.now set.old.keys
            root.now) }
        ensures loads { is_told_resolver R.is_told self.now.targets.resolver ≡ true
            → OnOk result
            (loads.new.items
            ≡ loads.old.items ++ root_loads (repointing U.meaning R.meaning self.now)
            range.now root.now) }
        ensures outset { OnOk result (KeepsOutset loads.old.items loads.new.items) }
    {
        if let Some(target) = self.root_target(root, range)? {
            let _ = set.swap_remove(root);
            let key = target.clone()?;
            let _ = set.insert(key)?;
            loads.push(Load {
                specifier: target,
                context: root_context(self.in_dynamic_phase),
                is_type: false,
            })?;
        }
        Ok(())
    }

    // Each of some roots, in order.
    fn exchange_all(
        &self,
        roots: &[ModuleSpecifier],
        range: &Range,
        set: &mut IndexSet<ModuleSpecifier>,
        loads: &mut Vec<Load>,
    ) -> Result<(), AllocError>
        ensures set { is_told_resolver R.is_told self.now.targets.resolver ≡ true
            → OnOk result
            (set.new.keys
            ≡ fold (exchanged (repointing U.meaning R.meaning self.now) range.now)
            set.old.keys roots.now) }
        ensures loads { is_told_resolver R.is_told self.now.targets.resolver ≡ true
            → OnOk result
            (loads.new.items
            ≡ loads.old.items ++ flat_map
            (root_loads (repointing U.meaning R.meaning self.now) range.now) roots.now) }
        ensures outset { OnOk result (KeepsOutset loads.old.items loads.new.items) }
    {
        for root in roots {
            self.exchange(root, range, set, loads)?;
        }
        Ok(())
    }

    /// Resolves the roots that lead to npm again, from a range: each that leads somewhere changes places with the last root and
    /// goes, and where it leads stands last, if it is no root yet. It adds the loads of where they lead. The only refusal is
    /// want of memory.
    pub(crate) fn repoint_roots(
        &self,
        roots: &mut SpecifierSet,
        range: &Range,
        loads: &mut Vec<Load>,
    ) -> Result<(), AllocError>
        ensures roots { is_told_resolver R.is_told self.now.targets.resolver ≡ true
            → OnOk result
            (roots.new
            ≡ repointed_roots (repointing U.meaning R.meaning self.now) range.now roots.old) }
        ensures loads { is_told_resolver R.is_told self.now.targets.resolver ≡ true
            → OnOk result
            (loads.new.items
            ≡ loads.old.items ++ flat_map
            (root_loads (repointing U.meaning R.meaning self.now) range.now)
            (filter is_npm roots.old)) }
        ensures outset { OnOk result (KeepsOutset loads.old.items loads.new.items) }
    {
        let found = npm_roots(self.targets.alloc, roots.as_set().as_slice())?;
        if found.is_empty() {
            return Ok(());
        }
        let mut set = roots.as_set().clone()?;
        self.exchange_all(found.as_slice(), range, &mut set, loads)?;
        *roots = specifiers_of(self.targets.alloc, set)?;
        Ok(())
    }
}
