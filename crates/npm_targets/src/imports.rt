// Configured imports, each resolved again.
ghost use Rattle.std.specs.Prelude.{◌≡◌, ◌++◌, flat_map, true, OnOk};
ghost use Rattle.import_records.specs.Target.{is_told_resolver};
ghost use Rattle.npm_targets.specs.Edges.{all_loads_again, repointing};
ghost use Rattle.npm_targets.specs.Graphs.{KeepsOutset, repointed_imports};

use crate::repointing::Repointing;
use graph_core::Load;
use graph_dependencies::GraphImport;
use indexmap::IndexMap;
use source_io::{JsrUrlProvider, Resolver};
use spec_base::{Entries, ModuleSpecifier};
use std::alloc::AllocError;

impl<U: JsrUrlProvider, R: Resolver> Repointing<'_, U, R> {
    fn repoint_all_imports(
        &self,
        imports: &mut IndexMap<ModuleSpecifier, GraphImport>,
        loads: &mut Vec<Load>,
    ) -> Result<(), AllocError>
        ensures imports { is_told_resolver R.is_told self.now.targets.resolver ≡ true
            → OnOk result
            (imports.new.entries
            ≡ repointed_imports (repointing U.meaning R.meaning self.now)
            imports.old.entries) }
        ensures loads { is_told_resolver R.is_told self.now.targets.resolver ≡ true
            → OnOk result
            (loads.new.items
            ≡ loads.old.items ++ flat_map
            (λ e. all_loads_again (repointing U.meaning R.meaning self.now) e.1.dependencies)
            imports.old.entries) }
        ensures outset { OnOk result (KeepsOutset loads.old.items loads.new.items) }
    {
        for at in 0..imports.len() {
            let (_referrer, import) = imports.pair_mut(at);
            self.repoint_dependencies(&mut import.dependencies, loads)?;
        }
        Ok(())
    }

    /// Resolves the dependencies of configured imports again whose edges lead to npm, and adds the loads of where they lead
    /// then. The only refusal is want of memory.
    pub(crate) fn repoint_imports(
        &self,
        imports: &mut Entries<ModuleSpecifier, GraphImport>,
        loads: &mut Vec<Load>,
    ) -> Result<(), AllocError>
        ensures imports { is_told_resolver R.is_told self.now.targets.resolver ≡ true
            → OnOk result
            (imports.new
            ≡ repointed_imports (repointing U.meaning R.meaning self.now) imports.old) }
        ensures loads { is_told_resolver R.is_told self.now.targets.resolver ≡ true
            → OnOk result
            (loads.new.items
            ≡ loads.old.items ++ flat_map
            (λ e. all_loads_again (repointing U.meaning R.meaning self.now) e.1.dependencies)
            imports.old) }
        ensures outset { OnOk result (KeepsOutset loads.old.items loads.new.items) }
    {
        let mut copies = imports.as_map().clone()?;
        self.repoint_all_imports(&mut copies, loads)?;
        *imports = Entries::from(copies);
        Ok(())
    }
}
