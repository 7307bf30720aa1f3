// The dependencies of a module or of configured imports, each resolved again in place.
ghost use Rattle.std.specs.Prelude.{◌≡◌, ◌++◌, true, OnOk};
ghost use Rattle.spec_base.specs.Shown.{shown};
ghost use Rattle.import_records.specs.Target.{is_told_resolver};
ghost use Rattle.npm_targets.specs.Edges.{all_loads_again, repointed_all, repointing};
ghost use Rattle.npm_targets.specs.Graphs.{KeepsOutset};
ghost use Rattle.npm_targets.specs.Steps.{has_again};

use crate::edges::range_again;
use crate::repointing::Repointing;
use graph_core::Load;
use graph_dependencies::Dependency;
use indexmap::IndexMap;
use source_io::{JsrUrlProvider, Resolver};
use spec_base::{ResolutionKind, TextMap};
use std::alloc::AllocError;
use std::mem;

/// Whether some dependency is resolved again.
pub(crate) fn has_again(kind: ResolutionKind, dependencies: &TextMap<Dependency>) -> bool
    ensures { result ≡ has_again kind dependencies.now }
{
    for (_text, dependency) in dependencies.as_map().iter() {
        if range_again(kind, dependency).is_some() {
            return true;
        }
    }
    false
}

impl<U: JsrUrlProvider, R: Resolver> Repointing<'_, U, R> {
    fn repoint_entries(
        &self,
        entries: &mut IndexMap<String, Dependency>,
        loads: &mut Vec<Load>,
    ) -> Result<(), AllocError>
        ensures entries { is_told_resolver R.is_told self.now.targets.resolver ≡ true
            → OnOk result
            (shown entries.new.entries
            ≡ repointed_all (repointing U.meaning R.meaning self.now)
            (shown entries.old.entries)) }
        ensures loads { is_told_resolver R.is_told self.now.targets.resolver ≡ true
            → OnOk result
            (loads.new.items
            ≡ loads.old.items ++ all_loads_again (repointing U.meaning R.meaning self.now)
            (shown entries.old.entries)) }
        ensures outset { OnOk result (KeepsOutset loads.old.items loads.new.items) }
    {
        for at in 0..entries.len() {
            let (text, dependency) = entries.pair_mut(at);
            self.repoint_dependency(text.as_str(), dependency, loads)?;
        }
        Ok(())
    }

    /// Resolves each dependency again whose edge leads to npm, and adds the loads of where they lead then. The only refusal is
    /// want of memory, after which they may be gone.
    pub(crate) fn repoint_dependencies(
        &self,
        dependencies: &mut TextMap<Dependency>,
        loads: &mut Vec<Load>,
    ) -> Result<(), AllocError>
        ensures dependencies { is_told_resolver R.is_told self.now.targets.resolver ≡ true
            → OnOk result
            (dependencies.new
            ≡ repointed_all (repointing U.meaning R.meaning self.now) dependencies.old) }
        ensures loads { is_told_resolver R.is_told self.now.targets.resolver ≡ true
            → OnOk result
            (loads.new.items
            ≡ loads.old.items ++ all_loads_again (repointing U.meaning R.meaning self.now)
            dependencies.old) }
        ensures outset { OnOk result (KeepsOutset loads.old.items loads.new.items) }
    {
        let empty = TextMap::new(self.targets.alloc);
        let mut entries = mem::replace(dependencies, empty).into_map();
        self.repoint_entries(&mut entries, loads)?;
        *dependencies = TextMap::from(entries);
        Ok(())
    }
}
