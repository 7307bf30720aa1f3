// The dependencies of a module: its import records, put together by their texts.
ghost use Rattle.std.specs.Prelude.{◌≡◌, true, [], ◌==◌, not, length, filter, OnOk, IfOk, fold};
ghost use Rattle.spec_base.specs.Shown.{shown};
ghost use Rattle.import_records.specs.Dependencies.{all_dependencies, is_augmentation, settled, settled_and_kept, dependencies_of};
ghost use Rattle.import_records.specs.Importing.{importing, is_told_importer};
ghost use Rattle.import_records.specs.Growing.{put};

use crate::grown_dependency::{add, empty_dependency};
use crate::import_record::ImportRecord;
use crate::importer::Importer;
use graph_dependencies::{Dependency, Import, ImportKind};
use indexmap::IndexMap;
use module_info::ModuleInfo;
use source_io::{JsrUrlProvider, Resolver};
use spec_base::Items;
use std::alloc::AllocError;

fn is_augmentation_kind(kind: ImportKind) -> bool
    ensures { result ≡ is_augmentation kind }
{
    matches!(kind, ImportKind::TsModuleAugmentation)
}

fn drop_augmentations(imports: &mut Items<Import>)
    ensures { imports.new ≡ filter (λ i. not (is_augmentation i.kind)) imports.old }
{
    imports.retain(|import| !is_augmentation_kind(import.kind));
}

// Without a resolved type the augmentations go.
fn settle(dependency: &mut Dependency)
    ensures { dependency.new ≡ settled dependency.old }
{
    if dependency.maybe_type.maybe_specifier().is_none() {
        drop_augmentations(&mut dependency.imports);
    }
}

fn settle_all(dependencies: &mut IndexMap<String, Dependency>)
    ensures { dependencies.new.entries ≡ settled_and_kept dependencies.old.entries }
{
    dependencies.retain(
        |_text: &String, dependency: &mut Dependency| -> bool
            ensures { (dependency.new ≡ settled dependency.old)
                × (result ≡ not (length dependency.new.imports == 0)) }
        {
            settle(dependency);
            dependency.imports.len() != 0
        },
    );
}

impl<U: JsrUrlProvider, R: Resolver> Importer<'_, U, R> {
    // The dependencies with one record more.
    fn put(
        &self,
        dependencies: &mut IndexMap<String, Dependency>,
        found: ImportRecord,
    ) -> Result<(), AllocError>
        ensures { is_told_importer R.is_told self.now ≡ true
            → OnOk result (shown dependencies.new.entries
            ≡ put (importing U.meaning R.meaning self.now) (shown dependencies.old.entries) found) }
    {
        match dependencies.get_index_of(found.imported.specifier.as_str()) {
            Some(at) => {
                let dependency = dependencies.get_index_mut(at).unwrap();
                add(dependency, self, found)?;
            }
            None => {
                let text = found.imported.specifier.try_clone()?;
                let mut dependency = empty_dependency(self.targets.alloc)?;
                add(&mut dependency, self, found)?;
                dependencies.insert(text.into_string(), dependency)?;
            }
        }
        Ok(())
    }

    fn put_all(
        &self,
        records: Items<ImportRecord>,
    ) -> Result<IndexMap<String, Dependency>, AllocError>
        ensures { is_told_importer R.is_told self.now ≡ true
            → IfOk result
            (λ m. shown m.entries
            ≡ fold (put (importing U.meaning R.meaning self.now)) [] records) }
    {
        let mut dependencies = IndexMap::with_capacity(self.targets.alloc, records.len())?;
        for found in records.into_vec() {
            self.put(&mut dependencies, found)?;
        }
        Ok(dependencies)
    }

    // What the records of each text make, in one pass over the records.
    #[tactic(auto, using(crate::proofs::Grouping::passed))]
    fn fill(&self, records: Items<ImportRecord>) -> Result<IndexMap<String, Dependency>, AllocError>
        ensures { is_told_importer R.is_told self.now ≡ true
            → IfOk result
            (λ m. shown m.entries
            ≡ all_dependencies (importing U.meaning R.meaning self.now) records) }
    {
        self.put_all(records)
    }

    /// The dependencies of the module by its info, each by its text, in the order of their first imports. The
    /// only refusal is want of memory.
    #[tactic(auto, using(crate::proofs::EntryLemmas::settled_shown))]
    pub fn dependencies(
        &self,
        info: &ModuleInfo,
    ) -> Result<IndexMap<String, Dependency>, AllocError>
        ensures { is_told_importer R.is_told self.now ≡ true
            → IfOk result
            (λ m. shown m.entries
            ≡ dependencies_of (importing U.meaning R.meaning self.now) info.now) }
    {
        let records = self.records(info)?;
        let mut dependencies = self.fill(records)?;
        if self.media.is_typed() {
            settle_all(&mut dependencies);
        }
        Ok(dependencies)
    }
}
