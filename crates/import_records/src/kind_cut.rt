// The dependencies of a module, cut to what a graph of a kind holds.
ghost use Rattle.std.specs.Prelude.{◌≡◌, true, IfOk};
ghost use Rattle.spec_base.specs.Shown.{shown};
ghost use Rattle.import_records.specs.Cut.{cut_one, cut, kept};
ghost use Rattle.import_records.specs.Dependencies.{dependencies_of};
ghost use Rattle.import_records.specs.Importing.{importing, is_told_importer};

use crate::importer::Importer;
use graph_dependencies::{Dependency, GraphKind, TypesDependency};
use graph_errors::Resolution;
use indexmap::IndexMap;
use module_info::ModuleInfo;
use source_io::{JsrUrlProvider, Resolver};
use spec_base::TextMap;
use std::alloc::AllocError;

fn cut(dependency: &mut Dependency, kind: GraphKind, skip_dynamic_deps: bool)
    ensures { dependency.new ≡ cut_one kind skip_dynamic_deps dependency.old }
{
    if dependency.is_dynamic && skip_dynamic_deps {
        return;
    }
    if !kind.include_code() && !dependency.maybe_type.is_none() {
        dependency.maybe_code = Resolution::None;
    }
    if !kind.include_types() {
        dependency.maybe_type = Resolution::None;
    }
}

fn cut_all(
    dependencies: &mut IndexMap<String, Dependency>,
    kind: GraphKind,
    skip_dynamic_deps: bool,
)
    ensures { dependencies.new.entries ≡ cut kind skip_dynamic_deps dependencies.old.entries }
{
    for at in 0..dependencies.len() {
        let dependency = dependencies.get_index_mut(at).unwrap();
        cut(dependency, kind, skip_dynamic_deps);
    }
}

impl<U: JsrUrlProvider, R: Resolver> Importer<'_, U, R> {
    /// The dependencies of the module by its info that a graph of a kind holds: none where it holds types
    /// alone and those of the module stand elsewhere. Where dynamic dependencies are skipped, they are left as
    /// they are. The only refusal is want of memory.
    #[tactic(auto, using(crate::proofs::EntryLemmas::cut_shown))]
    pub fn kept_dependencies(
        &self,
        info: &ModuleInfo,
        kind: GraphKind,
        skip_dynamic_deps: bool,
        types: &Option<TypesDependency>,
    ) -> Result<TextMap<Dependency>, AllocError>
        ensures { is_told_importer R.is_told self.now ≡ true
            → IfOk result (λ d. d
            ≡ kept kind skip_dynamic_deps types.now
            (dependencies_of (importing U.meaning R.meaning self.now) info.now)) }
    {
        if !kind.include_code() && types.is_some() {
            return Ok(TextMap::new(self.targets.alloc));
        }
        let mut dependencies = self.dependencies(info)?;
        cut_all(&mut dependencies, kind, skip_dynamic_deps);
        Ok(dependencies.into())
    }
}
