// Where the source map of a module stands.
ghost use Rattle.std.specs.Prelude.{◌≡◌, true, IfOk};
ghost use Rattle.import_records.specs.Importing.{importing, is_told_importer};
ghost use Rattle.import_records.specs.SourceMap.{mapped, source_map_of};

use crate::importer::Importer;
use graph_dependencies::TypesDependency;
use module_info::{ModuleInfo, SpecifierWithRange};
use source_io::{JsrUrlProvider, Resolver};
use spec_base::ResolutionKind;
use std::alloc::AllocError;

impl<U: JsrUrlProvider, R: Resolver> Importer<'_, U, R> {
    fn mapped(&self, url: &SpecifierWithRange) -> Result<TypesDependency, AllocError>
        ensures { is_told_importer R.is_told self.now ≡ true
            → IfOk result (λ m. m ≡ mapped (importing U.meaning R.meaning self.now) url.now) }
    {
        let range = self.range(url.range, None)?;
        let specifier = url.text.try_clone()?;
        let dependency = self
            .targets
            .target(url.text.as_str(), range, ResolutionKind::Execution, None)?;
        Ok(TypesDependency {
            specifier,
            dependency,
        })
    }

    /// Where the source map of the module stands, whatever a graph holds of the module. The only refusal is
    /// want of memory.
    pub fn source_map_dependency(
        &self,
        info: &ModuleInfo,
    ) -> Result<Option<TypesDependency>, AllocError>
        ensures { is_told_importer R.is_told self.now ≡ true
            → IfOk result
            (λ m. m ≡ source_map_of (importing U.meaning R.meaning self.now) info.now) }
    {
        match &info.source_map_url {
            None => Ok(None),
            Some(url) => {
                let found = self.mapped(url)?;
                Ok(Some(found))
            }
        }
    }
}
