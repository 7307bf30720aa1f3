// The imports of a module as records, in one list.
ghost use Rattle.std.specs.Prelude.{◌≡◌, true, ◌++◌, IfOk, OnOk};
ghost use Rattle.import_records.specs.Importing.{importing, is_told_importer};
ghost use Rattle.import_records.specs.Records.{comment_records, records_of};

use crate::import_record::ImportRecord;
use crate::importer::Importer;
use module_info::ModuleInfo;
use source_io::{JsrUrlProvider, Resolver};
use spec_base::Items;
use std::alloc::AllocError;

impl<U: JsrUrlProvider, R: Resolver> Importer<'_, U, R> {
    fn add_comments(
        &self,
        info: &ModuleInfo,
        found: &mut Items<ImportRecord>,
    ) -> Result<(), AllocError>
        ensures { is_told_importer R.is_told self.now ≡ true
            → OnOk result
            (found.new
            ≡ found.old ++ comment_records (importing U.meaning R.meaning self.now)
            info.now) }
    {
        if self.is_wasm() {
            return Ok(());
        }
        if self.with_types {
            self.add_references(info.ts_references.as_slice(), found)?;
        }
        if let Some(one) = self.jsx(info)? {
            found.push(one)?;
        }
        if self.with_types {
            self.add_jsdoc(info.jsdoc_imports.as_slice(), found)?;
        }
        Ok(())
    }

    /// The import records of a module, in order.
    pub fn records(&self, info: &ModuleInfo) -> Result<Items<ImportRecord>, AllocError>
        ensures { is_told_importer R.is_told self.now ≡ true
            → IfOk result (λ f. f ≡ records_of (importing U.meaning R.meaning self.now) info.now) }
    {
        let mut found = Items::new(self.targets.alloc);
        self.add_comments(info, &mut found)?;
        self.add_descriptors(info.dependencies.as_slice(), &mut found)?;
        Ok(found)
    }
}
