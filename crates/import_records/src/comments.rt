// The imports of a module by its comments: references of TypeScript and types of JSDoc.
ghost use Rattle.std.specs.Prelude.{◌≡◌, ◌++◌, IfOk, OnOk, option_map};
ghost use Rattle.std.specs.List.{filter_map};
ghost use Rattle.import_records.specs.Importing.{importing};
ghost use Rattle.import_records.specs.Records.{mode_of, comment_record, reference_record, jsdoc_record};

use crate::import_record::ImportRecord;
use crate::importer::Importer;
use graph_dependencies::{Import, ImportKind};
use module_info::{
    ImportAttributes, JsDocImportInfo, SpecifierWithRange, TypeScriptReference,
    TypeScriptTypesResolutionMode,
};
use source_io::{JsrUrlProvider, Resolver};
use spec_base::{Items, ResolutionMode};
use std::alloc::AllocError;

/// The mode that an info tells.
pub fn mode_of(mode: Option<TypeScriptTypesResolutionMode>) -> Option<ResolutionMode>
    ensures { result ≡ option_map mode_of mode }
{
    match mode {
        None => None,
        Some(TypeScriptTypesResolutionMode::Import) => Some(ResolutionMode::Import),
        Some(TypeScriptTypesResolutionMode::Require) => Some(ResolutionMode::Require),
    }
}

impl<U: JsrUrlProvider, R: Resolver> Importer<'_, U, R> {
    /// An import of this kind by a comment, or by the JSX syntax.
    pub fn comment(
        &self,
        kind: ImportKind,
        specifier: &SpecifierWithRange,
        mode: Option<ResolutionMode>,
    ) -> Result<ImportRecord, AllocError>
        ensures { IfOk result
            (λ f. f
            ≡ comment_record (importing U.meaning R.meaning self.now) kind specifier.now mode) }
    {
        let specifier_range = self.range(specifier.range, mode)?;
        let specifier = specifier.text.try_clone()?;
        Ok(ImportRecord {
            imported: Import {
                specifier,
                kind,
                specifier_range,
                is_dynamic: false,
                is_side_effect: false,
                attributes: ImportAttributes::None,
            },
            types_text: None,
        })
    }

    fn reference(&self, reference: &TypeScriptReference) -> Result<Option<ImportRecord>, AllocError>
        ensures { IfOk result
            (λ f. f ≡ reference_record (importing U.meaning R.meaning self.now) reference.now) }
    {
        match reference {
            TypeScriptReference::Path(specifier) => {
                Ok(Some(self.comment(ImportKind::TsReferencePath, specifier, None)?))
            }
            TypeScriptReference::Types {
                specifier,
                resolution_mode,
            } => {
                if !self.media.is_typed() {
                    return Ok(None);
                }
                let found = self.comment(
                    ImportKind::TsReferenceTypes,
                    specifier,
                    mode_of(*resolution_mode),
                )?;
                Ok(Some(found))
            }
        }
    }

    fn jsdoc(&self, jsdoc: &JsDocImportInfo) -> Result<Option<ImportRecord>, AllocError>
        ensures { IfOk result
            (λ f. f ≡ jsdoc_record (importing U.meaning R.meaning self.now) jsdoc.now) }
    {
        let mode = mode_of(jsdoc.resolution_mode);
        let found = self.comment(ImportKind::JsDoc, &jsdoc.specifier, mode)?;
        Ok(Some(found))
    }

    /// Adds the imports of references.
    pub fn add_references(
        &self,
        references: &[TypeScriptReference],
        found: &mut Items<ImportRecord>,
    ) -> Result<(), AllocError>
        ensures { OnOk result
            (found.new
            ≡ found.old ++ filter_map
            (reference_record (importing U.meaning R.meaning self.now)) references.now) }
    {
        for reference in references {
            if let Some(one) = self.reference(reference)? {
                found.push(one)?;
            }
        }
        Ok(())
    }

    /// Adds the imports of JSDoc.
    pub fn add_jsdoc(
        &self,
        imports: &[JsDocImportInfo],
        found: &mut Items<ImportRecord>,
    ) -> Result<(), AllocError>
        ensures { OnOk result
            (found.new
            ≡ found.old ++ filter_map (jsdoc_record (importing U.meaning R.meaning self.now))
            imports.now) }
    {
        for jsdoc in imports {
            if let Some(one) = self.jsdoc(jsdoc)? {
                found.push(one)?;
            }
        }
        Ok(())
    }
}
