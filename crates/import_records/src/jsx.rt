// The import of the JSX syntax, whose elements the imported module makes.
ghost use Rattle.std.specs.Prelude.{◌≡◌, true, IfOk, option_map};
ghost use Rattle.import_records.specs.Importing.{importing, is_told_importer};
ghost use Rattle.import_records.specs.Records.{at_beginning, jsx_source, jsx_types, jsx_module, jsx_types_text, jsx_records};

use crate::import_record::{ImportRecord, TypesText};
use crate::importer::Importer;
use graph_dependencies::ImportKind;
use module_info::{ModuleInfo, SpecifierWithRange};
use source_io::{DEFAULT_JSX_IMPORT_SOURCE_MODULE, JsrUrlProvider, Resolver};
use spec_base::{PositionRange, Text};
use std::alloc::AllocError;

// A text that stands nowhere in the module.
fn start_of(text: Option<Text>) -> Option<SpecifierWithRange>
    ensures { result ≡ option_map at_beginning text }
{
    match text {
        None => None,
        Some(text) => Some(SpecifierWithRange {
            text,
            range: PositionRange::zeroed(),
        }),
    }
}

impl<U: JsrUrlProvider, R: Resolver> Importer<'_, U, R> {
    fn default_jsx_source(&self) -> Result<Option<SpecifierWithRange>, AllocError>
        ensures { is_told_importer R.is_told self.now ≡ true
            → IfOk result
            (λ o. o
            ≡ option_map at_beginning
            ((importing U.meaning R.meaning self.now).resolving.resolver.jsx_source
            self.now.specifier.now)) }
    {
        match self.targets.resolver {
            None => Ok(None),
            Some(resolver) => Ok(start_of(resolver.default_jsx_import_source(
                self.targets.alloc,
                self.specifier,
            )?)),
        }
    }

    fn default_jsx_types(&self) -> Result<Option<SpecifierWithRange>, AllocError>
        ensures { is_told_importer R.is_told self.now ≡ true
            → IfOk result
            (λ o. o
            ≡ option_map at_beginning
            ((importing U.meaning R.meaning self.now).resolving.resolver.jsx_types
            self.now.specifier.now)) }
    {
        match self.targets.resolver {
            None => Ok(None),
            Some(resolver) => Ok(start_of(resolver.default_jsx_import_source_types(
                self.targets.alloc,
                self.specifier,
            )?)),
        }
    }

    fn jsx_source(&self, info: &ModuleInfo) -> Result<Option<SpecifierWithRange>, AllocError>
        ensures { is_told_importer R.is_told self.now ≡ true
            → IfOk result (λ o. o ≡ jsx_source (importing U.meaning R.meaning self.now) info.now) }
    {
        match &info.jsx_import_source {
            Some(source) => Ok(Some(source.clone()?)),
            None => self.default_jsx_source(),
        }
    }

    fn jsx_types(&self, info: &ModuleInfo) -> Result<Option<SpecifierWithRange>, AllocError>
        ensures { is_told_importer R.is_told self.now ≡ true
            → IfOk result (λ o. o ≡ jsx_types (importing U.meaning R.meaning self.now) info.now) }
    {
        if !self.with_types {
            return Ok(None);
        }
        match &info.jsx_import_source_types {
            Some(types) => Ok(Some(types.clone()?)),
            None if info.jsx_import_source.is_some() => Ok(None),
            None => self.default_jsx_types(),
        }
    }

    fn jsx_name(&self) -> &str
        ensures { is_told_importer R.is_told self.now ≡ true
            → result.now
            ≡ (importing U.meaning R.meaning self.now).resolving.resolver.jsx_module
            self.now.specifier.now }
    {
        match self.targets.resolver {
            None => DEFAULT_JSX_IMPORT_SOURCE_MODULE,
            Some(resolver) => resolver.jsx_import_source_module(self.specifier),
        }
    }

    fn jsx_module(&self, source: &SpecifierWithRange) -> Result<SpecifierWithRange, AllocError>
        ensures { is_told_importer R.is_told self.now ≡ true
            → IfOk result
            (λ s. s ≡ jsx_module (importing U.meaning R.meaning self.now) source.now) }
    {
        let name = self.jsx_name();
        let text = format!(in self.targets.alloc; "{}/{}", source.text, name)?;
        Ok(SpecifierWithRange {
            text: text.into(),
            range: source.range,
        })
    }

    fn jsx_types_text(
        &self,
        types: &Option<SpecifierWithRange>,
    ) -> Result<Option<TypesText>, AllocError>
        ensures { is_told_importer R.is_told self.now ≡ true
            → IfOk result
            (λ t. t ≡ jsx_types_text (importing U.meaning R.meaning self.now) types.now) }
    {
        match types {
            None => Ok(None),
            Some(types) => {
                let text = self.jsx_module(types)?.text;
                let range = self.range(types.range, None)?;
                Ok(Some(TypesText { text, range }))
            }
        }
    }

    /// The import of the JSX syntax; None in media without it, and where there is no JSX source.
    pub fn jsx(&self, info: &ModuleInfo) -> Result<Option<ImportRecord>, AllocError>
        ensures { is_told_importer R.is_told self.now ≡ true
            → IfOk result (λ f. f ≡ jsx_records (importing U.meaning R.meaning self.now) info.now) }
    {
        if !self.media.is_jsx() {
            return Ok(None);
        }
        let Some(source) = self.jsx_source(info)? else {
            return Ok(None);
        };
        let source = self.jsx_module(&source)?;
        let types = self.jsx_types(info)?;
        let types_text = self.jsx_types_text(&types)?;
        let found = self.comment(ImportKind::JsxImportSource, &source, None)?;
        let imported = found.into_import();
        Ok(Some(ImportRecord {
            imported,
            types_text,
        }))
    }
}
