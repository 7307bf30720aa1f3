// The imports of a module by its declarations and calls.
ghost use Rattle.std.specs.Prelude.{◌≡◌, ◌++◌, IfOk, OnOk, option_copied};
ghost use Rattle.std.specs.List.{filter_map};
ghost use Rattle.import_records.specs.Importing.{importing};
ghost use Rattle.import_records.specs.Records.{static_kind, dynamic_kind, wants_types, mode_named, plain_mode, attribute_mode, static_mode, dynamic_mode, types_text, static_record, dynamic_record, descriptor_record};

use crate::import_record::{ImportRecord, TypesText};
use crate::importer::Importer;
use graph_dependencies::{Import, ImportKind};
use module_info::{
    DependencyDescriptor, DynamicArgument, DynamicDependencyDescriptor, DynamicDependencyKind,
    ImportAttributes, SpecifierWithRange, StaticDependencyDescriptor, StaticDependencyKind,
};
use source_io::{JsrUrlProvider, Resolver};
use spec_base::{Items, ResolutionMode, Text};
use std::alloc::AllocError;

fn kind_of_static(kind: StaticDependencyKind) -> ImportKind
    ensures { result ≡ static_kind kind }
{
    match kind {
        StaticDependencyKind::ImportType | StaticDependencyKind::ExportType => ImportKind::TsType,
        StaticDependencyKind::MaybeTsModuleAugmentation => ImportKind::TsModuleAugmentation,
        StaticDependencyKind::ImportSource => ImportKind::EsSource,
        _ => ImportKind::Es,
    }
}

fn kind_of_dynamic(kind: DynamicDependencyKind) -> ImportKind
    ensures { result ≡ dynamic_kind kind }
{
    match kind {
        DynamicDependencyKind::ImportSource => ImportKind::EsSource,
        DynamicDependencyKind::Require => ImportKind::Require,
        _ => ImportKind::Es,
    }
}

fn is_for_types(kind: ImportKind) -> bool
    ensures { result ≡ wants_types kind }
{
    matches!(kind, ImportKind::TsType | ImportKind::TsModuleAugmentation)
}

fn named_mode(text: Option<&str>) -> Option<ResolutionMode>
    ensures { result ≡ mode_named (option_copied text.entry) }
{
    let text = text?;
    if text == "import" {
        Some(ResolutionMode::Import)
    } else if text == "require" {
        Some(ResolutionMode::Require)
    } else {
        None
    }
}

impl<U: JsrUrlProvider, R: Resolver> Importer<'_, U, R> {
    fn plain_mode(&self) -> Option<ResolutionMode>
        ensures { result ≡ plain_mode (importing U.meaning R.meaning self.now) }
    {
        if self.media.is_declaration() {
            None
        } else {
            Some(ResolutionMode::Import)
        }
    }

    fn attribute_mode(&self, is_type: bool, attributes: &ImportAttributes) -> Option<ResolutionMode>
        ensures { result
            ≡ attribute_mode (importing U.meaning R.meaning self.now) is_type attributes.now }
    {
        if is_type || self.media.is_declaration() {
            if let Some(mode) = named_mode(attributes.get("resolution-mode")) {
                return Some(mode);
            }
        }
        self.plain_mode()
    }

    fn static_mode(
        &self,
        kind: StaticDependencyKind,
        attributes: &ImportAttributes,
    ) -> Option<ResolutionMode>
        ensures { result
            ≡ static_mode (importing U.meaning R.meaning self.now) kind attributes.now }
    {
        match kind {
            StaticDependencyKind::MaybeTsModuleAugmentation => Some(ResolutionMode::Import),
            StaticDependencyKind::ImportEquals | StaticDependencyKind::ExportEquals => {
                Some(ResolutionMode::Require)
            }
            StaticDependencyKind::ImportType | StaticDependencyKind::ExportType => {
                self.attribute_mode(true, attributes)
            }
            _ => self.attribute_mode(false, attributes),
        }
    }

    fn dynamic_mode(&self, kind: DynamicDependencyKind) -> Option<ResolutionMode>
        ensures { result ≡ dynamic_mode (importing U.meaning R.meaning self.now) kind }
    {
        match kind {
            DynamicDependencyKind::Require => Some(ResolutionMode::Require),
            _ => self.plain_mode(),
        }
    }

    fn types_text(
        &self,
        types: &Option<SpecifierWithRange>,
        mode: Option<ResolutionMode>,
    ) -> Result<Option<TypesText>, AllocError>
        ensures { IfOk result
            (λ t. t ≡ types_text (importing U.meaning R.meaning self.now) types.now mode) }
    {
        match types {
            Some(types) if self.with_types => {
                let range = self.range(types.range, mode)?;
                let text = types.text.try_clone()?;
                Ok(Some(TypesText { text, range }))
            }
            _ => Ok(None),
        }
    }

    fn static_found(
        &self,
        descriptor: &StaticDependencyDescriptor,
        kind: ImportKind,
        mode: Option<ResolutionMode>,
    ) -> Result<ImportRecord, AllocError>
        ensures { IfOk result
            (λ f. f
            ≡ static_record (importing U.meaning R.meaning self.now) descriptor.now kind mode) }
    {
        let specifier = descriptor.specifier.try_clone()?;
        let specifier_range = self.range(descriptor.specifier_range, mode)?;
        let attributes = descriptor.import_attributes.try_clone()?;
        let types_text = self.types_text(&descriptor.types_specifier, mode)?;
        Ok(ImportRecord {
            imported: Import {
                specifier,
                kind,
                specifier_range,
                is_dynamic: false,
                is_side_effect: descriptor.is_side_effect,
                attributes,
            },
            types_text,
        })
    }

    fn dynamic_found(
        &self,
        descriptor: &DynamicDependencyDescriptor,
        text: &Text,
        mode: Option<ResolutionMode>,
    ) -> Result<ImportRecord, AllocError>
        ensures { IfOk result
            (λ f. f
            ≡ dynamic_record (importing U.meaning R.meaning self.now) descriptor.now text.now
            mode) }
    {
        let specifier = text.try_clone()?;
        let specifier_range = self.range(descriptor.argument_range, mode)?;
        let attributes = descriptor.import_attributes.try_clone()?;
        let types_text = self.types_text(&descriptor.types_specifier, mode)?;
        Ok(ImportRecord {
            imported: Import {
                specifier,
                kind: kind_of_dynamic(descriptor.kind),
                specifier_range,
                is_dynamic: true,
                is_side_effect: false,
                attributes,
            },
            types_text,
        })
    }

    fn descriptor(
        &self,
        descriptor: &DependencyDescriptor,
    ) -> Result<Option<ImportRecord>, AllocError>
        ensures { IfOk result
            (λ f. f ≡ descriptor_record (importing U.meaning R.meaning self.now) descriptor.now) }
    {
        match descriptor {
            DependencyDescriptor::Static(descriptor) => {
                let kind = kind_of_static(descriptor.kind);
                if is_for_types(kind) && !self.with_types {
                    return Ok(None);
                }
                let mode = self.static_mode(descriptor.kind, &descriptor.import_attributes);
                Ok(Some(self.static_found(descriptor, kind, mode)?))
            }
            DependencyDescriptor::Dynamic(descriptor) => match &descriptor.argument {
                DynamicArgument::String(text) => {
                    let mode = self.dynamic_mode(descriptor.kind);
                    Ok(Some(self.dynamic_found(descriptor, text, mode)?))
                }
                _ => Ok(None),
            },
        }
    }

    /// Adds the imports of declarations and calls.
    pub fn add_descriptors(
        &self,
        descriptors: &[DependencyDescriptor],
        found: &mut Items<ImportRecord>,
    ) -> Result<(), AllocError>
        ensures { OnOk result (found.new
            ≡ found.old ++ filter_map (descriptor_record (importing U.meaning R.meaning self.now))
            descriptors.now) }
    {
        for descriptor in descriptors {
            if let Some(one) = self.descriptor(descriptor)? {
                found.push(one)?;
            }
        }
        Ok(())
    }
}
