// The JSON of one import.
ghost use Rattle.std.specs.Prelude.{◌≡◌, IfOk};
ghost use Rattle.serde_json.specs.View.{view};
ghost use Rattle.json_forms.specs.Form.{choice};
ghost use Rattle.json_forms.specs.Infos.Descriptor.{static_kinds, dynamic_kinds, descriptor_types, static_descriptor, dynamic_descriptor, descriptor, static_kind_name, static_kind_json, dynamic_kind_name, dynamic_kind_json, static_json, dynamic_json, descriptor_json};

use crate::form::{Form, Misfit};
use crate::infos::argument::argument_json;
use crate::infos::attributes::attributes_json;
use crate::member::{optional, or_default, required};
use crate::names::choose;
use crate::rows::{if_true, object};
use crate::shown::{Shown, optional_json, text_json};
use json_documents::Json;
use module_info::{
    DependencyDescriptor, DynamicArgument, DynamicDependencyDescriptor, DynamicDependencyKind,
    ImportAttributes, StaticDependencyDescriptor, StaticDependencyKind,
};
use serde_json::Value;
use spec_base::Refusal;
use std::alloc::{AllocError, Global};

/// What an import is: the first thing that its JSON tells.
#[derive(Clone, Copy)]
pub enum DescriptorType {
    Static,
    Dynamic,
}

impl Form for StaticDependencyKind {
    ghost form = { choice static_kinds };

    fn read(_alloc: Global, value: &Json<'_, '_>) -> Result<StaticDependencyKind, Refusal<Misfit>> {
        choose(
            value,
            &[
                ("import", StaticDependencyKind::Import),
                ("importDefer", StaticDependencyKind::ImportDefer),
                ("importSource", StaticDependencyKind::ImportSource),
                ("importType", StaticDependencyKind::ImportType),
                ("importEquals", StaticDependencyKind::ImportEquals),
                ("export", StaticDependencyKind::Export),
                ("exportType", StaticDependencyKind::ExportType),
                ("exportEquals", StaticDependencyKind::ExportEquals),
                (
                    "maybeTsModuleAugmentation",
                    StaticDependencyKind::MaybeTsModuleAugmentation,
                ),
            ],
        )
    }
}

impl Form for DynamicDependencyKind {
    ghost form = { choice dynamic_kinds };

    fn read(
        _alloc: Global,
        value: &Json<'_, '_>,
    ) -> Result<DynamicDependencyKind, Refusal<Misfit>> {
        choose(
            value,
            &[
                ("import", DynamicDependencyKind::Import),
                ("importDefer", DynamicDependencyKind::ImportDefer),
                ("importSource", DynamicDependencyKind::ImportSource),
                ("require", DynamicDependencyKind::Require),
            ],
        )
    }
}

impl Form for DescriptorType {
    ghost form = { choice descriptor_types };

    fn read(_alloc: Global, value: &Json<'_, '_>) -> Result<DescriptorType, Refusal<Misfit>> {
        choose(
            value,
            &[
                ("static", DescriptorType::Static),
                ("dynamic", DescriptorType::Dynamic),
            ],
        )
    }
}

impl Form for StaticDependencyDescriptor {
    ghost form = { static_descriptor };

    fn read(
        alloc: Global,
        value: &Json<'_, '_>,
    ) -> Result<StaticDependencyDescriptor, Refusal<Misfit>> {
        let kind = required(alloc, value, "kind")?;
        let types_specifier = optional(alloc, value, "typesSpecifier")?;
        let specifier = required(alloc, value, "specifier")?;
        let specifier_range = required(alloc, value, "specifierRange")?;
        let import_attributes = or_default(
            alloc,
            value,
            "importAttributes",
            ImportAttributes::None,
        )?;
        let is_side_effect = or_default(alloc, value, "sideEffect", false)?;
        Ok(StaticDependencyDescriptor {
            kind,
            types_specifier,
            specifier,
            specifier_range,
            import_attributes,
            is_side_effect,
        })
    }
}

impl Form for DynamicDependencyDescriptor {
    ghost form = { dynamic_descriptor };

    fn read(
        alloc: Global,
        value: &Json<'_, '_>,
    ) -> Result<DynamicDependencyDescriptor, Refusal<Misfit>> {
        let kind = or_default(alloc, value, "kind", DynamicDependencyKind::Import)?;
        let types_specifier = optional(alloc, value, "typesSpecifier")?;
        let argument = or_default(alloc, value, "argument", DynamicArgument::Expr)?;
        let argument_range = required(alloc, value, "argumentRange")?;
        let import_attributes = or_default(
            alloc,
            value,
            "importAttributes",
            ImportAttributes::None,
        )?;
        Ok(DynamicDependencyDescriptor {
            kind,
            types_specifier,
            argument,
            argument_range,
            import_attributes,
        })
    }
}

impl Form for DependencyDescriptor {
    ghost form = { descriptor };

    fn read(alloc: Global, value: &Json<'_, '_>) -> Result<DependencyDescriptor, Refusal<Misfit>> {
        let descriptor_type: DescriptorType = required(alloc, value, "type")?;
        match descriptor_type {
            DescriptorType::Static => Ok(DependencyDescriptor::Static(Form::read(alloc, value)?)),
            DescriptorType::Dynamic => Ok(DependencyDescriptor::Dynamic(Form::read(alloc, value)?)),
        }
    }
}

fn static_kind_name(kind: StaticDependencyKind) -> &'static str
    ensures { result.now ≡ static_kind_name kind }
{
    match kind {
        StaticDependencyKind::Import => "import",
        StaticDependencyKind::ImportDefer => "importDefer",
        StaticDependencyKind::ImportSource => "importSource",
        StaticDependencyKind::ImportType => "importType",
        StaticDependencyKind::ImportEquals => "importEquals",
        StaticDependencyKind::Export => "export",
        StaticDependencyKind::ExportType => "exportType",
        StaticDependencyKind::ExportEquals => "exportEquals",
        StaticDependencyKind::MaybeTsModuleAugmentation => "maybeTsModuleAugmentation",
    }
}

impl Shown for StaticDependencyKind {
    ghost json = { static_kind_json };

    fn to_json(&self, alloc: Global) -> Result<Value, AllocError> {
        text_json(alloc, static_kind_name(*self))
    }
}

fn dynamic_kind_name(kind: DynamicDependencyKind) -> &'static str
    ensures { result.now ≡ dynamic_kind_name kind }
{
    match kind {
        DynamicDependencyKind::Import => "import",
        DynamicDependencyKind::ImportDefer => "importDefer",
        DynamicDependencyKind::ImportSource => "importSource",
        DynamicDependencyKind::Require => "require",
    }
}

impl Shown for DynamicDependencyKind {
    ghost json = { dynamic_kind_json };

    fn to_json(&self, alloc: Global) -> Result<Value, AllocError> {
        text_json(alloc, dynamic_kind_name(*self))
    }
}

impl Shown for StaticDependencyDescriptor {
    ghost json = { static_json };

    fn to_json(&self, alloc: Global) -> Result<Value, AllocError> {
        let mut rows = Vec::new(alloc);
        rows.push((
            "importAttributes",
            attributes_json(alloc, &self.import_attributes)?,
        ))?;
        rows.push(("kind", Some(self.kind.to_json(alloc)?)))?;
        rows.push(("sideEffect", if_true(self.is_side_effect)))?;
        rows.push(("specifier", Some(self.specifier.to_json(alloc)?)))?;
        rows.push(("specifierRange", Some(self.specifier_range.to_json(alloc)?)))?;
        rows.push(("type", Some(text_json(alloc, "static")?)))?;
        rows.push((
            "typesSpecifier",
            optional_json(alloc, &self.types_specifier)?,
        ))?;
        object(alloc, rows)
    }
}

impl Shown for DynamicDependencyDescriptor {
    ghost json = { dynamic_json };

    fn to_json(&self, alloc: Global) -> Result<Value, AllocError> {
        let kind = self.kind.to_json(alloc)?;
        let mut rows = Vec::new(alloc);
        rows.push(("argument", argument_json(alloc, &self.argument)?))?;
        rows.push(("argumentRange", Some(self.argument_range.to_json(alloc)?)))?;
        rows.push((
            "importAttributes",
            attributes_json(alloc, &self.import_attributes)?,
        ))?;
        rows.push(("kind", Some(kind)))?;
        rows.push(("type", Some(text_json(alloc, "dynamic")?)))?;
        rows.push((
            "typesSpecifier",
            optional_json(alloc, &self.types_specifier)?,
        ))?;
        object(alloc, rows)
    }
}

impl Shown for DependencyDescriptor {
    ghost json = { descriptor_json };

    fn to_json(&self, alloc: Global) -> Result<Value, AllocError> {
        match self {
            DependencyDescriptor::Static(descriptor) => descriptor.to_json(alloc),
            DependencyDescriptor::Dynamic(descriptor) => descriptor.to_json(alloc),
        }
    }
}
