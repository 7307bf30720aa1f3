// The JSON of texts of a module that name other ones.
ghost use Rattle.std.specs.Prelude.{◌≡◌, false, IfOk};
ghost use Rattle.serde_json.specs.View.{view};
ghost use Rattle.serde_json.specs.Written.{has_float};
ghost use Rattle.json_forms.specs.Form.{choice};
ghost use Rattle.json_forms.specs.Rows.{object_of};
ghost use Rattle.json_forms.specs.Infos.References.{specifier_with_range, modes, reference_types, reference, jsdoc_import, specifier_json, mode_name, mode_json, path_rows, types_rows, reference_json, jsdoc_json};

use crate::form::{Form, Misfit};
use crate::member::{optional, required};
use crate::names::choose;
use crate::rows::object;
use crate::shown::{Shown, optional_json, text_json};
use json_documents::Json;
use module_info::{
    JsDocImportInfo, SpecifierWithRange, TypeScriptReference, TypeScriptTypesResolutionMode,
};
use serde_json::Value;
use spec_base::Refusal;
use std::alloc::{AllocError, Global};

/// What a reference is to: the first thing that its JSON tells.
#[derive(Clone, Copy)]
pub enum ReferenceType {
    Path,
    Types,
}

impl Form for SpecifierWithRange {
    ghost form = { specifier_with_range };

    fn read(alloc: Global, value: &Json<'_, '_>) -> Result<SpecifierWithRange, Refusal<Misfit>> {
        let text = required(alloc, value, "text")?;
        let range = required(alloc, value, "range")?;
        Ok(SpecifierWithRange { text, range })
    }
}

impl Form for TypeScriptTypesResolutionMode {
    ghost form = { choice modes };

    fn read(
        _alloc: Global,
        value: &Json<'_, '_>,
    ) -> Result<TypeScriptTypesResolutionMode, Refusal<Misfit>> {
        choose(
            value,
            &[
                ("import", TypeScriptTypesResolutionMode::Import),
                ("require", TypeScriptTypesResolutionMode::Require),
            ],
        )
    }
}

impl Form for ReferenceType {
    ghost form = { choice reference_types };

    fn read(_alloc: Global, value: &Json<'_, '_>) -> Result<ReferenceType, Refusal<Misfit>> {
        choose(
            value,
            &[
                ("path", ReferenceType::Path),
                ("types", ReferenceType::Types),
            ],
        )
    }
}

impl Form for TypeScriptReference {
    ghost form = { reference };

    fn read(alloc: Global, value: &Json<'_, '_>) -> Result<TypeScriptReference, Refusal<Misfit>> {
        let reference_type: ReferenceType = required(alloc, value, "type")?;
        let specifier = SpecifierWithRange::read(alloc, value)?;
        match reference_type {
            ReferenceType::Path => Ok(TypeScriptReference::Path(specifier)),
            ReferenceType::Types => Ok(TypeScriptReference::Types {
                specifier,
                resolution_mode: optional(alloc, value, "resolutionMode")?,
            }),
        }
    }
}

impl Form for JsDocImportInfo {
    ghost form = { jsdoc_import };

    fn read(alloc: Global, value: &Json<'_, '_>) -> Result<JsDocImportInfo, Refusal<Misfit>> {
        let specifier = SpecifierWithRange::read(alloc, value)?;
        let resolution_mode = optional(alloc, value, "resolutionMode")?;
        Ok(JsDocImportInfo {
            specifier,
            resolution_mode,
        })
    }
}

fn mode_name(mode: TypeScriptTypesResolutionMode) -> &'static str
    ensures { result.now ≡ mode_name mode }
{
    match mode {
        TypeScriptTypesResolutionMode::Import => "import",
        TypeScriptTypesResolutionMode::Require => "require",
    }
}

impl Shown for TypeScriptTypesResolutionMode {
    ghost json = { mode_json };

    fn to_json(&self, alloc: Global) -> Result<Value, AllocError> {
        text_json(alloc, mode_name(*self))
    }
}

impl Shown for SpecifierWithRange {
    ghost json = { specifier_json };

    fn to_json(&self, alloc: Global) -> Result<Value, AllocError> {
        let rows = vec![in alloc;
            ("range", Some(self.range.to_json(alloc)?)),
            ("text", Some(self.text.to_json(alloc)?)),
        ]?;
        object(alloc, rows)
    }
}

fn path_json(alloc: Global, specifier: &SpecifierWithRange) -> Result<Value, AllocError>
    ensures value { IfOk result (λ v. view v ≡ object_of (path_rows specifier.now)) }
    ensures no_float { IfOk result (λ v. has_float (view v) ≡ false) }
{
    let rows = vec![in alloc;
        ("range", Some(specifier.range.to_json(alloc)?)),
        ("text", Some(specifier.text.to_json(alloc)?)),
        ("type", Some(text_json(alloc, "path")?)),
    ]?;
    object(alloc, rows)
}

fn types_json(
    alloc: Global,
    specifier: &SpecifierWithRange,
    mode: &Option<TypeScriptTypesResolutionMode>,
) -> Result<Value, AllocError>
    ensures value { IfOk result (λ v. view v ≡ object_of (types_rows specifier.now mode.now)) }
    ensures no_float { IfOk result (λ v. has_float (view v) ≡ false) }
{
    let rows = vec![in alloc;
        ("range", Some(specifier.range.to_json(alloc)?)),
        ("resolutionMode", optional_json(alloc, mode)?),
        ("text", Some(specifier.text.to_json(alloc)?)),
        ("type", Some(text_json(alloc, "types")?)),
    ]?;
    object(alloc, rows)
}

impl Shown for TypeScriptReference {
    ghost json = { reference_json };

    fn to_json(&self, alloc: Global) -> Result<Value, AllocError> {
        match self {
            TypeScriptReference::Path(specifier) => path_json(alloc, specifier),
            TypeScriptReference::Types {
                specifier,
                resolution_mode,
            } => types_json(alloc, specifier, resolution_mode),
        }
    }
}

impl Shown for JsDocImportInfo {
    ghost json = { jsdoc_json };

    fn to_json(&self, alloc: Global) -> Result<Value, AllocError> {
        let rows = vec![in alloc;
            ("range", Some(self.specifier.range.to_json(alloc)?)),
            (
                "resolutionMode",
                optional_json(alloc, &self.resolution_mode)?
            ),
            ("text", Some(self.specifier.text.to_json(alloc)?)),
        ]?;
        object(alloc, rows)
    }
}
