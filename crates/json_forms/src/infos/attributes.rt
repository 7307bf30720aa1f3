// The JSON of the attributes of an import.
ghost use Rattle.std.specs.Prelude.{◌≡◌, false, IfOk, option_map};
ghost use Rattle.serde_json.specs.View.{view};
ghost use Rattle.json_documents.specs.Documents as documents;
ghost use Rattle.serde_json.specs.Written.{has_float};
ghost use Rattle.spec_base.specs.Refusal.{Reads};
ghost use Rattle.json_forms.specs.Rows.{object_of, IsFree};
ghost use Rattle.json_forms.specs.Infos.Attributes.{known, attribute, attributes, known_rows, attribute_json, attributes_json};

use crate::form::{Form, Misfit};
use crate::member::{has_names, required};
use crate::rows::object;
use crate::shown::{Shown, text_json};
use json_documents::Json;
use module_info::{ImportAttribute, ImportAttributes};
use serde_json::Value;
use spec_base::Refusal;
use std::alloc::{AllocError, Global};

// The member `known` of an object that has no other one.
fn read_known<T: Form>(alloc: Global, value: &Json<'_, '_>) -> Result<T, Refusal<Misfit>>
    ensures { Reads result (known T.form (documents.view value.now)) }
{
    if !has_names(value, &["known"]) {
        return Err(Refusal::Is(Misfit));
    }
    required(alloc, value, "known")
}

impl Form for ImportAttribute {
    ghost form = { attribute };

    fn read(alloc: Global, value: &Json<'_, '_>) -> Result<ImportAttribute, Refusal<Misfit>> {
        match value.as_str() {
            Some("unknown") => Ok(ImportAttribute::Unknown),
            _ => Ok(ImportAttribute::Known(read_known(alloc, value)?)),
        }
    }
}

impl Form for ImportAttributes {
    ghost form = { attributes };

    fn read(alloc: Global, value: &Json<'_, '_>) -> Result<ImportAttributes, Refusal<Misfit>> {
        match value.as_str() {
            Some("unknown") => Ok(ImportAttributes::Unknown),
            _ => Ok(ImportAttributes::Known(read_known(alloc, value)?)),
        }
    }
}

// An object whose one member is `known`.
fn known_json<T: Shown>(alloc: Global, value: &T) -> Result<Value, AllocError>
    ensures value { IfOk result (λ v. view v ≡ object_of (known_rows (T.json value.now))) }
    ensures no_float { IfOk result (λ v. has_float (view v) ≡ false) }
{
    let rows = vec![in alloc; ("known", Some(value.to_json(alloc)?))]?;
    object(alloc, rows)
}

impl Shown for ImportAttribute {
    ghost json = { attribute_json };

    fn to_json(&self, alloc: Global) -> Result<Value, AllocError> {
        match self {
            ImportAttribute::Unknown => text_json(alloc, "unknown"),
            ImportAttribute::Known(text) => known_json(alloc, text),
        }
    }
}

/// The JSON of attributes, which stands where they are written.
pub fn attributes_json(
    alloc: Global,
    attributes: &ImportAttributes,
) -> Result<Option<Value>, AllocError>
    ensures value { IfOk result (λ v. option_map view v ≡ attributes_json attributes.now) }
    ensures no_float { IfOk result (λ v. IsFree (option_map view v)) }
{
    match attributes {
        ImportAttributes::None => Ok(None),
        ImportAttributes::Unknown => Ok(Some(text_json(alloc, "unknown")?)),
        ImportAttributes::Known(entries) => Ok(Some(known_json(alloc, entries)?)),
    }
}
