// The JSON of what a dynamic import is called with.
ghost use Rattle.std.specs.Prelude.{◌≡◌, false, IfOk, option_map};
ghost use Rattle.serde_json.specs.View.{view};
ghost use Rattle.serde_json.specs.Written.{has_float};
ghost use Rattle.spec_base.specs.Refusal.{Reads};
ghost use Rattle.json_forms.specs.Form.{choice};
ghost use Rattle.json_forms.specs.Rows.{object_of, IsFree};
ghost use Rattle.json_forms.specs.Infos.Argument.{part_types, part, argument, text_part_rows, expr_part_rows, part_json, argument_json};

use crate::form::{Form, Misfit};
use crate::member::required;
use crate::names::choose;
use crate::rows::object;
use crate::shown::{Shown, text_json};
use json_documents::Json;
use module_info::{DynamicArgument, DynamicTemplatePart};
use serde_json::Value;
use spec_base::{Refusal, Text};
use std::alloc::{AllocError, Global};

/// What a part of a template is: the first thing that its JSON tells.
#[derive(Clone, Copy)]
pub enum PartType {
    String,
    Expr,
}

impl Form for PartType {
    ghost form = { choice part_types };

    fn read(_alloc: Global, value: &Json<'_, '_>) -> Result<PartType, Refusal<Misfit>> {
        choose(
            value,
            &[("string", PartType::String), ("expr", PartType::Expr)],
        )
    }
}

impl Form for DynamicTemplatePart {
    ghost form = { part };

    fn read(alloc: Global, value: &Json<'_, '_>) -> Result<DynamicTemplatePart, Refusal<Misfit>> {
        let part_type: PartType = required(alloc, value, "type")?;
        match part_type {
            PartType::String => Ok(DynamicTemplatePart::String(required(alloc, value, "value")?)),
            PartType::Expr => Ok(DynamicTemplatePart::Expr),
        }
    }
}

impl Form for DynamicArgument {
    ghost form = { argument };

    fn read(alloc: Global, value: &Json<'_, '_>) -> Result<DynamicArgument, Refusal<Misfit>> {
        match value.as_str() {
            Some(_) => Ok(DynamicArgument::String(Text::read(alloc, value)?)),
            None => Ok(DynamicArgument::Template(Form::read(alloc, value)?)),
        }
    }
}

fn text_part(alloc: Global, text: &Text) -> Result<Value, AllocError>
    ensures value { IfOk result (λ v. view v ≡ object_of (text_part_rows text.now)) }
    ensures no_float { IfOk result (λ v. has_float (view v) ≡ false) }
{
    let rows = vec![in alloc;
        ("type", Some(text_json(alloc, "string")?)),
        ("value", Some(text.to_json(alloc)?)),
    ]?;
    object(alloc, rows)
}

fn expr_part(alloc: Global) -> Result<Value, AllocError>
    ensures value { IfOk result (λ v. view v ≡ object_of expr_part_rows) }
    ensures no_float { IfOk result (λ v. has_float (view v) ≡ false) }
{
    let rows = vec![in alloc; ("type", Some(text_json(alloc, "expr")?))]?;
    object(alloc, rows)
}

impl Shown for DynamicTemplatePart {
    ghost json = { part_json };

    fn to_json(&self, alloc: Global) -> Result<Value, AllocError> {
        match self {
            DynamicTemplatePart::String(text) => text_part(alloc, text),
            DynamicTemplatePart::Expr => expr_part(alloc),
        }
    }
}

// The JSON of an argument, which stands where something of it is known.
pub fn argument_json(alloc: Global, argument: &DynamicArgument) -> Result<Option<Value>, AllocError>
    ensures value { IfOk result (λ v. option_map view v ≡ argument_json argument.now) }
    ensures no_float { IfOk result (λ v. IsFree (option_map view v)) }
{
    match argument {
        DynamicArgument::Expr => Ok(None),
        DynamicArgument::String(text) => Ok(Some(text.to_json(alloc)?)),
        DynamicArgument::Template(parts) => Ok(Some(parts.to_json(alloc)?)),
    }
}
