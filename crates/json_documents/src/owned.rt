// Copies that own their texts.
ghost use Rattle.std.specs.Prelude.{◌≡◌, IfOk};
ghost use Rattle.json.specs.Value.{value_view, items_view, members_view};
ghost use Rattle.serde_json.specs.Data.{no_members};
ghost use Rattle.serde_json.specs.View as serde;
ghost use Rattle.json_documents.specs.Documents.{data_of, items_of, members_of, view};

use crate::numbers::read_number;
use crate::value::Json;
use serde_json::{Map, Value, put};
use std::alloc::{AllocError, Global};

impl Json<'_, '_> {
    /// A copy that owns its texts. The only refusal is want of memory.
    pub fn to_value(&self, alloc: Global) -> Result<Value, AllocError>
        ensures { IfOk result (λ v. serde.view v ≡ view self.now) }
    {
        match *self {
            Json::Read(value) => owned(alloc, value),
            Json::Owned(value) => value.clone(),
        }
    }
}

#[cycle(owned)]
fn owned(alloc: Global, value: &json::Value<'_>) -> Result<Value, AllocError>
    ensures { IfOk result (λ v. serde.view v ≡ data_of (value_view value.now)) }
{
    match value {
        json::Value::Null => Ok(Value::Null),
        json::Value::Bool(flag) => Ok(Value::Bool(*flag)),
        json::Value::Number(text) => match read_number(text) {
            Some(number) => Ok(Value::Number(number)),
            None => Ok(Value::Null),
        },
        json::Value::String(text) => Value::try_from_str(alloc, text),
        json::Value::Array(items) => Ok(Value::Array(owned_items(alloc, items)?)),
        json::Value::Object(members) => Ok(Value::Object(owned_members(alloc, members)?)),
    }
}

#[cycle(owned)]
fn owned_items(alloc: Global, items: &Vec<json::Value<'_>>) -> Result<Vec<Value>, AllocError>
    ensures { IfOk result
        (λ vs. serde.items_view vs.items ≡ items_of (items_view items.now.items)) }
{
    let mut found = Vec::with_capacity(alloc, items.len())?;
    for item in items {
        found.push(owned(alloc, item)?)?;
    }
    Ok(found)
}

#[cycle(owned)]
fn owned_members(
    alloc: Global,
    members: &Vec<(&str, json::Value<'_>)>,
) -> Result<Map<String, Value>, AllocError>
    ensures { IfOk result
        (λ found. serde.members_view found.entries
        ≡ members_of (members_view members.now.items) no_members) }
{
    let mut found = Map::new(alloc);
    for member in members {
        put(&mut found, alloc, member.0, owned(alloc, &member.1)?)?;
    }
    Ok(found)
}
