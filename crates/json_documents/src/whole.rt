// Whether a text holds whole numbers alone.
ghost use Rattle.std.specs.Prelude.{◌≡◌, is_some, option_and_then};
ghost use Rattle.json.specs.Value.{value_view, items_view, members_view};
ghost use Rattle.serde_json.specs.Find.{as_u64};
ghost use Rattle.serde_json.specs.Read.{number_of};
ghost use Rattle.json_documents.specs.Whole.{was_whole, items_were_whole, members_were_whole};

use crate::numbers::read_number;
use json::Value;

fn is_whole_number(text: &str) -> bool
    ensures { result ≡ is_some (option_and_then as_u64 (number_of text.now)) }
{
    match read_number(text) {
        Some(number) => number.is_u64(),
        None => false,
    }
}

/// Whether each number, at any depth, is a whole one from 0 to 18446744073709551615, also in members in whose place later ones of their
/// names count.
#[cycle(whole)]
pub(crate) fn was_whole(value: &Value<'_>) -> bool
    ensures { result ≡ was_whole (value_view value.now) }
{
    match value {
        Value::Null => true,
        Value::Bool(_) => true,
        Value::Number(text) => is_whole_number(text),
        Value::String(_) => true,
        Value::Array(items) => items_were_whole(items),
        Value::Object(members) => members_were_whole(members),
    }
}

#[cycle(whole)]
fn items_were_whole(items: &Vec<Value<'_>>) -> bool
    ensures { result ≡ items_were_whole (items_view items.now.items) }
{
    for item in items {
        if !was_whole(item) {
            return false;
        }
    }
    true
}

#[cycle(whole)]
fn members_were_whole(members: &Vec<(&str, Value<'_>)>) -> bool
    ensures { result ≡ members_were_whole (members_view members.now.items) }
{
    for member in members {
        if !was_whole(&member.1) {
            return false;
        }
    }
    true
}
