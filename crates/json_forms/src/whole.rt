// Whether a JSON value holds whole numbers alone.
ghost use Rattle.std.specs.Prelude.{◌≡◌};
ghost use Rattle.serde_json.specs.View.{view, items_view, members_view};
ghost use Rattle.json_forms.specs.Whole.{is_whole, items_whole, members_whole};

use serde_json::{Map, Value};

/// Whether each number in the value, at any depth, is written as a whole one from 0 to
/// 18446744073709551615; `1.0` and `-0` are not.
#[cycle(whole)]
pub fn is_whole(value: &Value) -> bool
    ensures { result ≡ is_whole (view value.now) }
{
    match value {
        Value::Null => true,
        Value::Bool(_) => true,
        Value::Number(number) => number.is_u64(),
        Value::String(_) => true,
        Value::Array(items) => items_whole(items),
        Value::Object(members) => members_whole(members),
    }
}

#[cycle(whole)]
fn items_whole(items: &Vec<Value>) -> bool
    ensures { result ≡ items_whole (items_view items.now.items) }
{
    for item in items {
        if !is_whole(item) {
            return false;
        }
    }
    true
}

#[cycle(whole)]
fn members_whole(members: &Map<String, Value>) -> bool
    ensures { result ≡ members_whole (members_view members.now.entries) }
{
    for (_key, member) in members.iter() {
        if !is_whole(member) {
            return false;
        }
    }
    true
}
