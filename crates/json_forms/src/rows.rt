// JSON objects as tables of their members.
ghost use Rattle.std.specs.Prelude.{◌≡◌, false, IfOk, OnErr, OnOk, map, option_map};
ghost use Rattle.serde_json.specs.View.{view, members_view};
ghost use Rattle.serde_json.specs.Written.{has_float};
ghost use Rattle.json_forms.specs.Rows.{put_optional, object_of, if_true, IsFree, AllFree};

use serde_json::{Map, Value, put};
use std::alloc::{AllocError, Global};

/// Puts a member that stands where there is a value for it. The only refusal is want of memory, after which the
/// members are unchanged.
pub fn put_optional(
    members: &mut Map<String, Value>,
    alloc: Global,
    name: &str,
    value: Option<Value>,
) -> Result<(), AllocError>
    ensures put { OnOk result (members_view members.new.entries
        ≡ put_optional name.now (option_map view value) (members_view members.old.entries)) }
    ensures refused { OnErr result (members.new.entries ≡ members.old.entries) }
{
    match value {
        Some(value) => put(members, alloc, name, value),
        None => Ok(()),
    }
}

/// The object that has those members of the table that stand. It holds no float where none of them does.
pub fn object(alloc: Global, rows: Vec<(&str, Option<Value>)>) -> Result<Value, AllocError>
    ensures value { IfOk result
        (λ v. view v ≡ object_of (map (λ r. (r.0.now, option_map view r.1)) rows.entry.items)) }
    ensures no_float { IfOk result
        (λ v. AllFree (map (λ r. (r.0.now, option_map view r.1)) rows.entry.items)
        → has_float (view v) ≡ false) }
{
    put_rows(alloc, rows)
}

fn put_rows(alloc: Global, rows: Vec<(&str, Option<Value>)>) -> Result<Value, AllocError>
    ensures { IfOk result
        (λ v. view v ≡ object_of (map (λ r. (r.0.now, option_map view r.1)) rows.entry.items)) }
{
    let mut members = Map::new(alloc);
    for (name, value) in rows {
        put_optional(&mut members, alloc, name, value)?;
    }
    Ok(Value::Object(members))
}

/// The value of a member that stands where it is true.
pub fn if_true(flag: bool) -> Option<Value>
    ensures value { option_map view result ≡ if_true flag }
    ensures no_float { IsFree (option_map view result) }
{
    if flag { Some(Value::Bool(true)) } else { None }
}
