// World files in version 2.
ghost use Rattle.std.specs.Prelude.{◌≡◌, ◌≤◌, [], ◌∷◌, ◌++◌, map, true, Some, All, option_and_then, option_map, string_bytes, IfOk, OnOk};
ghost use Rattle.json_forms.specs.Rows.{members_from};
ghost use Rattle.json_forms.specs.Whole.{is_whole};
ghost use Rattle.serde_json.specs.Data.{depth};
ghost use Rattle.serde_json.specs.Read.{read, max_depth};
ghost use Rattle.serde_json.specs.View.{view, members_view};
ghost use Rattle.serde_json.specs.Written.{compact_text};
ghost use Rattle.world_file.specs.WorldFile.{whole_input, world_of};
ghost use Rattle.world_upgrade.specs.Told.{IsTold, IsEntryAgain};
ghost use Rattle.world_upgrade.specs.Upgraded.{kept_rows, upgraded_json, upgraded_value, upgraded, Writes};

use crate::entries::entries_json;
use json_forms::put_optional;
use serde_json::{Map, Value, put};
use source_io::{Answer, Purpose};
use spec_base::{Items, ModuleSpecifier, Refusal};
use std::alloc::{AllocError, Global};
use world_file::{NotAWorld, input_of};

// A copy of a value that stands.
fn copied(value: Option<&Value>) -> Result<Option<Value>, AllocError>
    ensures { IfOk result
        (λ copy. option_map view copy ≡ option_map (λ v. view v.now) value.entry) }
{
    match value {
        Some(value) => Ok(Some(value.clone()?)),
        None => Ok(None),
    }
}

// Puts members of an object as they stand.
fn put_kept(
    members: &mut Map<String, Value>,
    alloc: Global,
    value: &Value,
    names: &[&str],
) -> Result<(), AllocError>
    ensures { OnOk result
        (members_view members.new.entries
        ≡ members_from (members_view members.old.entries)
        (kept_rows (map (λ s. s.now) names.now) (view value.now))) }
{
    for name in names {
        put_optional(members, alloc, *name, copied(value.get(*name))?)?;
    }
    Ok(())
}

// The same object in version 2, with these answers as entries.
fn upgraded_json(
    alloc: Global,
    value: &Value,
    answers: &Items<(ModuleSpecifier, Purpose, Answer)>,
) -> Result<Value, AllocError>
    requires { All IsTold answers.now }
    ensures value { IfOk result (λ v. view v ≡ upgraded_json (view value.now) answers.now) }
    ensures again { OnOk result (All IsEntryAgain answers.now) }
{
    let mut members = Map::new(alloc);
    put(&mut members, alloc, "version", Value::from(2u64))?;
    put(
        &mut members,
        alloc,
        "answers",
        entries_json(alloc, answers)?,
    )?;
    put_kept(
        &mut members,
        alloc,
        value,
        &[
            "roots",
            "infos",
            "max_redirects",
            "max_loads",
            "arrival",
            "fail_next",
            "kind",
            "imports",
            "resolutions",
            "types",
            "jsx",
            "verify",
            "locker",
            "is_dynamic",
            "skip_dynamic_deps",
            "bytes",
            "css",
            "config",
            "prefer_cached_jsr",
            "registry",
            "passthrough_jsr",
            "newest",
            "tree",
            "npm",
            "cache_info",
        ],
    )?;
    Ok(Value::Object(members))
}

// The text of a JSON value of whole numbers, without spaces, and a line break; it is read as the value.
fn line_of(alloc: Global, value: &Value) -> Result<String, AllocError>
    requires whole { is_whole (view value.now) ≡ true }
    requires nests { depth (view value.now) ≤ max_depth }
    ensures text { IfOk result (λ s. string_bytes s ≡ compact_text (view value.now) ++ 10 ∷ []) }
    ensures reads { IfOk result (λ s. read (string_bytes s) ≡ Some (view value.now)) }
{
    let mut text = value.to_string(alloc)?;
    text.push('\n')?;
    Ok(text)
}

fn upgraded_value(alloc: Global, value: &Value) -> Result<String, Refusal<NotAWorld>>
    requires { depth (view value.now) ≤ max_depth }
    ensures text { Writes result (upgraded_value (view value.now)) }
    ensures same { IfOk result
        (λ s. option_and_then whole_input (read (string_bytes s)) ≡ whole_input (view value.now)) }
    ensures settled { IfOk result
        (λ s. option_and_then upgraded_value (read (string_bytes s)) ≡ Some (string_bytes s)) }
{
    let input = match input_of(alloc, value) {
        Ok(input) => input,
        Err(Refusal::Memory) => return Err(Refusal::Memory),
        Err(Refusal::Is(_)) => return Err(Refusal::Is(NotAWorld)),
    };
    let upgraded = upgraded_json(alloc, value, &input.world.answers)?;
    drop(input);
    Ok(line_of(alloc, &upgraded)?)
}

/// The text of a world file in version 2: the same object with `version` 2, with its answers as entries of `answers`, in the order
/// of their specifiers' texts and then of purposes (modules in base64 and with their names, headers as pairs, what `data:` URLs
/// hold as modules or errors), and with every other member as it stands; without spaces, and with a line break. `Is` comes exactly
/// where the bytes are no world file. The text is a world file that means the same, and its text in version 2 is itself.
pub fn upgraded(alloc: Global, bytes: &[u8]) -> Result<String, Refusal<NotAWorld>>
    ensures text { Writes result (upgraded bytes.now) }
    ensures same_world { IfOk result (λ s. world_of (string_bytes s) ≡ world_of bytes.now) }
    ensures settled { IfOk result (λ s. upgraded (string_bytes s) ≡ Some (string_bytes s)) }
{
    match Value::from_slice(alloc, bytes) {
        Ok(value) => upgraded_value(alloc, &value),
        Err(error) => if error.is_memory() {
            Err(Refusal::Memory)
        } else {
            Err(Refusal::Is(NotAWorld))
        },
    }
}
