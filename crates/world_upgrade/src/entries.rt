// All answers of a world file as the entries of version 2.
ghost use Rattle.std.specs.Prelude.{◌≡◌, All, IfOk, OnOk};
ghost use Rattle.json_forms.specs.Rows.{list_json};
ghost use Rattle.serde_json.specs.View.{view};
ghost use Rattle.world_upgrade.specs.EntryJson.{entry_json};
ghost use Rattle.world_upgrade.specs.Told.{IsTold, IsEntryAgain};

use crate::entry_json::entry_json;
use serde_json::Value;
use source_io::{Answer, Purpose};
use spec_base::{Items, ModuleSpecifier};
use std::alloc::{AllocError, Global};

/// The entries of answers that a world file tells. The only refusal is want of memory.
pub fn entries_json(
    alloc: Global,
    answers: &Items<(ModuleSpecifier, Purpose, Answer)>,
) -> Result<Value, AllocError>
    requires { All IsTold answers.now }
    ensures value { IfOk result (λ v. view v ≡ list_json entry_json answers.now) }
    ensures again { OnOk result (All IsEntryAgain answers.now) }
{
    let mut values = Vec::new(alloc);
    for entry in answers.as_slice() {
        values.push(entry_json(alloc, entry)?)?;
    }
    Ok(Value::Array(values))
}
