// What is written as JSON.
ghost use Rattle.std.specs.Prelude.{◌≡◌, false, IfOk, option_map, string_bytes};
ghost use Rattle.serde_json.specs.Data.{Data, number, unsigned, boolean, string};
ghost use Rattle.serde_json.specs.View.{view};
ghost use Rattle.serde_json.specs.Written.{has_float, compact_text};
ghost use Rattle.url.specs.Parts.{serialize};
ghost use Rattle.json_forms.specs.Rows.{IsFree, list_json, if_any};

use serde_json::Value;
use spec_base::{Items, ModuleSpecifier, Text};
use std::alloc::{AllocError, Global};

/// What has JSON of its own.
pub trait Shown {
    /// The JSON of a value.
    ghost json: { Self → Data };

    /// The JSON, which holds no float, so that its text is settled.
    fn to_json(&self, alloc: Global) -> Result<Value, AllocError>
        ensures value { IfOk result (λ v. view v ≡ json self.now) }
        ensures no_float { IfOk result (λ v. has_float (view v) ≡ false) };
}

impl Shown for u64 {
    ghost json = { λ n. number (unsigned n) };

    fn to_json(&self, _alloc: Global) -> Result<Value, AllocError> {
        Ok(Value::from(*self))
    }
}

impl Shown for usize {
    ghost json = { λ n. number (unsigned n) };

    fn to_json(&self, _alloc: Global) -> Result<Value, AllocError> {
        Ok(Value::from(*self as u64))
    }
}

impl Shown for bool {
    ghost json = { boolean };

    fn to_json(&self, _alloc: Global) -> Result<Value, AllocError> {
        Ok(Value::Bool(*self))
    }
}

impl Shown for Text {
    ghost json = { string };

    fn to_json(&self, alloc: Global) -> Result<Value, AllocError> {
        Value::try_from_str(alloc, self.as_str())
    }
}

impl Shown for ModuleSpecifier {
    ghost json = { λ u. string (serialize u) };

    fn to_json(&self, alloc: Global) -> Result<Value, AllocError> {
        Value::try_from_str(alloc, self.as_str())
    }
}

impl<T: Shown> Shown for Items<T> {
    ghost json = { list_json T.json };

    fn to_json(&self, alloc: Global) -> Result<Value, AllocError> {
        let mut values = Vec::new(alloc);
        for item in self.as_slice() {
            values.push(item.to_json(alloc)?)?;
        }
        Ok(Value::Array(values))
    }
}

/// The JSON of a list that stands where it isn't empty.
pub fn if_any<T: Shown>(alloc: Global, items: &Items<T>) -> Result<Option<Value>, AllocError>
    ensures value { IfOk result (λ v. option_map view v ≡ if_any T.json items.now) }
    ensures no_float { IfOk result (λ v. IsFree (option_map view v)) }
{
    if items.len() == 0 {
        Ok(None)
    } else {
        Ok(Some(items.to_json(alloc)?))
    }
}

/// The JSON of a value that stands where there is one.
pub fn optional_json<T: Shown>(
    alloc: Global,
    value: &Option<T>,
) -> Result<Option<Value>, AllocError>
    ensures value { IfOk result (λ v. option_map view v ≡ option_map T.json value.now) }
    ensures no_float { IfOk result (λ v. IsFree (option_map view v)) }
{
    match value {
        Some(value) => Ok(Some(value.to_json(alloc)?)),
        None => Ok(None),
    }
}

/// A text as JSON.
pub fn text_json(alloc: Global, text: &str) -> Result<Value, AllocError>
    ensures value { IfOk result (λ v. view v ≡ string text.now) }
    ensures no_float { IfOk result (λ v. has_float (view v) ≡ false) }
{
    Value::try_from_str(alloc, text)
}

/// The text of the JSON, without spaces and with the keys of each object sorted (RFC 8259).
pub fn compact<T: Shown>(alloc: Global, shown: &T) -> Result<String, AllocError>
    ensures { IfOk result (λ s. string_bytes s ≡ compact_text (T.json shown.now)) }
{
    let value = shown.to_json(alloc)?;
    value.to_string(alloc)
}
