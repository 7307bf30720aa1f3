// Texts that are read, and the values that they are.
ghost use Rattle.std.specs.Prelude.{◌≡◌};
ghost use Rattle.json.specs.Value.{value_view, items_view, members_view};
ghost use Rattle.serde_json.specs.Read.{read as read_text};
ghost use Rattle.json_documents.specs.Documents.{IsParsed, ReadsDocument, ReadsWhole, document_view, view, is_data, items_are_data, members_are_data};

use crate::numbers::read_number;
use crate::value::Json;
use crate::whole::was_whole;
pub use json::Scratch;
use json::{Error, Reader, Value};
use spec_base::Refusal;
use std::alloc::Global;

/// The text is no JSON.
#[derive(Clone, Copy, PartialEq, Eq, Debug)]
pub struct NoJson;

/// The JSON value that a text is.
#[derive(Drop)]
pub struct Document<'a> {
    value: Value<'a>,
}

// How deep arrays and objects may nest.
const MAX_DEPTH: usize = 127;

// The value of a whole text, whatever numbers it holds.
fn parsed<'a>(
    alloc: Global,
    text: &'a str,
    scratch: &'a mut Scratch,
) -> Result<Value<'a>, Refusal<NoJson>>
    ensures { IsParsed result text.now }
{
    let Ok(mut reader) = Reader::new(text, scratch) else {
        return Err(Refusal::Memory);
    };
    let value = match Value::read(alloc, &mut reader, MAX_DEPTH) {
        Ok(value) => value,
        Err(Error::OutOfMemory) => return Err(Refusal::Memory),
        Err(_) => return Err(Refusal::Is(NoJson)),
    };
    if reader.next().is_some() {
        return Err(Refusal::Is(NoJson));
    }
    Ok(value)
}

impl<'a> Document<'a> {
    /// Reads a text. `NoJson` comes exactly where it is no JSON, where a number in it is too large for a float, and where its arrays and
    /// objects nest deeper than 127.
    pub fn read(
        alloc: Global,
        text: &'a str,
        scratch: &'a mut Scratch,
    ) -> Result<Document<'a>, Refusal<NoJson>>
        ensures { ReadsDocument result (read_text text.now) }
    {
        let value = parsed(alloc, text, scratch)?;
        if is_data(&value) {
            Ok(Document { value })
        } else {
            Err(Refusal::Is(NoJson))
        }
    }

    /// Reads a text whose numbers are whole ones from 0 to 18446744073709551615. `NoJson` comes only where it is no JSON, and nothing is
    /// given exactly where a number isn't such a one, also in a member in whose place a later one of its name counts.
    pub fn read_whole(
        alloc: Global,
        text: &'a str,
        scratch: &'a mut Scratch,
    ) -> Result<Option<Document<'a>>, Refusal<NoJson>>
        ensures { ReadsWhole result text.now }
    {
        let value = parsed(alloc, text, scratch)?;
        if was_whole(&value) {
            Ok(Some(Document { value }))
        } else {
            Ok(None)
        }
    }

    /// The value itself.
    pub fn root(&self) -> Json<'_, 'a>
        ensures { view result ≡ document_view self.now }
    {
        Json::Read(&self.value)
    }
}

// Whether each number, at any depth, is in range.
#[cycle(numbers)]
fn is_data(value: &Value<'_>) -> bool
    ensures { result ≡ is_data (value_view value.now) }
{
    match value {
        Value::Null => true,
        Value::Bool(_) => true,
        Value::Number(text) => read_number(text).is_some(),
        Value::String(_) => true,
        Value::Array(items) => items_are_data(items),
        Value::Object(members) => members_are_data(members),
    }
}

#[cycle(numbers)]
fn items_are_data(items: &Vec<Value<'_>>) -> bool
    ensures { result ≡ items_are_data (items_view items.now.items) }
{
    for item in items {
        if !is_data(item) {
            return false;
        }
    }
    true
}

#[cycle(numbers)]
fn members_are_data(members: &Vec<(&str, Value<'_>)>) -> bool
    ensures { result ≡ members_are_data (members_view members.now.items) }
{
    for member in members {
        if !is_data(&member.1) {
            return false;
        }
    }
    true
}
