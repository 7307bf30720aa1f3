// JSON values: those of a document, and those that own their texts.
ghost use Rattle.std.specs.Prelude.{◌≡◌, option_map, option_and_then, is_some};
ghost use Rattle.serde_json.specs.Find.{get, as_array, as_bool, as_null, as_number, as_object, as_str, as_u64};
ghost use Rattle.serde_json.specs.View.{items_of};
ghost use Rattle.json_documents.specs.Documents.{items_left, view};

use crate::items::JsonItems;
use crate::numbers::read_number;

/// A JSON value, seen as its data.
#[derive(Clone, Copy)]
pub enum Json<'v, 'a> {
    /// A value of a document. A number that is too large for a float counts as `null`; a document has none.
    Read(&'v json::Value<'a>),
    /// A value that owns its texts.
    Owned(&'v serde_json::Value),
}

impl<'v, 'a> Json<'v, 'a> {
    /// The member of a name, where this is an object that has one; of two of one name the last.
    pub fn get(&self, name: &str) -> Option<Json<'v, 'a>>
        ensures { option_map view result ≡ get name.now (view self.now) }
    {
        match *self {
            Json::Read(value) => match value.get(name) {
                Some(member) => Some(Json::Read(member)),
                None => None,
            },
            Json::Owned(value) => match value.get(name) {
                Some(member) => Some(Json::Owned(member)),
                None => None,
            },
        }
    }

    /// The text, where this is one.
    pub fn as_str(&self) -> Option<&'v str>
        ensures { option_map (λ s. s.now) result ≡ as_str (view self.now) }
    {
        match *self {
            Json::Read(value) => value.as_str(),
            Json::Owned(value) => value.as_str(),
        }
    }

    /// The truth value, where this is one.
    pub fn as_bool(&self) -> Option<bool>
        ensures { result ≡ as_bool (view self.now) }
    {
        match *self {
            Json::Read(value) => value.as_bool(),
            Json::Owned(value) => value.as_bool(),
        }
    }

    /// The number, where this is a whole one from 0 to 18446744073709551615.
    pub fn as_u64(&self) -> Option<u64>
        ensures { result ≡ option_and_then as_u64 (as_number (view self.now)) }
    {
        match *self {
            Json::Read(value) => read_number(value.as_number()?)?.as_u64(),
            Json::Owned(value) => value.as_u64(),
        }
    }

    /// Whether this is `null`.
    pub fn is_null(&self) -> bool
        ensures { result ≡ is_some (as_null (view self.now)) }
    {
        match *self {
            Json::Read(value) => match value {
                json::Value::Null => true,
                json::Value::Number(text) => read_number(text).is_none(),
                _ => false,
            },
            Json::Owned(value) => value.is_null(),
        }
    }

    /// Whether this is an object.
    pub fn is_object(&self) -> bool
        ensures { result ≡ is_some (as_object (view self.now)) }
    {
        match *self {
            Json::Read(value) => match value {
                json::Value::Object(_) => true,
                _ => false,
            },
            Json::Owned(value) => value.is_object(),
        }
    }

    /// The items, where this is an array.
    pub fn as_array(&self) -> Option<JsonItems<'v, 'a>>
        ensures { option_map (λ i. items_of (items_left i)) result ≡ as_array (view self.now) }
    {
        match *self {
            Json::Read(value) => match value {
                json::Value::Array(items) => Some(JsonItems::Read(items.iter())),
                _ => None,
            },
            Json::Owned(value) => match value {
                serde_json::Value::Array(items) => Some(JsonItems::Owned(items.iter())),
                _ => None,
            },
        }
    }
}
