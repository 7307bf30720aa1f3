// The items of an array.
ghost use Rattle.std.specs.Prelude.{◌≡◌, length};
ghost use Rattle.std.specs.Iterator.{at_most};
ghost use Rattle.std.specs.Map.Iter.{TakesFirst};
ghost use Rattle.json_documents.specs.Documents.{items_left, view};

use crate::value::Json;
use std::slice;

/// Goes over the items of an array.
#[derive(Drop)]
pub enum JsonItems<'v, 'a> {
    Read(slice::Iter<'v, json::Value<'a>>),
    Owned(slice::Iter<'v, serde_json::Value>),
}

impl<'v, 'a> Iterator for JsonItems<'v, 'a> {
    type Item = Json<'v, 'a>;

    ghost next_gives = { λ i r j. TakesFirst view (items_left i) r (items_left j) };

    ghost remaining = { λ i. at_most (length (items_left i)) };

    fn next(&mut self) -> Option<Json<'v, 'a>> {
        match self {
            JsonItems::Read(left) => Some(Json::Read(left.next()?)),
            JsonItems::Owned(left) => Some(Json::Owned(left.next()?)),
        }
    }
}

impl JsonItems<'_, '_> {
    /// How many are left.
    pub fn len(&self) -> usize
        ensures { result ≡ length (items_left self.now) }
    {
        match self {
            JsonItems::Read(left) => left.len(),
            JsonItems::Owned(left) => left.len(),
        }
    }
}
