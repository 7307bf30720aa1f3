// Objects of any keys, as maps from texts.
ghost use Rattle.std.specs.Prelude.{◌≡◌};
ghost use Rattle.json_documents.specs.Documents.{named};
ghost use Rattle.spec_base.specs.Refusal.{Reads};
ghost use Rattle.json_forms.specs.Dictionary.{pairs_of, dictionary, dictionary_json};

use crate::form::{Form, Misfit};
use crate::shown::Shown;
use json_documents::Json;
use serde_json::{Map, Value, put};
use spec_base::{Refusal, SortedTexts};
use std::alloc::{AllocError, Global};
use std::collections::BTreeMap;

impl<V: Form> Form for SortedTexts<V> {
    ghost form = { dictionary V.form };

    fn read(alloc: Global, value: &Json<'_, '_>) -> Result<SortedTexts<V>, Refusal<Misfit>> {
        match value.members(alloc)? {
            Some(members) => read_members(alloc, &members),
            None => Err(Refusal::Is(Misfit)),
        }
    }
}

fn read_members<V: Form>(
    alloc: Global,
    members: &BTreeMap<&str, Json<'_, '_>>,
) -> Result<SortedTexts<V>, Refusal<Misfit>>
    ensures { Reads result (pairs_of V.form (named members.now.entries)) }
{
    let mut found = SortedTexts::new(alloc);
    for (key, member) in members.iter() {
        let item = V::read(alloc, member)?;
        let name = String::from_str(alloc, key)?;
        found.insert(name, item)?;
    }
    Ok(found)
}

impl<V: Shown> Shown for SortedTexts<V> {
    ghost json = { dictionary_json V.json };

    fn to_json(&self, alloc: Global) -> Result<Value, AllocError> {
        let mut members = Map::new(alloc);
        for (key, value) in self.as_map().iter() {
            put(&mut members, alloc, key.as_str(), value.to_json(alloc)?)?;
        }
        Ok(Value::Object(members))
    }
}
