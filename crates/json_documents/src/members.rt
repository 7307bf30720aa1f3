// The members of an object, in the order of their names.
ghost use Rattle.std.specs.Prelude.{◌≡◌, IfOk, map, option_map};
ghost use Rattle.serde_json.specs.Data.{no_members};
ghost use Rattle.serde_json.specs.Find.{as_object};
ghost use Rattle.serde_json.specs.View as serde;
ghost use Rattle.json.specs.Value.{members_view};
ghost use Rattle.json_documents.specs.Documents.{view, members_of, named};

use crate::value::Json;
use std::alloc::{AllocError, Global};
use std::collections::BTreeMap;

impl<'v, 'a> Json<'v, 'a> {
    /// The members by their names, where this is an object; of two of one name the last. The only refusal is want of memory.
    pub fn members(
        &self,
        alloc: Global,
    ) -> Result<Option<BTreeMap<&'v str, Json<'v, 'a>>>, AllocError>
        ensures { IfOk result
            (λ found. option_map (λ m. named m.entries) found ≡ as_object (view self.now)) }
    {
        match *self {
            Json::Read(value) => match value {
                json::Value::Object(members) => Ok(Some(by_name(alloc, members)?)),
                _ => Ok(None),
            },
            Json::Owned(value) => match value {
                serde_json::Value::Object(members) => Ok(Some(lent(alloc, members)?)),
                _ => Ok(None),
            },
        }
    }
}

fn by_name<'v, 'a>(
    alloc: Global,
    members: &'v Vec<(&'a str, json::Value<'a>)>,
) -> Result<BTreeMap<&'v str, Json<'v, 'a>>, AllocError>
    ensures { IfOk result
        (λ found. named found.entries ≡ members_of (members_view members.now.items) no_members) }
{
    let mut found = BTreeMap::new(alloc);
    for member in members {
        let (name, value) = member;
        found.insert(*name, Json::Read(value))?;
    }
    Ok(found)
}

fn lent<'v, 'a>(
    alloc: Global,
    members: &'v serde_json::Map<String, serde_json::Value>,
) -> Result<BTreeMap<&'v str, Json<'v, 'a>>, AllocError>
    ensures { IfOk result
        (λ found. named found.entries ≡ serde.members_view members.now.entries) }
{
    let mut found = BTreeMap::new(alloc);
    for (name, value) in members.iter() {
        found.insert(name.as_str(), Json::Owned(value))?;
    }
    Ok(found)
}
