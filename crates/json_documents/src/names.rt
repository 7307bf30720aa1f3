// The names of an object's members.
ghost use Rattle.std.specs.Prelude.{◌≡◌, map};
ghost use Rattle.std.specs.List.{list_any};
ghost use Rattle.std.specs.Str.{bytes_eq};
ghost use Rattle.json.specs.Value.{members_view};
ghost use Rattle.serde_json.specs.View as serde;
ghost use Rattle.json_documents.specs.Documents.{view};
ghost use Rattle.json_documents.specs.Names.{has_names, names_among, read_among};

use crate::value::Json;

impl Json<'_, '_> {
    /// Whether this is an object all of whose members have one of the names.
    pub fn has_names(&self, names: &[&str]) -> bool
        ensures { result ≡ has_names (map (λ s. s.now) names.now) (view self.now) }
    {
        match *self {
            Json::Read(value) => match value {
                json::Value::Object(members) => read_among(members, names),
                _ => false,
            },
            Json::Owned(value) => match value {
                serde_json::Value::Object(members) => names_among(members, names),
                _ => false,
            },
        }
    }
}

fn read_among(members: &Vec<(&str, json::Value<'_>)>, names: &[&str]) -> bool
    ensures { result ≡ read_among (map (λ s. s.now) names.now) (members_view members.now.items) }
{
    for member in members {
        if !is_among(member.0, names) {
            return false;
        }
    }
    true
}

fn names_among(members: &serde_json::Map<String, serde_json::Value>, names: &[&str]) -> bool
    ensures { result
        ≡ names_among (map (λ s. s.now) names.now) (serde.members_view members.now.entries) }
{
    for (key, _value) in members.iter() {
        if !is_among(key.as_str(), names) {
            return false;
        }
    }
    true
}

fn is_among(key: &str, names: &[&str]) -> bool
    ensures { result ≡ list_any (bytes_eq key.now) (map (λ s. s.now) names.now) }
{
    for name in names {
        if key == *name {
            return true;
        }
    }
    false
}
