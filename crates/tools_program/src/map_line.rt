// The line of an import map.
ghost use Rattle.std.specs.Prelude.{◌≡◌};
ghost use Rattle.serde_json.specs.View.{view};
ghost use Rattle.spec_base.specs.Refusal.{Reads};
ghost use Rattle.import_map.specs.Reading.{map_of};
ghost use Rattle.tools_program.specs.MapLine.{map_form, map_of_line, ok_of};

use import_map::ImportMap;
use json_documents::Json;
use json_forms::{Misfit, has_names, required};
use serde_json::Value;
use spec_base::{ModuleSpecifier, Refusal};
use std::alloc::Global;

// The map that a value is over a base, where it is one.
fn map_by(
    alloc: Global,
    value: &Value,
    base: &ModuleSpecifier,
) -> Result<ImportMap, Refusal<Misfit>>
    ensures { Reads result (ok_of (map_of (view value.now) base.now)) }
{
    match ImportMap::from_json(alloc, value, base) {
        Ok(map) => Ok(map),
        Err(Refusal::Memory) => Err(Refusal::Memory),
        Err(Refusal::Is(_)) => Err(Refusal::Is(Misfit)),
    }
}

// The map that a value tells with its base.
#[tactic(auto, unfolding(crate::specs::MapLine::map_form))]
fn read_map(alloc: Global, value: &Value) -> Result<ImportMap, Refusal<Misfit>>
    ensures { Reads result (map_form (view value.now)) }
{
    let json = Json::Owned(value);
    if !has_names(&json, &["base", "map"]) {
        return Err(Refusal::Is(Misfit));
    }
    let base: ModuleSpecifier = required(alloc, &json, "base")?;
    match value.get("map") {
        Some(map) => map_by(alloc, map, &base),
        None => Err(Refusal::Is(Misfit)),
    }
}

/// The import map that some bytes are, where they are the JSON text (RFC 8259, in UTF-8) of an object with the two members
/// `base`, a URL, and `map`, an import map over that base. `Is` comes exactly where they aren't.
pub(crate) fn map_of_line(alloc: Global, line: &[u8]) -> Result<ImportMap, Refusal<Misfit>>
    ensures { Reads result (map_of_line line.now) }
{
    match Value::from_slice(alloc, line) {
        Ok(value) => read_map(alloc, &value),
        Err(error) => if error.is_memory() {
            Err(Refusal::Memory)
        } else {
            Err(Refusal::Is(Misfit))
        },
    }
}
