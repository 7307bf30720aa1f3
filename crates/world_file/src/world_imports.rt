// The kind of graph that a world file asks for, and the imports that it configures.
ghost use Rattle.serde_json.specs.View as serde;
ghost use Rattle.json_documents.specs.Documents as documents;
ghost use Rattle.spec_base.specs.Refusal.{Reads};
ghost use Rattle.json_forms.specs.Form.{items_of};
ghost use Rattle.world_file.specs.WorldImports.{kind_of, referrer_imports, imports_of};

use graph_dependencies::{GraphKind, ReferrerImports};
use json_documents::{Json, JsonItems};
use json_forms::{Misfit, choose, has_names, required};
use spec_base::{Items, Refusal};
use std::alloc::Global;

/// The kind of graph that a world file asks for.
pub fn read_kind(value: &Json<'_, '_>) -> Result<GraphKind, Refusal<Misfit>>
    ensures { Reads result (kind_of (documents.view value.now)) }
{
    match value.get("kind") {
        Some(kind) => choose(
            &kind,
            &[
                ("all", GraphKind::All),
                ("code", GraphKind::CodeOnly),
                ("types", GraphKind::TypesOnly),
            ],
        ),
        None => Ok(GraphKind::All),
    }
}

/// The imports that a world file configures.
pub fn read_imports(
    alloc: Global,
    value: &Json<'_, '_>,
) -> Result<Items<ReferrerImports>, Refusal<Misfit>>
    ensures { Reads result (imports_of (documents.view value.now)) }
{
    let Some(imports) = value.get("imports") else {
        return Ok(Items::new(alloc));
    };
    match imports.as_array() {
        Some(items) => read_each(alloc, items),
        None => Err(Refusal::Is(Misfit)),
    }
}

fn read_each(
    alloc: Global,
    items: JsonItems<'_, '_>,
) -> Result<Items<ReferrerImports>, Refusal<Misfit>>
    ensures { Reads result (items_of referrer_imports (serde.items_of (documents.items_left items.entry))) }
{
    let mut imports = Items::new(alloc);
    for item in items {
        imports.push(read_referrer_imports(alloc, &item)?)?;
    }
    Ok(imports)
}

#[tactic(auto, unfolding(crate::specs::WorldImports::referrer_imports))]
fn read_referrer_imports(
    alloc: Global,
    value: &Json<'_, '_>,
) -> Result<ReferrerImports, Refusal<Misfit>>
    ensures { Reads result (referrer_imports (documents.view value.now)) }
{
    if !has_names(value, &["referrer", "imports"]) {
        return Err(Refusal::Is(Misfit));
    }
    let referrer = required(alloc, value, "referrer")?;
    let imports = required(alloc, value, "imports")?;
    Ok(ReferrerImports { referrer, imports })
}
