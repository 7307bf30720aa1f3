// A world's modules of types, found by the modules whose types they are.
ghost use Rattle.std.specs.Prelude.{◌≡◌, IfOk};
ghost use Rattle.spec_base.specs.Places.{IsIndex};
ghost use Rattle.source_io.specs.Places.{names_types_of};

use spec_base::{Items, ModuleSpecifier, Range};
use specifier_index::SpecifierIndex;
use std::alloc::{AllocError, Global};

/// Modules of types, found by the modules whose types they are.
#[derive(Drop)]
pub(crate) struct TypesIndex {
    pub(crate) entries: Items<(ModuleSpecifier, ModuleSpecifier, Option<Range>)>,
    /// The place of the first entry of each module.
    pub(crate) places: SpecifierIndex<usize>,
    ghost indexed: { IsIndex names_types_of entries places },
}

impl TypesIndex {
    /// The index of these modules of types. The only refusal is want of memory.
    pub(crate) fn new(
        alloc: Global,
        entries: Items<(ModuleSpecifier, ModuleSpecifier, Option<Range>)>,
    ) -> Result<TypesIndex, AllocError>
        ensures { IfOk result (λ i. i.entries ≡ entries) }
    {
        let places = types_places(alloc, entries.as_slice())?;
        Ok(TypesIndex { entries, places })
    }
}

// The places of the first modules of types, by the modules whose they are.
#[tactic(auto, using(crate::proofs::TypesLemmas::noted_types))]
fn types_places(
    alloc: Global,
    entries: &[(ModuleSpecifier, ModuleSpecifier, Option<Range>)],
) -> Result<SpecifierIndex<usize>, AllocError>
    ensures { IfOk result (λ places. IsIndex names_types_of entries.now places) }
{
    let mut places = SpecifierIndex::new(alloc);
    for (place, entry) in entries.iter().enumerate() {
        places.insert_first(&entry.0, place)?;
    }
    Ok(places)
}
