// What a world tells of cached copies, found by the modules that these are of.
ghost use Rattle.std.specs.Prelude.{◌≡◌, IfOk, option_copied, option_map, slice_get};
ghost use Rattle.spec_base.specs.Options.{then_by};
ghost use Rattle.spec_base.specs.Places.{IsIndex};
ghost use Rattle.source_io.specs.Answers.{listed_info, tells_of};

use crate::types::CacheInfo;
use spec_base::ModuleSpecifier;
use specifier_index::SpecifierIndex;
use std::alloc::{AllocError, Global};

/// The places of the first entries by the modules that they are of. The only refusal is want of memory.
#[tactic(auto, using(crate::proofs::CacheLemmas::noted_info))]
pub(crate) fn cache_places(
    alloc: Global,
    entries: &[(ModuleSpecifier, CacheInfo)],
) -> Result<SpecifierIndex<usize>, AllocError>
    ensures { IfOk result (λ places. IsIndex tells_of entries.now places) }
{
    let mut places = SpecifierIndex::new(alloc);
    for (place, entry) in entries.iter().enumerate() {
        places.insert_first(&entry.0, place)?;
    }
    Ok(places)
}

// The entry at a place.
fn entry_at<'a>(
    entries: &'a [(ModuleSpecifier, CacheInfo)],
    place: Option<&usize>,
) -> Option<&'a (ModuleSpecifier, CacheInfo)>
    ensures { option_copied result ≡ then_by (option_copied place.entry) (slice_get entries.now) }
{
    match place {
        None => None,
        Some(place) => entries.get(*place),
    }
}

// The first entry of a module.
fn first_entry<'a>(
    entries: &'a [(ModuleSpecifier, CacheInfo)],
    places: &SpecifierIndex<usize>,
    specifier: &ModuleSpecifier,
) -> Option<&'a (ModuleSpecifier, CacheInfo)>
    requires { IsIndex tells_of entries.now places.now }
    ensures { option_map (λ e. e.1) (option_copied result)
        ≡ listed_info entries.now specifier.now }
{
    entry_at(entries, places.get(specifier))
}

/// A copy of what the first entry of a module tells, if there is one.
pub(crate) fn info_of(
    entries: &[(ModuleSpecifier, CacheInfo)],
    places: &SpecifierIndex<usize>,
    specifier: &ModuleSpecifier,
) -> Result<Option<CacheInfo>, AllocError>
    requires { IsIndex tells_of entries.now places.now }
    ensures { IfOk result (λ info. info ≡ listed_info entries.now specifier.now) }
{
    match first_entry(entries, places, specifier) {
        Some(entry) => Ok(Some(entry.1.clone()?)),
        None => Ok(None),
    }
}
