// An analyzer that answers from a table.
ghost use Rattle.std.specs.Prelude.{◌≡◌, IfOk, OnOk, option_copied};
ghost use Rattle.spec_base.specs.Places.{IsIndex, with_first};
ghost use Rattle.spec_base.specs.Refusal.{Answers};
ghost use Rattle.spec_base.specs.Specifier.{specifier_text};
ghost use Rattle.module_info.specs.Infos.{lists_info, info_at, or_empty, info_in, infos_by};

use crate::analyzer::ModuleAnalyzer;
use crate::types::ModuleInfo;
use media_types::MediaType;
use shared_items::SharedItems;
use spec_base::{Fault, ModuleSpecifier, Refusal};
use specifier_index::SpecifierIndex;
use std::alloc::{AllocError, Global};

/// An analyzer that answers the infos and faults of a table by the specifier alone, whatever the text: the first one of
/// a specifier, and the empty info where there is none.
pub struct TableAnalyzer {
    infos: SharedItems<(ModuleSpecifier, Result<ModuleInfo, Fault>)>,
    places: SpecifierIndex<usize>,
    /// So that an info isn't sought through the whole table.
    ghost indexed: { IsIndex lists_info infos places },
}

// So that its drop is one call at each way out of what owns it.
impl Drop for TableAnalyzer {
    fn drop(self) {
        let TableAnalyzer {
            infos: _,
            places: _,
        } = self;
    }
}

impl TableAnalyzer {
    /// The analyzer of a table. Of two entries of one specifier the first counts.
    pub fn new(
        alloc: Global,
        infos: SharedItems<(ModuleSpecifier, Result<ModuleInfo, Fault>)>,
    ) -> Result<TableAnalyzer, AllocError>
        ensures { IfOk result (λ a. a.infos ≡ infos) }
    {
        let places = places_of(alloc, infos.as_slice())?;
        Ok(TableAnalyzer { infos, places })
    }
}

// The places of the first infos, by specifier.
#[tactic(auto, using(crate::proofs::InfoLemmas::noted_info))]
fn places_of(
    alloc: Global,
    infos: &[(ModuleSpecifier, Result<ModuleInfo, Fault>)],
) -> Result<SpecifierIndex<usize>, AllocError>
    ensures { IfOk result (λ places. IsIndex lists_info infos.now places) }
{
    let mut places = SpecifierIndex::new(alloc);
    for (place, entry) in infos.iter().enumerate() {
        places.insert_first(&entry.0, place)?;
    }
    Ok(places)
}

// The info at a place of the table.
fn listed_at<'a>(
    infos: &'a [(ModuleSpecifier, Result<ModuleInfo, Fault>)],
    place: Option<&usize>,
) -> Option<&'a Result<ModuleInfo, Fault>>
    ensures { option_copied result ≡ info_at infos.now (option_copied place.entry) }
{
    match place {
        None => None,
        Some(place) => match infos.get(*place) {
            None => None,
            Some(entry) => Some(&entry.1),
        },
    }
}

// A copy of a listed info, and the empty one where none is listed.
fn copy_or_empty(
    alloc: Global,
    listed: Option<&Result<ModuleInfo, Fault>>,
) -> Result<ModuleInfo, Refusal<Fault>>
    ensures { Answers result (or_empty (option_copied listed.entry)) }
{
    match listed {
        Some(Ok(info)) => Ok(info.try_clone()?),
        Some(Err(fault)) => Err(Refusal::Is(fault.clone()?)),
        None => Ok(ModuleInfo::empty(alloc)),
    }
}

impl ModuleAnalyzer for TableAnalyzer {
    ghost use Rattle.std.specs.Prelude.{Some};

    ghost infos = { λ a. Some (infos_by a.infos) };

    #[tactic(auto, using(crate::proofs::InfoLemmas::info_by_index))]
    fn analyze(
        &self,
        alloc: Global,
        specifier: &ModuleSpecifier,
        _source: &str,
        _media_type: MediaType,
    ) -> Result<ModuleInfo, Refusal<Fault>> {
        let place = self.places.get(specifier);
        copy_or_empty(alloc, listed_at(self.infos.as_slice(), place))
    }
}
