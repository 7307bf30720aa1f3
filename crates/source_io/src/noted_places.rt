// The places of a world's answers, by purpose and specifier.
ghost use Rattle.std.specs.Prelude.{◌≡◌, IfOk, OnOk, option_copied};
ghost use Rattle.std.specs.FinMap as finite;
ghost use Rattle.spec_base.specs.Specifier.{specifier_text};
ghost use Rattle.source_io.specs.declared.types.Purpose.{Purpose};
ghost use Rattle.source_io.specs.Answers.{listed_answer};
ghost use Rattle.source_io.specs.AnswerPlaces.{with_entry, answer_at, places_for, AreNoted};

use crate::types::{Answer, Purpose};
use spec_base::ModuleSpecifier;
use specifier_index::SpecifierIndex;
use std::alloc::{AllocError, Global};

/// The places of the first answers by specifier, for each purpose.
#[derive(Drop)]
pub(crate) struct NotedPlaces {
    load_use: SpecifierIndex<usize>,
    ensure_use: SpecifierIndex<usize>,
    load_reload: SpecifierIndex<usize>,
    ensure_reload: SpecifierIndex<usize>,
    load_only: SpecifierIndex<usize>,
}

// Notes the place of an entry, where it is the first one of its specifier for its purpose.
fn note_entry(
    places: &mut NotedPlaces,
    entry: &(ModuleSpecifier, Purpose, Answer),
    place: usize,
) -> Result<(), AllocError>
    ensures { OnOk result
        ((p : Purpose)
        → places_for p places.new ≡ with_entry p (places_for p places.old) entry.now place) }
{
    match entry.1 {
        Purpose::LoadUse => places.load_use.insert_first(&entry.0, place),
        Purpose::EnsureUse => places.ensure_use.insert_first(&entry.0, place),
        Purpose::LoadReload => places.load_reload.insert_first(&entry.0, place),
        Purpose::EnsureReload => places.ensure_reload.insert_first(&entry.0, place),
        Purpose::LoadOnly => places.load_only.insert_first(&entry.0, place),
    }
}

impl NotedPlaces {
    /// Those of a world's answers.
    pub(crate) fn new(
        alloc: Global,
        answers: &[(ModuleSpecifier, Purpose, Answer)],
    ) -> Result<NotedPlaces, AllocError>
        ensures { IfOk result (λ places. AreNoted answers.now places) }
    {
        let mut places = NotedPlaces {
            load_use: SpecifierIndex::new(alloc),
            ensure_use: SpecifierIndex::new(alloc),
            load_reload: SpecifierIndex::new(alloc),
            ensure_reload: SpecifierIndex::new(alloc),
            load_only: SpecifierIndex::new(alloc),
        };
        for (place, entry) in answers.iter().enumerate() {
            note_entry(&mut places, entry, place)?;
        }
        Ok(places)
    }

    // The place of the first answer of a specifier for a purpose.
    fn get(&self, specifier: &ModuleSpecifier, purpose: Purpose) -> Option<&usize>
        ensures { option_copied result
            ≡ finite.get (places_for purpose self.now) (specifier_text specifier.now) }
    {
        match purpose {
            Purpose::LoadUse => self.load_use.get(specifier),
            Purpose::EnsureUse => self.ensure_use.get(specifier),
            Purpose::LoadReload => self.load_reload.get(specifier),
            Purpose::EnsureReload => self.ensure_reload.get(specifier),
            Purpose::LoadOnly => self.load_only.get(specifier),
        }
    }
}

// The answer at a place of the list.
fn listed_at<'a>(
    answers: &'a [(ModuleSpecifier, Purpose, Answer)],
    place: Option<&usize>,
) -> Option<&'a Answer>
    ensures { option_copied result ≡ answer_at answers.now (option_copied place.entry) }
{
    match place {
        None => None,
        Some(place) => match answers.get(*place) {
            None => None,
            Some(entry) => Some(&entry.2),
        },
    }
}

impl NotedPlaces {
    /// The first answer that is listed for a specifier and a purpose.
    pub(crate) fn listed<'a>(
        &self,
        answers: &'a [(ModuleSpecifier, Purpose, Answer)],
        specifier: &ModuleSpecifier,
        purpose: Purpose,
    ) -> Option<&'a Answer>
        requires { AreNoted answers.now self.now }
        ensures { option_copied result ≡ listed_answer answers.now specifier.now purpose }
    {
        listed_at(answers, self.get(specifier, purpose))
    }
}
