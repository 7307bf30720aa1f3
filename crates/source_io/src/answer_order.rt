// The order of a world's answers: that of their specifiers' texts, and then that of purposes.
ghost use Rattle.std.specs.Prelude.{◌≡◌, option_copied};
ghost use Rattle.std.specs.Bool.{Decides};
ghost use Rattle.source_io.specs.Answers.{listed_answer, purpose_place};
ghost use Rattle.source_io.specs.AnswerOrder.{answer_cmp, place_cmp, AreRising};

use crate::types::{Answer, Purpose};
use spec_base::ModuleSpecifier;
use std::cmp::Ordering;

impl Purpose {
    /// The place of a purpose among all, from 0.
    pub fn place(self) -> u8
        ensures { result ≡ purpose_place self }
    {
        match self {
            Purpose::LoadUse => 0,
            Purpose::EnsureUse => 1,
            Purpose::LoadReload => 2,
            Purpose::EnsureReload => 3,
            Purpose::LoadOnly => 4,
        }
    }
}

// How an answer stands to one of a specifier and a purpose.
fn compare_to(
    answer: &(ModuleSpecifier, Purpose, Answer),
    specifier: &ModuleSpecifier,
    purpose: Purpose,
) -> Ordering
    ensures { result
        ≡ place_cmp (answer.now.0, purpose_place answer.now.1)
        (specifier.now, purpose_place purpose) }
{
    let by_specifier = answer.0.cmp(specifier);
    by_specifier.then(answer.1.place().cmp(&purpose.place()))
}

/// The order of two answers: by the texts of their specifiers, and then by the places of their purposes.
pub fn compare_answers(
    first: &(ModuleSpecifier, Purpose, Answer),
    second: &(ModuleSpecifier, Purpose, Answer),
) -> Ordering
    ensures { result ≡ answer_cmp first.now second.now }
{
    compare_to(first, &second.0, second.1)
}

/// Whether each answer stands before the next one, so that they are in order and no two are of one specifier and purpose.
pub fn answers_rise(answers: &[(ModuleSpecifier, Purpose, Answer)]) -> bool
    ensures { Decides result (AreRising answers.now) }
{
    answers.is_sorted_by(|first, second| compare_answers(first, second).is_lt())
}

/// The answer that is listed for a specifier and a purpose among answers that rise, sought by halves.
pub(crate) fn listed_in_order<'a>(
    answers: &'a [(ModuleSpecifier, Purpose, Answer)],
    specifier: &ModuleSpecifier,
    purpose: Purpose,
) -> Option<&'a Answer>
    requires { AreRising answers.now }
    ensures { option_copied result ≡ listed_answer answers.now specifier.now purpose }
{
    let found = answers.binary_search_by(|answer: &(ModuleSpecifier, Purpose, Answer)| -> Ordering {
        compare_to(answer, specifier, purpose)
    });
    match found {
        Ok(place) => Some(&answers[place].2),
        Err(_) => None,
    }
}
