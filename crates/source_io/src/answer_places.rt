// How a world's answers are found.
ghost use Rattle.std.specs.Prelude.{◌≡◌, IfOk, option_copied};
ghost use Rattle.source_io.specs.Answers.{listed_answer};
ghost use Rattle.source_io.specs.AnswerPlaces.{IsAnswerIndex};

use crate::answer_order::{answers_rise, listed_in_order};
use crate::noted_places::NotedPlaces;
use crate::types::{Answer, Purpose};
use spec_base::ModuleSpecifier;
use std::alloc::{AllocError, Global};

/// What the answers of a world are found by.
#[derive(Drop)]
pub(crate) enum AnswerPlaces {
    /// They rise, so that one is sought by halves, and nothing is kept beside them.
    Rising,
    /// Their places, which are kept beside them.
    Noted(NotedPlaces),
}

impl AnswerPlaces {
    /// What these answers are found by. The only refusal is want of memory.
    pub(crate) fn new(
        alloc: Global,
        answers: &[(ModuleSpecifier, Purpose, Answer)],
    ) -> Result<AnswerPlaces, AllocError>
        ensures { IfOk result (λ places. IsAnswerIndex answers.now places) }
    {
        if answers_rise(answers) {
            Ok(AnswerPlaces::Rising)
        } else {
            Ok(AnswerPlaces::Noted(NotedPlaces::new(alloc, answers)?))
        }
    }

    /// The first answer that is listed for a specifier and a purpose.
    pub(crate) fn listed<'a>(
        &self,
        answers: &'a [(ModuleSpecifier, Purpose, Answer)],
        specifier: &ModuleSpecifier,
        purpose: Purpose,
    ) -> Option<&'a Answer>
        requires { IsAnswerIndex answers.now self.now }
        ensures { option_copied result ≡ listed_answer answers.now specifier.now purpose }
    {
        match self {
            AnswerPlaces::Rising => listed_in_order(answers, specifier, purpose),
            AnswerPlaces::Noted(places) => places.listed(answers, specifier, purpose),
        }
    }
}
