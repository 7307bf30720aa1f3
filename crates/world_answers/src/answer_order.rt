// A world's answers in order, the first one of each specifier and purpose.
ghost use Rattle.std.specs.Prelude.{◌≡◌, IfOk};
ghost use Rattle.spec_base.specs.Refusal.{Reads};
ghost use Rattle.world_answers.specs.AnswerOrder.{ordered, if_distinct};

use json_forms::Misfit;
use source_io::{Answer, Purpose, answers_rise, compare_answers};
use spec_base::{Items, ModuleSpecifier, Refusal};
use std::alloc::AllocError;

/// Answers in order, the first one of each specifier and purpose. The only refusal is want of memory.
///
/// Answers that rise, as entries in order do, are compared with their neighbours alone and not moved; lists that rise are merged.
pub fn ordered(
    answers: Items<(ModuleSpecifier, Purpose, Answer)>,
) -> Result<Items<(ModuleSpecifier, Purpose, Answer)>, AllocError>
    ensures { IfOk result (λ found. found ≡ ordered answers) }
{
    if answers_rise(answers.as_slice()) {
        return Ok(answers);
    }
    let mut answers = answers.into_vec();
    answers.sort_by(|first, second| compare_answers(first, second))?;
    answers.dedup_by(|later, first| compare_answers(later, first).is_eq());
    Ok(Items::from(answers))
}

/// Answers in order, where no two are of one specifier and purpose, and `Misfit` exactly where two are.
pub fn if_distinct(
    answers: Items<(ModuleSpecifier, Purpose, Answer)>,
) -> Result<Items<(ModuleSpecifier, Purpose, Answer)>, Refusal<Misfit>>
    ensures { Reads result (if_distinct answers) }
{
    let count = answers.len();
    let found = ordered(answers)?;
    if found.len() == count {
        Ok(found)
    } else {
        Err(Refusal::Is(Misfit))
    }
}
