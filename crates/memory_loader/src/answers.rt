// The answers of sources, each kept at the specifier of its source.
ghost use Rattle.std.specs.Prelude.{◌≡◌, IfOk, OnErr, option_copied};
ghost use Rattle.spec_base.specs.Refusal.{AnswersBy};
ghost use Rattle.memory_loader.specs.Sources.{with_source, with_sources};
ghost use Rattle.memory_loader.specs.Worlds.{kept_or_read};

use crate::invalid_specifier::{InvalidSpecifier, specifier_of};
use crate::source::{MemoryLoaderSources, Source};
use crate::source_answer::source_answer;
use source_io::{Answer, Question, ensured, listed_or_read};
use spec_base::{Entries, ModuleSpecifier, Refusal};
use std::alloc::{AllocError, Global};

/// The answers of sources by their specifiers, which are found by their hash.
pub(crate) type Answers = Entries<ModuleSpecifier, Answer>;

/// Puts the answers of sources at their keys, one after the other. `Is` comes exactly where a text has no URL,
/// with the first such text.
pub(crate) fn put_sources(
    alloc: Global,
    answers: &mut Answers,
    sources: MemoryLoaderSources<String, Vec<u8>>,
) -> Result<(), Refusal<InvalidSpecifier>>
    ensures { AnswersBy (λ _. answers.new) result (with_sources answers.old sources.items) }
{
    for (key, source) in sources {
        put_source(alloc, answers, key.as_str(), source)?;
    }
    Ok(())
}

/// Puts the answer of a source at its key. `Is` comes exactly where a text has no URL, with the first such text:
/// the key, else the source's name or its target. After a refusal all answers are as they were.
pub(crate) fn put_source(
    alloc: Global,
    answers: &mut Answers,
    key: &str,
    source: Source<String, Vec<u8>>,
) -> Result<(), Refusal<InvalidSpecifier>>
    ensures put { AnswersBy (λ _. answers.new) result (with_source answers.old key.now source) }
    ensures refused { OnErr result (answers.new ≡ answers.old) }
{
    let key = specifier_of(alloc, key)?;
    let answer = source_answer(alloc, source)?;
    let _ = answers.insert(key, answer)?;
    Ok(())
}

/// The answer to a question, by the one that is kept at its specifier: where none is kept, what a `data:` URL holds, and else
/// missing.
pub(crate) fn kept_or_read(
    alloc: Global,
    question: &Question,
    kept: Option<&Answer>,
) -> Result<Answer, AllocError>
    ensures { IfOk result (λ a. a ≡ kept_or_read question.now (option_copied kept.entry)) }
{
    let purpose = question.purpose();
    match kept {
        Some(answer) if purpose.is_ensure() => ensured(answer),
        _ => listed_or_read(alloc, true, &question.specifier, purpose, kept),
    }
}
