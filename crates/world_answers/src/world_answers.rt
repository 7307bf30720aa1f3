// The answers that a world file tells, in either of its versions.
ghost use Rattle.json_documents.specs.Documents as documents;
ghost use Rattle.spec_base.specs.Refusal.{Reads};
ghost use Rattle.world_answers.specs.WorldAnswers.{source_answers, entry_answers, answers_in};

use crate::answer_entries::read_entries;
use crate::answer_order::if_distinct;
use crate::source_members::read_sources;
use crate::world_sources::answers;
use json_documents::Json;
use json_forms::Misfit;
use source_io::{Answer, Purpose};
use spec_base::{Items, ModuleSpecifier, Refusal};
use std::alloc::Global;

// In version 1: those of the sources in three members.
fn source_answers(
    alloc: Global,
    value: &Json<'_, '_>,
) -> Result<Items<(ModuleSpecifier, Purpose, Answer)>, Refusal<Misfit>>
    ensures { Reads result (source_answers (documents.view value.now)) }
{
    let sources = read_sources(alloc, value, "sources", &[])?;
    let reload = read_sources(alloc, value, "reload", sources.as_slice())?;
    let cached = read_sources(alloc, value, "cached", sources.as_slice())?;
    Ok(answers(alloc, sources, reload, cached)?)
}

// In version 2: those of the entries of one member.
fn entry_answers(
    alloc: Global,
    value: &Json<'_, '_>,
) -> Result<Items<(ModuleSpecifier, Purpose, Answer)>, Refusal<Misfit>>
    ensures { Reads result (entry_answers (documents.view value.now)) }
{
    let entries = read_entries(alloc, value)?;
    if_distinct(entries)
}

/// The answers of a world file of a version, in the order of their specifiers' texts and then of purposes. `Misfit` comes exactly
/// where the members that tell them haven't their form, where two entries of version 2 are of one specifier and purpose, and for
/// a version that isn't 1 or 2.
pub fn read_answers(
    alloc: Global,
    value: &Json<'_, '_>,
    version: u64,
) -> Result<Items<(ModuleSpecifier, Purpose, Answer)>, Refusal<Misfit>>
    ensures { Reads result (answers_in version (documents.view value.now)) }
{
    if version == 1 {
        source_answers(alloc, value)
    } else if version == 2 {
        entry_answers(alloc, value)
    } else {
        Err(Refusal::Is(Misfit))
    }
}
