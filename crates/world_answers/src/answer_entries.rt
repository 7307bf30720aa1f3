// The entries of a world file of version 2: each one answer, to questions about a specifier with one purpose.
ghost use Rattle.std.specs.Prelude.{◌≡◌, codes};
ghost use Rattle.serde_json.specs.View as serde;
ghost use Rattle.json_documents.specs.Documents as documents;
ghost use Rattle.spec_base.specs.Refusal.{Reads};
ghost use Rattle.json_forms.specs.Form.{choice, items_of};
ghost use Rattle.json_forms.specs.Member.{has_names, required, or_empty};
ghost use Rattle.source_io.specs.Answers.{is_ensure};
ghost use Rattle.world_answers.specs.AnswerEntries.{purposes, loaded_names, entry_source, loaded_source, loaded_answer, held_kinds, held_names, held_redirect, held_error, held_of, held_answer, entry_answer, answer_entry};
ghost use Rattle.world_answers.specs.WorldSources.{source_kind};

use crate::entry_modules::read_entry_module;
use crate::world_sources::{
    Source, SourceKind, answer, fits_key, read_fault, read_kind, read_source,
};
use json_documents::{Json, JsonItems};
use json_forms::{Misfit, choose, has_names, required};
use source_io::{Answer, CacheResponse, LoadError, Purpose};
use spec_base::{Items, ModuleSpecifier, Refusal};
use std::alloc::Global;

/// What kind an answer to a question that keeps at hand is.
#[derive(Clone, Copy, PartialEq, Eq, Debug)]
pub enum HeldKind {
    Cached,
    Redirect,
    Missing,
    Error,
}

// What the answer of an entry is for.
fn read_purpose(value: &Json<'_, '_>) -> Result<Purpose, Refusal<Misfit>>
    ensures { Reads result (required (choice purposes) (codes "purpose") (documents.view value.now)) }
{
    match value.get("purpose") {
        Some(purpose) => choose(
            &purpose,
            &[
                ("load", Purpose::LoadUse),
                ("ensure", Purpose::EnsureUse),
                ("load-reload", Purpose::LoadReload),
                ("ensure-reload", Purpose::EnsureReload),
                ("load-only", Purpose::LoadOnly),
            ],
        ),
        None => Err(Refusal::Is(Misfit)),
    }
}

// ---- answers to loads

fn read_loaded_kind(value: &Json<'_, '_>) -> Result<SourceKind, Refusal<Misfit>>
    ensures { Reads result (required source_kind (codes "kind") (documents.view value.now)) }
{
    match value.get("kind") {
        Some(kind) => read_kind(&kind),
        None => Err(Refusal::Is(Misfit)),
    }
}

// Whether an entry for a load has no other members than those of its kind.
fn has_loaded_names(kind: SourceKind, value: &Json<'_, '_>) -> bool
    ensures { result ≡ has_names (loaded_names kind) (documents.view value.now) }
{
    match kind {
        SourceKind::Module => has_names(
            value,
            &[
                "specifier",
                "purpose",
                "kind",
                "text",
                "base64",
                "name",
                "headers",
                "mtime",
            ],
        ),
        SourceKind::Redirect | SourceKind::External => {
            has_names(value, &["specifier", "purpose", "kind", "to"])
        }
        SourceKind::Missing | SourceKind::Data => {
            has_names(value, &["specifier", "purpose", "kind"])
        }
        SourceKind::Error => has_names(
            value,
            &["specifier", "purpose", "kind", "class", "message"],
        ),
    }
}

fn read_module(alloc: Global, value: &Json<'_, '_>) -> Result<Source, Refusal<Misfit>>
    ensures { Reads result (entry_source (documents.view value.now)) }
{
    Ok(Source::Module(read_entry_module(alloc, value)?))
}

fn read_loaded_source(
    alloc: Global,
    kind: SourceKind,
    value: &Json<'_, '_>,
) -> Result<Source, Refusal<Misfit>>
    ensures { Reads result (loaded_source kind (documents.view value.now)) }
{
    match kind {
        SourceKind::Module => read_module(alloc, value),
        _ => read_source(alloc, kind, value, &[]),
    }
}

// The answer to a load of a specifier.
fn read_loaded(
    alloc: Global,
    specifier: &ModuleSpecifier,
    value: &Json<'_, '_>,
) -> Result<Answer, Refusal<Misfit>>
    ensures { Reads result (loaded_answer specifier.now (documents.view value.now)) }
{
    let kind = read_loaded_kind(value)?;
    if !has_loaded_names(kind, value) {
        return Err(Refusal::Is(Misfit));
    }
    let source = read_loaded_source(alloc, kind, value)?;
    if !fits_key(specifier, &source) {
        return Err(Refusal::Is(Misfit));
    }
    Ok(answer(alloc, specifier, source)?)
}

// ---- answers to questions that keep at hand

fn read_held_kind(value: &Json<'_, '_>) -> Result<HeldKind, Refusal<Misfit>>
    ensures { Reads result (required (choice held_kinds) (codes "kind") (documents.view value.now)) }
{
    match value.get("kind") {
        Some(kind) => choose(
            &kind,
            &[
                ("cached", HeldKind::Cached),
                ("redirect", HeldKind::Redirect),
                ("missing", HeldKind::Missing),
                ("error", HeldKind::Error),
            ],
        ),
        None => Err(Refusal::Is(Misfit)),
    }
}

// Whether an entry for such a question has no other members than those of its kind.
fn has_held_names(kind: HeldKind, value: &Json<'_, '_>) -> bool
    ensures { result ≡ has_names (held_names kind) (documents.view value.now) }
{
    match kind {
        HeldKind::Redirect => has_names(value, &["specifier", "purpose", "kind", "to"]),
        HeldKind::Cached | HeldKind::Missing => {
            has_names(value, &["specifier", "purpose", "kind"])
        }
        HeldKind::Error => has_names(value, &["specifier", "purpose", "kind", "class", "message"]),
    }
}

fn read_held_redirect(alloc: Global, value: &Json<'_, '_>) -> Result<Answer, Refusal<Misfit>>
    ensures { Reads result (held_redirect (documents.view value.now)) }
{
    let specifier = required(alloc, value, "to")?;
    Ok(Answer::Ensure(Ok(Some(CacheResponse::Redirect { specifier }))))
}

fn read_held_error(alloc: Global, value: &Json<'_, '_>) -> Result<Answer, Refusal<Misfit>>
    ensures { Reads result (held_error (documents.view value.now)) }
{
    let fault = read_fault(alloc, value)?;
    Ok(Answer::Ensure(Err(LoadError::Other(fault))))
}

fn read_held_of(
    alloc: Global,
    kind: HeldKind,
    value: &Json<'_, '_>,
) -> Result<Answer, Refusal<Misfit>>
    ensures { Reads result (held_of kind (documents.view value.now)) }
{
    match kind {
        HeldKind::Cached => Ok(Answer::Ensure(Ok(Some(CacheResponse::Cached)))),
        HeldKind::Redirect => read_held_redirect(alloc, value),
        HeldKind::Missing => Ok(Answer::Ensure(Ok(None))),
        HeldKind::Error => read_held_error(alloc, value),
    }
}

// The answer to a question that keeps at hand.
fn read_held(alloc: Global, value: &Json<'_, '_>) -> Result<Answer, Refusal<Misfit>>
    ensures { Reads result (held_answer (documents.view value.now)) }
{
    let kind = read_held_kind(value)?;
    if !has_held_names(kind, value) {
        return Err(Refusal::Is(Misfit));
    }
    read_held_of(alloc, kind, value)
}

// ---- entries

// The answer of an entry for a purpose.
fn read_answer(
    alloc: Global,
    specifier: &ModuleSpecifier,
    purpose: Purpose,
    value: &Json<'_, '_>,
) -> Result<Answer, Refusal<Misfit>>
    ensures { Reads result (entry_answer (is_ensure purpose) specifier.now (documents.view value.now)) }
{
    if purpose.is_ensure() {
        read_held(alloc, value)
    } else {
        read_loaded(alloc, specifier, value)
    }
}

#[tactic(auto, unfolding(crate::specs::AnswerEntries::answer_entry))]
fn read_entry(
    alloc: Global,
    value: &Json<'_, '_>,
) -> Result<(ModuleSpecifier, Purpose, Answer), Refusal<Misfit>>
    ensures { Reads result (answer_entry (documents.view value.now)) }
{
    let specifier = required(alloc, value, "specifier")?;
    let purpose = read_purpose(value)?;
    let answer = read_answer(alloc, &specifier, purpose, value)?;
    Ok((specifier, purpose, answer))
}

fn read_each(
    alloc: Global,
    items: JsonItems<'_, '_>,
) -> Result<Items<(ModuleSpecifier, Purpose, Answer)>, Refusal<Misfit>>
    ensures { Reads result (items_of answer_entry (serde.items_of (documents.items_left items.entry))) }
{
    let mut entries = Items::new(alloc);
    for item in items {
        entries.push(read_entry(alloc, &item)?)?;
    }
    Ok(entries)
}

/// The entries of a file of version 2; none where they are absent.
pub fn read_entries(
    alloc: Global,
    value: &Json<'_, '_>,
) -> Result<Items<(ModuleSpecifier, Purpose, Answer)>, Refusal<Misfit>>
    ensures { Reads result (or_empty answer_entry (codes "answers") (documents.view value.now)) }
{
    let Some(entries) = value.get("answers") else {
        return Ok(Items::new(alloc));
    };
    match entries.as_array() {
        Some(items) => read_each(alloc, items),
        None => Err(Refusal::Is(Misfit)),
    }
}
