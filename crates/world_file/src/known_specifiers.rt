// The specifiers of roots and keys, taken from the answers that were read before them where they stand there.
//
// A world file names most modules more than once: by a key of its answers, by one of its infos, as a root. Keys come in the order of their
// texts, and so do the answers, so that one pass over both finds those that needn't be parsed; roots are sought one by one. That order
// decides how many are found, and never what a text is.
ghost use Rattle.std.specs.Prelude.{◌≡◌};
ghost use Rattle.spec_base.specs.Refusal.{Reads};
ghost use Rattle.json_documents.specs.Documents.{named, view};
ghost use Rattle.json_forms.specs.Form.{list_of, specifier, url_of};
ghost use Rattle.json_forms.specs.Keyed.{entries_of, keyed_or_empty};
ghost use Rattle.world_file.specs.KnownSpecifiers.{from_key};
ghost use Rattle.world_file.specs.WorldFile.{roots_of};

use json_documents::Json;
use json_forms::{Form, Misfit, keyed_or_empty, read_url};
use source_io::{Answer, Purpose};
use spec_base::{Items, ModuleSpecifier, Refusal};
use specifier_index::entries_rise;
use std::alloc::Global;
use std::cmp::Ordering;
use std::collections::BTreeMap;
use world_answers::known_url;

/// The answers from the first one on whose specifier's text doesn't stand before the key.
pub fn from_key<'a>(
    answers: &'a [(ModuleSpecifier, Purpose, Answer)],
    key: &str,
) -> &'a [(ModuleSpecifier, Purpose, Answer)]
    ensures { result.now ≡ from_key key.now answers.now }
{
    let before = answers
        .iter()
        .take_while(|answer| answer.0.as_str().cmp(key).is_lt())
        .count();
    &answers[before..]
}

/// The URL that a key is, or `Misfit` exactly where it is none: a copy of the first answer's specifier where that is plainly the same.
pub fn key_url(
    alloc: Global,
    answers: &[(ModuleSpecifier, Purpose, Answer)],
    key: &str,
) -> Result<ModuleSpecifier, Refusal<Misfit>>
    ensures { Reads result (url_of key.now) }
{
    let known = answers.first().map(|answer| &answer.0);
    known_url(alloc, known, key)
}

// The members of an object as values by specifier, in one pass over the answers.
fn read_entries<T: Form>(
    alloc: Global,
    members: &BTreeMap<&str, Json<'_, '_>>,
    answers: &[(ModuleSpecifier, Purpose, Answer)],
) -> Result<Items<(ModuleSpecifier, T)>, Refusal<Misfit>>
    ensures { Reads result (entries_of T.form (named members.now.entries)) }
{
    let mut left = answers;
    let mut entries = Vec::with_capacity(alloc, members.len())?;
    for (key, value) in members.iter() {
        left = from_key(left, key);
        let specifier = key_url(alloc, left, key)?;
        let entry = T::read(alloc, value)?;
        entries.push((specifier, entry))?;
    }
    Ok(entries.into())
}

/// An object from specifiers to values of one form, as `keyed_or_empty` reads it, whatever the answers.
pub fn known_keyed<T: Form>(
    alloc: Global,
    value: &Json<'_, '_>,
    name: &str,
    answers: &[(ModuleSpecifier, Purpose, Answer)],
) -> Result<Items<(ModuleSpecifier, T)>, Refusal<Misfit>>
    ensures { Reads result (keyed_or_empty T.form name.now (view value.now)) }
{
    let Some(member) = value.get(name) else {
        return Ok(Items::new(alloc));
    };
    let Some(members) = member.members(alloc)? else {
        return Err(Refusal::Is(Misfit));
    };
    let entries = read_entries(alloc, &members, answers)?;
    // Keys that aren't texts of their URLs may be out of order, or two of one URL: then each is read by itself, and compared.
    if entries_rise(entries.as_slice()) {
        Ok(entries)
    } else {
        keyed_or_empty(alloc, value, name)
    }
}

// The URL that a text is, or `Misfit` exactly where it is none: roots come in any order, so that each is sought among the answers.
fn text_url(
    alloc: Global,
    answers: &[(ModuleSpecifier, Purpose, Answer)],
    text: &str,
) -> Result<ModuleSpecifier, Refusal<Misfit>>
    ensures { Reads result (url_of text.now) }
{
    let found = answers.binary_search_by(|answer: &(ModuleSpecifier, Purpose, Answer)| -> Ordering {
        answer.0.as_str().cmp(text)
    });
    match found {
        Ok(place) => key_url(alloc, &answers[place..], text),
        Err(_) => read_url(alloc, text),
    }
}

// The specifier that a JSON value is.
fn read_root(
    alloc: Global,
    value: &Json<'_, '_>,
    answers: &[(ModuleSpecifier, Purpose, Answer)],
) -> Result<ModuleSpecifier, Refusal<Misfit>>
    ensures { Reads result (specifier (view value.now)) }
{
    match value.as_str() {
        Some(text) => text_url(alloc, answers, text),
        None => Err(Refusal::Is(Misfit)),
    }
}

// The specifiers of a list.
fn read_list(
    alloc: Global,
    value: &Json<'_, '_>,
    answers: &[(ModuleSpecifier, Purpose, Answer)],
) -> Result<Items<ModuleSpecifier>, Refusal<Misfit>>
    ensures { Reads result (list_of specifier (view value.now)) }
{
    let Some(values) = value.as_array() else {
        return Err(Refusal::Is(Misfit));
    };
    let mut roots = Vec::with_capacity(alloc, values.len())?;
    for item in values {
        roots.push(read_root(alloc, &item, answers)?)?;
    }
    Ok(roots.into())
}

/// The roots of a world file, whatever the answers: those that were read before only spare the parser the texts of their specifiers.
pub fn read_roots(
    alloc: Global,
    value: &Json<'_, '_>,
    answers: &[(ModuleSpecifier, Purpose, Answer)],
) -> Result<Items<ModuleSpecifier>, Refusal<Misfit>>
    ensures { Reads result (roots_of (view value.now)) }
{
    match value.get("roots") {
        Some(roots) => read_list(alloc, &roots, answers),
        None => Ok(Items::new(alloc)),
    }
}
