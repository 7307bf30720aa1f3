// JSON objects whose keys are specifiers.
ghost use Rattle.std.specs.Prelude.{◌≡◌, [], IfOk, map};
ghost use Rattle.json_documents.specs.Documents.{named, view};
ghost use Rattle.url.specs.Parts.{serialize};
ghost use Rattle.spec_base.specs.Refusal.{Reads};
ghost use Rattle.json_forms.specs.Keyed.{entries_of, no_repeats, keyed, keyed_or_empty};

use crate::form::{Form, Misfit, read_url};
use json_documents::Json;
use spec_base::{Items, ModuleSpecifier, Refusal};
use specifier_index::entries_rise;
use std::alloc::{AllocError, Global};
use std::collections::{BTreeMap, BTreeSet};

/// An object from specifiers to values of one form, as entries in the order of its keys; `Misfit` also
/// where two keys are the same URL. An absent one counts as empty.
pub fn keyed_or_empty<T: Form>(
    alloc: Global,
    value: &Json<'_, '_>,
    name: &str,
) -> Result<Items<(ModuleSpecifier, T)>, Refusal<Misfit>>
    ensures { Reads result (keyed_or_empty T.form name.now (view value.now)) }
{
    match value.get(name) {
        Some(member) => read_keyed(alloc, &member),
        None => Ok(Items::new(alloc)),
    }
}

fn read_keyed<T: Form>(
    alloc: Global,
    value: &Json<'_, '_>,
) -> Result<Items<(ModuleSpecifier, T)>, Refusal<Misfit>>
    ensures { Reads result (keyed T.form (view value.now)) }
{
    let Some(members) = value.members(alloc)? else {
        return Err(Refusal::Is(Misfit));
    };
    let entries = read_entries(alloc, &members)?;
    if are_distinct(alloc, entries.as_slice())? {
        Ok(entries)
    } else {
        Err(Refusal::Is(Misfit))
    }
}

fn read_entries<T: Form>(
    alloc: Global,
    members: &BTreeMap<&str, Json<'_, '_>>,
) -> Result<Items<(ModuleSpecifier, T)>, Refusal<Misfit>>
    ensures { Reads result (entries_of T.form (named members.now.entries)) }
{
    let mut entries = Vec::with_capacity(alloc, members.len())?;
    for (key, value) in members.iter() {
        let specifier = read_url(alloc, key)?;
        let item = T::read(alloc, value)?;
        entries.push((specifier, item))?;
    }
    Ok(entries.into())
}

// Whether no two entries have one URL. Those that rise, as entries in order do, are compared with their neighbours alone; others go into
// a set of their texts, so that n entries take n log n steps.
fn are_distinct<T>(alloc: Global, entries: &[(ModuleSpecifier, T)]) -> Result<bool, AllocError>
    ensures { IfOk result (λ b. b ≡ no_repeats [] (map (λ e. serialize e.0) entries.now)) }
{
    if entries_rise(entries) {
        return Ok(true);
    }
    let mut seen: BTreeSet<&str> = BTreeSet::new(alloc);
    for entry in entries {
        if !seen.insert(entry.0.as_str())? {
            return Ok(false);
        }
    }
    Ok(true)
}
