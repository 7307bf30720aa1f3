// The sources of a member of a world file, by specifier.
//
// The members that say how sources differ after a reload, or in a cache, name modules that the sources name too. Their keys come in the
// order of their texts, and so do the sources, so that one pass over both finds the specifiers that needn't be parsed. A redirect mostly
// names a key that stands beside its own, so that all keys of a member are read before the values. What is known and the order decide how
// many texts are parsed, and never what they are.
ghost use Rattle.std.specs.Prelude.{◌≡◌, IfOk};
ghost use Rattle.std.specs.List.{zip};
ghost use Rattle.json_documents.specs.Documents as documents;
ghost use Rattle.json_documents.specs.Documents.{named};
ghost use Rattle.json_forms.specs.Keyed.{entries_of, keyed_or_empty};
ghost use Rattle.spec_base.specs.Refusal.{Reads};
ghost use Rattle.world_answers.specs.SourceMembers.{specifiers_of, values_of};
ghost use Rattle.world_answers.specs.WorldSources.{source, sources_at};

use crate::known_specifiers::{from_key, known_url};
use crate::world_sources::{Source, fit_keys, read_beside};
use json_documents::Json;
use json_forms::{Misfit, keyed_or_empty};
use spec_base::{Items, ModuleSpecifier, Refusal};
use specifier_index::entries_rise;
use std::alloc::{AllocError, Global};
use std::collections::BTreeMap;

// The specifiers of an object's keys, in one pass over the known sources, of which a key's specifier is taken where it stands there.
fn read_keys(
    alloc: Global,
    members: &BTreeMap<&str, Json<'_, '_>>,
    known: &[(ModuleSpecifier, Source)],
) -> Result<Items<ModuleSpecifier>, Refusal<Misfit>>
    ensures { Reads result (specifiers_of (named members.now.entries)) }
{
    let mut left = known;
    let mut keys = Vec::with_capacity(alloc, members.len())?;
    for (key, _) in members.iter() {
        left = from_key(left, key);
        let specifier = known_url(alloc, left.first().map(|source| &source.0), key)?;
        keys.push(specifier)?;
    }
    Ok(keys.into())
}

// The sources that an object's values are, to which its keys are lent.
fn read_values(
    alloc: Global,
    members: &BTreeMap<&str, Json<'_, '_>>,
    keys: &[ModuleSpecifier],
) -> Result<Items<Source>, Refusal<Misfit>>
    ensures { Reads result (values_of source (named members.now.entries)) }
{
    let mut sources = Vec::with_capacity(alloc, members.len())?;
    for (_, value) in members.iter() {
        let source = read_beside(alloc, value, keys)?;
        sources.push(source)?;
    }
    Ok(sources.into())
}

// Keys beside their sources.
fn paired(
    alloc: Global,
    keys: Items<ModuleSpecifier>,
    sources: Items<Source>,
) -> Result<Vec<(ModuleSpecifier, Source)>, AllocError>
    ensures { IfOk result (λ paired. paired.items ≡ zip keys sources) }
{
    keys.into_vec()
        .into_iter()
        .zip(sources.into_vec().into_iter())
        .collect(alloc)
}

// The members of an object as sources by specifier: first all keys, so that they can be lent to the sources that name them.
fn read_entries(
    alloc: Global,
    members: &BTreeMap<&str, Json<'_, '_>>,
    known: &[(ModuleSpecifier, Source)],
) -> Result<Items<(ModuleSpecifier, Source)>, Refusal<Misfit>>
    ensures { Reads result (entries_of source (named members.now.entries)) }
{
    let keys = read_keys(alloc, members, known)?;
    let sources = read_values(alloc, members, keys.as_slice())?;
    let entries = paired(alloc, keys, sources)?;
    Ok(entries.into())
}

// The sources of a member by their keys, whether or not these fit them.
fn keyed_sources(
    alloc: Global,
    value: &Json<'_, '_>,
    name: &str,
    known: &[(ModuleSpecifier, Source)],
) -> Result<Items<(ModuleSpecifier, Source)>, Refusal<Misfit>>
    ensures { Reads result (keyed_or_empty source name.now (documents.view value.now)) }
{
    let Some(sources) = value.get(name) else {
        return Ok(Items::new(alloc));
    };
    let Some(members) = sources.members(alloc)? else {
        return Err(Refusal::Is(Misfit));
    };
    let entries = read_entries(alloc, &members, known)?;
    // Keys that aren't texts of their URLs may be out of order, or two of one URL: then each is read by itself, and compared.
    if entries_rise(entries.as_slice()) {
        Ok(entries)
    } else {
        keyed_or_empty(alloc, value, name)
    }
}

/// The sources of a member of a world file, by specifier, whatever sources are known: those that were read before only spare the parser
/// the keys that are texts of their specifiers.
pub fn read_sources(
    alloc: Global,
    value: &Json<'_, '_>,
    name: &str,
    known: &[(ModuleSpecifier, Source)],
) -> Result<Items<(ModuleSpecifier, Source)>, Refusal<Misfit>>
    ensures { Reads result (sources_at name.now (documents.view value.now)) }
{
    let sources = keyed_sources(alloc, value, name, known)?;
    if fit_keys(sources.as_slice()) {
        Ok(sources)
    } else {
        Err(Refusal::Is(Misfit))
    }
}
