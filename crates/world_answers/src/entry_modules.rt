// The modules among the answers of a world file of version 2: their headers as pairs, and their names.
ghost use Rattle.std.specs.Prelude.{◌≡◌, [], IfOk, OnOk, option_map, map};
ghost use Rattle.std.specs.Char.{to_ascii_lowercase};
ghost use Rattle.json_documents.specs.Documents as documents;
ghost use Rattle.spec_base.specs.Refusal.{Reads};
ghost use Rattle.spec_base.specs.Shown.{shown};
ghost use Rattle.world_answers.specs.EntryModules.{header, joined, with_header, headers_from, entry_module};

use crate::world_modules::{WorldModule, read_content};
use json_documents::Json;
use json_forms::{Form, Misfit, optional, pair};
use media_types::Headers;
use spec_base::{Items, Refusal, Text};
use std::alloc::{AllocError, Global};
use std::collections::BTreeMap;

/// A header: its name in ASCII lower case, and its value.
#[derive(Drop)]
pub struct Header {
    pub name: Text,
    pub value: Text,
}

// A copy of a text in ASCII lower case.
fn lower(alloc: Global, text: &Text) -> Result<Text, AllocError>
    ensures { IfOk result (λ t. t ≡ map to_ascii_lowercase text.now) }
{
    Ok(Text::from(text.as_str().to_ascii_lowercase(alloc)?))
}

impl Form for Header {
    ghost form = { header };

    fn read(alloc: Global, value: &Json<'_, '_>) -> Result<Header, Refusal<Misfit>> {
        let Some((name, value)) = pair(value) else {
            return Err(Refusal::Is(Misfit));
        };
        let name = lower(alloc, &Text::read(alloc, &name)?)?;
        let value = Text::read(alloc, &value)?;
        Ok(Header { name, value })
    }
}

// A value behind that of the same name which stood before.
fn joined(before: Option<Text>, value: Text) -> Result<Text, AllocError>
    ensures { IfOk result (λ t. t ≡ joined before value) }
{
    let Some(before) = before else {
        return Ok(value);
    };
    let mut text = before.into_string();
    text.push_str(", ")?;
    text.push_str(value.as_str())?;
    Ok(Text::from(text))
}

// Adds a header. The values of one name are joined, which copies the new one alone.
#[tactic(auto, using(crate::proofs::HeaderLemmas::lookup_named, crate::proofs::HeaderLemmas::remove_named, crate::proofs::HeaderLemmas::insert_named))]
fn put_header(found: &mut BTreeMap<String, Text>, header: Header) -> Result<(), AllocError>
    ensures { OnOk result (shown found.new.entries ≡ with_header (shown found.old.entries) header) }
{
    let Header { name, value } = header;
    let before = found.remove(name.as_str());
    let value = joined(before, value)?;
    found.insert(name.into_string(), value)?;
    Ok(())
}

// Headers by name, the values of one name joined in their order.
fn headers_from(alloc: Global, headers: Items<Header>) -> Result<Headers, AllocError>
    ensures { IfOk result (λ found. found ≡ headers_from [] headers) }
{
    let mut found = BTreeMap::new(alloc);
    for header in headers.into_vec() {
        put_header(&mut found, header)?;
    }
    Ok(Headers::from(found))
}

// The same, where headers are told.
fn told_headers(
    alloc: Global,
    headers: Option<Items<Header>>,
) -> Result<Option<Headers>, AllocError>
    ensures { IfOk result (λ found. found ≡ option_map (headers_from []) headers) }
{
    match headers {
        Some(headers) => Ok(Some(headers_from(alloc, headers)?)),
        None => Ok(None),
    }
}

/// A module among the entries of a file of version 2, by its members.
pub fn read_entry_module(
    alloc: Global,
    value: &Json<'_, '_>,
) -> Result<WorldModule, Refusal<Misfit>>
    ensures { Reads result (entry_module (documents.view value.now)) }
{
    let mtime = optional(alloc, value, "mtime")?;
    let content = read_content(alloc, value)?;
    let specifier = optional(alloc, value, "name")?;
    let headers = told_headers(alloc, optional(alloc, value, "headers")?)?;
    Ok(WorldModule {
        content,
        mtime,
        specifier,
        headers,
    })
}
