// The answers of a world file as the entries of version 2.
ghost use Rattle.std.specs.Prelude.{◌≡◌, [], ◌∷◌, codes, string_bytes, IfOk, OnOk, Some, option_map};
ghost use Rattle.std.specs.List.Sorted.{IsStrictlySortedBy};
ghost use Rattle.std.specs.Map.{keys_of};
ghost use Rattle.data_urls.specs.Base64.{base64_of};
ghost use Rattle.json_forms.specs.Range.{pair_json};
ghost use Rattle.json_forms.specs.Rows.{members_from};
ghost use Rattle.serde_json.specs.Data.{string, put};
ghost use Rattle.serde_json.specs.View.{view, members_view};
ghost use Rattle.source_io.specs.declared.types.Answer.TheVariants.{Load, Ensure};
ghost use Rattle.spec_base.specs.Shown.{text_cmp};
ghost use Rattle.world_upgrade.specs.EntryJson.{purpose_name, url_json, kind_rows, to_rows, error_rows, base64_text, headers_json, number_json, response_rows, answer_rows, entry_json};
ghost use Rattle.world_upgrade.specs.Told.{IsParsed, ParsedResponse, ParsedAnswer, IsAgain, AreAgain, IsResponseAgain, IsAnswerAgain, IsEntryAgain};

use base64::engine::general_purpose::STANDARD_PAD_INDIFFERENT;
use json_forms::{put_optional, text_json};
use media_types::Headers;
use serde_json::{Map, Value, put};
use source_io::{
    Answer, CacheResponse, EnsureCachedResult, LoadError, LoadResponse, LoadResult, Purpose,
};
use spec_base::{Bytes, ModuleSpecifier};
use std::alloc::{AllocError, Global};

// The name of a purpose.
fn purpose_name(purpose: Purpose) -> &'static str
    ensures { result.now ≡ purpose_name purpose }
{
    match purpose {
        Purpose::LoadUse => "load",
        Purpose::EnsureUse => "ensure",
        Purpose::LoadReload => "load-reload",
        Purpose::EnsureReload => "ensure-reload",
        Purpose::LoadOnly => "load-only",
    }
}

// Puts a text.
fn put_text(
    members: &mut Map<String, Value>,
    alloc: Global,
    name: &str,
    text: &str,
) -> Result<(), AllocError>
    ensures { OnOk result (members_view members.new.entries
        ≡ put name.now (string text.now) (members_view members.old.entries)) }
{
    put(members, alloc, name, text_json(alloc, text)?)
}

// Puts a specifier that was read, whose text is read as it again.
fn put_url(
    members: &mut Map<String, Value>,
    alloc: Global,
    name: &str,
    url: &ModuleSpecifier,
) -> Result<(), AllocError>
    requires { IsParsed url.now }
    ensures value { OnOk result (members_view members.new.entries
        ≡ put name.now (url_json url.now) (members_view members.old.entries)) }
    ensures again { IsAgain url.now }
{
    put_text(members, alloc, name, url.as_str())
}

// Puts a kind that has no further members.
fn put_kind(members: &mut Map<String, Value>, alloc: Global, name: &str) -> Result<(), AllocError>
    ensures { OnOk result (members_view members.new.entries
        ≡ members_from (members_view members.old.entries) (kind_rows name.now)) }
{
    put_text(members, alloc, "kind", name)
}

// Puts a kind that leads to a specifier.
fn put_to(
    members: &mut Map<String, Value>,
    alloc: Global,
    name: &str,
    to: &ModuleSpecifier,
) -> Result<(), AllocError>
    requires { IsParsed to.now }
    ensures value { OnOk result (members_view members.new.entries
        ≡ members_from (members_view members.old.entries) (to_rows name.now to.now)) }
    ensures again { OnOk result (IsAgain to.now) }
{
    put_text(members, alloc, "kind", name)?;
    put_url(members, alloc, "to", to)
}

// Puts a failure. A source with another sum is none that a world file tells.
fn put_error(
    members: &mut Map<String, Value>,
    alloc: Global,
    error: &LoadError,
) -> Result<(), AllocError>
    ensures { OnOk result (members_view members.new.entries
        ≡ members_from (members_view members.old.entries) (error_rows error.now)) }
{
    match error {
        LoadError::Other(fault) => {
            put_text(members, alloc, "kind", "error")?;
            put_text(members, alloc, "class", fault.class.as_str())?;
            put_text(members, alloc, "message", fault.message.as_str())
        }
        LoadError::ChecksumIntegrity(_) => Ok(()),
    }
}

// The standard base64 of some bytes, which is read as them.
fn base64_text(alloc: Global, bytes: &Bytes) -> Result<String, AllocError>
    ensures value { IfOk result (λ s. string_bytes s ≡ base64_text bytes.now) }
    ensures again { IfOk result (λ s. base64_of (base64_text bytes.now) ≡ Some bytes.now) }
{
    STANDARD_PAD_INDIFFERENT.encode(alloc, bytes.as_slice())
}

// A header as a pair.
fn header_json(alloc: Global, name: &str, value: &str) -> Result<Value, AllocError>
    ensures { IfOk result (λ v. view v ≡ pair_json (string name.now) (string value.now)) }
{
    let mut parts = Vec::new(alloc);
    parts.push(text_json(alloc, name)?)?;
    parts.push(text_json(alloc, value)?)?;
    Ok(Value::Array(parts))
}

// Headers as pairs, in the order of their names.
fn headers_json(alloc: Global, headers: &Headers) -> Result<Value, AllocError>
    ensures value { IfOk result (λ v. view v ≡ headers_json headers.now) }
    ensures again { IfOk result (λ v. IsStrictlySortedBy text_cmp (keys_of headers.now)) }
{
    let mut values = Vec::new(alloc);
    for (name, value) in headers.as_map().iter() {
        values.push(header_json(alloc, name.as_str(), value.as_str())?)?;
    }
    Ok(Value::Array(values))
}

// The same, where they are told.
fn told_headers(alloc: Global, headers: &Option<Headers>) -> Result<Option<Value>, AllocError>
    ensures value { IfOk result (λ v. option_map view v ≡ option_map headers_json headers.now) }
    ensures again { OnOk result (AreAgain headers.now) }
{
    match headers {
        Some(headers) => Ok(Some(headers_json(alloc, headers)?)),
        None => Ok(None),
    }
}

// A number, where it is told.
fn told_number(number: Option<u64>) -> Option<Value>
    ensures { option_map view result ≡ option_map number_json number }
{
    match number {
        Some(number) => Some(Value::from(number)),
        None => None,
    }
}

// Puts the members of a module beside its kind and name.
fn put_content(
    members: &mut Map<String, Value>,
    alloc: Global,
    content: &Bytes,
) -> Result<(), AllocError>
    ensures value { OnOk result (members_view members.new.entries
        ≡ members_from (members_view members.old.entries)
        ((codes "kind", Some (string (codes "module")))
        ∷ (codes "base64", Some (string (base64_text content.now))) ∷ [])) }
    ensures again { OnOk result (base64_of (base64_text content.now) ≡ Some content.now) }
{
    put_text(members, alloc, "kind", "module")?;
    let text = base64_text(alloc, content)?;
    put_text(members, alloc, "base64", text.as_str())
}

// Puts what a load finds.
fn put_response(
    members: &mut Map<String, Value>,
    alloc: Global,
    response: &LoadResponse,
) -> Result<(), AllocError>
    requires { ParsedResponse response.now }
    ensures value { OnOk result (members_view members.new.entries
        ≡ members_from (members_view members.old.entries) (response_rows response.now)) }
    ensures again { OnOk result (IsResponseAgain response.now) }
{
    match response {
        LoadResponse::Module {
            content,
            mtime,
            specifier,
            maybe_headers,
        } => {
            put_content(members, alloc, content)?;
            put_url(members, alloc, "name", specifier)?;
            put_optional(
                members,
                alloc,
                "headers",
                told_headers(alloc, maybe_headers)?,
            )?;
            put_optional(members, alloc, "mtime", told_number(*mtime))
        }
        LoadResponse::External { specifier } => put_to(members, alloc, "external", specifier),
        LoadResponse::Redirect { specifier } => put_to(members, alloc, "redirect", specifier),
    }
}

// Puts what a load answers.
fn put_loaded(
    members: &mut Map<String, Value>,
    alloc: Global,
    loaded: &LoadResult,
) -> Result<(), AllocError>
    requires { ParsedAnswer (Load loaded.now) }
    ensures value { OnOk result (members_view members.new.entries
        ≡ members_from (members_view members.old.entries) (answer_rows (Load loaded.now))) }
    ensures again { OnOk result (IsAnswerAgain (Load loaded.now)) }
{
    match loaded {
        Ok(Some(response)) => put_response(members, alloc, response),
        Ok(None) => put_kind(members, alloc, "missing"),
        Err(error) => put_error(members, alloc, error),
    }
}

// Puts what a question that keeps at hand is answered.
fn put_held(
    members: &mut Map<String, Value>,
    alloc: Global,
    held: &EnsureCachedResult,
) -> Result<(), AllocError>
    requires { ParsedAnswer (Ensure held.now) }
    ensures value { OnOk result (members_view members.new.entries
        ≡ members_from (members_view members.old.entries) (answer_rows (Ensure held.now))) }
    ensures again { OnOk result (IsAnswerAgain (Ensure held.now)) }
{
    match held {
        Ok(Some(CacheResponse::Cached)) => put_kind(members, alloc, "cached"),
        Ok(Some(CacheResponse::Redirect { specifier })) => {
            put_to(members, alloc, "redirect", specifier)
        }
        Ok(None) => put_kind(members, alloc, "missing"),
        Err(error) => put_error(members, alloc, error),
    }
}

// Puts an answer.
fn put_answer(
    members: &mut Map<String, Value>,
    alloc: Global,
    answer: &Answer,
) -> Result<(), AllocError>
    requires { ParsedAnswer answer.now }
    ensures value { OnOk result (members_view members.new.entries
        ≡ members_from (members_view members.old.entries) (answer_rows answer.now)) }
    ensures again { OnOk result (IsAnswerAgain answer.now) }
{
    match answer {
        Answer::Load(loaded) => put_loaded(members, alloc, loaded),
        Answer::Ensure(held) => put_held(members, alloc, held),
    }
}

/// The entry of an answer: all of it that was read is read again as it is.
#[tactic(auto, unfolding(crate::specs::EntryJson::entry_json))]
pub fn entry_json(
    alloc: Global,
    entry: &(ModuleSpecifier, Purpose, Answer),
) -> Result<Value, AllocError>
    requires specifier { IsParsed entry.now.0 }
    requires answer { ParsedAnswer entry.now.2 }
    ensures value { IfOk result (λ v. view v ≡ entry_json entry.now) }
    ensures again { OnOk result (IsEntryAgain entry.now) }
{
    let mut members = Map::new(alloc);
    put_url(&mut members, alloc, "specifier", &entry.0)?;
    put_text(&mut members, alloc, "purpose", purpose_name(entry.1))?;
    put_answer(&mut members, alloc, &entry.2)?;
    Ok(Value::Object(members))
}
