// The modules among the sources of a world file: their content, their headers and when they were changed.
ghost use Rattle.std.specs.Prelude.{◌≡◌, IfOk, codes};
ghost use Rattle.std.specs.List.{list_all};
ghost use Rattle.json_documents.specs.Documents as documents;
ghost use Rattle.spec_base.specs.Refusal.{Reads};
ghost use Rattle.json_forms.specs.Form.{text};
ghost use Rattle.json_forms.specs.Member.{optional};
ghost use Rattle.world_answers.specs.WorldModules.{base64, content_of, is_lower_case, headers_of, world_module};

use data_urls::standard_base64;
use json_documents::Json;
use json_forms::{Form, Misfit, optional};
use media_types::Headers;
use spec_base::{Bytes, ModuleSpecifier, Refusal};
use std::alloc::{AllocError, Global};

/// What a world file says of a module.
#[derive(Drop)]
pub struct WorldModule {
    pub content: Bytes,
    /// When it was last changed, in milliseconds since 1970, where that is told.
    pub mtime: Option<u64>,
    /// Its name, where that isn't the key.
    pub specifier: Option<ModuleSpecifier>,
    pub headers: Option<Headers>,
}

// A copy of headers.
fn copied_headers(headers: &Option<Headers>) -> Result<Option<Headers>, AllocError>
    ensures { IfOk result (λ copy. copy ≡ headers.now) }
{
    match headers {
        None => Ok(None),
        Some(headers) => Ok(Some(headers.try_clone()?)),
    }
}

impl Clone for WorldModule {
    ghost is_clone = { λ found copy. copy ≡ found };

    fn clone(&self) -> Result<WorldModule, AllocError> {
        let content = self.content.try_clone()?;
        let specifier = self.specifier.clone()?;
        let headers = copied_headers(&self.headers)?;
        Ok(WorldModule {
            content,
            mtime: self.mtime,
            specifier,
            headers,
        })
    }
}

// The bytes of a text in UTF-8.
fn read_text(alloc: Global, value: &Json<'_, '_>) -> Result<Bytes, Refusal<Misfit>>
    ensures { Reads result (text (documents.view value.now)) }
{
    match value.as_str() {
        Some(text) => Ok(Bytes::from_slice(alloc, text.as_bytes())?),
        None => Err(Refusal::Is(Misfit)),
    }
}

// The bytes that a text spells in base64.
fn read_base64(alloc: Global, value: &Json<'_, '_>) -> Result<Bytes, Refusal<Misfit>>
    ensures { Reads result (base64 (documents.view value.now)) }
{
    let Some(text) = value.as_str() else {
        return Err(Refusal::Is(Misfit));
    };
    match standard_base64(alloc, text) {
        Ok(bytes) => Ok(bytes),
        Err(Refusal::Memory) => Err(Refusal::Memory),
        Err(Refusal::Is(_)) => Err(Refusal::Is(Misfit)),
    }
}

/// The bytes of a module: exactly one of the members `text` and `base64` stands.
pub fn read_content(alloc: Global, value: &Json<'_, '_>) -> Result<Bytes, Refusal<Misfit>>
    ensures { Reads result (content_of (documents.view value.now)) }
{
    match (value.get("text"), value.get("base64")) {
        (Some(text), None) => read_text(alloc, &text),
        (None, Some(base64)) => read_base64(alloc, &base64),
        _ => Err(Refusal::Is(Misfit)),
    }
}

fn is_lower_case(name: &str) -> bool
    ensures { result ≡ is_lower_case name.now }
{
    name.as_bytes().iter().all(|b| !b.is_ascii_uppercase())
}

fn are_lower_case(headers: &Headers) -> bool
    ensures { result ≡ list_all (λ h. is_lower_case h.0) headers.now }
{
    for (name, _value) in headers.as_map().iter() {
        if !is_lower_case(name.as_str()) {
            return false;
        }
    }
    true
}

fn read_headers(alloc: Global, value: &Json<'_, '_>) -> Result<Headers, Refusal<Misfit>>
    ensures { Reads result (headers_of (documents.view value.now)) }
{
    let headers = Headers::read(alloc, value)?;
    if are_lower_case(&headers) {
        Ok(headers)
    } else {
        Err(Refusal::Is(Misfit))
    }
}

// The headers of a module, where they are told.
fn told_headers(alloc: Global, value: &Json<'_, '_>) -> Result<Option<Headers>, Refusal<Misfit>>
    ensures { Reads result (optional headers_of (codes "headers") (documents.view value.now)) }
{
    match value.get("headers") {
        Some(headers) => Ok(Some(read_headers(alloc, &headers)?)),
        None => Ok(None),
    }
}

/// A module among the sources of a file of version 1, by its members.
pub fn read_module(alloc: Global, value: &Json<'_, '_>) -> Result<WorldModule, Refusal<Misfit>>
    ensures { Reads result (world_module (documents.view value.now)) }
{
    let mtime = optional(alloc, value, "mtime")?;
    let content = read_content(alloc, value)?;
    let specifier = optional(alloc, value, "specifier")?;
    let headers = told_headers(alloc, value)?;
    Ok(WorldModule {
        content,
        mtime,
        specifier,
        headers,
    })
}
