// What loads of `data:` URLs (RFC 2397) answer.
ghost use Rattle.std.specs.Prelude.{◌≡◌, IfOk};
ghost use Rattle.spec_base.specs.Refusal.{Answers};
ghost use Rattle.source_io.specs.Data.{type_header, data_loaded, data_answer};

use crate::types::{Answer, LoadResponse};
use data_urls::{DataUrl, data_url_source};
use media_types::Headers;
use spec_base::{Fault, LoadError, ModuleSpecifier, Refusal, Text};
use std::alloc::{AllocError, Global};

// The header that tells a content type.
fn type_header(alloc: Global, content_type: Text) -> Result<Headers, AllocError>
    ensures { IfOk result (λ headers. headers ≡ type_header content_type) }
{
    let mut headers = Headers::new(alloc);
    let name = String::from_str(alloc, "content-type")?;
    headers.insert(name, content_type)?;
    Ok(headers)
}

/// Loads a `data:` URL: a module that is named as asked, with its content and the header `content-type` that it holds.
/// `Is` comes exactly where it holds nothing that can be read: it has no comma, or its base64 is bad; the class is `Error`
/// and the message `Unable to decode data url.`
pub fn load_data_url(
    alloc: Global,
    specifier: &ModuleSpecifier,
) -> Result<Option<LoadResponse>, Refusal<Fault>>
    ensures { Answers result (data_loaded specifier.now) }
{
    let DataUrl {
        content,
        content_type,
    } = data_url_source(alloc, specifier)?;
    let headers = type_header(alloc, content_type)?;
    let specifier = specifier.clone()?;
    Ok(Some(LoadResponse::Module {
        content,
        mtime: None,
        specifier,
        maybe_headers: Some(headers),
    }))
}

/// What a load of a `data:` URL answers: what `load_data_url` gives, and a failure with its fault where it holds nothing that
/// can be read. The only error is want of memory.
pub fn data_answer(alloc: Global, specifier: &ModuleSpecifier) -> Result<Answer, AllocError>
    ensures { IfOk result (λ a. a ≡ data_answer specifier.now) }
{
    match load_data_url(alloc, specifier) {
        Ok(response) => Ok(Answer::Load(Ok(response))),
        Err(Refusal::Memory) => Err(AllocError),
        Err(Refusal::Is(fault)) => Ok(Answer::Load(Err(LoadError::Other(fault)))),
    }
}
