// What sources answer.
ghost use Rattle.std.specs.Prelude.{◌≡◌, [], IfOk, OnOk};
ghost use Rattle.spec_base.specs.Refusal.{Answers};
ghost use Rattle.source_io.specs.declared.types.Answer.TheVariants.{Load};
ghost use Rattle.source_io.specs.declared.types.LoadResponse.TheVariants.{External, Redirect};
ghost use Rattle.memory_loader.specs.Headers.{with_header, with_headers, maybe_headers_of};
ghost use Rattle.memory_loader.specs.Sources.{module_response, response_at, source_answer};

use crate::invalid_specifier::{InvalidSpecifier, specifier_of};
use crate::source::Source;
use media_types::Headers;
use source_io::{Answer, LoadError, LoadResponse};
use spec_base::{Bytes, ModuleSpecifier, Refusal};
use std::alloc::{AllocError, Global};

/// What a source answers, or `Is` exactly where its name or its target has no URL.
pub(crate) fn source_answer(
    alloc: Global,
    source: Source<String, Vec<u8>>,
) -> Result<Answer, Refusal<InvalidSpecifier>>
    ensures { Answers result (source_answer source) }
{
    match source {
        Source::Module {
            specifier,
            maybe_headers,
            content,
        } => module_answer(alloc, specifier.as_str(), maybe_headers, content),
        Source::Redirect(target) => redirect_answer(alloc, target.as_str()),
        Source::External(name) => external_answer(alloc, name.as_str()),
        Source::Err(fault) => Ok(Answer::Load(Err(LoadError::Other(fault)))),
    }
}

fn module_answer(
    alloc: Global,
    name: &str,
    maybe_headers: Option<Vec<(String, String)>>,
    content: Vec<u8>,
) -> Result<Answer, Refusal<InvalidSpecifier>>
    ensures { let headers = maybe_headers_of maybe_headers
        in Answers result (response_at name.now (module_response content.items headers)) }
{
    let name = specifier_of(alloc, name)?;
    let headers = maybe_headers_of(alloc, maybe_headers)?;
    Ok(loaded(module_response(content.into(), headers, name)))
}

fn redirect_answer(alloc: Global, target: &str) -> Result<Answer, Refusal<InvalidSpecifier>>
    ensures { Answers result (response_at target.now Redirect) }
{
    let specifier = specifier_of(alloc, target)?;
    Ok(loaded(LoadResponse::Redirect { specifier }))
}

fn external_answer(alloc: Global, name: &str) -> Result<Answer, Refusal<InvalidSpecifier>>
    ensures { Answers result (response_at name.now External) }
{
    let specifier = specifier_of(alloc, name)?;
    Ok(loaded(LoadResponse::External { specifier }))
}

/// A module of a name, of which no more is known than its headers, where some are given.
pub(crate) fn module_response(
    content: Bytes,
    maybe_headers: Option<Headers>,
    name: ModuleSpecifier,
) -> LoadResponse
    ensures { result ≡ module_response content maybe_headers name }
{
    LoadResponse::Module {
        content,
        mtime: None,
        specifier: name,
        maybe_headers,
    }
}

/// The answer that a response is.
pub(crate) fn loaded(response: LoadResponse) -> Answer
    ensures { result ≡ Load (Ok (Some response)) }
{
    Answer::Load(Ok(Some(response)))
}

fn maybe_headers_of(
    alloc: Global,
    given: Option<Vec<(String, String)>>,
) -> Result<Option<Headers>, AllocError>
    ensures { IfOk result (λ headers. headers ≡ maybe_headers_of given) }
{
    match given {
        None => Ok(None),
        Some(given) => Ok(Some(headers_of(alloc, given)?)),
    }
}

// The headers by their names in ASCII lower case, the last one of each name.
fn headers_of(alloc: Global, given: Vec<(String, String)>) -> Result<Headers, AllocError>
    ensures { IfOk result (λ headers. headers ≡ with_headers [] given.items) }
{
    let mut headers = Headers::new(alloc);
    for header in given {
        put_header(&mut headers, header)?;
    }
    Ok(headers)
}

fn put_header(headers: &mut Headers, header: (String, String)) -> Result<(), AllocError>
    ensures { OnOk result (headers.new ≡ with_header headers.old header) }
{
    let (mut name, value) = header;
    name.make_ascii_lowercase();
    headers.insert(name, value.into())
}
