// The content of a `data:` URL.
ghost use Rattle.std.specs.Prelude.{◌≡◌, ◌<◌, true, length, codes, bytes_eq, IfOk, IsTrue, MatchOption, option_copied};
ghost use Rattle.std.specs.List.{filter, position_or_len, before_first, after_first};
ghost use Rattle.percent_encoding.specs.Percent.{percent_decode};
ghost use Rattle.media_types.specs.Media.{is_data, lower};
ghost use Rattle.spec_base.specs.Refusal.{Answers, Reads};
ghost use Rattle.data_urls.specs.DataUrls.{is_comma, is_kept, said_by, marked, content_type_of, content_in, unreadable, by_parts, data_url_of};

use crate::standard::{NotBase64, decoded};
use spec_base::{Bytes, Fault, ModuleSpecifier, Refusal, Text};
use std::alloc::{AllocError, Global};

/// What a `data:` URL holds: bytes, and their content type (RFC 9110).
#[derive(Clone, PartialEq, Eq, Debug, Drop)]
pub struct DataUrl {
    pub content: Bytes,
    pub content_type: Text,
}

impl DataUrl {
    /// A copy. The only refusal is want of memory.
    pub fn try_clone(&self) -> Result<DataUrl, AllocError>
        ensures { IfOk result (λ copy. copy ≡ self.now) }
    {
        self.clone()
    }
}

/// What a specifier holds as a `data:` URL (RFC 2397).
///
/// The text after `data:` and up to a `#` is split at its first `,`, into a head and a body. Where the head
/// ends in `;base64`, without regard to ASCII case, that is taken off, and the content is the body without its
/// percent escapes and then without ASCII white space, read by `standard_base64`; else it is the body without
/// its percent escapes. The content type is the head, with `text/plain` in front where the head is empty or
/// begins with `;`.
///
/// A URL without a `,`, one whose body isn't the base64 that its head says, and a specifier of another scheme
/// are refused with a fault of the class `Error` and the message `Unable to decode data url.`.
pub fn data_url_source(
    alloc: Global,
    specifier: &ModuleSpecifier,
) -> Result<DataUrl, Refusal<Fault>>
    ensures { Answers result (data_url_of specifier.now) }
{
    if specifier.scheme() != "data" {
        return Err(Refusal::Is(unreadable(alloc)?));
    }
    match head_and_body(text_of(specifier)) {
        Some((head, body)) => source_of(alloc, head, body),
        None => Err(Refusal::Is(unreadable(alloc)?)),
    }
}

// The text after `data:` and up to a `#`.
fn text_of(specifier: &ModuleSpecifier) -> &str
    requires { is_data specifier.now ≡ true }
    ensures { result.now ≡ said_by specifier.now }
{
    let text = &specifier.as_str()[5..];
    match text.split_once('#') {
        Some((before, _)) => before,
        None => text,
    }
}

// What stands before the first `,`, and what stands behind it.
fn head_and_body(text: &str) -> Option<(&str, &str)>
    ensures { MatchOption result (position_or_len is_comma text.now ≡ length text.now)
        (λ parts. (parts.0.now ≡ before_first is_comma text.now)
        × (parts.1.now ≡ after_first is_comma text.now)
        × (position_or_len is_comma text.now < length text.now)) }
{
    text.split_once(',')
}

fn source_of(alloc: Global, head: &str, body: &str) -> Result<DataUrl, Refusal<Fault>>
    ensures { Answers result (by_parts head.now body.now) }
{
    let (type_text, is_base64) = match before_mark(head) {
        Some(type_text) => (type_text, true),
        None => (head, false),
    };
    match content_of(alloc, is_base64, body) {
        Ok(content) => {
            let content_type = content_type(alloc, type_text)?;
            Ok(DataUrl {
                content,
                content_type,
            })
        }
        Err(Refusal::Memory) => Err(Refusal::Memory),
        Err(Refusal::Is(_)) => Err(Refusal::Is(unreadable(alloc)?)),
    }
}

// What stands before the mark of base64, where the head ends in it.
fn before_mark(head: &str) -> Option<&str>
    ensures { option_copied result ≡ marked head.now }
{
    let bytes = head.as_bytes();
    if bytes.len() < 7 {
        return None;
    }
    let at = bytes.len() - 7;
    if is_mark(&bytes[at..]) {
        Some(&head[..at])
    } else {
        None
    }
}

fn is_mark(bytes: &[u8]) -> bool
    ensures value { result ≡ bytes_eq (codes ";base64") (lower bytes.now) }
    ensures text { IsTrue result → lower bytes.now ≡ codes ";base64" }
{
    b";base64".eq_ignore_ascii_case(bytes)
}

fn content_of(alloc: Global, is_base64: bool, body: &str) -> Result<Bytes, Refusal<NotBase64>>
    ensures { Reads result (content_in is_base64 body.now) }
{
    let mut bytes = unescaped(alloc, body)?;
    if !is_base64 {
        return Ok(bytes.into());
    }
    drop_white_space(&mut bytes);
    decoded(alloc, bytes.as_slice())
}

// The bytes without percent escapes.
fn unescaped(alloc: Global, text: &str) -> Result<Vec<u8>, AllocError>
    ensures { IfOk result (λ bytes. bytes.items ≡ percent_decode text.now) }
{
    let mut bytes = Vec::new(alloc);
    percent_encoding::percent_decode(text.as_bytes()).append_to(&mut bytes)?;
    Ok(bytes)
}

fn drop_white_space(bytes: &mut Vec<u8>)
    ensures { bytes.new.items ≡ filter is_kept bytes.old.items }
{
    bytes.retain(|b| !b.is_ascii_whitespace());
}

fn content_type(alloc: Global, head: &str) -> Result<Text, AllocError>
    ensures { IfOk result (λ text. text ≡ content_type_of head.now) }
{
    if head.is_empty() || head.starts_with(";") {
        let text = format!(in alloc; "text/plain{head}")?;
        Ok(text.into())
    } else {
        Text::from_str(alloc, head)
    }
}

// The fault of what holds nothing that can be read.
fn unreadable(alloc: Global) -> Result<Fault, AllocError>
    ensures { IfOk result (λ fault. fault ≡ unreadable) }
{
    let class = Text::from_str(alloc, "Error")?;
    let message = Text::from_str(alloc, "Unable to decode data url.")?;
    Ok(Fault { class, message })
}
