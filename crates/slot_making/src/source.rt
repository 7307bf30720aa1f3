// A source as a loader gives it, with its media type and its text.
ghost use Rattle.std.specs.Prelude.{◌≡◌, option_copied};
ghost use Rattle.spec_base.specs.Refusal.{Answers};
ghost use Rattle.slot_making.specs.Made.{source_media, text_by, types_header};

use media_types::{
    DecodeFault, Headers, MediaType, ModuleTextSource, decode,
    resolve_media_type_and_charset_from_headers, source_charset,
};
use module_info::ModuleInfo;
use spec_base::{Boxed, Bytes, ModuleSpecifier, Refusal};
use std::alloc::Global;

/// Bytes, the specifier that they are named, the headers that came with them, when they were last changed, in
/// milliseconds since 1970, where that is known, and their info, where that is known without reading them.
#[derive(Drop)]
pub struct Source {
    pub name: ModuleSpecifier,
    pub content: Bytes,
    pub headers: Option<Headers>,
    pub mtime: Option<u64>,
    pub info: Option<Boxed<ModuleInfo>>,
}

/// The media type of a source, by its headers or else by its name.
pub(crate) fn source_media(source: &Source) -> MediaType
    ensures { result ≡ source_media source.now }
{
    let (media, _) = resolve_media_type_and_charset_from_headers(
        &source.name,
        source.headers.as_ref(),
    );
    media
}

/// The text of bytes of this name that came with these headers.
pub(crate) fn text_of(
    alloc: Global,
    name: &ModuleSpecifier,
    headers: &Option<Headers>,
    content: Bytes,
) -> Result<ModuleTextSource, Refusal<DecodeFault>>
    ensures { Answers result (text_by name.now headers.now content) }
{
    let charset = source_charset(name, headers.as_ref(), content.as_slice());
    decode(alloc, charset, content.into_vec())
}

/// The header that names the module of a module's types.
pub(crate) fn types_header(headers: &Option<Headers>) -> Option<&str>
    ensures { option_copied result ≡ types_header headers.now }
{
    match headers {
        None => None,
        Some(headers) => match headers.get("x-typescript-types") {
            None => None,
            Some(text) => Some(text.as_str()),
        },
    }
}
