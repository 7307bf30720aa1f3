// Content types: the media and the charset that they tell.
ghost use Rattle.std.specs.Prelude.{◌≡◌, ◌<◌, bytes_eq, length, MatchOption, option_copied};
ghost use Rattle.std.specs.List.{position_or_len, after_first};
ghost use Rattle.std.specs.Map.{lookup};
ghost use Rattle.media_types.specs.Decode.{source_charset};
ghost use Rattle.media_types.specs.ContentType.{is_semicolon, first_piece, charset_in, charset_after, media_by, charset_by, content_type_in};

use crate::decoding::detect_charset;
use crate::media::MediaType;
use spec_base::{SortedTexts, Text};
use url::Url;

/// The headers of an HTTP answer (RFC 9110): their values by their names in ASCII lower case.
pub type Headers = SortedTexts<Text>;

// The text up to the first `;`.
fn first_piece_of(text: &str) -> &str
    ensures { result.now ≡ first_piece text.now }
{
    match text.split_once(';') {
        Some((piece, _)) => piece,
        None => text,
    }
}

// What stands after `charset=`.
fn charset_in_piece(piece: &str) -> Option<&str>
    ensures { option_copied result ≡ charset_in piece.now }
{
    if piece.starts_with("charset=") {
        Some(&piece[8..])
    } else {
        None
    }
}

// What stands after the first `;`.
fn rest_of(text: &str) -> Option<&str>
    ensures { MatchOption result (position_or_len is_semicolon text.now ≡ length text.now)
        (λ rest. (rest.now ≡ after_first is_semicolon text.now)
        × (position_or_len is_semicolon text.now < length text.now)) }
{
    match text.split_once(';') {
        Some((_, rest)) => Some(rest),
        None => None,
    }
}

#[tactic(auto, using(crate::proofs::ContentTypeLemmas::charset_step, crate::proofs::ContentTypeLemmas::charset_none))]
fn charset_of(text: &str) -> Option<&str>
    ensures { option_copied result ≡ charset_after text.now }
{
    let mut left = text;
    while let Some(rest) = rest_of(left) {
        if let Some(charset) = charset_in_piece(first_piece_of(rest).trim()) {
            return Some(charset);
        }
        left = rest;
    }
    None
}

/// The media and the charset that a content type (RFC 9110) tells of a specifier.
///
/// The text is split at `;`. The media is that of the first piece, see `MediaType::from_content_type`. The
/// charset is what stands after `charset=` in the first later piece that begins so, white space around it
/// aside; it is None where there is no such piece. Without a text the media is the specifier's and the
/// charset None.
pub fn resolve_media_type_and_charset_from_content_type<'a>(
    specifier: &Url,
    maybe_content_type: Option<&'a str>,
) -> (MediaType, Option<&'a str>)
    ensures media { result.0 ≡ media_by specifier.now (option_copied maybe_content_type.entry) }
    ensures charset { option_copied result.1 ≡ charset_by (option_copied maybe_content_type.entry) }
{
    match maybe_content_type {
        None => (MediaType::from_specifier(specifier), None),
        Some(text) => (
            MediaType::from_content_type(specifier, first_piece_of(text)),
            charset_of(text),
        ),
    }
}

/// The media and the charset that the header `content-type` tells of a specifier, as
/// `resolve_media_type_and_charset_from_content_type` reads it; without headers, or where they lack that
/// name, the specifier's media and None.
pub fn resolve_media_type_and_charset_from_headers<'a>(
    specifier: &Url,
    maybe_headers: Option<&'a Headers>,
) -> (MediaType, Option<&'a str>)
    ensures media { result.0
        ≡ media_by specifier.now (content_type_in (option_copied maybe_headers.entry)) }
    ensures charset { option_copied result.1
        ≡ charset_by (content_type_in (option_copied maybe_headers.entry)) }
{
    match maybe_headers {
        None => resolve_media_type_and_charset_from_content_type(specifier, None),
        Some(headers) => {
            let content_type = text_at(headers, "content-type");
            resolve_media_type_and_charset_from_content_type(specifier, content_type)
        }
    }
}

/// The label of the charset of a source: the one that its header `content-type` tells, else the one that its bytes tell, as
/// `detect_charset` reads them.
pub fn source_charset<'a>(
    specifier: &Url,
    maybe_headers: Option<&'a Headers>,
    content: &[u8],
) -> &'a str
    ensures { result.now
        ≡ source_charset specifier.now (option_copied maybe_headers.entry) content.now }
{
    let (_, charset) = resolve_media_type_and_charset_from_headers(specifier, maybe_headers);
    match charset {
        Some(label) => label,
        None => detect_charset(specifier, content),
    }
}

// The text at a name.
fn text_at<'a>(headers: &'a Headers, name: &str) -> Option<&'a str>
    ensures { option_copied result ≡ lookup (bytes_eq name.now) headers.now }
{
    match headers.get(name) {
        None => None,
        Some(text) => Some(text.as_str()),
    }
}
