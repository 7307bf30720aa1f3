// From bytes to a module's text, and back.
ghost use Rattle.std.specs.Prelude.{◌≡◌, ℕ, ◌++◌, ◌∷◌, Bool, true, false, None, Some, OnSome, IfSome, IfOk, MatchOption, MatchResult, option_map, string_bytes};
ghost use Rattle.std.specs.Str.{is_utf8};
ghost use Rattle.spec_base.specs.Refusal.{Answers};
ghost use Rattle.media_types.specs.Media.{lower};
ghost use Rattle.media_types.specs.Decode.{decode_fault_text};
ghost use Rattle.media_types.specs.Decode.{charset_of, as_text, decoded_utf8, unit, units, text_of_units, without_mark, decoded_units, decoded, detected, label_of_marks, original_bytes};

use spec_base::{Refusal, Text};
use std::alloc::{AllocError, Global};
use std::fmt;
use url::Url;

/// How bytes became a text: they are the text's UTF-8, or are it behind a byte order mark
/// (`OnlyUtf8Bom`), or were another encoding's.
#[derive(Clone, Copy, PartialEq, Eq, Debug)]
pub enum DecodedKind {
    Unchanged,
    Changed,
    OnlyUtf8Bom,
}

/// Why bytes have no text: their charset isn't known, or they aren't of it.
#[derive(Clone, PartialEq, Eq, Debug, Drop)]
pub enum DecodeFault {
    UnsupportedCharset { label: Text },
    InvalidData,
}

impl DecodeFault {
    /// A copy.
    pub fn try_clone(&self) -> Result<DecodeFault, AllocError>
        ensures { IfOk result (λ e. e ≡ self.now) }
    {
        self.clone()
    }
}

impl fmt::Display for DecodeFault {
    ghost output = { λ e. Some (decode_fault_text e) };

    fn fmt<W: fmt::Write>(&self, f: &mut fmt::Formatter<W>) -> fmt::Result {
        match self {
            DecodeFault::UnsupportedCharset { label } => write!(f, "Unsupported charset: {label}"),
            DecodeFault::InvalidData => f.write_str("invalid data"),
        }
    }
}

/// A module's text, and how it came from bytes.
#[derive(Clone, PartialEq, Eq, Debug, Drop)]
pub struct ModuleTextSource {
    pub text: Text,
    pub decoded_kind: DecodedKind,
}

#[derive(Clone, Copy, PartialEq, Eq, Debug)]
enum Charset {
    Utf8,
    Utf16Le,
    Utf16Be,
}

fn charset_named(label: &str) -> Option<Charset>
    ensures { result ≡ charset_of (lower label.now) }
{
    if label.eq_ignore_ascii_case("utf-8") || label.eq_ignore_ascii_case("utf8") {
        Some(Charset::Utf8)
    } else if label.eq_ignore_ascii_case("utf-16le") || label.eq_ignore_ascii_case("utf-16") {
        Some(Charset::Utf16Le)
    } else if label.eq_ignore_ascii_case("utf-16be") {
        Some(Charset::Utf16Be)
    } else {
        None
    }
}

// The bytes as a text, where they are one.
#[tactic(auto, using(crate::proofs::DecodeLemmas::no_text, crate::proofs::DecodeLemmas::some_text))]
fn text_in(bytes: &[u8]) -> Option<&str>
    ensures { MatchOption result (is_utf8 bytes.now ≡ false)
        (λ s. (s.now ≡ bytes.now) × (is_utf8 bytes.now ≡ true)) }
{
    match std::str::from_utf8(bytes) {
        Ok(text) => Some(text),
        Err(_) => None,
    }
}

// The bytes as a `String`, where they are a text.
fn string_of(bytes: Vec<u8>) -> Option<String>
    ensures { MatchOption result (is_utf8 bytes.items ≡ false)
        (λ s. (string_bytes s ≡ bytes.items) × (is_utf8 bytes.items ≡ true)) }
{
    if text_in(bytes.as_slice()).is_none() {
        return None;
    }
    match String::from_utf8(bytes) {
        Ok(text) => Some(text),
        Err(_) => None,
    }
}

fn decode_utf8(alloc: Global, bytes: Vec<u8>) -> Result<ModuleTextSource, Refusal<DecodeFault>>
    ensures { Answers result (decoded_utf8 bytes.items) }
{
    if bytes.starts_with(&[0xEF, 0xBB, 0xBF]) {
        match text_in(&bytes[3..]) {
            Some(text) => {
                let text = Text::from_str(alloc, text)?;
                Ok(ModuleTextSource {
                    text,
                    decoded_kind: DecodedKind::OnlyUtf8Bom,
                })
            }
            None => Err(Refusal::Is(DecodeFault::InvalidData)),
        }
    } else {
        match string_of(bytes) {
            Some(text) => Ok(ModuleTextSource {
                text: text.into(),
                decoded_kind: DecodedKind::Unchanged,
            }),
            None => Err(Refusal::Is(DecodeFault::InvalidData)),
        }
    }
}

fn unit_of(little: bool, a: u8, b: u8) -> u16
    ensures { result ≡ unit little a b }
{
    if little {
        a as u16 + 256 * (b as u16)
    } else {
        256 * (a as u16) + b as u16
    }
}

fn units_of(alloc: Global, little: bool, bytes: &[u8]) -> Result<Option<Vec<u16>>, AllocError>
    ensures { IfOk result (λ o. option_map (λ v. v.items) o ≡ units little bytes.now) }
{
    let mut done = Vec::new(alloc);
    let mut left = bytes;
    while let [a, b, rest @ ..] = left {
        done.push(unit_of(little, *a, *b))?;
        left = rest;
    }
    if left.is_empty() {
        Ok(Some(done))
    } else {
        Ok(None)
    }
}

fn skip_mark(units: &[u16]) -> &[u16]
    ensures { result.now ≡ without_mark units.now }
{
    match units {
        [0xFEFF, rest @ ..] => rest,
        _ => units,
    }
}

fn decode_units(alloc: Global, units: &[u16]) -> Result<ModuleTextSource, Refusal<DecodeFault>>
    ensures { Answers result (text_of_units units.now) }
{
    match String::from_utf16(alloc, units)? {
        Ok(text) => Ok(ModuleTextSource {
            text: text.into(),
            decoded_kind: DecodedKind::Changed,
        }),
        Err(_) => Err(Refusal::Is(DecodeFault::InvalidData)),
    }
}

fn decode_utf16(
    alloc: Global,
    little: bool,
    bytes: &[u8],
) -> Result<ModuleTextSource, Refusal<DecodeFault>>
    ensures { Answers result (decoded_units (units little bytes.now)) }
{
    match units_of(alloc, little, bytes)? {
        None => Err(Refusal::Is(DecodeFault::InvalidData)),
        Some(units) => decode_units(alloc, skip_mark(units.as_slice())),
    }
}

/// The text of bytes in the charset that a label names.
///
/// Labels, without regard to ASCII case: `utf-8` and `utf8`, `utf-16le` and `utf-16` (little-endian), and
/// `utf-16be`. UTF-8 is RFC 3629, UTF-16 RFC 2781. A byte order mark in front isn't part of the text: in
/// UTF-8 the kind tells of it (`OnlyUtf8Bom`, else `Unchanged`), and UTF-16 is always `Changed`.
///
/// Any other label is refused as `UnsupportedCharset` with the label as given. Bytes that aren't UTF-8, an
/// odd number of bytes of UTF-16, and a surrogate without its other half are `InvalidData`.
pub fn decode(
    alloc: Global,
    charset: &str,
    bytes: Vec<u8>,
) -> Result<ModuleTextSource, Refusal<DecodeFault>>
    ensures { Answers result (decoded charset.now bytes.items) }
{
    match charset_named(charset) {
        None => {
            let label = Text::from_str(alloc, charset)?;
            Err(Refusal::Is(DecodeFault::UnsupportedCharset { label }))
        }
        Some(Charset::Utf8) => decode_utf8(alloc, bytes),
        Some(Charset::Utf16Le) => decode_utf16(alloc, true, bytes.as_slice()),
        Some(Charset::Utf16Be) => decode_utf16(alloc, false, bytes.as_slice()),
    }
}

/// The label of the charset of a source: of a `file:` URL's bytes by their byte order mark, `utf-16be` after
/// `FE FF` and `utf-16le` after `FF FE`; in any other case `utf-8`.
pub fn detect_charset(specifier: &Url, bytes: &[u8]) -> &'static str
    ensures { result.now ≡ detected specifier.now bytes.now }
{
    if specifier.scheme() != "file" {
        "utf-8"
    } else if bytes.starts_with(&[0xFE, 0xFF]) {
        "utf-16be"
    } else if bytes.starts_with(&[0xFF, 0xFE]) {
        "utf-16le"
    } else {
        "utf-8"
    }
}

impl ModuleTextSource {
    /// A copy.
    pub fn try_clone(&self) -> Result<ModuleTextSource, AllocError>
        ensures { IfOk result (λ s. s ≡ self.now) }
    {
        self.clone()
    }

    /// A text whose bytes aren't known: it counts as changed.
    pub fn new_unknown(text: String) -> ModuleTextSource
        ensures { result ≡ record { text = string_bytes text; decoded_kind = DecodedKind.Changed } }
    {
        ModuleTextSource {
            text: text.into(),
            decoded_kind: DecodedKind::Changed,
        }
    }

    /// The bytes that the text was decoded from, a UTF-8 byte order mark in front included; None exactly
    /// where the text counts as changed, since its bytes can't be told.
    pub fn try_get_original_bytes(&self, alloc: Global) -> Result<Option<Vec<u8>>, AllocError>
        ensures { IfOk result (λ o. option_map (λ v. v.items) o ≡ original_bytes self.now) }
    {
        let mut bytes = Vec::new(alloc);
        match self.decoded_kind {
            DecodedKind::Changed => return Ok(None),
            DecodedKind::Unchanged => {}
            DecodedKind::OnlyUtf8Bom => bytes.extend_from_slice(&[0xEF, 0xBB, 0xBF])?,
        }
        bytes.extend_from_slice(self.text.as_str().as_bytes())?;
        Ok(Some(bytes))
    }
}
