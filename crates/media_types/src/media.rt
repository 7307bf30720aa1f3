// The media types of modules: by their names, by content types, and their own names.
ghost use Rattle.std.specs.Prelude.{Some, ◌≡◌, ◌==◌, ◌||◌, ◌-◌, ◌<◌, ◌≤◌, slice_index, true, not, length, nat_eq, bytes_eq};
ghost use Rattle.std.specs.List.{suffix_len, ends_with, position_or_len};
ghost use Rattle.media_types.specs.Media.{ends_type, lower, last_segment, extension, media_of_extension, media_of_name, is_script, is_declaration, is_jsx, is_typed, script_or, json_of, is_among, typescript_types, javascript_types, media_of_type, is_data, data_type, own_media, media_by_type, media_of_specifier, media_name};

use std::fmt;
use url::Url;

/// What a module's content is, as names and content types tell.
#[derive(Clone, Copy, PartialEq, Eq, PartialOrd, Ord, Hash, Debug)]
pub enum MediaType {
    JavaScript,
    Jsx,
    Mjs,
    Cjs,
    TypeScript,
    Mts,
    Cts,
    Dts,
    Dmts,
    Dcts,
    Tsx,
    Css,
    Json,
    Jsonc,
    Json5,
    Markdown,
    Html,
    Sql,
    Wasm,
    SourceMap,
    Unknown,
}

// Where what stands after the last such byte begins: at 0 where there is none.
fn start_after_last(bytes: &[u8], byte: u8) -> usize
    ensures { result ≡ length bytes.now - suffix_len (λ b. not (b == byte)) bytes.now }
{
    let mut start = bytes.len();
    while start > 0 && bytes[start - 1] != byte {
        start -= 1;
    }
    start
}

fn last_segment_of(path: &[u8]) -> &[u8]
    ensures { result.now ≡ last_segment path.now }
{
    &path[start_after_last(path, b'/')..]
}

fn is_text(bytes: &[u8], text: &[u8]) -> bool
    ensures { result ≡ bytes_eq (lower bytes.now) (lower text.now) }
{
    bytes.eq_ignore_ascii_case(text)
}

fn ends_with_text(bytes: &[u8], text: &[u8]) -> bool
    ensures { result ≡ ends_with nat_eq (lower bytes.now) (lower text.now) }
{
    if bytes.len() < text.len() {
        return false;
    }
    is_text(text, &bytes[bytes.len() - text.len()..])
}

fn extension_of(name: &[u8]) -> &[u8]
    ensures { result.now ≡ extension name.now }
{
    let start = start_after_last(name, b'.');
    if start > 1 { &name[start..] } else { &[] }
}

#[tactic(auto, unfolding(crate::specs::Media::media_of_extension))]
fn of_extension(ext: &[u8]) -> MediaType
    ensures { result ≡ media_of_extension (lower ext.now) }
{
    if is_text(ext, b"js") {
        MediaType::JavaScript
    } else if is_text(ext, b"jsx") {
        MediaType::Jsx
    } else if is_text(ext, b"mjs") {
        MediaType::Mjs
    } else if is_text(ext, b"cjs") {
        MediaType::Cjs
    } else if is_text(ext, b"ts") {
        MediaType::TypeScript
    } else if is_text(ext, b"mts") {
        MediaType::Mts
    } else if is_text(ext, b"cts") {
        MediaType::Cts
    } else if is_text(ext, b"tsx") {
        MediaType::Tsx
    } else if is_text(ext, b"css") {
        MediaType::Css
    } else if is_text(ext, b"json") {
        MediaType::Json
    } else if is_text(ext, b"jsonc") {
        MediaType::Jsonc
    } else if is_text(ext, b"json5") {
        MediaType::Json5
    } else if is_text(ext, b"md") {
        MediaType::Markdown
    } else if is_text(ext, b"markdown") {
        MediaType::Markdown
    } else if is_text(ext, b"html") {
        MediaType::Html
    } else if is_text(ext, b"htm") {
        MediaType::Html
    } else if is_text(ext, b"sql") {
        MediaType::Sql
    } else if is_text(ext, b"wasm") {
        MediaType::Wasm
    } else if is_text(ext, b"map") {
        MediaType::SourceMap
    } else {
        MediaType::Unknown
    }
}

#[tactic(auto, unfolding(crate::specs::Media::media_of_name))]
fn of_name(name: &[u8]) -> MediaType
    ensures { result ≡ media_of_name name.now }
{
    if ends_with_text(name, b".d.ts") {
        MediaType::Dts
    } else if ends_with_text(name, b".d.mts") {
        MediaType::Dmts
    } else if ends_with_text(name, b".d.cts") {
        MediaType::Dcts
    } else {
        of_extension(extension_of(name))
    }
}

impl MediaType {
    /// The name of the media, which is also its printed text: that of the variant, but `JSX` and `TSX`.
    pub fn name(&self) -> &'static str
        ensures { result.now ≡ media_name self.now }
    {
        match self {
            MediaType::JavaScript => "JavaScript",
            MediaType::Jsx => "JSX",
            MediaType::Mjs => "Mjs",
            MediaType::Cjs => "Cjs",
            MediaType::TypeScript => "TypeScript",
            MediaType::Mts => "Mts",
            MediaType::Cts => "Cts",
            MediaType::Dts => "Dts",
            MediaType::Dmts => "Dmts",
            MediaType::Dcts => "Dcts",
            MediaType::Tsx => "TSX",
            MediaType::Css => "Css",
            MediaType::Json => "Json",
            MediaType::Jsonc => "Jsonc",
            MediaType::Json5 => "Json5",
            MediaType::Markdown => "Markdown",
            MediaType::Html => "Html",
            MediaType::Sql => "Sql",
            MediaType::Wasm => "Wasm",
            MediaType::SourceMap => "SourceMap",
            MediaType::Unknown => "Unknown",
        }
    }

    /// Whether the media is one of the eleven of JavaScript and TypeScript.
    pub fn is_script(&self) -> bool
        ensures { result ≡ is_script self.now }
    {
        matches!(
            self,
            MediaType::JavaScript
                | MediaType::Jsx
                | MediaType::Mjs
                | MediaType::Cjs
                | MediaType::TypeScript
                | MediaType::Mts
                | MediaType::Cts
                | MediaType::Dts
                | MediaType::Dmts
                | MediaType::Dcts
                | MediaType::Tsx
        )
    }

    /// Whether the media is a declaration file's, which tells types alone: Dts, Dmts and Dcts.
    pub fn is_declaration(&self) -> bool
        ensures { result ≡ is_declaration self.now }
    {
        matches!(self, MediaType::Dts | MediaType::Dmts | MediaType::Dcts)
    }

    /// Whether the media has JSX syntax: Jsx and Tsx.
    pub fn is_jsx(&self) -> bool
        ensures { result ≡ is_jsx self.now }
    {
        matches!(self, MediaType::Jsx | MediaType::Tsx)
    }

    /// Whether the media is TypeScript in any of its forms: TypeScript, Mts, Cts, Tsx and the three
    /// declaration media.
    pub fn is_typed(&self) -> bool
        ensures { result ≡ is_typed self.now }
    {
        matches!(
            self,
            MediaType::TypeScript
                | MediaType::Mts
                | MediaType::Cts
                | MediaType::Dts
                | MediaType::Dmts
                | MediaType::Dcts
                | MediaType::Tsx
        )
    }

    /// The media of a specifier: that of a `data:` URL by its content type (RFC 2397), which ends at the
    /// first `;` or `,`, and else by the ending of the last segment of its path, without regard to ASCII
    /// case. What no rule names is `Unknown`.
    pub fn from_specifier(specifier: &Url) -> MediaType
        ensures { result ≡ media_of_specifier specifier.now }
    {
        if is_data_url(specifier) {
            MediaType::from_content_type(specifier, data_type_of(specifier))
        } else {
            own_media_of(specifier)
        }
    }

    /// The media by a content type (the essence of a MIME type, WHATWG MIME Sniffing), without regard to
    /// white space around it and to ASCII case. The types of scripts, of JSON and of plain content leave the
    /// specifier a say, which a `data:` URL has not. What no rule names is `Unknown`.
    pub fn from_content_type(specifier: &Url, content_type: &str) -> MediaType
        ensures { result ≡ media_by_type specifier.now content_type.now }
    {
        of_type(own_media_of(specifier), content_type.trim().as_bytes())
    }
}

fn is_data_url(specifier: &Url) -> bool
    ensures { result ≡ is_data specifier.now }
{
    specifier.scheme() == "data"
}

fn data_type_of(specifier: &Url) -> &str
    requires { is_data specifier.now ≡ true }
    ensures { result.now ≡ data_type specifier.now }
{
    let text = &specifier.as_str()[5..];
    &text[..type_len(text.as_bytes())]
}

// Where the first `;` or `,` is, or the length.
#[tactic(auto, using(crate::proofs::MediaLemmas::first_is))]
fn type_len(text: &[u8]) -> usize
    ensures value { result ≡ position_or_len ends_type text.now }
    ensures within { result ≤ length text.now }
    ensures ascii { result < length text.now → slice_index text.now result < 128 }
{
    for (i, b) in text.iter().enumerate() {
        if *b == b';' || *b == b',' {
            return i;
        }
    }
    text.len()
}

fn own_media_of(specifier: &Url) -> MediaType
    ensures { result ≡ own_media specifier.now }
{
    if is_data_url(specifier) {
        MediaType::Unknown
    } else {
        of_name(last_segment_of(specifier.path().as_bytes()))
    }
}

fn script_or(media: MediaType, other: MediaType) -> MediaType
    ensures { result ≡ script_or media other }
{
    match media {
        MediaType::JavaScript | MediaType::TypeScript => other,
        _ => { if media.is_script() { media } else { other } }
    }
}

fn json_of(media: MediaType) -> MediaType
    ensures { result ≡ json_of media }
{
    match media {
        MediaType::Jsonc | MediaType::Json5 => media,
        _ => MediaType::Json,
    }
}

fn is_typescript_type(name: &[u8]) -> bool
    ensures { result ≡ is_among (lower name.now) typescript_types }
{
    is_text(name, b"application/typescript")
        || is_text(name, b"text/typescript")
        || is_text(name, b"application/x-typescript")
        || is_text(name, b"video/mp2t")
        || is_text(name, b"video/vnd.dlna.mpeg-tts")
}

fn is_javascript_type(name: &[u8]) -> bool
    ensures { result ≡ is_among (lower name.now) javascript_types }
{
    is_text(name, b"application/javascript")
        || is_text(name, b"text/javascript")
        || is_text(name, b"application/ecmascript")
        || is_text(name, b"text/ecmascript")
        || is_text(name, b"application/x-javascript")
        || is_text(name, b"application/node")
}

#[tactic(auto, unfolding(crate::specs::Media::media_of_type))]
fn of_type(own: MediaType, name: &[u8]) -> MediaType
    ensures { result ≡ media_of_type own (lower name.now) }
{
    if is_typescript_type(name) {
        script_or(own, MediaType::TypeScript)
    } else if is_javascript_type(name) {
        script_or(own, MediaType::JavaScript)
    } else if is_text(name, b"text/jsx") {
        MediaType::Jsx
    } else if is_text(name, b"text/tsx") {
        MediaType::Tsx
    } else if is_text(name, b"text/css") {
        MediaType::Css
    } else if is_text(name, b"text/html") {
        MediaType::Html
    } else if is_text(name, b"text/markdown") {
        MediaType::Markdown
    } else if is_text(name, b"application/sql") {
        MediaType::Sql
    } else if is_text(name, b"application/wasm") {
        MediaType::Wasm
    } else if is_text(name, b"application/json") || is_text(name, b"text/json") {
        json_of(own)
    } else if is_text(name, b"text/plain") || is_text(name, b"application/octet-stream") {
        own
    } else {
        MediaType::Unknown
    }
}

impl fmt::Display for MediaType {
    ghost output = { λ media. Some (media_name media) };

    fn fmt<W: fmt::Write>(&self, f: &mut fmt::Formatter<W>) -> fmt::Result {
        f.write_str(self.name())
    }
}
