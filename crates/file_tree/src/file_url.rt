// The `file:` URLs of paths, and the paths of `file:` URLs.
ghost use Rattle.std.specs.Prelude.{◌≡◌, ◌-◌, ◌≤◌, length, None, Some, IfOk};
ghost use Rattle.std.specs.List.{suffix_len};
ghost use Rattle.std.specs.Result.{result_ok};
ghost use Rattle.percent_encoding.specs.Percent.{percent_decode};
ghost use Rattle.url.specs.Parser.{parse_url};
ghost use Rattle.spec_base.specs.Position.{is_slash, without_trailing};
ghost use Rattle.file_tree.specs.Template.{text_of_bytes, directory_of, file_url};

use percent_encoding::{AsciiSet, CONTROLS, ascii_set, percent_decode, percent_encode};
use spec_base::{Text, is_fs_root_specifier};
use std::alloc::{AllocError, Global};
use std::str;
use url::{ParseError, Url};

/// What is escaped in the path of a `file:` URL: the path percent-encode set (WHATWG URL Standard), and the
/// bytes that would read as an escape or as the end of a name.
pub const ESCAPED: AsciiSet = ascii_set!(
    CONTROLS
        .add(b' ')
        .add(b'"')
        .add(b'<')
        .add(b'>')
        .add(b'`')
        .add(b'#')
        .add(b'?')
        .add(b'^')
        .add(b'{')
        .add(b'}')
        .add(b'%')
        .add(b'\\')
);

/// The URL of a text; None where the text is refused. The only refusal is want of memory.
pub(crate) fn parsed(alloc: Global, text: &str) -> Result<Option<Url>, AllocError>
    ensures { IfOk result (λ url. url ≡ result_ok (parse_url None text.now)) }
{
    match Url::parse(alloc, text) {
        Ok(url) => Ok(Some(url)),
        Err(ParseError::OutOfMemory | ParseError::Overflow) => Err(AllocError),
        Err(_) => Ok(None),
    }
}

/// The URL of a text against another; None where the text is refused. The only refusal is want of memory.
pub(crate) fn joined(base: &Url, text: &str) -> Result<Option<Url>, AllocError>
    ensures { IfOk result (λ url. url ≡ result_ok (parse_url (Some base.now) text.now)) }
{
    match base.join(text) {
        Ok(url) => Ok(Some(url)),
        Err(ParseError::OutOfMemory | ParseError::Overflow) => Err(AllocError),
        Err(_) => Ok(None),
    }
}

/// The `file:` URL of a path; None where there is none. The only refusal is want of memory.
#[tactic(auto, unfolding(crate::specs::Template::file_url))]
pub(crate) fn file_url(alloc: Global, path: &str) -> Result<Option<Url>, AllocError>
    ensures { IfOk result (λ url. url ≡ file_url path.now) }
{
    let mut text = String::from_str(alloc, "file://")?;
    percent_encode(path.as_bytes(), ESCAPED).append_to(&mut text)?;
    parsed(alloc, text.as_str())
}

/// The path of the directory that a `file:` URL names; None where it names the root of a file system or of a
/// drive, where it has a host, and where its path isn't a text. The only refusal is want of memory.
#[tactic(auto, unfolding(crate::specs::Template::directory_of))]
pub(crate) fn directory_of(alloc: Global, url: &Url) -> Result<Option<Text>, AllocError>
    ensures { IfOk result (λ path. path ≡ directory_of url.now) }
{
    if url.scheme() != "file" || url.has_host() || is_fs_root_specifier(url) {
        return Ok(None);
    }
    decoded(alloc, without_trailing_slashes(url.path().as_bytes()))
}

// The path without its escapes; None where it isn't a text.
fn decoded(alloc: Global, path: &[u8]) -> Result<Option<Text>, AllocError>
    ensures { IfOk result (λ text. text ≡ text_of_bytes (percent_decode path.now)) }
{
    let mut bytes = Vec::new(alloc);
    percent_decode(path).append_to(&mut bytes)?;
    text_of_bytes(alloc, &bytes)
}

fn text_of_bytes(alloc: Global, bytes: &[u8]) -> Result<Option<Text>, AllocError>
    ensures { IfOk result (λ text. text ≡ text_of_bytes bytes.now) }
{
    match str::from_utf8(bytes) {
        Ok(text) => Ok(Some(Text::from_str(alloc, text)?)),
        Err(_) => Ok(None),
    }
}

fn without_trailing_slashes(path: &[u8]) -> &[u8]
    ensures { result.now ≡ without_trailing path.now }
{
    &path[..start_of_slashes(path)]
}

// Where the slashes at the end begin.
#[tactic(auto, using(crate::proofs::FormLemmas::start_is))]
fn start_of_slashes(path: &[u8]) -> usize
    ensures value { result ≡ length path.now - suffix_len is_slash path.now }
    ensures within { result ≤ length path.now }
{
    let mut start = path.len();
    while start > 0 && path[start - 1] == b'/' {
        start -= 1;
    }
    start
}
