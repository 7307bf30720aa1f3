// The URLs of texts, taken from URLs that are known where they plainly are the same.
//
// A world file names most modules more than once. A text that is the one of a known URL, and that the parser reads back as that URL, needn't
// be parsed: a copy of the URL is what it is.
ghost use Rattle.std.specs.Prelude.{◌≡◌, ◌==◌, slice_index, Some, IfSome, IsTrue};
ghost use Rattle.url.specs.Ascii.{vertical_bar};
ghost use Rattle.url.specs.Parts.{serialize};
ghost use Rattle.spec_base.specs.Refusal.{Reads};
ghost use Rattle.json_forms.specs.Form.{url_of};
ghost use Rattle.world_answers.specs.KnownSpecifiers.{from_key};

use json_forms::{Misfit, read_url};
use spec_base::{ModuleSpecifier, Refusal};
use std::alloc::Global;
use std::cmp::Ordering;

// Whether the third byte of a path is `|`, as that behind the letter of a drive may be.
fn has_bar(path: &[u8]) -> bool
    ensures { result ≡ (slice_index path.now 2 == vertical_bar) }
{
    path.len() > 2 && path[2] == b'|'
}

// Whether the parser plainly reads the URL's text back as this URL. It does so for every URL of the web, and for a file's without a
// host whose path has no `|` where that of a drive letter would stand.
fn is_read_back(url: &ModuleSpecifier) -> bool
    ensures { IsTrue result → url_of (serialize url.now) ≡ Some url.now }
{
    let scheme = url.scheme();
    if scheme == "https" || scheme == "http" {
        return true;
    }
    if scheme != "file" || url.has_host() {
        return false;
    }
    !has_bar(url.path().as_bytes())
}

// Whether a text plainly is that of a URL.
fn is_text_of(text: &str, url: &ModuleSpecifier) -> bool
    ensures { IsTrue result → url_of text.now ≡ Some url.now }
{
    url.as_str() == text && is_read_back(url)
}

/// The URL that a text is, or `Misfit` exactly where it is none: a copy of the known URL where that is plainly the same.
pub fn known_url(
    alloc: Global,
    known: Option<&ModuleSpecifier>,
    text: &str,
) -> Result<ModuleSpecifier, Refusal<Misfit>>
    ensures { Reads result (url_of text.now) }
{
    match known {
        Some(url) if is_text_of(text, url) => Ok(url.clone()?),
        _ => read_url(alloc, text),
    }
}

/// The entries from the first one on whose specifier's text doesn't stand before the key.
pub fn from_key<'a, T>(entries: &'a [(ModuleSpecifier, T)], key: &str) -> &'a [(ModuleSpecifier, T)]
    ensures { result.now ≡ from_key key.now entries.now }
{
    let before = entries
        .iter()
        .take_while(|entry| entry.0.as_str().cmp(key).is_lt())
        .count();
    &entries[before..]
}

/// A key whose text is the one sought, where a search by halves finds one. In keys that rise by their texts it does so wherever one stands.
pub fn key_of<'a>(keys: &'a [ModuleSpecifier], text: &str) -> Option<&'a ModuleSpecifier>
    ensures { IfSome result (λ key. serialize key.now ≡ text.now) }
{
    let found = keys.binary_search_by(|key: &ModuleSpecifier| -> Ordering {
        key.as_str().cmp(text)
    });
    match found {
        Ok(place) => Some(&keys[place]),
        Err(_) => None,
    }
}
