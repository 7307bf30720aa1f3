// Where an export leads.
ghost use Rattle.std.specs.Prelude.{◌≡◌, IfOk};
ghost use Rattle.registry_files.specs.Exports.{joined_export};

use std::alloc::AllocError;
use url::{ParseError, Url};

/// Where an export leads: the text that a version file has for it, joined to the URL of the version (WHATWG URL Standard). None
/// where that is no URL. The only refusal is want of memory.
pub fn join_export(package_url: &Url, value: &str) -> Result<Option<Url>, AllocError>
    ensures { IfOk result (λ url. url ≡ joined_export package_url.now value.now) }
{
    match package_url.join(value) {
        Ok(url) => Ok(Some(url)),
        Err(ParseError::OutOfMemory | ParseError::Overflow) => Err(AllocError),
        Err(_) => Ok(None),
    }
}
