// The URL of a registry, and those of texts in its folder.
ghost use Rattle.std.specs.Prelude.{◌≡◌, ◌-◌, ◌==◌, not, length, IfOk, IsTrue};
ghost use Rattle.std.specs.List.{suffix_len};
ghost use Rattle.registry_urls.specs.Registry.{folder, is_web, url_in};

use std::alloc::{AllocError, Global};
use url::Url;

/// Whether a URL may be that of a registry: it has the scheme http or https.
pub fn is_web_url(url: &Url) -> bool
    ensures { result ≡ is_web url.now }
{
    url.scheme() == "http" || url.scheme() == "https"
}

// Where what stands after the last `/` begins: at 0 where there is none.
fn folder_end(text: &[u8]) -> usize
    ensures { result ≡ length text.now - suffix_len (λ b. not (b == 47)) text.now }
{
    let mut end = text.len();
    while end > 0 && text[end - 1] != b'/' {
        end -= 1;
    }
    end
}

// The text of a registry's URL through its last `/`.
fn folder_of(registry_url: &Url) -> &str
    ensures { result.now ≡ folder registry_url.now }
{
    let text = registry_url.as_str();
    &text[..folder_end(text.as_bytes())]
}

// The URL of a text in the folder of a registry. Each such text has one (`folder_texts_have_urls`), so that the only
// refusal is want of memory, as it is for a text of 4 GB and more.
pub(crate) fn url_in_folder(
    alloc: Global,
    registry_url: &Url,
    path: &str,
) -> Result<Url, AllocError>
    requires { IsTrue (is_web registry_url.now) }
    ensures { IfOk result (λ url. url ≡ url_in registry_url.now path.now) }
{
    let folder = folder_of(registry_url);
    let text = format!(in alloc; "{folder}{path}")?;
    match Url::parse(alloc, text.as_str()) {
        Ok(url) => Ok(url),
        Err(_) => Err(AllocError),
    }
}
