// Where the modules of a generated world are.
ghost use Rattle.std.specs.Prelude.{◌≡◌, IfOk, None, Ok};
ghost use Rattle.url.specs.Parser.{parse_url};
ghost use Rattle.url.specs.Parts.{Parts};
ghost use Rattle.generated_world.specs.Modules.{import_text, is_renamed, module_url, name_of, renamed_url};

use spec_base::{ModuleSpecifier, Text};
use std::alloc::{AllocError, Global};
use url::Url;

// The URL with a text, which is one.
fn url_of(alloc: Global, text: &str) -> Result<ModuleSpecifier, AllocError>
    ensures { (url : Parts) → parse_url None text.now ≡ Ok url → IfOk result (λ found. found ≡ url) }
{
    match Url::parse(alloc, text) {
        Ok(url) => Ok(url),
        Err(_) => Err(AllocError),
    }
}

/// The text by which a module imports that of a number.
pub fn import_text(alloc: Global, number: u32) -> Result<Text, AllocError>
    ensures { IfOk result (λ text. text ≡ import_text number) }
{
    let text = format!(in alloc; "./{number}.js")?;
    Text::from_str(alloc, text.as_str())
}

/// Where the module of a number is asked for.
pub fn module_url(alloc: Global, number: u32) -> Result<ModuleSpecifier, AllocError>
    ensures { IfOk result (λ url. url ≡ module_url number) }
{
    let text = format!(in alloc; "file:///m/{number}.js")?;
    url_of(alloc, text.as_str())
}

/// Where the module of a number is, if it is redirected to.
pub fn renamed_url(alloc: Global, number: u32) -> Result<ModuleSpecifier, AllocError>
    ensures { IfOk result (λ url. url ≡ renamed_url number) }
{
    let text = format!(in alloc; "file:///m/r{number}.js")?;
    url_of(alloc, text.as_str())
}

/// Whether the module of a number is redirected to.
pub fn is_renamed(number: u32) -> bool
    ensures { result ≡ is_renamed number }
{
    number % 7 == 3
}

/// The name of the module of a number.
pub fn name_of(alloc: Global, number: u32) -> Result<ModuleSpecifier, AllocError>
    ensures { IfOk result (λ url. url ≡ name_of number) }
{
    if is_renamed(number) {
        renamed_url(alloc, number)
    } else {
        module_url(alloc, number)
    }
}
