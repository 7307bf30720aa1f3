// The files of the registry JSR, as they are kept: their URLs and their texts.
ghost use Rattle.std.specs.Prelude.{◌≡◌, IfOk, string_bytes};
ghost use Rattle.serde_json.specs.View.{view};
ghost use Rattle.registry_urls.specs.Default.{default_registry};
ghost use Rattle.registry_urls.specs.Registry.{url_in};
ghost use Rattle.memory_loader.specs.RegistryFiles.{IsWritten, package_url, version_url};

use registry_urls::default_jsr_url;
use serde_json::Value;
use spec_base::ModuleSpecifier;
use std::alloc::{AllocError, Global};

// The URL of a text in the folder of the registry. Each such text has one, so that the only refusal is want of memory, as it
// is for a text of 4 GB and more.
fn url_in_registry(alloc: Global, path: &str) -> Result<ModuleSpecifier, AllocError>
    ensures { IfOk result (λ url. url ≡ url_in default_registry path.now) }
{
    let registry = default_jsr_url(alloc)?;
    let folder = registry.as_str();
    let text = format!(in alloc; "{folder}{path}")?;
    match ModuleSpecifier::parse(alloc, text.as_str()) {
        Ok(url) => Ok(url),
        Err(_) => Err(AllocError),
    }
}

/// The URL of the file of a package. The only refusal is want of memory.
pub(crate) fn package_url(alloc: Global, name: &str) -> Result<ModuleSpecifier, AllocError>
    ensures { IfOk result (λ url. url ≡ package_url name.now) }
{
    let path = format!(in alloc; "{name}/meta.json")?;
    url_in_registry(alloc, path.as_str())
}

/// The URL of the file of a version, by its text. The only refusal is want of memory.
pub(crate) fn version_url(
    alloc: Global,
    name: &str,
    version: &str,
) -> Result<ModuleSpecifier, AllocError>
    ensures { IfOk result (λ url. url ≡ version_url name.now version.now) }
{
    let path = format!(in alloc; "{name}/{version}_meta.json")?;
    url_in_registry(alloc, path.as_str())
}

/// The text of a JSON value. The only refusal is want of memory.
pub(crate) fn written(alloc: Global, value: &Value) -> Result<String, AllocError>
    ensures { IfOk result (λ text. IsWritten (view value.now) (string_bytes text)) }
{
    value.to_string(alloc)
}
