// Where the packages of a registry are.
ghost use Rattle.std.specs.Prelude.{◌≡◌, IfOk, IsTrue, codes};
ghost use Rattle.url.specs.Parts.{serialize};
ghost use Rattle.registry_urls.specs.Default.{default_registry};
ghost use Rattle.registry_urls.specs.Meaning.{RegistryMeaning, registry_at};
ghost use Rattle.registry_urls.specs.Registry.{is_web};

use crate::names::recommended_registry_package_url_to_nv;
use crate::package_urls::recommended_registry_package_url;
use semver_npm::PackageNv;
use std::alloc::{AllocError, Global};
use url::Url;

/// Where the packages of a registry are. An impl may call `recommended_registry_package_url` and
/// `recommended_registry_package_url_to_nv` for its last two calls.
pub trait JsrUrlProvider {
    /// The URL of the registry, that of each version of a package, and the version that a URL names.
    ghost meaning: { Self → RegistryMeaning };

    /// The URL of the registry, which is http or https.
    fn url(&self) -> &Url
        ensures { result.now ≡ (meaning self.now).url };

    /// The URL of a version of a package. The only refusal is want of memory.
    fn package_url(&self, alloc: Global, nv: &PackageNv) -> Result<Url, AllocError>
        ensures { IfOk result (λ url. url ≡ (meaning self.now).package_url nv.now) };

    /// The version of a package that a URL names, if any. The only refusal is want of memory.
    fn package_url_to_nv(&self, alloc: Global, url: &Url) -> Result<Option<PackageNv>, AllocError>
        ensures { IfOk result (λ nv. nv ≡ (meaning self.now).nv_of url.now) };

    /// The registry's URL is http or https.
    ghost web: { (provider : Self) → IsTrue (is_web (meaning provider).url) };
}

/// The URL of the registry JSR, `https://jsr.io/`. The only refusal is want of memory.
pub fn default_jsr_url(alloc: Global) -> Result<Url, AllocError>
    ensures value { IfOk result (λ url. url ≡ default_registry) }
    ensures text { serialize default_registry ≡ codes "https://jsr.io/" }
{
    match Url::parse(alloc, "https://jsr.io/") {
        Ok(url) => Ok(url),
        Err(_) => Err(AllocError),
    }
}

/// The provider of a registry whose packages lie where it is recommended.
#[derive(Debug, Drop)]
pub struct DefaultJsrUrlProvider {
    url: Url,
    ghost web: { IsTrue (is_web url) },
}

impl DefaultJsrUrlProvider {
    /// The provider of the registry JSR. The only refusal is want of memory.
    pub fn new(alloc: Global) -> Result<DefaultJsrUrlProvider, AllocError>
        ensures { IfOk result (λ provider. provider.url ≡ default_registry) }
    {
        let url = default_jsr_url(alloc)?;
        Ok(DefaultJsrUrlProvider { url })
    }

    /// The provider of the registry with this URL, which is http or https (`is_web_url`).
    pub fn with_url(url: Url) -> DefaultJsrUrlProvider
        requires { IsTrue (is_web url) }
        ensures { result.url ≡ url }
    {
        DefaultJsrUrlProvider { url }
    }

    /// A copy. The only refusal is want of memory.
    pub fn try_clone(&self) -> Result<DefaultJsrUrlProvider, AllocError>
        ensures { IfOk result (λ provider. provider ≡ self.now) }
    {
        let url = self.url.clone()?;
        Ok(DefaultJsrUrlProvider { url })
    }
}

impl JsrUrlProvider for DefaultJsrUrlProvider {
    ghost meaning = { λ provider. registry_at provider.url };

    ghost web = { λ provider. provider.web };

    fn url(&self) -> &Url {
        &self.url
    }

    fn package_url(&self, alloc: Global, nv: &PackageNv) -> Result<Url, AllocError> {
        recommended_registry_package_url(alloc, &self.url, nv)
    }

    fn package_url_to_nv(&self, alloc: Global, url: &Url) -> Result<Option<PackageNv>, AllocError> {
        recommended_registry_package_url_to_nv(alloc, &self.url, url)
    }
}
