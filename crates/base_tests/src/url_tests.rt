// Providers of the URLs of packages, by their bound and by the one that is the default.
use crate::rows::package_nv;
use registry_urls::{DefaultJsrUrlProvider, JsrUrlProvider, default_jsr_url, is_web_url};
use semver_npm::PackageNv;
use std::alloc::Global;
use std::test::Fail;
use url::Url;

fn is_nv(alloc: Global, found: &Option<PackageNv>, want: &str) -> Result<bool, Fail> {
    match found {
        Some(nv) => {
            let text = format!(in alloc; "{nv}")?;
            Ok(text.as_str() == want)
        }
        None => Ok(want == "-"),
    }
}

// Whether a package's URL is this, and a provider leads from it back to the version.
fn leads_back<U: JsrUrlProvider>(
    alloc: Global,
    provider: &U,
    url: &Url,
    package: &str,
) -> Result<bool, Fail> {
    let back = provider.package_url_to_nv(alloc, url)?;
    Ok(url.as_str() == package && is_nv(alloc, &back, "@s/p@1.2.3")?)
}

// Whether a provider has this URL, and leads from a version to its URL and back.
fn leads<U: JsrUrlProvider>(
    alloc: Global,
    provider: &U,
    registry: &str,
    package: &str,
) -> Result<bool, Fail> {
    let nv = package_nv(alloc, "@s/p", "1.2.3")?;
    let url = provider.package_url(alloc, &nv)?;
    Ok(provider.url().as_str() == registry && leads_back(alloc, provider, &url, package)?)
}

fn is_default_url(alloc: Global) -> Result<bool, Fail> {
    let url = default_jsr_url(alloc)?;
    Ok(url.as_str() == "https://jsr.io/")
}

fn default_leads(alloc: Global) -> Result<bool, Fail> {
    let provider = DefaultJsrUrlProvider::new(alloc)?;
    leads(
        alloc,
        &provider,
        "https://jsr.io/",
        "https://jsr.io/@s/p/1.2.3/",
    )
}

fn is_default_shown(alloc: Global) -> Result<bool, Fail> {
    let provider = DefaultJsrUrlProvider::new(alloc)?;
    let shown = format!(in alloc; "{provider:?}")?;
    Ok(shown.as_str().starts_with("DefaultJsrUrlProvider"))
}

#[test]
fn the_default_provider_is_that_of_jsr(rt: HostRuntime) -> Result<(), Fail> {
    assert!(rt; is_default_url(rt.alloc())?);
    assert!(rt; default_leads(rt.alloc())?);
    assert!(rt; is_default_shown(rt.alloc())?);
    Ok(())
}

#[test]
fn a_provider_may_have_another_registry(rt: HostRuntime) -> Result<(), Fail> {
    let url = Url::parse(rt.alloc(), "http://localhost:4507/r/")?;
    assert!(rt; is_web_url(&url));
    let provider = DefaultJsrUrlProvider::with_url(url);
    assert!(rt;
        leads(
            rt.alloc(),
            &provider,
            "http://localhost:4507/r/",
            "http://localhost:4507/r/@s/p/1.2.3/"
        )?
    );
    Ok(())
}
