// The words of `registry_urls`: the URLs of a registry, and what they name.
use crate::case::{Gap, Left, parts, shown, text, url};
use registry_urls::{
    is_in_package, is_web_url, recommended_registry_package_url,
    recommended_registry_package_url_to_nv, registry_package_file_url, registry_version_file_url,
    sub_path_in_package,
};
use semver_npm::{PackageNv, PlainVersion, parse_standard};
use spec_base::Text;
use std::alloc::Global;
use url::Url;

/// `SPECIFIER`: whether a registry may stand at it.
pub fn web(alloc: Global, case: &str) -> Result<String, Gap> {
    let is_web = is_web_url(&*url(alloc, case)?);
    text(alloc, if is_web { "yes" } else { "no" })
}

fn urls_in(alloc: Global, registry: &Url, nv: &PackageNv) -> Result<String, Gap> {
    if !is_web_url(registry) {
        return Err(Gap::NoCase);
    }
    let own = Left::new(recommended_registry_package_url(alloc, registry, nv)?);
    let package = Left::new(registry_package_file_url(alloc, registry, &nv.name)?);
    let version = Left::new(registry_version_file_url(alloc, registry, nv)?);
    Ok(format!(in alloc;
        "{} {} {}",
        own.as_str(),
        package.as_str(),
        version.as_str()
    )?)
}

/// `REGISTRY | NAME | VERSION`: the URLs of the version, of the package's file and of the version's file.
pub fn urls(alloc: Global, case: &str) -> Result<String, Gap> {
    let (registry, rest) = parts(case)?;
    let (name, version) = parts(rest)?;
    let registry = url(alloc, registry)?;
    let version = PlainVersion::from(parse_standard(alloc, version)?);
    let name = Text::from_str(alloc, name)?;
    urls_in(alloc, &*registry, &*Left::new(PackageNv { name, version }))
}

/// `REGISTRY | SPECIFIER`: the version that it names; `-` is none.
pub fn named(alloc: Global, case: &str) -> Result<String, Gap> {
    let (registry, told) = parts(case)?;
    let registry = url(alloc, registry)?;
    let specifier = url(alloc, told)?;
    let found = Left::new(recommended_registry_package_url_to_nv(alloc, &*registry, &*specifier)?);
    match &*found {
        Some(nv) => shown(alloc, nv),
        None => text(alloc, "-"),
    }
}

/// `URL OF A PACKAGE | SPECIFIER`: whether it is in the package, and its sub path there.
pub fn sub_path(alloc: Global, case: &str) -> Result<String, Gap> {
    let (package, told) = parts(case)?;
    let package = url(alloc, package)?;
    let specifier = url(alloc, told)?;
    let is_in = is_in_package(&*package, &*specifier);
    let path = sub_path_in_package(&*package, &*specifier);
    Ok(format!(in alloc; "{is_in} {path:?}")?)
}
