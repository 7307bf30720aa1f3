// The URLs of versions of packages, and of the files that say what a registry has.
ghost use Rattle.std.specs.Prelude.{◌≡◌, IfOk, IsTrue};
ghost use Rattle.registry_urls.specs.Packages.{package_file_url, package_url, version_file_url};
ghost use Rattle.registry_urls.specs.Registry.{is_web};

use crate::registry::url_in_folder;
use semver_npm::{PackageName, PackageNv};
use std::alloc::{AllocError, Global};
use url::Url;

/// The URL of a version of a package, in the way that is recommended to registries: that of the registry's text
/// through its last `/`, and then `name/version/` (WHATWG URL Standard). The registry's URL is http or https.
///
/// Names are taken as they are written, and URLs are normalised, so two names may have one URL. Each has one, and
/// the only refusal is want of memory.
pub fn recommended_registry_package_url(
    alloc: Global,
    registry_url: &Url,
    nv: &PackageNv,
) -> Result<Url, AllocError>
    requires { IsTrue (is_web registry_url.now) }
    ensures { IfOk result (λ url. url ≡ package_url registry_url.now nv.now) }
{
    let PackageNv { name, version } = nv;
    let path = format!(in alloc; "{name}/{version}/")?;
    url_in_folder(alloc, registry_url, path.as_str())
}

/// The URL of the file of a package, which lists its versions: that of the registry's text through its last `/`,
/// and then `name/meta.json`. The registry's URL is http or https. The only refusal is want of memory.
pub fn registry_package_file_url(
    alloc: Global,
    registry_url: &Url,
    name: &PackageName,
) -> Result<Url, AllocError>
    requires { IsTrue (is_web registry_url.now) }
    ensures { IfOk result (λ url. url ≡ package_file_url registry_url.now name.now) }
{
    let path = format!(in alloc; "{name}/meta.json")?;
    url_in_folder(alloc, registry_url, path.as_str())
}

/// The URL of the file of a version, which says what is in it: that of the registry's text through its last `/`,
/// and then `name/version_meta.json`. The registry's URL is http or https. The only refusal is want of memory.
pub fn registry_version_file_url(
    alloc: Global,
    registry_url: &Url,
    nv: &PackageNv,
) -> Result<Url, AllocError>
    requires { IsTrue (is_web registry_url.now) }
    ensures { IfOk result (λ url. url ≡ version_file_url registry_url.now nv.now) }
{
    let PackageNv { name, version } = nv;
    let path = format!(in alloc; "{name}/{version}_meta.json")?;
    url_in_folder(alloc, registry_url, path.as_str())
}
