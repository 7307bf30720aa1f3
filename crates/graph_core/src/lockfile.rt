// What a graph takes over from a lockfile: where specifiers are redirected, and to which versions requirements lead.
ghost use Rattle.std.specs.Prelude.{◌≡◌, map, string_bytes, IfOk, OnOk, OnErr};
ghost use Rattle.semver_npm.specs.Versions.{version_of};
ghost use Rattle.graph_core.specs.Lockfile.{is_redirectable, locked_packages, locked_redirects, redirect_of, url_in, with_locked_package, with_locked_redirect, with_locked_version};

use pkg_records::PackageSpecifiers;
use semver::Error;
use semver_npm::{JsrDepPackageReq, PackageKind, PackageNv, PackageReq, PlainVersion, Version};
use spec_base::{ModuleSpecifier, SpecifierMap};
use std::alloc::{AllocError, Global};
use url::{ParseError, Url};

/// What a lockfile says that a graph can take over.
#[derive(Drop)]
pub struct FillFromLockfileOptions {
    /// Where specifiers are redirected: from and to, as texts of URLs.
    pub redirects: Vec<(String, String)>,
    /// Requirements on packages, each with the text of the version that it leads to.
    pub package_specifiers: Vec<(JsrDepPackageReq, String)>,
}

fn url_of(alloc: Global, text: &str) -> Result<Option<Url>, AllocError>
    ensures { IfOk result (λ url. url ≡ url_in text.now) }
{
    match Url::parse(alloc, text) {
        Ok(url) => Ok(Some(url)),
        Err(ParseError::OutOfMemory | ParseError::Overflow) => Err(AllocError),
        Err(_) => Ok(None),
    }
}

// Whether a specifier is no file's and no package's.
fn is_redirectable(specifier: &ModuleSpecifier) -> bool
    ensures { result ≡ is_redirectable specifier.now }
{
    !matches!(specifier.scheme(), "file" | "npm" | "jsr")
}

// The redirect that two texts are.
fn redirect_of(
    alloc: Global,
    from: &str,
    to: &str,
) -> Result<Option<(ModuleSpecifier, ModuleSpecifier)>, AllocError>
    ensures { IfOk result (λ redirect. redirect ≡ redirect_of from.now to.now) }
{
    let Some(from) = url_of(alloc, from)? else {
        return Ok(None);
    };
    if !is_redirectable(&from) {
        return Ok(None);
    }
    match url_of(alloc, to)? {
        Some(to) => Ok(Some((from, to))),
        None => Ok(None),
    }
}

fn put_redirect(
    alloc: Global,
    redirects: &mut SpecifierMap<ModuleSpecifier>,
    from: &str,
    to: &str,
) -> Result<(), AllocError>
    ensures { OnOk result (redirects.new ≡ with_locked_redirect redirects.old (from.now, to.now)) }
{
    if let Some((from, to)) = redirect_of(alloc, from, to)? {
        drop(redirects.insert(from, to)?);
    }
    Ok(())
}

/// Redirects with those of a lockfile, one after the other.
pub(crate) fn redirects_with(
    alloc: Global,
    redirects: &SpecifierMap<ModuleSpecifier>,
    locked: Vec<(String, String)>,
) -> Result<SpecifierMap<ModuleSpecifier>, AllocError>
    ensures { IfOk result
        (λ filled. filled
        ≡ locked_redirects redirects.now
        (map (λ e. (string_bytes e.0, string_bytes e.1)) locked.items)) }
{
    let mut filled = redirects.try_clone()?;
    for (from, to) in locked {
        put_redirect(alloc, &mut filled, from.as_str(), to.as_str())?;
    }
    Ok(filled)
}

// The version that a text is (SemVer 2.0).
fn version_of(alloc: Global, text: &str) -> Result<Option<PlainVersion>, AllocError>
    ensures { IfOk result (λ version. version ≡ version_of text.now) }
{
    match Version::parse(alloc, text) {
        Ok(version) => Ok(Some(PlainVersion::from(version))),
        Err(error) => if error == Error::from(AllocError) {
            Err(AllocError)
        } else {
            Ok(None)
        },
    }
}

fn put_version(
    alloc: Global,
    packages: &mut PackageSpecifiers,
    req: PackageReq,
    text: &str,
) -> Result<(), AllocError>
    ensures { OnOk result (packages.new ≡ with_locked_version packages.old req text.now) }
{
    match version_of(alloc, text)? {
        Some(version) => {
            let name = req.name.try_clone()?;
            packages.add_nv(alloc, req, PackageNv { name, version })
        }
        None => Ok(()),
    }
}

fn put_package(
    alloc: Global,
    packages: &mut PackageSpecifiers,
    wanted: JsrDepPackageReq,
    text: &str,
) -> Result<(), AllocError>
    ensures { OnOk result (packages.new ≡ with_locked_package packages.old (wanted, text.now)) }
{
    let JsrDepPackageReq { kind, req } = wanted;
    match kind {
        PackageKind::Jsr => put_version(alloc, packages, req, text),
        PackageKind::Npm => Ok(()),
    }
}

/// Packages with the requirements of a lockfile, one after the other.
pub(crate) fn packages_with(
    alloc: Global,
    packages: &PackageSpecifiers,
    locked: Vec<(JsrDepPackageReq, String)>,
) -> Result<PackageSpecifiers, AllocError>
    ensures { IfOk result
        (λ filled. filled
        ≡ locked_packages packages.now (map (λ e. (e.0, string_bytes e.1)) locked.items)) }
{
    let mut filled = packages.try_clone()?;
    for (wanted, text) in locked {
        put_package(alloc, &mut filled, wanted, text.as_str())?;
    }
    Ok(filled)
}
