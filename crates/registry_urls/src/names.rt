// The versions of packages that URLs name.
ghost use Rattle.std.specs.Prelude.{◌≡◌, IfOk, MatchOption, length};
ghost use Rattle.std.specs.List.{before_first, position_or_len};
ghost use Rattle.semver_npm.specs.References.{is_slash, without_slash};
ghost use Rattle.registry_urls.specs.Names.{IsCut, named, nv_of_path, nv_of_url};

use crate::prefix::after_prefix;
use semver_npm::{PackageNv, PlainVersion, parse_standard};
use spec_base::{Refusal, Text};
use std::alloc::{AllocError, Global};
use url::Url;

// The text without one slash in front.
fn without_slash(text: &str) -> &str
    ensures { result.now ≡ without_slash text.now }
{
    if text.starts_with("/") {
        &text[1..]
    } else {
        text
    }
}

// The text before its first slash and the one after it, where it has one.
fn cut(text: &str) -> Option<(&str, &str)>
    ensures { MatchOption result (position_or_len is_slash text.now ≡ length text.now)
        (IsCut text.now) }
{
    text.split_once('/')
}

// The text up to the first slash.
fn before_slash(text: &str) -> &str
    ensures { result.now ≡ before_first is_slash text.now }
{
    match text.split_once('/') {
        Some((front, _)) => front,
        None => text,
    }
}

// A version of the package `scope/name`, where the text of the version is one.
fn named(
    alloc: Global,
    scope: &str,
    name: &str,
    version: &str,
) -> Result<Option<PackageNv>, AllocError>
    ensures { IfOk result (λ nv. nv ≡ named scope.now name.now version.now) }
{
    let version = match parse_standard(alloc, version) {
        Ok(version) => PlainVersion::from(version),
        Err(Refusal::Memory) => return Err(AllocError),
        Err(Refusal::Is(_)) => return Ok(None),
    };
    let name = Text::from(format!(in alloc; "{scope}/{name}")?);
    Ok(Some(PackageNv { name, version }))
}

// The version of a package that a path in a registry begins with.
fn nv_of_path(alloc: Global, path: &str) -> Result<Option<PackageNv>, AllocError>
    ensures { IfOk result (λ nv. nv ≡ nv_of_path path.now) }
{
    let Some((scope, after_scope)) = cut(path) else {
        return Ok(None);
    };
    let Some((name, after_name)) = cut(after_scope) else {
        return Ok(None);
    };
    named(alloc, scope, name, before_slash(after_name))
}

/// The version of a package that a URL names, in the way that is recommended to registries: its text is that of
/// the registry's URL, then at most one `/`, and then scope, name and version, with a `/` after each but the last,
/// whatever follows. None where one of them is missing, or where the version is none of SemVer 2.0.
///
/// The only refusal is want of memory.
pub fn recommended_registry_package_url_to_nv(
    alloc: Global,
    registry_url: &Url,
    url: &Url,
) -> Result<Option<PackageNv>, AllocError>
    ensures { IfOk result (λ nv. nv ≡ nv_of_url registry_url.now url.now) }
{
    match after_prefix(registry_url.as_str(), url.as_str()) {
        Some(rest) => nv_of_path(alloc, without_slash(rest)),
        None => Ok(None),
    }
}
