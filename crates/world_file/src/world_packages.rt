// The sums of packages' manifests in a world file.
ghost use Rattle.std.specs.Prelude.{◌≡◌, ◌-◌, ◌<◌, ◌≤◌, not, length, slice_index};
ghost use Rattle.std.specs.List.{suffix_len};
ghost use Rattle.json_documents.specs.Documents as documents;
ghost use Rattle.spec_base.specs.Refusal.{Reads};
ghost use Rattle.semver_npm.specs.Versions.{version_of};
ghost use Rattle.world_file.specs.WorldPackages.{is_at, package_nv, package_sums, packages_of};

use json_documents::Json;
use json_forms::{Misfit, or_default};
use semver::{Error, Version};
use semver_npm::{PackageNv, PlainVersion};
use spec_base::{Items, Refusal, SortedTexts, Text};
use std::alloc::{AllocError, Global};

/// Where what stands behind the last `@` begins: at 0 where there is none.
pub fn version_start(text: &[u8]) -> usize
    ensures place { result ≡ length text.now - suffix_len (λ b. not (is_at b)) text.now }
    ensures within { result ≤ length text.now }
    ensures ascii { 0 < result → slice_index text.now (result - 1) < 128 }
{
    let mut start = text.len();
    while start > 0 && text[start - 1] != b'@' {
        start -= 1;
    }
    start
}

fn read_version(alloc: Global, text: &str) -> Result<PlainVersion, Refusal<Misfit>>
    ensures { Reads result (version_of text.now) }
{
    match Version::parse(alloc, text) {
        Ok(version) => Ok(PlainVersion::from(version)),
        Err(error) => if error == Error::from(AllocError) {
            Err(Refusal::Memory)
        } else {
            Err(Refusal::Is(Misfit))
        },
    }
}

// The version of a package that a text is.
fn read_nv(alloc: Global, text: &str) -> Result<PackageNv, Refusal<Misfit>>
    ensures { Reads result (package_nv text.now) }
{
    let start = version_start(text.as_bytes());
    if start < 2 {
        return Err(Refusal::Is(Misfit));
    }
    let version = read_version(alloc, &text[start..])?;
    let name = Text::from_str(alloc, &text[..start - 1])?;
    Ok(PackageNv { name, version })
}

fn read_sums(
    alloc: Global,
    found: &SortedTexts<Text>,
) -> Result<Items<(PackageNv, Text)>, Refusal<Misfit>>
    ensures { Reads result (package_sums found.now) }
{
    let mut sums = Items::new(alloc);
    for (text, sum) in found.as_map().iter() {
        let nv = read_nv(alloc, text.as_str())?;
        sums.push((nv, sum.try_clone()?))?;
    }
    Ok(sums)
}

/// The sums of packages' manifests that a locker of a world file knows.
pub fn read_packages(
    alloc: Global,
    value: &Json<'_, '_>,
) -> Result<Items<(PackageNv, Text)>, Refusal<Misfit>>
    ensures { Reads result (packages_of (documents.view value.now)) }
{
    let found = or_default(alloc, value, "packages", SortedTexts::new(alloc))?;
    read_sums(alloc, &found)
}
