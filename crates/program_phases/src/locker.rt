// The locker with which a build over a world begins.
ghost use Rattle.std.specs.Prelude.{◌≡◌, IfOk, OnOk, option_map};
ghost use Rattle.spec_base.specs.Places.{with_first};
ghost use Rattle.spec_base.specs.Specifier.{specifier_text};
ghost use Rattle.program_phases.specs.Sums.{locker_manifests, locker_sums, manifests_with, sums_with, with_first_manifest};

use semver_npm::PackageNv;
use source_io::{HashMapLocker, LoaderChecksum, Locker};
use spec_base::{ModuleSpecifier, Text};
use std::alloc::{AllocError, Global};
use world_file::Input;

// Keeps a sum, where none is known of its specifier.
fn keep_first(
    alloc: Global,
    locker: &mut HashMapLocker,
    specifier: &ModuleSpecifier,
    sum: &Text,
) -> Result<(), AllocError>
    ensures kept { OnOk result
        (locker.new.remote ≡ with_first locker.old.remote (specifier_text specifier.now) sum.now) }
    ensures others { locker.new.manifests ≡ locker.old.manifests }
{
    if !locker.has_remote_checksum(specifier) {
        let sum = String::from_str(alloc, sum.as_str())?;
        locker.set_remote_checksum(specifier, LoaderChecksum::new(sum))?;
    }
    Ok(())
}

// Keeps the sums of sources in a list, where none are known of their specifiers.
fn keep_sums(
    alloc: Global,
    locker: &mut HashMapLocker,
    sums: &[(ModuleSpecifier, Text)],
) -> Result<(), AllocError>
    ensures kept { OnOk result (locker.new.remote ≡ sums_with locker.old.remote sums.now) }
    ensures others { locker.new.manifests ≡ locker.old.manifests }
{
    for (specifier, sum) in sums {
        keep_first(alloc, locker, specifier, sum)?;
    }
    Ok(())
}

// Keeps the sum of a manifest, where none is known of its version.
fn keep_first_manifest(
    alloc: Global,
    locker: &mut HashMapLocker,
    package_nv: &PackageNv,
    sum: &Text,
) -> Result<(), AllocError>
    ensures kept { OnOk result
        (locker.new.manifests ≡ with_first_manifest locker.old.manifests package_nv.now sum.now) }
    ensures others { locker.new.remote ≡ locker.old.remote }
{
    if locker
        .get_pkg_manifest_checksum(alloc, package_nv)?
        .is_none()
    {
        let sum = String::from_str(alloc, sum.as_str())?;
        locker.set_pkg_manifest_checksum(package_nv, LoaderChecksum::new(sum))?;
    }
    Ok(())
}

// Keeps the sums of manifests in a list, where none are known of their versions.
fn keep_manifests(
    alloc: Global,
    locker: &mut HashMapLocker,
    sums: &[(PackageNv, Text)],
) -> Result<(), AllocError>
    ensures kept { OnOk result
        (locker.new.manifests ≡ manifests_with locker.old.manifests sums.now) }
    ensures others { locker.new.remote ≡ locker.old.remote }
{
    for (package_nv, sum) in sums {
        keep_first_manifest(alloc, locker, package_nv, sum)?;
    }
    Ok(())
}

/// The locker of an input, where there is one: it knows the sums that the world lists, of sources and of manifests; the first one of a
/// specifier or of a version counts. The only refusal is want of memory.
pub fn locker_of(alloc: Global, input: &Input) -> Result<Option<HashMapLocker>, AllocError>
    ensures sums { IfOk result
        (λ locker. option_map (λ l. l.remote) locker ≡ locker_sums input.now) }
    ensures manifests { IfOk result
        (λ locker. option_map (λ l. l.manifests) locker ≡ locker_manifests input.now) }
{
    if !input.settings.locker {
        return Ok(None);
    }
    let mut locker = HashMapLocker::new(alloc);
    keep_sums(alloc, &mut locker, input.world.remote_sums.as_slice())?;
    keep_manifests(alloc, &mut locker, input.world.package_sums.as_slice())?;
    Ok(Some(locker))
}
