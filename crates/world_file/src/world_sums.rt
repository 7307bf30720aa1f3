// What a world file says of sums: whether the loader tests sources by them, and those that a locker knows.
ghost use Rattle.std.specs.Prelude.{◌≡◌, codes};
ghost use Rattle.json_documents.specs.Documents as documents;
ghost use Rattle.spec_base.specs.Refusal.{Reads};
ghost use Rattle.json_forms.specs.Member.{optional};
ghost use Rattle.world_file.specs.WorldSums.{known_in, locker_sums, sums_of};

use crate::known_specifiers::known_keyed;
use crate::world_packages::read_packages;
use json_documents::Json;
use json_forms::{Misfit, has_names, or_default};
use semver_npm::PackageNv;
use source_io::{Answer, Purpose};
use spec_base::{Items, ModuleSpecifier, Refusal, Text};
use std::alloc::Global;

/// The sums that a locker knows.
#[derive(Drop)]
pub struct LockerSums {
    /// Those of sources from the network.
    pub remote: Items<(ModuleSpecifier, Text)>,
    /// Those of packages' manifests.
    pub packages: Items<(PackageNv, Text)>,
}

/// What a world file says of sums.
#[derive(Drop)]
pub struct WorldSums {
    /// Whether the loader tests a module by the sum that its question has.
    pub verifies: bool,
    /// The sums that the locker knows, where there is one.
    pub locker: Option<LockerSums>,
}

fn read_locker(
    alloc: Global,
    value: &Json<'_, '_>,
    answers: &[(ModuleSpecifier, Purpose, Answer)],
) -> Result<LockerSums, Refusal<Misfit>>
    ensures { Reads result (locker_sums (documents.view value.now)) }
{
    if !has_names(value, &["remote", "packages"]) {
        return Err(Refusal::Is(Misfit));
    }
    let remote = known_keyed(alloc, value, "remote", answers)?;
    let packages = read_packages(alloc, value)?;
    Ok(LockerSums { remote, packages })
}

// The sums of the locker, where there is one.
fn told_locker(
    alloc: Global,
    value: &Json<'_, '_>,
    answers: &[(ModuleSpecifier, Purpose, Answer)],
) -> Result<Option<LockerSums>, Refusal<Misfit>>
    ensures { Reads result (optional locker_sums (codes "locker") (documents.view value.now)) }
{
    match value.get("locker") {
        Some(locker) => Ok(Some(read_locker(alloc, &locker, answers)?)),
        None => Ok(None),
    }
}

/// What a world file says of sums, whatever the answers: those that were read before only spare the parser the keys that are texts of their
/// specifiers.
pub fn read_sums(
    alloc: Global,
    value: &Json<'_, '_>,
    answers: &[(ModuleSpecifier, Purpose, Answer)],
) -> Result<WorldSums, Refusal<Misfit>>
    ensures { Reads result (sums_of (documents.view value.now)) }
{
    let verifies = or_default(alloc, value, "verify", false)?;
    let locker = told_locker(alloc, value, answers)?;
    Ok(WorldSums { verifies, locker })
}

/// The sums that are known, none where there is no locker.
pub fn known_in(alloc: Global, sums: WorldSums) -> LockerSums
    ensures { result ≡ known_in sums }
{
    match sums.locker {
        Some(known) => known,
        None => LockerSums {
            remote: Items::new(alloc),
            packages: Items::new(alloc),
        },
    }
}
