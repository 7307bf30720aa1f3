// What keeps the sums that are known of sources and of the manifests of packages.
ghost use Rattle.std.specs.Prelude.{◌≡◌, OnOk, OnErr, IfOk};
ghost use Rattle.std.specs.FinMap as finite;
ghost use Rattle.spec_base.specs.Specifier.{specifier_text};
ghost use Rattle.source_sums.specs.Manifests.{KnownManifests};
ghost use Rattle.source_sums.specs.Sums.{KnownSums};

use crate::loader_checksum::LoaderChecksum;
use semver_npm::PackageNv;
use spec_base::ModuleSpecifier;
use std::alloc::{AllocError, Global};

/// What keeps the sums of sources and of the manifests of packages, as a lockfile does. Specifiers are told apart by their
/// texts, and versions of packages by their names and versions.
pub trait Locker {
    /// The sums of sources from the network, by the texts of their specifiers.
    ghost remote: { Self → KnownSums };

    /// The sums of the manifests of packages, by the versions of these.
    ghost manifests: { Self → KnownManifests };

    /// The sum of the source of a specifier, where one is known. The only refusal is want of memory.
    fn get_remote_checksum(
        &self,
        alloc: Global,
        specifier: &ModuleSpecifier,
    ) -> Result<Option<LoaderChecksum>, AllocError>
        ensures { IfOk result
            (λ sum. sum ≡ finite.get (remote self.now) (specifier_text specifier.now)) };

    /// Whether a sum is known of the source of a specifier.
    fn has_remote_checksum(&self, specifier: &ModuleSpecifier) -> bool
        ensures { result ≡ finite.contains_key (remote self.now) (specifier_text specifier.now) };

    /// Keeps the sum of the source of a specifier, in the place of one that is known; all other sums stay.
    /// The only refusal is want of memory, after which every sum stays.
    fn set_remote_checksum(
        &mut self,
        specifier: &ModuleSpecifier,
        checksum: LoaderChecksum,
    ) -> Result<(), AllocError>
        ensures ok { OnOk result
            (remote self.new
            ≡ finite.insert (remote self.old) (specifier_text specifier.now) checksum) }
        ensures err { OnErr result (remote self.new ≡ remote self.old) }
        ensures others { manifests self.new ≡ manifests self.old };

    /// The sum of the manifest of a version of a package, where one is known. The only refusal is want of memory.
    fn get_pkg_manifest_checksum(
        &self,
        alloc: Global,
        package_nv: &PackageNv,
    ) -> Result<Option<LoaderChecksum>, AllocError>
        ensures { IfOk result (λ sum. sum ≡ finite.get (manifests self.now) package_nv.now) };

    /// Keeps the sum of the manifest of a version of a package, in the place of one that is known; all other sums
    /// stay. The only refusal is want of memory, after which every sum stays.
    fn set_pkg_manifest_checksum(
        &mut self,
        package_nv: &PackageNv,
        checksum: LoaderChecksum,
    ) -> Result<(), AllocError>
        ensures ok { OnOk result
            (manifests self.new ≡ finite.insert (manifests self.old) package_nv.now checksum) }
        ensures err { OnErr result (manifests self.new ≡ manifests self.old) }
        ensures others { remote self.new ≡ remote self.old };
}
