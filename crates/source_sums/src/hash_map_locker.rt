// A locker in memory.
ghost use Rattle.std.specs.Prelude.{◌≡◌};
ghost use Rattle.source_sums.specs.Lockers.{empty_locker};
ghost use Rattle.source_sums.specs.Manifests.{manifests_in};
ghost use Rattle.source_sums.specs.Sums.{sums_in};

use crate::loader_checksum::LoaderChecksum;
use crate::locker::Locker;
use crate::manifest_sums::ManifestSums;
use crate::remote_sums::RemoteSums;
use semver_npm::PackageNv;
use spec_base::ModuleSpecifier;
use std::alloc::{AllocError, Global};
use std::collections::HashMap;

/// A locker that keeps sums in memory.
#[derive(Debug)]
pub struct HashMapLocker {
    remote: RemoteSums,
    manifests: ManifestSums,
}

// So that its drop is one call at each way out of what owns it.
impl Drop for HashMapLocker {
    fn drop(self) {
        let HashMapLocker {
            remote: _,
            manifests: _,
        } = self;
    }
}

impl HashMapLocker {
    /// The locker that knows no sum.
    pub fn new(alloc: Global) -> HashMapLocker
        ensures { result ≡ empty_locker }
    {
        HashMapLocker {
            remote: RemoteSums::new(alloc),
            manifests: ManifestSums::new(alloc),
        }
    }

    /// The sums of sources from the network, in no order.
    pub fn remote(&self) -> &HashMap<ModuleSpecifier, LoaderChecksum>
        ensures { sums_in result.now ≡ self.now.remote }
    {
        self.remote.as_map()
    }

    /// The sums of the manifests of packages by their versions, in no order.
    pub fn pkg_manifests(&self) -> &HashMap<PackageNv, LoaderChecksum>
        ensures { manifests_in result.now ≡ self.now.manifests }
    {
        self.manifests.as_map()
    }
}

impl Locker for HashMapLocker {
    ghost remote = { λ locker. locker.remote };

    ghost manifests = { λ locker. locker.manifests };

    fn get_remote_checksum(
        &self,
        _alloc: Global,
        specifier: &ModuleSpecifier,
    ) -> Result<Option<LoaderChecksum>, AllocError> {
        self.remote.get(specifier)
    }

    fn has_remote_checksum(&self, specifier: &ModuleSpecifier) -> bool {
        self.remote.has(specifier)
    }

    fn set_remote_checksum(
        &mut self,
        specifier: &ModuleSpecifier,
        checksum: LoaderChecksum,
    ) -> Result<(), AllocError> {
        self.remote.set(specifier, checksum)
    }

    fn get_pkg_manifest_checksum(
        &self,
        _alloc: Global,
        package_nv: &PackageNv,
    ) -> Result<Option<LoaderChecksum>, AllocError> {
        self.manifests.get(package_nv)
    }

    fn set_pkg_manifest_checksum(
        &mut self,
        package_nv: &PackageNv,
        checksum: LoaderChecksum,
    ) -> Result<(), AllocError> {
        self.manifests.set(package_nv, checksum)
    }
}
