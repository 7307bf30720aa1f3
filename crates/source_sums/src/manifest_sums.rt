// The sums of the manifests of packages, by the versions of these.
ghost use Rattle.std.specs.Prelude.{◌≡◌, OnOk, OnErr, IfOk};
ghost use Rattle.std.specs.FinMap as finite;
ghost use Rattle.source_sums.specs.Manifests.{manifests_in};

use crate::loader_checksum::LoaderChecksum;
use semver_npm::PackageNv;
use std::alloc::{AllocError, Global};
use std::collections::HashMap;
use std::marker::Model;

/// Sums of the manifests of packages, which contracts see as the finite map from the versions of these.
#[derive(Debug, Drop)]
pub(crate) struct ManifestSums {
    map: HashMap<PackageNv, LoaderChecksum>,
}

impl Model for ManifestSums {
    ghost use Rattle.source_sums.specs.Codes.{manifests_code};
    ghost use Rattle.source_sums.specs.Manifests.{KnownManifests, manifests_in};

    ghost Value = { KnownManifests };

    ghost coded = { manifests_code };

    ghost view = { λ sums. manifests_in sums.map };
}

impl ManifestSums {
    pub(crate) fn new(alloc: Global) -> ManifestSums
        ensures { result ≡ finite.empty }
    {
        ManifestSums {
            map: HashMap::new(alloc),
        }
    }

    pub(crate) fn as_map(&self) -> &HashMap<PackageNv, LoaderChecksum>
        ensures { manifests_in result.now ≡ self.now }
    {
        &self.map
    }

    pub(crate) fn get(&self, package_nv: &PackageNv) -> Result<Option<LoaderChecksum>, AllocError>
        ensures { IfOk result (λ sum. sum ≡ finite.get self.now package_nv.now) }
    {
        match self.map.get(package_nv) {
            Some(checksum) => Ok(Some(checksum.try_clone()?)),
            None => Ok(None),
        }
    }

    /// Keeps a sum in the place of one that stands. The only refusal is want of memory, after which nothing is changed.
    pub(crate) fn set(
        &mut self,
        package_nv: &PackageNv,
        checksum: LoaderChecksum,
    ) -> Result<(), AllocError>
        ensures ok { OnOk result (self.new ≡ finite.insert self.old package_nv.now checksum) }
        ensures err { OnErr result (self.new ≡ self.old) }
    {
        let key = package_nv.try_clone()?;
        let _ = self.map.insert(key, checksum)?;
        Ok(())
    }
}
