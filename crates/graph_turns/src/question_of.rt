// Under what a load is asked about.
ghost use Rattle.std.specs.Prelude.{◌≡◌, None};
ghost use Rattle.graph_turns.specs.Promise.Taken.{first_setting};

use graph_core::LoadContext;
use module_info::ModuleInfo;
use semver_npm::PackageNv;
use source_io::{CacheSetting, LoaderChecksum};
use spec_base::Boxed;

/// Under what a load is asked about: outside of packages, or in a version of a package whose file is read.
#[derive(Drop)]
pub struct Asked {
    /// The version of a package that it counts in.
    pub held: Option<PackageNv>,
    /// The sum that goes with its question.
    pub checksum: Option<LoaderChecksum>,
    /// What its module imports, where that is known without its source.
    pub info: Option<Boxed<ModuleInfo>>,
}

impl Asked {
    /// Outside of packages, under a sum.
    pub fn outside(checksum: Option<LoaderChecksum>) -> Asked
        ensures { result ≡ record { held = None; checksum = checksum; info = None } }
    {
        Asked {
            held: None,
            checksum,
            info: None,
        }
    }

    /// The setting of the first question about a load: from a cache alone where the info of its module is known.
    pub fn first_setting(&self, context: &LoadContext) -> CacheSetting
        ensures { result ≡ first_setting context.now self.now }
    {
        match &self.info {
            None => CacheSetting::Use,
            Some(_) => {
                if context.asset {
                    CacheSetting::Use
                } else {
                    CacheSetting::Only
                }
            }
        }
    }
}
