// The file of a version that was read, as a build keeps it.
ghost use Rattle.std.specs.Prelude.{◌≡◌};
ghost use Rattle.registry_urls.specs.InPackage.{is_in};
ghost use Rattle.registry_files.specs.Kept.{path_at};

use crate::version_file::VersionFile;
use registry_urls::{is_in_package, sub_path_in_package};
use semver_npm::PackageNv;
use url::Url;

/// The file of a version that was read, with the version and its URL.
#[derive(Debug)]
pub struct KeptVersion {
    pub nv: PackageNv,
    /// Where the modules of the version lie.
    pub url: Url,
    pub file: VersionFile,
}

// So that its drop is one call at each way out of what owns it.
impl Drop for KeptVersion {
    fn drop(self) {
        let KeptVersion {
            nv: _,
            url: _,
            file: _,
        } = self;
    }
}

impl KeptVersion {
    /// Whether a specifier is in the version, which is a test of texts.
    pub fn holds(&self, specifier: &Url) -> bool
        ensures { result ≡ is_in self.now.url specifier.now }
    {
        is_in_package(&self.url, specifier)
    }

    /// The sub path of a specifier, by which the version file names its module; empty where it isn't in the version.
    pub fn path_of<'a>(&self, specifier: &'a Url) -> &'a str
        ensures { result.now ≡ path_at self.now.url specifier.now }
    {
        match sub_path_in_package(&self.url, specifier) {
            Some(path) => path,
            None => "",
        }
    }
}
