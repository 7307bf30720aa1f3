// What makes the slots of a build.
ghost use Rattle.std.specs.Prelude.{◌≡◌};

use crate::flags::Flags;
use crate::registry::Registry;
use graph_core::GraphKind;
use pkg_versions::JsrVersionResolver;
use slot_making::Services;

/// What makes the slots of a build: what tells the imports of a source, the files that templates can
/// mean, which URLs name versions of packages, and where imports lead, which part of its modules the graph holds, and what is left out or allowed.
#[derive(Drop)]
pub struct Maker<'a, S: Services> {
    pub analyzer: &'a S::Analyze,
    pub tree: &'a S::Tree,
    pub urls: &'a S::Urls,
    pub resolver: Option<&'a S::Resolve>,
    pub kind: GraphKind,
    pub flags: Flags,
    /// What picks versions of packages.
    pub versions: &'a JsrVersionResolver,
    /// What hears the infos of modules whose contents came later.
    pub cacher: &'a S::Cache,
    /// What hears how far the build is.
    pub reporter: Option<&'a S::Report>,
}

impl<'a, S: Services> Maker<'a, S> {
    /// The registry that the build asks.
    pub fn registry(&self) -> Registry<'a, S::Urls, S::Report>
        ensures urls { result.urls.now ≡ self.now.urls.now }
        ensures versions { result.versions.now ≡ self.now.versions.now }
    {
        Registry {
            urls: self.urls,
            versions: self.versions,
            reporter: self.reporter,
        }
    }
}
