// The members of a workspace.
ghost use Rattle.std.specs.Prelude.{◌≡◌, IfOk};
ghost use Rattle.graph_core.specs.WorkspaceMembers.{nv_of_member, version_or_zero};

use semver::Version;
use semver_npm::{PackageName, PackageNv, PlainVersion};
use spec_base::{Text, TextMap};
use std::alloc::AllocError;
use url::Url;

/// A package of a workspace, which stands at hand in the place of one of the registry.
#[derive(Debug, Drop)]
pub struct WorkspaceMember {
    /// The URL that the texts of its exports are resolved by.
    pub base: Url,
    pub name: PackageName,
    /// None where it is given no version.
    pub version: Option<PlainVersion>,
    /// The texts of its exported modules, by the names of the exports.
    pub exports: TextMap<Text>,
}

// A version, or 0.0.0 where there is none.
fn version_or_zero(version: &Option<PlainVersion>) -> Result<PlainVersion, AllocError>
    ensures { IfOk result (λ v. v ≡ version_or_zero version.now) }
{
    match version {
        Some(version) => version.try_clone(),
        None => Ok(PlainVersion::from(Version::new(0, 0, 0))),
    }
}

impl WorkspaceMember {
    /// The member as a version of a package: 0.0.0 where it has none. The only refusal is want of memory.
    pub fn as_nv(&self) -> Result<PackageNv, AllocError>
        ensures { IfOk result (λ nv. nv ≡ nv_of_member self.now) }
    {
        let name = self.name.try_clone()?;
        let version = version_or_zero(&self.version)?;
        Ok(PackageNv { name, version })
    }

    /// A copy. The only refusal is want of memory.
    pub fn try_clone(&self) -> Result<WorkspaceMember, AllocError>
        ensures { IfOk result (λ copy. copy ≡ self.now) }
    {
        let base = self.base.clone()?;
        let name = self.name.try_clone()?;
        let version = self.version.clone()?;
        let exports = self.exports.try_clone()?;
        Ok(WorkspaceMember {
            base,
            name,
            version,
            exports,
        })
    }
}
