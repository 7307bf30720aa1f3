// Packages, named by a requirement on their version or by one version.
ghost use Rattle.std.specs.Prelude.{◌≡◌, Some, IfOk};
ghost use Rattle.semver_npm.specs.Orders.{dep_cmp, nv_cmp, req_cmp};
ghost use Rattle.semver_npm.specs.Packages.{dep_text, nv_text, req_text};
ghost use Rattle.semver_npm.specs.declared.package.PackageKind.TheVariants.{Jsr, Npm};

use crate::requirement::VersionReq;
use crate::version::PlainVersion;
use spec_base::Text;
use std::alloc::AllocError;
use std::cmp::Ordering;
use std::fmt;

/// The name of a package, with its scope.
pub type PackageName = Text;

/// A package by a requirement on its version. Its order is by name, then by the requirement's text.
#[derive(Clone, Debug, PartialEq, Eq, PartialOrd, Ord)]
pub struct PackageReq {
    pub name: PackageName,
    pub version_req: VersionReq,
}

// So that its drop is one call at each way out of what owns it.
impl Drop for PackageReq {
    fn drop(self) {
        let PackageReq {
            name: _,
            version_req: _,
        } = self;
    }
}

impl PackageReq {
    /// A copy.
    pub fn try_clone(&self) -> Result<PackageReq, AllocError>
        ensures { IfOk result (λ req. req ≡ self.now) }
    {
        self.clone()
    }
}

impl fmt::Display for PackageReq {
    ghost output = { λ req. Some (req_text req) };

    fn fmt<W: fmt::Write>(&self, f: &mut fmt::Formatter<W>) -> fmt::Result {
        let PackageReq { name, version_req } = self;
        write!(f, "{name}@{version_req}")
    }
}

/// A version of a package. Its order is by name, then by version (SemVer precedence, then build text).
#[derive(Clone, Debug, PartialEq, Eq, PartialOrd, Ord, Hash)]
pub struct PackageNv {
    pub name: PackageName,
    pub version: PlainVersion,
}

// So that its drop is one call at each way out of what owns it.
impl Drop for PackageNv {
    fn drop(self) {
        let PackageNv {
            name: _,
            version: _,
        } = self;
    }
}

impl PackageNv {
    /// A copy.
    pub fn try_clone(&self) -> Result<PackageNv, AllocError>
        ensures { IfOk result (λ nv. nv ≡ self.now) }
    {
        self.clone()
    }
}

impl fmt::Display for PackageNv {
    ghost output = { λ nv. Some (nv_text nv) };

    fn fmt<W: fmt::Write>(&self, f: &mut fmt::Formatter<W>) -> fmt::Result {
        let PackageNv { name, version } = self;
        write!(f, "{name}@{version}")
    }
}

/// The registry of a package. `Jsr` comes first.
#[derive(Clone, Copy, Debug, PartialEq, Eq, PartialOrd, Ord)]
pub enum PackageKind {
    Jsr,
    Npm,
}

/// A package that another one depends on. Its order is by registry, then by requirement.
#[derive(Clone, Debug, PartialEq, Eq, PartialOrd, Ord, Drop)]
pub struct JsrDepPackageReq {
    pub kind: PackageKind,
    pub req: PackageReq,
}

impl JsrDepPackageReq {
    /// A package of the JSR registry.
    pub fn jsr(req: PackageReq) -> JsrDepPackageReq
        ensures { result ≡ record { kind = Jsr; req = req } }
    {
        JsrDepPackageReq {
            kind: PackageKind::Jsr,
            req,
        }
    }

    /// A package of the npm registry.
    pub fn npm(req: PackageReq) -> JsrDepPackageReq
        ensures { result ≡ record { kind = Npm; req = req } }
    {
        JsrDepPackageReq {
            kind: PackageKind::Npm,
            req,
        }
    }

    /// A copy.
    pub fn try_clone(&self) -> Result<JsrDepPackageReq, AllocError>
        ensures { IfOk result (λ dep. dep ≡ self.now) }
    {
        self.clone()
    }
}

impl fmt::Display for JsrDepPackageReq {
    ghost output = { λ dep. Some (dep_text dep) };

    fn fmt<W: fmt::Write>(&self, f: &mut fmt::Formatter<W>) -> fmt::Result {
        let JsrDepPackageReq { kind, req } = self;
        match kind {
            PackageKind::Jsr => write!(f, "jsr:{req}"),
            PackageKind::Npm => write!(f, "npm:{req}"),
        }
    }
}

/// The order of two packages, which is that of `Ord`: by name, then by the requirement's text.
pub fn order_requirements(a: &PackageReq, b: &PackageReq) -> Ordering
    ensures { result ≡ req_cmp a.now b.now }
{
    a.cmp(b)
}

/// The order of two versions of packages, which is that of `Ord`: by name, then by version.
pub fn order_versions(a: &PackageNv, b: &PackageNv) -> Ordering
    ensures { result ≡ nv_cmp a.now b.now }
{
    a.cmp(b)
}

/// The order of two dependencies, which is that of `Ord`: JSR before npm, then by requirement.
pub fn order_dependencies(a: &JsrDepPackageReq, b: &JsrDepPackageReq) -> Ordering
    ensures { result ≡ dep_cmp a.now b.now }
{
    a.cmp(b)
}
