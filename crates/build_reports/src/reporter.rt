// What hears how far a build is.
ghost use Rattle.std.specs.Prelude.{◌≤◌};

use semver_npm::{PackageNv, PackageReq};
use spec_base::ModuleSpecifier;

/// What hears how far a build is. Both its calls do nothing by default.
pub trait Reporter {
    /// Hears that a load was answered: the specifier that it asked for, how many of the graph's slots are done, and how
    /// many there are.
    fn on_load(&self, specifier: &ModuleSpecifier, modules_done: usize, modules_total: usize)
        requires { modules_done ≤ modules_total }
    {}

    /// Hears which version of a package was chosen for a requirement.
    fn on_resolve(&self, req: &PackageReq, package_nv: &PackageNv) {}
}

/// A reporter that does nothing.
#[derive(Clone, Copy, Debug)]
pub struct NullReporter;

impl Reporter for NullReporter {}
