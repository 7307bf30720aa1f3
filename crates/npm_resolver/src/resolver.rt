// What resolves the requirements of npm packages, and what its answers mean.
ghost use Rattle.std.specs.Prelude.{◌≡◌, length, Option, IfOk, IfSome};
ghost use Rattle.npm_resolver.specs.Results.{npm_answer};
ghost use Rattle.npm_resolver.specs.declared.types.NpmTable.{NpmTable};

use crate::types::NpmResolvePkgReqsResult;
use semver_npm::PackageReq;
use std::alloc::{AllocError, Global};

/// What resolves the requirements of npm packages.
pub trait NpmResolver {
    /// The table that it answers by, where it tells one.
    ghost table: { Self → Option NpmTable };

    /// Hears the name of a package that is waited for, before its requirements are asked for: a resolver may load and keep
    /// what the registry says of the package.
    fn load_and_cache_npm_package_info(&self, package_name: &str);

    /// The result of each requirement, in the order of the requirements, and that of the graph of all packages; where a table is
    /// told, the table's. The only refusal is want of memory.
    fn resolve_pkg_reqs(
        &self,
        alloc: Global,
        package_reqs: &[PackageReq],
    ) -> Result<NpmResolvePkgReqsResult, AllocError>
        ensures each { IfOk result (λ answer. length answer.results ≡ length package_reqs.now) }
        ensures told { IfOk result
            (λ answer. IfSome (table self.now) (λ t. answer ≡ npm_answer t package_reqs.now)) };
}
