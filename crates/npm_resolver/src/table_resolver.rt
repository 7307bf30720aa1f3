// The npm resolver of a table in memory.
ghost use Rattle.std.specs.Prelude.{◌≡◌, find, map, option_copied, IfOk};
ghost use Rattle.npm_resolver.specs.Results.{listed_result, same_requirement};

use crate::resolver::NpmResolver;
use crate::types::{NpmResolvePkgReqsResult, NpmTable};
use semver_npm::{NpmLoadError, PackageReq};
use spec_base::{Fault, Items};
use std::alloc::{AllocError, Global};
use std::marker::Model;

/// A resolver that answers by a table, which contracts see as the table.
///
/// Each requirement is sought through the whole list, so a call takes time by the product of their lengths.
#[derive(Drop)]
pub struct TableNpmResolver {
    table: NpmTable,
}

impl Model for TableNpmResolver {
    ghost use Rattle.npm_resolver.specs.declared.types.NpmTable.{NpmTable};

    ghost Value = { NpmTable };

    ghost view = { λ resolver. resolver.table };
}

impl TableNpmResolver {
    /// The resolver of a list of results of requirements, of which the first entry of a requirement counts, and a result of
    /// the graph of all packages. A requirement that isn't listed is resolved.
    pub fn new(
        packages: Vec<(PackageReq, Result<(), NpmLoadError>)>,
        graph: Result<(), Fault>,
    ) -> TableNpmResolver
        ensures { result ≡ record { packages = packages.items; graph = graph } }
    {
        TableNpmResolver {
            table: NpmTable {
                packages: Items::from(packages),
                graph,
            },
        }
    }
}

impl NpmResolver for TableNpmResolver {
    ghost use Rattle.std.specs.Prelude.{Some};

    ghost table = { λ resolver. Some resolver };

    // It has all that it answers at hand.
    fn load_and_cache_npm_package_info(&self, _package_name: &str) {}

    fn resolve_pkg_reqs(
        &self,
        alloc: Global,
        package_reqs: &[PackageReq],
    ) -> Result<NpmResolvePkgReqsResult, AllocError> {
        let results = results_of(alloc, self.table.packages.as_slice(), package_reqs)?;
        let dep_graph_result = self.table.graph.clone()?;
        Ok(NpmResolvePkgReqsResult {
            results,
            dep_graph_result,
        })
    }
}

// The result of each requirement, in their order.
fn results_of(
    alloc: Global,
    packages: &[(PackageReq, Result<(), NpmLoadError>)],
    package_reqs: &[PackageReq],
) -> Result<Items<Result<(), NpmLoadError>>, AllocError>
    ensures { IfOk result
        (λ results. results ≡ map (listed_result packages.now) package_reqs.now) }
{
    let mut results = Items::new(alloc);
    for req in package_reqs {
        results.push(listed_result(packages, req)?)?;
    }
    Ok(results)
}

// A copy of the result that is listed for a requirement.
fn listed_result(
    packages: &[(PackageReq, Result<(), NpmLoadError>)],
    req: &PackageReq,
) -> Result<Result<(), NpmLoadError>, AllocError>
    ensures { IfOk result (λ listed. listed ≡ listed_result packages.now req.now) }
{
    match first_listed(packages, req) {
        Some(entry) => entry.1.clone(),
        None => Ok(Ok(())),
    }
}

// The first entry that is listed for a requirement.
fn first_listed<'a>(
    packages: &'a [(PackageReq, Result<(), NpmLoadError>)],
    req: &PackageReq,
) -> Option<&'a (PackageReq, Result<(), NpmLoadError>)>
    ensures { option_copied result ≡ find (λ e. same_requirement e.0 req.now) packages.now }
{
    packages.iter().find(|entry| entry.0 == *req)
}
