// What npm answers about requirements, and the table behind its answers.
ghost use Rattle.std.specs.Prelude.{◌≡◌, IfOk};

use semver_npm::{NpmLoadError, PackageReq};
use spec_base::{Fault, Items};
use std::alloc::AllocError;

/// The results of some requirements.
#[derive(Clone, Debug)]
pub struct NpmResolvePkgReqsResult {
    /// The result of each requirement, in the order in which they were asked for.
    pub results: Items<Result<(), NpmLoadError>>,
    /// The result of the graph of all packages.
    pub dep_graph_result: Result<(), Fault>,
}

// So that its drop is one call at each way out of what owns it.
impl Drop for NpmResolvePkgReqsResult {
    fn drop(self) {
        let NpmResolvePkgReqsResult {
            results: _,
            dep_graph_result: _,
        } = self;
    }
}

impl NpmResolvePkgReqsResult {
    /// A copy.
    pub fn try_clone(&self) -> Result<NpmResolvePkgReqsResult, AllocError>
        ensures { IfOk result (λ results. results ≡ self.now) }
    {
        let results = self.results.try_clone()?;
        let dep_graph_result = self.dep_graph_result.clone()?;
        Ok(NpmResolvePkgReqsResult {
            results,
            dep_graph_result,
        })
    }
}

/// What npm answers, as a list of results of requirements and the result of the graph of all packages. The first entry of
/// a requirement counts, and one that isn't listed is resolved.
#[derive(Clone, Debug)]
pub struct NpmTable {
    pub packages: Items<(PackageReq, Result<(), NpmLoadError>)>,
    pub graph: Result<(), Fault>,
}

// So that its drop is one call at each way out of what owns it.
impl Drop for NpmTable {
    fn drop(self) {
        let NpmTable {
            packages: _,
            graph: _,
        } = self;
    }
}

impl NpmTable {
    /// A copy.
    pub fn try_clone(&self) -> Result<NpmTable, AllocError>
        ensures { IfOk result (λ table. table ≡ self.now) }
    {
        let packages = self.packages.try_clone()?;
        let graph = self.graph.clone()?;
        Ok(NpmTable { packages, graph })
    }
}
