// Resolvers of npm packages behind their trait, one of them a caller's own that tells no table.
use crate::rows::package_req;
use npm_resolver::{NpmResolvePkgReqsResult, NpmResolver, TableNpmResolver};
use semver_npm::{NpmLoadError, PackageReq};
use spec_base::{Fault, Items, Text};
use std::alloc::{AllocError, Global};
use std::cell::Cell;
use std::test::Fail;

// A resolver whose registry is out of reach. It counts the names that it hears.
#[derive(Drop)]
struct Offline {
    heard: Cell<u64>,
}

impl NpmResolver for Offline {
    ghost use Rattle.std.specs.Prelude.{None};

    ghost table = { λ _. None };

    fn load_and_cache_npm_package_info(&self, _package_name: &str) {
        self.heard.set(self.heard.get().saturating_add(1));
    }

    fn resolve_pkg_reqs(
        &self,
        alloc: Global,
        package_reqs: &[PackageReq],
    ) -> Result<NpmResolvePkgReqsResult, AllocError> {
        let mut results = Items::new(alloc);
        for _req in package_reqs {
            results.push(Err(NpmLoadError::NotSupportedEnvironment))?;
        }
        Ok(NpmResolvePkgReqsResult {
            results,
            dep_graph_result: Ok(()),
        })
    }
}

fn fault(alloc: Global, message: &str) -> Result<Fault, Fail> {
    let class = Text::from_str(alloc, "Error")?;
    let message = Text::from_str(alloc, message)?;
    Ok(Fault { class, message })
}

fn requirements(alloc: Global) -> Result<Vec<PackageReq>, Fail> {
    let mut reqs = Vec::new(alloc);
    reqs.push(package_req(alloc, "react", "18")?)?;
    reqs.push(package_req(alloc, "chalk", "1")?)?;
    Ok(reqs)
}

// A table with a fault of `chalk@1` and one of the graph.
fn table(alloc: Global) -> Result<TableNpmResolver, Fail> {
    let mut packages = Vec::new(alloc);
    let error = NpmLoadError::RegistryInfo(fault(alloc, "none")?);
    packages.push((package_req(alloc, "chalk", "1")?, Err(error)))?;
    Ok(TableNpmResolver::new(packages, Err(fault(alloc, "conflict")?)))
}

// How many of the requirements a resolver resolves, and whether it resolves the graph.
fn resolved<N: NpmResolver>(alloc: Global, resolver: &N) -> Result<(usize, bool), Fail> {
    resolver.load_and_cache_npm_package_info("chalk");
    let reqs = requirements(alloc)?;
    let answer = resolver.resolve_pkg_reqs(alloc, &reqs)?;
    let count = answer
        .results
        .as_slice()
        .iter()
        .filter(|it| it.is_ok())
        .count();
    Ok((count, answer.dep_graph_result.is_ok()))
}

#[test]
fn resolvers_answer_behind_their_trait(rt: HostRuntime) -> Result<(), Fail> {
    let offline = Offline {
        heard: Cell::new(0),
    };
    assert!(rt; resolved(rt.alloc(), &offline)? == (0, true));
    assert!(rt; resolved(rt.alloc(), &offline)? == (0, true));
    assert!(rt; offline.heard.get() == 2);
    let table = table(rt.alloc())?;
    assert!(rt; resolved(rt.alloc(), &table)? == (1, false));
    Ok(())
}
