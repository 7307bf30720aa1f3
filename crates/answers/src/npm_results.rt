// The word of `npm_resolver`: the results of requirements by a table in memory. What is answered is shown by its copy.
use crate::case::{Gap, Left, parts, text};
use crate::npm::package;
use npm_resolver::{NpmResolver, TableNpmResolver};
use semver_npm::{NpmLoadError, PackageReq};
use spec_base::{Fault, Text};
use std::alloc::Global;

fn fault(alloc: Global, message: &str) -> Result<Fault, Gap> {
    let class = Text::from_str(alloc, "Error")?;
    let message = Text::from_str(alloc, message)?;
    Ok(Fault { class, message })
}

fn graph(alloc: Global, told: &str) -> Result<Result<(), Fault>, Gap> {
    if told == "ok" {
        return Ok(Ok(()));
    }
    Ok(Err(fault(alloc, told)?))
}

fn error(alloc: Global, told: &str) -> Result<NpmLoadError, Gap> {
    match told.split_once(" ") {
        None => Ok(NpmLoadError::NotSupportedEnvironment),
        Some(("unresolved", why)) => Ok(NpmLoadError::PackageReqResolution(fault(alloc, why)?)),
        Some(("unloaded", why)) => Ok(NpmLoadError::RegistryInfo(fault(alloc, why)?)),
        Some(_) => Err(Gap::NoCase),
    }
}

fn listed(alloc: Global, told: &str) -> Result<Result<(), NpmLoadError>, Gap> {
    if told == "ok" {
        return Ok(Ok(()));
    }
    Ok(Err(error(alloc, told)?))
}

fn entry(alloc: Global, told: &str) -> Result<(PackageReq, Result<(), NpmLoadError>), Gap> {
    let (req, result) = told.split_once(": ").unwrap_or(("", ""));
    let req = package(alloc, req)?;
    Ok((req, listed(alloc, result)?))
}

fn resolver(alloc: Global, list: &str, graph_told: &str) -> Result<Left<TableNpmResolver>, Gap> {
    let mut packages = Vec::new(alloc);
    if list != "-" {
        for told in list.split(", ") {
            packages.push(entry(alloc, told)?)?;
        }
    }
    let graph = graph(alloc, graph_told)?;
    Ok(Left::new(TableNpmResolver::new(packages, graph)))
}

fn asked(alloc: Global, list: &str) -> Result<Left<Vec<PackageReq>>, Gap> {
    let mut reqs = Left::new(Vec::new(alloc));
    if list != "-" {
        for told in list.split(", ") {
            reqs.push(package(alloc, told)?)?;
        }
    }
    Ok(reqs)
}

fn push_error(line: &mut String, error: &NpmLoadError) -> Result<(), Gap> {
    line.push_str(match error {
        NpmLoadError::NotSupportedEnvironment => "unsupported",
        NpmLoadError::PackageReqResolution(_) => "unresolved ",
        NpmLoadError::RegistryInfo(_) => "unloaded ",
        NpmLoadError::PackageReqReferenceParse(_) => "no reference ",
    })?;
    match error {
        NpmLoadError::PackageReqResolution(fault) | NpmLoadError::RegistryInfo(fault) => {
            line.push_str(fault.message.as_str())?;
        }
        _ => {}
    }
    Ok(())
}

fn push_result(line: &mut String, listed: &Result<(), NpmLoadError>) -> Result<(), Gap> {
    if !line.is_empty() {
        line.push_str(", ")?;
    }
    match listed {
        Ok(()) => Ok(line.push_str("ok")?),
        Err(error) => push_error(line, error),
    }
}

fn told_results(alloc: Global, results: &[Result<(), NpmLoadError>]) -> Result<String, Gap> {
    let mut line = String::new(alloc);
    for result in results {
        push_result(&mut line, result)?;
    }
    if line.is_empty() {
        return text(alloc, "-");
    }
    Ok(line)
}

/// `NAME REQUIREMENT: RESULT, .. | GRAPH | NAME REQUIREMENT, ..`, with `-` for an empty list: the results of the requirements by
/// the table, and that of the graph.
pub fn npm_results(alloc: Global, case: &str) -> Result<String, Gap> {
    let (list, rest) = parts(case)?;
    let (graph_told, reqs) = parts(rest)?;
    let resolver = resolver(alloc, list, graph_told)?;
    let reqs = asked(alloc, reqs)?;
    resolver.load_and_cache_npm_package_info("chalk");
    let answer = Left::new(
        resolver
            .resolve_pkg_reqs(alloc, reqs.as_slice())?
            .try_clone()?,
    );
    let results = told_results(alloc, answer.results.as_slice())?;
    match &answer.dep_graph_result {
        Ok(()) => Ok(format!(in alloc; "{results} | ok")?),
        Err(fault) => Ok(format!(in alloc; "{results} | {fault}")?),
    }
}
