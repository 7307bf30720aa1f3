// What a world file says of npm: the results of requirements of packages, and that of the graph of all packages.
ghost use Rattle.std.specs.Prelude.{◌≡◌, IfOk};
ghost use Rattle.std.specs.List.{list_any};
ghost use Rattle.json_documents.specs.Documents as documents;
ghost use Rattle.spec_base.specs.Refusal.{Reads};
ghost use Rattle.semver_npm.specs.References.{ends_name};
ghost use Rattle.world_file.specs.WorldNpm.{graph_result, is_bare_name, is_package_name, is_scoped_name, load_result, named_req, npm_of, npm_outcome, npm_table, package_req, package_results, version_req};

use crate::world_infos::read_fault;
use crate::world_packages::version_start;
use json_documents::Json;
use json_forms::{Form, Misfit, has_names, or_default};
use npm_resolver::NpmTable;
use semver_npm::{NpmLoadError, PackageReq, VersionReq};
use spec_base::{Fault, Items, Refusal, SortedTexts, Text};
use std::alloc::{AllocError, Global};

/// What comes of something that npm is asked for.
#[derive(Drop)]
pub enum NpmOutcome {
    Resolved,
    Failed(Fault),
}

impl Form for NpmOutcome {
    ghost form = { npm_outcome };

    fn read(alloc: Global, value: &Json<'_, '_>) -> Result<NpmOutcome, Refusal<Misfit>> {
        if value.is_null() {
            return Ok(NpmOutcome::Resolved);
        }
        let fault = read_fault(alloc, value)?;
        Ok(NpmOutcome::Failed(fault))
    }
}

// Whether a name ends before a byte.
fn ends_name(byte: u8) -> bool
    ensures { result ≡ ends_name byte }
{
    byte == b'@' || byte == b'/'
}

fn has_end(text: &[u8]) -> bool
    ensures { result ≡ list_any ends_name text.now }
{
    text.iter().any(|byte| ends_name(*byte))
}

// Whether a text is a name without a scope.
fn is_bare_name(name: &str) -> bool
    ensures { result ≡ is_bare_name name.now }
{
    !name.is_empty() && !has_end(name.as_bytes())
}

// Whether a text is a scope, a slash and a name.
fn is_scoped_name(name: &str) -> bool
    ensures { result ≡ is_scoped_name name.now }
{
    match name.split_once('/') {
        Some((scope, bare)) => scope.len() > 1 && is_bare_name(bare),
        None => false,
    }
}

fn is_package_name(name: &str) -> bool
    ensures { result ≡ is_package_name name.now }
{
    if name.starts_with("@") {
        is_scoped_name(name)
    } else {
        is_bare_name(name)
    }
}

fn read_version_req(alloc: Global, text: &str) -> Result<VersionReq, Refusal<Misfit>>
    ensures { Reads result (version_req text.now) }
{
    match VersionReq::parse_from_specifier(alloc, text) {
        Ok(found) => Ok(found),
        Err(Refusal::Memory) => Err(Refusal::Memory),
        Err(Refusal::Is(_)) => Err(Refusal::Is(Misfit)),
    }
}

// A package's name and the requirement on its version.
fn named_req(alloc: Global, name: &str, text: &str) -> Result<PackageReq, Refusal<Misfit>>
    ensures { Reads result (named_req name.now text.now) }
{
    if !is_package_name(name) {
        return Err(Refusal::Is(Misfit));
    }
    let version_req = read_version_req(alloc, text)?;
    let name = Text::from_str(alloc, name)?;
    Ok(PackageReq { name, version_req })
}

// The requirement of a package that a text is.
fn read_req(alloc: Global, text: &str) -> Result<PackageReq, Refusal<Misfit>>
    ensures { Reads result (package_req text.now) }
{
    let start = version_start(text.as_bytes());
    if start < 2 {
        return Err(Refusal::Is(Misfit));
    }
    named_req(alloc, &text[..start - 1], &text[start..])
}

// The result of a requirement.
fn load_result(outcome: &NpmOutcome) -> Result<Result<(), NpmLoadError>, AllocError>
    ensures { IfOk result (λ found. found ≡ load_result outcome.now) }
{
    match outcome {
        NpmOutcome::Resolved => Ok(Ok(())),
        NpmOutcome::Failed(fault) => {
            let fault = fault.try_clone()?;
            Ok(Err(NpmLoadError::PackageReqResolution(fault)))
        }
    }
}

// The result of the graph of all packages.
fn graph_result(outcome: NpmOutcome) -> Result<(), Fault>
    ensures { result ≡ graph_result outcome }
{
    match outcome {
        NpmOutcome::Resolved => Ok(()),
        NpmOutcome::Failed(fault) => Err(fault),
    }
}

fn read_results(
    alloc: Global,
    found: &SortedTexts<NpmOutcome>,
) -> Result<Items<(PackageReq, Result<(), NpmLoadError>)>, Refusal<Misfit>>
    ensures { Reads result (package_results found.now) }
{
    let mut results = Items::new(alloc);
    for (text, outcome) in found.as_map().iter() {
        let req = read_req(alloc, text.as_str())?;
        results.push((req, load_result(outcome)?))?;
    }
    Ok(results)
}

fn read_table(alloc: Global, value: &Json<'_, '_>) -> Result<NpmTable, Refusal<Misfit>>
    ensures { Reads result (npm_table (documents.view value.now)) }
{
    if !has_names(value, &["packages", "graph"]) {
        return Err(Refusal::Is(Misfit));
    }
    let found = or_default(alloc, value, "packages", SortedTexts::new(alloc))?;
    let packages = read_results(alloc, &found)?;
    let graph = or_default(alloc, value, "graph", NpmOutcome::Resolved)?;
    Ok(NpmTable {
        packages,
        graph: graph_result(graph),
    })
}

/// The table of npm, where a world file tells one.
pub fn read_npm(alloc: Global, value: &Json<'_, '_>) -> Result<Option<NpmTable>, Refusal<Misfit>>
    ensures { Reads result (npm_of (documents.view value.now)) }
{
    match value.get("npm") {
        Some(table) => Ok(Some(read_table(alloc, &table)?)),
        None => Ok(None),
    }
}

/// A copy of what npm answers. The only refusal is want of memory.
pub fn npm_copied(npm: &Option<NpmTable>) -> Result<Option<NpmTable>, AllocError>
    ensures { IfOk result (λ copy. copy ≡ npm.now) }
{
    match npm {
        Some(table) => Ok(Some(table.try_clone()?)),
        None => Ok(None),
    }
}
