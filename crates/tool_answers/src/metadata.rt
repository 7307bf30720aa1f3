// The word of `metadata_store`: what a store of a registry's answers has.
use crate::case::{Gap, Left, parts, text, url};
use metadata_store::JsrMetadataStore;
use semver_npm::{PackageNv, PlainVersion, parse_standard};
use source_io::{LoadResponse, LoadResult};
use spec_base::Text;
use std::alloc::Global;

// An answer that leads to a URL, or found nothing where that is empty.
fn answer_of(alloc: Global, told: &str) -> Result<LoadResult, Gap> {
    if told.is_empty() {
        return Ok(Ok(None));
    }
    let specifier = Left::into_inner(url(alloc, told)?);
    Ok(Ok(Some(LoadResponse::Redirect { specifier })))
}

// A version of a package.
fn version(alloc: Global, name: &str, number: &str) -> Result<PackageNv, Gap> {
    let version = PlainVersion::from(parse_standard(alloc, number)?);
    let name = Text::from_str(alloc, name)?;
    Ok(PackageNv { name, version })
}

fn add_version(alloc: Global, store: &mut JsrMetadataStore, told: &str) -> Result<(), Gap> {
    let (name, rest) = told.split_once(" ").unwrap_or((told, ""));
    let (number, target) = rest.split_once(" ").unwrap_or((rest, ""));
    let nv = version(alloc, name, number)?;
    let answer = answer_of(alloc, target)?;
    Ok(store.add_version_answer(nv, answer)?)
}

fn add_package(alloc: Global, store: &mut JsrMetadataStore, told: &str) -> Result<(), Gap> {
    let (name, target) = told.split_once(" ").unwrap_or((told, ""));
    let name = Text::from_str(alloc, name)?;
    let answer = answer_of(alloc, target)?;
    Ok(store.add_package_answer(name, answer)?)
}

// Adds an answer: `package NAME URL` or `version NAME VERSION URL`, where the URL may be left out.
fn add(alloc: Global, store: &mut JsrMetadataStore, told: &str) -> Result<(), Gap> {
    match told.split_once(" ") {
        Some(("package", rest)) => add_package(alloc, store, rest),
        Some(("version", rest)) => add_version(alloc, store, rest),
        _ => Err(Gap::NoCase),
    }
}

// Where an answer leads; `-` where there is none, and `missing` for one that found nothing.
fn leads_to(answer: Option<&LoadResult>) -> &str {
    match answer {
        None => "-",
        Some(Ok(None)) => "missing",
        Some(Ok(Some(LoadResponse::Redirect { specifier }))) => specifier.as_str(),
        Some(_) => "other",
    }
}

fn push_found(
    alloc: Global,
    line: &mut String,
    store: &JsrMetadataStore,
    told: &str,
) -> Result<(), Gap> {
    line.push_str("; ")?;
    match told.split_once(" ") {
        Some((name, number)) => {
            let nv = Left::new(version(alloc, name, number)?);
            Ok(line.push_str(leads_to(store.version_answer(&*nv)))?)
        }
        None => {
            let name = Left::new(Text::from_str(alloc, told)?);
            Ok(line.push_str(leads_to(store.package_answer(&*name)))?)
        }
    }
}

/// `ADDED; .. | ASKED, ..`: how many answers a store has behind what is added, and where those lead that are asked about, each by `NAME` or
/// `NAME VERSION`.
pub fn metadata(alloc: Global, case: &str) -> Result<String, Gap> {
    let (added, asked) = parts(case)?;
    let mut store = Left::new(JsrMetadataStore::new(alloc));
    for told in added.split("; ") {
        if !told.is_empty() {
            add(alloc, &mut *store, told)?;
        }
    }
    let mark = if store.is_empty() { ", empty" } else { "" };
    let mut line = text(alloc, "")?;
    let count = Left::new(format!(in alloc; "{} answers{mark}", store.len())?);
    line.push_str(count.as_str())?;
    for told in asked.split(", ") {
        push_found(alloc, &mut line, &*store, told)?;
    }
    Ok(line)
}
