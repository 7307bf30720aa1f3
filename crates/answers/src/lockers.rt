// The word of lockers, which change.
use crate::case::{Gap, Left, parts, text, url};
use crate::npm::{version, version_of};
use source_sums::{HashMapLocker, LoaderChecksum, Locker};
use std::alloc::Global;

// Has a locker know a sum: `SPECIFIER SUM`.
fn set<L: Locker>(alloc: Global, locker: &mut L, told: &str) -> Result<(), Gap> {
    let (name, sum) = told.split_once(" ").unwrap_or((told, ""));
    let specifier = url(alloc, name)?;
    let sum = LoaderChecksum::new(text(alloc, sum)?);
    Ok(locker.set_remote_checksum(&*specifier, sum)?)
}

// The same of a manifest: `NAME VERSION SUM`.
fn set_manifest<L: Locker>(alloc: Global, locker: &mut L, told: &str) -> Result<(), Gap> {
    let (name, rest) = told.split_once(" ").unwrap_or((told, ""));
    let (number, sum) = rest.split_once(" ").unwrap_or((rest, ""));
    let nv = version_of(alloc, name, number)?;
    let sum = LoaderChecksum::new(text(alloc, sum)?);
    Ok(locker.set_pkg_manifest_checksum(&nv, sum)?)
}

fn change<L: Locker>(alloc: Global, locker: &mut L, told: &str) -> Result<(), Gap> {
    match told.split_once(" ") {
        Some(("source", rest)) => set(alloc, locker, rest),
        Some(("manifest", rest)) => set_manifest(alloc, locker, rest),
        _ => Err(Gap::NoCase),
    }
}

fn push_sum(line: &mut String, sum: &Option<LoaderChecksum>) -> Result<(), Gap> {
    line.push_str("; ")?;
    match sum {
        Some(sum) => Ok(line.push_str(sum.as_str())?),
        None => Ok(line.push_str("-")?),
    }
}

// Adds the sum of a specifier.
fn push_source<L: Locker>(
    alloc: Global,
    line: &mut String,
    locker: &L,
    name: &str,
) -> Result<(), Gap> {
    let specifier = url(alloc, name)?;
    let sum = Left::new(locker.get_remote_checksum(alloc, &*specifier)?);
    if sum.is_some() != locker.has_remote_checksum(&*specifier) {
        return Err(Gap::NoCase);
    }
    push_sum(line, &*sum)
}

// Adds the sum of the manifest of a version.
fn push_manifest<L: Locker>(
    alloc: Global,
    line: &mut String,
    locker: &L,
    told: &str,
) -> Result<(), Gap> {
    let nv = version(alloc, told)?;
    let sum = Left::new(locker.get_pkg_manifest_checksum(alloc, &nv)?);
    push_sum(line, &*sum)
}

fn push_known<L: Locker>(
    alloc: Global,
    line: &mut String,
    locker: &L,
    asked: &str,
) -> Result<(), Gap> {
    for told in asked.split(", ") {
        if told.contains(" ") {
            push_manifest(alloc, line, locker, told)?;
        } else {
            push_source(alloc, line, locker, told)?;
        }
    }
    Ok(())
}

/// `CHANGE; .. | ASKED, ..`: the sums that a locker knows behind the changes, `-` for none. A change is `source SPECIFIER SUM` or
/// `manifest NAME VERSION SUM`, and what is asked about a specifier or `NAME VERSION`.
pub fn locker(alloc: Global, case: &str) -> Result<String, Gap> {
    let (changes, asked) = parts(case)?;
    let mut locker = Left::new(HashMapLocker::new(alloc));
    for told in changes.split("; ") {
        change(alloc, &mut *locker, told)?;
    }
    let (sources, manifests) = (locker.remote().len(), locker.pkg_manifests().len());
    let mut line = format!(in alloc; "{sources} sources, {manifests} manifests")?;
    push_known(alloc, &mut line, &*locker, asked)?;
    Ok(line)
}
