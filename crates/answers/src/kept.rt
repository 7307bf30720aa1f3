// The word of what a graph keeps of packages, which changes. It is shown by its copy.
use crate::case::{Gap, Left, parts, text};
use crate::npm::{dependency, version_of};
use pkg_records::PackageSpecifiers;
use semver_npm::{PackageNv, PackageReq, VersionReq};
use spec_base::Text;
use std::alloc::Global;
use std::fmt;

// Has a requirement on the package of a version lead to it.
fn map(
    alloc: Global,
    kept: &mut PackageSpecifiers,
    nv: PackageNv,
    requirement: &str,
) -> Result<(), Gap> {
    let version_req = VersionReq::parse_from_specifier(alloc, requirement)?;
    let name = Text::from_str(alloc, nv.name.as_str())?;
    Ok(kept.add_nv(alloc, PackageReq { name, version_req }, nv)?)
}

fn depend(
    alloc: Global,
    kept: &mut PackageSpecifiers,
    nv: &PackageNv,
    told: &str,
) -> Result<(), Gap> {
    let dependency = dependency(alloc, told)?;
    Ok(kept.add_dependency(alloc, nv, dependency)?)
}

fn export(
    alloc: Global,
    kept: &mut PackageSpecifiers,
    nv: &PackageNv,
    told: &str,
) -> Result<(), Gap> {
    let (name, value) = told.split_once(" ").unwrap_or((told, ""));
    let name = text(alloc, name)?;
    let value = text(alloc, value)?;
    Ok(kept.add_export(alloc, nv, (name, value))?)
}

// Makes a change: `map NAME VERSION REQUIREMENT`, `package NAME VERSION`, `dependency NAME VERSION REGISTRY NAME REQUIREMENT`,
// `export NAME VERSION EXPORT PATH`, `top NAME VERSION` or `yanked NAME VERSION`.
fn change(alloc: Global, kept: &mut PackageSpecifiers, told: &str) -> Result<(), Gap> {
    let (word, rest) = told.split_once(" ").unwrap_or((told, ""));
    let (name, rest) = rest.split_once(" ").unwrap_or((rest, ""));
    let (number, rest) = rest.split_once(" ").unwrap_or((rest, ""));
    let nv = version_of(alloc, name, number)?;
    match word {
        "map" => map(alloc, kept, nv, rest),
        "package" => Ok(kept.ensure_package(alloc, nv)?),
        "dependency" => depend(alloc, kept, &nv, rest),
        "export" => export(alloc, kept, &nv, rest),
        "top" => Ok(kept.add_top_level_package(nv)?),
        "yanked" => Ok(kept.add_used_yanked_package(nv)?),
        _ => Err(Gap::NoCase),
    }
}

fn push<T: fmt::Display>(
    alloc: Global,
    line: &mut String,
    mark: &str,
    part: &T,
) -> Result<(), Gap> {
    let shown = Left::new(format!(in alloc; "{mark}{part}")?);
    Ok(line.push_str(shown.as_str())?)
}

fn push_mappings(alloc: Global, line: &mut String, kept: &PackageSpecifiers) -> Result<(), Gap> {
    for (req, nv) in kept.mappings().iter() {
        push(alloc, line, "; ", req)?;
        push(alloc, line, " ", nv)?;
    }
    Ok(())
}

fn push_exports(
    alloc: Global,
    line: &mut String,
    kept: &PackageSpecifiers,
    nv: &PackageNv,
) -> Result<(), Gap> {
    let Some(exports) = kept.package_exports(nv) else {
        return Err(Gap::NoCase);
    };
    for (name, value) in exports.iter() {
        push(alloc, line, " ", name)?;
        push(alloc, line, "=", value)?;
    }
    Ok(())
}

// Adds each package with its dependencies and exports.
fn push_packages(alloc: Global, line: &mut String, kept: &PackageSpecifiers) -> Result<(), Gap> {
    for (nv, dependencies) in kept.packages_with_deps() {
        push(alloc, line, "; ", nv)?;
        line.push_str(":")?;
        for dependency in dependencies.iter() {
            push(alloc, line, " ", dependency)?;
        }
        push_exports(alloc, line, kept, nv)?;
    }
    Ok(())
}

fn push_marks(alloc: Global, line: &mut String, kept: &PackageSpecifiers) -> Result<(), Gap> {
    for nv in kept.top_level_packages().iter() {
        push(alloc, line, "; top ", nv)?;
    }
    for nv in kept.used_yanked_packages() {
        push(alloc, line, "; yanked ", nv)?;
    }
    Ok(())
}

// Adds the versions of each of some packages.
fn push_versions(
    alloc: Global,
    line: &mut String,
    kept: &PackageSpecifiers,
    names: &str,
) -> Result<(), Gap> {
    for name in names.split(", ") {
        line.push_str("; of ")?;
        line.push_str(name)?;
        for nv in kept.versions_by_name(name).unwrap_or(&[]) {
            push(alloc, line, " ", nv)?;
        }
    }
    Ok(())
}

fn told(alloc: Global, kept: &PackageSpecifiers, names: &str) -> Result<String, Gap> {
    let packages = kept.packages_len();
    let dependencies = kept.package_deps_sum();
    let mark = if kept.is_empty() { ", empty" } else { "" };
    let mut line = format!(in alloc; "{packages} packages, {dependencies} dependencies{mark}")?;
    push_mappings(alloc, &mut line, kept)?;
    push_packages(alloc, &mut line, kept)?;
    push_marks(alloc, &mut line, kept)?;
    push_versions(alloc, &mut line, kept, names)?;
    Ok(line)
}

/// `CHANGE; .. | NAME, ..`: what is kept behind the changes: where requirements lead, packages with their dependencies and exports, those at
/// the top, those that are yanked, and the versions of the packages of these names.
pub fn kept(alloc: Global, case: &str) -> Result<String, Gap> {
    let (changes, names) = parts(case)?;
    let mut kept = Left::new(PackageSpecifiers::new(alloc));
    for told in changes.split("; ") {
        change(alloc, &mut *kept, told)?;
    }
    let copy = Left::new(kept.try_clone()?);
    told(alloc, &*copy, names)
}
