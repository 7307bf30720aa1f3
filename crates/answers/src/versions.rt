// The words of `pkg_versions`: which version a requirement picks, dates and limits on them, and the files of a registry.
use crate::case::{Gap, Left, lines, parts, shown, text};
use crate::infos::shown_info;
use jiff::Timestamp;
use pkg_versions::{
    JsrPackageInfo, JsrPackageVersionInfo, JsrVersionResolver, JsrVersionResolverResolvedVersion,
    PlainTimestamp, ResolveVersionOptions, ResolveVersionResult, prerelease_fallback_applies,
    resolve_version, version_matches,
};
use semver_npm::{PackageReq, PlainVersion, VersionReq, parse_standard};
use spec_base::{Fault, Items, Refusal, Text};
use std::alloc::Global;
use std::collections::BTreeSet;
use version_dates::{
    JsrPackageReqNotFoundError, NewestDependencyDate, NewestDependencyDateOptions, PlainInstant,
    SortedSet, instant_of,
};

fn plain(alloc: Global, told: &str) -> Result<PlainVersion, Gap> {
    Ok(PlainVersion::from(parse_standard(alloc, told)?))
}

fn versions(alloc: Global, list: &str) -> Result<Left<Vec<PlainVersion>>, Gap> {
    let mut found = Left::new(Vec::new(alloc));
    if list != "-" {
        for told in list.split(',') {
            found.push(plain(alloc, told)?)?;
        }
    }
    Ok(found)
}

fn version_set(alloc: Global, list: &str) -> Result<Left<BTreeSet<PlainVersion>>, Gap> {
    let mut found = Left::new(BTreeSet::new(alloc));
    if list != "-" {
        for told in list.split(',') {
            found.insert(plain(alloc, told)?)?;
        }
    }
    Ok(found)
}

fn requirement(alloc: Global, told: &str) -> Result<Left<VersionReq>, Gap> {
    Ok(Left::new(VersionReq::parse_from_specifier(alloc, told)?))
}

fn package(alloc: Global, told: &str) -> Result<PackageReq, Gap> {
    let version_req = VersionReq::parse_from_specifier(alloc, told)?;
    let name = Text::from_str(alloc, "@a/b")?;
    Ok(PackageReq { name, version_req })
}

fn instant(told: &str) -> Result<PlainInstant, Gap> {
    match told.parse::<Timestamp>() {
        Ok(at) => Ok(instant_of(at)),
        Err(_) => Err(Gap::NoCase),
    }
}

fn limit(told: &str) -> Result<Option<NewestDependencyDate>, Gap> {
    if told == "-" {
        return Ok(None);
    }
    Ok(Some(NewestDependencyDate(instant(told)?)))
}

fn resolver(alloc: Global, date: Option<NewestDependencyDate>) -> JsrVersionResolver {
    JsrVersionResolver {
        newest_dependency_date_options: NewestDependencyDateOptions {
            date,
            exclude_jsr_pkgs: SortedSet::new(alloc),
            exclude_jsr_pkg_prefixes: Items::new(alloc),
            prefix_dates: Items::new(alloc),
        },
    }
}

type Choice<'a> = Result<
    JsrVersionResolverResolvedVersion<'a>,
    Refusal<JsrPackageReqNotFoundError>,
>;

fn picked(alloc: Global, found: &JsrVersionResolverResolvedVersion<'_>) -> Result<String, Gap> {
    let mark = if found.is_yanked { " yanked" } else { "" };
    Ok(format!(in alloc; "{}{mark}", found.version)?)
}

fn not_found(alloc: Global, error: &JsrPackageReqNotFoundError) -> Result<String, Gap> {
    let copy = Left::new(error.try_clone()?);
    lines(alloc, shown(alloc, &*copy)?.as_str())
}

fn chosen(alloc: Global, found: &Choice<'_>) -> Result<String, Gap> {
    match found {
        Ok(found) => picked(alloc, found),
        Err(Refusal::Is(error)) => not_found(alloc, error),
        Err(Refusal::Memory) => Err(Gap::Memory),
    }
}

fn chosen_in(
    alloc: Global,
    info: &JsrPackageInfo,
    date: Option<NewestDependencyDate>,
    told: &str,
) -> Result<String, Gap> {
    let (told, rest) = parts(told)?;
    let (existing, cached) = parts(rest)?;
    let req = Left::new(package(alloc, told)?);
    let existing = versions(alloc, existing)?;
    let cached = version_set(alloc, cached)?;
    let resolver = Left::new(resolver(alloc, date));
    let package = resolver.get_for_package(&req.name, info);
    chosen(
        alloc,
        &*Left::new(package.resolve_version(&*req, existing.as_slice().iter(), &*cached)),
    )
}

/// `LIMIT | REQUIREMENT | EXISTING VERSIONS | CACHED VERSIONS | PACKAGE FILE`, with `-` for none: the version of the package `@a/b` that is chosen,
/// and whether it was withdrawn, or the text of the error that there is none.
pub fn choice(alloc: Global, case: &str) -> Result<String, Gap> {
    let (date, rest) = parts(case)?;
    let Some((told, file)) = rest.split_once(" | {") else {
        return Err(Gap::NoCase);
    };
    let file = Left::new(format!(in alloc; "{{{file}")?);
    let info = Left::new(JsrPackageInfo::from_json(alloc, file.as_bytes())?);
    chosen_in(alloc, &*info, limit(date)?, told)
}

fn resolved(alloc: Global, found: &ResolveVersionResult<'_>) -> Result<String, Gap> {
    match found {
        ResolveVersionResult::Some(version) => shown(alloc, *version),
        ResolveVersionResult::None {
            had_higher_date_version,
        } => text(
            alloc,
            if *had_higher_date_version {
                "none, but a later one"
            } else {
                "none"
            },
        ),
    }
}

fn resolved_in(
    alloc: Global,
    info: &JsrPackageInfo,
    version_req: &VersionReq,
    newest_dependency_date: Option<NewestDependencyDate>,
) -> Result<String, Gap> {
    let offered = info
        .versions
        .as_map()
        .iter()
        .map(|(version, entry)| (version, Some(entry)));
    let options = ResolveVersionOptions {
        version_req,
        newest_dependency_date,
        include_all_prereleases: prerelease_fallback_applies(version_req, info),
    };
    resolved(alloc, &resolve_version(options, offered))
}

/// `REQUIREMENT | LIMIT | PACKAGE FILE`: the version that is resolved of all of the file, or whether there is a later one alone.
pub fn resolve(alloc: Global, case: &str) -> Result<String, Gap> {
    let (told, rest) = parts(case)?;
    let (date, file) = parts(rest)?;
    let info = Left::new(JsrPackageInfo::from_json(alloc, file.as_bytes())?);
    let requirement = requirement(alloc, told)?;
    resolved_in(alloc, &*info, &*requirement, limit(date)?)
}

/// `REQUIREMENT | VERSION | all or few`, by how many pre-releases count: whether the version matches.
pub fn matches(alloc: Global, case: &str) -> Result<String, Gap> {
    let (told, rest) = parts(case)?;
    let (version, count) = parts(rest)?;
    let requirement = requirement(alloc, told)?;
    let version = Left::new(plain(alloc, version)?);
    let is_match = version_matches(&*requirement, &*version, count == "all");
    text(alloc, if is_match { "yes" } else { "no" })
}

/// `TIME`: as it stands in JSON, and as a limit is printed.
pub fn time(alloc: Global, case: &str) -> Result<String, Gap> {
    let at = instant(case)?;
    let written = Left::new(PlainTimestamp::from(at).try_clone()?.to_text(alloc)?);
    let date = NewestDependencyDate(at);
    Ok(format!(in alloc; "{} | {date}", *written)?)
}

/// `LIMIT | TIME`: whether the time is below the limit.
pub fn below(alloc: Global, case: &str) -> Result<String, Gap> {
    let (limit, told) = parts(case)?;
    let is_below = NewestDependencyDate(instant(limit)?).matches(instant(told)?);
    text(alloc, if is_below { "yes" } else { "no" })
}

fn exclude(
    alloc: Global,
    options: &mut NewestDependencyDateOptions,
    name: &str,
    prefix: &str,
) -> Result<(), Gap> {
    options
        .exclude_jsr_pkgs
        .insert(Text::from_str(alloc, name)?)?;
    options
        .exclude_jsr_pkg_prefixes
        .push(Text::from_str(alloc, prefix)?)?;
    Ok(())
}

/// `NAME | PREFIX | PACKAGE`: whether a limit binds the package, where those of the name and of the prefix are excluded.
pub fn bound(alloc: Global, case: &str) -> Result<String, Gap> {
    let (name, rest) = parts(case)?;
    let (prefix, told) = parts(rest)?;
    let date = instant("2024-01-02T00:00:00Z")?;
    let mut resolver = Left::new(JsrVersionResolver {
        newest_dependency_date_options: NewestDependencyDateOptions::from_date(alloc, date),
    });
    exclude(
        alloc,
        &mut resolver.newest_dependency_date_options,
        name,
        prefix,
    )?;
    let copy = Left::new(resolver.try_clone()?);
    let package = Left::new(Text::from_str(alloc, told)?);
    let options = &copy.newest_dependency_date_options;
    let is_bound = options.get_for_package(&*package).is_some();
    text(alloc, if is_bound { "yes" } else { "no" })
}

fn refused_file(alloc: Global, fault: &Fault) -> Result<String, Gap> {
    Ok(format!(in alloc; "{}: {}", fault.class.as_str(), fault.message.as_str())?)
}

fn shown_package(alloc: Global, info: &JsrPackageInfo) -> Result<String, Gap> {
    let copy = Left::new(info.try_clone()?);
    let json = Left::new(copy.to_json(alloc)?);
    Ok(json.to_string(alloc)?)
}

/// `TEXT`: the package file that it is, as JSON again, or why it is none.
pub fn package_file(alloc: Global, case: &str) -> Result<String, Gap> {
    let answer = Left::new(JsrPackageInfo::from_json(alloc, case.as_bytes()));
    match &*answer {
        Ok(info) => shown_package(alloc, info),
        Err(Refusal::Is(fault)) => refused_file(alloc, fault),
        Err(Refusal::Memory) => Err(Gap::Memory),
    }
}

fn shown_version(alloc: Global, info: &JsrPackageVersionInfo) -> Result<String, Gap> {
    let copy = Left::new(info.try_clone()?);
    let json = Left::new(copy.to_json(alloc)?);
    Ok(json.to_string(alloc)?)
}

/// `TEXT`: the version file that it is, as JSON again, or why it is none.
pub fn version_file(alloc: Global, case: &str) -> Result<String, Gap> {
    let answer = Left::new(JsrPackageVersionInfo::from_json(alloc, case.as_bytes()));
    match &*answer {
        Ok(info) => shown_version(alloc, info),
        Err(Refusal::Is(fault)) => refused_file(alloc, fault),
        Err(Refusal::Memory) => Err(Gap::Memory),
    }
}

fn told_version(alloc: Global, told: &str) -> Result<Left<JsrPackageVersionInfo>, Gap> {
    Ok(Left::new(JsrPackageVersionInfo::from_json(alloc, told.as_bytes())?))
}

fn push_export(line: &mut String, name: &str, value: &str) -> Result<(), Gap> {
    line.push_str(name)?;
    line.push_str("=")?;
    line.push_str(value)?;
    line.push_str(" ")?;
    Ok(())
}

/// `NAME | VERSION FILE`: all exports of the file, and what the name leads to.
pub fn exports(alloc: Global, case: &str) -> Result<String, Gap> {
    let (told, file) = parts(case)?;
    let info = told_version(alloc, file)?;
    let mut line = Left::new(String::new(alloc));
    for (name, value) in info.exports() {
        push_export(&mut *line, name, value)?;
    }
    let one = info.export(told).unwrap_or("-");
    Ok(format!(in alloc; "{}| {one}", *line)?)
}

/// `PATH | VERSION FILE`: the info that the file tells of the module at the path, as JSON; `-` is none.
pub fn listed(alloc: Global, case: &str) -> Result<String, Gap> {
    let (path, file) = parts(case)?;
    let info = told_version(alloc, file)?;
    let module = Left::new(info.module_info(alloc, path)?);
    match &*module {
        Some(found) => shown_info(alloc, found),
        None => text(alloc, "-"),
    }
}
