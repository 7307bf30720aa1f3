// The texts of why a registry of packages gives no module.
ghost use Rattle.std.specs.Fmt.{DisplaysOnOk};
ghost use Rattle.std.specs.Prelude.{◌≡◌, IfOk, Some};
ghost use Rattle.graph_errors.specs.JsrErrors.{is_v_range, tag_hint, format_error_text, further_lines, export_lines, unknown_export, unjoinable_text, version_failure, version_sum_text, package_failure_text, jsr_error_text};

use crate::jsr_error::{JsrLoadError, JsrPackageFormatError};
use semver_npm::{PackageName, PackageNv, VersionReq};
use spec_base::{ChecksumIntegrityError, LoadError, Refusal, Text};
use std::alloc::AllocError;
use std::fmt;

// Whether a tag is a `v` before a requirement that is no tag.
fn is_v_range(tag: &Text) -> Result<bool, AllocError>
    ensures { IfOk result (λ b. b ≡ is_v_range tag.now) }
{
    let tag = tag.try_clone()?.into_string();
    if !tag.as_str().starts_with("v") {
        return Ok(false);
    }
    match VersionReq::parse_from_specifier(*tag.allocator(), &tag.as_str()[1..]) {
        Ok(requirement) => Ok(requirement.tag().is_none()),
        Err(Refusal::Memory) => Err(AllocError),
        Err(Refusal::Is(_)) => Ok(false),
    }
}

// What is to be done about a tag, where that is known.
fn write_tag_hint<W: fmt::Write>(f: &mut fmt::Formatter<W>, tag: &Text) -> fmt::Result
    ensures { DisplaysOnOk W.write_str_gives f.old result (Some (tag_hint tag.now)) f.new }
{
    if is_v_range(tag)? {
        f.write_str(" Remove leading 'v' before version.")
    } else {
        Ok(())
    }
}

/// Printing a tag copies it. An error comes where the writer gives one, and for want of memory.
impl fmt::Display for JsrPackageFormatError {
    ghost output = { λ e. Some (format_error_text e) };

    fn fmt<W: fmt::Write>(&self, f: &mut fmt::Formatter<W>) -> fmt::Result {
        match self {
            JsrPackageFormatError::JsrPackageParseError(error) => fmt::Display::fmt(error, f),
            JsrPackageFormatError::VersionTagNotSupported { tag } => {
                write!(f, "Version tag not supported in jsr specifiers ('{tag}').")?;
                write_tag_hint(f, tag)
            }
        }
    }
}

// Exports after the first, each on a line of its own.
fn write_further<W: fmt::Write>(f: &mut fmt::Formatter<W>, names: &[Text]) -> fmt::Result
    ensures { DisplaysOnOk W.write_str_gives f.old result (Some (further_lines names.now)) f.new }
{
    for name in names {
        write!(f, "\n * {name}")?;
    }
    Ok(())
}

// The exports of a version, each on a line of its own.
fn write_exports<W: fmt::Write>(f: &mut fmt::Formatter<W>, names: &[Text]) -> fmt::Result
    ensures { DisplaysOnOk W.write_str_gives f.old result (Some (export_lines names.now)) f.new }
{
    match names {
        [] => Ok(()),
        [first, further @ ..] => {
            write!(f, " * {first}")?;
            write_further(f, further)
        }
    }
}

// That a version has no export of this name.
fn write_unknown<W: fmt::Write>(
    f: &mut fmt::Formatter<W>,
    nv: &PackageNv,
    export_name: &Text,
) -> fmt::Result
    ensures { DisplaysOnOk W.write_str_gives f.old result
        (Some (unknown_export nv.now export_name.now)) f.new }
{
    write!(
        f,
        "Unknown export '{export_name}' for '{nv}'.\n  Package exports:\n"
    )
}

// That an export of a version is no path.
fn write_unjoinable<W: fmt::Write>(
    f: &mut fmt::Formatter<W>,
    nv: &PackageNv,
    export_name: &Text,
    value: &Text,
) -> fmt::Result
    ensures { DisplaysOnOk W.write_str_gives f.old result
        (Some (unjoinable_text nv.now export_name.now value.now)) f.new }
{
    write!(f, "Export '{export_name}' of '{nv}' is not a path: {value}")
}

// That a version's file isn't there.
fn write_version_failure<W: fmt::Write>(f: &mut fmt::Formatter<W>, nv: &PackageNv) -> fmt::Result
    ensures { DisplaysOnOk W.write_str_gives f.old result (Some (version_failure nv.now)) f.new }
{
    write!(
        f,
        "JSR package version manifest for '{nv}' failed to load: "
    )
}

// That a version's file isn't the one whose sum is known.
fn write_version_sum<W: fmt::Write>(
    f: &mut fmt::Formatter<W>,
    nv: &PackageNv,
    error: &ChecksumIntegrityError,
) -> fmt::Result
    ensures { DisplaysOnOk W.write_str_gives f.old result (Some (version_sum_text nv.now error.now))
        f.new }
{
    write_version_failure(f, nv)?;
    fmt::Display::fmt(error, f)
}

// That a package's file isn't there.
fn write_package_failure<W: fmt::Write>(
    f: &mut fmt::Formatter<W>,
    name: &PackageName,
    error: &LoadError,
) -> fmt::Result
    ensures { DisplaysOnOk W.write_str_gives f.old result
        (Some (package_failure_text name.now error.now)) f.new }
{
    write!(
        f,
        "JSR package manifest for '{name}' failed to load. {error}"
    )
}

impl fmt::Display for JsrLoadError {
    ghost output = { λ e. Some (jsr_error_text e) };

    fn fmt<W: fmt::Write>(&self, f: &mut fmt::Formatter<W>) -> fmt::Result {
        match self {
            JsrLoadError::UnsupportedManifestChecksum => f.write_str(
                "Unsupported checksum in JSR package manifest. Maybe try upgrading deno?",
            ),
            JsrLoadError::ContentChecksumIntegrity(error) => fmt::Display::fmt(error, f),
            JsrLoadError::ContentLoadExternalSpecifier => f.write_str(
                "Loader should never return an external specifier for a jsr: specifier content load.",
            ),
            JsrLoadError::ContentLoad(error) => fmt::Display::fmt(error, f),
            JsrLoadError::PackageManifestLoad(name, error) => write_package_failure(f, name, error),
            JsrLoadError::PackageNotFound(name) => write!(f, "JSR package not found: {name}"),
            JsrLoadError::PackageVersionNotFound(nv) => {
                f.write_str("JSR package version not found: ")?;
                fmt::Display::fmt(nv.get(), f)
            }
            JsrLoadError::PackageVersionManifestLoad(nv, fault) => {
                write_version_failure(f, nv.get())?;
                fmt::Display::fmt(fault, f)
            }
            JsrLoadError::PackageVersionManifestChecksumIntegrity(nv, error) => {
                write_version_sum(f, nv.get(), error)
            }
            JsrLoadError::PackageFormat(error) => fmt::Display::fmt(error, f),
            JsrLoadError::PackageReqNotFound(error) => fmt::Display::fmt(error, f),
            JsrLoadError::RedirectInPackage(specifier) => write!(
                f,
                "Redirects in the JSR registry are not supported (redirected to '{specifier}')"
            ),
            JsrLoadError::UnknownExport {
                nv,
                export_name,
                exports,
            } => {
                write_unknown(f, nv.get(), export_name)?;
                write_exports(f, exports.as_slice())
            }
            JsrLoadError::UnjoinableExport {
                nv,
                export_name,
                value,
            } => write_unjoinable(f, nv.get(), export_name, value),
        }
    }
}
