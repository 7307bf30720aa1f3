// The texts of errors.
ghost use Rattle.std.specs.Fmt.{DisplaysOnOk};
ghost use Rattle.std.specs.Prelude.{Some};
ghost use Rattle.media_types.specs.Decode.{decode_fault_text};
ghost use Rattle.graph_errors.specs.Errors.{load_error_text, unsupported_reason, cjs_reason, media_reason, expectation, assertion_reason, attribute_text, with_attribute, source_phase_reason, kind_text, error_text, resolution_error_text, graph_error_text};

use crate::errors::{DecodeError, ModuleError, ModuleErrorKind, ModuleGraphError, ModuleLoadError};
use crate::resolution::ResolutionError;
use media_types::MediaType;
use spec_base::{ModuleSpecifier, Text};
use std::fmt;

impl fmt::Display for ResolutionError {
    ghost output = { λ e. Some (resolution_error_text e) };

    fn fmt<W: fmt::Write>(&self, f: &mut fmt::Formatter<W>) -> fmt::Result {
        match self {
            ResolutionError::InvalidDowngrade {
                specifier,
                range: _,
            } => write!(
                f,
                "Modules imported via https are not allowed to import http modules.\n  Importing: {specifier}"
            ),
            ResolutionError::InvalidJsrHttpsTypesImport {
                specifier,
                range: _,
            } => write!(
                f,
                "Importing JSR packages via HTTPS specifiers for type checking is not supported for performance reasons. If you would like types, import via a `jsr:` specifier instead or else use a non-statically analyzable dynamic import.\n  Importing: {specifier}"
            ),
            ResolutionError::InvalidLocalImport {
                specifier,
                range: _,
            } => write!(
                f,
                "Remote modules are not allowed to import local modules. Consider using a dynamic import instead.\n  Importing: {specifier}"
            ),
            ResolutionError::InvalidSpecifier { error, range: _ } => fmt::Display::fmt(error, f),
            ResolutionError::ResolverError {
                error,
                specifier: _,
                range: _,
            } => fmt::Display::fmt(error, f),
        }
    }
}

impl fmt::Display for DecodeError {
    ghost output = { λ e. Some (decode_fault_text e.err) };

    fn fmt<W: fmt::Write>(&self, f: &mut fmt::Formatter<W>) -> fmt::Result {
        fmt::Display::fmt(&self.err, f)
    }
}

impl fmt::Display for ModuleLoadError {
    ghost output = { λ e. Some (load_error_text e) };

    fn fmt<W: fmt::Write>(&self, f: &mut fmt::Formatter<W>) -> fmt::Result {
        match self {
            ModuleLoadError::HttpsChecksumIntegrity(error) => fmt::Display::fmt(error, f),
            ModuleLoadError::Decode(error) => fmt::Display::fmt(error, f),
            ModuleLoadError::Loader(error) => fmt::Display::fmt(error, f),
            ModuleLoadError::Jsr(error) => fmt::Display::fmt(error, f),
            ModuleLoadError::Npm(error) => fmt::Display::fmt(error, f),
            ModuleLoadError::TooManyRedirects => f.write_str("Too many redirects."),
        }
    }
}

// Modules of a media type aren't taken anywhere.
fn write_unsupported<W: fmt::Write>(f: &mut fmt::Formatter<W>, media_type: MediaType) -> fmt::Result
    ensures { DisplaysOnOk W.write_str_gives f.old result (Some (unsupported_reason media_type))
        f.new }
{
    write!(
        f,
        "Expected a JavaScript or TypeScript module, but identified a {media_type} module. Importing these types of modules is currently not supported."
    )
}

// Modules of CommonJS are taken from files alone.
fn write_cjs_reason<W: fmt::Write>(
    f: &mut fmt::Formatter<W>,
    specifier: &ModuleSpecifier,
    media_type: MediaType,
) -> fmt::Result
    ensures { DisplaysOnOk W.write_str_gives f.old result
        (Some (cjs_reason specifier.now media_type)) f.new }
{
    if specifier.scheme() == "file" {
        write_unsupported(f, media_type)
    } else {
        f.write_str("Remote CJS modules are not supported.")
    }
}

// Why a media type isn't taken at a specifier.
fn write_reason<W: fmt::Write>(
    f: &mut fmt::Formatter<W>,
    specifier: &ModuleSpecifier,
    media_type: MediaType,
) -> fmt::Result
    ensures { DisplaysOnOk W.write_str_gives f.old result
        (Some (media_reason specifier.now media_type)) f.new }
{
    match media_type {
        MediaType::Json => f.write_str(
            "Expected a JavaScript or TypeScript module, but identified a Json module. Consider importing Json modules with an import attribute with the type of \"json\".",
        ),
        MediaType::Cjs | MediaType::Cts => write_cjs_reason(f, specifier, media_type),
        _ => write_unsupported(f, media_type),
    }
}

// What the attribute of an import says that a module is.
fn write_expectation<W: fmt::Write>(f: &mut fmt::Formatter<W>, expected: MediaType) -> fmt::Result
    ensures { DisplaysOnOk W.write_str_gives f.old result (Some (expectation expected)) f.new }
{
    write!(f, "Expected a {expected} module, but identified a ")
}

// That no module is made at a specifier under an attribute.
fn write_attribute<W: fmt::Write>(
    f: &mut fmt::Formatter<W>,
    specifier: &ModuleSpecifier,
    kind: &Text,
) -> fmt::Result
    ensures { DisplaysOnOk W.write_str_gives f.old result
        (Some (attribute_text specifier.now kind.now)) f.new }
{
    write!(
        f,
        "The import attribute type of \"{kind}\" is unsupported.\n  Specifier: {specifier}"
    )
}

// That a module is of another media type than its import says.
fn write_assertion<W: fmt::Write>(
    f: &mut fmt::Formatter<W>,
    actual: MediaType,
    expected: MediaType,
) -> fmt::Result
    ensures { DisplaysOnOk W.write_str_gives f.old result (Some (assertion_reason actual expected))
        f.new }
{
    write_expectation(f, expected)?;
    match actual {
        MediaType::Json => f.write_str(
            "Json module. Consider importing Json modules with an import attribute with the type of \"json\".",
        ),
        _ => write!(f, "{actual} module."),
    }
}

// An attribute `type`, as it is written behind an import.
fn write_with<W: fmt::Write>(f: &mut fmt::Formatter<W>, attribute: &Option<Text>) -> fmt::Result
    ensures { DisplaysOnOk W.write_str_gives f.old result (Some (with_attribute attribute.now))
        f.new }
{
    match attribute {
        Some(kind) => write!(f, " with {{ type: \"{kind}\" }}"),
        None => Ok(()),
    }
}

// Why a module isn't taken in the source phase.
fn write_source_phase<W: fmt::Write>(
    f: &mut fmt::Formatter<W>,
    media_type: MediaType,
    attribute: &Option<Text>,
) -> fmt::Result
    ensures { DisplaysOnOk W.write_str_gives f.old result
        (Some (source_phase_reason media_type attribute.now)) f.new }
{
    write!(f, "Importing {media_type} modules")?;
    write_with(f, attribute)?;
    f.write_str(" at source phase is unsupported.")
}

impl fmt::Display for ModuleErrorKind {
    ghost output = { λ e. Some (kind_text e) };

    fn fmt<W: fmt::Write>(&self, f: &mut fmt::Formatter<W>) -> fmt::Result {
        match self {
            ModuleErrorKind::Load {
                specifier: _,
                maybe_referrer: _,
                err,
            } => fmt::Display::fmt(err, f),
            ModuleErrorKind::Missing {
                specifier,
                maybe_referrer: _,
            } => write!(f, "Module not found \"{specifier}\"."),
            ModuleErrorKind::MissingDynamic {
                specifier,
                referrer: _,
            } => write!(f, "Dynamic import not found \"{specifier}\"."),
            ModuleErrorKind::Parse {
                specifier: _,
                mtime: _,
                diagnostic,
            } => fmt::Display::fmt(diagnostic, f),
            ModuleErrorKind::WasmParse {
                specifier,
                mtime: _,
                err,
            } => write!(
                f,
                "The Wasm module could not be parsed: {err}\n  Specifier: {specifier}"
            ),
            ModuleErrorKind::UnsupportedMediaType {
                specifier,
                media_type,
                maybe_referrer: _,
            } => {
                write_reason(f, specifier, *media_type)?;
                write!(f, "\n  Specifier: {specifier}")
            }
            ModuleErrorKind::InvalidTypeAssertion {
                specifier,
                referrer: _,
                actual_media_type,
                expected_media_type,
            } => {
                write_assertion(f, *actual_media_type, *expected_media_type)?;
                write!(f, "\n  Specifier: {specifier}")
            }
            ModuleErrorKind::UnsupportedImportAttributeType {
                specifier,
                referrer: _,
                kind,
            } => write_attribute(f, specifier, kind),
            ModuleErrorKind::UnsupportedModuleTypeForSourcePhaseImport {
                specifier,
                referrer: _,
                actual_media_type,
                actual_attribute_type,
            } => {
                write_source_phase(f, *actual_media_type, actual_attribute_type)?;
                write!(f, "\n  Specifier: {specifier}")
            }
        }
    }
}

impl fmt::Display for ModuleError {
    ghost output = { λ e. Some (error_text e) };

    fn fmt<W: fmt::Write>(&self, f: &mut fmt::Formatter<W>) -> fmt::Result {
        fmt::Display::fmt(self.0.get(), f)
    }
}

impl fmt::Display for ModuleGraphError {
    ghost output = { λ e. Some (graph_error_text e) };

    fn fmt<W: fmt::Write>(&self, f: &mut fmt::Formatter<W>) -> fmt::Result {
        match self {
            ModuleGraphError::ModuleError(error) => fmt::Display::fmt(error, f),
            ModuleGraphError::ResolutionError(error) => fmt::Display::fmt(error, f),
            ModuleGraphError::TypesResolutionError(error) => {
                write!(f, "Failed resolving types. {error}")
            }
        }
    }
}
