// What is kept of a registry's files, and errors that no world gives.
use crate::rows::{field, package_nv};
use graph_errors::{JsrLoadError, JsrPackageFormatError, ModuleErrorKind, ModuleLoadError};
use registry_files::{KeptVersion, VersionFile};
use semver_npm::NpmLoadError;
use spec_base::{Boxed, ModuleSpecifier, Position, PositionRange, Range, Text};
use std::alloc::Global;
use std::mem::ManuallyDrop;
use std::test::Fail;
use url::Url;
use version_dates::{NewestDependencyDate, timestamp_of};

// A file with a text as its export. What is made in these tests is left undropped, since a drop at each way out of a function is dear to
// prove.
const TEXT: &str = "{\"exports\":\"./only.ts\",\"manifest\":{}}";

fn file_of(alloc: Global, text: &str) -> Result<VersionFile, Fail> {
    let file = VersionFile::from_json(alloc, text.as_bytes())?;
    Ok(file)
}

// The URL of a version, a specifier, and its sub path.
const PLACES: &str = "\
https://jsr.io/@a/b/1.0.0/; https://jsr.io/@a/b/1.0.0/mod.ts; /mod.ts
https://jsr.io/@a/b/1.0.0/; https://jsr.io/@a/b/1.0.0-beta/mod.ts; -beta/mod.ts
https://jsr.io/@a/b/1.0.0/; https://jsr.io/@a/b/2.0.0/mod.ts; outside";

fn kept_at(alloc: Global, url: &str) -> Result<KeptVersion, Fail> {
    let file = file_of(alloc, TEXT)?;
    let nv = package_nv(alloc, "@a/b", "1.0.0")?;
    let url = Url::parse(alloc, url)?;
    Ok(KeptVersion { nv, url, file })
}

fn is_placed(kept: &KeptVersion, specifier: &Url, want: &str) -> bool {
    if kept.holds(specifier) {
        kept.path_of(specifier) == want
    } else {
        kept.path_of(specifier) == "" && want == "outside"
    }
}

fn place_holds(alloc: Global, row: &str) -> Result<bool, Fail> {
    let kept = ManuallyDrop::new(kept_at(alloc, field(row, 0))?);
    let specifier = Url::parse(alloc, field(row, 1))?;
    Ok(is_placed(&*kept, &specifier, field(row, 2)))
}

#[test]
fn places_are_as_listed(rt: HostRuntime) -> Result<(), Fail> {
    for row in PLACES.lines() {
        if !place_holds(rt.alloc(), row)? {
            return Err(Fail::new(row));
        }
    }
    Ok(())
}

#[test]
fn a_limit_is_the_epoch_where_none_is_told(rt: HostRuntime) -> Result<(), Fail> {
    let limit = timestamp_of(NewestDependencyDate::default().0);
    assert!(rt; limit == "1970-01-01T00:00:00Z".parse()?);
    Ok(())
}

fn tag_error(alloc: Global, tag: &str) -> Result<JsrLoadError, Fail> {
    let tag = Text::from_str(alloc, tag)?;
    let error = JsrPackageFormatError::VersionTagNotSupported { tag };
    Ok(JsrLoadError::PackageFormat(error))
}

fn no_path(alloc: Global, value: &str) -> Result<JsrLoadError, Fail> {
    let nv = package_nv(alloc, "@a/b", "1.0.0")?;
    let nv = Boxed::new(alloc, nv)?;
    let value = Text::from_str(alloc, value)?;
    let export_name = Text::from_str(alloc, "./c")?;
    Ok(JsrLoadError::UnjoinableExport {
        nv,
        export_name,
        value,
    })
}

// Whether the copy of an error is equal to it, and has this text.
fn is_told(alloc: Global, error: &JsrLoadError, want: &str) -> Result<bool, Fail> {
    let copy = ManuallyDrop::new(error.try_clone()?);
    Ok(*copy == *error && format!(in alloc; "{}", *copy)?.as_str() == want)
}

#[test]
fn errors_that_no_world_gives(rt: HostRuntime) -> Result<(), Fail> {
    let tag = ManuallyDrop::new(tag_error(rt.alloc(), "v^1.2")?);
    let text =
        "Version tag not supported in jsr specifiers ('v^1.2'). Remove leading 'v' before version.";
    assert!(rt; is_told(rt.alloc(), &*tag, text)?);
    let path = ManuallyDrop::new(no_path(rt.alloc(), "https:")?);
    let text = "Export './c' of '@a/b@1.0.0' is not a path: https:";
    assert!(rt; is_told(rt.alloc(), &*path, text)?);
    Ok(())
}

// The range of a text in `file:///a/main.ts`.
fn range(alloc: Global) -> Result<Range, Fail> {
    let specifier = ModuleSpecifier::parse(alloc, "file:///a/main.ts")?;
    let range = PositionRange {
        start: Position::new(0, 7),
        end: Position::new(0, 10),
    };
    Ok(Range {
        specifier,
        range,
        resolution_mode: None,
    })
}

// What stands in the place of a module of npm.
fn no_npm(alloc: Global) -> Result<ModuleErrorKind, Fail> {
    let specifier = ModuleSpecifier::parse(alloc, "npm:chalk")?;
    let referrer = range(alloc)?;
    Ok(ModuleErrorKind::Load {
        specifier,
        maybe_referrer: Some(referrer),
        err: ModuleLoadError::Npm(NpmLoadError::NotSupportedEnvironment),
    })
}

#[test]
fn an_error_has_the_place_of_its_import(rt: HostRuntime) -> Result<(), Fail> {
    let kind = ManuallyDrop::new(no_npm(rt.alloc())?);
    let text = kind.to_string_with_range(rt.alloc())?;
    let want = "npm specifiers are not supported in this environment\n    at file:///a/main.ts:1:8";
    assert!(rt; text.as_str() == want && kind.mtime().is_none());
    Ok(())
}
