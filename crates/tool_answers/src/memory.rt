// The words of `memory_loader`: what a loader over sources in memory answers, and how such a source is shown.
use crate::case::{Gap, Left, parts, text};
use crate::loaders::answered;
use memory_loader::{InvalidSpecifier, MemoryLoader, Source};
use pkg_versions::{JsrPackageInfo, JsrPackageVersionInfo};
use spec_base::{Fault, Refusal, Text};
use std::alloc::Global;

// The four parts of a source, with `|` between: a specifier, a kind, a name (or a target or a message), and a content.
#[derive(Clone, Copy)]
struct Row<'a> {
    specifier: &'a str,
    kind: &'a str,
    name: &'a str,
    content: &'a str,
}

fn row_of(told: &str) -> Result<Row, Gap> {
    let mut parts = told.splitn(4, "|");
    let (Some(specifier), Some(kind), Some(name), Some(content)) = (
        parts.next(),
        parts.next(),
        parts.next(),
        parts.next(),
    ) else {
        return Err(Gap::NoCase);
    };
    Ok(Row {
        specifier,
        kind,
        name,
        content,
    })
}

// Headers, each `NAME: VALUE`, with `, ` between.
fn headers_of(alloc: Global, told: &str) -> Result<Vec<(String, String)>, Gap> {
    let mut headers = Vec::new(alloc);
    for header in told.split(", ") {
        let Some((name, value)) = header.split_once(": ") else {
            return Err(Gap::NoCase);
        };
        headers.push((text(alloc, name)?, text(alloc, value)?))?;
    }
    Ok(headers)
}

fn module(alloc: Global, row: &Row) -> Result<Source<String, Vec<u8>>, Gap> {
    let content = Vec::from_slice(alloc, row.content.as_bytes())?;
    let specifier = text(alloc, row.name)?;
    Ok(Source::Module {
        specifier,
        maybe_headers: None,
        content,
    })
}

// A module without content, and with the headers that stand in its place.
fn headed(alloc: Global, row: &Row) -> Result<Source<String, Vec<u8>>, Gap> {
    let headers = headers_of(alloc, row.content)?;
    let specifier = text(alloc, row.name)?;
    Ok(Source::Module {
        specifier,
        maybe_headers: Some(headers),
        content: Vec::new(alloc),
    })
}

fn fault(alloc: Global, message: &str) -> Result<Source<String, Vec<u8>>, Gap> {
    let class = Text::from_str(alloc, "Error")?;
    let message = Text::from_str(alloc, message)?;
    Ok(Source::Err(Fault { class, message }))
}

fn source_of(alloc: Global, row: &Row) -> Result<Source<String, Vec<u8>>, Gap> {
    match row.kind {
        "module" => module(alloc, row),
        "headed" => headed(alloc, row),
        "redirect" => Ok(Source::Redirect(text(alloc, row.name)?)),
        "external" => Ok(Source::External(text(alloc, row.name)?)),
        "error" => fault(alloc, row.name),
        _ => Err(Gap::NoCase),
    }
}

// The copy of a source.
fn copy_of(alloc: Global, row: &Row) -> Result<Source<String, Vec<u8>>, Gap> {
    let source = Left::new(source_of(alloc, row)?);
    Ok(source.try_clone()?)
}

fn keyed(alloc: Global, told: &str) -> Result<(String, Source<String, Vec<u8>>), Gap> {
    let row = row_of(told)?;
    let source = copy_of(alloc, &row)?;
    Ok((text(alloc, row.specifier)?, source))
}

type Made<T> = Result<T, Refusal<InvalidSpecifier>>;

// The loader of some sources, or why there is none.
fn made(alloc: Global, told: &str) -> Result<Made<MemoryLoader>, Gap> {
    let mut sources = Vec::new(alloc);
    for row in told.split("; ") {
        if !row.is_empty() {
            sources.push(keyed(alloc, row)?)?;
        }
    }
    Ok(MemoryLoader::new(alloc, sources))
}

fn add_package(alloc: Global, loader: &mut MemoryLoader, row: &Row) -> Result<Made<()>, Gap> {
    let info = Left::new(JsrPackageInfo::from_json(alloc, row.content.as_bytes())?);
    Ok(loader.add_jsr_package_info(row.specifier, &*info))
}

fn add_version(alloc: Global, loader: &mut MemoryLoader, row: &Row) -> Result<Made<()>, Gap> {
    let info = Left::new(JsrPackageVersionInfo::from_json(alloc, row.content.as_bytes())?);
    Ok(loader.add_jsr_version_info(row.specifier, row.name, &*info))
}

// Adds a source by the call that its kind names.
fn added(alloc: Global, loader: &mut MemoryLoader, row: &Row) -> Result<Made<()>, Gap> {
    match row.kind {
        "package" => add_package(alloc, loader, row),
        "version" => add_version(alloc, loader, row),
        "bytes" => {
            let content = Vec::from_slice(alloc, row.content.as_bytes())?;
            Ok(loader.add_bytes_source(row.specifier, content))
        }
        "text" => Ok(loader.add_source_with_text(row.specifier, row.content)),
        "own" => Ok(loader.add_external_source(row.specifier)),
        _ => {
            let source = source_of(alloc, row)?;
            Ok(loader.add_source(row.specifier, source))
        }
    }
}

fn refused(alloc: Global, error: &InvalidSpecifier) -> Result<String, Gap> {
    let copy = Left::new(error.try_clone()?);
    Ok(format!(in alloc; "{} {:?}", *copy, *copy)?)
}

// The text of a refusal, and none where there is none.
fn refusal<T>(alloc: Global, made: &Made<T>) -> Result<String, Gap> {
    match made {
        Ok(_) => text(alloc, ""),
        Err(Refusal::Is(error)) => refused(alloc, error),
        Err(Refusal::Memory) => Err(Gap::Memory),
    }
}

fn push_part(lines: &mut String, part: &str) -> Result<(), Gap> {
    if !part.is_empty() {
        lines.push_str(part)?;
        lines.push_str("; ")?;
    }
    Ok(())
}

fn push_added(
    alloc: Global,
    lines: &mut String,
    loader: &mut MemoryLoader,
    told: &str,
) -> Result<(), Gap> {
    for row in told.split("; ") {
        if !row.is_empty() {
            let row = row_of(row)?;
            let made = Left::new(added(alloc, loader, &row)?);
            let part = Left::new(refusal(alloc, &*made)?);
            push_part(lines, part.as_str())?;
        }
    }
    Ok(())
}

fn push_answers(
    alloc: Global,
    lines: &mut String,
    loader: &mut MemoryLoader,
    told: &str,
) -> Result<(), Gap> {
    for question in told.split(", ") {
        let part = Left::new(answered(alloc, loader, question)?);
        push_part(lines, part.as_str())?;
    }
    Ok(())
}

// What is said of further sources, and answered to questions.
fn asked(alloc: Global, mut loader: Left<MemoryLoader>, rest: &str) -> Result<String, Gap> {
    let (further, questions) = parts(rest)?;
    let mut lines = text(alloc, "")?;
    push_added(alloc, &mut lines, &mut *loader, further)?;
    push_answers(alloc, &mut lines, &mut *loader, questions)?;
    Ok(lines)
}

/// `SOURCE; .. | SOURCE; .. | PURPOSE SPECIFIER, ..`: what a loader over the first sources, which is given the further ones one by one,
/// says of each that is refused, and what it answers to each question; or why there is no such loader. A further source may be `bytes`, `text`,
/// a module that stands outside under its own name (`own`), or the file of a `package` or of a `version`.
pub fn memory(alloc: Global, case: &str) -> Result<String, Gap> {
    let (told, rest) = parts(case)?;
    let made = Left::new(made(alloc, told)?);
    match Left::into_inner(made) {
        Ok(loader) => asked(alloc, Left::new(loader), rest),
        Err(Refusal::Is(error)) => refused(alloc, &error),
        Err(Refusal::Memory) => Err(Gap::Memory),
    }
}

/// `SOURCE`: how its copy is shown.
pub fn source(alloc: Global, case: &str) -> Result<String, Gap> {
    let row = row_of(case)?;
    let copy = Left::new(copy_of(alloc, &row)?);
    Ok(format!(in alloc; "{:?}", *copy)?)
}
