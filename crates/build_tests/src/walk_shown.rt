// The entries and the errors of walks, as text.
use crate::walk_options::{OneChecked, options};
use graph_core::{ModuleGraph, ModuleGraphError};
use graph_tests::{has_error, reached, url};
use graph_walk::{ModuleEntryRef, ModuleGraphErrorIterator, WalkGraph};
use spec_base::{Boxed, Items, ModuleSpecifier, Refusal};
use std::alloc::{AllocError, Global};
use std::test::Fail;

// The options and the roots of `HOW from ROOTS`.
fn how_and_roots(alloc: Global, rest: &str) -> Result<(&str, Items<ModuleSpecifier>), Fail> {
    let (how, words) = rest.split_once(" from ").unwrap_or((rest, ""));
    let mut roots = Items::new(alloc);
    for word in words.split_whitespace() {
        roots.push(url(alloc, word)?)?;
    }
    Ok((how, roots))
}

// Adds one entry.
fn put_entry(
    alloc: Global,
    text: &mut String,
    specifier: &ModuleSpecifier,
    entry: ModuleEntryRef<'_>,
) -> Result<(), Fail> {
    let shown = match entry {
        ModuleEntryRef::Module(_) => format!(in alloc; "module {specifier}; ")?,
        ModuleEntryRef::Err(_) => format!(in alloc; "error {specifier}; ")?,
        ModuleEntryRef::Redirect(target) => format!(in alloc; "redirect {specifier} {target}; ")?,
    };
    text.push_str(shown.as_str())?;
    Ok(())
}

/// The entries of a walk of `HOW from ROOTS`, by two callers that loop over it.
pub fn walked(alloc: Global, graph: &ModuleGraph, rest: &str) -> Result<String, Fail> {
    let (how, roots) = how_and_roots(alloc, rest)?;
    let mut text = String::new(alloc);
    let found = reached(alloc, graph, roots.as_slice(), options(how, &OneChecked))?;
    for (specifier, entry) in found {
        put_entry(alloc, &mut text, specifier, entry)?;
    }
    let finds = has_error(alloc, graph, roots.as_slice(), options(how, &OneChecked))?;
    if finds == text.contains("error ") {
        Ok(text)
    } else {
        Err(Fail::new("another answer about errors"))
    }
}

/// The entries of a walk of `HOW from ROOTS` that skips what each entry would still add.
pub fn skipped(alloc: Global, graph: &ModuleGraph, rest: &str) -> Result<String, Fail> {
    let (how, roots) = how_and_roots(alloc, rest)?;
    let mut text = String::new(alloc);
    let mut walk = graph.walk(alloc, roots.as_slice(), options(how, &OneChecked))?;
    while let Some((specifier, entry)) = walk.advance() {
        put_entry(alloc, &mut text, specifier, entry)?;
        walk.skip_previous_dependencies();
    }
    Ok(text)
}

// Adds the lines of an error.
fn put_error(alloc: Global, text: &mut String, error: &ModuleGraphError) -> Result<(), Fail> {
    let shown = format!(in alloc; "{error}")?;
    for line in shown.as_str().lines() {
        text.push_str(line)?;
    }
    text.push_str("; ")?;
    Ok(())
}

// Adds an error that was found, by its copy.
fn put_found(
    alloc: Global,
    text: &mut String,
    found: &Result<ModuleGraphError, AllocError>,
) -> Result<(), Fail> {
    match found {
        Ok(error) => {
            let copy = Boxed::new(alloc, error.try_clone()?)?;
            put_error(alloc, text, copy.get())
        }
        Err(_) => Err(Fail::new("no memory")),
    }
}

fn put_errors(
    alloc: Global,
    text: &mut String,
    errors: ModuleGraphErrorIterator<'_, '_, OneChecked>,
) -> Result<(), Fail> {
    for found in errors {
        let found = Boxed::new(alloc, found)?;
        put_found(alloc, text, found.get())?;
    }
    Ok(())
}

// Whether the first error of a walk begins a text, which is empty where there is none.
fn begins(
    alloc: Global,
    found: &Result<(), Refusal<ModuleGraphError>>,
    wanted: &str,
) -> Result<bool, Fail> {
    match found {
        Ok(()) => Ok(wanted.is_empty()),
        Err(Refusal::Memory) => Err(Fail::new("no memory")),
        Err(Refusal::Is(error)) => {
            let mut text = String::new(alloc);
            put_error(alloc, &mut text, error)?;
            Ok(wanted.starts_with(text.as_str()))
        }
    }
}

/// The errors of a walk of `HOW from ROOTS`, of which the first one is that which validating it answers.
pub fn failed(alloc: Global, graph: &ModuleGraph, rest: &str) -> Result<String, Fail> {
    let (how, roots) = how_and_roots(alloc, rest)?;
    let mut text = String::new(alloc);
    let walk = graph.walk(alloc, roots.as_slice(), options(how, &OneChecked))?;
    put_errors(alloc, &mut text, walk.errors(alloc))?;
    let walk = graph.walk(alloc, roots.as_slice(), options(how, &OneChecked))?;
    let first = Boxed::new(alloc, walk.validate(alloc))?;
    if begins(alloc, first.get(), text.as_str())? {
        Ok(text)
    } else {
        Err(Fail::new("another first error"))
    }
}
