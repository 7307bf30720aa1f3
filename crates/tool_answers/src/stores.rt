// The words of `graph_store` about stores: what stands in their bytes, and what is put into them.
use crate::case::{Gap, Left, bytes, parts, text};
use graph_store::{NotAStore, Store, StoreEntry};
use media_types::Headers;
use source_io::{Answer, CacheResponse, LoadResponse, Purpose};
use spec_base::{LoadError, Refusal};
use std::alloc::Global;

/// The word of a purpose.
pub fn purpose_word(purpose: Purpose) -> &'static str {
    match purpose {
        Purpose::LoadUse => "load",
        Purpose::EnsureUse => "ensure",
        Purpose::LoadReload => "load_again",
        Purpose::EnsureReload => "ensure_again",
        Purpose::LoadOnly => "load_cached",
    }
}

fn failed(alloc: Global, error: &LoadError) -> Result<String, Gap> {
    match error {
        LoadError::Other(fault) => {
            Ok(format!(in alloc;
                "failed {}: {}",
                fault.class.as_str(),
                fault.message.as_str()
            )?)
        }
        LoadError::ChecksumIntegrity(sums) => {
            Ok(format!(in alloc;
                "sum {} for {}",
                sums.actual.as_str(),
                sums.expected.as_str()
            )?)
        }
    }
}

fn headers_shown(alloc: Global, headers: &Headers) -> Result<String, Gap> {
    let mut shown = text(alloc, if headers.len() == 0 { "{}" } else { "" })?;
    for (name, value) in headers.as_map().iter() {
        let header = Left::new(format!(in alloc; "{{{name}:{value}}}")?);
        shown.push_str(header.as_str())?;
    }
    Ok(shown)
}

// Each header, and `-` where none are told.
fn told_headers(alloc: Global, headers: &Option<Headers>) -> Result<String, Gap> {
    match headers {
        Some(headers) => headers_shown(alloc, headers),
        None => text(alloc, "-"),
    }
}

fn module(alloc: Global, response: &LoadResponse) -> Result<String, Gap> {
    match response {
        LoadResponse::External { specifier } => {
            Ok(format!(in alloc; "external {}", specifier.as_str())?)
        }
        LoadResponse::Redirect { specifier } => {
            Ok(format!(in alloc; "redirect {}", specifier.as_str())?)
        }
        LoadResponse::Module {
            content,
            mtime,
            specifier,
            maybe_headers,
        } => {
            let held = Left::new(hex::encode(alloc, content.as_slice())?);
            let headers = Left::new(told_headers(alloc, maybe_headers)?);
            let name = specifier.as_str();
            Ok(format!(in alloc; "module {name} {mtime:?} {} {}", *headers, *held)?)
        }
    }
}

/// An answer in one line.
pub fn answer_line(alloc: Global, answer: &Answer) -> Result<String, Gap> {
    match answer {
        Answer::Load(Ok(Some(response))) => module(alloc, response),
        Answer::Load(Ok(None)) | Answer::Ensure(Ok(None)) => text(alloc, "missing"),
        Answer::Load(Err(error)) | Answer::Ensure(Err(error)) => failed(alloc, error),
        Answer::Ensure(Ok(Some(CacheResponse::Cached))) => text(alloc, "cached"),
        Answer::Ensure(Ok(Some(CacheResponse::Redirect { specifier }))) => {
            Ok(format!(in alloc; "redirect {}", specifier.as_str())?)
        }
    }
}

fn push_entry(alloc: Global, lines: &mut String, entry: &StoreEntry) -> Result<(), Gap> {
    let answer = Left::new(answer_line(alloc, &entry.answer)?);
    let name = entry.specifier.as_str();
    let word = purpose_word(entry.purpose);
    let line = Left::new(format!(in alloc; "; {name} {word} {}", *answer)?);
    lines.push_str(line.as_str())?;
    Ok(())
}

// The entries, and whether the store is written as these bytes.
fn listed(alloc: Global, store: &Store, read: &[u8]) -> Result<String, Gap> {
    let mut lines = text(alloc, "entries")?;
    for entry in store.entries() {
        push_entry(alloc, &mut lines, entry)?;
    }
    let again = Left::new(store.encode()?);
    lines.push_str(if again.as_slice() == read {
        ""
    } else {
        "; written otherwise"
    })?;
    Ok(lines)
}

// A store, or why bytes are none.
type Decoded = Result<Store, Refusal<NotAStore>>;

/// `BYTES IN HEX`: the entries of the store that they are, or that they are none.
pub fn store(alloc: Global, case: &str) -> Result<String, Gap> {
    let read = bytes(alloc, case)?;
    let answer: Left<Decoded> = Left::new(Store::decode(alloc, read.as_slice()));
    match &*answer {
        Ok(store) => listed(alloc, store, read.as_slice()),
        Err(Refusal::Is(_)) => text(alloc, "no store"),
        Err(Refusal::Memory) => Err(Gap::Memory),
    }
}

/// The store of bytes in hex.
pub fn told_store(alloc: Global, told: &str) -> Result<Store, Gap> {
    let read = bytes(alloc, told)?;
    Ok(Store::decode(alloc, read.as_slice())?)
}

// Puts a copy of an entry, where its answer has its purpose's form.
fn put_copy(store: &mut Store, entry: &StoreEntry) -> Result<bool, Gap> {
    let formed = match &entry.answer {
        Answer::Load(_) => !entry.purpose.is_ensure(),
        Answer::Ensure(_) => entry.purpose.is_ensure(),
    };
    if !formed {
        return Err(Gap::NoCase);
    }
    let copy = entry.try_clone()?;
    Ok(store.put(copy)?)
}

/// The bytes of a store in hex.
pub fn shown(alloc: Global, store: &Store) -> Result<String, Gap> {
    let written = Left::new(store.encode()?);
    Ok(hex::encode(alloc, written.as_slice())?)
}

/// `STORE IN HEX | STORE IN HEX`: whether each entry of the second one is put into the first one, and the bytes that this then is.
pub fn put(alloc: Global, case: &str) -> Result<String, Gap> {
    let (old, new) = parts(case)?;
    let mut store = Left::new(told_store(alloc, old)?);
    let others = Left::new(told_store(alloc, new)?);
    let mut lines = text(alloc, "")?;
    for entry in others.entries() {
        let added = put_copy(&mut *store, entry)?;
        lines.push_str(if added { "put " } else { "stood " })?;
    }
    let written = Left::new(shown(alloc, &*store)?);
    lines.push_str(written.as_str())?;
    Ok(lines)
}
