// The words of `import_map`: where the texts of imports lead by a map, and why they lead nowhere.
use crate::case::{Gap, Left, parts, text, url};
use import_map::{ImportMap, MapError, MapRefusal};
use serde_json::Value;
use source_io::Resolver;
use spec_base::{
    Fault, ModuleSpecifier, PositionRange, Range, Refusal, ResolutionKind, ResolveError,
};
use std::alloc::Global;

fn refused(alloc: Global, refusal: &MapRefusal) -> Result<String, Gap> {
    match refusal {
        MapRefusal::NotAnObject { member } => {
            Ok(format!(in alloc; "not an object: {}", member.as_str())?)
        }
        MapRefusal::DuplicateKey { key } => {
            Ok(format!(in alloc; "duplicate key: {}", key.as_str())?)
        }
    }
}

fn failed(alloc: Global, error: &MapError) -> Result<String, Gap> {
    let copy = Left::new(error.try_clone()?);
    Ok(format!(in alloc; "{}", *copy)?)
}

// Where a text leads from a module.
fn led(
    alloc: Global,
    map: &ImportMap,
    told: &str,
    referrer: &ModuleSpecifier,
) -> Result<String, Gap> {
    let answer = Left::new(map.lookup(alloc, told, referrer));
    match &*answer {
        Ok(target) => text(alloc, target.as_str()),
        Err(Refusal::Is(error)) => failed(alloc, error),
        Err(Refusal::Memory) => Err(Gap::Memory),
    }
}

fn read(alloc: Global, base: &str, told: &str) -> Result<Left<ReadMap>, Gap> {
    let base = url(alloc, base)?;
    let json = Left::new(Value::from_slice(alloc, told.as_bytes())?);
    Ok(Left::new(ImportMap::from_json(alloc, &*json, &*base)))
}

// A map, or why a value is none.
type ReadMap = Result<ImportMap, Refusal<MapRefusal>>;

/// `BASE | MAP AS JSON | REFERRER | TEXT`: where the text leads from the referrer by the map, or why it leads nowhere, or why the
/// value is no map.
pub fn map(alloc: Global, case: &str) -> Result<String, Gap> {
    let (base, rest) = parts(case)?;
    let (json, rest) = parts(rest)?;
    let (from, told) = parts(rest)?;
    let referrer = url(alloc, from)?;
    let answer = read(alloc, base, json)?;
    match &*answer {
        Ok(map) => led(alloc, map, told, &*referrer),
        Err(Refusal::Is(refusal)) => refused(alloc, refusal),
        Err(Refusal::Memory) => Err(Gap::Memory),
    }
}

fn fault(alloc: Global, fault: &Fault) -> Result<String, Gap> {
    Ok(format!(in alloc; "{}: {}", fault.class.as_str(), fault.message.as_str())?)
}

// What a map answers as a resolver, for the code of a module.
fn answered(
    alloc: Global,
    map: &ImportMap,
    told: &str,
    referrer: &ModuleSpecifier,
) -> Result<String, Gap> {
    let range = Left::new(Range {
        specifier: referrer.clone()?,
        range: PositionRange::zeroed(),
        resolution_mode: None,
    });
    let answer = Left::new(map.resolve(alloc, told, &*range, ResolutionKind::Execution));
    match &*answer {
        Ok(target) => text(alloc, target.as_str()),
        Err(Refusal::Is(ResolveError::Other(own))) => fault(alloc, own),
        Err(Refusal::Is(ResolveError::Specifier(_))) => text(alloc, "no specifier"),
        Err(Refusal::Memory) => Err(Gap::Memory),
    }
}

/// The same cases: what the map answers as a resolver, with the class of its own faults.
pub fn resolved(alloc: Global, case: &str) -> Result<String, Gap> {
    let (base, rest) = parts(case)?;
    let (json, rest) = parts(rest)?;
    let (from, told) = parts(rest)?;
    let referrer = url(alloc, from)?;
    let answer = read(alloc, base, json)?;
    match &*answer {
        Ok(map) => answered(alloc, map, told, &*referrer),
        Err(Refusal::Is(refusal)) => refused(alloc, refusal),
        Err(Refusal::Memory) => Err(Gap::Memory),
    }
}
