// The words of `source_sums`, `data_urls` and `wasm_dts`: sums of sources, what data URLs hold, and declarations of WebAssembly modules.
use crate::case::{Gap, Left, bytes, lines, parts, shown, text, url};
use data_urls::{DataUrl, data_url_source, standard_base64};
use source_sums::{ChecksumIntegrityError, LoaderChecksum};
use spec_base::{Fault, Refusal};
use std::alloc::Global;
use wasm_dts::wasm_module_to_dts;

fn refused_sum(alloc: Global, error: &ChecksumIntegrityError) -> Result<String, Gap> {
    let copy = Left::new(error.try_clone()?);
    lines(alloc, shown(alloc, &*copy)?.as_str())
}

/// `SUM | BYTES IN HEX`: whether they are a source of this sum, or why not.
pub fn check(alloc: Global, case: &str) -> Result<String, Gap> {
    let (sum, told) = parts(case)?;
    let checksum = Left::new(LoaderChecksum::new(text(alloc, sum)?));
    let source = Left::new(bytes(alloc, told)?);
    let answer = Left::new(checksum.check_source(alloc, source.as_slice()));
    match &*answer {
        Ok(()) => text(alloc, "yes"),
        Err(Refusal::Is(error)) => refused_sum(alloc, error),
        Err(Refusal::Memory) => Err(Gap::Memory),
    }
}

/// `BYTES IN HEX`: their sum.
pub fn sum(alloc: Global, case: &str) -> Result<String, Gap> {
    let source = Left::new(bytes(alloc, case)?);
    Ok(LoaderChecksum::generate(alloc, source.as_slice())?)
}

fn held(alloc: Global, data: &DataUrl) -> Result<String, Gap> {
    let copy = Left::new(data.try_clone()?);
    let content = Left::new(hex::encode(alloc, copy.content.as_slice())?);
    Ok(format!(in alloc; "{} | {}", copy.content_type.as_str(), *content)?)
}

fn fault(alloc: Global, fault: &Fault) -> Result<String, Gap> {
    Ok(format!(in alloc; "{}: {}", fault.class.as_str(), fault.message.as_str())?)
}

/// `SPECIFIER`: the content type that it tells as a data URL, and the content in hex, or why it is none.
pub fn data_url(alloc: Global, case: &str) -> Result<String, Gap> {
    let specifier = url(alloc, case)?;
    let answer = Left::new(data_url_source(alloc, &*specifier));
    match &*answer {
        Ok(data) => held(alloc, data),
        Err(Refusal::Is(refused)) => fault(alloc, refused),
        Err(Refusal::Memory) => Err(Gap::Memory),
    }
}

/// `TEXT`: the bytes in hex that it stands for as base64, or that it stands for none.
pub fn base64(alloc: Global, case: &str) -> Result<String, Gap> {
    let answer = Left::new(standard_base64(alloc, case));
    match &*answer {
        Ok(found) => Ok(hex::encode(alloc, found.as_slice())?),
        Err(Refusal::Is(_)) => text(alloc, "refused"),
        Err(Refusal::Memory) => Err(Gap::Memory),
    }
}

/// `BYTES IN HEX`, with spaces anywhere: the lines of the declarations of a WebAssembly module, each with `\n` behind it, or why they are none.
pub fn wasm(alloc: Global, case: &str) -> Result<String, Gap> {
    let told = Left::new(case.replace(alloc, " ", "")?);
    let module = Left::new(bytes(alloc, told.as_str())?);
    let answer = Left::new(wasm_module_to_dts(alloc, module.as_slice()));
    match &*answer {
        Ok(found) => lines(alloc, found.as_str()),
        Err(Refusal::Is(refusal)) => shown(alloc, refusal),
        Err(Refusal::Memory) => Err(Gap::Memory),
    }
}
