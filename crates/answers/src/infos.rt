// The words of `module_info` and `json_forms`: infos as JSON, and what stands in JSON. What can be copied is shown by its copy.
use crate::case::{Gap, Left, text};
use json_documents::Json;
use json_forms::{InfoFault, Misfit, info_from_json, info_to_json, is_whole, keyed_or_empty};
use module_info::{DependencyDescriptor, ImportAttributes, ModuleInfo};
use serde_json::Value;
use spec_base::{Items, ModuleSpecifier, Refusal};
use std::alloc::Global;

fn value(alloc: Global, told: &str) -> Result<Left<Value>, Gap> {
    Ok(Left::new(Value::from_slice(alloc, told.as_bytes())?))
}

/// The JSON of an info.
pub fn shown_info(alloc: Global, info: &ModuleInfo) -> Result<String, Gap> {
    let copy = Left::new(info.try_clone()?);
    let json = Left::new(info_to_json(alloc, &*copy)?);
    Ok(json.to_string(alloc)?)
}

fn refused(alloc: Global, fault: &InfoFault) -> Result<String, Gap> {
    let copy = Left::new(fault.try_clone()?);
    Ok(format!(in alloc; "refused: {:?}", copy.member.as_str())?)
}

/// `JSON`: the info that it is, as JSON again, or the member that hasn't its form.
pub fn info(alloc: Global, case: &str) -> Result<String, Gap> {
    let json = value(alloc, case)?;
    let answer = Left::new(info_from_json(alloc, &*json));
    match &*answer {
        Ok(info) => shown_info(alloc, info),
        Err(Refusal::Is(fault)) => refused(alloc, fault),
        Err(Refusal::Memory) => Err(Gap::Memory),
    }
}

/// The info that a text has as JSON.
pub fn told_info(alloc: Global, told: &str) -> Result<ModuleInfo, Gap> {
    Ok(info_from_json(alloc, &*value(alloc, told)?)?)
}

fn told_attributes(alloc: Global, attributes: &ImportAttributes) -> Result<String, Gap> {
    let is_asset = attributes.has_asset();
    Ok(format!(in alloc; "{:?} {is_asset}", attributes.get("type"))?)
}

/// `JSON` of an info: the type that the attributes of its first import tell, and whether the import is one of an asset.
pub fn attributes(alloc: Global, case: &str) -> Result<String, Gap> {
    let info = Left::new(told_info(alloc, case)?);
    match info.dependencies.as_slice() {
        [DependencyDescriptor::Static(import), ..] => {
            told_attributes(alloc, &import.import_attributes)
        }
        _ => Err(Gap::NoCase),
    }
}

/// `JSON`: whether its numbers are whole ones of 64 bits without a sign.
pub fn whole(alloc: Global, case: &str) -> Result<String, Gap> {
    let json = value(alloc, case)?;
    text(alloc, if is_whole(&*json) { "yes" } else { "no" })
}

type Sizes = Items<(ModuleSpecifier, u64)>;

fn sizes(alloc: Global, told: &Value) -> Result<Sizes, Refusal<Misfit>> {
    keyed_or_empty(alloc, &Json::Owned(told), "sizes")
}

/// `JSON`: how many specifiers its member `sizes` tells numbers of, or that it hasn't this form.
pub fn keyed(alloc: Global, case: &str) -> Result<String, Gap> {
    let json = value(alloc, case)?;
    let answer = Left::new(sizes(alloc, &*json));
    match &*answer {
        Ok(found) => Ok(format!(in alloc; "{}", found.len())?),
        Err(Refusal::Is(_)) => text(alloc, "refused"),
        Err(Refusal::Memory) => Err(Gap::Memory),
    }
}
