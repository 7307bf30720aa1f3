// The infos of a world file, and what an analyzer answers by them.
ghost use Rattle.std.specs.Prelude.{◌≡◌, IfOk};
ghost use Rattle.json_documents.specs.Documents as documents;
ghost use Rattle.spec_base.specs.Refusal.{Reads};
ghost use Rattle.world_file.specs.WorldInfos.{fault, info, info_entry, analysis_of, infos_of, analyses_of};

use crate::known_specifiers::known_keyed;
use json_documents::Json;
use json_forms::{Form, Misfit, has_names, required};
use module_info::ModuleInfo;
use shared_items::SharedItems;
use source_io::{Answer, Purpose};
use spec_base::{Fault, Items, ModuleSpecifier, Refusal};
use std::alloc::{AllocError, Global};

/// What the analysis of a module gives.
#[derive(Drop)]
pub enum InfoEntry {
    Info(ModuleInfo),
    Failed(Fault),
}

/// A fault: exactly the members `class` and `message`.
pub fn read_fault(alloc: Global, value: &Json<'_, '_>) -> Result<Fault, Refusal<Misfit>>
    ensures { Reads result (fault (documents.view value.now)) }
{
    if !has_names(value, &["class", "message"]) {
        return Err(Refusal::Is(Misfit));
    }
    let class = required(alloc, value, "class")?;
    let message = required(alloc, value, "message")?;
    Ok(Fault { class, message })
}

fn read_info(alloc: Global, value: &Json<'_, '_>) -> Result<ModuleInfo, Refusal<Misfit>>
    ensures { Reads result (info (documents.view value.now)) }
{
    match json_forms::read_info(alloc, value) {
        Ok(found) => Ok(found),
        Err(Refusal::Memory) => Err(Refusal::Memory),
        Err(Refusal::Is(_)) => Err(Refusal::Is(Misfit)),
    }
}

impl Form for InfoEntry {
    ghost form = { info_entry };

    fn read(alloc: Global, value: &Json<'_, '_>) -> Result<InfoEntry, Refusal<Misfit>> {
        match value.get("error") {
            Some(error) => {
                if !has_names(value, &["error"]) {
                    return Err(Refusal::Is(Misfit));
                }
                Ok(InfoEntry::Failed(read_fault(alloc, &error)?))
            }
            None => Ok(InfoEntry::Info(read_info(alloc, value)?)),
        }
    }
}

/// The infos of a world file, by specifier, whatever the answers: those that were read before only spare the parser the keys that are
/// texts of their specifiers.
pub fn read_infos(
    alloc: Global,
    value: &Json<'_, '_>,
    answers: &[(ModuleSpecifier, Purpose, Answer)],
) -> Result<Items<(ModuleSpecifier, InfoEntry)>, Refusal<Misfit>>
    ensures { Reads result (infos_of (documents.view value.now)) }
{
    known_keyed(alloc, value, "infos", answers)
}

fn analysis(entry: InfoEntry) -> Result<ModuleInfo, Fault>
    ensures { result ≡ analysis_of entry }
{
    match entry {
        InfoEntry::Info(info) => Ok(info),
        InfoEntry::Failed(fault) => Err(fault),
    }
}

/// What an analyzer answers by the infos.
pub fn analyses(
    alloc: Global,
    infos: Items<(ModuleSpecifier, InfoEntry)>,
) -> Result<SharedItems<(ModuleSpecifier, Result<ModuleInfo, Fault>)>, AllocError>
    ensures { IfOk result (λ infos2. infos2 ≡ analyses_of infos) }
{
    let mut analyses = Vec::with_capacity(alloc, infos.len())?;
    for (specifier, entry) in infos.into_vec() {
        analyses.push((specifier, analysis(entry)))?;
    }
    SharedItems::new(analyses)
}
