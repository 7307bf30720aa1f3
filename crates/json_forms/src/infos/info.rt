// Module info as JSON, both ways.
ghost use Rattle.std.specs.Prelude.{◌≡◌, Ok, IfOk};
ghost use Rattle.serde_json.specs.View.{view};
ghost use Rattle.json_documents.specs.Documents as documents;
ghost use Rattle.spec_base.specs.Refusal.{Answers};
ghost use Rattle.json_forms.specs.Member.{optional, with_default};
ghost use Rattle.json_forms.specs.Infos.Info.{named, info_of, info_json};

use crate::form::Form;
use crate::member::{optional, or_default};
use crate::rows::{if_true, object};
use crate::shown::{Shown, if_any, optional_json};
use json_documents::Json;
use module_info::ModuleInfo;
use serde_json::Value;
use spec_base::{Items, Refusal, Text};
use std::alloc::{AllocError, Global};

/// The JSON is no module info.
#[derive(Clone, PartialEq, Eq, Debug, Drop)]
pub struct InfoFault {
    /// The first top-level member, in the order of keys, that hasn't its form; empty where the value is
    /// no object.
    pub member: Text,
}

impl InfoFault {
    /// A copy. The only refusal is want of memory.
    pub fn try_clone(&self) -> Result<InfoFault, AllocError>
        ensures { IfOk result (λ copy. copy ≡ self.now) }
    {
        self.clone()
    }
}

/// The info that a JSON object gives. An absent member counts as empty, and members with names that
/// aren't known are passed over, also those of imports and references. `InfoFault` comes exactly where
/// the value is no object or a member hasn't its form.
pub fn info_from_json(alloc: Global, value: &Value) -> Result<ModuleInfo, Refusal<InfoFault>>
    ensures { Answers result (info_of (view value.now)) }
{
    read_info(alloc, &Json::Owned(value))
}

/// As `info_from_json`, of a value of a document too.
pub fn read_info(alloc: Global, value: &Json<'_, '_>) -> Result<ModuleInfo, Refusal<InfoFault>>
    ensures { Answers result (info_of (documents.view value.now)) }
{
    if !value.is_object() {
        return Err(Refusal::Is(fault_at(alloc, "")?));
    }
    let dependencies = named_member(alloc, value, "dependencies", Items::new(alloc))?;
    let jsdoc_imports = named_member(alloc, value, "jsdocImports", Items::new(alloc))?;
    let jsx_import_source = named_optional(alloc, value, "jsxImportSource")?;
    let jsx_import_source_types = named_optional(alloc, value, "jsxImportSourceTypes")?;
    let is_script = named_member(alloc, value, "script", false)?;
    let self_types_specifier = named_optional(alloc, value, "selfTypesSpecifier")?;
    let source_map_url = named_optional(alloc, value, "sourceMapUrl")?;
    let ts_references = named_member(alloc, value, "tsReferences", Items::new(alloc))?;
    Ok(ModuleInfo {
        is_script,
        dependencies,
        ts_references,
        self_types_specifier,
        jsx_import_source,
        jsx_import_source_types,
        source_map_url,
        jsdoc_imports,
    })
}

/// The JSON of the info, which `info_from_json` reads as the same info. A part that is empty, absent or
/// false is left out, as are the parts of imports that are. The only refusal is want of memory.
pub fn info_to_json(alloc: Global, info: &ModuleInfo) -> Result<Value, AllocError>
    ensures value { IfOk result (λ v. view v ≡ info_json info.now) }
    ensures reads_back { IfOk result (λ v. info_of (view v) ≡ Ok info.now) }
{
    info.to_json(alloc)
}

impl Shown for ModuleInfo {
    ghost json = { info_json };

    fn to_json(&self, alloc: Global) -> Result<Value, AllocError> {
        let rows = vec![in alloc;
            ("dependencies", if_any(alloc, &self.dependencies)?),
            ("jsdocImports", if_any(alloc, &self.jsdoc_imports)?),
            (
                "jsxImportSource",
                optional_json(alloc, &self.jsx_import_source)?
            ),
            (
                "jsxImportSourceTypes",
                optional_json(alloc, &self.jsx_import_source_types)?
            ),
            ("script", if_true(self.is_script)),
            (
                "selfTypesSpecifier",
                optional_json(alloc, &self.self_types_specifier)?
            ),
            ("sourceMapUrl", optional_json(alloc, &self.source_map_url)?),
            ("tsReferences", if_any(alloc, &self.ts_references)?),
        ]?;
        object(alloc, rows)
    }
}

// A member with a default, or the fault that names it.
fn named_member<T: Form>(
    alloc: Global,
    value: &Json<'_, '_>,
    name: &str,
    default: T,
) -> Result<T, Refusal<InfoFault>>
    ensures { Answers result
        (named name.now (with_default default T.form name.now (documents.view value.now))) }
{
    match or_default(alloc, value, name, default) {
        Ok(found) => Ok(found),
        Err(Refusal::Memory) => Err(Refusal::Memory),
        Err(Refusal::Is(_)) => Err(Refusal::Is(fault_at(alloc, name)?)),
    }
}

// A member that may be absent, or the fault that names it.
fn named_optional<T: Form>(
    alloc: Global,
    value: &Json<'_, '_>,
    name: &str,
) -> Result<Option<T>, Refusal<InfoFault>>
    ensures { Answers result (named name.now (optional T.form name.now (documents.view value.now))) }
{
    match optional(alloc, value, name) {
        Ok(found) => Ok(found),
        Err(Refusal::Memory) => Err(Refusal::Memory),
        Err(Refusal::Is(_)) => Err(Refusal::Is(fault_at(alloc, name)?)),
    }
}

fn fault_at(alloc: Global, name: &str) -> Result<InfoFault, AllocError>
    ensures { IfOk result (λ e. e.member ≡ name.now) }
{
    let member = Text::from_str(alloc, name)?;
    Ok(InfoFault { member })
}
