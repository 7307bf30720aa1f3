// What a version file of the registry says: a version's exports, infos of its modules, and sums of its files.
ghost use Rattle.std.specs.Prelude.{◌≡◌, true, Some, IfOk, option_map};
ghost use Rattle.pkg_versions.specs.FileViews.{file_of, file_view};
ghost use Rattle.serde_json.specs.Data.{string};
ghost use Rattle.serde_json.specs.View.{view};
ghost use Rattle.spec_base.specs.Refusal.{Answers, Reads};
ghost use Rattle.pkg_versions.specs.ReadBack.{is_plain};
ghost use Rattle.pkg_versions.specs.RegistryFiles.{info_in, manifest_entry, manifest_entry_json, or_null, version_file, version_info, version_json};

use crate::registry_file::{file_refusal, nullable, read_json, whole_member};
use json_documents::Json;
use json_forms::{Form, Misfit, Shown, info_from_json, object, required, text_json};
use module_info::ModuleInfo;
use serde_json::{Map, Value, put};
use spec_base::{Fault, Refusal, SortedTexts, Text};
use std::alloc::{AllocError, Global};

/// What a version file says of one file of the version.
#[derive(Clone, Debug, Drop)]
pub struct JsrPackageVersionManifestEntry {
    pub checksum: Text,
}

impl JsrPackageVersionManifestEntry {
    /// A copy.
    pub fn try_clone(&self) -> Result<JsrPackageVersionManifestEntry, AllocError>
        ensures { IfOk result (λ entry. entry ≡ self.now) }
    {
        self.clone()
    }
}

/// What a version file says.
#[derive(Debug, Drop)]
pub struct JsrPackageVersionInfo {
    /// A text, which is the export `.`, or an object from names of exports to files.
    pub exports: Value,
    /// The infos of modules in an older form, which isn't read.
    pub module_graph_1: Option<Value>,
    /// The infos of modules, by file.
    pub module_graph_2: Option<Value>,
    /// The files of the version.
    pub manifest: SortedTexts<JsrPackageVersionManifestEntry>,
    /// The sum that a lockfile has of the version.
    pub lockfile_checksum: Option<Text>,
}

impl JsrPackageVersionInfo {
    /// What a version file says: the JSON text (RFC 8259, in UTF-8) of an object with the member
    /// `manifest`, an object from files to objects of the text `checksum`; and with the members `exports`,
    /// `moduleGraph1` and `moduleGraph2`, whose numbers are whole, and `lockfileChecksum`, a text.
    /// `manifest` alone must stand, each other one may be null, and members with other names are passed
    /// over.
    ///
    /// The fault, of the class `SyntaxError`, comes exactly where the bytes are no such file.
    pub fn from_json(alloc: Global, bytes: &[u8]) -> Result<JsrPackageVersionInfo, Refusal<Fault>>
        ensures value { Answers (file_view result) (version_file bytes.now) }
        ensures plain { IfOk result (λ info. is_plain (file_of info) ≡ true) }
    {
        read_file(alloc, bytes)
    }

    /// The JSON of a version file. Null stands for what there isn't. `from_json` reads it as the same, where
    /// `exports` and the module graphs have whole numbers alone and a module graph that stands isn't null,
    /// as it is in what `from_json` gives. The only refusal is want of memory.
    pub fn to_json(&self, alloc: Global) -> Result<Value, AllocError>
        ensures value { IfOk result (λ v. view v ≡ version_json (file_of self.now)) }
        ensures reads_back { is_plain (file_of self.now) ≡ true
            → IfOk result (λ v. version_info (view v) ≡ Some (file_of self.now)) }
    {
        version_json(alloc, self)
    }

    /// The info of a file's module: the member of `moduleGraph2` that has the file's name, where it is an
    /// info. The only refusal is want of memory.
    pub fn module_info(
        &self,
        alloc: Global,
        specifier: &str,
    ) -> Result<Option<ModuleInfo>, AllocError>
        ensures { IfOk result
            (λ info. info ≡ info_in (file_of self.now).module_graph_2 specifier.now) }
    {
        let Some(graph) = &self.module_graph_2 else {
            return Ok(None);
        };
        let Some(member) = graph.get(specifier) else {
            return Ok(None);
        };
        match info_from_json(alloc, member) {
            Ok(info) => Ok(Some(info)),
            Err(Refusal::Memory) => Err(AllocError),
            Err(Refusal::Is(_)) => Ok(None),
        }
    }

    /// A copy.
    pub fn try_clone(&self) -> Result<JsrPackageVersionInfo, AllocError>
        ensures { IfOk result (λ info. file_of info ≡ file_of self.now) }
    {
        let exports = self.exports.clone()?;
        let module_graph_1 = self.module_graph_1.clone()?;
        let module_graph_2 = self.module_graph_2.clone()?;
        let manifest = self.manifest.try_clone()?;
        let lockfile_checksum = self.lockfile_checksum.clone()?;
        Ok(JsrPackageVersionInfo {
            exports,
            module_graph_1,
            module_graph_2,
            manifest,
            lockfile_checksum,
        })
    }
}

fn read_file(alloc: Global, bytes: &[u8]) -> Result<JsrPackageVersionInfo, Refusal<Fault>>
    ensures { Answers (file_view result) (version_file bytes.now) }
{
    let found = match read_json(alloc, bytes) {
        Ok(value) => read_version_info(alloc, &value),
        Err(refusal) => Err(refusal),
    };
    match found {
        Ok(info) => Ok(info),
        Err(refusal) => Err(file_refusal(alloc, refusal)),
    }
}

fn version_json(alloc: Global, info: &JsrPackageVersionInfo) -> Result<Value, AllocError>
    ensures { IfOk result (λ v. view v ≡ version_json (file_of info.now)) }
{
    let mut members = Map::new(alloc);
    put(&mut members, alloc, "exports", info.exports.clone()?)?;
    put(
        &mut members,
        alloc,
        "lockfileChecksum",
        text_or_null(alloc, &info.lockfile_checksum)?,
    )?;
    put(
        &mut members,
        alloc,
        "manifest",
        info.manifest.to_json(alloc)?,
    )?;
    put(
        &mut members,
        alloc,
        "moduleGraph1",
        json_or_null(&info.module_graph_1)?,
    )?;
    put(
        &mut members,
        alloc,
        "moduleGraph2",
        json_or_null(&info.module_graph_2)?,
    )?;
    Ok(Value::Object(members))
}

fn text_or_null(alloc: Global, text: &Option<Text>) -> Result<Value, AllocError>
    ensures { IfOk result (λ v. view v ≡ or_null string text.now) }
{
    match text {
        Some(text) => text_json(alloc, text.as_str()),
        None => Ok(Value::Null),
    }
}

fn json_or_null(json: &Option<Value>) -> Result<Value, AllocError>
    ensures { IfOk result (λ v. view v ≡ or_null (λ d. d) (option_map view json.now)) }
{
    match json {
        Some(json) => json.clone(),
        None => Ok(Value::Null),
    }
}

fn read_version_info(alloc: Global, value: &Value) -> Result<JsrPackageVersionInfo, Refusal<Misfit>>
    ensures { Reads (file_view result) (version_info (view value.now)) }
{
    if !value.is_object() {
        return Err(Refusal::Is(Misfit));
    }
    let json = Json::Owned(value);
    let lockfile_checksum = nullable(alloc, &json, "lockfileChecksum")?;
    let manifest = required(alloc, &json, "manifest")?;
    let exports = match whole_member(value, "exports")? {
        Some(exports) => exports,
        None => Value::Null,
    };
    let module_graph_1 = whole_member(value, "moduleGraph1")?;
    let module_graph_2 = whole_member(value, "moduleGraph2")?;
    Ok(JsrPackageVersionInfo {
        exports,
        module_graph_1,
        module_graph_2,
        manifest,
        lockfile_checksum,
    })
}

impl Form for JsrPackageVersionManifestEntry {
    ghost form = { manifest_entry };

    fn read(
        alloc: Global,
        value: &Json<'_, '_>,
    ) -> Result<JsrPackageVersionManifestEntry, Refusal<Misfit>> {
        let checksum = required(alloc, value, "checksum")?;
        Ok(JsrPackageVersionManifestEntry { checksum })
    }
}

impl Shown for JsrPackageVersionManifestEntry {
    ghost json = { manifest_entry_json };

    fn to_json(&self, alloc: Global) -> Result<Value, AllocError> {
        let rows = vec![in alloc; ("checksum", Some(text_json(alloc, self.checksum.as_str())?))]?;
        object(alloc, rows)
    }
}
