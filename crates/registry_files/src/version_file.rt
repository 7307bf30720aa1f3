// What a version file says, as a build needs it.
ghost use Rattle.std.specs.Prelude.{◌≡◌, [], IfOk, bytes_eq, option_copied, option_map};
ghost use Rattle.std.specs.Map.{lookup};
ghost use Rattle.std.specs.Result.{result_ok};
ghost use Rattle.serde_json.specs.View.{view, members_view};
ghost use Rattle.spec_base.specs.Refusal.{Answers};
ghost use Rattle.json_forms.specs.Infos.Info.{info_of};
ghost use Rattle.pkg_versions.specs.FileViews.{file_of};
ghost use Rattle.registry_files.specs.VersionFiles.{export_names, exports_by_name, infos_from, infos_of, own_sum, version_file_in, version_file_of};

use crate::version_reading::whole_file;
use json_forms::info_from_json;
use module_info::ModuleInfo;
use pkg_versions::{JsrPackageVersionInfo, JsrPackageVersionManifestEntry};
use serde_json::{Map, Value};
use source_sums::LoaderChecksum;
use spec_base::{Fault, Items, Refusal, SortedTexts, Text};
use std::alloc::{AllocError, Global};

/// What a version file says: its exports, what its modules import, and the sums of its files.
#[derive(Debug)]
pub struct VersionFile {
    /// What each export leads to, by its name.
    pub exports: SortedTexts<Text>,
    /// What the modules of the version import, by file.
    pub infos: SortedTexts<ModuleInfo>,
    /// The files of the version, with their sums.
    pub manifest: SortedTexts<JsrPackageVersionManifestEntry>,
    /// The sum of the version file, which a locker is told: the one that it says of itself, else that of its bytes.
    pub checksum: LoaderChecksum,
}

// So that its drop is one call at each way out of what owns it.
impl Drop for VersionFile {
    fn drop(self) {
        let VersionFile {
            exports: _,
            infos: _,
            manifest: _,
            checksum: _,
        } = self;
    }
}

impl VersionFile {
    /// What a version file says, as `JsrPackageVersionInfo::from_json` reads it: a text as `exports` is the export `.`, in an
    /// object the texts count, and of `moduleGraph2` the members that are infos. The fault comes exactly where the bytes are no
    /// version file.
    pub fn from_json(alloc: Global, bytes: &[u8]) -> Result<VersionFile, Refusal<Fault>>
        ensures { Answers result (version_file_in bytes.now) }
    {
        match whole_file(alloc, bytes) {
            Ok(Some(file)) => Ok(file),
            Ok(None) => file_by_copy(alloc, bytes),
            Err(_) => Err(Refusal::Memory),
        }
    }

    /// What an export leads to, as the version file has it.
    pub fn export(&self, name: &str) -> Option<&Text>
        ensures { option_copied result ≡ lookup (bytes_eq name.now) self.now.exports }
    {
        self.exports.get(name)
    }

    /// The names of all exports, in their order. The only refusal is want of memory.
    pub fn export_names(&self, alloc: Global) -> Result<Items<Text>, AllocError>
        ensures { IfOk result (λ names. names ≡ export_names self.now) }
    {
        let mut names = Items::new(alloc);
        for (name, _file) in self.exports.as_map().iter() {
            names.push(Text::from_str(alloc, name.as_str())?)?;
        }
        Ok(names)
    }

    /// What the module of a file imports, where that is said.
    pub fn info(&self, path: &str) -> Option<&ModuleInfo>
        ensures { option_copied result ≡ lookup (bytes_eq path.now) self.now.infos }
    {
        self.infos.get(path)
    }
}

// The same of any numbers: `JsrPackageVersionInfo` says which may stand, and which fault is told.
fn file_by_copy(alloc: Global, bytes: &[u8]) -> Result<VersionFile, Refusal<Fault>>
    ensures { Answers result (version_file_in bytes.now) }
{
    match JsrPackageVersionInfo::from_json(alloc, bytes) {
        Ok(info) => match file_from(alloc, bytes, info) {
            Ok(file) => Ok(file),
            Err(_) => Err(Refusal::Memory),
        },
        Err(refusal) => Err(refusal),
    }
}

/// The sum that a version file has of itself, else that of its bytes.
pub(crate) fn checksum_of(
    alloc: Global,
    bytes: &[u8],
    said: Option<Text>,
) -> Result<LoaderChecksum, AllocError>
    ensures { IfOk result (λ sum. sum ≡ own_sum bytes.now said) }
{
    match said {
        Some(text) => Ok(LoaderChecksum::new(text.into_string())),
        None => {
            let sum = LoaderChecksum::generate(alloc, bytes)?;
            Ok(LoaderChecksum::new(sum))
        }
    }
}

// What exports lead to and what modules import, of a file that was read.
fn parts_of(
    alloc: Global,
    info: &JsrPackageVersionInfo,
) -> Result<(SortedTexts<Text>, SortedTexts<ModuleInfo>), AllocError>
    ensures { IfOk result
        (λ parts. parts
        ≡ (
          exports_by_name (file_of info.now).exports,
          infos_of
              (file_of info.now).module_graph_2,
        )) }
{
    let exports = exports_by_name(alloc, info)?;
    let infos = infos_of(alloc, &info.module_graph_2)?;
    Ok((exports, infos))
}

// What a file says that was read.
fn file_from(
    alloc: Global,
    bytes: &[u8],
    info: JsrPackageVersionInfo,
) -> Result<VersionFile, AllocError>
    ensures { IfOk result (λ file. file ≡ version_file_of bytes.now (file_of info)) }
{
    let parts = parts_of(alloc, &info);
    let JsrPackageVersionInfo {
        exports,
        module_graph_1,
        module_graph_2,
        manifest,
        lockfile_checksum,
    } = info;
    drop(exports);
    drop(module_graph_1);
    drop(module_graph_2);
    let (exports, infos) = parts?;
    let checksum = checksum_of(alloc, bytes, lockfile_checksum)?;
    Ok(VersionFile {
        exports,
        infos,
        manifest,
        checksum,
    })
}

// What each export leads to.
fn exports_by_name(
    alloc: Global,
    info: &JsrPackageVersionInfo,
) -> Result<SortedTexts<Text>, AllocError>
    ensures { IfOk result (λ exports. exports ≡ exports_by_name (file_of info.now).exports) }
{
    let mut exports = SortedTexts::new(alloc);
    for (name, file) in info.exports() {
        let key = String::from_str(alloc, name)?;
        exports.insert(key, Text::from_str(alloc, file)?)?;
    }
    Ok(exports)
}

// The info that a value is, where it is one.
fn info_of(alloc: Global, value: &Value) -> Result<Option<ModuleInfo>, AllocError>
    ensures { IfOk result (λ info. info ≡ result_ok (info_of (view value.now))) }
{
    match info_from_json(alloc, value) {
        Ok(info) => Ok(Some(info)),
        Err(Refusal::Memory) => Err(AllocError),
        Err(Refusal::Is(_)) => Ok(None),
    }
}

// The infos among some members.
#[tactic(auto, unfolding(crate::specs::VersionFiles::infos_from))]
fn infos_in(
    alloc: Global,
    members: &Map<String, Value>,
) -> Result<SortedTexts<ModuleInfo>, AllocError>
    ensures { IfOk result (λ infos. infos ≡ infos_from [] (members_view members.now.entries)) }
{
    let mut infos = SortedTexts::new(alloc);
    for (file, member) in members.iter() {
        if let Some(info) = info_of(alloc, member)? {
            infos.insert(file.clone()?, info)?;
        }
    }
    Ok(infos)
}

// The infos of a module graph, where there is one.
fn infos_of(alloc: Global, graph: &Option<Value>) -> Result<SortedTexts<ModuleInfo>, AllocError>
    ensures { IfOk result (λ infos. infos ≡ infos_of (option_map view graph.now)) }
{
    match graph {
        None => Ok(SortedTexts::new(alloc)),
        Some(graph) => match graph.as_object() {
            None => Ok(SortedTexts::new(alloc)),
            Some(members) => infos_in(alloc, members),
        },
    }
}
