// Version files read with no copies of their texts.
ghost use Rattle.std.specs.Prelude.{◌≡◌, [], IfOk, IfSome, Ok, Some, true, codes, fold, option_map};
ghost use Rattle.std.specs.Result.{result_ok};
ghost use Rattle.json_documents.specs.Documents.{named, view};
ghost use Rattle.json_documents.specs.Whole.{is_whole};
ghost use Rattle.json_forms.specs.Form.{text};
ghost use Rattle.spec_base.specs.Refusal.{Reads};
ghost use Rattle.json_forms.specs.Infos.Info.{info_of};
ghost use Rattle.pkg_versions.specs.Exports.{text_members};
ghost use Rattle.pkg_versions.specs.RegistryFiles.{nullable, version_info};
ghost use Rattle.registry_files.specs.VersionFiles.{exports_at, exports_by_name, infos_at, infos_from, infos_of, version_file_in, version_file_of, with_export};

use crate::version_file::{VersionFile, checksum_of};
use json_documents::{Document, Json, Scratch};
use json_forms::{Form, Misfit, read_info, required};
use module_info::ModuleInfo;
use simdutf8::basic::from_utf8;
use spec_base::{Refusal, SortedTexts, Text};
use std::alloc::{AllocError, Global};
use std::collections::BTreeMap;

/// The version file that some bytes are, where each of their numbers is a whole one; nothing where one isn't, and where they are no
/// version file. The only refusal is want of memory.
pub(crate) fn whole_file(alloc: Global, bytes: &[u8]) -> Result<Option<VersionFile>, AllocError>
    ensures { IfOk result (λ found. IfSome found (λ file. version_file_in bytes.now ≡ Ok file)) }
{
    let Ok(text) = from_utf8(bytes) else {
        return Ok(None);
    };
    let mut scratch = Scratch::new(alloc);
    let document = match Document::read_whole(alloc, text, &mut scratch) {
        Ok(Some(document)) => document,
        Ok(None) => return Ok(None),
        Err(Refusal::Memory) => return Err(AllocError),
        Err(Refusal::Is(_)) => return Ok(None),
    };
    match read_file(alloc, bytes, &document.root()) {
        Ok(file) => Ok(Some(file)),
        Err(Refusal::Memory) => Err(AllocError),
        Err(Refusal::Is(_)) => Ok(None),
    }
}

// What bytes say whose value, of whole numbers, is this one.
fn read_file(
    alloc: Global,
    bytes: &[u8],
    value: &Json<'_, '_>,
) -> Result<VersionFile, Refusal<Misfit>>
    ensures { is_whole (view value.now) ≡ true
        → IfOk result
        (λ file. option_map (version_file_of bytes.now) (version_info (view value.now))
        ≡ Some file) }
{
    if !value.is_object() {
        return Err(Refusal::Is(Misfit));
    }
    let said = text_at(alloc, value, "lockfileChecksum")?;
    let checksum = checksum_of(alloc, bytes, said)?;
    let manifest = required(alloc, value, "manifest")?;
    let exports = exports_at(alloc, value)?;
    let infos = infos_at(alloc, value)?;
    Ok(VersionFile {
        exports,
        infos,
        manifest,
        checksum,
    })
}

// A text that may be absent or null.
fn text_at(alloc: Global, value: &Json<'_, '_>, name: &str) -> Result<Option<Text>, Refusal<Misfit>>
    ensures { Reads result (nullable text name.now (view value.now)) }
{
    match value.get(name) {
        Some(member) => if member.is_null() {
            Ok(None)
        } else {
            Ok(Some(Text::read(alloc, &member)?))
        },
        None => Ok(None),
    }
}

// What each export leads to, of the exports of a version file.
fn exports_at(alloc: Global, value: &Json<'_, '_>) -> Result<SortedTexts<Text>, AllocError>
    ensures { IfOk result (λ exports. exports ≡ exports_at (view value.now)) }
{
    match value.get("exports") {
        Some(exports) => exports_of(alloc, &exports),
        None => Ok(SortedTexts::new(alloc)),
    }
}

fn exports_of(alloc: Global, exports: &Json<'_, '_>) -> Result<SortedTexts<Text>, AllocError>
    ensures { IfOk result (λ found. found ≡ exports_by_name (view exports.now)) }
{
    if let Some(file) = exports.as_str() {
        return whole_export(alloc, file);
    }
    match exports.members(alloc)? {
        Some(members) => texts_among(alloc, &members),
        None => Ok(SortedTexts::new(alloc)),
    }
}

// The one export of a package that has no other.
fn whole_export(alloc: Global, file: &str) -> Result<SortedTexts<Text>, AllocError>
    ensures { IfOk result (λ found. found ≡ with_export [] (codes ".", file.now)) }
{
    let mut found = SortedTexts::new(alloc);
    let name = String::from_str(alloc, ".")?;
    found.insert(name, Text::from_str(alloc, file)?)?;
    Ok(found)
}

// The texts among some members, by name.
fn texts_among(
    alloc: Global,
    members: &BTreeMap<&str, Json<'_, '_>>,
) -> Result<SortedTexts<Text>, AllocError>
    ensures { IfOk result
        (λ found. found ≡ fold with_export [] (text_members (named members.now.entries))) }
{
    let mut found = SortedTexts::new(alloc);
    for (name, member) in members.iter() {
        if let Some(file) = member.as_str() {
            let key = String::from_str(alloc, name)?;
            found.insert(key, Text::from_str(alloc, file)?)?;
        }
    }
    Ok(found)
}

// The infos of modules in a version file.
fn infos_at(alloc: Global, value: &Json<'_, '_>) -> Result<SortedTexts<ModuleInfo>, AllocError>
    ensures { IfOk result (λ infos. infos ≡ infos_at (view value.now)) }
{
    let Some(graph) = value.get("moduleGraph2") else {
        return Ok(SortedTexts::new(alloc));
    };
    match graph.members(alloc)? {
        Some(members) => infos_among(alloc, &members),
        None => Ok(SortedTexts::new(alloc)),
    }
}

// The info that a value is, where it is one.
fn info_of(alloc: Global, value: &Json<'_, '_>) -> Result<Option<ModuleInfo>, AllocError>
    ensures { IfOk result (λ info. info ≡ result_ok (info_of (view value.now))) }
{
    match read_info(alloc, value) {
        Ok(info) => Ok(Some(info)),
        Err(Refusal::Memory) => Err(AllocError),
        Err(Refusal::Is(_)) => Ok(None),
    }
}

// The infos among some members, by file.
#[tactic(auto, unfolding(crate::specs::VersionFiles::infos_from))]
fn infos_among(
    alloc: Global,
    members: &BTreeMap<&str, Json<'_, '_>>,
) -> Result<SortedTexts<ModuleInfo>, AllocError>
    ensures { IfOk result (λ infos. infos ≡ infos_from [] (named members.now.entries)) }
{
    let mut infos = SortedTexts::new(alloc);
    for (file, member) in members.iter() {
        if let Some(info) = info_of(alloc, member)? {
            infos.insert(String::from_str(alloc, file)?, info)?;
        }
    }
    Ok(infos)
}
