// Package files as JSON, both ways.
ghost use Rattle.std.specs.Prelude.{◌≡◌, [], Some, IfOk, codes, map, option_and_then, option_map};
ghost use Rattle.semver.specs.Identifiers.{parts_text};
ghost use Rattle.serde_json.specs.Data.{string};
ghost use Rattle.serde_json.specs.View.{view};
ghost use Rattle.json_documents.specs.Documents as documents;
ghost use Rattle.spec_base.specs.Refusal.{Answers, Reads};
ghost use Rattle.json_forms.specs.Member.{required};
ghost use Rattle.json_forms.specs.Rows.{object_of};
ghost use Rattle.pkg_versions.specs.ReadBack.{AreReadBack, HasVersions, IsTime};
ghost use Rattle.pkg_versions.specs.RegistryFiles.{info_version, info_version_rows, json_of, nullable, or_null, package_file, package_info, package_json, version, version_row, versions, versions_from};
ghost use Rattle.version_dates.specs.Times.{time_text};

use crate::package_info::{JsrPackageInfo, JsrPackageInfoVersion};
use crate::registry_file::{file_refusal, nullable, read_version};
use crate::timestamp::PlainTimestamp;
use json_documents::{Document, Json, Scratch};
use json_forms::{Form, Misfit, if_true, object, or_default, text_json};
use pkg_records::SortedMap;
use semver_npm::PlainVersion;
use serde_json::{Map, Value, put};
use simdutf8::basic::from_utf8;
use spec_base::{Fault, Refusal};
use std::alloc::{AllocError, Global};
use std::collections::BTreeMap;

impl JsrPackageInfo {
    /// What a package file says: the JSON text (RFC 8259, in UTF-8) of an object with the member
    /// `versions`, an object from versions (SemVer 2.0) to objects of `createdAt`, a time as `jiff` reads
    /// one, and `yanked`, a truth value; and with the member `latest`, a version. `createdAt` and `latest`
    /// may be null, `versions` alone must stand, and other members are passed over.
    ///
    /// The fault, of the class `SyntaxError`, comes exactly where the bytes are no such file.
    pub fn from_json(alloc: Global, bytes: &[u8]) -> Result<JsrPackageInfo, Refusal<Fault>>
        ensures value { Answers result (package_file bytes.now) }
        ensures versions { IfOk result HasVersions }
    {
        read_file(alloc, bytes)
    }

    /// The JSON of a package file. `latest` is null where there is none; a version's `createdAt` is left out
    /// where there is none, and `yanked` where it is false. `from_json` reads it as the same, where the
    /// versions are those of SemVer 2.0, as those that `from_json` gives are. The only refusal is want of
    /// memory.
    pub fn to_json(&self, alloc: Global) -> Result<Value, AllocError>
        ensures value { IfOk result (λ v. view v ≡ package_json self.now) }
        ensures reads_back { HasVersions self.now
            → IfOk result (λ v. package_info (view v) ≡ Some self.now) }
    {
        package_json(alloc, self)
    }
}

fn package_json(alloc: Global, info: &JsrPackageInfo) -> Result<Value, AllocError>
    ensures value { IfOk result (λ v. view v ≡ package_json info.now) }
    ensures read_back { IfOk result (λ _. AreReadBack info.now.versions) }
{
    let mut members = Map::new(alloc);
    put(
        &mut members,
        alloc,
        "latest",
        latest_json(alloc, &info.latest)?,
    )?;
    put(
        &mut members,
        alloc,
        "versions",
        versions_json(alloc, &info.versions)?,
    )?;
    Ok(Value::Object(members))
}

// A version, or null.
fn latest_json(alloc: Global, latest: &Option<PlainVersion>) -> Result<Value, AllocError>
    ensures { IfOk result (λ v. view v ≡ or_null (λ v. string (parts_text v)) latest.now) }
{
    match latest {
        Some(version) => version_json(alloc, version),
        None => Ok(Value::Null),
    }
}

fn read_file(alloc: Global, bytes: &[u8]) -> Result<JsrPackageInfo, Refusal<Fault>>
    ensures { Answers result (package_file bytes.now) }
{
    match read_info(alloc, bytes) {
        Ok(info) => Ok(info),
        Err(refusal) => Err(file_refusal(alloc, refusal)),
    }
}

// What the JSON of some bytes says of a package, read with no copies of its texts.
fn read_info(alloc: Global, bytes: &[u8]) -> Result<JsrPackageInfo, Refusal<Misfit>>
    ensures { Reads result (option_and_then package_info (json_of bytes.now)) }
{
    let Ok(text) = from_utf8(bytes) else {
        return Err(Refusal::Is(Misfit));
    };
    let mut scratch = Scratch::new(alloc);
    let document = match Document::read(alloc, text, &mut scratch) {
        Ok(document) => document,
        Err(Refusal::Memory) => return Err(Refusal::Memory),
        Err(Refusal::Is(_)) => return Err(Refusal::Is(Misfit)),
    };
    JsrPackageInfo::read(alloc, &document.root())
}

impl Form for JsrPackageInfo {
    ghost form = { package_info };

    fn read(alloc: Global, value: &Json<'_, '_>) -> Result<JsrPackageInfo, Refusal<Misfit>> {
        let versions = versions_in(alloc, value)?;
        let latest = nullable_version(alloc, value, "latest")?;
        Ok(JsrPackageInfo { versions, latest })
    }
}

// A version that may be absent or null.
fn nullable_version(
    alloc: Global,
    value: &Json<'_, '_>,
    name: &str,
) -> Result<Option<PlainVersion>, Refusal<Misfit>>
    ensures { Reads result (nullable version name.now (documents.view value.now)) }
{
    match value.get(name) {
        Some(member) => if member.is_null() {
            Ok(None)
        } else {
            Ok(Some(text_version(alloc, &member)?))
        },
        None => Ok(None),
    }
}

fn text_version(alloc: Global, value: &Json<'_, '_>) -> Result<PlainVersion, Refusal<Misfit>>
    ensures { Reads result (version (documents.view value.now)) }
{
    match value.as_str() {
        Some(text) => read_version(alloc, text),
        None => Err(Refusal::Is(Misfit)),
    }
}

// The versions that a package file lists.
fn versions_in(
    alloc: Global,
    value: &Json<'_, '_>,
) -> Result<SortedMap<PlainVersion, JsrPackageInfoVersion>, Refusal<Misfit>>
    ensures { Reads result (required versions (codes "versions") (documents.view value.now)) }
{
    match value.get("versions") {
        Some(member) => listed_versions(alloc, &member),
        None => Err(Refusal::Is(Misfit)),
    }
}

fn listed_versions(
    alloc: Global,
    value: &Json<'_, '_>,
) -> Result<SortedMap<PlainVersion, JsrPackageInfoVersion>, Refusal<Misfit>>
    ensures { Reads result (versions (documents.view value.now)) }
{
    match value.members(alloc)? {
        Some(members) => read_versions(alloc, &members),
        None => Err(Refusal::Is(Misfit)),
    }
}

#[tactic(auto, unfolding(crate::specs::RegistryFiles::versions_from))]
fn read_versions(
    alloc: Global,
    members: &BTreeMap<&str, Json<'_, '_>>,
) -> Result<SortedMap<PlainVersion, JsrPackageInfoVersion>, Refusal<Misfit>>
    ensures { Reads result (versions_from [] (documents.named members.now.entries)) }
{
    let mut found = SortedMap::new(alloc);
    for (key, member) in members.iter() {
        let version = read_version(alloc, key)?;
        let entry = JsrPackageInfoVersion::read(alloc, member)?;
        found.insert(version, entry)?;
    }
    Ok(found)
}

impl Form for JsrPackageInfoVersion {
    ghost form = { info_version };

    fn read(alloc: Global, value: &Json<'_, '_>) -> Result<JsrPackageInfoVersion, Refusal<Misfit>> {
        if !value.is_object() {
            return Err(Refusal::Is(Misfit));
        }
        let created_at: Option<PlainTimestamp> = nullable(alloc, value, "createdAt")?;
        let yanked = or_default(alloc, value, "yanked", false)?;
        Ok(JsrPackageInfoVersion { created_at, yanked })
    }
}

fn version_json(alloc: Global, version: &PlainVersion) -> Result<Value, AllocError>
    ensures { IfOk result (λ v. view v ≡ string (parts_text version.now)) }
{
    let text = format!(in alloc; "{version}")?;
    text_json(alloc, text.as_str())
}

fn versions_json(
    alloc: Global,
    versions: &SortedMap<PlainVersion, JsrPackageInfoVersion>,
) -> Result<Value, AllocError>
    ensures value { IfOk result (λ v. view v ≡ object_of (map version_row versions.now)) }
    ensures read_back { IfOk result (λ _. AreReadBack versions.now) }
{
    let mut members = Map::new(alloc);
    for (version, entry) in versions.as_map().iter() {
        let text = format!(in alloc; "{version}")?;
        put(
            &mut members,
            alloc,
            text.as_str(),
            entry_json(alloc, entry)?,
        )?;
    }
    Ok(Value::Object(members))
}

#[tactic(auto, using(crate::proofs::FileReading::entry_back))]
fn entry_json(alloc: Global, entry: &JsrPackageInfoVersion) -> Result<Value, AllocError>
    ensures value { IfOk result (λ v. view v ≡ object_of (info_version_rows entry.now)) }
    ensures read_back { info_version (object_of (info_version_rows entry.now)) ≡ Some entry.now }
{
    let created_at = time_json(alloc, &entry.created_at)?;
    let rows = vec![in alloc;
        ("createdAt", created_at),
        ("yanked", if_true(entry.yanked)),
    ]?;
    object(alloc, rows)
}

// A time, where there is one.
fn time_json(alloc: Global, time: &Option<PlainTimestamp>) -> Result<Option<Value>, AllocError>
    ensures value { IfOk result
        (λ v. option_map view v ≡ option_map (λ t. string (time_text t)) time.now) }
    ensures read_back { IsTime time.now }
{
    match time {
        Some(time) => Ok(Some(time.to_json(alloc)?)),
        None => Ok(None),
    }
}
