// What is common to the files of the registry: their bytes, their fault, and members that may be null.
ghost use Rattle.std.specs.Prelude.{◌≡◌, IfOk};
ghost use Rattle.serde_json.specs.View.{view};
ghost use Rattle.json_documents.specs.Documents as documents;
ghost use Rattle.spec_base.specs.Refusal.{Reads};
ghost use Rattle.spec_base.specs.declared.refusal.Refusal.TheVariants.{Memory};
ghost use Rattle.pkg_versions.specs.FileViews.{member_view, value_view};
ghost use Rattle.pkg_versions.specs.RegistryFiles.{bad_file, json_of, nullable, whole_json};
ghost use Rattle.semver_npm.specs.Versions.{version_of};
ghost use Rattle.pkg_versions.specs.Views.{IfIs};

use json_documents::Json;
use json_forms::{Form, Misfit, is_whole};
use semver::Error;
use semver_npm::{PlainVersion, Version};
use serde_json::Value;
use spec_base::{Fault, Refusal, Text};
use std::alloc::{AllocError, Global};

/// The JSON of some bytes, in UTF-8; `Misfit` exactly where they are none.
pub(crate) fn read_json(alloc: Global, bytes: &[u8]) -> Result<Value, Refusal<Misfit>>
    ensures { Reads (value_view result) (json_of bytes.now) }
{
    match Value::from_slice(alloc, bytes) {
        Ok(value) => Ok(value),
        Err(error) => if error.is_memory() {
            Err(Refusal::Memory)
        } else {
            Err(Refusal::Is(Misfit))
        },
    }
}

/// The refusal of a file that was refused.
pub(crate) fn file_refusal(alloc: Global, refusal: Refusal<Misfit>) -> Refusal<Fault>
    ensures memory { refusal ≡ Memory → result ≡ Memory }
    ensures fault { IfIs result (λ fault. fault ≡ bad_file) }
{
    match refusal {
        Refusal::Memory => Refusal::Memory,
        Refusal::Is(_) => match bad_file(alloc) {
            Ok(fault) => Refusal::Is(fault),
            Err(_) => Refusal::Memory,
        },
    }
}

fn bad_file(alloc: Global) -> Result<Fault, AllocError>
    ensures { IfOk result (λ fault. fault ≡ bad_file) }
{
    let class = Text::from_str(alloc, "SyntaxError")?;
    let message = Text::from_str(alloc, "Invalid registry file.")?;
    Ok(Fault { class, message })
}

/// JSON whose numbers are whole, which may be absent or null.
pub(crate) fn whole_member(value: &Value, name: &str) -> Result<Option<Value>, Refusal<Misfit>>
    ensures { Reads (member_view result) (nullable whole_json name.now (view value.now)) }
{
    match value.get(name) {
        Some(member) => if member.is_null() {
            Ok(None)
        } else if is_whole(member) {
            Ok(Some(member.clone()?))
        } else {
            Err(Refusal::Is(Misfit))
        },
        None => Ok(None),
    }
}

/// A member that may be absent or null.
pub(crate) fn nullable<T: Form>(
    alloc: Global,
    value: &Json<'_, '_>,
    name: &str,
) -> Result<Option<T>, Refusal<Misfit>>
    ensures { Reads result (nullable T.form name.now (documents.view value.now)) }
{
    match value.get(name) {
        Some(member) => if member.is_null() {
            Ok(None)
        } else {
            Ok(Some(T::read(alloc, &member)?))
        },
        None => Ok(None),
    }
}

/// The version that a text is (SemVer 2.0).
pub(crate) fn read_version(alloc: Global, text: &str) -> Result<PlainVersion, Refusal<Misfit>>
    ensures { Reads result (version_of text.now) }
{
    match Version::parse(alloc, text) {
        Ok(version) => Ok(PlainVersion::from(version)),
        Err(error) => if error == Error::from(AllocError) {
            Err(Refusal::Memory)
        } else {
            Err(Refusal::Is(Misfit))
        },
    }
}
