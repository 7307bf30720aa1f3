// The members of a JSON object, by name.
ghost use Rattle.std.specs.Prelude.{◌≡◌, map};
ghost use Rattle.json_documents.specs.Documents.{view};
ghost use Rattle.spec_base.specs.Refusal.{Reads};
ghost use Rattle.json_forms.specs.Member.{required, optional, with_default, or_empty, has_names};

use crate::form::{Form, Misfit};
use json_documents::Json;
use spec_base::{Items, Refusal};
use std::alloc::Global;

/// A member that must stand.
pub fn required<T: Form>(
    alloc: Global,
    value: &Json<'_, '_>,
    name: &str,
) -> Result<T, Refusal<Misfit>>
    ensures { Reads result (required T.form name.now (view value.now)) }
{
    match value.get(name) {
        Some(member) => T::read(alloc, &member),
        None => Err(Refusal::Is(Misfit)),
    }
}

/// A member that may be absent; `null` isn't absent.
pub fn optional<T: Form>(
    alloc: Global,
    value: &Json<'_, '_>,
    name: &str,
) -> Result<Option<T>, Refusal<Misfit>>
    ensures { Reads result (optional T.form name.now (view value.now)) }
{
    match value.get(name) {
        Some(member) => Ok(Some(T::read(alloc, &member)?)),
        None => Ok(None),
    }
}

/// A member with a default, which counts where it is absent.
pub fn or_default<T: Form>(
    alloc: Global,
    value: &Json<'_, '_>,
    name: &str,
    default: T,
) -> Result<T, Refusal<Misfit>>
    ensures { Reads result (with_default default T.form name.now (view value.now)) }
{
    match value.get(name) {
        Some(member) => T::read(alloc, &member),
        None => Ok(default),
    }
}

/// A list that is empty where it is absent.
pub fn or_empty<T: Form>(
    alloc: Global,
    value: &Json<'_, '_>,
    name: &str,
) -> Result<Items<T>, Refusal<Misfit>>
    ensures { Reads result (or_empty T.form name.now (view value.now)) }
{
    or_default(alloc, value, name, Items::new(alloc))
}

/// Whether the value is an object all of whose members have one of the names.
pub fn has_names(value: &Json<'_, '_>, names: &[&str]) -> bool
    ensures { result ≡ has_names (map (λ s. s.now) names.now) (view value.now) }
{
    value.has_names(names)
}
