// Readers and writers of JSON, by types of the caller: lists, objects and their members.
use json_documents::Json;
use json_forms::{Misfit, Shown, compact, if_any, object, optional, or_empty};
use serde_json::Value;
use spec_base::{Items, Refusal, SortedTexts, Text};
use std::alloc::{AllocError, Global};
use std::test::Fail;

fn numbers(alloc: Global) -> Result<Items<u64>, Fail> {
    Ok(Items::from(Vec::from_slice(alloc, &[2, 18446744073709551615])?))
}

#[test]
fn writes_lists(rt: HostRuntime) -> Result<(), Fail> {
    let numbers = numbers(rt.alloc())?;
    let text = compact(rt.alloc(), &numbers)?;
    assert!(rt; text.as_str() == "[2,18446744073709551615]");
    Ok(())
}

type Rows = Vec<(&'static str, Option<Value>)>;

fn put<T: Shown>(
    alloc: Global,
    rows: &mut Rows,
    name: &'static str,
    shown: &T,
) -> Result<(), AllocError> {
    Ok(rows.push((name, Some(shown.to_json(alloc)?)))?)
}

fn put_text(alloc: Global, rows: &mut Rows) -> Result<(), Fail> {
    let text = Text::from_str(alloc, "a")?;
    Ok(put(alloc, rows, "b", &text)?)
}

fn put_numbers(alloc: Global, rows: &mut Rows) -> Result<(), Fail> {
    let numbers = numbers(alloc)?;
    Ok(put(alloc, rows, "a", &numbers)?)
}

// A text, nothing, and a list of numbers.
fn put_all(alloc: Global, rows: &mut Rows) -> Result<(), Fail> {
    put_text(alloc, rows)?;
    rows.push(("c", None))?;
    put_numbers(alloc, rows)
}

fn is_written(alloc: Global, written: &Value) -> Result<bool, Fail> {
    Ok(written.to_string(alloc)?.as_str() == r#"{"a":[2,18446744073709551615],"b":"a"}"#)
}

#[test]
fn writes_objects(rt: HostRuntime) -> Result<(), Fail> {
    let mut rows = Vec::new(rt.alloc());
    put_all(rt.alloc(), &mut rows)?;
    let written = object(rt.alloc(), rows)?;
    assert!(rt; is_written(rt.alloc(), &written)?);
    Ok(())
}

fn size(alloc: Global, value: &Value, name: &str) -> Result<Option<u64>, Refusal<Misfit>> {
    optional(alloc, &Json::Owned(value), name)
}

fn has_size(read: &Result<Option<u64>, Refusal<Misfit>>, want: Option<u64>) -> bool {
    match read {
        Ok(found) => *found == want,
        Err(_) => false,
    }
}

fn has_members(alloc: Global, value: &Value) -> bool {
    has_size(&size(alloc, value, "size"), Some(7))
        && has_size(&size(alloc, value, "absent"), None)
        && size(alloc, value, "none").is_err()
}

#[test]
fn reads_members(rt: HostRuntime) -> Result<(), Fail> {
    let value = Value::from_slice(rt.alloc(), br#"{"size":7,"none":null}"#)?;
    assert!(rt; has_members(rt.alloc(), &value));
    Ok(())
}

// Whether a list of two names is shown as it was read.
fn is_shown(alloc: Global, read: &Result<Items<Text>, Refusal<Misfit>>) -> Result<bool, Fail> {
    let Ok(names) = read else {
        return Ok(false);
    };
    match if_any(alloc, names)? {
        Some(shown) => Ok(names.len() == 2 && shown.to_string(alloc)?.as_str() == r#"["a","b"]"#),
        None => Ok(false),
    }
}

#[test]
fn reads_lists(rt: HostRuntime) -> Result<(), Fail> {
    let value = Value::from_slice(rt.alloc(), br#"{"names":["a","b"]}"#)?;
    let read = or_empty(rt.alloc(), &Json::Owned(&value), "names");
    assert!(rt; is_shown(rt.alloc(), &read)?);
    Ok(())
}

fn insert(alloc: Global, sizes: &mut SortedTexts<u64>, key: &str, size: u64) -> Result<(), Fail> {
    Ok(sizes.insert(String::from_str(alloc, key)?, size)?)
}

// The size of `b` was 1 at first.
fn sizes(alloc: Global) -> Result<SortedTexts<u64>, Fail> {
    let mut sizes = SortedTexts::new(alloc);
    insert(alloc, &mut sizes, "b", 1)?;
    insert(alloc, &mut sizes, "a", 2)?;
    insert(alloc, &mut sizes, "b", 3)?;
    Ok(sizes)
}

fn has_sizes(sizes: &SortedTexts<u64>) -> bool {
    sizes.len() == 2
        && sizes.get("a").copied() == Some(2)
        && sizes.get("b").copied() == Some(3)
        && sizes.get("c").is_none()
}

fn has_entries_of(copy: &SortedTexts<u64>, sizes: &SortedTexts<u64>) -> bool {
    for (key, size) in copy.as_map().iter() {
        if sizes.get(key.as_str()).copied() != Some(*size) {
            return false;
        }
    }
    *copy == *sizes
}

fn is_compact(alloc: Global, sizes: &SortedTexts<u64>) -> Result<bool, Fail> {
    Ok(compact(alloc, sizes)?.as_str() == r#"{"a":2,"b":3}"#)
}

fn is_copied(alloc: Global, sizes: &SortedTexts<u64>) -> Result<bool, Fail> {
    let copy = sizes.try_clone()?;
    Ok(has_entries_of(&copy, sizes) && is_compact(alloc, &copy)?)
}

#[test]
fn dictionaries_are_in_order(rt: HostRuntime) -> Result<(), Fail> {
    let sizes = sizes(rt.alloc())?;
    assert!(rt; has_sizes(&sizes) && is_copied(rt.alloc(), &sizes)?);
    Ok(())
}
