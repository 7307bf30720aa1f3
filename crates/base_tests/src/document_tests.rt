// Documents: each call once with ample memory, and what it answers of both kinds of values.
use json_documents::{Document, Json, Scratch};
use spec_base::Refusal;
use std::alloc::Global;
use std::test::Fail;

// A number that isn't whole stands in it, and `b` twice.
const TEXT: &str = r#"{"b":1,"a":["x\u0041",true,null],"b":{"c":7,"d":1.5}}"#;

// Whether the member `b` is the last one of its name.
fn has_last(json: &Json<'_, '_>) -> bool {
    match json.get("b") {
        Some(found) => match found.get("c") {
            Some(number) => found.is_object() && number.as_u64() == Some(7),
            None => false,
        },
        None => false,
    }
}

// Whether the member `a` is a list of a text, a truth value and `null`.
fn has_list(json: &Json<'_, '_>) -> bool {
    let Some(list) = json.get("a") else {
        return false;
    };
    let Some(mut items) = list.as_array() else {
        return false;
    };
    if items.len() != 3 {
        return false;
    }
    match (items.next(), items.next(), items.next()) {
        (Some(text), Some(flag), Some(none)) => {
            text.as_str() == Some("xA") && flag.as_bool() == Some(true) && none.is_null()
        }
        _ => false,
    }
}

// Whether its members are `a` and `b`, in order.
fn has_members(alloc: Global, json: &Json<'_, '_>) -> Result<bool, Fail> {
    let Some(members) = json.members(alloc)? else {
        return Ok(false);
    };
    let mut names = members.iter();
    let first = names.next();
    let second = names.next();
    Ok(
        is_name(first, "a")
            && is_name(second, "b")
            && names.next().is_none()
            && json.has_names(&["a", "b"])
            && !json.has_names(&["a"]),
    )
}

fn is_name(found: Option<(&&str, &Json<'_, '_>)>, name: &str) -> bool {
    match found {
        Some((key, _)) => *key == name,
        None => false,
    }
}

fn is_told(alloc: Global, json: &Json<'_, '_>) -> Result<bool, Fail> {
    Ok(has_last(json) && has_list(json) && has_members(alloc, json)?)
}

// Whether a text is told as it was read, and as its copy, whose text has each member once.
fn reads_both(alloc: Global) -> Result<bool, Fail> {
    let mut scratch = Scratch::new(alloc);
    let Ok(document) = Document::read(alloc, TEXT, &mut scratch) else {
        return Ok(false);
    };
    if !is_told(alloc, &document.root())? {
        return Ok(false);
    }
    let copy = document.root().to_value(alloc)?;
    let text = copy.to_string(alloc)?;
    Ok(
        is_told(alloc, &Json::Owned(&copy))?
            && text.as_str() == r#"{"a":["xA",true,null],"b":{"c":7,"d":1.5}}"#,
    )
}

#[test]
fn tells_a_document(rt: HostRuntime) -> Result<(), Fail> {
    assert!(rt; reads_both(rt.alloc())?);
    Ok(())
}

// How many items a list of whole numbers has, which is none where one isn't.
fn whole_items(alloc: Global, text: &str) -> Result<Option<usize>, Fail> {
    let mut scratch = Scratch::new(alloc);
    match Document::read_whole(alloc, text, &mut scratch) {
        Ok(Some(document)) => match document.root().as_array() {
            Some(items) => Ok(Some(items.len())),
            None => Ok(None),
        },
        Ok(None) => Ok(None),
        Err(_) => Err(Fail::new("no JSON")),
    }
}

#[test]
fn reads_whole_numbers(rt: HostRuntime) -> Result<(), Fail> {
    assert!(rt; whole_items(rt.alloc(), "[0,18446744073709551615]")? == Some(2));
    assert!(rt; whole_items(rt.alloc(), "[0,18446744073709551616]")?.is_none());
    assert!(rt;
        whole_items(rt.alloc(), "[1.0]")?.is_none() && whole_items(rt.alloc(), "[-1]")?.is_none()
    );
    Ok(())
}

// Whether a text is refused as no JSON.
fn is_refused(alloc: Global, text: &str) -> bool {
    let mut scratch = Scratch::new(alloc);
    match Document::read(alloc, text, &mut scratch) {
        Ok(_) => false,
        Err(Refusal::Is(_)) => true,
        Err(Refusal::Memory) => false,
    }
}

#[test]
fn refuses_no_json(rt: HostRuntime) -> Result<(), Fail> {
    assert!(rt; is_refused(rt.alloc(), "{\"a\":1} 2") && is_refused(rt.alloc(), "[1e400]"));
    assert!(rt; is_refused(rt.alloc(), "[1,]") && is_refused(rt.alloc(), ""));
    Ok(())
}
