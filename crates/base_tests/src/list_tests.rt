// Lists, queues and maps, each called once with ample memory.
use seen_pending::{SeenPendingCollection, each_once};
use spec_base::{Items, Queue, SpecifierMap};
use specifier_index::SpecifierTable;
use std::alloc::Global;
use std::test::Fail;
use url::Url;

type Letters = SeenPendingCollection<u8>;

// Whether `a` and `b` are handed out once, though `a` is added twice.
fn hands_out_two(letters: &mut Letters) -> Result<bool, Fail> {
    let added = letters.add(b'a')? && letters.add(b'b')? && !letters.add(b'a')?;
    Ok(
        added
            && letters.next_pending()? == Some(b'a')
            && letters.next_pending()? == Some(b'b')
            && letters.next_pending()?.is_none(),
    )
}

// Whether of more letters `c` alone is new.
fn hands_out_new(alloc: Global, letters: &mut Letters) -> Result<bool, Fail> {
    letters.extend(Vec::from_slice(alloc, b"bcac")?.into_iter())?;
    Ok(letters.next_pending()? == Some(b'c') && letters.next_pending()?.is_none())
}

#[test]
fn hands_out_once(rt: HostRuntime) -> Result<(), Fail> {
    let mut letters = SeenPendingCollection::with_capacity(rt.alloc(), 2)?;
    assert!(rt; hands_out_two(&mut letters)?);
    assert!(rt; hands_out_new(rt.alloc(), &mut letters)?);
    Ok(())
}

#[test]
fn lists_each_once(rt: HostRuntime) -> Result<(), Fail> {
    let letters = Vec::from_slice(rt.alloc(), b"cabac")?;
    let once = each_once(rt.alloc(), letters)?;
    assert!(rt; once.as_slice() == b"cab".as_slice());
    Ok(())
}

#[test]
fn keeps_what_passes(rt: HostRuntime) -> Result<(), Fail> {
    let mut numbers = Items::from(Vec::from_slice(rt.alloc(), &[1u8, 2, 3])?);
    numbers.push(4)?;
    numbers.retain(|number| *number % 2 == 0);
    assert!(rt; numbers.as_slice() == [2u8, 4].as_slice());
    Ok(())
}

fn put(alloc: Global, map: &mut SpecifierMap<u8>, text: &str, value: u8) -> Result<bool, Fail> {
    let url = Url::parse(alloc, text)?;
    Ok(map.insert(url, value)?.is_none())
}

// Whether the first of two is removed, once.
fn is_removed(alloc: Global, map: &mut SpecifierMap<u8>) -> Result<bool, Fail> {
    let a = Url::parse(alloc, "file:///a.js")?;
    let b = Url::parse(alloc, "file:///b.js")?;
    Ok(map.remove(&a) == Some(1) && map.remove(&a).is_none() && map.get(&b).copied() == Some(2))
}

#[test]
fn removes_one_specifier(rt: HostRuntime) -> Result<(), Fail> {
    let mut map = SpecifierMap::new(rt.alloc());
    assert!(rt; put(rt.alloc(), &mut map, "file:///a.js", 1)?);
    assert!(rt; put(rt.alloc(), &mut map, "file:///b.js", 2)?);
    assert!(rt; is_removed(rt.alloc(), &mut map)?);
    Ok(())
}

#[test]
fn reads_a_queue(rt: HostRuntime) -> Result<(), Fail> {
    let mut queue = Queue::new(rt.alloc());
    queue.push_back(b'a')?;
    queue.push_back(b'b')?;
    assert!(rt; queue.get(1).copied() == Some(b'b'));
    assert!(rt; queue.get(2).is_none());
    Ok(())
}

// Three values, put in another order than that of their specifiers.
fn three_values(alloc: Global) -> Result<SpecifierTable<u8>, Fail> {
    let mut table = SpecifierTable::new(alloc);
    let _ = table.insert(Url::parse(alloc, "file:///b.js")?, 1)?;
    let _ = table.insert(Url::parse(alloc, "file:///c.js")?, 2)?;
    let _ = table.insert(Url::parse(alloc, "file:///a.js")?, 3)?;
    Ok(table)
}

fn is_entry(found: Option<(&Url, &u8)>, text: &str, value: u8) -> bool {
    match found {
        Some((url, number)) => url.as_str() == text && *number == value,
        None => false,
    }
}

// Whether `a.js` and `c.js` are lent, in order.
fn lends_two(table: &SpecifierTable<u8>) -> bool {
    let mut entries = table.iter();
    is_entry(entries.next(), "file:///a.js", 3)
        && is_entry(entries.next(), "file:///c.js", 4)
        && entries.next().is_none()
}

// Whether `c.js` gets another value, and `b.js` is removed, once.
fn is_changed(alloc: Global, table: &mut SpecifierTable<u8>) -> Result<bool, Fail> {
    let b = Url::parse(alloc, "file:///b.js")?;
    let c = Url::parse(alloc, "file:///c.js")?;
    let before = table.insert(c, 4)?;
    let removed = table.remove(&b);
    Ok(before == Some(2) && removed == Some(1) && table.remove(&b).is_none())
}

#[test]
fn lends_in_order(rt: HostRuntime) -> Result<(), Fail> {
    let mut table = three_values(rt.alloc())?;
    assert!(rt; is_changed(rt.alloc(), &mut table)?);
    let b = Url::parse(rt.alloc(), "file:///b.js")?;
    assert!(rt; table.len() == 2 && !table.contains_key(&b) && table.get(&b).is_none());
    assert!(rt; lends_two(&table));
    Ok(())
}

#[test]
fn is_put_together_again(rt: HostRuntime) -> Result<(), Fail> {
    let mut table = three_values(rt.alloc())?;
    assert!(rt; is_changed(rt.alloc(), &mut table)?);
    assert!(rt; lends_two(&table.try_clone()?));
    let (order, values) = table.into_parts();
    assert!(rt; lends_two(&SpecifierTable::from_parts(order, values)));
    Ok(())
}
