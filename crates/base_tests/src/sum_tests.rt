// Sums as texts that a caller keeps.
use source_sums::LoaderChecksum;
use std::alloc::Global;
use std::collections::HashSet;
use std::test::Fail;

fn sum(alloc: Global, text: &str) -> Result<LoaderChecksum, Fail> {
    let text = String::from_str(alloc, text)?;
    Ok(LoaderChecksum::new(text))
}

#[test]
fn sums_are_their_texts(rt: HostRuntime) -> Result<(), Fail> {
    let checksum = sum(rt.alloc(), "abc")?;
    let copy = checksum.try_clone()?;
    assert!(rt; copy == checksum && checksum.as_str() == "abc");
    let shown = format!(in rt.alloc(); "{checksum} {copy:?}")?;
    assert!(rt; shown.as_str() == "abc \"abc\"");
    let mut kept = HashSet::new(rt.alloc());
    let _ = kept.insert(checksum)?;
    assert!(rt; kept.contains(&copy));
    let text = copy.into_string();
    assert!(rt; text.as_str() == "abc");
    Ok(())
}
