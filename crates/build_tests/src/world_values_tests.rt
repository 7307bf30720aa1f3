// What a world file is read as, where neither a graph nor the world in version 2 shows it (`tests/worlds`).
use graph_tests::read;
use std::test::Fail;
use world_file::NotAWorld;

#[test]
fn no_world_has_a_text(rt: HostRuntime) -> Result<(), Fail> {
    let shown = format!(in rt.alloc(); "{}", NotAWorld)?;
    assert!(rt; shown.as_str() == "not a world file");
    Ok(())
}

// The numbers where nothing is said.
#[test]
fn numbers(rt: HostRuntime) -> Result<(), Fail> {
    let input = read(rt.alloc(), "{\"version\":1}")?;
    let input = input.get();
    assert!(rt; input.max_loads == 100000);
    assert!(rt; input.arrival.len() == 0 && input.fail_next.len() == 0);
    Ok(())
}
