// A build that is recorded, and built once more by the bytes of what was recorded. What stores have, and which graphs they lead to, stands in
// `tests/tools`.
use graph_core::ModuleGraph;
use graph_printing::graph_text;
use graph_tests::{loader_of, read};
use program_phases::Tellers;
use slot_making::WorldServices;
use std::alloc::Global;
use std::test::Fail;
use store_turns::{BuildInput, ReplayFault, StoredBuild, replayed};
use world_file::Input;

// A module, and packages of npm, for which no question is put; one of them isn't resolved.
const WORLD: &str =
    r#"{"version":1,"roots":["npm:left@1","file:///a.js"],"sources":{"file:///a.js":{"kind":"module","text":"A"}},"infos":{"file:///a.js":{"dependencies":[
{"type":"static","kind":"import","specifier":"npm:chalk@^5","specifierRange":[[0,7],[0,21]]},{"type":"dynamic","argument":"npm:chalk@4",
"argumentRange":[[1,7],[1,20]]}]}},"npm":{"packages":{"left@1":{"class":"Error","message":"No version of left is 1."}},
"graph":{"class":"Busy","message":"Try later"}}}"#;

fn given<'a>(
    alloc: Global,
    input: &'a Input,
    tellers: &'a Tellers,
) -> Result<BuildInput<'a, WorldServices>, Fail> {
    let roots = input.roots.try_clone()?.into_vec();
    Ok(BuildInput {
        kind: input.kind,
        roots,
        imports: Vec::new(alloc),
        options: tellers.options(None, &input.settings, input.max_loads),
    })
}

// Whether a second build left the graph of the first one.
fn is_same(
    alloc: Global,
    first: &ModuleGraph,
    second: &Result<StoredBuild<'_, WorldServices>, ReplayFault>,
) -> Result<bool, Fail> {
    let Ok(second) = second else {
        return Ok(false);
    };
    let wanted = graph_text(alloc, first)?;
    let came = graph_text(alloc, &second.graph)?;
    Ok(wanted.as_str() == came.as_str())
}

// Whether a build of an input puts one question and keeps one answer, by which a second build leaves its graph.
fn is_replayed(alloc: Global, input: &Input) -> Result<bool, Fail> {
    let tellers = Tellers::new(alloc, input)?;
    let first = given(alloc, input, &tellers)?;
    let again = given(alloc, input, &tellers)?;
    let done = replayed(alloc, first, again, loader_of(alloc, input)?)?;
    let is_one = done.first.questions == 1 && done.store.entries().len() == 1;
    Ok(is_one && is_same(alloc, &done.first.graph, &done.second)?)
}

#[test]
fn a_store_leads_to_the_same_graph(rt: HostRuntime) -> Result<(), Fail> {
    let input = read(rt.alloc(), WORLD)?;
    assert!(rt; is_replayed(rt.alloc(), input.get())?);
    Ok(())
}
