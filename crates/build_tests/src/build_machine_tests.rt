// Builds that a test drives: answers in any order, and what a build gives that isn't driven to its end.
ghost use Rattle.std.specs.Prelude.{OnOk};
ghost use Rattle.graph_builder.specs.Calls.Steps.{IsGoing};

use graph_builder::{Build, BuildFault};
use graph_core::{GraphKind, ModuleGraph};
use graph_printing::graph_text;
use graph_tests::{loader_of, read};
use program_phases::Tellers;
use slot_making::WorldServices;
use source_io::{Answer, LoadResponse, Question};
use spec_base::{Boxed, Bytes, ModuleSpecifier};
use std::alloc::Global;
use std::test::Fail;
use world_file::{Input, Settings};

// The text of a graph of two roots, and that of the empty graph.
const BOTH: &str =
    r#"{"modules":[{"kind":"esm","mediaType":"JavaScript","size":1,"specifier":"file:///a.js"},{"kind":"esm","mediaType":"JavaScript","size":1,"specifier":"file:///b.js"}],"redirects":{},"roots":["file:///a.js","file:///b.js"]}
valid"#;

const NONE: &str = r#"{"modules":[],"redirects":{},"roots":[]}
valid"#;

// No locker, no dynamic root, and no flag.
fn no_settings() -> Settings {
    Settings {
        locker: false,
        is_dynamic: false,
        skip_dynamic_deps: false,
        unstable_bytes_imports: false,
        unstable_css_imports: false,
        unstable_config_imports: false,
        prefer_cached_jsr_versions: false,
    }
}

// A build of these roots, of which nothing is told.
fn begin<'a>(
    alloc: Global,
    roots: Vec<ModuleSpecifier>,
    max_loads: u64,
    tellers: &'a Tellers,
) -> Build<'a, WorldServices>
    ensures going { IsGoing result }
{
    Build::start(
        alloc,
        ModuleGraph::new(alloc, GraphKind::All),
        roots,
        Vec::new(alloc),
        10,
        tellers.options(None, &no_settings(), max_loads),
    )
}

// A world without answers.
fn empty_world(alloc: Global) -> Result<Boxed<Input>, Fail> {
    read(alloc, "{\"version\":1}")
}

// Specifiers by their letters.
fn listed(alloc: Global, letters: &str) -> Result<Vec<ModuleSpecifier>, Fail> {
    let mut specifiers = Vec::new(alloc);
    for letter in letters.split_whitespace() {
        let text = format!(in alloc; "file:///{letter}.js")?;
        specifiers.push(ModuleSpecifier::parse(alloc, text.as_str())?)?;
    }
    Ok(specifiers)
}

// What it tells.
fn none_told(alloc: Global) -> Result<Boxed<Tellers>, Fail> {
    let input = empty_world(alloc)?;
    let tellers = Tellers::new(alloc, input.get())?;
    Ok(Boxed::new(alloc, tellers)?)
}

// A module at the specifier of a question.
fn found(alloc: Global, question: Question) -> Result<Answer, Fail> {
    Ok(Answer::Load(Ok(Some(LoadResponse::Module {
        content: Bytes::from_slice(alloc, b"A")?,
        mtime: None,
        specifier: question.specifier,
        maybe_headers: None,
    }))))
}

// Takes two questions, and answers the later one first.
fn answer_backwards<'a>(alloc: Global, build: &mut Build<'a, WorldServices>) -> Result<(), Fail>
    requires going { IsGoing build.old }
    ensures going { OnOk result (IsGoing build.new) }
{
    let Some((first, one)) = build.take_question()? else {
        return Ok(());
    };
    let Some((second, other)) = build.take_question()? else {
        return Ok(());
    };
    build.answer(second, found(alloc, other)?)?;
    build.answer(first, found(alloc, one)?)?;
    Ok(())
}

// Finishes a build, where it is done, with a loader that nothing was asked of.
fn finish<'a>(alloc: Global, build: &mut Build<'a, WorldServices>) -> Result<(), Fail>
    requires going { IsGoing build.old }
{
    if build.is_done() {
        let input = empty_world(alloc)?;
        let loader = loader_of(alloc, input.get())?;
        build.finish(&loader)?;
    }
    Ok(())
}

// Whether two questions are answered, the later one first, and the build is finished, where it is done.
fn is_answered<'a>(alloc: Global, build: &mut Build<'a, WorldServices>) -> Result<bool, Fail>
    requires going { IsGoing build.old }
{
    answer_backwards(alloc, build)?;
    finish(alloc, build)?;
    Ok(true)
}

// Whether two questions are answered so, and the build is left as it is.
fn is_left_so<'a>(alloc: Global, build: &mut Build<'a, WorldServices>) -> Result<bool, Fail>
    requires going { IsGoing build.old }
{
    answer_backwards(alloc, build)?;
    Ok(true)
}

// Whether two questions are answered so, and a third one is more than the build may put.
fn is_refused<'a>(alloc: Global, build: &mut Build<'a, WorldServices>) -> Result<bool, Fail>
    requires going { IsGoing build.old }
{
    answer_backwards(alloc, build)?;
    Ok(matches!(build.take_question(), Err(BuildFault::Budget)))
}

// Whether a build was driven, and its graph has this text.
fn is_graph(
    alloc: Global,
    graph: &ModuleGraph,
    driven: Result<bool, Fail>,
    wanted: &str,
) -> Result<bool, Fail> {
    let is_driven = driven?;
    Ok(is_driven && graph_text(alloc, graph)?.as_str().trim_end() == wanted)
}

// Whether a build was driven, and gives this graph.
fn gives<'a>(
    alloc: Global,
    build: Build<'a, WorldServices>,
    driven: Result<bool, Fail>,
    wanted: &str,
) -> Result<bool, Fail> {
    let (graph, _) = build.into_parts();
    is_graph(alloc, &graph, driven, wanted)
}

fn gives_when_finished(alloc: Global, tellers: &Tellers) -> Result<bool, Fail> {
    let roots = listed(alloc, "a b")?;
    let mut build = begin(alloc, roots, 2, tellers);
    let driven = is_answered(alloc, &mut build);
    gives(alloc, build, driven, BOTH)
}

#[test]
fn answers_may_come_backwards(rt: HostRuntime) -> Result<(), Fail> {
    let tellers = none_told(rt.alloc())?;
    assert!(rt; gives_when_finished(rt.alloc(), tellers.get())?);
    Ok(())
}

fn gives_before_finish(alloc: Global, tellers: &Tellers) -> Result<bool, Fail> {
    let roots = listed(alloc, "a b")?;
    let mut build = begin(alloc, roots, 2, tellers);
    let driven = is_left_so(alloc, &mut build);
    gives(alloc, build, driven, NONE)
}

// Without an Ok of `finish` a build gives the empty graph.
#[test]
fn nothing_is_given_before_finish(rt: HostRuntime) -> Result<(), Fail> {
    let tellers = none_told(rt.alloc())?;
    assert!(rt; gives_before_finish(rt.alloc(), tellers.get())?);
    Ok(())
}

fn gives_when_refused(alloc: Global, tellers: &Tellers) -> Result<bool, Fail> {
    let roots = listed(alloc, "a b c")?;
    let mut build = begin(alloc, roots, 2, tellers);
    let driven = is_refused(alloc, &mut build);
    gives(alloc, build, driven, NONE)
}

#[test]
fn the_third_of_two_is_refused(rt: HostRuntime) -> Result<(), Fail> {
    let tellers = none_told(rt.alloc())?;
    assert!(rt; gives_when_refused(rt.alloc(), tellers.get())?);
    Ok(())
}
