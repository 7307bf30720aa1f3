// Workers fetch beside each other.
use crate::meeting::Meeting;
use graph_core::{GraphKind, ModuleGraph};
use graph_printing::graph_text;
use program_phases::Tellers;
use source_io::{World, WorldLoader};
use spec_base::ModuleSpecifier;
use std::alloc::Global;
use std::sync::atomic::Ordering;
use std::sync::{Arc, Wait};
use std::test::*;
use std::thread::Threads;
use waiting_builds::build_pooled;
use world_file::{Input, Settings, world_of};

// Two roots, which are two modules.
const WORLD: &str =
    r#"{"version":1,"roots":["file:///a.js","file:///b.js"],"sources":{"file:///a.js":{"kind":"module","text":"A"},
"file:///b.js":{"kind":"module","text":"BB"}}}"#;

// Their graph.
const TEXT: &str =
    r#"{"modules":[{"kind":"esm","mediaType":"JavaScript","size":1,"specifier":"file:///a.js"},{"kind":"esm","mediaType":"JavaScript","size":2,"specifier":"file:///b.js"}],"redirects":{},"roots":["file:///a.js","file:///b.js"]}
valid
"#;

fn read(alloc: Global) -> Result<Input, Fail> {
    match world_of(alloc, WORLD.as_bytes()) {
        Ok(input) => Ok(input),
        Err(_) => Err(Fail::new("no world file")),
    }
}

// A fetcher over a world whose fetches of the two roots wait for one another.
fn meeting_of(alloc: Global, world: World) -> Result<Arc<Meeting, Global>, Fail> {
    let loader = WorldLoader::new(alloc, world, Vec::new(alloc), Vec::new(alloc))?;
    match Arc::new(alloc, Meeting::new(loader)) {
        Ok(fetcher) => Ok(fetcher),
        Err(_) => Err(Fail::new("no memory")),
    }
}

// The text of the graph of some roots, as two workers over a fetcher build it.
fn built_by<R>(
    rt: &R,
    alloc: Global,
    tellers: &Tellers,
    settings: &Settings,
    roots: Vec<ModuleSpecifier>,
    fetcher: Arc<Meeting, Global>,
) -> Result<String, Fail>
where
    R: Wait + Threads + Clone + Drop + Send + Sync + 'static,
{
    let mut options = tellers.options(None, settings, 100);
    let mut graph = ModuleGraph::new(alloc, GraphKind::All);
    let built = build_pooled(
        rt,
        alloc,
        &mut graph,
        roots,
        Vec::new(alloc),
        fetcher,
        2,
        &mut options,
    );
    if built.is_err() {
        return Err(Fail::new("not built"));
    }
    Ok(graph_text(alloc, &graph)?)
}

// A body that fetches on one thread, in whatever order, comes to the limit of a hold.
#[test]
fn two_workers_meet(rt: HostRuntime) -> Result<(), Fail> {
    let alloc = rt.alloc();
    let input = read(alloc)?;
    let tellers = Tellers::new(alloc, &input)?;
    let Input {
        roots,
        world,
        settings,
        ..
    } = input;
    let fetcher = meeting_of(alloc, world)?;
    let seen = Arc::try_clone(&fetcher)?;
    let roots = roots.into_vec();
    let text = built_by(&rt, alloc, &tellers, &settings, roots, fetcher)?;
    assert!(rt; text.as_str() == TEXT);
    assert!(rt; seen.gave_up.load(Ordering::SeqCst) == 0);
    Ok(())
}
