// A build over modules without end stops at its budget.
use crate::endless::{Endless, EndlessServices, Numbered};
use build_options::BuildOptions;
use build_reports::NullModuleInfoCacher;
use graph_builder::BuildFault;
use graph_core::{GraphKind, ModuleGraph};
use graph_printing::graph_text;
use graph_tests::read;
use program_phases::Tellers;
use spec_base::ModuleSpecifier;
use std::alloc::Global;
use std::sync::atomic::{AtomicU64, Ordering};
use std::sync::{Arc, Wait};
use std::test::*;
use std::thread::Threads;
use waiting_builds::build_pooled;

// The text of the empty graph.
const NONE: &str = r#"{"modules":[],"redirects":{},"roots":[]}
valid
"#;

fn endless(alloc: Global) -> Result<Arc<Endless, Global>, Fail> {
    let fetched = AtomicU64::new(0);
    match Arc::new(alloc, Endless { alloc, fetched }) {
        Ok(fetcher) => Ok(fetcher),
        Err(_) => Err(Fail::new("no memory")),
    }
}

// What a build is given: an analyzer without end, and a thousand questions.
fn options(tellers: &Tellers) -> BuildOptions<'_, EndlessServices> {
    BuildOptions {
        is_dynamic: false,
        skip_dynamic_deps: false,
        unstable_bytes_imports: false,
        unstable_css_imports: false,
        unstable_config_imports: false,
        passthrough_jsr_specifiers: false,
        prefer_cached_jsr_versions: false,
        module_analyzer: &Numbered,
        module_info_cacher: &NullModuleInfoCacher,
        file_system: &tellers.tree,
        jsr_url_provider: &tellers.urls,
        jsr_version_resolver: &tellers.versions,
        resolver: None,
        npm_resolver: None,
        reporter: None,
        locker: None,
        jsr_metadata_store: None,
        max_loads: 1000,
    }
}

// Whether a build over a fetcher, whose owner fetches, stops at its budget and leaves the empty graph.
fn is_spent<R>(
    rt: &R,
    alloc: Global,
    tellers: &Tellers,
    fetcher: Arc<Endless, Global>,
) -> Result<bool, Fail>
where
    R: Wait + Threads + Clone + Drop + Send + Sync + 'static,
{
    let mut roots = Vec::new(alloc);
    roots.push(ModuleSpecifier::parse(alloc, "file:///0.js")?)?;
    let mut options = options(tellers);
    let mut graph = ModuleGraph::new(alloc, GraphKind::All);
    let built = build_pooled(
        rt,
        alloc,
        &mut graph,
        roots,
        Vec::new(alloc),
        fetcher,
        0,
        &mut options,
    );
    Ok(matches!(built, Err(BuildFault::Budget)) && graph_text(alloc, &graph)?.as_str() == NONE)
}

#[test]
fn modules_without_end_spend_the_budget(rt: HostRuntime) -> Result<(), Fail> {
    let alloc = rt.alloc();
    let input = read(alloc, "{\"version\":1}")?;
    let tellers = Tellers::new(alloc, input.get())?;
    let fetcher = endless(alloc)?;
    let seen = Arc::try_clone(&fetcher)?;
    assert!(rt; is_spent(&rt, alloc, &tellers, fetcher)?);
    assert!(rt; seen.fetched.load(Ordering::SeqCst) == 1000);
    Ok(())
}
