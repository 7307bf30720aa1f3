// What a build tells of itself: how far it is after each load, which version it chose, and the info of a module whose content came later.
use build_options::BuildOptions;
use build_reports::{ModuleInfoCacher, Reporter};
use file_tree::MemoryTree;
use graph_builder::BuildGraph;
use graph_core::{GraphKind, ModuleGraph};
use graph_tests::{loader_of, read};
use media_types::MediaType;
use module_info::{ModuleInfo, TableAnalyzer};
use npm_resolver::TableNpmResolver;
use program_phases::Tellers;
use semver_npm::{PackageNv, PackageReq};
use slot_making::Services;
use source_io::{DefaultJsrUrlProvider, HashMapLocker, WorldResolver};
use spec_base::ModuleSpecifier;
use std::alloc::Global;
use std::cell::Cell;
use std::test::Fail;
use world_file::Input;

// A root that imports a module and a package of the registry, whose module no cache has and whose version's file tells its info.
const WORLD: &str =
    r#"{"version":1,"roots":["file:///a.js"],"sources":{"file:///a.js":{"kind":"module","text":"A"},"file:///b.js":{"kind":"module","text":"B"},
"https://jsr.io/@p/q/meta.json":{"kind":"module","text":"{\"versions\":{\"1.0.0\":{}}}"},
"https://jsr.io/@p/q/1.0.0_meta.json":{"kind":"module","text":"{\"manifest\":{\"/m.js\":{\"checksum\":\"sha256-ba7816bf8f01cfea414140de5dae2223b00361a396177a9cb410ff61f20015ad\"}},\"exports\":{\".\":\"./m.js\"},\"moduleGraph2\":{\"/m.js\":{}}}"},
"https://jsr.io/@p/q/1.0.0/m.js":{"kind":"module","text":"abc"}},
"infos":{"file:///a.js":{"dependencies":[{"type":"static","kind":"import","specifier":"./b.js","specifierRange":[[0,7],[0,15]]},
{"type":"static","kind":"import","specifier":"jsr:@p/q@1","specifierRange":[[1,7],[1,19]]}]}}}"#;

// Counts what it hears, and how many slots were not done in all.
#[derive(Drop)]
struct Counting {
    loads: Cell<u64>,
    choices: Cell<u64>,
    undone: Cell<usize>,
    total: Cell<usize>,
}

impl Reporter for Counting {
    fn on_load(&self, _: &ModuleSpecifier, modules_done: usize, modules_total: usize) {
        self.loads.set(self.loads.get().saturating_add(1));
        let undone = modules_total - modules_done;
        self.undone.set(self.undone.get().saturating_add(undone));
        self.total.set(modules_total);
    }

    fn on_resolve(&self, _: &PackageReq, _: &PackageNv) {
        self.choices.set(self.choices.get().saturating_add(1));
    }
}

// Counts the bytes of the sources that it hears of.
#[derive(Drop)]
struct Weighing {
    bytes: Cell<usize>,
}

impl ModuleInfoCacher for Weighing {
    fn cache_module_info(&self, _: &ModuleSpecifier, _: MediaType, source: &[u8], _: &ModuleInfo) {
        self.bytes
            .set(self.bytes.get().saturating_add(source.len()));
    }
}

struct HeardServices;

impl Services for HeardServices {
    type Lock = HashMapLocker;

    type Tree = MemoryTree;

    type Urls = DefaultJsrUrlProvider;

    type Analyze = TableAnalyzer;

    type Resolve = WorldResolver;

    type Npm = TableNpmResolver;

    type Cache = Weighing;

    type Report = Counting;
}

fn options<'a>(
    tellers: &'a Tellers,
    cacher: &'a Weighing,
    reporter: &'a Counting,
) -> BuildOptions<'a, HeardServices> {
    BuildOptions {
        is_dynamic: false,
        skip_dynamic_deps: false,
        unstable_bytes_imports: false,
        unstable_css_imports: false,
        unstable_config_imports: false,
        passthrough_jsr_specifiers: false,
        prefer_cached_jsr_versions: false,
        module_analyzer: &tellers.analyzer,
        module_info_cacher: cacher,
        file_system: &tellers.tree,
        jsr_url_provider: &tellers.urls,
        jsr_version_resolver: &tellers.versions,
        resolver: Some(&tellers.resolver),
        npm_resolver: None,
        reporter: Some(reporter),
        locker: None,
        jsr_metadata_store: None,
        max_loads: 100,
    }
}

// Whether a build of the input is Ok.
fn builds(
    alloc: Global,
    input: &Input,
    cacher: &Weighing,
    reporter: &Counting,
) -> Result<bool, Fail> {
    let tellers = Tellers::new(alloc, input)?;
    let mut loader = loader_of(alloc, input)?;
    let mut graph = ModuleGraph::new(alloc, GraphKind::All);
    let roots = input.roots.try_clone()?.into_vec();
    let mut options = options(&tellers, cacher, reporter);
    let done = graph.build(alloc, roots, Vec::new(alloc), &mut loader, &mut options);
    Ok(done.is_ok())
}

#[test]
fn a_build_is_heard_of(rt: HostRuntime) -> Result<(), Fail> {
    let input = read(rt.alloc(), WORLD)?;
    let cacher = Weighing {
        bytes: Cell::new(0),
    };
    let reporter = Counting {
        loads: Cell::new(0),
        choices: Cell::new(0),
        undone: Cell::new(0),
        total: Cell::new(0),
    };
    assert!(rt; builds(rt.alloc(), input.get(), &cacher, &reporter)?);
    // The root, the module and that of the package; behind the root one is open, and in the end there are three slots.
    assert!(rt;
        reporter.loads.get() == 3 && reporter.undone.get() == 1 && reporter.total.get() == 3
    );
    assert!(rt; reporter.choices.get() == 1);
    assert!(rt; cacher.bytes.get() == 3);
    Ok(())
}
