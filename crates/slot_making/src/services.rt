// The types of the objects that one build is given.
use build_reports::{ModuleInfoCacher, NullModuleInfoCacher, NullReporter, Reporter};
use file_tree::{FileTree, MemoryTree};
use module_info::{ModuleAnalyzer, TableAnalyzer};
use npm_resolver::{NpmResolver, TableNpmResolver};
use source_io::{
    DefaultJsrUrlProvider, HashMapLocker, JsrUrlProvider, Locker, Resolver, WorldResolver,
};

/// Names the types of the objects that one build is given, so that a build has one type parameter for all of them.
pub trait Services {
    /// What keeps the sums of sources.
    type Lock: Locker + Drop;

    /// What tells the files that the template of a dynamic import can mean.
    type Tree: FileTree;

    /// What says where the packages of the registry are.
    type Urls: JsrUrlProvider;

    /// What tells the imports of a source.
    type Analyze: ModuleAnalyzer;

    /// What says where imports lead.
    type Resolve: Resolver;

    /// What resolves the requirements of npm packages.
    type Npm: NpmResolver;

    /// What hears the infos of modules that were read.
    type Cache: ModuleInfoCacher;

    /// What hears how far a build is.
    type Report: Reporter;
}

/// The objects that answer by a world in memory.
pub struct WorldServices;

impl Services for WorldServices {
    type Lock = HashMapLocker;

    type Tree = MemoryTree;

    type Urls = DefaultJsrUrlProvider;

    type Analyze = TableAnalyzer;

    type Resolve = WorldResolver;

    type Npm = TableNpmResolver;

    type Cache = NullModuleInfoCacher;

    type Report = NullReporter;
}
