// What is asked of a loader, what it answers, and the world behind its answers.
use media_types::Headers;
use module_info::ModuleInfo;
use semver_npm::PackageNv;
use shared_items::SharedItems;
use source_sums::LoaderChecksum;
use spec_base::{Bytes, Fault, Items, LoadError, ModuleSpecifier, Range, ResolutionKind, Text};
use std::alloc::AllocError;

/// What a load finds.
#[derive(Debug, PartialEq, Eq, Drop)]
pub enum LoadResponse {
    /// A module that stands outside of the graph, under this name.
    External {
        specifier: ModuleSpecifier,
    },
    /// The load goes on at another specifier.
    Redirect {
        specifier: ModuleSpecifier,
    },
    /// The bytes of a module, and its name, which may be another one than it was asked under.
    Module {
        content: Bytes,
        /// When it was last changed, in milliseconds since 1970, where that is known.
        mtime: Option<u64>,
        specifier: ModuleSpecifier,
        /// The headers that came with the content.
        maybe_headers: Option<Headers>,
    },
}

/// What a load answers; `Ok(None)` is missing.
pub type LoadResult = Result<Option<LoadResponse>, LoadError>;

/// What keeping a module at hand finds.
#[derive(Clone, Debug, PartialEq, Eq, Drop)]
pub enum CacheResponse {
    /// It is at hand.
    Cached,
    /// The load goes on at another specifier.
    Redirect { specifier: ModuleSpecifier },
}

/// What keeping a module at hand answers; `Ok(None)` is missing.
pub type EnsureCachedResult = Result<Option<CacheResponse>, LoadError>;

/// How many redirects a load follows where nothing else is said.
pub const DEFAULT_MAX_REDIRECTS: usize = 10;

/// The number under which a question is open.
pub type Ticket = u64;

/// From where a loader is to take what it answers.
#[derive(Clone, Copy, PartialEq, Eq, Debug)]
pub enum CacheSetting {
    /// From its cache alone.
    Only,
    /// From its cache, or else from the source.
    Use,
    /// From the source, whatever its cache holds.
    Reload,
}

/// How a specifier is to be loaded.
#[derive(Clone, Debug, PartialEq, Eq, Drop)]
pub struct LoadOptions {
    /// Whether the load is met behind a dynamic import.
    pub in_dynamic_branch: bool,
    /// Whether the build begins in the dynamic phase.
    pub was_dynamic_root: bool,
    pub cache_setting: CacheSetting,
    /// The sum that is known of the source.
    pub maybe_checksum: Option<LoaderChecksum>,
}

/// A question to a loader.
#[derive(Clone, Debug, PartialEq, Eq, Drop)]
pub struct Question {
    pub specifier: ModuleSpecifier,
    /// Whether the module is to be kept at hand alone, and not to be read.
    pub asset: bool,
    pub options: LoadOptions,
}

/// An answer of a loader.
#[derive(Clone, Debug, PartialEq, Eq, Drop)]
pub enum Answer {
    Load(LoadResult),
    /// To a question that keeps a module at hand.
    Ensure(EnsureCachedResult),
}

/// Why a loader hands out no answer: there was no memory, or the outside failed.
#[derive(Clone, Copy, PartialEq, Eq, Debug)]
pub enum NextRefusal {
    Memory,
    Failed,
}

impl From<AllocError> for NextRefusal {
    ghost use Rattle.std.specs.Prelude.{◌≡◌};
    ghost use Rattle.source_io.specs.declared.types.NextRefusal.TheVariants.{Memory};

    ghost from_gives = { λ _ e. e ≡ Memory };

    fn from(_: AllocError) -> NextRefusal {
        NextRefusal::Memory
    }
}

/// What a question is for.
#[derive(Clone, Copy, PartialEq, Eq, Debug)]
pub enum Purpose {
    /// To load a module, from a cache or from its source.
    LoadUse,
    /// To keep it at hand, from a cache or from its source.
    EnsureUse,
    /// To load it from its source.
    LoadReload,
    /// To keep it at hand, from its source.
    EnsureReload,
    /// To load it from a cache.
    LoadOnly,
}

/// What is known of the copy of a module in a cache.
#[derive(Clone, Debug, PartialEq, Eq, Drop)]
pub struct CacheInfo {
    /// The path of the file that holds it, where there is one.
    pub local: Option<Text>,
}

/// What a resolver answers about one text: from one module, for its code or its types, and with an
/// attribute `type` or with none.
#[derive(Clone, Debug, PartialEq, Eq)]
pub struct WorldResolution {
    pub referrer: ModuleSpecifier,
    pub text: Text,
    pub kind: ResolutionKind,
    pub attribute: Option<Text>,
    pub result: Result<ModuleSpecifier, Fault>,
}

// So that its drop is one call at each way out of what owns it.
impl Drop for WorldResolution {
    fn drop(self) {
        let WorldResolution {
            referrer: _,
            text: _,
            kind: _,
            attribute: _,
            result: _,
        } = self;
    }
}

/// What a resolver answers about JSX, whatever the module: the default sources of the runtime and of its
/// types, and the module of a source in which the runtime stands.
#[derive(Clone, Debug, PartialEq, Eq)]
pub struct JsxDefaults {
    pub source: Option<Text>,
    pub types: Option<Text>,
    pub module: Option<Text>,
}

// So that its drop is one call at each way out of what owns it.
impl Drop for JsxDefaults {
    fn drop(self) {
        let JsxDefaults {
            source: _,
            types: _,
            module: _,
        } = self;
    }
}

/// What a loader, an analyzer, a resolver, a tree of files and a locker answer, as finite lists; the first entry of a key counts. An
/// unlisted answer is missing, but for a `data:` URL where the world reads them; an unlisted info is empty, an unlisted text
/// leads where `resolve_import` says, and what else is unlisted is none.
#[derive(Debug)]
pub struct World {
    pub answers: Items<(ModuleSpecifier, Purpose, Answer)>,
    /// A loader keeps a world for itself, and an analyzer shares this part of it.
    pub infos: SharedItems<(ModuleSpecifier, Result<ModuleInfo, Fault>)>,
    pub resolutions: Items<WorldResolution>,
    /// The module of a module's types, with the range where it is named.
    pub types: Items<(ModuleSpecifier, ModuleSpecifier, Option<Range>)>,
    pub jsx: JsxDefaults,
    /// What is known of the copies of modules in a cache.
    pub cache_info: Items<(ModuleSpecifier, CacheInfo)>,
    /// The absolute paths of the files that templates can mean.
    pub tree: Items<Text>,
    /// The sums that are known of sources.
    pub remote_sums: Items<(ModuleSpecifier, Text)>,
    /// The sums that are known of the manifests of packages.
    pub package_sums: Items<(PackageNv, Text)>,
    /// How many redirects one load follows.
    pub max_redirects: usize,
    /// Whether the loader tests a module by the sum that its question has.
    pub verifies: bool,
    /// Whether an unlisted `data:` URL is answered by what it holds.
    pub reads_data: bool,
}

// So that its drop is one call at each way out of what owns it.
impl Drop for World {
    fn drop(self) {
        let World {
            answers: _,
            infos: _,
            resolutions: _,
            types: _,
            jsx: _,
            cache_info: _,
            tree: _,
            remote_sums: _,
            package_sums: _,
            max_redirects: _,
            verifies: _,
            reads_data: _,
        } = self;
    }
}
