// Modules without end: each imports the next one.
use build_reports::{NullModuleInfoCacher, NullReporter};
use file_tree::MemoryTree;
use media_types::MediaType;
use module_info::{
    DependencyDescriptor, ImportAttributes, ModuleAnalyzer, ModuleInfo, StaticDependencyDescriptor,
    StaticDependencyKind,
};
use npm_resolver::TableNpmResolver;
use slot_making::Services;
use source_io::{
    Answer, CacheInfo, DEFAULT_MAX_REDIRECTS, DefaultJsrUrlProvider, Fetch, HashMapLocker,
    LoadResponse, Question, WorldResolver,
};
use spec_base::{Bytes, Fault, ModuleSpecifier, PositionRange, Refusal, Text};
use std::alloc::{AllocError, Global};
use std::sync::atomic::{AtomicU64, Ordering};

/// A fetcher that answers each question with a module without a text, and tells no world. It is asked by one thread.
#[derive(Drop)]
pub struct Endless {
    pub alloc: Global,
    pub fetched: AtomicU64,
}

impl Fetch for Endless {
    ghost use Rattle.std.specs.Prelude.{None, false};

    ghost world = { λ _. None };

    ghost caches = { λ _. false };

    fn fetch(&self, question: &Question) -> Result<Answer, AllocError> {
        let fetched = self.fetched.load(Ordering::SeqCst).saturating_add(1);
        self.fetched.store(fetched, Ordering::SeqCst);
        Ok(Answer::Load(Ok(Some(LoadResponse::Module {
            content: Bytes::from_slice(self.alloc, b"")?,
            mtime: None,
            specifier: question.specifier.clone()?,
            maybe_headers: None,
        }))))
    }

    fn max_redirects(&self) -> usize {
        DEFAULT_MAX_REDIRECTS
    }

    fn cache_info_enabled(&self) -> bool {
        false
    }

    fn get_cache_info(
        &self,
        _specifier: &ModuleSpecifier,
    ) -> Result<Option<CacheInfo>, AllocError> {
        Ok(None)
    }
}

/// An analyzer that has `file:///N.js` import `file:///(N+1).js`.
pub struct Numbered;

// The text of the module after that at a specifier.
fn next_after(alloc: Global, specifier: &str) -> Result<Text, AllocError> {
    let name = specifier.strip_prefix("file:///").unwrap_or("");
    let next = match name.strip_suffix(".js").unwrap_or("").parse::<u64>() {
        Ok(number) => number.saturating_add(1),
        Err(_) => 0,
    };
    Text::from_str(alloc, format!(in alloc; "file:///{next}.js")?.as_str())
}

impl ModuleAnalyzer for Numbered {
    ghost use Rattle.std.specs.Prelude.{None};

    ghost infos = { λ _. None };

    fn analyze(
        &self,
        alloc: Global,
        specifier: &ModuleSpecifier,
        _source: &str,
        _media_type: MediaType,
    ) -> Result<ModuleInfo, Refusal<Fault>> {
        let import = StaticDependencyDescriptor {
            kind: StaticDependencyKind::Import,
            types_specifier: None,
            specifier: next_after(alloc, specifier.as_str())?,
            specifier_range: PositionRange::zeroed(),
            import_attributes: ImportAttributes::None,
            is_side_effect: false,
        };
        let mut info = ModuleInfo::empty(alloc);
        info.dependencies
            .push(DependencyDescriptor::Static(import))?;
        Ok(info)
    }
}

/// What a build is given where that analyzer tells the imports.
pub struct EndlessServices;

impl Services for EndlessServices {
    type Lock = HashMapLocker;

    type Tree = MemoryTree;

    type Urls = DefaultJsrUrlProvider;

    type Analyze = Numbered;

    type Resolve = WorldResolver;

    type Npm = TableNpmResolver;

    type Cache = NullModuleInfoCacher;

    type Report = NullReporter;
}
