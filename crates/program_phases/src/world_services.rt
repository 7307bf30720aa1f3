// What a world tells beside its loader: the analyzer, the tree of files and the resolver by which a build goes, with the URLs
// of the registry.
ghost use Rattle.std.specs.Prelude.{◌≡◌, map, string_bytes, is_some, IfOk, Some, true};
ghost use Rattle.source_io.specs.Resolvers.{meaning_in, meaning_of};
ghost use Rattle.import_records.specs.Target.{told_resolving};
ghost use Rattle.registry_urls.specs.Names.{nv_of_url};
ghost use Rattle.build_options.specs.Telling.{flags_of, npm_in};
ghost use Rattle.graph_core.specs.Npm.{no_npm};
ghost use Rattle.spec_base.specs.Options.{by_option};
ghost use Rattle.program_phases.specs.Phases.{TellsInput, resolving_by};
ghost use Rattle.program_phases.specs.Sums.{flags_by};

use build_options::BuildOptions;
use build_reports::NullModuleInfoCacher;
use file_tree::MemoryTree;
use module_info::TableAnalyzer;
use npm_resolver::{NpmTable, TableNpmResolver};
use pkg_versions::JsrVersionResolver;
use slot_making::WorldServices;
use source_io::{DefaultJsrUrlProvider, HashMapLocker, World, WorldResolver};
use spec_base::Text;
use std::alloc::{AllocError, Global};
use world_file::{Input, Settings};

/// What a world tells beside its loader.
pub struct Tellers {
    pub analyzer: TableAnalyzer,
    pub tree: MemoryTree,
    pub urls: DefaultJsrUrlProvider,
    pub resolver: WorldResolver,
    pub versions: JsrVersionResolver,
    pub passthrough_jsr: bool,
    /// What resolves the requirements of npm packages, where the input says what npm answers.
    pub npm: Option<TableNpmResolver>,
}

// So that its drop is one call at each way out of what owns it.
impl Drop for Tellers {
    fn drop(self) {
        let Tellers {
            analyzer: _,
            tree: _,
            urls: _,
            resolver: _,
            versions: _,
            passthrough_jsr: _,
            npm: _,
        } = self;
    }
}

// The analyzer that a world tells.
fn analyzer_of(alloc: Global, world: &World) -> Result<TableAnalyzer, AllocError>
    ensures { IfOk result (λ a. a.infos ≡ world.now.infos) }
{
    let infos = world.infos.try_clone()?;
    TableAnalyzer::new(alloc, infos)
}

fn copies_of(alloc: Global, texts: &[Text]) -> Result<Vec<String>, AllocError>
    ensures { IfOk result (λ copies. map string_bytes copies.items ≡ texts.now) }
{
    let mut copies = Vec::new(alloc);
    for text in texts {
        copies.push(String::from_str(alloc, text.as_str())?)?;
    }
    Ok(copies)
}

// The tree of files that a world tells.
fn tree_of(alloc: Global, world: &World) -> Result<MemoryTree, AllocError>
    ensures { IfOk result (λ t. t ≡ world.now.tree) }
{
    let paths = copies_of(alloc, world.tree.as_slice())?;
    Ok(MemoryTree::new(paths))
}

// The resolver that a world tells.
fn resolver_of(alloc: Global, world: &World) -> Result<WorldResolver, AllocError>
    ensures { IfOk result (λ r. meaning_in r ≡ meaning_of world.now) }
{
    let resolutions = world.resolutions.try_clone()?;
    let types = world.types.try_clone()?;
    let jsx = world.jsx.try_clone()?;
    WorldResolver::new(alloc, resolutions, types, jsx)
}

// The npm resolver of a table, where there is one.
fn npm_resolver_of(table: &Option<NpmTable>) -> Result<Option<TableNpmResolver>, AllocError>
    ensures { IfOk result (λ npm. npm ≡ table.now) }
{
    match table {
        None => Ok(None),
        Some(table) => {
            let packages = table.packages.try_clone()?;
            let graph = table.graph.clone()?;
            Ok(Some(TableNpmResolver::new(packages.into_vec(), graph)))
        }
    }
}

impl Tellers {
    /// What the world of an input tells, and where its packages are. The only refusal is want of memory.
    pub fn new(alloc: Global, input: &Input) -> Result<Tellers, AllocError>
        ensures { IfOk result (λ t. TellsInput input.now t) }
    {
        let analyzer = analyzer_of(alloc, &input.world)?;
        let tree = tree_of(alloc, &input.world)?;
        let urls = input.registry.provider.try_clone()?;
        let resolver = resolver_of(alloc, &input.world)?;
        let newest_dependency_date_options = input.registry.newest.to_options(alloc)?;
        let npm = npm_resolver_of(&input.npm)?;
        Ok(Tellers {
            analyzer,
            tree,
            urls,
            resolver,
            versions: JsrVersionResolver {
                newest_dependency_date_options,
            },
            passthrough_jsr: input.registry.passthrough_jsr,
            npm,
        })
    }

    /// The options of a build by them and by some settings, which keeps sums in a locker, where there is one.
    pub fn options(
        &self,
        locker: Option<HashMapLocker>,
        settings: &Settings,
        max_loads: u64,
    ) -> BuildOptions<'_, WorldServices>
        ensures analyzer { result.module_analyzer.now ≡ self.now.analyzer }
        ensures tree { result.file_system.now ≡ self.now.tree }
        ensures resolving { told_resolving (nv_of_url result.jsr_url_provider.now.url) (λ r. true)
            meaning_in result.resolver
            ≡ Some (resolving_by self.now) }
        ensures urls { result.jsr_url_provider.now ≡ self.now.urls }
        ensures locker { result.locker ≡ locker }
        ensures versions { result.jsr_version_resolver.now ≡ self.now.versions }
        ensures store { result.jsr_metadata_store ≡ None }
        ensures flags { flags_of result
            ≡ flags_by settings.now self.now.passthrough_jsr (is_some self.now.npm) }
        ensures npm { npm_in (λ table. Some table) result
            ≡ Some (by_option self.now.npm no_npm (λ table. table)) }
        ensures budget { result.max_loads ≡ max_loads }
    {
        BuildOptions {
            is_dynamic: settings.is_dynamic,
            skip_dynamic_deps: settings.skip_dynamic_deps,
            unstable_bytes_imports: settings.unstable_bytes_imports,
            unstable_css_imports: settings.unstable_css_imports,
            unstable_config_imports: settings.unstable_config_imports,
            passthrough_jsr_specifiers: self.passthrough_jsr,
            prefer_cached_jsr_versions: settings.prefer_cached_jsr_versions,
            module_analyzer: &self.analyzer,
            module_info_cacher: &NullModuleInfoCacher,
            file_system: &self.tree,
            jsr_url_provider: &self.urls,
            jsr_version_resolver: &self.versions,
            resolver: Some(&self.resolver),
            npm_resolver: self.npm.as_ref(),
            reporter: None,
            locker,
            jsr_metadata_store: None,
            max_loads,
        }
    }
}
