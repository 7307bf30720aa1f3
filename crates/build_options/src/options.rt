// What a build is given beside its roots and its loader.
ghost use Rattle.std.specs.Prelude.{◌≡◌};
ghost use Rattle.build_options.specs.Telling.{flags_of};

use graph_turns::Flags;
use metadata_store::JsrMetadataStore;
use pkg_versions::JsrVersionResolver;
use slot_making::Services;

/// What a build is given beside its roots and its loader. A build owns it while it goes on, and gives it back.
pub struct BuildOptions<'a, S: Services> {
    /// Whether the build begins in the dynamic phase, as that of a dynamic import does.
    pub is_dynamic: bool,
    /// Whether dynamic imports are left out.
    pub skip_dynamic_deps: bool,
    /// Whether the attribute type `bytes` is allowed.
    pub unstable_bytes_imports: bool,
    /// Whether the attribute type `css` is allowed.
    pub unstable_css_imports: bool,
    /// Whether the attribute types `yaml`, `toml`, `json5` and `jsonc` are allowed.
    pub unstable_config_imports: bool,
    /// Whether `jsr:` specifiers stand outside of the graph.
    pub passthrough_jsr_specifiers: bool,
    /// Whether versions of packages whose files a cache holds are preferred to others: before a version is chosen that the graph hasn't got,
    /// the file of each version that fits and isn't withdrawn is asked for under `Only`.
    pub prefer_cached_jsr_versions: bool,
    /// What tells the imports of a source.
    pub module_analyzer: &'a S::Analyze,
    /// What hears the infos of scripts whose contents come after all else.
    pub module_info_cacher: &'a S::Cache,
    /// What tells the files that the template of a dynamic import can mean.
    pub file_system: &'a S::Tree,
    /// What tells which URLs name versions of packages.
    pub jsr_url_provider: &'a S::Urls,
    /// What picks versions of packages.
    pub jsr_version_resolver: &'a JsrVersionResolver,
    /// What says where imports lead; without one they lead where the plain rule says.
    pub resolver: Option<&'a S::Resolve>,
    /// What resolves the requirements of npm packages: with one, `npm:` specifiers wait for the end of the build, where it is asked about
    /// them; without one they are asked about as URLs are.
    pub npm_resolver: Option<&'a S::Npm>,
    /// What hears how far the build is, where one is given.
    pub reporter: Option<&'a S::Report>,
    /// What keeps the sums of sources from the network, where one is given: a question has the sum that it knows, and when a
    /// build ends it is told those that it doesn't know.
    pub locker: Option<S::Lock>,
    /// What was answered about files of the registry in other builds, where it is given: a first run takes of it what it would ask
    /// about under `Use`, and adds what was answered under `Use`.
    pub jsr_metadata_store: Option<JsrMetadataStore>,
    /// How many questions may be put.
    pub max_loads: u64,
}

// So that its drop is one call at each way out of what owns it.
impl<'a, S: Services> Drop for BuildOptions<'a, S> {
    fn drop(self) {
        let BuildOptions {
            is_dynamic: _,
            skip_dynamic_deps: _,
            unstable_bytes_imports: _,
            unstable_css_imports: _,
            unstable_config_imports: _,
            passthrough_jsr_specifiers: _,
            prefer_cached_jsr_versions: _,
            module_analyzer: _,
            module_info_cacher: _,
            file_system: _,
            jsr_url_provider: _,
            jsr_version_resolver: _,
            resolver: _,
            npm_resolver: _,
            reporter: _,
            locker: _,
            jsr_metadata_store: _,
            max_loads: _,
        } = self;
    }
}

impl<'a, S: Services> BuildOptions<'a, S> {
    /// The flags among them.
    pub fn flags(&self) -> Flags
        ensures { result ≡ flags_of self.now }
    {
        Flags {
            is_dynamic: self.is_dynamic,
            skip_dynamic_deps: self.skip_dynamic_deps,
            bytes: self.unstable_bytes_imports,
            css: self.unstable_css_imports,
            config: self.unstable_config_imports,
            passthrough_jsr: self.passthrough_jsr_specifiers,
            resolves_npm: self.npm_resolver.is_some(),
            prefers_cached_jsr: self.prefer_cached_jsr_versions,
        }
    }

    /// These options, with the locker and the store, which go out of the old ones.
    pub fn take(&mut self) -> BuildOptions<'a, S>
        ensures { result ≡ self.old }
    {
        BuildOptions {
            is_dynamic: self.is_dynamic,
            skip_dynamic_deps: self.skip_dynamic_deps,
            unstable_bytes_imports: self.unstable_bytes_imports,
            unstable_css_imports: self.unstable_css_imports,
            unstable_config_imports: self.unstable_config_imports,
            passthrough_jsr_specifiers: self.passthrough_jsr_specifiers,
            prefer_cached_jsr_versions: self.prefer_cached_jsr_versions,
            module_analyzer: self.module_analyzer,
            module_info_cacher: self.module_info_cacher,
            file_system: self.file_system,
            jsr_url_provider: self.jsr_url_provider,
            jsr_version_resolver: self.jsr_version_resolver,
            resolver: self.resolver,
            npm_resolver: self.npm_resolver,
            reporter: self.reporter,
            locker: self.locker.take(),
            jsr_metadata_store: self.jsr_metadata_store.take(),
            max_loads: self.max_loads,
        }
    }
}
