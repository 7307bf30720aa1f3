// What stands at a specifier of a graph. A slot is made whole and then stored; nothing changes it in place.
ghost use Rattle.std.specs.Prelude.{◌≡◌, length, IfOk, option_copied};
ghost use Rattle.module_slots.specs.Modules.{module_specifier, module_media, module_text, module_dependencies, module_types, fast_check_module, fast_check_diagnostics, dependencies_prefer_fast_check, module_dependencies_prefer_fast_check, as_script, as_json, module_mtime, as_npm, as_node, as_external};
ghost use Rattle.module_slots.specs.Slots.{is_pending, is_asset_slot, is_pending_asset};

use crate::fast_check::{FastCheckDiagnostic, FastCheckTypeModule, FastCheckTypeModuleSlot};
use graph_dependencies::{Dependency, TypesDependency};
use graph_errors::ModuleError;
use media_types::{MediaType, ModuleTextSource};
use semver_npm::NpmPackageReqReference;
use source_io::CacheInfo;
use spec_base::{Bytes, Items, ModuleSpecifier, Text, TextMap};
use std::alloc::AllocError;

/// A script, with what its imports make.
#[derive(Debug)]
pub struct JsModule {
    /// Whether it is a script, and no module of ECMA-262.
    pub is_script: bool,
    pub dependencies: TextMap<Dependency>,
    /// What is known of the copy in a cache, where that is told.
    pub maybe_cache_info: Option<CacheInfo>,
    pub source: ModuleTextSource,
    pub maybe_types_dependency: Option<TypesDependency>,
    /// Where the source map stands, which is kept at hand alone.
    pub maybe_source_map_dependency: Option<TypesDependency>,
    pub media_type: MediaType,
    pub specifier: ModuleSpecifier,
    /// When the source was last changed, in milliseconds since 1970, where that is known.
    pub mtime: Option<u64>,
    /// What a fast check found, where there was one.
    pub fast_check: Option<FastCheckTypeModuleSlot>,
}

// So that its drop is one call at each way out of what owns it.
impl Drop for JsModule {
    fn drop(self) {
        let JsModule {
            is_script: _,
            dependencies: _,
            maybe_cache_info: _,
            source: _,
            maybe_types_dependency: _,
            maybe_source_map_dependency: _,
            media_type: _,
            specifier: _,
            mtime: _,
            fast_check: _,
        } = self;
    }
}

/// A JSON text (RFC 8259), taken as it is.
#[derive(Debug)]
pub struct JsonModule {
    pub specifier: ModuleSpecifier,
    /// What is known of the copy in a cache, where that is told.
    pub maybe_cache_info: Option<CacheInfo>,
    pub source: ModuleTextSource,
    /// When the source was last changed, in milliseconds since 1970, where that is known.
    pub mtime: Option<u64>,
    pub media_type: MediaType,
}

// So that its drop is one call at each way out of what owns it.
impl Drop for JsonModule {
    fn drop(self) {
        let JsonModule {
            specifier: _,
            maybe_cache_info: _,
            source: _,
            mtime: _,
            media_type: _,
        } = self;
    }
}

/// A WebAssembly module, with what the imports of its declaration make.
#[derive(Debug)]
pub struct WasmModule {
    pub specifier: ModuleSpecifier,
    /// When the source was last changed, in milliseconds since 1970, where that is known.
    pub mtime: Option<u64>,
    pub dependencies: TextMap<Dependency>,
    /// The module itself, in the binary format of the WebAssembly Core Specification.
    pub source: Bytes,
    /// What the module imports and exports, as a TypeScript declaration.
    pub source_dts: Text,
    /// What is known of the copy in a cache, where that is told.
    pub maybe_cache_info: Option<CacheInfo>,
}

// So that its drop is one call at each way out of what owns it.
impl Drop for WasmModule {
    fn drop(self) {
        let WasmModule {
            specifier: _,
            mtime: _,
            dependencies: _,
            source: _,
            source_dts: _,
            maybe_cache_info: _,
        } = self;
    }
}

/// A package of npm, or a path in one: nothing is known of it but what its specifier names.
#[derive(Debug)]
pub struct NpmModule {
    pub specifier: ModuleSpecifier,
    /// What the specifier names.
    pub pkg_req_ref: NpmPackageReqReference,
}

// So that its drop is one call at each way out of what owns it.
impl Drop for NpmModule {
    fn drop(self) {
        let NpmModule {
            specifier: _,
            pkg_req_ref: _,
        } = self;
    }
}

/// A module that is built into Node.js, by the specifier that names it.
#[derive(Debug)]
pub struct BuiltInNodeModule {
    pub specifier: ModuleSpecifier,
    /// What stands after `node:`.
    pub module_name: Text,
}

// So that its drop is one call at each way out of what owns it.
impl Drop for BuiltInNodeModule {
    fn drop(self) {
        let BuiltInNodeModule {
            specifier: _,
            module_name: _,
        } = self;
    }
}

/// A module that stands outside of the graph: nothing is known of it but its name.
#[derive(Debug)]
pub struct ExternalModule {
    pub specifier: ModuleSpecifier,
    /// What is known of the copy in a cache, where that is told.
    pub maybe_cache_info: Option<CacheInfo>,
    /// Whether it was loaded to be kept at hand alone.
    pub was_asset_load: bool,
}

// So that its drop is one call at each way out of what owns it.
impl Drop for ExternalModule {
    fn drop(self) {
        let ExternalModule {
            specifier: _,
            maybe_cache_info: _,
            was_asset_load: _,
        } = self;
    }
}

/// A module.
#[derive(Debug)]
pub enum Module {
    Js(JsModule),
    Json(JsonModule),
    Wasm(WasmModule),
    Npm(NpmModule),
    Node(BuiltInNodeModule),
    External(ExternalModule),
}

// So that its drop is one call at each way out of what owns it.
impl Drop for Module {
    fn drop(self) {
        match self {
            Module::Js(value) => drop(value),
            Module::Json(value) => drop(value),
            Module::Wasm(value) => drop(value),
            Module::Npm(value) => drop(value),
            Module::Node(value) => drop(value),
            Module::External(value) => drop(value),
        }
    }
}

/// What stands at a specifier: a module, an error, or nothing yet.
#[derive(Debug)]
pub enum ModuleSlot {
    Module(Module),
    Err(ModuleError),
    /// A load is under way.
    Pending {
        /// Whether the module is to be kept at hand alone.
        is_asset: bool,
    },
}

// By a call, so that a slot isn't taken apart at each way out of what owns one.
impl Drop for ModuleSlot {
    fn drop(self) {
        match self {
            ModuleSlot::Module(module) => drop(module),
            ModuleSlot::Err(error) => drop(error),
            ModuleSlot::Pending { is_asset: _ } => (),
        }
    }
}

impl JsModule {
    // Copies of what names it, and of what is known of its copy in a cache.
    fn copied_names(&self) -> Result<(ModuleSpecifier, Option<CacheInfo>), AllocError>
        ensures { IfOk result (λ names. names ≡ (self.now.specifier, self.now.maybe_cache_info)) }
    {
        let specifier = self.specifier.clone()?;
        let maybe_cache_info = self.maybe_cache_info.clone()?;
        Ok((specifier, maybe_cache_info))
    }

    /// A copy. The only refusal is want of memory.
    pub fn try_clone(&self) -> Result<JsModule, AllocError>
        ensures { IfOk result (λ copy. copy ≡ self.now) }
    {
        let (specifier, maybe_cache_info) = self.copied_names()?;
        let dependencies = self.dependencies.try_clone()?;
        let source = self.source.clone()?;
        let maybe_types_dependency = self.maybe_types_dependency.clone()?;
        let maybe_source_map_dependency = self.maybe_source_map_dependency.clone()?;
        let fast_check = self.fast_check.clone()?;
        Ok(JsModule {
            is_script: self.is_script,
            dependencies,
            maybe_cache_info,
            source,
            maybe_types_dependency,
            maybe_source_map_dependency,
            media_type: self.media_type,
            specifier,
            mtime: self.mtime,
            fast_check,
        })
    }

    /// The number of bytes of the text.
    pub fn size(&self) -> usize
        ensures { result ≡ length self.now.source.text }
    {
        self.source.text.as_str().len()
    }

    /// The module that a fast check found.
    pub fn fast_check_module(&self) -> Option<&FastCheckTypeModule>
        ensures { option_copied result ≡ fast_check_module self.now }
    {
        match &self.fast_check {
            Some(FastCheckTypeModuleSlot::Module(module)) => Some(module.get()),
            Some(FastCheckTypeModuleSlot::Error(_)) | None => None,
        }
    }

    /// Why a fast check found no module.
    pub fn fast_check_diagnostics(&self) -> Option<&Items<FastCheckDiagnostic>>
        ensures { option_copied result ≡ fast_check_diagnostics self.now }
    {
        match &self.fast_check {
            Some(FastCheckTypeModuleSlot::Error(diagnostics)) => Some(diagnostics),
            Some(FastCheckTypeModuleSlot::Module(_)) | None => None,
        }
    }

    /// The dependencies of the module that a fast check found, else the module's own.
    pub fn dependencies_prefer_fast_check(&self) -> &TextMap<Dependency>
        ensures { result.now ≡ dependencies_prefer_fast_check self.now }
    {
        match self.fast_check_module() {
            Some(module) => &module.dependencies,
            None => &self.dependencies,
        }
    }
}

impl JsonModule {
    /// A copy. The only refusal is want of memory.
    pub fn try_clone(&self) -> Result<JsonModule, AllocError>
        ensures { IfOk result (λ copy. copy ≡ self.now) }
    {
        let specifier = self.specifier.clone()?;
        let maybe_cache_info = self.maybe_cache_info.clone()?;
        let source = self.source.clone()?;
        Ok(JsonModule {
            specifier,
            maybe_cache_info,
            source,
            mtime: self.mtime,
            media_type: self.media_type,
        })
    }

    /// The number of bytes of the text.
    pub fn size(&self) -> usize
        ensures { result ≡ length self.now.source.text }
    {
        self.source.text.as_str().len()
    }
}

impl WasmModule {
    /// A copy. The only refusal is want of memory.
    pub fn try_clone(&self) -> Result<WasmModule, AllocError>
        ensures { IfOk result (λ copy. copy ≡ self.now) }
    {
        let specifier = self.specifier.clone()?;
        let dependencies = self.dependencies.try_clone()?;
        let source = self.source.try_clone()?;
        let source_dts = self.source_dts.try_clone()?;
        let maybe_cache_info = self.maybe_cache_info.clone()?;
        Ok(WasmModule {
            specifier,
            mtime: self.mtime,
            dependencies,
            source,
            source_dts,
            maybe_cache_info,
        })
    }

    /// The number of bytes of the module.
    pub fn size(&self) -> usize
        ensures { result ≡ length self.now.source }
    {
        self.source.as_slice().len()
    }
}

impl NpmModule {
    /// A copy. The only refusal is want of memory.
    pub fn try_clone(&self) -> Result<NpmModule, AllocError>
        ensures { IfOk result (λ copy. copy ≡ self.now) }
    {
        let specifier = self.specifier.clone()?;
        let pkg_req_ref = self.pkg_req_ref.try_clone()?;
        Ok(NpmModule {
            specifier,
            pkg_req_ref,
        })
    }
}

impl BuiltInNodeModule {
    /// A copy. The only refusal is want of memory.
    pub fn try_clone(&self) -> Result<BuiltInNodeModule, AllocError>
        ensures { IfOk result (λ copy. copy ≡ self.now) }
    {
        let specifier = self.specifier.clone()?;
        let module_name = self.module_name.try_clone()?;
        Ok(BuiltInNodeModule {
            specifier,
            module_name,
        })
    }
}

impl ExternalModule {
    /// A copy. The only refusal is want of memory.
    pub fn try_clone(&self) -> Result<ExternalModule, AllocError>
        ensures { IfOk result (λ copy. copy ≡ self.now) }
    {
        let specifier = self.specifier.clone()?;
        let maybe_cache_info = self.maybe_cache_info.clone()?;
        Ok(ExternalModule {
            specifier,
            maybe_cache_info,
            was_asset_load: self.was_asset_load,
        })
    }
}

impl Module {
    /// A copy. The only refusal is want of memory.
    pub fn try_clone(&self) -> Result<Module, AllocError>
        ensures { IfOk result (λ copy. copy ≡ self.now) }
    {
        match self {
            Module::Js(script) => {
                let copy = script.try_clone()?;
                Ok(Module::Js(copy))
            }
            Module::Json(json) => {
                let copy = json.try_clone()?;
                Ok(Module::Json(copy))
            }
            Module::Wasm(wasm) => {
                let copy = wasm.try_clone()?;
                Ok(Module::Wasm(copy))
            }
            Module::Npm(npm) => {
                let copy = npm.try_clone()?;
                Ok(Module::Npm(copy))
            }
            Module::Node(node) => {
                let copy = node.try_clone()?;
                Ok(Module::Node(copy))
            }
            Module::External(external) => {
                let copy = external.try_clone()?;
                Ok(Module::External(copy))
            }
        }
    }

    /// The specifier of the module.
    pub fn specifier(&self) -> &ModuleSpecifier
        ensures { result.now ≡ module_specifier self.now }
    {
        match self {
            Module::Js(script) => &script.specifier,
            Module::Json(json) => &json.specifier,
            Module::Wasm(wasm) => &wasm.specifier,
            Module::Npm(npm) => &npm.specifier,
            Module::Node(node) => &node.specifier,
            Module::External(external) => &external.specifier,
        }
    }

    /// What the content of the module is; JavaScript for a module of Node.js, and unknown for one of npm and
    /// outside of the graph.
    pub fn media_type(&self) -> MediaType
        ensures { result ≡ module_media self.now }
    {
        match self {
            Module::Js(script) => script.media_type,
            Module::Json(json) => json.media_type,
            Module::Wasm(_) => MediaType::Wasm,
            Module::Node(_) => MediaType::JavaScript,
            Module::Npm(_) | Module::External(_) => MediaType::Unknown,
        }
    }

    /// The text; None for a kind of module without one.
    pub fn source(&self) -> Option<&Text>
        ensures { option_copied result ≡ module_text self.now }
    {
        match self {
            Module::Js(script) => Some(&script.source.text),
            Module::Json(json) => Some(&json.source.text),
            Module::Wasm(_) | Module::Npm(_) | Module::Node(_) | Module::External(_) => None,
        }
    }

    /// The dependencies; None for a kind of module without them.
    pub fn dependencies(&self) -> Option<&TextMap<Dependency>>
        ensures { option_copied result ≡ module_dependencies self.now }
    {
        match self {
            Module::Js(script) => Some(&script.dependencies),
            Module::Wasm(wasm) => Some(&wasm.dependencies),
            Module::Json(_) | Module::Npm(_) | Module::Node(_) | Module::External(_) => None,
        }
    }

    /// The dependencies of what a fast check found, else the module's own; None for a kind of module without
    /// them.
    pub fn dependencies_prefer_fast_check(&self) -> Option<&TextMap<Dependency>>
        ensures { option_copied result ≡ module_dependencies_prefer_fast_check self.now }
    {
        match self {
            Module::Js(script) => Some(script.dependencies_prefer_fast_check()),
            Module::Wasm(wasm) => Some(&wasm.dependencies),
            Module::Json(_) | Module::Npm(_) | Module::Node(_) | Module::External(_) => None,
        }
    }

    /// Where the types stand, of a module that tells it.
    pub fn maybe_types_dependency(&self) -> Option<&TypesDependency>
        ensures { option_copied result ≡ module_types self.now }
    {
        match self {
            Module::Js(script) => script.maybe_types_dependency.as_ref(),
            Module::Json(_)
            | Module::Wasm(_)
            | Module::Npm(_)
            | Module::Node(_)
            | Module::External(_) => None,
        }
    }

    /// The script, where the module is one.
    pub fn js(&self) -> Option<&JsModule>
        ensures { option_copied result ≡ as_script self.now }
    {
        match self {
            Module::Js(script) => Some(script),
            Module::Json(_)
            | Module::Wasm(_)
            | Module::Npm(_)
            | Module::Node(_)
            | Module::External(_) => None,
        }
    }

    /// The JSON text, where the module is one.
    pub fn json(&self) -> Option<&JsonModule>
        ensures { option_copied result ≡ as_json self.now }
    {
        match self {
            Module::Json(json) => Some(json),
            Module::Js(_)
            | Module::Wasm(_)
            | Module::Npm(_)
            | Module::Node(_)
            | Module::External(_) => None,
        }
    }

    /// When the source was last changed, in milliseconds since 1970, where that is known.
    pub fn mtime(&self) -> Option<u64>
        ensures { result ≡ module_mtime self.now }
    {
        match self {
            Module::Js(script) => script.mtime,
            Module::Json(json) => json.mtime,
            Module::Wasm(wasm) => wasm.mtime,
            Module::Npm(_) | Module::Node(_) | Module::External(_) => None,
        }
    }

    /// The package of npm, where the module is one.
    pub fn npm(&self) -> Option<&NpmModule>
        ensures { option_copied result ≡ as_npm self.now }
    {
        match self {
            Module::Npm(npm) => Some(npm),
            Module::Js(_)
            | Module::Json(_)
            | Module::Wasm(_)
            | Module::Node(_)
            | Module::External(_) => None,
        }
    }

    /// The module of Node.js, where the module is one.
    pub fn node(&self) -> Option<&BuiltInNodeModule>
        ensures { option_copied result ≡ as_node self.now }
    {
        match self {
            Module::Node(node) => Some(node),
            Module::Js(_)
            | Module::Json(_)
            | Module::Wasm(_)
            | Module::Npm(_)
            | Module::External(_) => None,
        }
    }

    /// The module outside of the graph, where the module is one.
    pub fn external(&self) -> Option<&ExternalModule>
        ensures { option_copied result ≡ as_external self.now }
    {
        match self {
            Module::External(external) => Some(external),
            Module::Js(_) | Module::Json(_) | Module::Wasm(_) | Module::Npm(_) | Module::Node(_) =>
                None,
        }
    }
}

impl Clone for ModuleSlot {
    ghost is_clone = { λ source copy. copy ≡ source };

    fn clone(&self) -> Result<ModuleSlot, AllocError> {
        self.try_clone()
    }
}

impl ModuleSlot {
    /// A copy. The only refusal is want of memory.
    pub fn try_clone(&self) -> Result<ModuleSlot, AllocError>
        ensures { IfOk result (λ copy. copy ≡ self.now) }
    {
        match self {
            ModuleSlot::Module(module) => {
                let copy = module.try_clone()?;
                Ok(ModuleSlot::Module(copy))
            }
            ModuleSlot::Err(error) => {
                let copy = error.try_clone()?;
                Ok(ModuleSlot::Err(copy))
            }
            ModuleSlot::Pending { is_asset } => Ok(ModuleSlot::Pending {
                is_asset: *is_asset,
            }),
        }
    }

    /// Whether a load is under way.
    pub fn is_pending(&self) -> bool
        ensures { result ≡ is_pending self.now }
    {
        matches!(self, ModuleSlot::Pending { .. })
    }

    /// Whether it is a module outside of the graph that is kept at hand alone.
    pub fn was_external_asset_load(&self) -> bool
        ensures { result ≡ is_asset_slot self.now }
    {
        match self {
            ModuleSlot::Module(Module::External(external)) => external.was_asset_load,
            _ => false,
        }
    }

    /// Whether a load is under way of a module that is to be kept at hand alone.
    pub fn is_pending_asset_load(&self) -> bool
        ensures { result ≡ is_pending_asset self.now }
    {
        match self {
            ModuleSlot::Pending { is_asset } => *is_asset,
            ModuleSlot::Module(_) | ModuleSlot::Err(_) => false,
        }
    }
}
