// What is known of a module without running it, as an analyzer tells it.
ghost use Rattle.std.specs.Prelude.{◌≡◌, IfOk};
ghost use Rattle.module_info.specs.Infos.{empty_info};

use crate::argument::DynamicArgument;
use crate::attributes::ImportAttributes;
use crate::references::{JsDocImportInfo, SpecifierWithRange, TypeScriptReference};
use spec_base::{Items, PositionRange, Text};
use std::alloc::{AllocError, Global};

/// What is known of a module without running it.
#[derive(PartialEq, Eq, Debug)]
pub struct ModuleInfo {
    /// Whether it is a script, and no module of ECMA-262.
    pub is_script: bool,
    /// In the order in which they stand in the module.
    pub dependencies: Items<DependencyDescriptor>,
    pub ts_references: Items<TypeScriptReference>,
    /// The text of its `@ts-self-types` directive.
    pub self_types_specifier: Option<SpecifierWithRange>,
    /// The text of its `@jsxImportSource` directive.
    pub jsx_import_source: Option<SpecifierWithRange>,
    /// The text of its `@jsxImportSourceTypes` directive.
    pub jsx_import_source_types: Option<SpecifierWithRange>,
    /// The text of its `sourceMappingURL` comment.
    pub source_map_url: Option<SpecifierWithRange>,
    pub jsdoc_imports: Items<JsDocImportInfo>,
}

// So that its drop is one call at each way out of what owns it.
impl Drop for ModuleInfo {
    fn drop(self) {
        let ModuleInfo {
            is_script: _,
            dependencies: _,
            ts_references: _,
            self_types_specifier: _,
            jsx_import_source: _,
            jsx_import_source_types: _,
            source_map_url: _,
            jsdoc_imports: _,
        } = self;
    }
}

/// One import of a module.
#[derive(Clone, PartialEq, Eq, Debug, Drop)]
pub enum DependencyDescriptor {
    Static(StaticDependencyDescriptor),
    Dynamic(DynamicDependencyDescriptor),
}

/// An import by a declaration.
#[derive(Clone, PartialEq, Eq, Debug)]
pub struct StaticDependencyDescriptor {
    pub kind: StaticDependencyKind,
    /// The text of its `@ts-types` directive.
    pub types_specifier: Option<SpecifierWithRange>,
    /// The text that names the imported module.
    pub specifier: Text,
    /// Where that text stands in the module, with its quotes.
    pub specifier_range: PositionRange,
    pub import_attributes: ImportAttributes,
    /// Whether it imports no name.
    pub is_side_effect: bool,
}

// So that its drop is one call at each way out of what owns it.
impl Drop for StaticDependencyDescriptor {
    fn drop(self) {
        let StaticDependencyDescriptor {
            kind: _,
            types_specifier: _,
            specifier: _,
            specifier_range: _,
            import_attributes: _,
            is_side_effect: _,
        } = self;
    }
}

/// The declaration that imports.
#[derive(Clone, Copy, PartialEq, Eq, Debug)]
pub enum StaticDependencyKind {
    Import,
    ImportDefer,
    ImportSource,
    ImportType,
    ImportEquals,
    Export,
    ExportType,
    ExportEquals,
    MaybeTsModuleAugmentation,
}

/// An import by a call.
#[derive(Clone, PartialEq, Eq, Debug)]
pub struct DynamicDependencyDescriptor {
    pub kind: DynamicDependencyKind,
    /// The text of its `@ts-types` directive.
    pub types_specifier: Option<SpecifierWithRange>,
    pub argument: DynamicArgument,
    /// Where the argument stands in the module.
    pub argument_range: PositionRange,
    pub import_attributes: ImportAttributes,
}

// So that its drop is one call at each way out of what owns it.
impl Drop for DynamicDependencyDescriptor {
    fn drop(self) {
        let DynamicDependencyDescriptor {
            kind: _,
            types_specifier: _,
            argument: _,
            argument_range: _,
            import_attributes: _,
        } = self;
    }
}

/// The call that imports.
#[derive(Clone, Copy, PartialEq, Eq, Debug)]
pub enum DynamicDependencyKind {
    Import,
    ImportDefer,
    ImportSource,
    Require,
}

impl ModuleInfo {
    /// The info of a module of which nothing is known.
    pub fn empty(alloc: Global) -> ModuleInfo
        ensures { result ≡ empty_info }
    {
        ModuleInfo {
            is_script: false,
            dependencies: Items::new(alloc),
            ts_references: Items::new(alloc),
            self_types_specifier: None,
            jsx_import_source: None,
            jsx_import_source_types: None,
            source_map_url: None,
            jsdoc_imports: Items::new(alloc),
        }
    }

    /// A copy. The only refusal is want of memory.
    pub fn try_clone(&self) -> Result<ModuleInfo, AllocError>
        ensures { IfOk result (λ i. i ≡ self.now) }
    {
        let dependencies = self.dependencies.try_clone()?;
        let ts_references = self.ts_references.try_clone()?;
        let self_types_specifier = self.self_types_specifier.clone()?;
        let jsx_import_source = self.jsx_import_source.clone()?;
        let jsx_import_source_types = self.jsx_import_source_types.clone()?;
        let source_map_url = self.source_map_url.clone()?;
        let jsdoc_imports = self.jsdoc_imports.try_clone()?;
        Ok(ModuleInfo {
            is_script: self.is_script,
            dependencies,
            ts_references,
            self_types_specifier,
            jsx_import_source,
            jsx_import_source_types,
            source_map_url,
            jsdoc_imports,
        })
    }
}

impl Clone for ModuleInfo {
    ghost is_clone = { λ i copy. copy ≡ i };

    fn clone(&self) -> Result<ModuleInfo, AllocError> {
        self.try_clone()
    }
}

impl DependencyDescriptor {
    /// A copy. The only refusal is want of memory.
    pub fn try_clone(&self) -> Result<DependencyDescriptor, AllocError>
        ensures { IfOk result (λ d. d ≡ self.now) }
    {
        self.clone()
    }
}

impl StaticDependencyDescriptor {
    /// A copy. The only refusal is want of memory.
    pub fn try_clone(&self) -> Result<StaticDependencyDescriptor, AllocError>
        ensures { IfOk result (λ d. d ≡ self.now) }
    {
        self.clone()
    }
}

impl DynamicDependencyDescriptor {
    /// A copy. The only refusal is want of memory.
    pub fn try_clone(&self) -> Result<DynamicDependencyDescriptor, AllocError>
        ensures { IfOk result (λ d. d ≡ self.now) }
    {
        self.clone()
    }
}
