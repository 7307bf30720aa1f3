// What the imports of one text make of it, and where the types of a module stand.
ghost use Rattle.std.specs.Prelude.{◌≡◌, IfOk, option_copied};
ghost use Rattle.graph_errors.specs.Resolutions.{specifier_in};
ghost use Rattle.graph_dependencies.specs.Included.{import_including, dependency_including};
ghost use Rattle.graph_dependencies.specs.Kinds.{is_runtime, is_source_phase};

use graph_errors::Resolution;
use module_info::ImportAttributes;
use spec_base::{Items, ModuleSpecifier, Position, Range, Text};
use std::alloc::AllocError;

/// How a module is imported.
#[derive(Clone, Copy, PartialEq, Eq, Debug)]
pub enum ImportKind {
    /// By an import, an export or a call of `import` (ECMA-262).
    Es,
    /// By an import in the source phase (ECMA-262, source phase imports).
    EsSource,
    /// By a call of `require`.
    Require,
    /// For its types alone, as by `import type`.
    TsType,
    /// By a declaration that may add to the module's types.
    TsModuleAugmentation,
    /// By a comment `/// <reference path="..." />`.
    TsReferencePath,
    /// By a comment `/// <reference types="..." />`.
    TsReferenceTypes,
    /// By the JSX syntax of the module, whose elements the imported module makes.
    JsxImportSource,
    /// By a type in a JSDoc comment.
    JsDoc,
}

impl ImportKind {
    /// Whether the code of the module is imported, and not its types alone.
    pub fn is_runtime(&self) -> bool
        ensures { result ≡ is_runtime self.now }
    {
        matches!(
            self,
            ImportKind::Es
                | ImportKind::EsSource
                | ImportKind::Require
                | ImportKind::JsxImportSource
        )
    }

    /// Whether the module is imported in the source phase.
    pub fn is_source_phase(&self) -> bool
        ensures { result ≡ is_source_phase self.now }
    {
        matches!(self, ImportKind::EsSource)
    }
}

/// One import of a module.
#[derive(Debug, PartialEq, Eq)]
pub struct Import {
    pub specifier: Text,
    pub kind: ImportKind,
    pub specifier_range: Range,
    /// Whether a call imports the module, when the call is run.
    pub is_dynamic: bool,
    /// Whether no name is imported.
    pub is_side_effect: bool,
    pub attributes: ImportAttributes,
}

// So that its drop is one call at each way out of what owns it.
impl Drop for Import {
    fn drop(self) {
        let Import {
            specifier: _,
            kind: _,
            specifier_range: _,
            is_dynamic: _,
            is_side_effect: _,
            attributes: _,
        } = self;
    }
}

/// What the imports of one text make: where their code and their types lead, and all of them in order.
#[derive(Debug, PartialEq, Eq)]
pub struct Dependency {
    pub maybe_code: Resolution,
    pub maybe_type: Resolution,
    /// The text that names the types, where that is another one than the text of the imports.
    pub maybe_deno_types_specifier: Option<Text>,
    /// Whether code is imported, and by calls alone.
    pub is_dynamic: bool,
    /// The value of the attribute `type`, where one is known.
    pub maybe_attribute_type: Option<Text>,
    pub imports: Items<Import>,
}

// So that its drop is one call at each way out of what owns it.
impl Drop for Dependency {
    fn drop(self) {
        let Dependency {
            maybe_code: _,
            maybe_type: _,
            maybe_deno_types_specifier: _,
            is_dynamic: _,
            maybe_attribute_type: _,
            imports: _,
        } = self;
    }
}

/// Where the types of a module stand, and the text that names it.
#[derive(Debug, PartialEq, Eq)]
pub struct TypesDependency {
    pub specifier: Text,
    pub dependency: Resolution,
}

// So that its drop is one call at each way out of what owns it.
impl Drop for TypesDependency {
    fn drop(self) {
        let TypesDependency {
            specifier: _,
            dependency: _,
        } = self;
    }
}

// The first range of imports that includes a place.
fn import_including(imports: &[Import], position: Position) -> Option<&Range>
    ensures { option_copied result ≡ import_including imports.now position }
{
    let mut left = imports;
    while let [import, rest @ ..] = left {
        if import.specifier_range.includes(position) {
            return Some(&import.specifier_range);
        }
        left = rest;
    }
    None
}

impl Import {
    /// A copy.
    pub fn try_clone(&self) -> Result<Import, AllocError>
        ensures { IfOk result (λ i. i ≡ self.now) }
    {
        let specifier = self.specifier.try_clone()?;
        let specifier_range = self.specifier_range.try_clone()?;
        let attributes = self.attributes.try_clone()?;
        Ok(Import {
            specifier,
            kind: self.kind,
            specifier_range,
            is_dynamic: self.is_dynamic,
            is_side_effect: self.is_side_effect,
            attributes,
        })
    }
}

impl Clone for Import {
    ghost is_clone = { λ i copy. copy ≡ i };

    fn clone(&self) -> Result<Import, AllocError> {
        self.try_clone()
    }
}

impl Dependency {
    /// The target of the code.
    pub fn get_code(&self) -> Option<&ModuleSpecifier>
        ensures { option_copied result ≡ specifier_in self.now.maybe_code }
    {
        self.maybe_code.maybe_specifier()
    }

    /// The target of the types.
    pub fn get_type(&self) -> Option<&ModuleSpecifier>
        ensures { option_copied result ≡ specifier_in self.now.maybe_type }
    {
        self.maybe_type.maybe_specifier()
    }

    /// The range of the first import whose range the place is within, else that of the types, where the
    /// place is within it.
    pub fn includes(&self, position: Position) -> Option<&Range>
        ensures { option_copied result ≡ dependency_including self.now position }
    {
        match import_including(self.imports.as_slice(), position) {
            Some(range) => Some(range),
            None => self.maybe_type.includes(position),
        }
    }

    /// A copy.
    pub fn try_clone(&self) -> Result<Dependency, AllocError>
        ensures { IfOk result (λ d. d ≡ self.now) }
    {
        let maybe_code = self.maybe_code.try_clone()?;
        let maybe_type = self.maybe_type.try_clone()?;
        let maybe_deno_types_specifier = self.maybe_deno_types_specifier.clone()?;
        let maybe_attribute_type = self.maybe_attribute_type.clone()?;
        let imports = self.imports.try_clone()?;
        Ok(Dependency {
            maybe_code,
            maybe_type,
            maybe_deno_types_specifier,
            is_dynamic: self.is_dynamic,
            maybe_attribute_type,
            imports,
        })
    }
}

impl Clone for Dependency {
    ghost is_clone = { λ source copy. copy ≡ source };

    fn clone(&self) -> Result<Dependency, AllocError> {
        self.try_clone()
    }
}

impl TypesDependency {
    /// A copy.
    pub fn try_clone(&self) -> Result<TypesDependency, AllocError>
        ensures { IfOk result (λ t. t ≡ self.now) }
    {
        let specifier = self.specifier.try_clone()?;
        let dependency = self.dependency.try_clone()?;
        Ok(TypesDependency {
            specifier,
            dependency,
        })
    }
}

impl Clone for TypesDependency {
    ghost is_clone = { λ source copy. copy ≡ source };

    fn clone(&self) -> Result<TypesDependency, AllocError> {
        self.try_clone()
    }
}
