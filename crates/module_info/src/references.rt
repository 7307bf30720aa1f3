// Texts of a module that name other ones: in its comments and its directives.
ghost use Rattle.std.specs.Prelude.{◌≡◌, IfOk};

use spec_base::{PositionRange, Text};
use std::alloc::AllocError;

/// A text that names a module, and where it stands.
#[derive(Clone, PartialEq, Eq, Debug, Drop)]
pub struct SpecifierWithRange {
    pub text: Text,
    pub range: PositionRange,
}

/// How types are to be resolved, where a module tells it.
#[derive(Clone, Copy, PartialEq, Eq, Debug)]
pub enum TypeScriptTypesResolutionMode {
    Import,
    Require,
}

/// A reference of TypeScript: `/// <reference path="..." />` or `/// <reference types="..." />`.
#[derive(Clone, PartialEq, Eq, Debug, Drop)]
pub enum TypeScriptReference {
    Path(SpecifierWithRange),
    Types {
        specifier: SpecifierWithRange,
        resolution_mode: Option<TypeScriptTypesResolutionMode>,
    },
}

/// An import of types in a comment of JSDoc.
#[derive(Clone, PartialEq, Eq, Debug, Drop)]
pub struct JsDocImportInfo {
    pub specifier: SpecifierWithRange,
    pub resolution_mode: Option<TypeScriptTypesResolutionMode>,
}

impl SpecifierWithRange {
    /// A copy. The only refusal is want of memory.
    pub fn try_clone(&self) -> Result<SpecifierWithRange, AllocError>
        ensures { IfOk result (λ s. s ≡ self.now) }
    {
        self.clone()
    }
}

impl TypeScriptReference {
    /// A copy. The only refusal is want of memory.
    pub fn try_clone(&self) -> Result<TypeScriptReference, AllocError>
        ensures { IfOk result (λ r. r ≡ self.now) }
    {
        self.clone()
    }
}

impl JsDocImportInfo {
    /// A copy. The only refusal is want of memory.
    pub fn try_clone(&self) -> Result<JsDocImportInfo, AllocError>
        ensures { IfOk result (λ j. j ≡ self.now) }
    {
        self.clone()
    }
}
