//! What is known of a module without running it: the types, and what tells them.
//!
//! What comes in are the texts of modules, or a table of what is known of them; what goes out are infos, which list
//! the imports of each module and what else it names. Nothing here knows of JSON: `json_forms` reads and writes infos.
#![tactic(auto)]

mod analyzer;
mod argument;
mod attributes;
mod references;
mod table;
mod types;

pub use analyzer::ModuleAnalyzer;
pub use argument::{DynamicArgument, DynamicTemplatePart};
pub use attributes::{ImportAttribute, ImportAttributes};
pub use references::{
    JsDocImportInfo, SpecifierWithRange, TypeScriptReference, TypeScriptTypesResolutionMode,
};
pub use table::TableAnalyzer;
pub use types::{
    DependencyDescriptor, DynamicDependencyDescriptor, DynamicDependencyKind, ModuleInfo,
    StaticDependencyDescriptor, StaticDependencyKind,
};
