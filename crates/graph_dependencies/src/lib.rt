//! The dependencies of modules: what each text that a module imports leads to, and which part of its modules a graph holds.
//!
//! `Dependency` has the code and the types of a text, and its imports; `TypesDependency` says where the types of a module stand, and
//! `GraphImport` what configured imports make. They are made by `import_records`.
#![tactic(auto)]

mod assets;
mod dependency;
mod graph_import;
mod graph_kind;
mod referrer_imports;

pub use dependency::{Dependency, Import, ImportKind, TypesDependency};
pub use graph_import::GraphImport;
pub use graph_kind::GraphKind;
pub use referrer_imports::ReferrerImports;
