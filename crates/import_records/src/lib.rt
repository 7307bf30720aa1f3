//! What the imports of a module make.
//!
//! The info of a module comes in, with a resolver of texts: its imports are listed as records (`records`),
//! the records of each text grow into a `Dependency` (`dependencies`), and what a graph of a kind holds of
//! the dependencies goes out (`kept_dependencies`), beside where the types of the module stand
//! (`types_dependency`) and where its source map does (`source_map_dependency`). `graph_import` makes the same of
//! imports that are configured, and `with_new_resolver` resolves what was made once more.
#![tactic(auto)]

mod comments;
mod configured;
mod descriptors;
mod grown_dependency;
mod import_record;
mod importer;
mod jsx;
mod kind_cut;
mod module_dependencies;
mod records;
mod resolved_again;
mod source_map;
mod target;
mod types_dependency;

pub use configured::graph_import;
pub use import_record::{ImportRecord, TypesText};
pub use importer::Importer;
pub use resolved_again::{types_with_new_resolver, with_new_resolver};
pub use target::Targets;
