//! Walks over the graphs of modules: what is reached, in which order, and the errors on the way.
//!
//! Roots and options come in. `walk` gives an entry at each specifier that they lead to; it takes all its
//! memory when it is made, and its closure and its order are in its contract. `errors` gives the errors of
//! the entries, `validate` the first of them, and `valid` that of a walk over a graph's own roots. What a graph
//! knows without a walk is told by `specifiers`, `modules` and `module_errors`, where its assets stand by `asset_module_urls`,
//! where the text of an import leads by `resolve_dependency`, and its JSON by `to_json`. `segment` makes a graph of a part of
//! one, and `prune_types` takes the types out of it.
#![tactic(auto)]

mod asset_urls;
mod crossing;
mod edges;
mod entries;
mod errors;
mod laws;
mod lookup;
mod members;
mod options;
mod prune;
mod room;
mod seen_and_waiting;
mod segment;
mod specifiers;
mod walk;
mod walk_graph;

pub use errors::ModuleGraphErrorIterator;
pub use graph_json::json_text;
pub use laws::{
    collecting_again_changes_nothing, pruning_leaves_the_code_walk, pruning_twice_is_once,
};
pub use members::{ModuleErrors, Modules};
pub use options::{AllCheckJs, CheckJsOption, CheckJsResolver, WalkOptions};
pub use specifiers::Specifiers;
pub use walk::{ModuleEntryIterator, ModuleEntryRef};
pub use walk_graph::WalkGraph;
