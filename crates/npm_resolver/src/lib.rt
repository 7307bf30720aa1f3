//! What resolves the requirements of npm packages.
//!
//! What comes in are the requirements that a graph's `npm:` specifiers name; what goes out is one result for each of them, in their order,
//! and the result of the graph of all packages. A resolver may tell the table that it answers by; `TableNpmResolver` is
//! one that answers by a table in memory.
#![tactic(auto)]

mod resolver;
mod table_resolver;
mod types;

pub use resolver::NpmResolver;
pub use table_resolver::TableNpmResolver;
pub use types::{NpmResolvePkgReqsResult, NpmTable};
