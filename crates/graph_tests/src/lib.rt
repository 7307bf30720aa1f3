//! Tests of sources, graphs and walks by their public calls: what only a caller's own loader, resolver or options show, and values that no
//! graph shows. What a whole run shows stands in `tests/`, and what needs a graph that was built in `build_tests`, which uses what is shown
//! here of dependencies and errors, and the worlds.
#![tactic(auto)]

mod build_worlds;
#[cfg(test)]
mod graph_few_texts;
#[cfg(test)]
mod graph_make_tests;
#[cfg(test)]
mod graph_member_tests;
#[cfg(test)]
mod graph_resolution_tests;
mod graph_shown;
#[cfg(test)]
mod source_answer_tests;
#[cfg(test)]
mod source_loader_tests;
#[cfg(test)]
mod source_resolver_tests;
#[cfg(test)]
mod source_worlds;
mod specifiers;
mod walk_caller;

pub use build_worlds::{loader_of, read};
pub use graph_shown::{dependencies_text, first_line, imports, put_dependency, target};
pub use specifiers::url;
pub use walk_caller::{has_error, reached};
