//! Tests of the crates below the graph by their public calls, where a value of the caller's own types, a copy or an order of calls
//! matters. What a call makes of a text stands in `tests/`.
//!
//! They stand in a crate of their own, so that they are proved over the contracts below alone.
#![tactic(auto)]

// Collections and JSON of the caller's own types.
#[cfg(test)]
mod document_tests;
#[cfg(test)]
mod json_tests;
#[cfg(test)]
mod list_tests;
#[cfg(test)]
mod place_tests;

// Bytes in and out.
#[cfg(test)]
mod io_tests;

// What answers for an analyzer, and what is known of sources.
#[cfg(test)]
mod sum_tests;
#[cfg(test)]
mod table_tests;

// Packages: copies, providers of URLs, resolvers of npm, and what a registry's files say.
#[cfg(test)]
mod npm_tests;
#[cfg(test)]
mod package_tests;
#[cfg(test)]
mod registry_tests;
#[cfg(test)]
mod rows;
#[cfg(test)]
mod url_tests;

// Loaders over sources in memory.
#[cfg(test)]
mod loader_tests;
