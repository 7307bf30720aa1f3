//! A loader over sources in memory.
//!
//! What comes in are sources under the texts of their specifiers; what goes out is a loader that answers by
//! the world of these sources, which it tells. A later source of a specifier stands in the place of an earlier
//! one, and a text that has no URL is refused.
#![tactic(auto)]

mod answers;
mod invalid_specifier;
mod memory_loader;
mod registry_files;
mod source;
mod source_answer;

pub use invalid_specifier::InvalidSpecifier;
pub use memory_loader::MemoryLoader;
pub use source::{MemoryLoaderSources, Source};
