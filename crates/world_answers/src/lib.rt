//! What a loader answers by a world file, in either of its versions.
//!
//! A JSON object comes in, and the answers of a world go out, by specifier and purpose. In version 1 they follow from sources by
//! their specifiers; in version 2 each stands as an entry of its own. For both versions they stand in one order, and each specifier
//! and purpose has one at most.
#![tactic(auto)]

// URLs of texts that are known.
mod known_specifiers;

// Version 1: sources, and what follows from them.
mod source_members;
mod world_modules;
mod world_sources;

// Version 2: entries.
mod answer_entries;
mod answer_order;
mod entry_modules;
mod world_answers;

pub use known_specifiers::known_url;
pub use world_answers::read_answers;
