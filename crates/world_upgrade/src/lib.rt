//! World files in version 2.
//!
//! The bytes of a world file come in, and the text of the same object in version 2 goes out: with the answers that it tells as
//! entries, and every other member as it stands. The text is a world file with the same meaning, and its own text in version 2.
#![tactic(auto)]

mod entries;
mod entry_json;
mod upgrade;

pub use upgrade::upgraded;
