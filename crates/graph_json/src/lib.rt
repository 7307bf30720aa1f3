//! A graph as JSON.
//!
//! A graph comes in; its slots, packages, redirects, configured imports and roots go out as one value (`to_json`),
//! and as the text of that value (`json_text`), which is written token by token, with no value of the whole.
#![tactic(auto)]

mod json;
mod json_dependencies;

// The same as text.
mod text;
mod text_dependencies;

pub use json::to_json;
pub use text::json_text;
