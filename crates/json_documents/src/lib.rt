//! JSON texts (RFC 8259) read with no copies: a document lends its values, whose texts are those of the input.
//!
//! A value is seen as the same data as the `Value` of `serde_json` that is read from the same text, and a text is refused exactly where
//! that one refuses it. What is escaped in the input is kept in the scratch memory that the caller lends.
#![tactic(auto)]

mod document;
mod items;
mod members;
mod names;
mod numbers;
mod owned;
mod value;
mod whole;

pub use document::{Document, NoJson, Scratch};
pub use items::JsonItems;
pub use value::Json;
