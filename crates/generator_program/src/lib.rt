//! The command `gen` of the program `graph_info`: the graph of a generated world, counted.
//!
//! `generator_of` reads the command's words. `run_generator` builds the graph of the world that they name, over any sink, and
//! writes how many modules, redirects and edges it has, and the SHA-256 sum of the text that `build` would write of it. Nothing
//! is read.
#![tactic(auto)]

mod command;
mod counts;
mod generator_words;
mod lines;
mod report;

pub use command::run_generator;
pub use generator_words::{Generator, generator_of};
pub use report::generator_text;
