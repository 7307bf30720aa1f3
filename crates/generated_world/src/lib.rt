//! Worlds that a generator makes from a number and a count of modules, without reading anything.
//!
//! `generated` makes the input of a build: modules `file:///m/0.js`, `file:///m/1.js` and so on, of which each imports the next
//! one and up to three others that a linear congruential generator draws. Every seventh is redirected to.
#![tactic(auto)]

mod draws;
mod generation;
mod input;
mod module_urls;

pub use input::generated;
