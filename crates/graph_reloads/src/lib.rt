//! Parts of a graph are loaded anew: given specifiers, and the packages of npm in the place of its modules.
//!
//! Loads enter a graph that stands, which is built to its end as `build` does it, in one run. What is promised is what `build` promises
//! of a graph that isn't empty: nothing is left pending, and each slot stood before or is what the world's answers give a load leading to it.
#![tactic(auto)]

mod over;
mod packages;
mod reload;
mod reloads;

pub use reload::ReloadGraph;
