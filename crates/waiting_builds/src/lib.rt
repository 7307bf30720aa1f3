//! Builds of graphs over a loader whose answers are waited for, and through a pool of workers.
//!
//! `build` of `graph_builder` takes a loader that answers at once. Here a loader that waits is given to it with the runtime by
//! which it waits, so that what a build makes is one thing, whoever answers: each clause is that of `build`.
#![tactic(auto)]

mod pooled;
mod waiting;

pub use pooled::{WINDOW, build_pooled};
pub use waiting::build_waiting;
