//! What a run of the program is made of beside its build: its words, the input and what its world tells, the locker, what is written and how
//! the run ends.
//!
//! `read_input` reads the input, `Tellers` and `locker_of` make of it what a build is given, and `write_by` writes what a command writes of
//! the graph. Nothing is built here, so that this crate is proved beside the one that builds.
#![tactic(auto)]

mod arguments;
mod locker;
mod phases;
mod status;
mod world_services;

pub use arguments::{is_alone, words};
pub use locker::locker_of;
pub use phases::{read_input, write_by, write_graph, write_text};
pub use status::Status;
pub use world_services::Tellers;
