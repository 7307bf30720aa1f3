//! The program `graph_info` without its edge: from the words of a command and the bytes of a world file to the text of a
//! module graph.
//!
//! Data goes forward: the words are tested, the input is read whole from a source of bytes, `world_of` reads the world that
//! it is, a build over that world makes the graph, and its text goes to a sink. `run` does all of this over any source and
//! sink, and says by a `Status` how it ended.
#![tactic(auto)]

mod builds;
mod command;

pub use builds::{build_by, build_input};
pub use command::run;
