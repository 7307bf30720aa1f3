//! The program `graph_calls` without its edge: a world file's graph is built, one call is made on it, and what the call
//! writes of the graph that it leaves is written.
//!
//! The words name the call, the input is read and built as by the program `graph_info`, the call goes over the graph, one
//! that loads over the same world by a loader of its own, and the lines of a walk, its errors or the graph's text go to a sink.
//! Before packages take the place of the modules of npm the graph is built without the world's resolutions.
#![tactic(auto)]

mod call;
mod command;

// The phases of a run.
mod entry_lines;
mod error_lines;
mod phases;
mod report;

pub use call::{Call, EntriesCall, ErrorsCall, PackagesCall, call_of};
pub use command::run_call;
