//! What a command writes of a graph: its JSON with a verdict, or the lines of a walk.
//!
//! `command_of` tells the command that some words are, and `report_by` what it writes of a graph.
#![tactic(auto)]

mod command_words;
mod report;
mod walk_lines;

pub use command_words::{Command, command_of, kind_of};
pub use report::{GraphReport, graph_text, make_report, report_by, verdict};
pub use walk_lines::{push_entry, walk_text};
