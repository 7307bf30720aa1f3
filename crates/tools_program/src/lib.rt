//! The program `graph_tools` without its edge: a graph is built, and a tool says what it finds of it.
//!
//! The words name the tool, the input is read, what stands beside its world is told from it, the world's graph is built, the
//! tool makes a report of the graph, and the report's bytes go to a sink. `run_tool` does all of this over any source and
//! sink, and says by a `ToolStatus` how it ended.
//!
//! A tool is a variant of `ToolCommand`, with its words in `tool_of`; a variant of `ToolTask`, with what stands beside its
//! world, which `task_of` reads; a function that builds the graph and makes the report, which `report_by` calls; and a
//! definition of its report, which `IsReportOf` names.
#![tactic(auto)]

mod tool_command;
mod tool_status;

// What an input is for a tool.
mod jobs;
mod lines;
mod map_line;
mod reading;
mod task;

// The tools.
mod building;
mod graphs;
mod lock;
mod policy;
mod stores;
mod tool_report;
mod verdict;

// The phases of a run.
mod phases;
mod run;

pub use run::run_tool;
pub use tool_command::{ToolCommand, tool_of};
pub use tool_status::ToolStatus;
