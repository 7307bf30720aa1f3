//! The turns of a build: what each answer to a load changes of a graph and of what is still to be loaded.
//!
//! A state of a build and what the answer to its first open load gives come in; the next state goes out. No order of
//! arrival, no tickets and no loader stand here: a build by turns is what a build means, and what the graph promise is
//! proved of.
#![tactic(auto)]

mod choosing;
mod contents;
mod dependencies;
mod edges;
mod errors;
mod exports;
mod files;
mod flags;
mod forbidden;
mod imports;
mod later_content;
mod maker;
mod manner;
mod next;
mod outcome;
mod passes;
mod phases;
mod probing;
mod question_of;
mod redirects;
mod registry;
mod run;
mod starting;
mod state;
mod storing;
mod sums;
mod unresolved_input;
mod waiting;

pub use choosing::Verdict;
pub use dependencies::Note;
pub use exports::Export;
pub use files::{loaded, metadata_question, package_question, probe_question, version_question};
pub use flags::Flags;
pub use graph_core::ReferrerImports;
pub use later_content::LaterContent;
pub use maker::Maker;
pub use manner::{Manner, VersionFiles, manner_of};
pub use next::Next;
pub use outcome::{Outcome, failure_outcome, outcome_of};
pub use passes::{Chosen, Pass};
pub use question_of::Asked;
pub use registry::{PackageFiles, ProbedVersions, Registry, RegistryFile};
pub use run::{Earlier, Run};
pub use starting::ResolvedStart;
pub use state::State;
pub use sums::{KnownSums, tell_all, tell_earlier, tell_manifests};
pub use unresolved_input::LeftOver;
pub use waiting::WaitingPackage;
