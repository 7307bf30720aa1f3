//! What a build of a graph is given beside its roots and its loader, and what the objects in it tell.
#![tactic(auto)]

mod options;

pub use options::BuildOptions;
