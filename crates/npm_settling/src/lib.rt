//! What becomes of `npm:` specifiers that wait for the end of a build.
//!
//! A graph comes in with the specifiers that wait, and an npm resolver; in the graph that goes out each of them has a slot: its module of npm,
//! or the error of its requirement. No state of a build stands here, so that this crate is proved beside the one that takes its turns.
#![tactic(auto)]

mod settling;

pub use settling::settle_npm;
