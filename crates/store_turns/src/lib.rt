//! Builds whose answers are kept in a store, and builds by a store.
//!
//! What comes in is what a build is given, with a loader or with the bytes of a store; the graph goes out, and from a loader the
//! store of what it answered. The promise: a build by the store that a build left gives that one's graph, and puts as many
//! questions. `record` keeps the answers, `replay` builds by them, and `replayed` is the promise as one call.
#![tactic(auto)]

mod driven;
mod input;
mod recording;
mod replaying;
mod twice;

pub use input::BuildInput;
pub use recording::{Recorded, record};
pub use replaying::{StoredBuild, replay};
pub use twice::{ReplayFault, TwoBuilds, replayed};
