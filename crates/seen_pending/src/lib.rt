//! Items that are handed out once each, in the order in which they were first added.
#![tactic(auto)]

mod seen_pending;

pub use seen_pending::{SeenPendingCollection, each_once};
