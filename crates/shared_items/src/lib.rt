//! Lists that several owners share: a copy of one costs no more than a count.
#![tactic(auto)]

mod shared_items;

pub use shared_items::SharedItems;
