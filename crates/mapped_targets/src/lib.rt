//! That the modules of a world with a map are made as the map says.
//!
//! Nothing here runs: the function is a theorem, which its clause says.
#![tactic(auto)]

mod laws;

pub use laws::mapped_slots_are_by_map;
