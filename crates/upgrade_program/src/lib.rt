//! World files in version 2, from a source of bytes to a sink.
//!
//! The bytes of a world file are read whole, `upgraded` of `world_upgrade` makes the text of the same world in version 2, and
//! that is written. `upgrade` does all of this over any source and sink.
#![tactic(auto)]

mod upgrade_fault;
mod upgrading;

pub use upgrade_fault::UpgradeFault;
pub use upgrading::upgrade;
