//! The open loads of a build, whatever order their answers arrive in.
//!
//! The questions of the loads go out under tickets, as soon as a load enters; answers come in by ticket, and each waits until the turn
//! that asked for it stands. So the turns of a build are taken in the order of asking, and the graph is that of the turns.
#![tactic(auto)]

mod early_answers;
mod fault;
mod npm_end;
mod open_loads;
mod questions;
mod stored;
mod telling;
mod turn_answers;
mod turn_stage;
mod wanted;

pub use fault::BuildFault;
pub use open_loads::OpenLoads;
