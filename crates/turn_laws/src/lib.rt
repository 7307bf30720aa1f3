//! What holds of every build by turns: what its graph reaches and leaves out, what explains each slot, and how many questions it puts.
//!
//! There are no functions here: these are definitions that the contracts of builds speak of, and theorems on turns.
#![tactic(auto)]
