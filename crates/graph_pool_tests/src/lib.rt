//! Tests of `graph_pool` by its public calls: workers that answer, and what stands where there are none.
//!
//! They stand in a crate of their own, so that the crate below is proved once.
#![tactic(auto)]

#[cfg(test)]
mod echo;
#[cfg(test)]
mod pool_tests;
#[cfg(test)]
mod uncopied;
