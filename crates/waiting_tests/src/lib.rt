//! Tests of builds whose loader waits, and of builds whose answers are kept and given again, by their public calls.
#![tactic(auto)]

#[cfg(test)]
mod endless;
#[cfg(test)]
mod endless_tests;
#[cfg(test)]
mod meeting;
#[cfg(test)]
mod meeting_tests;
#[cfg(test)]
mod replayed_tests;
