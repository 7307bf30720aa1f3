//! A loader that asks a fetcher in several threads.
//!
//! `Pool` keeps the open questions with their owner, puts up to a window of them into a bounded queue of jobs, and takes what
//! the workers say of them out of a bounded queue of replies. Each queue is under a rule: all its passes know the world that
//! the fetcher tells, and each queued reply that has an answer has that world's answer to the question that it carries. So
//! each answer that `next` gives is the fetcher's to the question under that ticket, whatever the threads do. Where no worker
//! can be had, the owner fetches by itself.
#![tactic(auto)]

mod line;
mod pool;
mod queues;
mod same_question;
mod staff;
mod urls;
mod worker;

pub use line::place_for;
pub use pool::Pool;
