//! Limits on the dates of versions: below which date a package's versions may be used, and what is said where no version is left.
//!
//! `PlainInstant` is an instant that contracts see as nanoseconds; `NewestDependencyDateOptions` says below which date a package's versions may
//! be used. Sets that go by a key's order, and the error of a requirement that no version meets, are given here too.
#![tactic(auto)]

mod newest_date;
mod not_found;
mod plain_instant;
mod sorted_set;

pub use newest_date::{NewestDependencyDate, NewestDependencyDateOptions, PrefixDate};
pub use not_found::JsrPackageReqNotFoundError;
pub use plain_instant::{PlainInstant, instant_of, timestamp_of};
pub use sorted_set::SortedSet;
