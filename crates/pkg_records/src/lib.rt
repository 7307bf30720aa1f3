//! What a graph keeps of the packages that it uses.
//!
//! `PackageSpecifiers` holds the versions that requirements led to, what their modules export and what they depend on. Maps that go by a
//! key's order are given here too.
#![tactic(auto)]

mod package_records;
mod package_specifiers;
mod packages_with_deps;
mod sorted_map;
mod version_lists;

pub use package_specifiers::PackageSpecifiers;
pub use packages_with_deps::{PackagesWithDeps, UsedYanked};
pub use sorted_map::SortedMap;
