//! The sums of sources: SHA-256 in lower-case hex, what is known of a source by its sum, and lockers, which
//! keep the sums of sources from the network and those of the manifests of packages.
//!
//! What comes in are bytes, sums, specifiers and versions of packages; what goes out are sums and verdicts, each equal
//! to its definition in `specs/`.
#![tactic(auto)]

mod loader_checksum;
mod locker;

// A locker in memory.
mod hash_map_locker;
mod manifest_sums;
mod remote_sums;

pub use hash_map_locker::HashMapLocker;
pub use loader_checksum::LoaderChecksum;
pub use locker::Locker;
pub use spec_base::ChecksumIntegrityError;
