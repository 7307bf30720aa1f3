//! What a build reads in the files of a registry of packages.
//!
//! The answers of a loader about a package file or a version file come in, and what the file says goes out, or the error of a
//! `jsr:` import that comes of the answer. A version file says what each export leads to, what the version's modules import,
//! and the sums of its files.
#![tactic(auto)]

mod answers;
mod exports;
mod kept_version;
mod sums;
mod version_file;
mod version_reading;

pub use answers::{read_package_answer, read_version_answer};
pub use exports::join_export;
pub use kept_version::KeptVersion;
pub use version_file::VersionFile;
