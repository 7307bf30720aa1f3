//! What registry files say of packages and versions, and the version that a requirement picks.
//!
//! The bytes of registry files come in, and records of them go out, and JSON again. Over such a record a
//! resolver picks the version of a requirement: the greatest of the first class that has a match.
#![tactic(auto)]

mod choice;
mod exports;
mod package_file;
mod package_info;
mod registry_file;
mod resolver;
mod timestamp;
mod version_info;

pub use choice::{
    ResolveVersionOptions, ResolveVersionResult, prerelease_fallback_applies, resolve_version,
    version_matches,
};
pub use exports::Exports;
pub use package_info::{JsrPackageInfo, JsrPackageInfoVersion};
pub use resolver::{
    JsrPackageVersionResolver, JsrVersionResolver, JsrVersionResolverResolvedVersion,
};
pub use timestamp::PlainTimestamp;
pub use version_info::{JsrPackageVersionInfo, JsrPackageVersionManifestEntry};
