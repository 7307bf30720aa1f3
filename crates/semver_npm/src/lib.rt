//! Versions of packages, requirements on them, and references to packages.
//!
//! Texts and URLs come in; versions (SemVer 2.0), requirements (npm's range grammar) and references go
//! out, each read exactly by its grammar in `specs/`. A requirement says which versions match it.
#![tactic(auto)]

mod laws;
mod npm_error;
mod package;
mod range;
mod reader;
mod reference;
mod requirement;
mod simple;
mod version;
mod word;

pub use laws::{
    caret_keeps_the_major_number, hyphen_range_has_both_its_ends, reads_partials,
    reads_the_grammar, tilde_keeps_the_minor_number, x_range_keeps_the_given_numbers,
};
pub use npm_error::{NpmLoadError, PackageReqReferenceParseError};
pub use package::{
    JsrDepPackageReq, PackageKind, PackageName, PackageNv, PackageReq, order_dependencies,
    order_requirements, order_versions,
};
pub use range::Range;
pub use reference::{
    JsrPackageNvReference, JsrPackageReqReference, NpmPackageReqReference, PackageNvReference,
    PackageReqReference,
};
pub use requirement::{VersionReq, VersionReqFault};
pub use semver::Version;
pub use simple::{Operator, Partial, Simple};
pub use version::{PlainVersion, VersionFault, parse_standard};
