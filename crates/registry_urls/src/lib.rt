//! The URLs of a package registry: of its files, of versions of packages, and of what lies in them.
//!
//! The URL of a registry comes in with names and versions of packages; URLs go out, each read from its text by
//! the URL Standard, and back from URLs the versions that they name.
#![tactic(auto)]

mod in_package;
mod laws;
mod names;
mod package_urls;
mod prefix;
mod provider;
mod registry;

pub use in_package::{is_in_package, sub_path_in_package};
pub use laws::{folder_texts_have_urls, package_urls_name_their_versions, plain_paths_stay};
pub use names::recommended_registry_package_url_to_nv;
pub use package_urls::{
    recommended_registry_package_url, registry_package_file_url, registry_version_file_url,
};
pub use provider::{DefaultJsrUrlProvider, JsrUrlProvider, default_jsr_url};
pub use registry::is_web_url;
