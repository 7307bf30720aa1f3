//! What loaders answered about the files of a registry, kept from one build to the next.
//!
//! Names and versions of packages come in with the answers about their files, and each goes out as it first
//! came: an answer that stands is never replaced.
#![tactic(auto)]

mod name_answers;
mod store;
mod version_answers;

pub use name_answers::NameAnswers;
pub use store::JsrMetadataStore;
pub use version_answers::VersionAnswers;
