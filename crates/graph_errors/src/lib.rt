//! What the text of an import resolves to, what stands in the place of a module, and the texts of errors.
//!
//! A `Resolution` is a target or an error with the range of the text; a `ModuleError` stands where a load
//! gives no module, and holds a `JsrLoadError` where a registry of packages is to blame; a `ModuleGraphError`
//! is what a walk over a graph finds. Each of them shows its parts, and its text by `Display`.
#![tactic(auto)]

mod error_parts;
mod error_texts;
mod errors;
mod jsr_error;
mod jsr_error_texts;
mod resolution;

pub use errors::{DecodeError, ModuleError, ModuleErrorKind, ModuleGraphError, ModuleLoadError};
pub use jsr_error::{JsrLoadError, JsrPackageFormatError};
pub use resolution::{Resolution, ResolutionError, ResolutionResolved};
