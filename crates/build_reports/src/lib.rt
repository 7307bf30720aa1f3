//! What hears how a build goes: what was loaded, which versions were chosen, and what was told of modules that were read.
//!
//! A build tells these objects what it does, and takes nothing from them: its graph is the same whatever they do with it.
#![tactic(auto)]

mod module_info_cacher;
mod reporter;

pub use module_info_cacher::{ModuleInfoCacher, NullModuleInfoCacher};
pub use reporter::{NullReporter, Reporter};
