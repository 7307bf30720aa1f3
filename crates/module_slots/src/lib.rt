//! What stands at a specifier of a graph, and what is to be loaded.
//!
//! A `ModuleSlot` is a module, an error, or a module that is still under way. A `Load` is one that is to be followed, with the
//! context in which it is met, and an `NpmLoad` one that waits for the end of a build.
#![tactic(auto)]

mod failure;
mod fast_check;
mod load;
mod npm_load;
mod slot;

pub use failure::failure_slot;
pub use fast_check::{FastCheckDiagnostic, FastCheckTypeModule, FastCheckTypeModuleSlot};
pub use load::{Load, LoadContext, attribute_type};
pub use npm_load::NpmLoad;
pub use slot::{
    BuiltInNodeModule, ExternalModule, JsModule, JsonModule, Module, ModuleSlot, NpmModule,
    WasmModule,
};
