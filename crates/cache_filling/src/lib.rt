//! What a loader tells of the cached copies of a graph's modules, noted at the modules.
//!
//! `fill_cache_info` asks the loader about each script, JSON text, module of WebAssembly and module outside of the graph by its
//! specifier, and notes the answer there; packages of npm and modules of Node.js have no copy, and errors stay as they are.
#![tactic(auto)]

mod filling;

pub use filling::fill_cache_info;
