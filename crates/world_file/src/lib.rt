//! The world file: JSON of version 1 or 2, read as the input of a build.
//!
//! Bytes come in, and an `Input` goes out: the roots, what else the graph begins with, the world that loader, analyzer,
//! resolver and locker tell, and how the loader answers. A text that is no world file is refused as a whole. Each member has a
//! reader whose contract is its definition in `specs/`, and `world_of` puts them together.
#![tactic(auto)]

mod input;
mod settings;

// The specifiers of keys that the answers name too.
mod known_specifiers;

// The members, in the order in which they are read.
mod limits;
mod world_cache;
mod world_imports;
mod world_infos;
mod world_npm;
mod world_packages;
mod world_registry;
mod world_resolutions;
mod world_sums;
mod world_tree;

// What their definitions keep.
mod laws;

pub use input::{Input, NotAWorld, input_of, world_of, world_of_own};
pub use laws::reads_requirements_of_packages;
pub use limits::{DEFAULT_MAX_LOADS, Limits};
pub use settings::Settings;
pub use world_registry::{NewestDates, RegistrySettings};
