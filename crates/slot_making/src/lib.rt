//! What one source makes: the bytes of a source become a slot by `make_slot`.
//!
//! An analyzer tells what a source imports, a resolver where the imports lead. `Services` names the types of the objects that
//! one build is given. Content that is loaded later is put into its slot by `fill_content`.
#![tactic(auto)]

mod content;
mod make;
mod services;
mod slot_maker;
mod source;
mod wasm;

pub use content::fill_content;
pub use make::{MakeInput, make_slot, suits_source_phase};
pub use services::{Services, WorldServices};
