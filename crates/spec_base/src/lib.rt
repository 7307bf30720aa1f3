//! Specifiers, positions, resolution and its errors, and the small types in which contracts see texts, bytes, lists and maps.
//!
//! Nothing here knows of modules or graphs. What comes in are texts, bytes and URLs; what goes out are
//! values that definitions build and compare, each equal to its definition in `specs/`.
#![tactic(auto)]

mod boxed;
mod bytes;
mod checksum_error;
mod entries;
mod items;
mod load_error;
mod position;
mod queue;
mod refusal;
mod resolve;
mod resolve_error;
mod sorted_texts;
mod specifier_map;
mod specifier_set;
mod text;
mod text_map;

pub use boxed::Boxed;
pub use bytes::Bytes;
pub use checksum_error::ChecksumIntegrityError;
pub use entries::Entries;
pub use items::Items;
pub use load_error::LoadError;
pub use position::{
    Position, PositionRange, Range, ResolutionKind, ResolutionMode, is_fs_root_specifier,
    order_positions,
};
pub use queue::Queue;
pub use refusal::{Fault, Refusal};
pub use resolve::{SpecifierError, resolve_import};
pub use resolve_error::ResolveError;
pub use sorted_texts::SortedTexts;
pub use specifier_map::SpecifierMap;
pub use specifier_set::SpecifierSet;
pub use text::Text;
pub use text_map::TextMap;

/// The specifier of a module: an absolute URL (WHATWG URL Standard), which is compared by its text.
pub type ModuleSpecifier = url::Url;
