//! Reading and writing JSON by definition.
//!
//! What comes in are JSON values (RFC 8259), read as documents or by `serde_json`; what goes out are values of types that
//! have a `Form`, and the other way round the JSON of values that are `Shown`. Objects are read member by member and
//! written by tables of rows; each reader and writer equals its definition in `specs/`. Of modules it knows their infos
//! alone, which are read and written in `infos`: an info that is written and read again is the same.
#![tactic(auto)]

mod dictionary;
mod form;
mod infos;
mod keyed;
mod member;
mod names;
mod pairs;
mod range;
mod rows;
mod shown;
mod whole;

pub use form::{Form, Misfit, read_url};
pub use infos::{InfoFault, info_from_json, info_to_json, read_info};
pub use keyed::keyed_or_empty;
pub use member::{has_names, optional, or_default, or_empty, required};
pub use names::choose;
pub use pairs::pair;
pub use rows::{if_true, object, put_optional};
pub use shown::{Shown, compact, if_any, optional_json, text_json};
pub use whole::is_whole;
