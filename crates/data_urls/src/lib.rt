//! The content of `data:` URLs (RFC 2397), and the standard base64 (RFC 4648) that they and world files hold.
//!
//! What comes in are specifiers and texts; what goes out are bytes with their content type, each equal to its
//! definition in `specs/`.
#![tactic(auto)]

mod data_url;
mod standard;

pub use data_url::{DataUrl, data_url_source};
pub use standard::{NotBase64, standard_base64};
