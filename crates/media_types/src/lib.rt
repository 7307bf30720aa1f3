//! The media types of modules, and the text of their bytes.
//!
//! Specifiers, content types and bytes come in; what goes out is the media type of a module, the charset of its text and the text
//! itself, each equal to its definition in `specs/`.
#![tactic(auto)]

mod content_type;
mod decoding;
mod media;

pub use content_type::{
    Headers, resolve_media_type_and_charset_from_content_type,
    resolve_media_type_and_charset_from_headers, source_charset,
};
pub use decoding::{DecodeFault, DecodedKind, ModuleTextSource, decode, detect_charset};
pub use media::MediaType;
