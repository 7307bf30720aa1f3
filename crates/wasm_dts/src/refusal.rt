// Why bytes are refused.
ghost use Rattle.std.specs.Prelude.{Some};
ghost use Rattle.wasm_dts.specs.Refusals.{refusal_text};

use std::error::Error;
use std::fmt;

/// The first rule of the binary format that the bytes of a module break. `at` is its place: a number of
/// bytes from the module's start.
#[derive(Clone, Copy, PartialEq, Eq, Debug)]
pub enum WasmRefusal {
    /// The bytes don't begin with `\0asm`. The place is 0.
    NotWasm { at: usize },
    /// The version isn't 1. The place is that of the version, 4.
    UnsupportedVersion { at: usize },
    /// Something passes the end of the module or of a section's payload. The place is that end.
    UnexpectedEnd { at: usize },
    /// A number takes more bytes or bits than its type has. The place is that of its first byte.
    IntegerOverflow { at: usize },
    /// A name isn't UTF-8. The place is that of its first byte, behind its size.
    InvalidUtf8 { at: usize },
    /// No such kind of import is known. The place is that of the byte of the kind.
    UnknownKind { at: usize },
}

impl fmt::Display for WasmRefusal {
    ghost output = { λ r. Some (refusal_text r) };

    fn fmt<W: fmt::Write>(&self, f: &mut fmt::Formatter<W>) -> fmt::Result {
        match self {
            WasmRefusal::NotWasm { at } => write!(f, "not a Wasm module at byte {at}"),
            WasmRefusal::UnsupportedVersion { at } => write!(f, "unsupported version at byte {at}"),
            WasmRefusal::UnexpectedEnd { at } => write!(f, "unexpected end at byte {at}"),
            WasmRefusal::IntegerOverflow { at } => write!(f, "integer overflow at byte {at}"),
            WasmRefusal::InvalidUtf8 { at } => write!(f, "invalid UTF-8 at byte {at}"),
            WasmRefusal::UnknownKind { at } => write!(f, "unknown kind at byte {at}"),
        }
    }
}

impl Error for WasmRefusal {}
