// The parts of a module, section by section.
ghost use Rattle.std.specs.Prelude.{◌≡◌, length};
ghost use Rattle.spec_base.specs.Refusal.{Answers};
ghost use Rattle.wasm_dts.specs.Module.{no_parts, section_parts, section, sections, behind_header, module_parts};

use crate::entry::{Known, vector};
use crate::exports::Export;
use crate::globals::GlobalType;
use crate::imports::Import;
use crate::input::Input;
use crate::refusal::WasmRefusal;
use crate::types::FunctionType;
use crate::values::sized;
use spec_base::Refusal;
use std::alloc::Global;

/// What is known of a module. Functions are the indexes of their types.
#[derive(Drop)]
pub struct Parts {
    pub types: Known<FunctionType>,
    pub imports: Known<Import>,
    pub functions: Known<u32>,
    pub globals: Known<GlobalType>,
    pub exports: Known<Export>,
}

// No section.
fn no_parts(alloc: Global) -> Parts
    ensures { result ≡ no_parts }
{
    Parts {
        types: Known::new(alloc),
        imports: Known::new(alloc),
        functions: Known::new(alloc),
        globals: Known::new(alloc),
        exports: Known::new(alloc),
    }
}

// The parts with those of one more section. Other sections than the five are passed over.
fn section_parts(
    alloc: Global,
    parts: Parts,
    id: u8,
    payload: Input<'_>,
) -> Result<Parts, Refusal<WasmRefusal>>
    ensures { Answers result (section_parts parts id payload.entry) }
{
    let mut parts = parts;
    match id {
        1 => parts.types = parts.types.followed_by(vector(alloc, payload)?)?,
        2 => parts.imports = parts.imports.followed_by(vector(alloc, payload)?)?,
        3 => parts.functions = parts.functions.followed_by(vector(alloc, payload)?)?,
        6 => parts.globals = parts.globals.followed_by(vector(alloc, payload)?)?,
        7 => parts.exports = parts.exports.followed_by(vector(alloc, payload)?)?,
        _ => {}
    }
    Ok(parts)
}

// The parts with those of the next section.
fn section(
    alloc: Global,
    parts: Parts,
    input: Input<'_>,
) -> Result<(Parts, Input<'_>), Refusal<WasmRefusal>>
    ensures { Answers result (section parts input.entry) }
{
    let (id, rest) = input.byte()?;
    let (payload, rest) = sized(rest)?;
    let parts = section_parts(alloc, parts, id, payload)?;
    Ok((parts, rest))
}

// What stands behind the magic bytes and the version.
fn behind_header(bytes: &[u8]) -> Result<Input<'_>, Refusal<WasmRefusal>>
    ensures { Answers result (behind_header bytes.now) }
{
    if !bytes.starts_with(b"\0asm") {
        return Err(Refusal::Is(WasmRefusal::NotWasm { at: 0 }));
    }
    if bytes.len() < 8 {
        let at = bytes.len();
        return Err(Refusal::Is(WasmRefusal::UnexpectedEnd { at }));
    }
    if !bytes[4..].starts_with(&[1, 0, 0, 0]) {
        return Err(Refusal::Is(WasmRefusal::UnsupportedVersion { at: 4 }));
    }
    Ok(Input::new(8, &bytes[8..]))
}

// The parts of all sections.
fn sections(alloc: Global, body: Input<'_>) -> Result<Parts, Refusal<WasmRefusal>>
    ensures { Answers result (sections (length body.entry.bytes) no_parts body.entry) }
{
    let most = body.bytes().len();
    let mut parts = no_parts(alloc);
    let mut left = body;
    for _ in 0..most {
        if left.is_empty() {
            return Ok(parts);
        }
        let (more, rest) = section(alloc, parts, left)?;
        parts = more;
        left = rest;
    }
    Ok(parts)
}

/// What is known of a module: the entries of its sections of types, imports, functions, globals and
/// exports. The refusal is the first rule that its bytes break, with its place, or want of memory.
pub fn module_parts(alloc: Global, bytes: &[u8]) -> Result<Parts, Refusal<WasmRefusal>>
    ensures { Answers result (module_parts bytes.now) }
{
    let body = behind_header(bytes)?;
    sections(alloc, body)
}
