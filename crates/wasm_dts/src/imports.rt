// Imports, and the type indexes of functions.
ghost use Rattle.std.specs.Prelude.{◌≡◌};
ghost use Rattle.spec_base.specs.Refusal.{Answers};
ghost use Rattle.wasm_dts.specs.Entries.{limits, table_import, tag_import, import_of_kind, import_type, import_entry, type_index};

use crate::entry::Entry;
use crate::globals::{GlobalType, global_type};
use crate::input::Input;
use crate::leb128::{number32, number64};
use crate::refusal::WasmRefusal;
use crate::values::name;
use spec_base::{Refusal, Text};
use std::alloc::Global;

/// What is imported. Of a function it is the index of its type.
#[derive(Clone, Copy)]
pub enum ImportType {
    Function(u32),
    Table,
    Memory,
    Global(GlobalType),
    Tag,
}

/// An import: the name of a module, the name in it, and what it is.
#[derive(Drop)]
pub struct Import {
    pub module: Text,
    pub name: Text,
    pub import_type: ImportType,
}

// A flag byte, and one or two sizes.
fn limits(input: Input<'_>) -> Result<((), Input<'_>), Refusal<WasmRefusal>>
    ensures { Answers result (limits input.entry) }
{
    let (flag, rest) = input.byte()?;
    let (_, rest) = number64(rest)?;
    if flag % 2 == 1 {
        let (_, rest) = number64(rest)?;
        Ok(((), rest))
    } else {
        Ok(((), rest))
    }
}

fn table_import(input: Input<'_>) -> Result<(ImportType, Input<'_>), Refusal<WasmRefusal>>
    ensures { Answers result (table_import input.entry) }
{
    let (_, rest) = input.byte()?;
    let (_, rest) = limits(rest)?;
    Ok((ImportType::Table, rest))
}

fn tag_import(input: Input<'_>) -> Result<(ImportType, Input<'_>), Refusal<WasmRefusal>>
    ensures { Answers result (tag_import input.entry) }
{
    let (_, rest) = input.byte()?;
    let (_, rest) = number32(rest)?;
    Ok((ImportType::Tag, rest))
}

// What is imported, by its kind, which stands at a place.
fn import_of_kind(
    at: usize,
    kind: u8,
    input: Input<'_>,
) -> Result<(ImportType, Input<'_>), Refusal<WasmRefusal>>
    ensures { Answers result (import_of_kind at kind input.entry) }
{
    match kind {
        0 => {
            let (index, rest) = number32(input)?;
            Ok((ImportType::Function(index), rest))
        }
        1 => table_import(input),
        2 => {
            let (_, rest) = limits(input)?;
            Ok((ImportType::Memory, rest))
        }
        3 => {
            let (found, rest) = global_type(input)?;
            Ok((ImportType::Global(found), rest))
        }
        4 => tag_import(input),
        _ => Err(Refusal::Is(WasmRefusal::UnknownKind { at })),
    }
}

fn import_type(input: Input<'_>) -> Result<(ImportType, Input<'_>), Refusal<WasmRefusal>>
    ensures { Answers result (import_type input.entry) }
{
    let at = input.at();
    let (kind, rest) = input.byte()?;
    import_of_kind(at, kind, rest)
}

impl Entry for Import {
    ghost entry = { import_entry };

    fn read(
        alloc: Global,
        input: Input<'_>,
    ) -> Result<(Option<Import>, Input<'_>), Refusal<WasmRefusal>> {
        let (module, rest) = name(alloc, input)?;
        let (name, rest) = name(alloc, rest)?;
        let (import_type, rest) = import_type(rest)?;
        let found = Import {
            module,
            name,
            import_type,
        };
        Ok((Some(found), rest))
    }
}

// The index of a function's type.
impl Entry for u32 {
    ghost entry = { type_index };

    fn read(
        _alloc: Global,
        input: Input<'_>,
    ) -> Result<(Option<u32>, Input<'_>), Refusal<WasmRefusal>> {
        let (index, rest) = number32(input)?;
        Ok((Some(index), rest))
    }
}
