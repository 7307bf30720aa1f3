// Exports.
ghost use Rattle.std.specs.Prelude.{◌≡◌};
ghost use Rattle.spec_base.specs.Refusal.{Answers};
ghost use Rattle.wasm_dts.specs.Entries.{export_of_kind, export_entry};

use crate::entry::Entry;
use crate::input::Input;
use crate::leb128::number32;
use crate::refusal::WasmRefusal;
use crate::values::name;
use spec_base::{Refusal, Text};
use std::alloc::Global;

/// What is exported. Of a function and a global it is the index, imported ones first.
#[derive(Clone, Copy)]
pub enum ExportType {
    Function(u32),
    Table,
    Memory,
    Global(u32),
    Unknown,
}

/// An export: its name and what it is.
#[derive(Drop)]
pub struct Export {
    pub name: Text,
    pub export_type: ExportType,
}

fn export_of_kind(kind: u8, index: u32) -> ExportType
    ensures { result ≡ export_of_kind kind index }
{
    match kind {
        0 => ExportType::Function(index),
        1 => ExportType::Table,
        2 => ExportType::Memory,
        3 => ExportType::Global(index),
        _ => ExportType::Unknown,
    }
}

impl Entry for Export {
    ghost entry = { export_entry };

    fn read(
        alloc: Global,
        input: Input<'_>,
    ) -> Result<(Option<Export>, Input<'_>), Refusal<WasmRefusal>> {
        let (name, rest) = name(alloc, input)?;
        let (kind, rest) = rest.byte()?;
        let (index, rest) = number32(rest)?;
        let export_type = export_of_kind(kind, index);
        Ok((Some(Export { name, export_type }), rest))
    }
}
