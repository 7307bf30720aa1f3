// Globals: their types and their initial values.
ghost use Rattle.std.specs.Prelude.{◌≡◌, length};
ghost use Rattle.spec_base.specs.Refusal.{Answers};
ghost use Rattle.wasm_dts.specs.Entries.{global_type, operand, instructions, initializer, global_entry};

use crate::entry::Entry;
use crate::input::Input;
use crate::leb128::leb;
use crate::refusal::WasmRefusal;
use crate::types::{ValueType, value_type};
use spec_base::Refusal;
use std::alloc::Global;

/// The type of a global; whether it may change makes no difference to a declaration.
#[derive(Clone, Copy)]
pub struct GlobalType {
    pub value_type: ValueType,
}

/// The type of a global, a byte for the value and one for whether it may change, and what is left behind
/// them. The refusal is `UnexpectedEnd`, where fewer than two bytes are left.
pub fn global_type(input: Input<'_>) -> Result<(GlobalType, Input<'_>), Refusal<WasmRefusal>>
    ensures { Answers result (global_type input.entry) }
{
    let (byte, rest) = input.byte()?;
    let (_, rest) = rest.byte()?;
    let value_type = value_type(byte);
    Ok((GlobalType { value_type }, rest))
}

// What stands behind the opcode of a constant instruction, and whether the opcode is known.
fn operand(opcode: u8, input: Input<'_>) -> Result<(bool, Input<'_>), Refusal<WasmRefusal>>
    ensures { Answers result (operand opcode input.entry) }
{
    let (_, rest) = match opcode {
        // `i32.const`, `i64.const`, `global.get` and `ref.func`
        0x41 | 0x42 | 0x23 | 0xD2 => leb(input)?,
        // `f32.const` and `f64.const`
        0x43 => input.take(4)?,
        0x44 => input.take(8)?,
        // `ref.null`
        0xD0 => input.take(1)?,
        _ => return Ok((false, input)),
    };
    Ok((true, rest))
}

// Constant instructions up to the end of the expression, and whether all of them are known.
fn initializer(input: Input<'_>) -> Result<(bool, Input<'_>), Refusal<WasmRefusal>>
    ensures { Answers result (initializer input.entry) }
{
    let most = input.bytes().len();
    let mut left = input;
    for _ in 0..most {
        let (opcode, rest) = left.byte()?;
        if opcode == 0x0B {
            return Ok((true, rest));
        }
        let (is_known, rest) = operand(opcode, rest)?;
        if !is_known {
            return Ok((false, rest));
        }
        left = rest;
    }
    let at = left.end();
    Err(Refusal::Is(WasmRefusal::UnexpectedEnd { at }))
}

impl Entry for GlobalType {
    ghost entry = { global_entry };

    fn read(
        _alloc: Global,
        input: Input<'_>,
    ) -> Result<(Option<GlobalType>, Input<'_>), Refusal<WasmRefusal>> {
        let (found, rest) = global_type(input)?;
        let (is_known, rest) = initializer(rest)?;
        if is_known {
            Ok((Some(found), rest))
        } else {
            Ok((None, rest))
        }
    }
}
