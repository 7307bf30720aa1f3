// Types of values and of functions.
ghost use Rattle.std.specs.Prelude.{◌≡◌, IfOk, map};
ghost use Rattle.spec_base.specs.Refusal.{Answers};
ghost use Rattle.wasm_dts.specs.Entries.{value_type, value_types, signature, function_type};

use crate::entry::Entry;
use crate::input::Input;
use crate::refusal::WasmRefusal;
use crate::values::sized;
use spec_base::{Items, Refusal};
use std::alloc::{AllocError, Global};

/// The type of a value: a number type, or one that has no name in declarations.
#[derive(Clone, Copy)]
pub enum ValueType {
    I32,
    I64,
    F32,
    F64,
    Unknown,
}

/// The type of a function.
#[derive(Drop)]
pub struct FunctionType {
    pub parameters: Items<ValueType>,
    pub results: Items<ValueType>,
}

/// The type that a byte stands for: one of the four number types, or `Unknown` (WebAssembly Core
/// Specification, "Value Types").
pub fn value_type(byte: u8) -> ValueType
    ensures { result ≡ value_type byte }
{
    match byte {
        0x7F => ValueType::I32,
        0x7E => ValueType::I64,
        0x7D => ValueType::F32,
        0x7C => ValueType::F64,
        _ => ValueType::Unknown,
    }
}

// The types that bytes stand for.
fn types_of(alloc: Global, bytes: &[u8]) -> Result<Vec<ValueType>, AllocError>
    ensures { IfOk result (λ types. types.items ≡ map value_type bytes.now) }
{
    bytes.iter().map(|byte| value_type(*byte)).collect(alloc)
}

// A count, and that many types.
fn value_types(
    alloc: Global,
    input: Input<'_>,
) -> Result<(Items<ValueType>, Input<'_>), Refusal<WasmRefusal>>
    ensures { Answers result (value_types input.entry) }
{
    let (bytes, rest) = sized(input)?;
    let types = types_of(alloc, bytes.bytes())?;
    Ok((types.into(), rest))
}

// Types of parameters, and types of results.
fn signature(
    alloc: Global,
    input: Input<'_>,
) -> Result<(FunctionType, Input<'_>), Refusal<WasmRefusal>>
    ensures { Answers result (signature input.entry) }
{
    let (parameters, rest) = value_types(alloc, input)?;
    let (results, rest) = value_types(alloc, rest)?;
    Ok((
        FunctionType {
            parameters,
            results,
        },
        rest,
    ))
}

impl Entry for FunctionType {
    ghost entry = { function_type };

    fn read(
        alloc: Global,
        input: Input<'_>,
    ) -> Result<(Option<FunctionType>, Input<'_>), Refusal<WasmRefusal>> {
        let (form, rest) = input.byte()?;
        if form != 0x60 {
            return Ok((None, rest));
        }
        let (found, rest) = signature(alloc, rest)?;
        Ok((Some(found), rest))
    }
}
