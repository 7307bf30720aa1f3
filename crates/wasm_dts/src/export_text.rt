// The declarations of what a module exports.
ghost use Rattle.std.specs.Prelude.{◌≡◌, ◌++◌, IfOk, OnOk, string_bytes, slice_get};
ghost use Rattle.wasm_dts.specs.Declarations.{numbered, argument_type, result_type, listed_argument, listed_result, returned, declared_function, declared_constant, function_or_unknown, global_or_unknown, signature_at, declaration, local_name, export_list, renamed_statements, export_statements};

use crate::exports::{Export, ExportType};
use crate::identifier::is_identifier;
use crate::spaces::Spaces;
use crate::types::{FunctionType, ValueType};
use crate::writing::comma;
use std::alloc::{AllocError, Global};

// The type that an argument may have.
fn argument_type(value_type: ValueType) -> &'static str
    ensures { result.now ≡ argument_type value_type }
{
    match value_type {
        ValueType::I32 | ValueType::F32 | ValueType::F64 => "number",
        ValueType::I64 => "bigint | number",
        ValueType::Unknown => "unknown",
    }
}

// The type of a result or of a global.
fn result_type(value_type: ValueType) -> &'static str
    ensures { result.now ≡ result_type value_type }
{
    match value_type {
        ValueType::I32 | ValueType::F32 | ValueType::F64 => "number",
        ValueType::I64 => "bigint",
        ValueType::Unknown => "unknown",
    }
}

fn push_argument(out: &mut String, number: usize, value_type: ValueType) -> Result<(), AllocError>
    ensures { OnOk result
        (string_bytes out.new ≡ string_bytes out.old ++ listed_argument number value_type) }
{
    out.push_str(comma(number))?;
    out.push_str("arg")?;
    write!(out, "{number}")?;
    out.push_str(": ")?;
    out.push_str(argument_type(value_type))
}

fn push_arguments(out: &mut String, types: &[ValueType]) -> Result<(), AllocError>
    ensures { OnOk result
        (string_bytes out.new ≡ string_bytes out.old ++ numbered listed_argument 0 types.now) }
{
    for (i, value_type) in types.iter().enumerate() {
        push_argument(out, i, *value_type)?;
    }
    Ok(())
}

fn push_result(out: &mut String, number: usize, value_type: ValueType) -> Result<(), AllocError>
    ensures { OnOk result
        (string_bytes out.new ≡ string_bytes out.old ++ listed_result number value_type) }
{
    out.push_str(comma(number))?;
    out.push_str(result_type(value_type))
}

fn push_results(out: &mut String, types: &[ValueType]) -> Result<(), AllocError>
    ensures { OnOk result
        (string_bytes out.new ≡ string_bytes out.old ++ numbered listed_result 0 types.now) }
{
    for (i, value_type) in types.iter().enumerate() {
        push_result(out, i, *value_type)?;
    }
    Ok(())
}

// Adds what a function returns: nothing, one type or a tuple.
fn push_returned(out: &mut String, types: &[ValueType]) -> Result<(), AllocError>
    ensures { OnOk result
        (string_bytes out.new ≡ string_bytes out.old ++ returned types.now) }
{
    match types {
        [] => out.push_str("void"),
        [value_type] => out.push_str(result_type(*value_type)),
        _ => {
            out.push_str("[")?;
            push_results(out, types)?;
            out.push_str("]")
        }
    }
}

fn push_function(out: &mut String, name: &str, signature: &FunctionType) -> Result<(), AllocError>
    ensures { OnOk result (string_bytes out.new
        ≡ string_bytes out.old ++ declared_function name.now signature.now) }
{
    out.push_str("declare function ")?;
    out.push_str(name)?;
    out.push_str("(")?;
    push_arguments(out, signature.parameters.as_slice())?;
    out.push_str("): ")?;
    push_returned(out, signature.results.as_slice())?;
    out.push_str(";\n")
}

fn push_constant(out: &mut String, name: &str, type_text: &str) -> Result<(), AllocError>
    ensures { OnOk result (string_bytes out.new
        ≡ string_bytes out.old ++ declared_constant name.now type_text.now) }
{
    out.push_str("declare const ")?;
    out.push_str(name)?;
    out.push_str(": ")?;
    out.push_str(type_text)?;
    out.push_str(";\n")
}

// Adds the function with an index, under a name.
fn push_function_at(
    out: &mut String,
    spaces: &Spaces,
    name: &str,
    index: u32,
) -> Result<(), AllocError>
    ensures { OnOk result (string_bytes out.new
        ≡ string_bytes out.old ++ function_or_unknown name.now (signature_at spaces.now index)) }
{
    match spaces.signature_at(index) {
        Some(signature) => push_function(out, name, signature),
        None => push_constant(out, name, "unknown"),
    }
}

// Adds the global with an index, under a name.
fn push_global_at(
    out: &mut String,
    spaces: &Spaces,
    name: &str,
    index: u32,
) -> Result<(), AllocError>
    ensures { OnOk result (string_bytes out.new
        ≡ string_bytes out.old ++ global_or_unknown name.now (slice_get spaces.now.globals index)) }
{
    match spaces.globals.as_slice().get(index as usize) {
        Some(found) => push_constant(out, name, result_type(found.value_type)),
        None => push_constant(out, name, "unknown"),
    }
}

// Adds how an export is declared under a name.
fn push_declaration(
    out: &mut String,
    spaces: &Spaces,
    name: &str,
    export_type: ExportType,
) -> Result<(), AllocError>
    ensures { OnOk result (string_bytes out.new
        ≡ string_bytes out.old ++ declaration spaces.now name.now export_type) }
{
    match export_type {
        ExportType::Function(index) => push_function_at(out, spaces, name, index),
        ExportType::Table => push_constant(out, name, "WebAssembly.Table"),
        ExportType::Memory => push_constant(out, name, "WebAssembly.Memory"),
        ExportType::Global(index) => push_global_at(out, spaces, name, index),
        ExportType::Unknown => push_constant(out, name, "unknown"),
    }
}

// The name that stands for an export which can't be declared under its own.
fn local_name(alloc: Global, number: usize) -> Result<String, AllocError>
    ensures { IfOk result (λ text. string_bytes text ≡ local_name number) }
{
    format!(in alloc; "__deno_wasm_export_{number}__")
}

// Adds the statement that exports something under a name of its own.
fn push_export_list(out: &mut String, local: &str, name: &str) -> Result<(), AllocError>
    ensures { OnOk result
        (string_bytes out.new ≡ string_bytes out.old ++ export_list local.now name.now) }
{
    out.push_str("export { ")?;
    out.push_str(local)?;
    out.push_str(" as \"")?;
    out.push_str(name)?;
    out.push_str("\" };\n")
}

// Adds the declaration of an export under another name, and the statement that exports it.
fn push_renamed(
    alloc: Global,
    out: &mut String,
    spaces: &Spaces,
    number: usize,
    export: &Export,
) -> Result<(), AllocError>
    ensures { OnOk result (string_bytes out.new
        ≡ string_bytes out.old ++ renamed_statements spaces.now number export.now) }
{
    let local = local_name(alloc, number)?;
    push_declaration(out, spaces, local.as_str(), export.export_type)?;
    push_export_list(out, local.as_str(), export.name.as_str())
}

fn push_export(
    alloc: Global,
    out: &mut String,
    spaces: &Spaces,
    number: usize,
    export: &Export,
) -> Result<(), AllocError>
    ensures { OnOk result (string_bytes out.new
        ≡ string_bytes out.old ++ export_statements spaces.now number export.now) }
{
    if !is_identifier(export.name.as_str()) {
        return push_renamed(alloc, out, spaces, number, export);
    }
    out.push_str("export ")?;
    push_declaration(out, spaces, export.name.as_str(), export.export_type)
}

/// Adds the statements of all exports, in their order; `spaces` has the types that their indexes stand
/// for. The only refusal is want of memory.
pub fn push_exports(
    alloc: Global,
    out: &mut String,
    spaces: &Spaces,
    exports: &[Export],
) -> Result<(), AllocError>
    ensures { OnOk result (string_bytes out.new
        ≡ string_bytes out.old ++ numbered (export_statements spaces.now) 0 exports.now) }
{
    for (i, export) in exports.iter().enumerate() {
        push_export(alloc, out, spaces, i, export)?;
    }
    Ok(())
}
