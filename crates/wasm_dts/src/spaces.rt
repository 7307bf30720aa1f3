// Index spaces of functions and globals.
ghost use Rattle.std.specs.Prelude.{◌≡◌, ◌++◌, IfOk, option_and_then, option_copied, slice_get};
ghost use Rattle.std.specs.List.{filter_map};
ghost use Rattle.wasm_dts.specs.Declarations.{function_in, global_in, signature_at};

use crate::globals::GlobalType;
use crate::imports::{Import, ImportType};
use crate::types::FunctionType;
use spec_base::Items;
use std::alloc::{AllocError, Global};

/// The types that indexes stand for. Functions are the indexes of their types; of functions and of
/// globals imported ones come first.
#[derive(Drop)]
pub struct Spaces {
    pub types: Items<FunctionType>,
    pub functions: Items<u32>,
    pub globals: Items<GlobalType>,
}

fn function_in(import_type: ImportType) -> Option<u32>
    ensures { result ≡ function_in import_type }
{
    match import_type {
        ImportType::Function(index) => Some(index),
        _ => None,
    }
}

fn global_in(import_type: ImportType) -> Option<GlobalType>
    ensures { result ≡ global_in import_type }
{
    match import_type {
        ImportType::Global(found) => Some(found),
        _ => None,
    }
}

// The type indexes of imported functions.
fn imported_functions(alloc: Global, imports: &[Import]) -> Result<Vec<u32>, AllocError>
    ensures { IfOk result
        (λ all. all.items ≡ filter_map (λ i. function_in i.import_type) imports.now) }
{
    imports
        .iter()
        .filter_map(|import| function_in(import.import_type))
        .collect(alloc)
}

// The types of imported globals.
fn imported_globals(alloc: Global, imports: &[Import]) -> Result<Vec<GlobalType>, AllocError>
    ensures { IfOk result
        (λ all. all.items ≡ filter_map (λ i. global_in i.import_type) imports.now) }
{
    imports
        .iter()
        .filter_map(|import| global_in(import.import_type))
        .collect(alloc)
}

/// The type indexes of all functions: those of imported ones, and `functions` behind them. The only
/// refusal is want of memory.
pub fn function_space(
    alloc: Global,
    imports: &[Import],
    functions: Items<u32>,
) -> Result<Items<u32>, AllocError>
    ensures { IfOk result
        (λ all. all ≡ filter_map (λ i. function_in i.import_type) imports.now ++ functions) }
{
    let mut all = imported_functions(alloc, imports)?;
    all.append(&mut functions.into_vec())?;
    Ok(all.into())
}

/// The types of all globals: those of imported ones, and `globals` behind them. The only refusal is want
/// of memory.
pub fn global_space(
    alloc: Global,
    imports: &[Import],
    globals: Items<GlobalType>,
) -> Result<Items<GlobalType>, AllocError>
    ensures { IfOk result
        (λ all. all ≡ filter_map (λ i. global_in i.import_type) imports.now ++ globals) }
{
    let mut all = imported_globals(alloc, imports)?;
    all.append(&mut globals.into_vec())?;
    Ok(all.into())
}

impl Spaces {
    /// The type of the function with an index, or `None` where the function or its type isn't known.
    pub fn signature_at(&self, index: u32) -> Option<&FunctionType>
        ensures { option_copied result ≡ signature_at self.now index }
    {
        let type_index = *self.functions.as_slice().get(index as usize)?;
        self.types.as_slice().get(type_index as usize)
    }
}
