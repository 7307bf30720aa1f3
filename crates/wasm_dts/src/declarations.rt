// The declaration text of a module.
ghost use Rattle.std.specs.Prelude.{◌≡◌, ℕ, List, IfOk, Ok, string_bytes};
ghost use Rattle.spec_base.specs.Refusal.{Answers};
ghost use Rattle.wasm_dts.specs.Declarations.{declarations, module_declarations, IsDeclared, text_view};

use crate::export_text::push_exports;
use crate::import_text::{origins_of, push_imports};
use crate::parts::{Parts, module_parts};
use crate::refusal::WasmRefusal;
use crate::spaces::{Spaces, function_space, global_space};
use spec_base::Refusal;
use std::alloc::{AllocError, Global};

/// The declaration text of what is known of a module: the statements of its imports, and behind them those
/// of its exports. The only refusal is want of memory.
pub fn declarations(alloc: Global, parts: Parts) -> Result<String, AllocError>
    ensures { IfOk result (λ text. string_bytes text ≡ declarations parts) }
{
    let Parts {
        types,
        imports,
        functions,
        globals,
        exports,
    } = parts;
    let functions = function_space(alloc, imports.entries.as_slice(), functions.into_entries())?;
    let globals = global_space(alloc, imports.entries.as_slice(), globals.into_entries())?;
    let spaces = Spaces {
        types: types.into_entries(),
        functions,
        globals,
    };
    let origins = origins_of(alloc, imports.entries.as_slice())?;
    let mut text = String::new(alloc);
    push_imports(&mut text, origins.as_slice())?;
    push_exports(alloc, &mut text, &spaces, exports.entries.as_slice())?;
    Ok(text)
}

fn module_declarations(alloc: Global, bytes: &[u8]) -> Result<String, Refusal<WasmRefusal>>
    ensures { Answers (text_view result) (module_declarations bytes.now) }
{
    let parts = module_parts(alloc, bytes)?;
    Ok(declarations(alloc, parts)?)
}

/// The declarations of a WebAssembly module (WebAssembly Core Specification, "Binary Format"). `bytes` are
/// the whole module; the answer is the text of a TypeScript declaration file that imports what the module
/// imports, by the modules that it is from, and exports what it exports, in their order. An export of which
/// no type is known is `unknown`.
///
/// # Errors
///
/// `Refusal::Is` has the first rule that the bytes break, as they are read from the front, with its place
/// (`WasmRefusal` says when each comes). `Refusal::Memory` says that there was no memory.
pub fn wasm_module_to_dts(alloc: Global, bytes: &[u8]) -> Result<String, Refusal<WasmRefusal>>
    // What is declared is a module that the bytes spell.
    ensures found { IfOk result (λ text. IsDeclared bytes.now (string_bytes text)) }
    // A module that the bytes spell is declared, unless there is no memory.
    ensures only { (text : List ℕ) → IsDeclared bytes.now text
        → Answers (text_view result) (Ok text) }
    // Which refusal it is, and its place.
    ensures exact { Answers (text_view result) (module_declarations bytes.now) }
{
    module_declarations(alloc, bytes)
}
