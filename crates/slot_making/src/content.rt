// Modules whose content comes later than their info.
ghost use Rattle.std.specs.Prelude.{◌≡◌, OnOk, IfOk};
ghost use Rattle.slot_making.specs.Filled.{content_refusal, content_text, filled_slot, slot_with_content, filled_text, filled_wasm, text_refusal, wasm_refusal};
ghost use Rattle.slot_making.specs.Made.{declaration_of};

use crate::make::undecoded;
use crate::slot_maker::failed;
use crate::wasm::declaration_of;
use graph_errors::ModuleErrorKind;
use media_types::{ModuleTextSource, decode, detect_charset};
use module_slots::{Module, ModuleSlot, WasmModule};
use spec_base::{Bytes, ModuleSpecifier, Refusal};
use std::alloc::{AllocError, Global};

// Gives a module the text that a content is; where that is none, its error goes out, and the source stays.
fn fill_text(
    alloc: Global,
    specifier: &ModuleSpecifier,
    mtime: Option<u64>,
    source: &mut ModuleTextSource,
    content: Bytes,
) -> Result<Option<ModuleSlot>, AllocError>
    ensures refusal { IfOk result
        (λ slot. slot ≡ text_refusal specifier.now mtime (content_text specifier.now content)) }
    ensures filled { OnOk result
        (source.new ≡ filled_text source.old (content_text specifier.now content)) }
{
    let charset = detect_charset(specifier, content.as_slice());
    match decode(alloc, charset, content.into_vec()) {
        Ok(text) => {
            *source = text;
            Ok(None)
        }
        Err(Refusal::Memory) => Err(AllocError),
        Err(Refusal::Is(err)) => {
            let specifier = specifier.clone()?;
            let slot = undecoded(alloc, specifier, mtime, err)?;
            Ok(Some(slot))
        }
    }
}

// Gives a WebAssembly module its bytes and their declaration; where they have none, the error goes out, and the module stays.
fn fill_wasm(
    alloc: Global,
    wasm: &mut WasmModule,
    content: Bytes,
) -> Result<Option<ModuleSlot>, AllocError>
    ensures refusal { IfOk result (λ slot. slot ≡ wasm_refusal wasm.old (declaration_of content)) }
    ensures filled { OnOk result
        (wasm.new ≡ filled_wasm wasm.old content (declaration_of content)) }
{
    match declaration_of(alloc, content.as_slice()) {
        Ok(declaration) => {
            wasm.source = content;
            wasm.source_dts = declaration;
            Ok(None)
        }
        Err(Refusal::Memory) => Err(AllocError),
        Err(Refusal::Is(err)) => {
            let specifier = wasm.specifier.clone()?;
            let slot = failed(
                alloc,
                ModuleErrorKind::WasmParse {
                    specifier,
                    mtime: wasm.mtime,
                    err,
                },
            )?;
            Ok(Some(slot))
        }
    }
}

// Gives the module in a slot its content, where it has a source; the error goes out where the content is none.
fn fill_module(
    alloc: Global,
    slot: &mut ModuleSlot,
    content: Bytes,
) -> Result<Option<ModuleSlot>, AllocError>
    ensures refusal { IfOk result (λ refusal. refusal ≡ content_refusal content slot.old) }
    ensures filled { OnOk result (slot.new ≡ slot_with_content content slot.old) }
{
    match slot {
        ModuleSlot::Module(Module::Js(script)) => fill_text(
            alloc,
            &script.specifier,
            script.mtime,
            &mut script.source,
            content,
        ),
        ModuleSlot::Module(Module::Json(json)) => {
            fill_text(
                alloc,
                &json.specifier,
                json.mtime,
                &mut json.source,
                content,
            )
        }
        ModuleSlot::Module(Module::Wasm(wasm)) => fill_wasm(alloc, wasm, content),
        ModuleSlot::Module(Module::Npm(_) | Module::Node(_) | Module::External(_)) => Ok(None),
        ModuleSlot::Err(_) | ModuleSlot::Pending { is_asset: _ } => Ok(None),
    }
}

/// Gives the module in a slot its content, which came later than its info: its source is decoded by `detect_charset`, since no
/// headers come with it, and that of a WebAssembly module is read for its declaration. Where the bytes are no text, or no WebAssembly
/// module, the error takes the module's place. A slot with no module that has a source stays as it is. The only refusal is
/// want of memory.
pub fn fill_content(alloc: Global, slot: &mut ModuleSlot, content: Bytes) -> Result<(), AllocError>
    ensures { OnOk result (slot.new ≡ filled_slot content slot.old) }
{
    if let Some(error) = fill_module(alloc, slot, content)? {
        *slot = error;
    }
    Ok(())
}
