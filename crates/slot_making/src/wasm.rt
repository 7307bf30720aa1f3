// The module or the error that the bytes of a WebAssembly module make.
ghost use Rattle.std.specs.Prelude.{◌≡◌, true, false, None, Ok, IfOk, IfSome};
ghost use Rattle.spec_base.specs.Refusal.{Answers};
ghost use Rattle.media_types.specs.declared.media.MediaType.TheVariants.{Wasm};
ghost use Rattle.import_records.specs.Cut.{kept};
ghost use Rattle.import_records.specs.Dependencies.{dependencies_of};
ghost use Rattle.import_records.specs.Target.{is_told_resolver};
ghost use Rattle.slot_making.specs.Made.{declaration_by, declaration_of, told_info, wasm_by, wasm_by_info};
ghost use Rattle.slot_making.specs.Makers.{WhereMade, importing_by};
ghost use Rattle.module_slots.specs.Slots.{is_pending, is_asset_slot};

use crate::services::Services;
use crate::slot_maker::{SlotMaker, failed, unparsed};
use crate::source::Source;
use graph_dependencies::Dependency;
use graph_errors::ModuleErrorKind;
use import_records::{Importer, Targets};
use media_types::MediaType;
use module_info::ModuleInfo;
use module_slots::{Module, ModuleSlot, WasmModule};
use spec_base::{ModuleSpecifier, Refusal, Text, TextMap};
use std::alloc::{AllocError, Global};
use wasm_dts::{WasmRefusal, wasm_module_to_dts};

// The declaration of the module that bytes spell, or the rule that they break.
#[tactic(auto, unfolding(crate::specs::Made::declaration_of))]
pub(crate) fn declaration_of(alloc: Global, bytes: &[u8]) -> Result<Text, Refusal<WasmRefusal>>
    ensures { Answers result (declaration_of bytes.now) }
{
    match wasm_module_to_dts(alloc, bytes) {
        Ok(text) => Ok(text.into()),
        Err(refusal) => Err(refusal),
    }
}

// The declaration of a source: the empty one where its info is given.
fn declaration_by(alloc: Global, source: &Source) -> Result<Text, Refusal<WasmRefusal>>
    ensures { Answers result (declaration_by source.now.info source.now.content) }
{
    match &source.info {
        Some(_) => Ok(Text::from(String::new(alloc))),
        None => declaration_of(alloc, source.content.as_slice()),
    }
}

/// The slot of a source as a WebAssembly module.
#[tactic(auto, using(crate::proofs::MadeLemmas::wasm_refused))]
pub(crate) fn wasm_slot<S: Services>(
    maker: &SlotMaker<'_, S>,
    source: Source,
) -> Result<ModuleSlot, AllocError>
    ensures told { WhereMade S.Analyze.infos S.Tree.paths S.Urls.meaning S.Resolve.is_told
        S.Resolve.meaning maker.now
        (λ making. IfOk result
        (λ slot. slot ≡ wasm_by making source (declaration_by source.info source.content))) }
    ensures settled { IfOk result (λ slot. is_pending slot ≡ false) }
    ensures inside { IfOk result (λ slot. is_asset_slot slot ≡ false) }
{
    match declaration_by(maker.alloc, &source) {
        Ok(declaration) => declared(maker, source, declaration),
        Err(Refusal::Memory) => Err(AllocError),
        Err(Refusal::Is(err)) => failed(
            maker.alloc,
            ModuleErrorKind::WasmParse {
                specifier: source.name,
                mtime: source.mtime,
                err,
            },
        ),
    }
}

// The slot of a source with its declaration, which is analyzed as a file of TypeScript declarations.
fn declared<S: Services>(
    maker: &SlotMaker<'_, S>,
    mut source: Source,
    declaration: Text,
) -> Result<ModuleSlot, AllocError>
    ensures told { WhereMade S.Analyze.infos S.Tree.paths S.Urls.meaning S.Resolve.is_told
        S.Resolve.meaning maker.now
        (λ making. IfOk result (λ slot. slot ≡ wasm_by making source (Ok declaration))) }
    ensures settled { IfOk result (λ slot. is_pending slot ≡ false) }
    ensures inside { IfOk result (λ slot. is_asset_slot slot ≡ false) }
{
    let given = source.info.take();
    match maker.info_of(given, &source.name, declaration.as_str(), MediaType::Dmts) {
        Ok(info) => wasm_of(maker, source, declaration, &info),
        Err(Refusal::Memory) => Err(AllocError),
        Err(Refusal::Is(diagnostic)) => {
            unparsed(maker.alloc, source.name, source.mtime, diagnostic)
        }
    }
}

// The slot of a source with its declaration and the info of that.
fn wasm_of<S: Services>(
    maker: &SlotMaker<'_, S>,
    source: Source,
    declaration: Text,
    info: &ModuleInfo,
) -> Result<ModuleSlot, AllocError>
    ensures told { is_told_resolver S.Resolve.is_told maker.now.resolver ≡ true
        → IfOk result
        (λ slot. slot
        ≡ wasm_by_info
        (importing_by S.Urls.meaning S.Resolve.meaning maker.now source.name Wasm)
        maker.now.kind maker.now.skip_dynamic_deps source.mtime source.content
        declaration (Ok info.now)) }
    ensures settled { IfOk result (λ slot. is_pending slot ≡ false) }
    ensures inside { IfOk result (λ slot. is_asset_slot slot ≡ false) }
{
    let dependencies = dependencies_of(maker, &source.name, info)?;
    let Source {
        name,
        content,
        headers: _,
        mtime,
        info: _,
    } = source;
    Ok(ModuleSlot::Module(Module::Wasm(WasmModule {
        specifier: name,
        mtime,
        dependencies,
        source: content,
        source_dts: declaration,
        maybe_cache_info: None,
    })))
}

// The dependencies of a WebAssembly module, by the info of its declaration.
fn dependencies_of<S: Services>(
    maker: &SlotMaker<'_, S>,
    specifier: &ModuleSpecifier,
    info: &ModuleInfo,
) -> Result<TextMap<Dependency>, AllocError>
    ensures { is_told_resolver S.Resolve.is_told maker.now.resolver ≡ true
        → IfOk result (λ found. found
        ≡ kept maker.now.kind maker.now.skip_dynamic_deps None (dependencies_of
        (importing_by S.Urls.meaning S.Resolve.meaning maker.now specifier.now Wasm) info.now)) }
{
    let importer = Importer {
        targets: Targets {
            alloc: maker.alloc,
            urls: maker.urls,
            resolver: maker.resolver,
        },
        media: MediaType::Wasm,
        with_types: maker.kind.include_types(),
        specifier,
    };
    importer.kept_dependencies(info, maker.kind, maker.skip_dynamic_deps, &None)
}
