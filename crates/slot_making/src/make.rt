// The module or the error that a source makes.
ghost use Rattle.std.specs.Prelude.{◌≡◌, true, false, Ok, IfOk, IfSome, option_copied};
ghost use Rattle.spec_base.specs.Refusal.{Answers};
ghost use Rattle.import_records.specs.Target.{is_told_resolver};
ghost use Rattle.slot_making.specs.Made.{types_header, text_in, at_root, media_under, is_json, is_supported_media, is_plain_type, takes_json, undecoded_slot, refused_slot, unsupported_slot, by_info, importing_at, script_by, json_by, plain_slot, asserted_slot, by_attribute, told_info, suits_source_phase, unphased_slot, by_phase, made_slot};
ghost use Rattle.slot_making.specs.Makers.{WhereMade, making_of, source_of};
ghost use Rattle.module_slots.specs.Slots.{is_pending, is_asset_slot};
ghost use Rattle.import_records.specs.Importing.{importing, is_told_importer};

use crate::services::Services;
use crate::slot_maker::{SlotMaker, failed, unparsed};
use crate::source::{Source, source_media, text_of, types_header};
use crate::wasm::wasm_slot;
use graph_dependencies::GraphKind;
use graph_errors::{DecodeError, ModuleErrorKind, ModuleLoadError};
use import_records::{Importer, Targets};
use media_types::{DecodeFault, Headers, MediaType, ModuleTextSource};
use module_info::ModuleInfo;
use module_slots::{JsModule, JsonModule, LoadContext, Module, ModuleSlot, attribute_type};
use source_io::{JsrUrlProvider, Resolver};
use spec_base::{Boxed, Bytes, ModuleSpecifier, Range, Refusal, Text};
use std::alloc::{AllocError, Global};

/// A source, what tells the imports of its text and where they lead, and what its graph holds.
#[derive(Drop)]
pub struct MakeInput<'a, S: Services> {
    pub analyzer: &'a S::Analyze,
    /// What tells the files that templates can mean.
    pub tree: &'a S::Tree,
    /// What tells which URLs name versions of packages.
    pub urls: &'a S::Urls,
    pub resolver: Option<&'a S::Resolve>,
    /// Which part of its modules the graph holds.
    pub kind: GraphKind,
    /// Whether dynamic dependencies are left as they are.
    pub skip_dynamic_deps: bool,
    /// Whether modules are made under the attributes `yaml`, `toml`, `json5` and `jsonc`.
    pub unstable_config_imports: bool,
    /// What the source is named.
    pub specifier: ModuleSpecifier,
    pub content: Bytes,
    /// The headers that came with the content.
    pub maybe_headers: Option<Headers>,
    /// When it was last changed, in milliseconds since 1970, where that is known.
    pub mtime: Option<u64>,
    /// The info of the content, where it is known without reading it.
    pub info: Option<ModuleInfo>,
}

// What a script is made of beside its text and its info.
#[derive(Drop)]
struct ScriptParts<'a> {
    kind: GraphKind,
    skip_dynamic_deps: bool,
    // The header that names the module of the module's types.
    header: Option<&'a str>,
    mtime: Option<u64>,
}

// The slot of a source that has no text.
pub(crate) fn undecoded(
    alloc: Global,
    specifier: ModuleSpecifier,
    mtime: Option<u64>,
    err: DecodeFault,
) -> Result<ModuleSlot, AllocError>
    ensures { IfOk result (λ slot. slot ≡ undecoded_slot specifier mtime err) }
{
    failed(
        alloc,
        ModuleErrorKind::Load {
            specifier,
            maybe_referrer: None,
            err: ModuleLoadError::Decode(DecodeError { mtime, err }),
        },
    )
}

// Whether scripts of this media are taken.
fn is_supported_media(specifier: &ModuleSpecifier, media_type: MediaType) -> bool
    ensures { result ≡ is_supported_media specifier.now media_type }
{
    match media_type {
        MediaType::Cjs | MediaType::Cts => specifier.scheme() == "file",
        _ => media_type.is_script(),
    }
}

// The slot of a text with an info.
fn script_of<U: JsrUrlProvider, R: Resolver>(
    importer: &Importer<'_, U, R>,
    parts: &ScriptParts<'_>,
    source: ModuleTextSource,
    info: &ModuleInfo,
) -> Result<ModuleSlot, AllocError>
    ensures told { is_told_importer R.is_told importer.now ≡ true
        → IfOk result
        (λ slot. slot
        ≡ by_info (importing U.meaning R.meaning importer.now) parts.now.kind
        parts.now.skip_dynamic_deps (option_copied parts.now.header) parts.now.mtime
        source (Ok info.now)) }
    ensures settled { IfOk result (λ slot. is_pending slot ≡ false) }
    ensures inside { IfOk result (λ slot. is_asset_slot slot ≡ false) }
{
    let maybe_types_dependency = importer.types_dependency(info, parts.header)?;
    let maybe_source_map_dependency = importer.source_map_dependency(info)?;
    let dependencies = importer.kept_dependencies(
        info,
        parts.kind,
        parts.skip_dynamic_deps,
        &maybe_types_dependency,
    )?;
    let specifier = importer.specifier.clone()?;
    Ok(ModuleSlot::Module(Module::Js(JsModule {
        is_script: info.is_script,
        dependencies,
        maybe_cache_info: None,
        source,
        maybe_types_dependency,
        maybe_source_map_dependency,
        media_type: importer.media,
        specifier,
        mtime: parts.mtime,
        fast_check: None,
    })))
}

// The slot of a text whose info is given, or which is still to be analyzed.
fn analyzed<S: Services>(
    maker: &SlotMaker<'_, S>,
    importer: &Importer<'_, S::Urls, S::Resolve>,
    parts: &ScriptParts<'_>,
    source: ModuleTextSource,
    given: Option<Boxed<ModuleInfo>>,
) -> Result<ModuleSlot, AllocError>
    ensures told { is_told_importer S.Resolve.is_told importer.now ≡ true
        → IfSome (S.Analyze.infos maker.now.analyzer.now)
        (λ infos. IfOk result
        (λ slot. slot
        ≡ by_info (importing S.Urls.meaning S.Resolve.meaning importer.now)
        parts.now.kind parts.now.skip_dynamic_deps (option_copied parts.now.header)
        parts.now.mtime source
        (told_info infos (S.Tree.paths maker.now.tree.now) given
        importer.now.specifier.now source.text importer.now.media))) }
    ensures settled { IfOk result (λ slot. is_pending slot ≡ false) }
    ensures inside { IfOk result (λ slot. is_asset_slot slot ≡ false) }
{
    let text = source.text.as_str();
    match maker.info_of(given, importer.specifier, text, importer.media) {
        Ok(info) => script_of(importer, parts, source, &info),
        Err(Refusal::Memory) => Err(AllocError),
        Err(Refusal::Is(diagnostic)) => {
            let specifier = importer.specifier.clone()?;
            unparsed(maker.alloc, specifier, parts.mtime, diagnostic)
        }
    }
}

// The slot of a source as a script of a media type, by its text.
fn script_with<S: Services>(
    maker: &SlotMaker<'_, S>,
    name: &ModuleSpecifier,
    parts: &ScriptParts<'_>,
    media: MediaType,
    text: ModuleTextSource,
    info: Option<Boxed<ModuleInfo>>,
) -> Result<ModuleSlot, AllocError>
    ensures told { WhereMade S.Analyze.infos S.Tree.paths S.Urls.meaning S.Resolve.is_told
        S.Resolve.meaning maker.now
        (λ making. IfOk result
        (λ slot. slot
        ≡ by_info (importing_at making name.now media) parts.now.kind
        parts.now.skip_dynamic_deps (option_copied parts.now.header) parts.now.mtime
        text (told_info making.infos making.paths info name.now text.text media))) }
    ensures settled { IfOk result (λ slot. is_pending slot ≡ false) }
    ensures inside { IfOk result (λ slot. is_asset_slot slot ≡ false) }
{
    let importer = Importer {
        targets: Targets {
            alloc: maker.alloc,
            urls: maker.urls,
            resolver: maker.resolver,
        },
        media,
        with_types: maker.kind.include_types(),
        specifier: name,
    };
    analyzed(maker, &importer, parts, text, info)
}

// The slot of a source as a script of a media type.
fn script_slot<S: Services>(
    maker: &SlotMaker<'_, S>,
    source: Source,
    media: MediaType,
) -> Result<ModuleSlot, AllocError>
    ensures told { WhereMade S.Analyze.infos S.Tree.paths S.Urls.meaning S.Resolve.is_told
        S.Resolve.meaning maker.now
        (λ making. IfOk result (λ slot. slot ≡ script_by making source media (text_in source))) }
    ensures settled { IfOk result (λ slot. is_pending slot ≡ false) }
    ensures inside { IfOk result (λ slot. is_asset_slot slot ≡ false) }
{
    let Source {
        name,
        content,
        headers,
        mtime,
        info,
    } = source;
    match text_of(maker.alloc, &name, &headers, content) {
        Ok(text) => {
            let parts = ScriptParts {
                kind: maker.kind,
                skip_dynamic_deps: maker.skip_dynamic_deps,
                header: types_header(&headers),
                mtime,
            };
            script_with(maker, &name, &parts, media, text, info)
        }
        Err(Refusal::Memory) => Err(AllocError),
        Err(Refusal::Is(err)) => undecoded(maker.alloc, name, mtime, err),
    }
}

// The slot of a source as a JSON text.
fn json_slot(alloc: Global, source: Source) -> Result<ModuleSlot, AllocError>
    ensures made { IfOk result (λ slot. slot ≡ json_by source (text_in source)) }
    ensures settled { IfOk result (λ slot. is_pending slot ≡ false) }
    ensures inside { IfOk result (λ slot. is_asset_slot slot ≡ false) }
{
    let Source {
        name,
        content,
        headers,
        mtime,
        info: _,
    } = source;
    match text_of(alloc, &name, &headers, content) {
        Ok(text) => Ok(ModuleSlot::Module(Module::Json(JsonModule {
            specifier: name,
            maybe_cache_info: None,
            source: text,
            mtime,
            media_type: MediaType::Json,
        }))),
        Err(Refusal::Memory) => Err(AllocError),
        Err(Refusal::Is(err)) => undecoded(alloc, name, mtime, err),
    }
}

// The slot of a source whose media type isn't taken.
fn refused_slot(
    alloc: Global,
    specifier: ModuleSpecifier,
    media_type: MediaType,
    context: &LoadContext,
) -> Result<ModuleSlot, AllocError>
    ensures { IfOk result (λ slot. slot ≡ refused_slot specifier media_type context.now) }
{
    let maybe_referrer = context.range.clone()?;
    failed(
        alloc,
        ModuleErrorKind::UnsupportedMediaType {
            specifier,
            media_type,
            maybe_referrer,
        },
    )
}

// Whether JSON is taken where no attribute names it.
fn takes_json(context: &LoadContext) -> bool
    ensures { result ≡ takes_json context.now }
{
    context.is_root || context.is_dynamic
}

// The slot of a source where no attribute decides.
#[tactic(auto, using(crate::proofs::MadeLemmas::whatever_is_told))]
fn plain_slot<S: Services>(
    maker: &SlotMaker<'_, S>,
    source: Source,
    media: MediaType,
    context: &LoadContext,
) -> Result<ModuleSlot, AllocError>
    ensures told { WhereMade S.Analyze.infos S.Tree.paths S.Urls.meaning S.Resolve.is_told
        S.Resolve.meaning maker.now
        (λ making. IfOk result (λ slot. slot ≡ plain_slot making source media context.now)) }
    ensures settled { IfOk result (λ slot. is_pending slot ≡ false) }
    ensures inside { IfOk result (λ slot. is_asset_slot slot ≡ false) }
{
    if media == MediaType::Json && takes_json(context) {
        json_slot(maker.alloc, source)
    } else if is_supported_media(&source.name, media) {
        script_slot(maker, source, media)
    } else if media == MediaType::Wasm {
        wasm_slot(maker, source)
    } else {
        refused_slot(maker.alloc, source.name, media, context)
    }
}

// The slot of a source under the attribute `json` of an import.
fn asserted_slot(
    alloc: Global,
    source: Source,
    media: MediaType,
    range: &Range,
) -> Result<ModuleSlot, AllocError>
    ensures made { IfOk result (λ slot. slot ≡ asserted_slot source media range.now) }
    ensures settled { IfOk result (λ slot. is_pending slot ≡ false) }
    ensures inside { IfOk result (λ slot. is_asset_slot slot ≡ false) }
{
    if media == MediaType::Json {
        return json_slot(alloc, source);
    }
    let referrer = range.try_clone()?;
    failed(
        alloc,
        ModuleErrorKind::InvalidTypeAssertion {
            specifier: source.name,
            referrer,
            actual_media_type: media,
            expected_media_type: MediaType::Json,
        },
    )
}

// The slot of a source under an attribute under which no module is made.
fn unsupported_slot(
    alloc: Global,
    specifier: ModuleSpecifier,
    kind: &Text,
    range: &Range,
) -> Result<ModuleSlot, AllocError>
    ensures made { IfOk result (λ slot. slot ≡ unsupported_slot specifier kind.now range.now) }
    ensures settled { IfOk result (λ slot. is_pending slot ≡ false) }
    ensures inside { IfOk result (λ slot. is_asset_slot slot ≡ false) }
{
    let referrer = range.try_clone()?;
    let kind = kind.try_clone()?;
    failed(
        alloc,
        ModuleErrorKind::UnsupportedImportAttributeType {
            specifier,
            referrer,
            kind,
        },
    )
}

// Whether modules are made under an attribute as under none.
#[tactic(auto, unfolding(crate::specs::Made::is_plain_type))]
fn is_plain_type(config: bool, kind: &str) -> bool
    ensures { result ≡ is_plain_type config kind.now }
{
    match kind {
        "text" | "bytes" => true,
        "yaml" | "toml" | "json5" | "jsonc" => config,
        _ => false,
    }
}

// The slot of a source by the attribute of the import.
#[tactic(auto, using(crate::proofs::MadeLemmas::whatever_is_told))]
fn slot_by_attribute<S: Services>(
    maker: &SlotMaker<'_, S>,
    source: Source,
    media: MediaType,
    context: &LoadContext,
) -> Result<ModuleSlot, AllocError>
    ensures told { WhereMade S.Analyze.infos S.Tree.paths S.Urls.meaning S.Resolve.is_told
        S.Resolve.meaning maker.now
        (λ making. IfOk result
        (λ slot. slot ≡ by_attribute making source media context.now context.now.attribute)) }
    ensures settled { IfOk result (λ slot. is_pending slot ≡ false) }
    ensures inside { IfOk result (λ slot. is_asset_slot slot ≡ false) }
{
    match &context.attribute {
        None => plain_slot(maker, source, media, context),
        Some(attribute) => {
            let attribute = attribute.get();
            if attribute.0.as_str() == "json" {
                asserted_slot(maker.alloc, source, media, &attribute.1)
            } else if is_plain_type(maker.unstable_config_imports, attribute.0.as_str()) {
                plain_slot(maker, source, media, context)
            } else {
                unsupported_slot(maker.alloc, source.name, &attribute.0, &attribute.1)
            }
        }
    }
}

/// Whether a module of this media type is taken in the source phase under an attribute: WebAssembly without
/// one alone.
pub fn suits_source_phase(media: MediaType, attribute: &Option<Boxed<(Text, Range)>>) -> bool
    ensures { result ≡ suits_source_phase media attribute.now }
{
    matches!(media, MediaType::Wasm) && attribute.is_none()
}

// The slot of a source that isn't taken in the source phase.
fn unphased_slot(
    alloc: Global,
    specifier: ModuleSpecifier,
    media: MediaType,
    context: &LoadContext,
    range: &Range,
) -> Result<ModuleSlot, AllocError>
    ensures made { IfOk result
        (λ slot. slot ≡ unphased_slot specifier media context.now range.now) }
    ensures settled { IfOk result (λ slot. is_pending slot ≡ false) }
    ensures inside { IfOk result (λ slot. is_asset_slot slot ≡ false) }
{
    let referrer = range.try_clone()?;
    let actual_attribute_type = attribute_type(&context.attribute)?;
    failed(
        alloc,
        ModuleErrorKind::UnsupportedModuleTypeForSourcePhaseImport {
            specifier,
            referrer,
            actual_media_type: media,
            actual_attribute_type,
        },
    )
}

// The slot of a source by the import in the source phase, where there is one.
#[tactic(auto, using(crate::proofs::MadeLemmas::whatever_is_told))]
fn slot_by_phase<S: Services>(
    maker: &SlotMaker<'_, S>,
    source: Source,
    media: MediaType,
    context: &LoadContext,
) -> Result<ModuleSlot, AllocError>
    ensures told { WhereMade S.Analyze.infos S.Tree.paths S.Urls.meaning S.Resolve.is_told
        S.Resolve.meaning maker.now
        (λ making. IfOk result
        (λ slot. slot ≡ by_phase making source media context.now context.now.source_phase)) }
    ensures settled { IfOk result (λ slot. is_pending slot ≡ false) }
    ensures inside { IfOk result (λ slot. is_asset_slot slot ≡ false) }
{
    match &context.source_phase {
        Some(range) if !suits_source_phase(media, &context.attribute) => {
            unphased_slot(maker.alloc, source.name, media, context, range.get())
        }
        _ => slot_by_attribute(maker, source, media, context),
    }
}

// Unknown media at a root goes on as JavaScript.
fn at_root(is_root: bool, media_type: MediaType) -> MediaType
    ensures { result ≡ at_root is_root media_type }
{
    match media_type {
        MediaType::Unknown if is_root => MediaType::JavaScript,
        _ => media_type,
    }
}

#[tactic(auto, unfolding(crate::specs::Made::made_slot))]
fn made_of<S: Services>(
    maker: &SlotMaker<'_, S>,
    source: Source,
    context: &LoadContext,
) -> Result<ModuleSlot, AllocError>
    ensures told { WhereMade S.Analyze.infos S.Tree.paths S.Urls.meaning S.Resolve.is_told
        S.Resolve.meaning maker.now
        (λ making. IfOk result (λ slot. slot ≡ made_slot making source context.now)) }
    ensures settled { IfOk result (λ slot. is_pending slot ≡ false) }
    ensures inside { IfOk result (λ slot. is_asset_slot slot ≡ false) }
{
    let media = at_root(context.is_root, source_media(&source));
    slot_by_phase(maker, source, media, context)
}

fn boxed(alloc: Global, info: Option<ModuleInfo>) -> Result<Option<Boxed<ModuleInfo>>, AllocError>
    ensures { IfOk result (λ b. b ≡ info) }
{
    match info {
        None => Ok(None),
        Some(info) => {
            let boxed = Boxed::new(alloc, info)?;
            Ok(Some(boxed))
        }
    }
}

/// The module or the error that a source makes, loaded under a context. By the first of these rules: what is imported in the
/// source phase and isn't WebAssembly without an attribute is an error; an attribute `type` other than `json`, `text`, `bytes`
/// and, where those of configurations are allowed, `yaml`, `toml`, `json5` and `jsonc` is an error; JSON at a root, where the
/// load's flag says that an import is dynamic, or under the attribute `json` is a module as it is; other media under the
/// attribute `json` is an error; scripts of the eleven media types are analyzed, those of CommonJS from `file:` alone; of
/// WebAssembly the declaration of its imports and exports is analyzed, as a file of TypeScript declarations; every other media
/// is an error. Unknown media at a root goes on as JavaScript. Bytes that have no text, those that are no WebAssembly module of
/// the form that is read, and a text that the analyzer refuses are errors too. A dynamic import of a template counts as those of
/// the texts that it stands for in the tree. An info that is given stands in the place of the analysis; then the declaration of
/// WebAssembly is the empty one, and its bytes aren't read. No slot that is made is pending, or a module outside of the graph. The only refusal is want of memory.
#[tactic(auto, using(crate::proofs::ToldLemmas::when_making))]
pub fn make_slot<S: Services>(
    alloc: Global,
    input: MakeInput<'_, S>,
    context: &LoadContext,
) -> Result<ModuleSlot, AllocError>
    ensures made { IfSome
        (making_of S.Analyze.infos S.Tree.paths S.Urls.meaning S.Resolve.is_told S.Resolve.meaning
        input.entry)
        (λ making.
        IfOk result (λ slot. slot ≡ made_slot making (source_of input.entry) context.now)) }
    ensures settled { IfOk result (λ slot. is_pending slot ≡ false) }
    ensures inside { IfOk result (λ slot. is_asset_slot slot ≡ false) }
{
    let MakeInput {
        analyzer,
        tree,
        urls,
        resolver,
        kind,
        skip_dynamic_deps,
        unstable_config_imports,
        specifier,
        content,
        maybe_headers,
        mtime,
        info,
    } = input;
    let info = boxed(alloc, info)?;
    let maker: SlotMaker<'_, S> = SlotMaker {
        alloc,
        analyzer,
        tree,
        urls,
        resolver,
        kind,
        skip_dynamic_deps,
        unstable_config_imports,
    };
    let source = Source {
        name: specifier,
        content,
        headers: maybe_headers,
        mtime,
        info,
    };
    made_of(&maker, source, context)
}
