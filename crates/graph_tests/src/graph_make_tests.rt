// Slots that are made in ways that no build shows: of infos that are given, by a resolver that tells where types are named, of roots with an
// attribute or in the source phase; and what an analyzer is asked of a module of WebAssembly.
use crate::graph_few_texts::FewTexts;
use crate::graph_shown::{dependencies_text, first_line, target};
use crate::specifiers::url;
use build_reports::{NullModuleInfoCacher, NullReporter};
use file_tree::MemoryTree;
use graph_core::{
    GraphKind, JsModule, LoadContext, Module, ModuleSlot, TypesDependency, WasmModule,
};
use json_forms::info_from_json;
use media_types::MediaType;
use module_info::{ModuleAnalyzer, ModuleInfo};
use npm_resolver::TableNpmResolver;
use serde_json::Value;
use slot_making::{MakeInput, Services, make_slot};
use source_io::{DefaultJsrUrlProvider, HashMapLocker};
use spec_base::{Boxed, Bytes, Fault, ModuleSpecifier, PositionRange, Range, Refusal, Text};
use std::alloc::Global;
use std::test::Fail;

// The module that exports a memory under the name `a`.
const MEMORY: &[u8] = b"\x00asm\x01\x00\x00\x00\x07\x05\x01\x01a\x02\x00";

// An analyzer that takes the declaration of that module alone, and only as a file of declarations.
struct OfDeclaration;

impl ModuleAnalyzer for OfDeclaration {
    ghost use Rattle.std.specs.Prelude.{None};

    ghost infos = { λ _. None };

    fn analyze(
        &self,
        alloc: Global,
        _specifier: &ModuleSpecifier,
        source: &str,
        media_type: MediaType,
    ) -> Result<ModuleInfo, Refusal<Fault>> {
        if media_type == MediaType::Dmts
            && source == "export declare const a: WebAssembly.Memory;\n"
        {
            return Ok(ModuleInfo::empty(alloc));
        }
        let class = Text::from_str(alloc, "TypeError")?;
        let message = Text::from_str(alloc, "not analyzed")?;
        Err(Refusal::Is(Fault { class, message }))
    }
}

struct Making;

impl Services for Making {
    type Lock = HashMapLocker;

    type Tree = MemoryTree;

    type Urls = DefaultJsrUrlProvider;

    type Analyze = OfDeclaration;

    type Resolve = FewTexts;

    type Npm = TableNpmResolver;

    type Cache = NullModuleInfoCacher;

    type Report = NullReporter;
}

// A tree of one file.
fn tree(alloc: Global) -> Result<MemoryTree, Fail> {
    let mut paths = Vec::new(alloc);
    paths.push(String::from_str(alloc, "/a/x/b.ts")?)?;
    Ok(MemoryTree::new(paths))
}

// The info of a JSON, or none of an empty text.
fn info_of(alloc: Global, json: &str) -> Result<Option<ModuleInfo>, Fail> {
    if json.is_empty() {
        return Ok(None);
    }
    let value = Value::from_slice(alloc, json.as_bytes())?;
    match info_from_json(alloc, &value) {
        Ok(info) => Ok(Some(info)),
        Err(_) => Err(Fail::new("no info")),
    }
}

// Where an import stands that says something of a source.
fn place(alloc: Global) -> Result<Range, Fail> {
    Ok(Range {
        specifier: url(alloc, "file:///r.js")?,
        range: PositionRange::zeroed(),
        resolution_mode: None,
    })
}

fn attribute(alloc: Global, kind: &str) -> Result<Option<Boxed<(Text, Range)>>, Fail> {
    if kind.is_empty() {
        return Ok(None);
    }
    let value = Text::from_str(alloc, kind)?;
    let attribute = Boxed::new(alloc, (value, place(alloc)?))?;
    Ok(Some(attribute))
}

fn source_phase(alloc: Global, is_phased: bool) -> Result<Option<Boxed<Range>>, Fail> {
    if !is_phased {
        return Ok(None);
    }
    let place = Boxed::new(alloc, place(alloc)?)?;
    Ok(Some(place))
}

// The context of a root or of an import (`imported`), and behind it `phased` where that is in the source phase, else the attribute.
fn context(alloc: Global, how: &str) -> Result<LoadContext, Fail> {
    let (met, kind) = how.split_once(" ").unwrap_or((how, ""));
    let is_phased = kind == "phased";
    let source_phase = source_phase(alloc, is_phased)?;
    let attribute = attribute(alloc, if is_phased { "" } else { kind })?;
    Ok(LoadContext {
        attribute,
        asset: false,
        source_phase,
        range: None,
        in_dynamic_phase: false,
        is_dynamic: false,
        is_root: met == "root",
        hops: 0,
        package: None,
    })
}

// What some bytes and an info make.
fn made(
    alloc: Global,
    name: &str,
    content: &[u8],
    info: &str,
    how: &str,
) -> Result<ModuleSlot, Fail> {
    let context = context(alloc, how)?;
    let specifier = url(alloc, name)?;
    let content = Bytes::from_slice(alloc, content)?;
    let info = info_of(alloc, info)?;
    let urls = DefaultJsrUrlProvider::new(alloc)?;
    let tree = tree(alloc)?;
    let input: MakeInput<'_, Making> = MakeInput {
        analyzer: &OfDeclaration,
        tree: &tree,
        urls: &urls,
        resolver: Some(&FewTexts),
        kind: GraphKind::All,
        skip_dynamic_deps: false,
        unstable_config_imports: false,
        specifier,
        content,
        maybe_headers: None,
        mtime: None,
        info,
    };
    Ok(make_slot(alloc, input, &context)?)
}

fn is_wasm(slot: &ModuleSlot) -> bool {
    matches!(slot, ModuleSlot::Module(Module::Wasm(_)))
}

// As a script the same bytes are a text, since each is below 0x80; the analyzer refuses it, for it is no declaration.
#[test]
fn a_declaration_is_analyzed(rt: HostRuntime) -> Result<(), Fail> {
    let slot = made(rt.alloc(), "file:///m.wasm", MEMORY, "", "root ")?;
    assert!(rt; is_wasm(&slot));
    let slot = made(rt.alloc(), "file:///m.js", MEMORY, "", "root ")?;
    assert!(rt; !is_wasm(&slot));
    Ok(())
}

// Each line: a name, an info that is given, the context, and what no bytes make so.
const MADE: &str =
    r#"file:///a/m.ts | {"dependencies":[{"type":"static","kind":"import","specifier":"./b.ts","specifierRange":[[0,7],[0,15]]},{"type":"static","kind":"import","specifier":"./c.ts","specifierRange":[[0,31],[0,39]],"typesSpecifier":{"text":"./c.d.ts","range":[[0,31],[0,41]]}}]} | root  | ./b.ts Es import file:///a/b.ts - - 1; ./c.ts Es import file:///a/c.ts file:///a/c.d.ts ./c.d.ts 1
file:///a/typed.js | {} | root  | types file:///a/typed.js file:///types.d.ts at file:///types.d.ts:1:1
file:///a/ranged.js | {} | root  | types file:///a/ranged.js file:///types.d.ts at file:///ranges.json:6:8
file:///a/refused.js | {} | root  | types file:///a/refused.js Refused at file:///a/refused.js:1:1
file:///a/m |  | root phased | Importing JavaScript modules at source phase is unsupported.
file:///a/m.json |  | root text | json of 0 bytes
file:///a/m.json |  | root css | The import attribute type of "css" is unsupported.
file:///a/m.js | {"dependencies":[{"type":"dynamic","kind":"import","argument":[{"type":"string","value":"./"},{"type":"expr"}],"argumentRange":[[0,1],[0,2]]}]} | root  | ./x/b.ts Es import file:///a/x/b.ts - - 1 dynamic
file:///a/m.wasm | {"dependencies":[{"type":"static","kind":"import","specifier":"./b.ts","specifierRange":[[0,7],[0,15]]},{"type":"dynamic","kind":"import","argument":"./c.ts","argumentRange":[[0,24],[0,32]]}]} | root  | wasm of 0 bytes; ./b.ts Es import file:///a/b.ts - - 1; ./c.ts Es import file:///a/c.ts - - 1 dynamic
file:///a/m.wasm | {"dependencies":[{"type":"static","kind":"import","specifier":"./b.ts","specifierRange":[[0,7],[0,15]]}]} | imported css | The import attribute type of "css" is unsupported."#;

// Adds where the types of a module stand, and where they are named.
fn put_types(alloc: Global, text: &mut String, types: &TypesDependency) -> Result<(), Fail> {
    let target = target(alloc, &types.dependency)?;
    let shown = format!(in alloc; "types {} {target}", types.specifier)?;
    text.push_str(shown.as_str())?;
    if let Some(range) = types.dependency.maybe_range() {
        let range = format!(in alloc; " at {range}")?;
        text.push_str(range.as_str())?;
    }
    Ok(())
}

fn script_text(alloc: Global, script: &JsModule) -> Result<String, Fail> {
    let mut text = dependencies_text(alloc, &script.dependencies)?;
    if let Some(types) = &script.maybe_types_dependency {
        put_types(alloc, &mut text, types)?;
    }
    Ok(text)
}

fn wasm_text(alloc: Global, wasm: &WasmModule) -> Result<String, Fail> {
    let text = dependencies_text(alloc, &wasm.dependencies)?;
    Ok(format!(in alloc; "wasm of {} bytes; {text}", wasm.size())?)
}

fn slot_text(alloc: Global, slot: &ModuleSlot) -> Result<String, Fail> {
    match slot {
        ModuleSlot::Module(Module::Js(script)) => script_text(alloc, script),
        ModuleSlot::Module(Module::Wasm(wasm)) => wasm_text(alloc, wasm),
        ModuleSlot::Module(Module::Json(json)) => {
            Ok(format!(in alloc; "json of {} bytes", json.size())?)
        }
        ModuleSlot::Err(error) => first_line(alloc, error),
        _ => Err(Fail::new("another slot")),
    }
}

fn makes(alloc: Global, row: &str) -> Result<bool, Fail> {
    let (name, rest) = row.split_once(" | ").unwrap_or(("", ""));
    let (info, rest) = rest.split_once(" | ").unwrap_or(("", ""));
    let (how, wanted) = rest.split_once(" | ").unwrap_or(("", ""));
    let slot = Boxed::new(alloc, made(alloc, name, b"", info, how)?)?;
    let text = slot_text(alloc, slot.get())?;
    Ok(text.as_str() == wanted)
}

#[test]
fn made_of_what_is_given(rt: HostRuntime) -> Result<(), Fail> {
    for row in MADE.lines() {
        if !makes(rt.alloc(), row)? {
            return Err(Fail::new(row));
        }
    }
    Ok(())
}
