// What a world file stands for, read from its bytes.
ghost use Rattle.std.specs.Prelude.{◌≡◌, IfOk, Some};
ghost use Rattle.serde_json.specs.View.{view};
ghost use Rattle.json_documents.specs.Documents as documents;
ghost use Rattle.json_forms.specs.Member.{has_names};
ghost use Rattle.spec_base.specs.Refusal.{Reads};
ghost use Rattle.world_answers.specs.WorldAnswers.{answers_in};
ghost use Rattle.world_file.specs.WorldFile.{source_members, entry_members, has_members, input, whole_input, world_by, world_in, world_of, IsReadAs, IsValueOf};

use crate::known_specifiers::read_roots;
use crate::limits::{Limits, read_limits};
use crate::settings::{Settings, read_settings};
use crate::world_cache::{copies, read_paths};
use crate::world_imports::{read_imports, read_kind};
use crate::world_infos::{InfoEntry, analyses, read_infos};
use crate::world_npm::{npm_copied, read_npm};
use crate::world_registry::{RegistrySettings, read_registry};
use crate::world_resolutions::{ResolverParts, read_resolver_parts};
use crate::world_sums::{WorldSums, known_in, read_sums};
use crate::world_tree::read_tree;
use graph_dependencies::{GraphKind, ReferrerImports};
use json_documents::{Document, Json, Scratch};
use json_forms::{Misfit, has_names, is_whole, required};
use npm_resolver::NpmTable;
use serde_json::Value;
use simdutf8::basic::from_utf8;
use source_io::{Answer, Purpose, World};
use spec_base::{Bytes, Items, ModuleSpecifier, Refusal, Text};
use std::alloc::{AllocError, Global};
use thiserror::Error;
use world_answers::read_answers;

/// What a world file stands for: the roots of a build, what else the graph begins with, the world that
/// loader, analyzer, resolver, tree of files and locker tell, how the loader answers, where packages are, and what npm answers.
#[derive(Debug, Drop)]
pub struct Input {
    pub roots: Items<ModuleSpecifier>,
    /// What configurations import, beside the roots.
    pub imports: Items<ReferrerImports>,
    /// Which part of its modules the graph holds.
    pub kind: GraphKind,
    pub world: World,
    /// Which open question each call of the loader answers, as `WorldLoader` takes it.
    pub arrival: Items<u64>,
    /// The loader's calls that fail, counted from 1.
    pub fail_next: Items<u64>,
    /// How many questions the build may put.
    pub max_loads: u64,
    pub settings: Settings,
    pub registry: RegistrySettings,
    /// What npm answers, where the build has a resolver of its packages.
    pub npm: Option<NpmTable>,
}

impl Input {
    /// A copy. The only refusal is want of memory.
    pub fn try_clone(&self) -> Result<Input, AllocError>
        ensures { IfOk result (λ copy. copy ≡ self.now) }
    {
        let roots = self.roots.try_clone()?;
        let imports = self.imports.try_clone()?;
        let arrival = self.arrival.try_clone()?;
        let fail_next = self.fail_next.try_clone()?;
        let world = self.world.try_clone()?;
        let settings = self.settings.try_clone()?;
        let registry = self.registry.try_clone()?;
        let npm = npm_copied(&self.npm)?;
        Ok(Input {
            roots,
            imports,
            kind: self.kind,
            world,
            arrival,
            fail_next,
            max_loads: self.max_loads,
            settings,
            registry,
            npm,
        })
    }
}

/// The bytes are no world file.
#[derive(Debug, Drop, Error)]
#[error("not a world file")]
pub struct NotAWorld;

/// The input that some bytes are, where they are a world file of version 1 or 2 (JSON, RFC 8259, in UTF-8
/// without a mark). Of both the world's answers are in the order of their specifiers' texts, and then of purposes. `Is` comes
/// exactly where they aren't.
pub fn world_of(alloc: Global, bytes: &[u8]) -> Result<Input, Refusal<NotAWorld>>
    ensures { Reads result (world_of bytes.now) }
{
    let Ok(text) = from_utf8(bytes) else {
        return Err(Refusal::Is(NotAWorld));
    };
    let mut scratch = Scratch::new(alloc);
    let document = match Document::read_whole(alloc, text, &mut scratch) {
        Ok(Some(document)) => document,
        Ok(None) => return world_by_copy(alloc, bytes),
        Err(Refusal::Memory) => return Err(Refusal::Memory),
        Err(Refusal::Is(_)) => return Err(Refusal::Is(NotAWorld)),
    };
    as_world(read_input(alloc, &document.root()))
}

/// As `world_of`; the bytes are given back once they are read through.
pub fn world_of_own(alloc: Global, bytes: Bytes) -> Result<Input, Refusal<NotAWorld>>
    ensures { Reads result (world_of bytes) }
{
    world_of(alloc, bytes.as_slice())
}

// What was read, or that it is no world.
fn as_world(found: Result<Input, Refusal<Misfit>>) -> Result<Input, Refusal<NotAWorld>>
    ensures { IsReadAs found result }
{
    match found {
        Ok(input) => Ok(input),
        Err(Refusal::Memory) => Err(Refusal::Memory),
        Err(Refusal::Is(_)) => Err(Refusal::Is(NotAWorld)),
    }
}

// The same where numbers aren't whole: those of members in whose place later ones of their names count are left out.
fn world_by_copy(alloc: Global, bytes: &[u8]) -> Result<Input, Refusal<NotAWorld>>
    ensures { Reads result (world_of bytes.now) }
{
    let value = value_of(alloc, bytes)?;
    as_world(input_of(alloc, &value))
}

// The JSON value that some bytes are.
fn value_of(alloc: Global, bytes: &[u8]) -> Result<Value, Refusal<NotAWorld>>
    ensures { IsValueOf result (world_of bytes.now) }
{
    match Value::from_slice(alloc, bytes) {
        Ok(value) => Ok(value),
        Err(error) => if error.is_memory() {
            Err(Refusal::Memory)
        } else {
            Err(Refusal::Is(NotAWorld))
        },
    }
}

/// The input that a JSON value is, where it is that of a world file. `Misfit` comes exactly where it isn't.
pub fn input_of(alloc: Global, value: &Value) -> Result<Input, Refusal<Misfit>>
    ensures { Reads result (whole_input (view value.now)) }
{
    if !is_whole(value) {
        return Err(Refusal::Is(Misfit));
    }
    read_input(alloc, &Json::Owned(value))
}

// Whether each member is one that a file of version 1 may have.
fn has_source_members(value: &Json<'_, '_>) -> bool
    ensures { result ≡ has_names source_members (documents.view value.now) }
{
    has_names(
        value,
        &[
            "version",
            "sources",
            "reload",
            "cached",
            "roots",
            "infos",
            "max_redirects",
            "max_loads",
            "arrival",
            "fail_next",
            "kind",
            "imports",
            "resolutions",
            "types",
            "jsx",
            "verify",
            "locker",
            "is_dynamic",
            "skip_dynamic_deps",
            "bytes",
            "css",
            "config",
            "prefer_cached_jsr",
            "registry",
            "passthrough_jsr",
            "newest",
            "tree",
            "npm",
            "cache_info",
        ],
    )
}

// Whether each member is one that a file of version 2 may have.
fn has_entry_members(value: &Json<'_, '_>) -> bool
    ensures { result ≡ has_names entry_members (documents.view value.now) }
{
    has_names(
        value,
        &[
            "version",
            "answers",
            "roots",
            "infos",
            "max_redirects",
            "max_loads",
            "arrival",
            "fail_next",
            "kind",
            "imports",
            "resolutions",
            "types",
            "jsx",
            "verify",
            "locker",
            "is_dynamic",
            "skip_dynamic_deps",
            "bytes",
            "css",
            "config",
            "prefer_cached_jsr",
            "registry",
            "passthrough_jsr",
            "newest",
            "tree",
            "npm",
            "cache_info",
        ],
    )
}

// Whether each member is one that a file of this version may have. There is no other version than 1 and 2.
fn has_members(version: u64, value: &Json<'_, '_>) -> bool
    ensures { result ≡ has_members version (documents.view value.now) }
{
    match version {
        1 => has_source_members(value),
        2 => has_entry_members(value),
        _ => false,
    }
}

#[tactic(auto, using(crate::proofs::InputLemmas::without_answers))]
fn read_input(alloc: Global, value: &Json<'_, '_>) -> Result<Input, Refusal<Misfit>>
    ensures { Reads result (input (documents.view value.now)) }
{
    let version: u64 = required(alloc, value, "version")?;
    if !has_members(version, value) {
        return Err(Refusal::Is(Misfit));
    }
    // First, since most specifiers of the other members are those of answers, and then needn't be parsed.
    let answers = read_answers(alloc, value, version)?;
    let roots = read_roots(alloc, value, answers.as_slice())?;
    let imports = read_imports(alloc, value)?;
    let kind = read_kind(value)?;
    let limits = read_limits(alloc, value)?;
    let sums = read_sums(alloc, value, answers.as_slice())?;
    let settings = read_settings(alloc, value, &sums)?;
    let registry = read_registry(alloc, value)?;
    let npm = read_npm(alloc, value)?;
    let world = read_world(alloc, value, version, answers, &limits, sums)?;
    Ok(Input {
        roots,
        imports,
        kind,
        world,
        arrival: limits.arrival,
        fail_next: limits.fail_next,
        max_loads: limits.max_loads,
        settings,
        registry,
        npm,
    })
}

// The world that the members of a file of a version tell, whose answers were read.
fn read_world(
    alloc: Global,
    value: &Json<'_, '_>,
    _version: u64,
    answers: Items<(ModuleSpecifier, Purpose, Answer)>,
    limits: &Limits,
    sums: WorldSums,
) -> Result<World, Refusal<Misfit>>
    requires { answers_in _version (documents.view value.now) ≡ Some answers }
    ensures { Reads result (world_in _version limits.now sums (documents.view value.now)) }
{
    let tree = read_tree(alloc, value)?;
    let infos = read_infos(alloc, value, answers.as_slice())?;
    let parts = read_resolver_parts(alloc, value)?;
    let paths = read_paths(alloc, value)?;
    Ok(world_by(alloc, answers, infos, limits, parts, tree, sums, paths)?)
}

// The world of these answers, infos, limits, parts, files, sums and paths of cached copies. A `data:` URL that isn't listed is missing.
#[tactic(auto, unfolding(crate::specs::WorldFile::world_by))]
fn world_by(
    alloc: Global,
    answers: Items<(ModuleSpecifier, Purpose, Answer)>,
    infos: Items<(ModuleSpecifier, InfoEntry)>,
    limits: &Limits,
    parts: ResolverParts,
    tree: Items<Text>,
    sums: WorldSums,
    paths: Items<(ModuleSpecifier, Text)>,
) -> Result<World, AllocError>
    ensures { IfOk result
        (λ world. world ≡ world_by answers infos limits.now parts tree sums paths) }
{
    let infos = analyses(alloc, infos)?;
    let cache_info = copies(alloc, paths)?;
    let verifies = sums.verifies;
    let known = known_in(alloc, sums);
    Ok(World {
        answers,
        infos,
        resolutions: parts.resolutions,
        types: parts.types,
        jsx: parts.jsx,
        tree,
        remote_sums: known.remote,
        package_sums: known.packages,
        max_redirects: limits.max_redirects,
        verifies,
        reads_data: false,
        cache_info,
    })
}
