// The sources of a world file, and the answers that they are.
ghost use Rattle.std.specs.Prelude.{◌≡◌, [], ◌∷◌, ◌++◌, true, false, IfOk, OnOk};
ghost use Rattle.std.specs.List.{list_all};
ghost use Rattle.json_documents.specs.Documents as documents;
ghost use Rattle.spec_base.specs.Refusal.{Reads};
ghost use Rattle.json_forms.specs.Form.{specifier};
ghost use Rattle.json_forms.specs.Member.{has_names};
ghost use Rattle.source_io.specs.Answers.{purpose_by};
ghost use Rattle.world_answers.specs.AnswerOrder.{ordered};
ghost use Rattle.world_answers.specs.WorldSources.{source, source_kind, source_names, source_of, module_source, redirect_source, external_source, fault_of, error_source, name_or_key, fits_key, response_of, answer_of_source, answers_under, answers_under_both, answers_cached, answers_of};

use crate::answer_order::ordered;
use crate::known_specifiers::{key_of, known_url};
use crate::world_modules::{WorldModule, read_module};
use json_documents::Json;
use json_forms::{Form, Misfit, choose, has_names, optional, required};
use source_io::{Answer, CacheSetting, LoadResponse, Purpose, data_answer, ensured};
use spec_base::{Fault, Items, LoadError, ModuleSpecifier, Refusal};
use std::alloc::{AllocError, Global};

/// What kind a source is.
#[derive(Clone, Copy, PartialEq, Eq, Debug)]
pub enum SourceKind {
    Module,
    Redirect,
    External,
    Missing,
    Error,
    Data,
}

/// What stands at a specifier, its key.
#[derive(Clone, Drop)]
pub enum Source {
    Module(WorldModule),
    /// The load goes on there.
    Redirect(ModuleSpecifier),
    /// A module outside of the graph, and its name where that isn't the key.
    External(Option<ModuleSpecifier>),
    Missing,
    /// The load fails.
    Error(Fault),
    /// What the key holds, which is a `data:` URL.
    Data,
}

/// What kind a source is, by its name.
pub fn read_kind(value: &Json<'_, '_>) -> Result<SourceKind, Refusal<Misfit>>
    ensures { Reads result (source_kind (documents.view value.now)) }
{
    choose(
        value,
        &[
            ("module", SourceKind::Module),
            ("redirect", SourceKind::Redirect),
            ("external", SourceKind::External),
            ("missing", SourceKind::Missing),
            ("error", SourceKind::Error),
            ("data", SourceKind::Data),
        ],
    )
}

// Whether a source of a kind has no other members than those of its kind.
fn has_source_names(kind: SourceKind, value: &Json<'_, '_>) -> bool
    ensures { result ≡ has_names (source_names kind) (documents.view value.now) }
{
    match kind {
        SourceKind::Module => has_names(
            value,
            &["kind", "text", "base64", "specifier", "headers", "mtime"],
        ),
        SourceKind::Redirect | SourceKind::External => has_names(value, &["kind", "to"]),
        SourceKind::Missing | SourceKind::Data => has_names(value, &["kind"]),
        SourceKind::Error => has_names(value, &["kind", "class", "message"]),
    }
}

fn read_module_source(alloc: Global, value: &Json<'_, '_>) -> Result<Source, Refusal<Misfit>>
    ensures { Reads result (module_source (documents.view value.now)) }
{
    Ok(Source::Module(read_module(alloc, value)?))
}

// The specifier of a value, of which a copy may stand among the keys.
fn read_target(
    alloc: Global,
    value: &Json<'_, '_>,
    keys: &[ModuleSpecifier],
) -> Result<ModuleSpecifier, Refusal<Misfit>>
    ensures { Reads result (specifier (documents.view value.now)) }
{
    match value.as_str() {
        Some(text) => known_url(alloc, key_of(keys, text), text),
        None => Err(Refusal::Is(Misfit)),
    }
}

fn read_redirect(
    alloc: Global,
    value: &Json<'_, '_>,
    keys: &[ModuleSpecifier],
) -> Result<Source, Refusal<Misfit>>
    ensures { Reads result (redirect_source (documents.view value.now)) }
{
    match value.get("to") {
        Some(to) => Ok(Source::Redirect(read_target(alloc, &to, keys)?)),
        None => Err(Refusal::Is(Misfit)),
    }
}

fn read_external(alloc: Global, value: &Json<'_, '_>) -> Result<Source, Refusal<Misfit>>
    ensures { Reads result (external_source (documents.view value.now)) }
{
    Ok(Source::External(optional(alloc, value, "to")?))
}

/// What an error is, by its members.
pub fn read_fault(alloc: Global, value: &Json<'_, '_>) -> Result<Fault, Refusal<Misfit>>
    ensures { Reads result (fault_of (documents.view value.now)) }
{
    let class = required(alloc, value, "class")?;
    let message = required(alloc, value, "message")?;
    Ok(Fault { class, message })
}

fn read_error(alloc: Global, value: &Json<'_, '_>) -> Result<Source, Refusal<Misfit>>
    ensures { Reads result (error_source (documents.view value.now)) }
{
    Ok(Source::Error(read_fault(alloc, value)?))
}

/// A source of a kind, by its further members, whatever the keys: a redirect to one of them needn't have its text parsed.
pub fn read_source(
    alloc: Global,
    kind: SourceKind,
    value: &Json<'_, '_>,
    keys: &[ModuleSpecifier],
) -> Result<Source, Refusal<Misfit>>
    ensures { Reads result (source_of kind (documents.view value.now)) }
{
    match kind {
        SourceKind::Module => read_module_source(alloc, value),
        SourceKind::Redirect => read_redirect(alloc, value, keys),
        SourceKind::External => read_external(alloc, value),
        SourceKind::Missing => Ok(Source::Missing),
        SourceKind::Error => read_error(alloc, value),
        SourceKind::Data => Ok(Source::Data),
    }
}

/// A source, whatever the keys that stand beside its own.
pub fn read_beside(
    alloc: Global,
    value: &Json<'_, '_>,
    keys: &[ModuleSpecifier],
) -> Result<Source, Refusal<Misfit>>
    ensures { Reads result (source (documents.view value.now)) }
{
    let Some(kind) = value.get("kind") else {
        return Err(Refusal::Is(Misfit));
    };
    let kind = read_kind(&kind)?;
    if !has_source_names(kind, value) {
        return Err(Refusal::Is(Misfit));
    }
    read_source(alloc, kind, value, keys)
}

impl Form for Source {
    ghost form = { source };

    fn read(alloc: Global, value: &Json<'_, '_>) -> Result<Source, Refusal<Misfit>> {
        read_beside(alloc, value, &[])
    }
}

/// Whether a source can stand at a key: what the key holds is read of `data:` URLs alone.
pub fn fits_key(key: &ModuleSpecifier, source: &Source) -> bool
    ensures { result ≡ fits_key key.now source.now }
{
    match source {
        Source::Data => key.scheme() == "data",
        _ => true,
    }
}

/// Whether each source can stand at its key.
pub fn fit_keys(sources: &[(ModuleSpecifier, Source)]) -> bool
    ensures { result ≡ list_all (λ e. fits_key e.0 e.1) sources.now }
{
    for entry in sources {
        if !fits_key(&entry.0, &entry.1) {
            return false;
        }
    }
    true
}

// The name that is told, else a copy of the key.
fn name_or_key(
    key: &ModuleSpecifier,
    name: Option<ModuleSpecifier>,
) -> Result<ModuleSpecifier, AllocError>
    ensures { IfOk result (λ s. s ≡ name_or_key key.now name) }
{
    match name {
        Some(name) => Ok(name),
        None => key.clone(),
    }
}

// The response of a module that stands at a key.
fn response(key: &ModuleSpecifier, found: WorldModule) -> Result<LoadResponse, AllocError>
    ensures { IfOk result (λ r. r ≡ response_of key.now found) }
{
    let WorldModule {
        content,
        mtime,
        specifier,
        headers,
    } = found;
    let specifier = name_or_key(key, specifier)?;
    Ok(LoadResponse::Module {
        content,
        mtime,
        specifier,
        maybe_headers: headers,
    })
}

/// What a source answers to a load of its key. The only refusal is want of memory.
pub fn answer(alloc: Global, key: &ModuleSpecifier, source: Source) -> Result<Answer, AllocError>
    ensures { IfOk result (λ a. a ≡ answer_of_source key.now source) }
{
    match source {
        Source::Module(found) => Ok(Answer::Load(Ok(Some(response(key, found)?)))),
        Source::Redirect(specifier) => Ok(Answer::Load(Ok(Some(LoadResponse::Redirect {
            specifier,
        })))),
        Source::External(to) => {
            let specifier = name_or_key(key, to)?;
            Ok(Answer::Load(Ok(Some(LoadResponse::External { specifier }))))
        }
        Source::Missing => Ok(Answer::Load(Ok(None))),
        Source::Error(fault) => Ok(Answer::Load(Err(LoadError::Other(fault)))),
        Source::Data => data_answer(alloc, key),
    }
}

// Adds the answer to a load.
fn put_loaded(
    answers: &mut Items<(ModuleSpecifier, Purpose, Answer)>,
    key: &ModuleSpecifier,
    setting: CacheSetting,
    loaded: Answer,
) -> Result<(), AllocError>
    ensures { OnOk result
        (answers.new ≡ answers.old ++ (key.now, purpose_by false setting, loaded) ∷ []) }
{
    match key.clone() {
        Ok(name) => {
            answers.push((name, setting.purpose(false), loaded))?;
            Ok(())
        }
        Err(fault) => {
            drop(loaded);
            Err(fault)
        }
    }
}

// Adds the answers to a load and to a question that keeps at hand.
fn put_both(
    answers: &mut Items<(ModuleSpecifier, Purpose, Answer)>,
    key: ModuleSpecifier,
    setting: CacheSetting,
    loaded: Answer,
    at_hand: Answer,
) -> Result<(), AllocError>
    ensures { OnOk result
        (answers.new
        ≡ answers.old ++ (key, purpose_by false setting, loaded) ∷
        (key, purpose_by true setting, at_hand) ∷ []) }
{
    match put_loaded(answers, &key, setting, loaded) {
        Ok(()) => {
            answers.push((key, setting.purpose(true), at_hand))?;
            Ok(())
        }
        Err(fault) => {
            drop(at_hand);
            Err(fault)
        }
    }
}

// Adds the answers of a source under a setting.
fn put_source(
    alloc: Global,
    answers: &mut Items<(ModuleSpecifier, Purpose, Answer)>,
    key: ModuleSpecifier,
    source: Source,
    setting: CacheSetting,
) -> Result<(), AllocError>
    ensures { OnOk result
        (answers.new ≡ answers.old ++ answers_under setting ((key, source) ∷ [])) }
{
    let loaded = answer(alloc, &key, source)?;
    let at_hand = match ensured(&loaded) {
        Ok(at_hand) => at_hand,
        Err(fault) => {
            drop(loaded);
            return Err(fault);
        }
    };
    put_both(answers, key, setting, loaded, at_hand)?;
    Ok(())
}

// Adds the answers of sources under a setting: to a load, and to a question that keeps at hand.
fn put_answers(
    alloc: Global,
    answers: &mut Items<(ModuleSpecifier, Purpose, Answer)>,
    sources: Items<(ModuleSpecifier, Source)>,
    setting: CacheSetting,
) -> Result<(), AllocError>
    ensures { OnOk result (answers.new ≡ answers.old ++ answers_under setting sources) }
{
    for (key, source) in sources.into_vec() {
        put_source(alloc, answers, key, source, setting)?;
    }
    Ok(())
}

// Adds the answers of a copy of a source under Use.
fn put_used(
    alloc: Global,
    answers: &mut Items<(ModuleSpecifier, Purpose, Answer)>,
    entry: &(ModuleSpecifier, Source),
) -> Result<(), AllocError>
    ensures { OnOk result
        (answers.new ≡ answers.old ++ answers_under CacheSetting.Use (entry.now ∷ [])) }
{
    let (key, source) = entry.clone()?;
    put_source(alloc, answers, key, source, CacheSetting::Use)
}

// Adds the answers of a source under Use, and behind them those under Reload.
fn put_source_twice(
    alloc: Global,
    answers: &mut Items<(ModuleSpecifier, Purpose, Answer)>,
    entry: (ModuleSpecifier, Source),
) -> Result<(), AllocError>
    ensures { OnOk result (answers.new ≡ answers.old ++ answers_under_both (entry ∷ [])) }
{
    put_used(alloc, answers, &entry)?;
    let (key, source) = entry;
    put_source(alloc, answers, key, source, CacheSetting::Reload)
}

// Adds the answers of sources under Use and, behind those of each source, those under Reload: of sources in order they rise.
fn put_under_both(
    alloc: Global,
    answers: &mut Items<(ModuleSpecifier, Purpose, Answer)>,
    sources: Items<(ModuleSpecifier, Source)>,
) -> Result<(), AllocError>
    ensures { OnOk result (answers.new ≡ answers.old ++ answers_under_both sources) }
{
    for entry in sources.into_vec() {
        put_source_twice(alloc, answers, entry)?;
    }
    Ok(())
}

// Adds the answers of sources to loads from a cache alone, under which nothing is kept at hand.
fn put_cached(
    alloc: Global,
    answers: &mut Items<(ModuleSpecifier, Purpose, Answer)>,
    sources: Items<(ModuleSpecifier, Source)>,
) -> Result<(), AllocError>
    ensures { OnOk result (answers.new ≡ answers.old ++ answers_cached sources) }
{
    for (key, source) in sources.into_vec() {
        let loaded = answer(alloc, &key, source)?;
        answers.push((key, CacheSetting::Only.purpose(false), loaded))?;
    }
    Ok(())
}

// Room for the answers of so many sources: four of each, two of each that `reload` lists, and one of each that `cached` lists.
fn room(
    alloc: Global,
    sources: usize,
    reload: usize,
    cached: usize,
) -> Result<Items<(ModuleSpecifier, Purpose, Answer)>, AllocError>
    ensures { IfOk result (λ answers. answers ≡ []) }
{
    let both = sources.saturating_mul(4);
    let listed = reload.saturating_mul(2).saturating_add(cached);
    let answers = Vec::with_capacity(alloc, both.saturating_add(listed))?;
    Ok(Items::from(answers))
}

/// The answers of sources, in order: under Use those of the sources; from the source those of `reload`, and where it lists none,
/// that under Use; from a cache alone those of `cached`. To keep a module at hand is answered by what a load of it is answered.
pub fn answers(
    alloc: Global,
    sources: Items<(ModuleSpecifier, Source)>,
    reload: Items<(ModuleSpecifier, Source)>,
    cached: Items<(ModuleSpecifier, Source)>,
) -> Result<Items<(ModuleSpecifier, Purpose, Answer)>, AllocError>
    ensures { IfOk result (λ answers. answers ≡ ordered (answers_of sources reload cached)) }
{
    let mut answers = room(alloc, sources.len(), reload.len(), cached.len())?;
    // in front of those of `sources`, since the first one that is listed counts
    put_answers(alloc, &mut answers, reload, CacheSetting::Reload)?;
    put_under_both(alloc, &mut answers, sources)?;
    put_cached(alloc, &mut answers, cached)?;
    ordered(answers)
}
