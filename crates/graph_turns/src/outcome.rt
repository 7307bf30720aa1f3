// What the answer to a load's question gives: the slot to store and its name, or where the load goes on.
ghost use Rattle.std.specs.Prelude.{◌≡◌, [], false, IfOk, IfSome, None, Some};
ghost use Rattle.slot_making.specs.Made.{Making, made_slot};
ghost use Rattle.module_slots.specs.Slots.{is_asset_slot, is_pending};
ghost use Rattle.graph_turns.specs.Machine.Makers.{made_by};
ghost use Rattle.graph_turns.specs.Machine.Outcomes.{Suits, failed_outcome, failure_outcome, info_outcome, missing_outcome, outcome_of, refused_outcome};
ghost use Rattle.graph_turns.specs.Machine.Entering.{IsFinal};
ghost use Rattle.graph_turns.specs.Promise.Refusals.{refusal_of};
ghost use Rattle.graph_turns.specs.Promise.Slots.{external_slot};
ghost use Rattle.graph_turns.specs.Promise.Taken.{Absent, Found, info_for, or_info, redirect_sum, redirect_under, taken_cached, taken_form, taken_response};

use crate::errors::{error_slot, missing_slot};
use crate::later_content::LaterContent;
use crate::maker::Maker;
use crate::question_of::Asked;
use graph_core::{ExternalModule, Load, LoadContext, Module, ModuleLoadError, ModuleSlot};
use graph_errors::JsrLoadError;
use media_types::Headers;
use module_info::ModuleInfo;
use module_slots::failure_slot;
use semver_npm::PackageNv;
use slot_making::{MakeInput, Services, make_slot};
use source_io::{
    Answer, CacheResponse, ChecksumIntegrityError, LoadError, LoadResponse, LoaderChecksum,
};
use spec_base::{Boxed, Bytes, ModuleSpecifier, Text};
use std::alloc::{AllocError, Global};

/// What an answer gives.
#[derive(Drop)]
pub enum Outcome {
    /// A slot at a name, the version of a package that its module counts in, and the content that comes later, if any.
    At(ModuleSpecifier, ModuleSlot, Option<PackageNv>, Option<Boxed<LaterContent>>),
    /// The load goes on at another specifier.
    To(ModuleSpecifier),
}

// A slot where a load ends.
fn settled(load: &Load, slot: ModuleSlot, held: Option<PackageNv>) -> Result<Outcome, AllocError>
    ensures { IfOk result (λ o. o ≡ Outcome.At load.now.specifier slot held None) }
{
    let Ok(specifier) = load.specifier.clone() else {
        drop(slot);
        return Err(AllocError);
    };
    Ok(Outcome::At(specifier, slot, held, None))
}

// An error of a load.
fn failed(
    alloc: Global,
    load: &Load,
    held: Option<PackageNv>,
    err: ModuleLoadError,
) -> Result<Outcome, AllocError>
    ensures { IfOk result (λ o. o ≡ failed_outcome load.now.specifier load.now.context held err) }
{
    let slot = failure_slot(alloc, &load.specifier, &load.context, err)?;
    settled(load, slot, held)
}

// Where nothing is, a slot says that the module is missing.
fn missing(alloc: Global, load: &Load, held: Option<PackageNv>) -> Result<Outcome, AllocError>
    ensures { IfOk result (λ o. o ≡ missing_outcome load.now.specifier load.now.context held) }
{
    let slot = missing_slot(alloc, &load.specifier, &load.context)?;
    settled(load, slot, held)
}

// The loader's failure, or a source that isn't the one whose sum is known; of a file that is taken from a cache by its info
// both are failures of the loader.
fn refusal(load: &Load, asked: &Asked, error: LoadError) -> ModuleLoadError
    ensures { result ≡ refusal_of load.now.context asked.now error }
{
    match error {
        LoadError::Other(fault) => ModuleLoadError::Loader(LoadError::Other(fault)),
        LoadError::ChecksumIntegrity(error) => match (&asked.held, &asked.info) {
            (None, _) => ModuleLoadError::HttpsChecksumIntegrity(error),
            (Some(_), None) => ModuleLoadError::Jsr(JsrLoadError::ContentChecksumIntegrity(error)),
            (Some(_), Some(_)) => {
                if load.context.asset {
                    ModuleLoadError::Jsr(JsrLoadError::ContentChecksumIntegrity(error))
                } else {
                    ModuleLoadError::Loader(LoadError::ChecksumIntegrity(error))
                }
            }
        },
    }
}

fn refused(
    alloc: Global,
    load: &Load,
    asked: Asked,
    error: LoadError,
) -> Result<Outcome, AllocError>
    ensures { IfOk result
        (λ o. o ≡ refused_outcome load.now.specifier load.now.context asked error) }
{
    let err = refusal(load, &asked, error);
    failed(alloc, load, asked.held, err)
}

// Where a load outside of packages is redirected; that is no answer to a question with a sum.
#[tactic(auto, unfolding(spec_base::specs::Specifier::specifier_text))]
fn redirected(
    alloc: Global,
    load: &Load,
    sum: Option<LoaderChecksum>,
    specifier: ModuleSpecifier,
) -> Result<Outcome, AllocError>
    ensures told { IfOk result (λ o. (made : Making)
        → o
        ≡ outcome_of made load.now.specifier load.now.context
        (record { held = None; checksum = sum; info = None }) (redirect_under sum specifier)) }
    ensures settled { IfOk result (IsFinal load.now) }
    ensures suits { IfOk result
        (Suits load.now (record { held = None; checksum = sum; info = None })) }
{
    let Some(sum) = sum else {
        return Ok(Outcome::To(specifier));
    };
    let actual = Text::from(format!(in alloc; "Redirect to {specifier}")?);
    let expected = Text::from(sum.into_string());
    refused(
        alloc,
        load,
        Asked::outside(None),
        LoadError::ChecksumIntegrity(ChecksumIntegrityError { actual, expected }),
    )
}

// Where a load is redirected; no redirect is followed in a package.
fn redirect(
    alloc: Global,
    load: &Load,
    asked: Asked,
    specifier: ModuleSpecifier,
) -> Result<Outcome, AllocError>
    ensures told { IfOk result (λ o. (made : Making)
        → o
        ≡ outcome_of made load.now.specifier load.now.context asked
        (redirect_under (redirect_sum asked) specifier)) }
    ensures settled { IfOk result (IsFinal load.now) }
    ensures suits { IfOk result (Suits load.now asked) }
{
    let Asked {
        held,
        checksum,
        info: _,
    } = asked;
    match held {
        None => redirected(alloc, load, checksum, specifier),
        Some(nv) => failed(
            alloc,
            load,
            Some(nv),
            ModuleLoadError::Jsr(JsrLoadError::RedirectInPackage(specifier)),
        ),
    }
}

// A module outside of the graph.
fn external_slot(specifier: ModuleSpecifier, was_asset_load: bool) -> ModuleSlot
    ensures { result ≡ external_slot specifier was_asset_load }
{
    ModuleSlot::Module(Module::External(ExternalModule {
        specifier,
        maybe_cache_info: None,
        was_asset_load,
    }))
}

// What a load that keeps a module at hand finds gives it.
fn at_hand(
    alloc: Global,
    load: &Load,
    asked: Asked,
    response: CacheResponse,
) -> Result<Outcome, AllocError>
    ensures told { IfOk result (λ o. (made : Making)
        → o
        ≡ outcome_of made load.now.specifier load.now.context asked
        (taken_cached (redirect_sum asked) response)) }
    ensures settled { IfOk result (IsFinal load.now) }
    ensures suits { IfOk result (Suits load.now asked) }
{
    match response {
        CacheResponse::Cached => {
            let Asked {
                held,
                checksum,
                info,
            } = asked;
            drop(checksum);
            drop(info);
            let specifier = load.specifier.clone()?;
            settled(load, external_slot(specifier, load.context.asset), held)
        }
        CacheResponse::Redirect { specifier } => redirect(alloc, load, asked, specifier),
    }
}

// The slot of a module whose content isn't there, by its info.
fn slot_by_info<S: Services>(
    alloc: Global,
    maker: &Maker<'_, S>,
    load: &Load,
    info: Boxed<ModuleInfo>,
) -> Result<ModuleSlot, AllocError>
    ensures told { IfSome
        (made_by S.Analyze.infos S.Tree.paths S.Urls.meaning S.Resolve.is_told S.Resolve.meaning
        maker.now)
        (λ made. IfOk result
        (λ slot. slot
        ≡ made_slot made
        (record {
          name = load.now.specifier;
          content = [];
          headers = None;
          mtime = None;
          info = Some info;
        }) load.now.context)) }
    ensures settled { IfOk result (λ slot. is_pending slot ≡ false) }
    ensures inside { IfOk result (λ slot. is_asset_slot slot ≡ false) }
{
    let specifier = load.specifier.clone()?;
    let input: MakeInput<'_, S> = MakeInput {
        analyzer: maker.analyzer,
        tree: maker.tree,
        urls: maker.urls,
        resolver: maker.resolver,
        kind: maker.kind,
        skip_dynamic_deps: maker.flags.skip_dynamic_deps,
        unstable_config_imports: maker.flags.config,
        specifier,
        content: Bytes::from(Vec::new(alloc)),
        maybe_headers: None,
        mtime: None,
        info: Some(info.into_inner()),
    };
    make_slot(alloc, input, &load.context)
}

// The content of a load that comes later.
fn later_content(
    alloc: Global,
    load: &Load,
    checksum: Option<LoaderChecksum>,
) -> Result<Boxed<LaterContent>, AllocError>
    ensures { IfOk result
        (λ content. content
        ≡ record {
          specifier = load.now.specifier;
          context = load.now.context;
          checksum = checksum;
        }) }
{
    let content = LaterContent {
        specifier: load.specifier.clone()?,
        context: load.context.try_clone()?,
        checksum,
    };
    Boxed::new(alloc, content)
}

// A slot where a load ends, and whose content comes later.
fn settled_before(
    alloc: Global,
    load: &Load,
    asked: Asked,
    slot: ModuleSlot,
) -> Result<Outcome, AllocError>
    ensures { IfOk result
        (λ o. o
        ≡ Outcome.At load.now.specifier slot asked.held
        (Some (record {
          specifier = load.now.specifier;
          context = load.now.context;
          checksum = asked.checksum;
        }))) }
{
    let Asked {
        held,
        checksum,
        info,
    } = asked;
    drop(info);
    let Ok(content) = later_content(alloc, load, checksum) else {
        drop(slot);
        drop(held);
        return Err(AllocError);
    };
    let Ok(name) = load.specifier.clone() else {
        drop(content);
        drop(slot);
        drop(held);
        return Err(AllocError);
    };
    Ok(Outcome::At(name, slot, held, Some(content)))
}

// A module that no cache has is made by what its version's file says of it; its content comes later.
fn from_info<S: Services>(
    alloc: Global,
    maker: &Maker<'_, S>,
    load: &Load,
    asked: Asked,
    info: Boxed<ModuleInfo>,
) -> Result<Outcome, AllocError>
    ensures told { IfSome
        (made_by S.Analyze.infos S.Tree.paths S.Urls.meaning S.Resolve.is_told S.Resolve.meaning
        maker.now)
        (λ made. IfOk result
        (λ o. o ≡ info_outcome made load.now.specifier load.now.context asked info)) }
    ensures settled { IfOk result (IsFinal load.now) }
    ensures suits { load.now.context.asset ≡ false → IfOk result (Suits load.now asked) }
{
    let slot = slot_by_info(alloc, maker, load, info)?;
    settled_before(alloc, load, asked, slot)
}

// Nothing is there; a module whose info is known is made by that.
fn absent<S: Services>(
    alloc: Global,
    maker: &Maker<'_, S>,
    load: &Load,
    asked: Asked,
) -> Result<Outcome, AllocError>
    ensures told { IfSome
        (made_by S.Analyze.infos S.Tree.paths S.Urls.meaning S.Resolve.is_told S.Resolve.meaning
        maker.now)
        (λ made. IfOk result
        (λ o. o
        ≡ outcome_of made load.now.specifier load.now.context asked
        (or_info load.now.specifier (info_for load.now.context asked) Absent))) }
    ensures settled { IfOk result (IsFinal load.now) }
    ensures suits { IfOk result (Suits load.now asked) }
{
    let Asked {
        held,
        checksum,
        info,
    } = asked;
    let Some(info) = info else {
        return missing(alloc, load, held);
    };
    if load.context.asset {
        return missing(alloc, load, held);
    }
    let asked = Asked {
        held,
        checksum,
        info: None,
    };
    from_info(alloc, maker, load, asked, info)
}

// The slot of a source that was found, by its name.
fn slot_by_source<S: Services>(
    alloc: Global,
    maker: &Maker<'_, S>,
    load: &Load,
    name: &ModuleSpecifier,
    content: Bytes,
    maybe_headers: Option<Headers>,
    mtime: Option<u64>,
) -> Result<ModuleSlot, AllocError>
    ensures told { IfSome
        (made_by S.Analyze.infos S.Tree.paths S.Urls.meaning S.Resolve.is_told S.Resolve.meaning
        maker.now)
        (λ made. IfOk result
        (λ slot. slot
        ≡ made_slot made
        (record {
          name = name.now;
          content = content;
          headers = maybe_headers;
          mtime = mtime;
          info = None;
        }) load.now.context)) }
    ensures settled { IfOk result (λ slot. is_pending slot ≡ false) }
    ensures inside { IfOk result (λ slot. is_asset_slot slot ≡ false) }
{
    let specifier = name.clone()?;
    let input: MakeInput<'_, S> = MakeInput {
        analyzer: maker.analyzer,
        tree: maker.tree,
        urls: maker.urls,
        resolver: maker.resolver,
        kind: maker.kind,
        skip_dynamic_deps: maker.flags.skip_dynamic_deps,
        unstable_config_imports: maker.flags.config,
        specifier,
        content,
        maybe_headers,
        mtime,
        info: None,
    };
    make_slot(alloc, input, &load.context)
}

// A source that was found.
fn found_source<S: Services>(
    alloc: Global,
    maker: &Maker<'_, S>,
    load: &Load,
    asked: Asked,
    specifier: ModuleSpecifier,
    content: Bytes,
    maybe_headers: Option<Headers>,
    mtime: Option<u64>,
) -> Result<Outcome, AllocError>
    ensures told { IfSome
        (made_by S.Analyze.infos S.Tree.paths S.Urls.meaning S.Resolve.is_told S.Resolve.meaning
        maker.now)
        (λ made. IfOk result
        (λ o. o
        ≡ outcome_of made load.now.specifier load.now.context asked
        (Found (record {
          name = specifier;
          content = content;
          headers = maybe_headers;
          mtime = mtime;
          info = None;
        })))) }
    ensures settled { IfOk result (IsFinal load.now) }
    ensures suits { IfOk result (Suits load.now asked) }
{
    let Asked {
        held,
        checksum,
        info,
    } = asked;
    drop(checksum);
    drop(info);
    let slot = slot_by_source(
        alloc,
        maker,
        load,
        &specifier,
        content,
        maybe_headers,
        mtime,
    )?;
    Ok(Outcome::At(specifier, slot, held, None))
}

// A module that was found outside of the graph.
fn found_outside(asked: Asked, specifier: ModuleSpecifier) -> Result<Outcome, AllocError>
    ensures { IfOk result
        (λ o. o ≡ Outcome.At specifier (external_slot specifier false) asked.held None) }
{
    let Asked {
        held,
        checksum,
        info,
    } = asked;
    drop(checksum);
    drop(info);
    let name = specifier.clone()?;
    Ok(Outcome::At(name, external_slot(specifier, false), held, None))
}

// What a load finds gives it.
fn found<S: Services>(
    alloc: Global,
    maker: &Maker<'_, S>,
    load: &Load,
    asked: Asked,
    response: LoadResponse,
) -> Result<Outcome, AllocError>
    ensures told { IfSome
        (made_by S.Analyze.infos S.Tree.paths S.Urls.meaning S.Resolve.is_told S.Resolve.meaning
        maker.now)
        (λ made. IfOk result
        (λ o. o
        ≡ outcome_of made load.now.specifier load.now.context asked
        (taken_response (redirect_sum asked) response))) }
    ensures settled { IfOk result (IsFinal load.now) }
    ensures suits { IfOk result (Suits load.now asked) }
{
    match response {
        LoadResponse::Module {
            content,
            mtime,
            specifier,
            maybe_headers,
        } => found_source(
            alloc,
            maker,
            load,
            asked,
            specifier,
            content,
            maybe_headers,
            mtime,
        ),
        LoadResponse::External { specifier } => found_outside(asked, specifier),
        LoadResponse::Redirect { specifier } => redirect(alloc, load, asked, specifier),
    }
}

// The version that a context counts in, where there is one.
fn held_by(context: &LoadContext) -> Result<Option<PackageNv>, AllocError>
    ensures { IfOk result (λ held. held ≡ context.now.«package») }
{
    match &context.package {
        None => Ok(None),
        Some(nv) => Ok(Some(nv.clone()?)),
    }
}

/// The error of a load that fails at a name without a question. The only refusal is want of memory.
pub fn failure_outcome(
    alloc: Global,
    load: &Load,
    name: ModuleSpecifier,
    error: JsrLoadError,
) -> Result<Outcome, AllocError>
    ensures { IfOk result (λ o. o ≡ failure_outcome load.now.context name error) }
{
    let slot = error_slot(alloc, &name, &load.context, error)?;
    let Ok(held) = held_by(&load.context) else {
        drop(slot);
        return Err(AllocError);
    };
    Ok(Outcome::At(name, slot, held, None))
}

/// What the answer to a load's question, which was put so, gives it; no slot that it gives is pending. The only error is want of
/// memory.
pub fn outcome_of<S: Services>(
    alloc: Global,
    maker: &Maker<'_, S>,
    load: &Load,
    asked: Asked,
    answer: Answer,
) -> Result<Outcome, AllocError>
    ensures told { IfSome
        (made_by S.Analyze.infos S.Tree.paths S.Urls.meaning S.Resolve.is_told S.Resolve.meaning
        maker.now)
        (λ made. IfOk result
        (λ o. o
        ≡ outcome_of made load.now.specifier load.now.context asked
        (or_info load.now.specifier (info_for load.now.context asked)
        (taken_form (redirect_sum asked) answer)))) }
    ensures settled { IfOk result (IsFinal load.now) }
    ensures suits { IfOk result (Suits load.now asked) }
{
    match answer {
        Answer::Load(Ok(Some(response))) => found(alloc, maker, load, asked, response),
        Answer::Ensure(Ok(Some(response))) => at_hand(alloc, load, asked, response),
        Answer::Load(Ok(None)) | Answer::Ensure(Ok(None)) => absent(alloc, maker, load, asked),
        Answer::Load(Err(error)) | Answer::Ensure(Err(error)) => refused(alloc, load, asked, error),
    }
}
