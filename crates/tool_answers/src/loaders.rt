// The word of `graph_store` about its loaders: what a recorder keeps of what the loader over a store answers.
use crate::case::{Gap, Left, parts, text, url};
use crate::stores::{answer_line, shown, told_store};
use graph_store::{Recorder, StoreLoader};
use source_io::{
    CacheSetting, DEFAULT_MAX_REDIRECTS, LoadOptions, Loader, LoaderChecksum, Question,
};
use std::alloc::Global;

// What is asked about for a purpose, and from where.
fn purpose_of(word: &str) -> Result<(bool, CacheSetting), Gap> {
    match word {
        "load" => Ok((false, CacheSetting::Use)),
        "load_again" => Ok((false, CacheSetting::Reload)),
        "load_cached" => Ok((false, CacheSetting::Only)),
        "ensure" => Ok((true, CacheSetting::Use)),
        "ensure_again" => Ok((true, CacheSetting::Reload)),
        "ensure_cached" => Ok((true, CacheSetting::Only)),
        _ => Err(Gap::NoCase),
    }
}

// The sum that goes with a question, where one is told.
fn sum_of(alloc: Global, sum: &str) -> Result<Option<LoaderChecksum>, Gap> {
    if sum.is_empty() {
        return Ok(None);
    }
    Ok(Some(LoaderChecksum::new(text(alloc, sum)?)))
}

// `PURPOSE SPECIFIER`, and behind it a sum, where one is known; a question with a sum comes from a dynamic branch.
fn question(alloc: Global, told: &str) -> Result<Question, Gap> {
    let Some((word, rest)) = told.split_once(" ") else {
        return Err(Gap::NoCase);
    };
    let (name, sum) = rest.split_once(" ").unwrap_or((rest, ""));
    let (asset, cache_setting) = purpose_of(word)?;
    let maybe_checksum = sum_of(alloc, sum)?;
    let specifier = Left::into_inner(url(alloc, name)?);
    Ok(Question {
        specifier,
        asset,
        options: LoadOptions {
            in_dynamic_branch: !sum.is_empty(),
            was_dynamic_root: !sum.is_empty(),
            cache_setting,
            maybe_checksum,
        },
    })
}

/// The answer of a loader to one question, by its bound alone.
#[tactic(auto, using(crate::proofs::OpenTickets::unused_where_none))]
pub fn answered<L: Loader>(alloc: Global, loader: &mut L, told: &str) -> Result<String, Gap> {
    if loader.open_len() != 0 {
        return Err(Gap::NoCase);
    }
    let question = question(alloc, told)?;
    loader.ask(5, question)?;
    if loader.open_len() != 1 {
        return Err(Gap::NoCase);
    }
    let (_, answer) = loader.next()?;
    let answer = Left::new(answer);
    answer_line(alloc, &*answer)
}

/// `STORE IN HEX | PURPOSE SPECIFIER, ..`: what the loader over the store answers to each question, and the bytes of what a recorder
/// kept of it.
pub fn asked(alloc: Global, case: &str) -> Result<String, Gap> {
    let (told, questions) = parts(case)?;
    let store = told_store(alloc, told)?;
    let mut recorder = Left::new(Recorder::new(
        alloc,
        StoreLoader::new(store, DEFAULT_MAX_REDIRECTS),
    ));
    let mut lines = text(alloc, "")?;
    for question in questions.split(", ") {
        let line = Left::new(answered(alloc, &mut *recorder, question)?);
        lines.push_str(line.as_str())?;
        lines.push_str("; ")?;
    }
    let (_, kept) = Left::into_inner(recorder).finish();
    let written = Left::new(shown(alloc, &kept)?);
    lines.push_str(written.as_str())?;
    Ok(lines)
}
