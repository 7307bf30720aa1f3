// Answers of loaders over worlds in memory to questions that no build puts, and their copies.
use crate::source_worlds::{answered, shared, world};
use crate::specifiers::url;
use source_io::{
    Answer, CacheResponse, CacheSetting, LoadError, LoadOptions, LoadResponse, LoaderChecksum,
    Purpose, Question, World, ensured,
};
use spec_base::ModuleSpecifier;
use std::alloc::Global;
use std::test::Fail;

// One source of each kind, of which some are others where they are loaded again; the sum of `abc` (FIPS 180-4) is asked of each.
const SOURCES: &str = r#""verify":true,"sources":{
"file:///a.js":{"kind":"module","text":"abd","specifier":"file:///named.js","headers":{"content-type":"text/jsx"},"mtime":7},
"file:///b.js":{"kind":"redirect","to":"file:///a.js"},
"file:///c.js":{"kind":"external","to":"file:///named.js"},
"file:///d.js":{"kind":"error","class":"Error","message":"no way there"},
"file:///e.js":{"kind":"missing"},
"file:///g.js":{"kind":"module","text":"abd"}},
"reload":{
"file:///a.js":{"kind":"redirect","to":"file:///c.js"},
"file:///e.js":{"kind":"module","text":""},
"file:///g.js":{"kind":"module","text":"abc","mtime":7}}"#;

const SUM: &str = "ba7816bf8f01cfea414140de5dae2223b00361a396177a9cb410ff61f20015ad";

// Each line: `keep` where an asset is to be kept at hand, or `load`, the setting, the specifier, and the answer; a cache alone is asked
// for an asset as under `use`. The world reads `data:` URLs. The sum of `abd` is that of `sha256sum`.
const ANSWERS: &str = "\
keep reload file:///a.js redirect file:///c.js
keep only file:///a.js cached
keep reload file:///b.js redirect file:///a.js
keep only file:///b.js redirect file:///a.js
keep reload file:///c.js cached
keep reload file:///d.js failure no way there
keep only file:///d.js failure no way there
keep reload file:///e.js cached
keep only file:///e.js missing
keep reload file:///f.js missing
keep only file:///f.js missing
keep use data:,A cached
keep reload data:,A cached
keep only data:,A cached
keep only data:;base64,YR== failure Unable to decode data url.
load only file:///a.js missing
load use file:///b.js redirect file:///a.js
load use file:///c.js external file:///named.js
load use file:///d.js failure no way there
load use file:///e.js missing
load use data:text/plain failure Unable to decode data url.
load use file:///g.js sums a52d159f262b2c6ddb724a61840befc36eb30c88877a4030b65cbe86298449c9 ba7816bf8f01cfea414140de5dae2223b00361a396177a9cb410ff61f20015ad
load reload file:///g.js module file:///g.js of 3 bytes at 7
load only file:///g.js missing";

fn loaded_text(alloc: Global, response: &LoadResponse) -> Result<String, Fail> {
    match response {
        LoadResponse::Module {
            content,
            specifier,
            mtime,
            ..
        } => {
            let size = content.as_slice().len();
            let time = mtime.unwrap_or(0);
            Ok(format!(in alloc; "module {specifier} of {size} bytes at {time}")?)
        }
        LoadResponse::Redirect { specifier } => Ok(format!(in alloc; "redirect {specifier}")?),
        LoadResponse::External { specifier } => Ok(format!(in alloc; "external {specifier}")?),
    }
}

fn kept_text(alloc: Global, response: &CacheResponse) -> Result<String, Fail> {
    match response {
        CacheResponse::Cached => Ok(String::from_str(alloc, "cached")?),
        CacheResponse::Redirect { specifier } => Ok(format!(in alloc; "redirect {specifier}")?),
    }
}

fn failure_text(alloc: Global, error: &LoadError) -> Result<String, Fail> {
    match error {
        LoadError::Other(fault) => Ok(format!(in alloc; "failure {}", fault.message)?),
        LoadError::ChecksumIntegrity(sums) => {
            Ok(format!(in alloc; "sums {} {}", sums.actual, sums.expected)?)
        }
    }
}

fn answer_text(alloc: Global, answer: &Answer) -> Result<String, Fail> {
    match answer {
        Answer::Load(Ok(Some(response))) => loaded_text(alloc, response),
        Answer::Ensure(Ok(Some(response))) => kept_text(alloc, response),
        Answer::Load(Err(error)) => failure_text(alloc, error),
        Answer::Ensure(Err(error)) => failure_text(alloc, error),
        _ => Ok(String::from_str(alloc, "missing")?),
    }
}

fn setting(word: &str) -> CacheSetting {
    match word {
        "only" => CacheSetting::Only,
        "reload" => CacheSetting::Reload,
        _ => CacheSetting::Use,
    }
}

// A question with a sum; its options differ in all that makes no difference.
fn question(alloc: Global, how: &str, word: &str, asked: &str) -> Result<Question, Fail> {
    let sum = LoaderChecksum::new(String::from_str(alloc, SUM)?);
    Ok(Question {
        specifier: url(alloc, asked)?,
        asset: how == "keep",
        options: LoadOptions {
            in_dynamic_branch: word == "use",
            was_dynamic_root: word == "only",
            cache_setting: setting(word),
            maybe_checksum: Some(sum),
        },
    })
}

// Whether an answer has a text, and its copy is equal.
fn is_answer(alloc: Global, answer: &Answer, wanted: &str) -> Result<bool, Fail> {
    let copy = answer.try_clone()?;
    let is_copied = copy == *answer;
    drop(copy);
    Ok(is_copied && answer_text(alloc, answer)?.as_str() == wanted)
}

// Whether a loader over a copy of the world answers a row's question as the row says.
fn answers(alloc: Global, row: &str) -> Result<bool, Fail> {
    let (how, rest) = row.split_once(" ").unwrap_or((row, ""));
    let (word, rest) = rest.split_once(" ").unwrap_or((rest, ""));
    let (asked, wanted) = rest.split_once(" ").unwrap_or((rest, ""));
    let question = question(alloc, how, word, asked)?;
    let answer = shared(answered(alloc, read_world(alloc)?, question)?);
    let is_answer = is_answer(alloc, &answer, wanted);
    drop(answer);
    Ok(is_answer? && setting(word).as_js_str() == word)
}

// A copy of the world, which reads `data:` URLs.
fn read_world(alloc: Global) -> Result<World, Fail> {
    let world = world(alloc, SOURCES)?;
    let copy = world.try_clone();
    drop(world);
    let mut copy = copy?;
    copy.reads_data = true;
    Ok(copy)
}

#[test]
fn loaders_answer(rt: HostRuntime) -> Result<(), Fail> {
    for row in ANSWERS.lines() {
        if !answers(rt.alloc(), row)? {
            return Err(Fail::new(row));
        }
    }
    Ok(())
}

// Lists an answer about keeping a specifier at hand, for one purpose alone.
fn list(
    world: &mut World,
    asked: &ModuleSpecifier,
    found: Option<CacheResponse>,
) -> Result<(), Fail> {
    let specifier = asked.clone()?;
    let answer = Answer::Ensure(Ok(found));
    world
        .answers
        .push((specifier, Purpose::EnsureReload, answer))?;
    Ok(())
}

// A world in which a specifier is listed for one purpose alone, before another entry of the same.
fn listed_for_one(alloc: Global, asked: &ModuleSpecifier) -> Result<World, Fail> {
    let mut world = world(alloc, "\"sources\":{}")?;
    list(&mut world, asked, Some(CacheResponse::Cached))?;
    list(&mut world, asked, None)?;
    Ok(world)
}

// Whether a world answers with this, and that is the answer about keeping where there is one.
fn answers_to(
    alloc: Global,
    world: &World,
    asked: &ModuleSpecifier,
    purpose: Purpose,
    wanted: &str,
) -> Result<bool, Fail> {
    let answer = world.answer_to(alloc, asked, purpose)?;
    let is_answer = is_answer(alloc, &answer, wanted);
    drop(answer);
    is_answer
}

fn is_found_by_one(alloc: Global, world: &World, asked: &ModuleSpecifier) -> Result<bool, Fail> {
    Ok(
        answers_to(alloc, world, asked, Purpose::EnsureReload, "cached")?
            && answers_to(alloc, world, asked, Purpose::EnsureUse, "missing")?
            && answers_to(alloc, world, asked, Purpose::LoadReload, "missing")?,
    )
}

#[test]
fn purposes_are_listed_each_for_itself(rt: HostRuntime) -> Result<(), Fail> {
    let asked = url(rt.alloc(), "file:///a.js")?;
    let world = listed_for_one(rt.alloc(), &asked)?;
    let is_found = is_found_by_one(rt.alloc(), &world, &asked);
    drop(world);
    assert!(rt; is_found?);
    Ok(())
}

// Whether an answer about keeping at hand stays what it is.
fn stays(response: CacheResponse) -> Result<bool, Fail> {
    let answer = Answer::Ensure(Ok(Some(response)));
    let again = ensured(&answer);
    let stays = matches!(&again, Ok(again) if *again == answer);
    drop(again);
    drop(answer);
    Ok(stays)
}

#[test]
fn answers_about_keeping_stay(rt: HostRuntime) -> Result<(), Fail> {
    assert!(rt; stays(CacheResponse::Cached)?);
    let specifier = url(rt.alloc(), "file:///a.js")?;
    assert!(rt; stays(CacheResponse::Redirect { specifier })?);
    Ok(())
}
