//! The program `answers`: one public call for each word, with an answer on standard output for each line of standard input.
//!
//! It is for tests that are tables: a line is a case, and `tests/run` compares the answers with what a table has. The parts of a
//! case stand with ` | ` between them, as the functions below say.
#![tactic(auto)]

mod case;
mod infos;
mod kept;
mod lockers;
mod npm;
mod npm_results;
mod registries;
mod sources;
mod texts;
mod trees;
mod versions;

use case::Gap;
use std::alloc::Global;
use std::{env, io};

fn answer(alloc: Global, word: &str, case: &str) -> Result<String, Gap> {
    match word {
        "media" => texts::media(alloc, case),
        "content_type" => texts::content_type(alloc, case),
        "headers" => texts::headers(alloc, case),
        "decode" => texts::decode(alloc, case),
        "original" => texts::original(alloc, case),
        "charset" => texts::charset(alloc, case),
        "import" => texts::import(alloc, case),
        "failed_load" => texts::failed_load(alloc, case),
        "refusal" => texts::refusal(alloc, case),
        "no_url" => texts::no_url(alloc, case),
        "root" => texts::root(alloc, case),
        "range" => texts::range(alloc, case),
        _ => npm_answer(alloc, word, case),
    }
}

fn npm_answer(alloc: Global, word: &str, case: &str) -> Result<String, Gap> {
    match word {
        "satisfies" => npm::satisfies(alloc, case),
        "requirement" => npm::requirement(alloc, case),
        "jsr" => npm::jsr(alloc, case),
        "npm" => npm::npm(alloc, case),
        "packages" => npm::packages(alloc, case),
        "versions" => npm::versions(alloc, case),
        "dependencies" => npm::dependencies(alloc, case),
        "export" => npm::export(alloc, case),
        "npm_error" => npm::npm_error(alloc, case),
        "npm_results" => npm_results::npm_results(alloc, case),
        _ => source_answer(alloc, word, case),
    }
}

fn source_answer(alloc: Global, word: &str, case: &str) -> Result<String, Gap> {
    match word {
        "info" => infos::info(alloc, case),
        "attributes" => infos::attributes(alloc, case),
        "whole" => infos::whole(alloc, case),
        "keyed" => infos::keyed(alloc, case),
        "sum" => sources::sum(alloc, case),
        "check" => sources::check(alloc, case),
        "data_url" => sources::data_url(alloc, case),
        "base64" => sources::base64(alloc, case),
        "wasm" => sources::wasm(alloc, case),
        _ => registry_answer(alloc, word, case),
    }
}

fn registry_answer(alloc: Global, word: &str, case: &str) -> Result<String, Gap> {
    match word {
        "web" => registries::web(alloc, case),
        "urls" => registries::urls(alloc, case),
        "named" => registries::named(alloc, case),
        "sub_path" => registries::sub_path(alloc, case),
        "entries" => trees::entries(alloc, case),
        "texts" => trees::texts(alloc, case),
        "written" => trees::written(alloc, case),
        _ => version_answer(alloc, word, case),
    }
}

fn version_answer(alloc: Global, word: &str, case: &str) -> Result<String, Gap> {
    match word {
        "choice" => versions::choice(alloc, case),
        "resolve" => versions::resolve(alloc, case),
        "matches" => versions::matches(alloc, case),
        "time" => versions::time(alloc, case),
        "below" => versions::below(alloc, case),
        "bound" => versions::bound(alloc, case),
        "package_file" => versions::package_file(alloc, case),
        "version_file" => versions::version_file(alloc, case),
        "exports" => versions::exports(alloc, case),
        "listed" => versions::listed(alloc, case),
        "kept" => kept::kept(alloc, case),
        "locker" => lockers::locker(alloc, case),
        _ => Err(Gap::NoCase),
    }
}

fn answer_or_gap(alloc: Global, word: &str, case: &str) -> Result<String, Gap> {
    match answer(alloc, word, case) {
        Err(Gap::NoCase) => case::text(alloc, "no case of this word"),
        answer => answer,
    }
}

fn answer_all(rt: &HostRuntime, word: &str) -> io::Result<()> {
    for line in rt.lines(rt.alloc()) {
        let line = line?;
        let text = answer_or_gap(rt.alloc(), word, line.as_str())?;
        println!(rt; "{text}")?;
    }
    Ok(())
}

fn main(rt: HostRuntime) -> io::Result<()> {
    match env::args(&rt)?.nth(1) {
        Some(word) => answer_all(&rt, word.as_str()),
        None => Ok(()),
    }
}
