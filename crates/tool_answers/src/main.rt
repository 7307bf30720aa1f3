//! The program `tool_answers`: one public call of `import_map`, `graph_store`, `memory_loader` or `metadata_store` for each word, with an
//! answer on standard output for each line of standard input.
//!
//! It is for tests that are tables: a line is a case, and `tests/run` compares the answers with what a table has. The parts of a
//! case stand with ` | ` between them, as the functions below say.
#![tactic(auto)]

mod case;
mod loaders;
mod maps;
mod memory;
mod metadata;
mod stores;

use case::Gap;
use std::alloc::Global;
use std::{env, io};

fn answer(alloc: Global, word: &str, case: &str) -> Result<String, Gap> {
    match word {
        "map" => maps::map(alloc, case),
        "resolved" => maps::resolved(alloc, case),
        "store" => stores::store(alloc, case),
        "put" => stores::put(alloc, case),
        "asked" => loaders::asked(alloc, case),
        "memory" => memory::memory(alloc, case),
        "source" => memory::source(alloc, case),
        "metadata" => metadata::metadata(alloc, case),
        _ => Err(Gap::NoCase),
    }
}

fn answer_or_gap(alloc: Global, word: &str, case: &str) -> Result<String, Gap> {
    match answer(alloc, word, case) {
        Err(Gap::NoCase) => case::text(alloc, "no case of this word"),
        answer => answer,
    }
}

fn answer_all(rt: &HostRuntime, word: &str) -> io::Result<()> {
    for line in rt.lines(rt.alloc()) {
        let line = line?;
        let text = answer_or_gap(rt.alloc(), word, line.as_str())?;
        println!(rt; "{text}")?;
    }
    Ok(())
}

fn main(rt: HostRuntime) -> io::Result<()> {
    match env::args(&rt)?.nth(1) {
        Some(word) => answer_all(&rt, word.as_str()),
        None => Ok(()),
    }
}
