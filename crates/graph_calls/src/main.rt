//! The program `graph_calls`: builds the graph of a world file, makes one call on it, and writes what the call leaves.
//!
//! It is for comparing the calls of the graph with another reader of the same rules. `run_call` of `calls_program` does it
//! over any source and sink; `main` gives it standard input and output. The words `asked`, `questions`, `left` and `stored` list what
//! builds ask instead (`asked.rt`): of them nothing is proved but that they are safe and end.
#![tactic(auto)]

mod asked;
mod ended;
mod listing;

use asked::{asked, left, questions, stored};
use byte_io::{ReaderSource, WriterSink, read_all, write_all};
use calls_program::run_call;
use ended::{Ended, Left};
use graph_core::{GraphKind, ModuleGraph};
use program_phases::{Status, is_alone, words};
use std::alloc::Global;
use std::process::ExitCode;
use std::str;

const LISTS: [&str; 4] = ["asked", "questions", "left", "stored"];

// What a word lists of a text.
fn listed(alloc: Global, word: &str, text: &str) -> Result<String, Ended> {
    match word {
        "asked" => asked(alloc, text),
        "questions" => questions(alloc, text),
        "left" => left(alloc, text),
        _ => stored(alloc, text),
    }
}

// Writes what a word lists of standard input.
fn list(rt: &HostRuntime, word: &str) -> Result<(), Ended> {
    let bytes = Left::new(read_all(rt.alloc(), &mut ReaderSource::new(rt.stdin()))?);
    let text = str::from_utf8(bytes.as_slice())?;
    let lines = Left::new(listed(rt.alloc(), word, text.trim_end())?);
    write_all(&mut WriterSink::new(rt.stdout()), lines.as_str().as_bytes())?;
    Ok(())
}

fn status_of(rt: &HostRuntime) -> Status {
    let words = match words(rt) {
        Ok(words) => words,
        Err(status) => return status,
    };
    for word in LISTS {
        if is_alone(words.as_slice(), word) {
            return match list(rt, word) {
                Ok(()) => Status::Valid,
                Err(ended) => ended.status,
            };
        }
    }
    let mut source = ReaderSource::new(rt.stdin());
    let mut sink = WriterSink::new(rt.stdout());
    let mut graph = ModuleGraph::new(rt.alloc(), GraphKind::All);
    run_call(
        rt.alloc(),
        words.as_slice(),
        &mut source,
        &mut sink,
        &mut graph,
    )
}

fn main(rt: HostRuntime) -> ExitCode {
    ExitCode::from(status_of(&rt) as u8)
}
