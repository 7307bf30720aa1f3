//! The program `graph_info`: from the bytes of a world file to the text of its module graph.
//!
//! `run_all` does it over any source and sink: the words `build --workers N` build through a pool of so many threads, and all other words
//! run as `run` of `graph_program` runs them, which never waits. `upgrade` of `upgrade_program` writes a world file in version 2;
//! `run_generator` of `generator_program` builds the graph of a world that it makes. `main` gives them standard input and output, and
//! answers the words `--help` and `--version` itself.
#![tactic(auto)]

mod build;
mod command;
mod worker_words;

use crate::command::run_all;
use byte_io::{ReaderSource, WriterSink, write_all};
use generator_program::{Generator, generator_of, run_generator};
use graph_core::{GraphKind, ModuleGraph};
use program_phases::{Status, is_alone, words};
use std::mem::forget;
use std::process::ExitCode;
use std::sync::Wait;
use std::thread::Threads;
use upgrade_program::{UpgradeFault, upgrade};

const HELP: &str = "graph_info build < WORLD > TEXT
graph_info build --workers N < WORLD > TEXT
graph_info walk all|code|types < WORLD > LINES
graph_info upgrade < WORLD > WORLD
graph_info gen START COUNT > LINES

Reads a world file (JSON) from standard input, and builds the graph of the modules that
its roots lead to. `build` writes the graph as JSON, and then a line `valid` or
`error: ..`, to standard output; `walk` writes a line for each entry of a walk from the
roots over all modules, code alone or types alone: `module S`, `error S` or
`redirect S T`. With `--workers N`, N from 0 to 64, so many threads load, and the world's
arrival and fail_next count for nothing. `upgrade` writes the world file in version 2.
`gen` reads nothing: it builds the graph of a world of COUNT modules, 1 to 20000, that a
generator draws, which begins with START, 0 to 4294967295, and writes the numbers of
modules, redirects and edges, and the SHA-256 sum of what `build` would write.

Status: 0 valid, 1 an error in the graph, 2 other words, 3 no world file, 4 reading
failed, 5 writing failed, 6 more questions than the world's max_loads, 7 the loader
failed at a call of the world's fail_next, 8 out of memory, 9 more than 67108864 bytes
of input.
";

const VERSION: &str = "graph_info 0.1.0
";

fn print_text(rt: &HostRuntime, text: &str) -> Status {
    let mut sink = WriterSink::new(rt.stdout());
    match write_all(&mut sink, text.as_bytes()) {
        Ok(()) => Status::Valid,
        Err(_) => Status::WriteFault,
    }
}

fn upgrade_input(rt: &HostRuntime) -> Status {
    let mut source = ReaderSource::new(rt.stdin());
    let mut sink = WriterSink::new(rt.stdout());
    match upgrade(rt.alloc(), &mut source, &mut sink) {
        Ok(()) => Status::Valid,
        Err(UpgradeFault::Memory) => Status::Memory,
        Err(UpgradeFault::ReadFault) => Status::ReadFault,
        Err(UpgradeFault::TooLong) => Status::TooLong,
        Err(UpgradeFault::NotAWorld) => Status::NotAWorld,
        Err(UpgradeFault::WriteFault) => Status::WriteFault,
    }
}

fn generate(rt: &HostRuntime, generator: Generator) -> Status {
    let mut sink = WriterSink::new(rt.stdout());
    let mut graph = ModuleGraph::new(rt.alloc(), GraphKind::All);
    let status = run_generator(rt.alloc(), generator, &mut sink, &mut graph);
    // As below.
    forget(graph);
    status
}

// `waits` is the runtime too: only main has the leave to wait by it, and hands that on.
fn status_of<R>(waits: &R, rt: &HostRuntime) -> Status
where
    R: Wait + Threads + Clone + Drop + Send + Sync + 'static,
{
    let words = match words(rt) {
        Ok(words) => words,
        Err(status) => return status,
    };
    if is_alone(words.as_slice(), "--help") {
        return print_text(rt, HELP);
    }
    if is_alone(words.as_slice(), "--version") {
        return print_text(rt, VERSION);
    }
    if is_alone(words.as_slice(), "upgrade") {
        return upgrade_input(rt);
    }
    if let Some(generator) = generator_of(words.as_slice()) {
        return generate(rt, generator);
    }
    let mut source = ReaderSource::new(rt.stdin());
    let mut sink = WriterSink::new(rt.stdout());
    let mut graph = ModuleGraph::new(rt.alloc(), GraphKind::All);
    let status = run_all(
        waits,
        rt.alloc(),
        words.as_slice(),
        &mut source,
        &mut sink,
        &mut graph,
    );
    // The process ends here, and the system takes the graph's memory back at once.
    forget(graph);
    status
}

fn main(rt: HostRuntime) -> ExitCode {
    ExitCode::from(status_of(&rt, &rt) as u8)
}
