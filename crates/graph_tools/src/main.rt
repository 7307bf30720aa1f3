//! The program `graph_tools`: builds a graph, and writes what a tool says of it.
//!
//! `run_tool` of `tools_program` does it over any source and sink; `main` gives it standard input and output, and answers the
//! words `--help` and `--version` itself.
#![tactic(auto)]

use byte_io::{ReaderSource, WriterSink, write_all};
use graph_core::{GraphKind, ModuleGraph};
use program_phases::{is_alone, words};
use std::mem::forget;
use std::process::ExitCode;
use tools_program::{ToolStatus, run_tool};

const HELP: &str = "graph_tools lock [--strict] < WORLD > TEXT
graph_tools policy < RULES_AND_WORLD > TEXT
graph_tools map < MAP_AND_WORLD > TEXT
graph_tools store < WORLD > STORE
graph_tools replay < WORLD_AND_STORE > TEXT

Builds the graph of the modules that the roots of a world file (JSON) lead to, and writes
what a tool says of it to standard output.

`lock` says whether the modules from the network are those that the world's locker
knows: `locked N`, where none differs and the sums of N are known, or `differs S ACTUAL
EXPECTED` with the first that differs. With `--strict` each module is to be known, but
declarations and those of packages: `unlocked S` with the first that isn't.

`policy` reads rules from the first line, {\"rules\":[{\"id\",\"fromScheme\",\"fromHost\",
\"toScheme\",\"toHost\",\"kind\"}]}, and the world behind it. Each edge of the graph that a
rule fits is a line `ID FROM KIND TO via PATH`, and the last line is `findings N`.

`map` reads an import map from the first line, {\"base\":URL,\"map\":{\"imports\",\"scopes\"}},
and the world behind it, and writes the graph in which texts lead as the map says.

`store` writes the answers that the build got as one file. `replay` reads a world from
the first line, of whose roots and infos alone it takes notice, and such a file behind
it, and writes the graph for which the file answers.

Status: 0 yes (or the graph is valid), 1 no, 2 other words, 3 no world file, 4 reading
failed, 5 writing failed, 6 more questions than the world's max_loads, 7 the loader
failed at a call of the world's fail_next, 8 out of memory, 9 more than 67108864 bytes of
input, 10 no rules, no import map or no store.
";

const VERSION: &str = "graph_tools 0.1.0
";

fn print_text(rt: &HostRuntime, text: &str) -> ToolStatus {
    let mut sink = WriterSink::new(rt.stdout());
    match write_all(&mut sink, text.as_bytes()) {
        Ok(()) => ToolStatus::Yes,
        Err(_) => ToolStatus::WriteFault,
    }
}

fn status_of(rt: &HostRuntime) -> ToolStatus {
    let words = match words(rt) {
        Ok(words) => words,
        Err(status) => return ToolStatus::from(status),
    };
    if is_alone(words.as_slice(), "--help") {
        return print_text(rt, HELP);
    }
    if is_alone(words.as_slice(), "--version") {
        return print_text(rt, VERSION);
    }
    let mut source = ReaderSource::new(rt.stdin());
    let mut sink = WriterSink::new(rt.stdout());
    let mut graph = ModuleGraph::new(rt.alloc(), GraphKind::All);
    let status = run_tool(
        rt.alloc(),
        words.as_slice(),
        &mut source,
        &mut sink,
        &mut graph,
    );
    // The process ends here, and the system takes the graph's memory back at once.
    forget(graph);
    status
}

fn main(rt: HostRuntime) -> ExitCode {
    ExitCode::from(status_of(&rt) as u8)
}
