//! Edges and roots that lead to `npm:`, resolved again.
//!
//! A graph comes in, with a resolver that answers its npm specifiers by files, as those in a folder `node_modules`. Each edge
//! and each root of the graph that leads to `npm:` is resolved again, for code or for types; the modules of npm and the
//! redirects to `npm:` go out of the graph, and the loads of where the edges and roots lead then are handed out, to be
//! built (`Repointing::repoint`). No source of a module is copied.
#![tactic(auto)]

mod edges;
mod entries;
mod imports;
mod redirects;
mod repointing;
mod roots;
mod slots;
mod steps;
mod types;

pub use repointing::Repointing;
