//! Tests of world files, builds and the graphs that these leave, by their public calls: what only a caller's own fetcher, analyzer or hand
//! shows, graphs that no build makes, and values that no graph shows. What a whole run shows stands in `tests/`.
#![tactic(auto)]

#[cfg(test)]
mod build_machine_tests;
#[cfg(test)]
mod graph_call_tests;
#[cfg(test)]
mod graph_changes;
#[cfg(test)]
mod graph_known;
#[cfg(test)]
mod graph_worlds;
#[cfg(test)]
mod heard_tests;
#[cfg(test)]
mod walk_options;
#[cfg(test)]
mod walk_shown;
#[cfg(test)]
mod world_values_tests;
