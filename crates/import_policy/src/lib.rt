//! Policies on imports: which edges of a graph's modules break which rules, and by which shortest path each is reached.
//!
//! A graph, roots, the options of a walk and rules come in. `report` searches the graph in breadth from the starts of the
//! walk, along its edges, and gives a finding for each edge and rule that fit, with a shortest path to the specifier whose edge
//! it is. `read_rules` reads the rules from JSON, and `report_text` writes the text of a report.
#![tactic(auto)]

// What is read, and what is looked at.
mod edge_kind;
mod rule;
mod rule_list;
mod scheme_and_host;

// The edges, the search and the findings.
mod edges;
mod finding;
mod findings;
mod lines;
mod search;

pub use edge_kind::EdgeKind;
pub use finding::PolicyFinding;
pub use findings::{graph_report, report};
pub use lines::report_text;
pub use rule::PolicyRule;
pub use rule_list::{NotAPart, read_rules};
pub use scheme_and_host::text_tells_scheme_and_host;
