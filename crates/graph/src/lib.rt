//! Graphs: collections by their numbers, and the relations between them.
//!
//! Contracts see a `Graph` as the `Graph` of `specs/Graph.antt`: what a text says of its collections. The layers above use:
//!
//! - `parse` and `parse_spelled`, which return the graph that a text reads as (`Reads`) or a fault with its cause;
//! - `canonical`;
//! - the methods of `Graph`, each with an exact contract;
//! - the laws of texts and graphs (`law`);
//! - `Fits`, the rule that says when an event fits a graph and facts. It does not look at the bodies of steps (`fitting`).
#![tactic(auto)]

mod bodies;
mod build;
mod canonical_text;
mod crossing;
mod declarations;
mod examples;
mod fault;
mod graph;
mod law;
mod limits;
mod numbered;
mod parser;
mod parts;
mod place;
mod prescriptions;
mod relations;
mod resolved;
mod steps;
mod tables;

pub use canonical_text::canonical;
pub use crossing::{goes, graphs_cross, is_shared};
pub use examples::{canonical_example, fitting_example};
pub use fault::{GraphError, GraphFault};
pub use graph::Graph;
pub use law::{
    canonical_reads, fitting, one_graph, one_reading, prescribing, reads_textual,
    reads_without_fault, text_limit,
};
pub use limits::MOST_TEXT;
pub use parser::{parse, parse_spelled};
pub use steptree::{CheckError, Checked};
