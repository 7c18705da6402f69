//! A picture of a workflow as nodes and edges: for Mermaid, and for Graphviz.
#![tactic(auto)]

mod chart;
mod lines;
mod title;
mod words;

pub use chart::{print_dot, print_mermaid};
