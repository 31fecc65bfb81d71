//! Reachability in graphs, the closure of a graph and its dominators, by sets of nodes.
#![tactic(auto)]

mod closure;
mod dominance;
mod graph;
mod inclusion;
pub mod laws;
mod matrix;
mod walk;

pub use closure::close;
pub use dominance::dominators;
pub use graph::Graph;
pub use inclusion::reaches_all_of;
pub use matrix::{reflexive_transitive_closure, transitive_closure};
pub use walk::{
    Effort, reachable, reachable_counted, reachable_from_any, reachable_from_any_counted,
};
