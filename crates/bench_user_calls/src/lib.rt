//! Work to be timed on what stands above the sets: graphs, automata, dataflow, slots and matrices. `bench/run` calls it
//! beside the same work by other libraries. Each function does its work `turns` times over and returns a number that all
//! sides agree on, or `usize::MAX` where memory runs out.
#![tactic(auto)]

mod calls;
mod determinizing;
mod graphs;
mod live_variables;
mod matrices;
mod slots;
