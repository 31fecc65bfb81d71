//! Finite automata by sets of states: which words one accepts, the deterministic automaton that accepts the same,
//! and whether two deterministic ones accept the same.
#![tactic(auto)]

mod dfa;
mod equivalence;
mod fault;
mod nfa;
mod numbering;
mod step;
mod subsets;

pub use dfa::Dfa;
pub use equivalence::equivalent;
pub use fault::DfaError;
pub use nfa::{Nfa, accepts};
pub use subsets::determinize;
