//! The tests of the libraries that use sets, and the examples of `bit_matrix`, by their public calls alone.
#![tactic(auto)]

#[cfg(test)]
mod automata_tests;
#[cfg(test)]
mod bit_matrix_tests;
#[cfg(test)]
mod callers;
#[cfg(test)]
mod dataflow_tests;
#[cfg(test)]
mod expect;
#[cfg(test)]
mod free_slots_tests;
#[cfg(test)]
mod graph_walks_tests;
