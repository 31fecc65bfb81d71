//! The tests of `bit_words`, by its public calls alone.
#![tactic(auto)]

#[cfg(test)]
mod block_tests;
#[cfg(test)]
mod example_tests;
#[cfg(test)]
mod expect;
#[cfg(test)]
mod merge_tests;
#[cfg(test)]
mod nonzero_tests;
#[cfg(test)]
mod packed_tests;
#[cfg(test)]
mod vector_tests;
