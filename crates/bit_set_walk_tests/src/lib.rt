//! The tests of what `bit_set` walks over and searches, and the examples of its doc comments, by its public calls alone.
#![tactic(auto)]

#[cfg(test)]
mod agreement_tests;
#[cfg(test)]
mod example_tests;
#[cfg(test)]
mod expect;
#[cfg(test)]
mod large_tests;
#[cfg(test)]
mod run_tests;
#[cfg(test)]
mod walk_tests;
