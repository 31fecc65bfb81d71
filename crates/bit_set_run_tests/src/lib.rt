//! The tests of `bit_set_run`, by its public calls alone.
#![tactic(auto)]

#[cfg(test)]
mod expect;
#[cfg(test)]
mod tests;
