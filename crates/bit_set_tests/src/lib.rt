//! The tests of `bit_set` except those of `bit_set_walk_tests`, using only its public calls.
#![tactic(auto)]

#[cfg(test)]
mod capacity_tests;
#[cfg(test)]
mod expect;
#[cfg(test)]
mod json_tests;
#[cfg(test)]
mod order_tests;
#[cfg(test)]
mod set_tests;
#[cfg(test)]
mod steps;
