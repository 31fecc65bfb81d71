//! The tests of `uses`: each is run once, by public calls alone.
#![tactic(auto)]

#[cfg(test)]
mod chains_tests;
#[cfg(test)]
mod commands_tests;
#[cfg(test)]
mod expect;
#[cfg(test)]
mod kinds_tests;
#[cfg(test)]
mod loops_tests;
#[cfg(test)]
mod matrices_tests;
#[cfg(test)]
mod set_tests;
