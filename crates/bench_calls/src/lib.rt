//! Work on sets and bit vectors to be timed: `bench/run` calls it beside the same work by other libraries. Each
//! function does its work `turns` times over and returns a number that all sides agree on, or `usize::MAX` where
//! memory runs out.
#![tactic(auto)]

mod calls;
mod growing;
mod input_sets;
mod inserting;
mod parts;
mod ranges;
mod reading;
mod small_changes;
mod small_merges;
mod small_reads;
mod sparse;
mod turns;
mod two_sets;
