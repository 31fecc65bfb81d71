//! Blocks of bits, and lists of bits in vectors of blocks.
#![tactic(auto)]

pub mod block;
pub mod packed;
pub mod steps;
