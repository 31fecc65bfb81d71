//! Bit vectors over blocks of any lawful type.
#![tactic(auto)]

pub mod bit_vec;
pub mod laws;
mod summary;
