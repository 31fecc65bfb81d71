//! Matrices of bits: rows of columns, each row a set of numbers, in one piece of memory.
#![tactic(auto)]

mod display;
mod faults;
mod hash;
mod matrix;
mod merges;
mod squares;
mod table;
mod walk;

pub use bit_words::bit_vec::BitBlock;
pub use faults::MatrixError;
pub use matrix::BitMatrix;
pub use walk::Iter;
