//! Sets of whole numbers, each stored as the true indexes of a bit vector.
#![tactic(auto)]

mod display;
mod faults;
mod hash;
mod json;
pub mod laws;
mod order;
mod range_texts;
mod set;
mod walk;

/// Bit vectors: what a set is stored in, and what can be converted to a set.
pub use bit_words::bit_vec;
/// What a block type must provide.
pub use bit_words::bit_vec::BitBlock;
pub use display::ranges::Ranges;
pub use faults::SetError;
pub use json::{JsonBlock, JsonError};
pub use range_texts::RangesError;
pub use set::BitSet;
pub use walk::missing::Missing;
pub use walk::runs::Runs;
pub use walk::{Difference, Intersection, Iter, SymmetricDifference, TwoSets, Union};
