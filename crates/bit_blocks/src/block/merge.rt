// The four ways to make two blocks one. Lists of blocks are merged in `packed`.
ghost use Rattle.std.specs.{Prelude.{◌≡◌, ℕ, ◌<◌, ◌==◌}, Int.bit_at};
ghost use Rattle.bit_blocks.specs.Merges.{merge_of_values};

use crate::block::BitBlock;
use crate::block::operation::{Difference, Intersection, Operation, Symmetric, Union};

/// How two sets, or two bit vectors, are merged.
#[derive(Clone, Copy, Debug, PartialEq, Eq)]
pub enum Merge {
    /// What is in either: `a | b`, block by block.
    Union,
    /// What is in both: `a & b`.
    Intersection,
    /// What is only in the first: `a & !b`.
    Difference,
    /// What is in exactly one: `a ^ b`.
    Symmetric,
}

impl Merge {
    /// The merge of two blocks, bit by bit. Constant time.
    #[inline]
    pub fn of_blocks<B: BitBlock>(self, a: B, b: B) -> B
        requires left { B.is_block a }
        requires right { B.is_block b }
        ensures of_block { B.is_block result }
        ensures digits { (i : ℕ) → i < B.width
            → (bit_at (B.number result) i == 1)
            ≡ merge_of_values self (bit_at (B.number a) i == 1) (bit_at (B.number b) i == 1) }
    {
        match self {
            Merge::Union => Union::of_blocks(a, b),
            Merge::Intersection => Intersection::of_blocks(a, b),
            Merge::Difference => Difference::of_blocks(a, b),
            Merge::Symmetric => Symmetric::of_blocks(a, b),
        }
    }
}
