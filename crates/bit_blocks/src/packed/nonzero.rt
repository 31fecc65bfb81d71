// Blocks that are not 0.
ghost use Rattle.std.specs.{Prelude.{◌≡◌, ℕ, ◌<◌, ◌≤◌, All, MatchOption, get_or, map}, Bool.{OnTrue, OnFalse}, Int.bit_at};
ghost use Rattle.bit_blocks.specs.Mismatches.{IsFirstNonzeroBlock};

use crate::block::BitBlock;
use crate::block::operators::{same, shift_right};
use crate::packed::access::block_at;

/// The first index at or above `from` of a nonzero block, or `None`. Reads no block past it.
///
/// ```
/// assert_eq!(first_nonzero_block(&[1u8, 0, 4], 1), Some(2));
/// ```
#[inline]
pub fn first_nonzero_block<B: BitBlock>(blocks: &[B], from: usize) -> Option<usize>
    requires { All B.is_block blocks.now }
    ensures { MatchOption result
        ((k : ℕ) → from ≤ k → get_or (map B.number blocks.now) k 0 ≡ 0)
        (IsFirstNonzeroBlock (map B.number blocks.now) from) }
{
    for k in from..blocks.len() {
        if !same(block_at(blocks, k), B::zero()) {
            return Some(k);
        }
    }
    None
}

/// The block with this index, or 0 past the end. Constant time.
#[inline]
pub fn block_or_zero<B: BitBlock>(blocks: &[B], k: usize) -> B
    requires { All B.is_block blocks.now }
    ensures of_block { B.is_block result }
    ensures of_number { B.number result ≡ get_or (map B.number blocks.now) k 0 }
{
    if k < blocks.len() {
        block_at(blocks, k)
    } else {
        B::zero()
    }
}

/// Whether the block has a 1 at the index or above it. Constant time.
#[inline]
pub fn has_one_from<B: BitBlock>(block: B, index: usize) -> bool
    requires of_block { B.is_block block }
    requires within { index < B.width }
    ensures some { OnTrue result ((j : ℕ) × (index ≤ j) × (j < B.width) × (bit_at (B.number block) j ≡ 1)) }
    ensures none { OnFalse result ((j : ℕ) → index ≤ j → bit_at (B.number block) j ≡ 0) }
{
    !same(shift_right(block, index), B::zero())
}
