// Whether the blocks of two lists merge to zeros: within one another, or apart.
ghost use Rattle.std.specs.Prelude.{◌≡◌, ◌≤◌, ◌↔◌, All, IsTrue, length, map};
ghost use Rattle.bit_blocks.specs.{declared.block.merge.Merge.Merge, BlockMerges.{MergesToFalse, MergesToZero}, Comparisons.CanCompare};

use crate::block::BitBlock;
use crate::block::operation::{Difference, Intersection, Operation};
use crate::block::operators::same;
use crate::packed::access::block_at;
use crate::packed::zeros::are_zero;

// Whether the first `count` blocks merge to zeros. Stops at the first that does not.
fn first_merge_to_zero<B: BitBlock, O: Operation>(blocks: &[B], others: &[B], count: usize) -> bool
    requires can { CanCompare B.is_block blocks.now others.now count }
    ensures { IsTrue result
        ↔ MergesToZero O.merge B.width (map B.number blocks.now) (map B.number others.now) count }
{
    for k in 0..count {
        let merged = O::of_blocks(block_at(blocks, k), block_at(others, k));
        if !same(merged, B::zero()) {
            return false;
        }
    }
    true
}

/// Whether each 1 of the blocks is one of the others. Stops at the block that decides, or at most seven past it.
///
/// ```
/// assert!(difference_is_zero(&[5u8], &[7, 1]));
/// ```
pub fn difference_is_zero<B: BitBlock>(blocks: &[B], others: &[B]) -> bool
    requires each { All B.is_block blocks.now }
    requires others { All B.is_block others.now }
    ensures zero { IsTrue result
        ↔ MergesToFalse Merge.Difference B.width (map B.number blocks.now) (map B.number others.now) }
{
    let count = blocks.len().min(others.len());
    first_merge_to_zero::<B, Difference>(blocks, others, count)
        && are_zero(blocks.split_at(count).1)
}

/// Whether no 1 of the blocks is one of the others. Stops at the block that decides.
///
/// ```
/// assert!(intersection_is_zero(&[5u8], &[2, 1]));
/// ```
pub fn intersection_is_zero<B: BitBlock>(blocks: &[B], others: &[B]) -> bool
    requires each { All B.is_block blocks.now }
    requires others { All B.is_block others.now }
    ensures zero { IsTrue result
        ↔ MergesToFalse Merge.Intersection B.width (map B.number blocks.now) (map B.number others.now) }
{
    let count = blocks.len().min(others.len());
    first_merge_to_zero::<B, Intersection>(blocks, others, count)
}
