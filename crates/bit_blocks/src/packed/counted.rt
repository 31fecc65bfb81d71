// Passes over the blocks of two lists that count their steps. Each step is counted where the block is written or read, in the
// innermost call, so that a contract sees a pass that does so twice or leaves a block out.
ghost use Rattle.std.specs.Prelude.{◌≡◌, ◌≢◌, ℕ, ◌+◌, ◌/◌, ◌<◌, ◌≤◌, ◌↔◌, All, IsTrue, length, map, get_or, min};
ghost use Rattle.bit_blocks.specs.{declared.block.merge.Merge.Merge, BlockMerges.{other_at, CanMerge, HasMerged, IsFirstMerged, MergesToFalse, MergesToZero}, Comparisons.{CanCompare, TakesSteps}, Digits.is_one};

use crate::block::BitBlock;
use crate::block::merge::Merge;
use crate::block::operation::{Difference, Intersection, Operation};
use crate::block::operators::same;
use crate::packed::access::{block_at, put_in};
use crate::packed::nonzero::block_or_zero;
use crate::steps::Steps;

// Block `k` becomes its merge with the other, in one step.
#[inline]
fn merge_block_counted<B: BitBlock>(
    blocks: &mut [B],
    k: usize,
    other: B,
    merge: Merge,
    steps: &mut Steps,
)
    requires in_bounds { k < length blocks.old }
    requires each { All B.is_block blocks.old }
    requires of_other { B.is_block other }
    ensures has { HasMerged merge B.width B.number B.is_block k (k + 1) (λ q j. is_one (B.number other) j)
        blocks.old blocks.new }
    ensures steps { steps.new ≡ steps.old + 1 }
{
    let merged = merge.of_blocks(block_at(blocks, k), other);
    put_in(blocks, k, merged);
    steps.tick();
}

/// Each block becomes its merge with the other of its index, or with zeros where there is none. Takes a step for each
/// block, which is written once.
///
/// ```
/// let mut blocks = [5u8, 1];
/// merge_counted(&mut blocks, &[2], Merge::Union, &mut steps);
/// assert_eq!(blocks, [7, 1]);
/// ```
pub fn merge_counted<B: BitBlock>(blocks: &mut [B], others: &[B], merge: Merge, steps: &mut Steps)
    requires can { CanMerge B.is_block blocks.old (length others.now) (All B.is_block others.now) }
    ensures has { HasMerged merge B.width B.number B.is_block 0 (length blocks.old) (other_at (map B.number others.now))
        blocks.old blocks.new }
    ensures steps { steps.new ≡ steps.old + length blocks.old }
{
    for k in 0..blocks.len() {
        merge_block_counted(blocks, k, block_or_zero(others, k), merge, steps);
    }
}

// Whether the first `count` blocks merge to zeros. Stops at the first that does not.
fn first_merge_to_zero<B: BitBlock, O: Operation>(
    blocks: &[B],
    others: &[B],
    count: usize,
    steps: &mut Steps,
) -> bool
    requires can { CanCompare B.is_block blocks.now others.now count }
    ensures zero { IsTrue result
        ↔ MergesToZero O.merge B.width (map B.number blocks.now) (map B.number others.now) count }
    ensures steps { TakesSteps
        (λ i. IsFirstMerged O.merge B.width (map B.number blocks.now) (map B.number others.now) i × (i / B.width < count))
        B.width count steps.old steps.new result }
{
    for k in 0..count {
        steps.tick();
        let merged = O::of_blocks(block_at(blocks, k), block_at(others, k));
        if !same(merged, B::zero()) {
            return false;
        }
    }
    true
}

// Whether the blocks from `start` on are zeros. Stops at the first that is not.
fn rest_is_zero<B: BitBlock>(blocks: &[B], start: usize, steps: &mut Steps) -> bool
    requires within { start ≤ length blocks.now }
    requires each { All B.is_block blocks.now }
    ensures zero { IsTrue result ↔ ((k : ℕ) → start ≤ k → get_or (map B.number blocks.now) k 0 ≡ 0) }
    ensures stops { (k : ℕ) → start ≤ k → get_or (map B.number blocks.now) k 0 ≢ 0
        → ((q : ℕ) → start ≤ q → q < k → get_or (map B.number blocks.now) q 0 ≡ 0)
        → steps.new + start ≡ steps.old + k + 1 }
    ensures fewest { steps.old ≤ steps.new }
    ensures most { steps.new + start ≤ steps.old + length blocks.now }
    ensures all { IsTrue result → steps.new + start ≡ steps.old + length blocks.now }
{
    for k in start..blocks.len() {
        steps.tick();
        if !same(block_at(blocks, k), B::zero()) {
            return false;
        }
    }
    true
}

/// Whether each 1 of the blocks is one of the others. Takes a step for each block that is read, up to the one that decides.
///
/// ```
/// assert!(difference_is_zero_counted(&[5u8], &[7, 1], &mut steps));
/// ```
pub fn difference_is_zero_counted<B: BitBlock>(
    blocks: &[B],
    others: &[B],
    steps: &mut Steps,
) -> bool
    requires each { All B.is_block blocks.now }
    requires others { All B.is_block others.now }
    ensures zero { IsTrue result
        ↔ MergesToFalse Merge.Difference B.width (map B.number blocks.now) (map B.number others.now) }
    ensures steps { TakesSteps (IsFirstMerged Merge.Difference B.width (map B.number blocks.now) (map B.number others.now))
        B.width (length blocks.now) steps.old steps.new result }
{
    let count = blocks.len().min(others.len());
    first_merge_to_zero::<B, Difference>(blocks, others, count, steps)
        && rest_is_zero(blocks, count, steps)
}

/// Whether no 1 of the blocks is one of the others. Takes a step for each block that is read, up to the one that decides.
///
/// ```
/// assert!(intersection_is_zero_counted(&[5u8], &[2, 1], &mut steps));
/// ```
pub fn intersection_is_zero_counted<B: BitBlock>(
    blocks: &[B],
    others: &[B],
    steps: &mut Steps,
) -> bool
    requires each { All B.is_block blocks.now }
    requires others { All B.is_block others.now }
    ensures zero { IsTrue result
        ↔ MergesToFalse Merge.Intersection B.width (map B.number blocks.now) (map B.number others.now) }
    ensures steps { TakesSteps (IsFirstMerged Merge.Intersection B.width (map B.number blocks.now) (map B.number others.now))
        B.width (min (length blocks.now) (length others.now)) steps.old steps.new result }
{
    let count = blocks.len().min(others.len());
    first_merge_to_zero::<B, Intersection>(blocks, others, count, steps)
}
