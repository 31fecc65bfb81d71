// What is asked of the values from `start` up to `end`: how many are true, and whether all are or none is. The
// first and the last of their blocks are read through a mask.
ghost use Rattle.std.specs.{Prelude.{◌≡◌, ℕ, ◌-◌, ◌*◌, ◌<◌, ◌≤◌, ◌↔◌, All, IsTrue, bit_and, drop, false, get_or, length, map, take, true}, Int.RustNames.count_ones, List.{count_by, range_with_len}};
ghost use Rattle.bit_blocks.specs.{BlockMerges.MergesSpanToFalse, Digits.is_one, Merges.merge_of_values, Storage.value_at};

use crate::block::BitBlock;
use crate::block::masks::{ones_between, ones_from};
use crate::block::operation::Operation;
use crate::block::operators::{all_ones, block_and, ones_below, same};
use crate::packed::access::{block_at, place_of};
use crate::packed::ones::ones_of;

// The blocks from `first` up to `end`.
#[inline]
fn blocks_between<B: BitBlock>(blocks: &[B], first: usize, end: usize) -> &[B]
    requires forward { first ≤ end }
    requires within { end ≤ length blocks.now }
    ensures { result.now ≡ take (end - first) (drop first blocks.now) }
{
    blocks.split_at(first).1.split_at(end - first).0
}

// How many ones of block `k` the mask has.
#[inline]
fn ones_under<B: BitBlock>(blocks: &[B], k: usize, mask: B) -> usize
    requires in_bounds { k < length blocks.now }
    requires each { All B.is_block blocks.now }
    requires of_mask { B.is_block mask }
    ensures { result ≡ count_ones (bit_and (get_or (map B.number blocks.now) k 0) (B.number mask)) }
{
    block_and(block_at(blocks, k), mask).count_ones()
}

/// How many of the bits from `start` up to `end` are 1; there must be at least one such bit. Adds up the ones of
/// each block.
///
/// ```
/// assert_eq!(ones_in_span(&[0b1001u8, 0b0110], 3, 10), 2);
/// ```
pub fn ones_in_span<B: BitBlock>(blocks: &[B], start: usize, end: usize) -> usize
    requires some { start < end }
    requires within { end ≤ length blocks.now * B.width }
    requires each { All B.is_block blocks.now }
    ensures { result ≡ count_by (value_at B.width (map B.number blocks.now)) (range_with_len start (end - start)) }
{
    let (first, low) = place_of::<B>(start);
    let (last, high) = place_of::<B>(end);
    if first == last {
        return ones_under(blocks, first, ones_between(low, high));
    }
    let begun = ones_under(blocks, first, ones_from(low));
    let ones = begun + ones_of(blocks_between(blocks, first + 1, last));
    if high == 0 {
        return ones;
    }
    ones + ones_under(blocks, last, ones_below(high))
}

// Whether what the mask and block `k` merge to is 0.
#[inline]
fn masks_to_zero<B: BitBlock, O: Operation>(blocks: &[B], k: usize, mask: B) -> bool
    requires in_bounds { k < length blocks.now }
    requires each { All B.is_block blocks.now }
    requires of_mask { B.is_block mask }
    ensures { IsTrue result ↔ ((j : ℕ) → j < B.width
        → merge_of_values O.merge (is_one (B.number mask) j) (is_one (get_or (map B.number blocks.now) k 0) j) ≡ false) }
{
    same(O::of_blocks(mask, block_at(blocks, k)), B::zero())
}

// Whether what ones and each of the blocks from `first` up to `end` merge to is 0. Stops at the first that does
// not.
#[inline]
fn ones_merge_to_zero<B: BitBlock, O: Operation>(blocks: &[B], first: usize, end: usize) -> bool
    requires forward { first ≤ end }
    requires within { end ≤ length blocks.now }
    requires each { All B.is_block blocks.now }
    requires nothing { merge_of_values O.merge false true ≡ false }
    ensures { IsTrue result
        ↔ MergesSpanToFalse O.merge B.width (first * B.width) (end * B.width) (map B.number blocks.now) }
{
    let ones = all_ones();
    for k in first..end {
        if !masks_to_zero::<B, O>(blocks, k, ones) {
            return false;
        }
    }
    true
}

/// Whether true merges to false with each of the bits from `start` up to `end`, of which there must be at least
/// one: by a difference if all are 1, by an intersection if none is. Stops at the block that decides.
///
/// ```
/// assert!(span_merges_to_false::<u8, Difference>(&[0b1000, 0b0011], 3, 4));
/// ```
pub fn span_merges_to_false<B: BitBlock, O: Operation>(
    blocks: &[B],
    start: usize,
    end: usize,
) -> bool
    requires some { start < end }
    requires within { end ≤ length blocks.now * B.width }
    requires each { All B.is_block blocks.now }
    requires nothing { merge_of_values O.merge false true ≡ false }
    ensures { IsTrue result ↔ MergesSpanToFalse O.merge B.width start end (map B.number blocks.now) }
{
    let (first, low) = place_of::<B>(start);
    let (last, high) = place_of::<B>(end);
    if first == last {
        return masks_to_zero::<B, O>(blocks, first, ones_between(low, high));
    }
    if !masks_to_zero::<B, O>(blocks, first, ones_from(low)) {
        return false;
    }
    if !ones_merge_to_zero::<B, O>(blocks, first + 1, last) {
        return false;
    }
    high == 0 || masks_to_zero::<B, O>(blocks, last, ones_below(high))
}
