// Merges with a span, a list that is true from `start` up to `end`: the first and the last block of it with a mask,
// those between with ones alone.
ghost use Rattle.std.specs.Prelude.{◌≡◌, ◌≢◌, ℕ, ◌*◌, ◌<◌, ◌≤◌, All, get_or, length, map, true, false, vec_len};
ghost use Rattle.bit_blocks.specs.{BlockMerges.IsMergedSpan, Digits.is_one, Merges.merge_of_values, Storage.WritesInPlace, Written.WritesBlocks};

use crate::block::BitBlock;
use crate::block::masks::{ones_between, ones_from};
use crate::block::operation::Operation;
use crate::block::operators::{all_ones, ones_below};
use crate::packed::access::{block_at, place_of, put_in};

// Block `k` becomes its merge with the mask.
#[inline]
fn merge_mask<B: BitBlock, O: Operation>(blocks: &mut [B], k: usize, mask: B)
    requires in_bounds { k < length blocks.old }
    requires each { All B.is_block blocks.old }
    requires of_mask { B.is_block mask }
    ensures digits { (j : ℕ) → j < B.width → is_one (get_or (map B.number blocks.new) k 0) j
        ≡ merge_of_values O.merge (is_one (get_or (map B.number blocks.old) k 0) j) (is_one (B.number mask) j) }
    ensures others { (q : ℕ) → q ≢ k
        → get_or (map B.number blocks.new) q 0 ≡ get_or (map B.number blocks.old) q 0 }
    ensures written { WritesBlocks B.is_block blocks.old blocks.new }
{
    let merged = O::of_blocks(block_at(blocks, k), mask);
    put_in(blocks, k, merged);
}

// Each of the blocks from `first` up to `end` becomes its merge with ones. The compiler makes a fill of it where
// the merge is a union or a difference, and vector code where not.
#[inline]
fn merge_with_ones<B: BitBlock, O: Operation>(blocks: &mut [B], first: usize, end: usize)
    requires forward { first ≤ end }
    requires within { end ≤ length blocks.old }
    requires each { All B.is_block blocks.old }
    requires keeps { merge_of_values O.merge true false ≡ true }
    ensures span { IsMergedSpan O.merge B.width (first * B.width) (end * B.width) (map B.number blocks.old)
        (map B.number blocks.new) }
    ensures written { WritesBlocks B.is_block blocks.old blocks.new }
{
    let ones = all_ones();
    for k in first..end {
        merge_mask::<B, O>(blocks, k, ones);
    }
}

// The values from `start` up to `end` (at least one) become their merges with true.
#[inline]
fn merge_in<B: BitBlock, O: Operation>(blocks: &mut [B], start: usize, end: usize)
    requires some { start < end }
    requires within { end ≤ length blocks.old * B.width }
    requires each { All B.is_block blocks.old }
    requires keeps { merge_of_values O.merge true false ≡ true }
    ensures span { IsMergedSpan O.merge B.width start end (map B.number blocks.old) (map B.number blocks.new) }
    ensures written { WritesBlocks B.is_block blocks.old blocks.new }
{
    let (first, low) = place_of::<B>(start);
    let (last, high) = place_of::<B>(end);
    if first == last {
        merge_mask::<B, O>(blocks, first, ones_between(low, high));
        return;
    }
    merge_mask::<B, O>(blocks, first, ones_from(low));
    merge_with_ones::<B, O>(blocks, first + 1, last);
    if high != 0 {
        merge_mask::<B, O>(blocks, last, ones_below(high));
    }
}

/// The bits from `start` up to `end`, of which there must be at least one, become their merges with true: 1 by a
/// union, 0 by a difference. Each of their blocks is written once.
///
/// ```
/// merge_span::<u8, Union>(&mut blocks, 3, 10);
/// ```
pub fn merge_span<B: BitBlock, O: Operation>(blocks: &mut Vec<B>, start: usize, end: usize)
    requires some { start < end }
    requires within { end ≤ vec_len blocks.old * B.width }
    requires each { All B.is_block blocks.old.items }
    requires keeps { merge_of_values O.merge true false ≡ true }
    ensures span { IsMergedSpan O.merge B.width start end (map B.number blocks.old.items)
        (map B.number blocks.new.items) }
    ensures in_place { WritesInPlace B.is_block blocks.old blocks.new }
{
    merge_in::<B, O>(blocks.as_mut_slice(), start, end);
}
