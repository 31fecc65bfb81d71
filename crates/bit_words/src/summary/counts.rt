// How many ones a part of the merge of two lists of blocks has. The merge is not made, and if a summary is stored
// it says which blocks are read.
ghost use Rattle.std.specs.Prelude.{◌≡◌, ℕ, ◌+◌, ◌*◌, ◌^◌, ◌<◌, ◌≤◌, All, false, true, length, map, max, min};
ghost use Rattle.bit_blocks.specs.{Bits.blocks_for, Digits.is_one, Merges.merge_of_values};
ghost use Rattle.bit_words.specs.{MergedOnes.{may_merge, merged_ones, CoversMerged}, Summary.IsStoredSummary};

use crate::summary::is_nonzero;
use crate::summary::queries::summary_at;
use bit_blocks::block::BitBlock;
use bit_blocks::block::lowest::take_lowest_one;
use bit_blocks::block::operation::Operation;
use bit_blocks::block::operators::{block_or, same};
use bit_blocks::packed::access::{block_at, block_index};
use bit_blocks::packed::nonzero::block_or_zero;

pub(crate) mod by_summaries;

// Where one in this many of the blocks of a chunk has to be read, or more, all of them are, in one loop without a
// branch. So it is with the chunks of a group.
pub(crate) const MANY: usize = 4;

// The ones of block `k` of the merge. A block past the end of a list is 0.
#[inline(always)]
pub(crate) fn ones_at<B: BitBlock, O: Operation>(blocks: &[B], others: &[B], k: usize) -> usize
    requires each { All B.is_block blocks.now }
    requires others { All B.is_block others.now }
    ensures { result
        ≡ merged_ones O.merge B.width (map B.number blocks.now) (map B.number others.now) k (k + 1) }
{
    O::of_blocks(block_or_zero(blocks, k), block_or_zero(others, k)).count_ones()
}

// The ones of the merge of the `count` blocks from `start` on, which both lists have.
#[inline(always)]
fn ones_of_both<B: BitBlock, O: Operation>(
    blocks: &[B],
    others: &[B],
    start: usize,
    count: usize,
) -> usize
    requires within { start + count ≤ length blocks.now }
    requires within_others { start + count ≤ length others.now }
    requires each { All B.is_block blocks.now }
    requires others { All B.is_block others.now }
    requires fits { merged_ones O.merge B.width (map B.number blocks.now) (map B.number others.now) start
        (start + count) < 2 ^ 64 }
    ensures { result ≡ merged_ones O.merge B.width (map B.number blocks.now) (map B.number others.now) start
        (start + count) }
{
    let mut ones = 0;
    for j in 0..count {
        let k = start + j;
        ones += O::of_blocks(block_at(blocks, k), block_at(others, k)).count_ones();
    }
    ones
}

// The ones of the merge from block `first` up to block `end`; a list may end before.
#[inline]
fn ones_of_either<B: BitBlock, O: Operation>(
    blocks: &[B],
    others: &[B],
    first: usize,
    end: usize,
) -> usize
    requires forward { first ≤ end }
    requires each { All B.is_block blocks.now }
    requires others { All B.is_block others.now }
    requires fits { merged_ones O.merge B.width (map B.number blocks.now) (map B.number others.now) first end < 2 ^ 64 }
    ensures { result ≡ merged_ones O.merge B.width (map B.number blocks.now) (map B.number others.now) first end }
{
    let mut ones = 0;
    for k in first..end {
        ones += ones_at::<B, O>(blocks, others, k);
    }
    ones
}

// The ones of the merge from block `start` on, of as many blocks as one has bits. Reads those at which `used` has a 1.
fn ones_of_used<B: BitBlock, O: Operation>(
    blocks: &[B],
    others: &[B],
    start: usize,
    used: B,
) -> usize
    requires each { All B.is_block blocks.now }
    requires others { All B.is_block others.now }
    requires of_block { B.is_block used }
    requires covers { CoversMerged O.merge B.width (map B.number blocks.now) (map B.number others.now) start
        (B.number used) }
    requires fits { merged_ones O.merge B.width (map B.number blocks.now) (map B.number others.now) start
        (start + B.width) < 2 ^ 64 }
    ensures { result
        ≡ merged_ones O.merge B.width (map B.number blocks.now) (map B.number others.now) start (start + B.width) }
{
    let mut ones = 0;
    let mut rest = used;
    while rest != B::zero() {
        let index = take_lowest_one(&mut rest);
        ones += ones_at::<B, O>(blocks, others, start + index);
    }
    ones
}

// Whether a merge keeps what the first list has past the end of the second: all but an intersection do.
#[inline(always)]
pub(crate) fn keeps_first<B: BitBlock, O: Operation>() -> bool
    ensures { result ≡ merge_of_values O.merge true false }
{
    is_nonzero(O::of_blocks(B::one(), B::zero()))
}

// Whether it keeps what the second has past the end of the first.
#[inline(always)]
pub(crate) fn keeps_second<B: BitBlock, O: Operation>() -> bool
    ensures { result ≡ merge_of_values O.merge false true }
{
    is_nonzero(O::of_blocks(B::zero(), B::one()))
}

// How many blocks of a merge may have ones: as many as the longer list has, or as the shorter, if the merge keeps nothing
// past its end.
#[inline(always)]
pub(crate) fn merged_len<B: BitBlock, O: Operation>(blocks: &[B], others: &[B]) -> usize
    ensures within { result ≤ max (length blocks.now) (length others.now) }
    ensures past { (a b : ℕ) → result ≤ a
        → merged_ones O.merge B.width (map B.number blocks.now) (map B.number others.now) a b ≡ 0 }
{
    if blocks.len() > others.len() {
        if keeps_first::<B, O>() {
            blocks.len()
        } else {
            others.len()
        }
    } else if keeps_second::<B, O>() {
        others.len()
    } else {
        blocks.len()
    }
}

// Which blocks of a chunk have to be read; `own` and `other` have a 1 for each that is nonzero in either list.
#[inline(always)]
pub(crate) fn may_have_ones<B: BitBlock, O: Operation>(own: B, other: B) -> B
    requires of_own { B.is_block own }
    requires of_other { B.is_block other }
    ensures of_block { B.is_block result }
    ensures digits { (j : ℕ) → j < B.width → is_one (B.number result) j
        ≡ may_merge O.merge (is_one (B.number own) j) (is_one (B.number other) j) }
{
    let zero = B::zero();
    let alone = block_or(O::of_blocks(zero, other), O::of_blocks(own, other));
    block_or(O::of_blocks(own, zero), alone)
}

// The ones of the merge from block `start` on, of as many blocks as one has bits. Those at which `used` has a 0 have none, and
// `is_whole` says whether both lists have all of these blocks.
#[inline]
pub(crate) fn ones_of_chunk<B: BitBlock, O: Operation>(
    blocks: &[B],
    others: &[B],
    start: usize,
    used: B,
    is_whole: bool,
) -> usize
    requires each { All B.is_block blocks.now }
    requires others { All B.is_block others.now }
    requires of_block { B.is_block used }
    requires covers { CoversMerged O.merge B.width (map B.number blocks.now) (map B.number others.now) start
        (B.number used) }
    requires whole { is_whole ≡ true → (start + B.width ≤ length blocks.now) × (start + B.width ≤ length others.now) }
    requires fits { merged_ones O.merge B.width (map B.number blocks.now) (map B.number others.now) start
        (start + B.width) < 2 ^ 64 }
    ensures { result
        ≡ merged_ones O.merge B.width (map B.number blocks.now) (map B.number others.now) start (start + B.width) }
{
    // Most often in a list with few ones.
    if !is_nonzero(used) {
        return 0;
    }
    let width = B::bits();
    if is_whole && used.count_ones() >= width / MANY {
        ones_of_both::<B, O>(blocks, others, start, width)
    } else {
        ones_of_used::<B, O>(blocks, others, start, used)
    }
}

// The ones of the merge of chunk `q`: of the blocks that a block of a summary covers.
#[inline(always)]
pub(crate) fn ones_at_chunk<B: BitBlock, O: Operation>(
    blocks: &[B],
    summary: &[B],
    others: &[B],
    other_summary: &[B],
    q: usize,
) -> usize
    requires each { All B.is_block blocks.now }
    requires others { All B.is_block others.now }
    requires summary { IsStoredSummary B.width B.number B.is_block blocks.now summary.now }
    requires other_summary { IsStoredSummary B.width B.number B.is_block others.now other_summary.now }
    requires lengths { max (length blocks.now) (length others.now) < 2 ^ 64 }
    requires in_blocks { q < blocks_for B.width (max (length blocks.now) (length others.now)) }
    requires fits { (n : ℕ)
        → merged_ones O.merge B.width (map B.number blocks.now) (map B.number others.now) 0 n < 2 ^ 64 }
    ensures { result ≡ merged_ones O.merge B.width (map B.number blocks.now) (map B.number others.now)
        (q * B.width) ((q + 1) * B.width) }
{
    let whole = block_index::<B>(blocks.len().min(others.len()));
    let own = summary_at(blocks, summary, q);
    let used = may_have_ones::<B, O>(own, summary_at(others, other_summary, q));
    let start = q * B::bits();
    ones_of_chunk::<B, O>(blocks, others, start, used, q < whole)
}

// The ones of the merge of the chunks from `first` up to `end`.
#[inline(never)]
pub(crate) fn ones_of_chunks<B: BitBlock, O: Operation>(
    blocks: &[B],
    summary: &[B],
    others: &[B],
    other_summary: &[B],
    first: usize,
    end: usize,
) -> usize
    requires each { All B.is_block blocks.now }
    requires others { All B.is_block others.now }
    requires summary { IsStoredSummary B.width B.number B.is_block blocks.now summary.now }
    requires other_summary { IsStoredSummary B.width B.number B.is_block others.now other_summary.now }
    requires forward { first ≤ end }
    requires lengths { max (length blocks.now) (length others.now) < 2 ^ 64 }
    requires in_blocks { end ≤ blocks_for B.width (max (length blocks.now) (length others.now)) }
    requires fits { (n : ℕ)
        → merged_ones O.merge B.width (map B.number blocks.now) (map B.number others.now) 0 n < 2 ^ 64 }
    ensures { result ≡ merged_ones O.merge B.width (map B.number blocks.now) (map B.number others.now)
        (first * B.width) (end * B.width) }
{
    let mut ones = 0;
    for q in first..end {
        ones += ones_at_chunk::<B, O>(blocks, summary, others, other_summary, q);
    }
    ones
}

// The ones of the merge past block `both`, the end of the shorter list. That is merged as an empty one, so that the
// compiler takes out a loop that adds none.
#[inline(always)]
fn ones_of_rest<B: BitBlock, O: Operation>(blocks: &[B], others: &[B], both: usize) -> usize
    requires each { All B.is_block blocks.now }
    requires others { All B.is_block others.now }
    requires end { both ≡ min (length blocks.now) (length others.now) }
    requires fits { merged_ones O.merge B.width (map B.number blocks.now) (map B.number others.now) both
        (max (length blocks.now) (length others.now)) < 2 ^ 64 }
    ensures { result ≡ merged_ones O.merge B.width (map B.number blocks.now) (map B.number others.now) both
        (max (length blocks.now) (length others.now)) }
{
    if blocks.len() > both {
        ones_of_either::<B, O>(blocks, &[], both, blocks.len())
    } else {
        ones_of_either::<B, O>(&[], others, both, others.len())
    }
}

/// How many ones the merge of two lists of blocks has, the shorter one extended by zeros. Reads each block once.
///
/// ```
/// assert_eq!(count_merged_blocks::<_, Union>(&[5u8, 1], &[6]), 4);
/// ```
#[inline(always)]
pub fn count_merged_blocks<B: BitBlock, O: Operation>(blocks: &[B], others: &[B]) -> usize
    requires each { All B.is_block blocks.now }
    requires others { All B.is_block others.now }
    requires fits { merged_ones O.merge B.width (map B.number blocks.now) (map B.number others.now) 0
        (max (length blocks.now) (length others.now)) < 2 ^ 64 }
    ensures { result ≡ merged_ones O.merge B.width (map B.number blocks.now) (map B.number others.now) 0
        (max (length blocks.now) (length others.now)) }
{
    let both = blocks.len().min(others.len());
    ones_of_both::<B, O>(blocks, others, 0, both) + ones_of_rest::<B, O>(blocks, others, both)
}
