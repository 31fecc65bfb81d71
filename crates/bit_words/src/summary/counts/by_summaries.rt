// The ones of the merge of two lists that have summaries, a group of chunks at a time: few of them have any in a sparse list.
ghost use Rattle.std.specs.Prelude.{◌≡◌, ℕ, ◌+◌, ◌*◌, ◌^◌, ◌<◌, ◌≤◌, All, drop, get_or, false, length, map, max, min};
ghost use Rattle.bit_blocks.specs.{Bits.blocks_for, Digits.is_one, Storage.ones_in, declared.block.merge.Merge.Merge};
ghost use Rattle.bit_words.specs.{MergedOnes.{may_merge, merged_ones, CoversChunks}, Summary.{short_count, IsStoredSummary, IsSummary}};

use crate::summary::counts::{
    MANY, count_merged_blocks, keeps_first, keeps_second, may_have_ones, merged_len, ones_at_chunk,
    ones_of_chunks,
};
use crate::summary::queries::{first_chunks, ones_of_runs};
use crate::summary::{is_nonzero, is_short};
use bit_blocks::block::BitBlock;
use bit_blocks::block::lowest::take_lowest_one;
use bit_blocks::block::masks::with_one_if;
use bit_blocks::block::merge::Merge;
use bit_blocks::block::operation::{Difference, Intersection, Operation, Symmetric, Union};
use bit_blocks::packed::access::{block_at, block_count};
use bit_blocks::packed::groups::LONG_GROUP;

// Which of the `count` chunks from `first` on have to be looked at, the first of them at the lowest bit. The
// compiler makes vector code of this if it knows the count.
#[inline]
fn used_chunks<B: BitBlock, O: Operation>(
    summary: &[B],
    other_summary: &[B],
    first: usize,
    count: usize,
) -> B
    requires in_summary { first + count ≤ length summary.now }
    requires in_other { first + count ≤ length other_summary.now }
    requires within { count ≤ B.width }
    requires each { All B.is_block summary.now }
    requires each_other { All B.is_block other_summary.now }
    ensures of_block { B.is_block result }
    ensures past { (j : ℕ) → count ≤ j → j < B.width → is_one (B.number result) j ≡ false }
    ensures none { (j p : ℕ) → j < count → is_one (B.number result) j ≡ false → p < B.width
        → may_merge O.merge (is_one (get_or (map B.number summary.now) (first + j) 0) p)
        (is_one (get_or (map B.number other_summary.now) (first + j) 0) p) ≡ false }
{
    let mut digits = B::zero();
    for j in 0..count {
        let q = first + j;
        let used = may_have_ones::<B, O>(block_at(summary, q), block_at(other_summary, q));
        digits = with_one_if(digits, j, is_nonzero(used));
    }
    digits
}

// The ones of the merge of the `count` chunks from `first` on. Looks at those at which `used` has a 1.
#[inline]
fn ones_of_used_chunks<B: BitBlock, O: Operation>(
    blocks: &[B],
    summary: &[B],
    others: &[B],
    other_summary: &[B],
    first: usize,
    count: usize,
    used: B,
) -> usize
    requires each { All B.is_block blocks.now }
    requires others { All B.is_block others.now }
    requires summary { IsStoredSummary B.width B.number B.is_block blocks.now summary.now }
    requires other_summary { IsStoredSummary B.width B.number B.is_block others.now other_summary.now }
    requires of_block { B.is_block used }
    requires within { count ≤ B.width }
    requires lengths { max (length blocks.now) (length others.now) < 2 ^ 64 }
    requires ends { first + count < 2 ^ 64 }
    requires in_blocks { first + count ≤ blocks_for B.width (max (length blocks.now) (length others.now)) }
    requires covers { CoversChunks O.merge B.width (map B.number blocks.now) (map B.number others.now) first count
        (B.number used) }
    requires fits { (n : ℕ)
        → merged_ones O.merge B.width (map B.number blocks.now) (map B.number others.now) 0 n < 2 ^ 64 }
    ensures { result ≡ merged_ones O.merge B.width (map B.number blocks.now) (map B.number others.now)
        (first * B.width) ((first + count) * B.width) }
{
    let mut ones = 0;
    let mut rest = used;
    while rest != B::zero() {
        let index = take_lowest_one(&mut rest);
        let q = first + index;
        ones += ones_at_chunk::<B, O>(blocks, summary, others, other_summary, q);
    }
    ones
}

// The ones of the merge of the `count` chunks from `first` on, about which there is a block in both summaries.
#[inline]
fn ones_of_group<B: BitBlock, O: Operation>(
    blocks: &[B],
    summary: &[B],
    others: &[B],
    other_summary: &[B],
    first: usize,
    count: usize,
) -> usize
    requires each { All B.is_block blocks.now }
    requires others { All B.is_block others.now }
    requires summary { IsStoredSummary B.width B.number B.is_block blocks.now summary.now }
    requires other_summary { IsStoredSummary B.width B.number B.is_block others.now other_summary.now }
    requires in_summary { first + count ≤ length summary.now }
    requires in_other { first + count ≤ length other_summary.now }
    requires lengths { max (length blocks.now) (length others.now) < 2 ^ 64 }
    requires ends { first + count < 2 ^ 64 }
    requires within { count ≤ B.width }
    requires some { 0 < count }
    requires fits { (n : ℕ)
        → merged_ones O.merge B.width (map B.number blocks.now) (map B.number others.now) 0 n < 2 ^ 64 }
    ensures { result ≡ merged_ones O.merge B.width (map B.number blocks.now) (map B.number others.now)
        (first * B.width) ((first + count) * B.width) }
{
    let used = used_chunks::<B, O>(summary, other_summary, first, count);
    if used.count_ones() >= count / MANY {
        ones_of_chunks::<B, O>(blocks, summary, others, other_summary, first, first + count)
    } else {
        ones_of_used_chunks::<B, O>(blocks, summary, others, other_summary, first, count, used)
    }
}

// The ones of the blocks from chunk `first` on.
#[inline(always)]
fn ones_from<B: BitBlock>(blocks: &[B], summary: &[B], first: usize) -> usize
    requires each { All B.is_block blocks.now }
    requires summary { IsSummary B.width B.number B.is_block blocks.now summary.now }
    requires within { first ≤ length summary.now }
    requires fits { ones_in B.number (drop (first * B.width) blocks.now) < 2 ^ 64 }
    ensures { result ≡ ones_in B.number (drop (first * B.width) blocks.now) }
{
    ones_of_runs(first_chunks(blocks, first).1, summary.split_at(first).1)
}

// The ones of the merge from chunk `first` on, where the shorter list has ended.
#[inline(always)]
fn ones_past<B: BitBlock, O: Operation>(
    blocks: &[B],
    summary: &[B],
    others: &[B],
    other_summary: &[B],
    first: usize,
) -> usize
    requires each { All B.is_block blocks.now }
    requires others { All B.is_block others.now }
    requires summary { IsStoredSummary B.width B.number B.is_block blocks.now summary.now }
    requires other_summary { IsStoredSummary B.width B.number B.is_block others.now other_summary.now }
    requires long { short_count B.width < max (length blocks.now) (length others.now) }
    requires ended { min (length blocks.now) (length others.now) ≤ first * B.width }
    requires in_blocks { first ≤ blocks_for B.width (max (length blocks.now) (length others.now)) }
    requires fits { (n : ℕ)
        → merged_ones O.merge B.width (map B.number blocks.now) (map B.number others.now) 0 n < 2 ^ 64 }
    ensures { result ≡ merged_ones O.merge B.width (map B.number blocks.now) (map B.number others.now)
        (first * B.width) (first * B.width + max (length blocks.now) (length others.now)) }
{
    if blocks.len() > others.len() {
        if keeps_first::<B, O>() {
            ones_from(blocks, summary, first)
        } else {
            0
        }
    } else if keeps_second::<B, O>() {
        ones_from(others, other_summary, first)
    } else {
        0
    }
}

// The ones of the merge of lists of which one stores a summary at least. Reads the chunks that both lists have, and of
// those past them what the merge keeps.
#[inline(never)]
pub(crate) fn ones_of_long<B: BitBlock, O: Operation>(
    blocks: &[B],
    summary: &[B],
    others: &[B],
    other_summary: &[B],
) -> usize
    requires each { All B.is_block blocks.now }
    requires others { All B.is_block others.now }
    requires summary { IsStoredSummary B.width B.number B.is_block blocks.now summary.now }
    requires other_summary { IsStoredSummary B.width B.number B.is_block others.now other_summary.now }
    requires long { short_count B.width < max (length blocks.now) (length others.now) }
    requires fits { (n : ℕ)
        → merged_ones O.merge B.width (map B.number blocks.now) (map B.number others.now) 0 n < 2 ^ 64 }
    ensures { (n : ℕ) → length blocks.now ≤ n → length others.now ≤ n
        → result ≡ merged_ones O.merge B.width (map B.number blocks.now) (map B.number others.now) 0 n }
{
    let both = summary.len().min(other_summary.len());
    let count = B::bits().min(LONG_GROUP);
    let mut ones = 0;
    let mut first = 0;
    while both - first >= count {
        ones += ones_of_group::<B, O>(blocks, summary, others, other_summary, first, count);
        first += count;
    }
    let least = blocks.len().min(others.len());
    let end = block_count::<B>(least);
    let shared = ones + ones_of_chunks::<B, O>(blocks, summary, others, other_summary, first, end);
    shared + ones_past::<B, O>(blocks, summary, others, other_summary, end)
}

// The ones of the merge of lists of any length.
#[inline(always)]
fn ones_by<B: BitBlock, O: Operation>(
    blocks: &[B],
    summary: &[B],
    others: &[B],
    other_summary: &[B],
) -> usize
    requires each { All B.is_block blocks.now }
    requires others { All B.is_block others.now }
    requires summary { IsStoredSummary B.width B.number B.is_block blocks.now summary.now }
    requires other_summary { IsStoredSummary B.width B.number B.is_block others.now other_summary.now }
    requires fits { (n : ℕ)
        → merged_ones O.merge B.width (map B.number blocks.now) (map B.number others.now) 0 n < 2 ^ 64 }
    ensures { (n : ℕ) → length blocks.now ≤ n → length others.now ≤ n
        → result ≡ merged_ones O.merge B.width (map B.number blocks.now) (map B.number others.now) 0 n }
{
    if is_short::<B>(merged_len::<B, O>(blocks, others)) {
        count_merged_blocks::<B, O>(blocks, others)
    } else {
        ones_of_long::<B, O>(blocks, summary, others, other_summary)
    }
}

// The ones of the merge that is named. Here the operation becomes a type.
#[inline(always)]
pub(crate) fn ones_of_merge<B: BitBlock>(
    blocks: &[B],
    summary: &[B],
    others: &[B],
    other_summary: &[B],
    merge: Merge,
) -> usize
    requires each { All B.is_block blocks.now }
    requires others { All B.is_block others.now }
    requires summary { IsStoredSummary B.width B.number B.is_block blocks.now summary.now }
    requires other_summary { IsStoredSummary B.width B.number B.is_block others.now other_summary.now }
    requires fits { (n : ℕ)
        → merged_ones merge B.width (map B.number blocks.now) (map B.number others.now) 0 n < 2 ^ 64 }
    ensures { (n : ℕ) → length blocks.now ≤ n → length others.now ≤ n
        → result ≡ merged_ones merge B.width (map B.number blocks.now) (map B.number others.now) 0 n }
{
    match merge {
        Merge::Union => ones_by::<B, Union>(blocks, summary, others, other_summary),
        Merge::Intersection => ones_by::<B, Intersection>(blocks, summary, others, other_summary),
        Merge::Difference => ones_by::<B, Difference>(blocks, summary, others, other_summary),
        Merge::Symmetric => ones_by::<B, Symmetric>(blocks, summary, others, other_summary),
    }
}
