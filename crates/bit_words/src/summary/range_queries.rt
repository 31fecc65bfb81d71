// How many ones a range of a long list has, and whether it has any. Chunks of zeros are skipped by the summary.
ghost use Rattle.std.specs.{Prelude.{◌≡◌, ◌+◌, ◌-◌, ◌*◌, ◌^◌, ◌<◌, ◌≤◌, ◌↔◌, All, IsTrue, length, map}, List.{count_by, range_with_len}};
ghost use Rattle.bit_blocks.specs.{BlockMerges.MergesSpanToFalse, Storage.value_at, declared.block.merge.Merge.Merge};
ghost use Rattle.bit_words.specs.Summary.{IsStoredSummary, IsSummary};

use crate::summary::is_short;
use crate::summary::queries::{first_chunks, ones_of_runs};
use bit_blocks::block::BitBlock;
use bit_blocks::block::operation::Intersection;
use bit_blocks::packed::access::block_index;
use bit_blocks::packed::span_queries::{ones_in_span, span_merges_to_false};
use bit_blocks::packed::zeros::are_zero;

// The chunks that lie between two bits, `start` and a later `end`: the first that begins past `start`, and the one
// in which `end` is. There are none if the first is not before it.
#[inline(always)]
pub(crate) fn whole_chunks<B: BitBlock>(start: usize, end: usize) -> (usize, usize)
    ensures begun { start < result.0 * B.width * B.width }
    ensures ended { result.1 * B.width * B.width ≤ end }
{
    let first = block_index::<B>(block_index::<B>(start)) + 1;
    (first, block_index::<B>(block_index::<B>(end)))
}

// The ones of the chunks from `first` up to `end`, which the list has as a whole.
#[inline]
fn ones_of_whole_chunks<B: BitBlock>(blocks: &[B], summary: &[B], first: usize, end: usize) -> usize
    requires forward { first ≤ end }
    requires within { end * B.width ≤ length blocks.now }
    requires fits { end * B.width * B.width < 2 ^ 64 }
    requires each { All B.is_block blocks.now }
    requires summary { IsSummary B.width B.number B.is_block blocks.now summary.now }
    ensures { result ≡ count_by (value_at B.width (map B.number blocks.now))
        (range_with_len (first * B.width * B.width) (end * B.width * B.width - first * B.width * B.width)) }
{
    let chunks = first_chunks(first_chunks(blocks, first).1, end - first).0;
    ones_of_runs(chunks, summary.split_at(first).1.split_at(end - first).0)
}

// The ones from bit `start` up to `end`, given that the chunks from `first` up to `last` lie between these. It is a
// separate function, so that a short range saves no registers for it.
#[inline(never)]
fn ones_around_chunks<B: BitBlock>(
    blocks: &[B],
    summary: &[B],
    start: usize,
    first: usize,
    last: usize,
    end: usize,
) -> usize
    requires some { first ≤ last }
    requires begun { start < first * B.width * B.width }
    requires ended { last * B.width * B.width ≤ end }
    requires within { end ≤ length blocks.now * B.width }
    requires each { All B.is_block blocks.now }
    requires summary { IsSummary B.width B.number B.is_block blocks.now summary.now }
    ensures { result ≡ count_by (value_at B.width (map B.number blocks.now)) (range_with_len start (end - start)) }
{
    let width = B::bits();
    let from = first * width * width;
    let to = last * width * width;
    let begun = ones_in_span(blocks, start, from);
    let ones = begun + ones_of_whole_chunks(blocks, summary, first, last);
    if to == end {
        return ones;
    }
    ones + ones_in_span(blocks, to, end)
}

// How many of the bits from `start` up to `end` (at least one) are 1.
#[inline]
pub(crate) fn ones_in_range<B: BitBlock>(
    blocks: &[B],
    summary: &[B],
    start: usize,
    end: usize,
) -> usize
    requires some { start < end }
    requires within { end ≤ length blocks.now * B.width }
    requires each { All B.is_block blocks.now }
    requires summary { IsStoredSummary B.width B.number B.is_block blocks.now summary.now }
    ensures { result ≡ count_by (value_at B.width (map B.number blocks.now)) (range_with_len start (end - start)) }
{
    let (first, last) = whole_chunks::<B>(start, end);
    if is_short::<B>(blocks.len()) || last <= first {
        return ones_in_span(blocks, start, end);
    }
    ones_around_chunks(blocks, summary, start, first, last, end)
}

// Whether no bit from `start` up to `end` is 1, given that the chunks from `first` up to `last` lie between these.
// It is a separate function, so that a short range saves no registers for it.
#[inline(never)]
fn are_zero_around_chunks<B: BitBlock>(
    blocks: &[B],
    summary: &[B],
    start: usize,
    first: usize,
    last: usize,
    end: usize,
) -> bool
    requires some { first ≤ last }
    requires begun { start < first * B.width * B.width }
    requires ended { last * B.width * B.width ≤ end }
    requires within { end ≤ length blocks.now * B.width }
    requires each { All B.is_block blocks.now }
    requires summary { IsSummary B.width B.number B.is_block blocks.now summary.now }
    ensures { IsTrue result ↔ MergesSpanToFalse Merge.Intersection B.width start end (map B.number blocks.now) }
{
    let width = B::bits();
    let from = first * width * width;
    let to = last * width * width;
    if !span_merges_to_false::<B, Intersection>(blocks, start, from) {
        return false;
    }
    if !are_zero(summary.split_at(first).1.split_at(last - first).0) {
        return false;
    }
    if to == end {
        return true;
    }
    span_merges_to_false::<B, Intersection>(blocks, to, end)
}

// Whether none of the bits from `start` up to `end` (at least one) is 1. Stops at the first block that has one.
#[inline]
pub(crate) fn range_is_zero<B: BitBlock>(
    blocks: &[B],
    summary: &[B],
    start: usize,
    end: usize,
) -> bool
    requires some { start < end }
    requires within { end ≤ length blocks.now * B.width }
    requires each { All B.is_block blocks.now }
    requires summary { IsStoredSummary B.width B.number B.is_block blocks.now summary.now }
    ensures { IsTrue result ↔ MergesSpanToFalse Merge.Intersection B.width start end (map B.number blocks.now) }
{
    let (first, last) = whole_chunks::<B>(start, end);
    if is_short::<B>(blocks.len()) || last <= first {
        return span_merges_to_false::<B, Intersection>(blocks, start, end);
    }
    are_zero_around_chunks(blocks, summary, start, first, last, end)
}
