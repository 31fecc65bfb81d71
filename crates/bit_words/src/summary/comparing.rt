// Where two lists of blocks first differ, by their summaries. A block past the end of a list counts as 0.
ghost use Rattle.std.specs.Prelude.{◌≡◌, ℕ, ◌+◌, ◌-◌, ◌*◌, ◌^◌, ◌<◌, ◌≤◌, ◌↔◌, All, IsTrue, MatchOption, false, true, drop, get_or, length, map, take};
ghost use Rattle.bit_blocks.specs.{Digits.is_one, Mismatches.IsFirstBlockMismatch, Storage.value_at};
ghost use Rattle.bit_words.specs.Summary.{IsStoredSummary, IsSummary};

use crate::summary::queries::{chunks_before_few, first_chunks, has_few_of_wide, is_full};
use crate::summary::{is_nonzero, is_short};
use bit_blocks::block::BitBlock;
use bit_blocks::block::lowest::take_lowest_one;
use bit_blocks::block::operators::same;
use bit_blocks::packed::access::block_at;
use bit_blocks::packed::comparing::{first_mismatching_block, same_blocks};
use bit_blocks::packed::zeros::zeros_before;

// The first block that differs of those that this many blocks of the summaries from `q` on cover.
#[inline]
fn mismatch_in_chunks<B: BitBlock>(
    blocks: &[B],
    others: &[B],
    q: usize,
    count: usize,
) -> Option<usize>
    requires each { All B.is_block blocks.now }
    requires others { All B.is_block others.now }
    requires before { (k : ℕ) → k < q * B.width
        → get_or (map B.number blocks.now) k 0 ≡ get_or (map B.number others.now) k 0 }
    ensures { MatchOption result
        ((k : ℕ) → k < (q + count) * B.width
        → get_or (map B.number blocks.now) k 0 ≡ get_or (map B.number others.now) k 0)
        (IsFirstBlockMismatch (map B.number blocks.now) (map B.number others.now)) }
{
    let run = first_chunks(first_chunks(blocks, q).1, count).0;
    let other_run = first_chunks(first_chunks(others, q).1, count).0;
    let k = first_mismatching_block(run, other_run)?;
    Some(q * B::bits() + k)
}

// The first block of chunk `q` that differs; those at which `used` has a 0 are the same. Compares the others one by
// one.
#[inline]
fn mismatch_of_used<B: BitBlock>(blocks: &[B], others: &[B], q: usize, used: B) -> Option<usize>
    requires each { All B.is_block blocks.now }
    requires others { All B.is_block others.now }
    requires of_used { B.is_block used }
    requires in_both { (p : ℕ) → p < B.width → is_one (B.number used) p ≡ true
        → (q * B.width + p < length blocks.now) × (q * B.width + p < length others.now) }
    requires fits { length blocks.now < 2 ^ 64 }
    requires before { (k : ℕ) → k < q * B.width
        → get_or (map B.number blocks.now) k 0 ≡ get_or (map B.number others.now) k 0 }
    requires same { (p : ℕ) → p < B.width → is_one (B.number used) p ≡ false
        → get_or (map B.number blocks.now) (q * B.width + p) 0 ≡ get_or (map B.number others.now) (q * B.width + p) 0 }
    ensures { MatchOption result
        ((k : ℕ) → k < (q + 1) * B.width
        → get_or (map B.number blocks.now) k 0 ≡ get_or (map B.number others.now) k 0)
        (IsFirstBlockMismatch (map B.number blocks.now) (map B.number others.now)) }
{
    let mut left = used;
    while is_nonzero(left) {
        let p = take_lowest_one(&mut left);
        let k = q * B::bits() + p;
        if !same(block_at(blocks, k), block_at(others, k)) {
            return Some(k);
        }
    }
    None
}

// The first block that differs of the next chunks from `q` on, and how many these are: chunks of zeros, one in which few blocks
// are not 0, or all up to the next such one. Those before are the same.
#[inline(always)]
fn mismatch_in_next<B: BitBlock>(
    blocks: &[B],
    others: &[B],
    summary: &[B],
    q: usize,
) -> (Option<usize>, usize)
    requires in_summary { q < length summary.now }
    requires each { All B.is_block blocks.now }
    requires others { All B.is_block others.now }
    requires fits { length blocks.now < 2 ^ 64 }
    requires summary { All B.is_block summary.now }
    requires before { (k : ℕ) → k < q * B.width
        → get_or (map B.number blocks.now) k 0 ≡ get_or (map B.number others.now) k 0 }
    requires in_both { (k : ℕ) → q * B.width ≤ k → value_at B.width (map B.number summary.now) k ≡ true
        → (k < length blocks.now) × (k < length others.now) }
    requires zeros { (k : ℕ) → q * B.width ≤ k → k < length summary.now * B.width
        → value_at B.width (map B.number summary.now) k ≡ false
        → get_or (map B.number blocks.now) k 0 ≡ get_or (map B.number others.now) k 0 }
    ensures some { 0 < result.1 }
    ensures within { q + result.1 ≤ length summary.now }
    ensures found { MatchOption result.0
        ((k : ℕ) → k < (q + result.1) * B.width
        → get_or (map B.number blocks.now) k 0 ≡ get_or (map B.number others.now) k 0)
        (IsFirstBlockMismatch (map B.number blocks.now) (map B.number others.now)) }
{
    let used = block_at(summary, q);
    let rest = summary.split_at(q).1;
    if !is_nonzero(used) {
        return (None, zeros_before(rest));
    }
    if has_few_of_wide(used) {
        return (mismatch_of_used(blocks, others, q, used), 1);
    }
    let count = chunks_before_few(rest);
    (mismatch_in_chunks(blocks, others, q, count), count)
}

// The first block that differs among those that the summary covers; blocks from chunk `first` on that it says are 0 are so in
// both lists, and those before are the same. If few blocks of a chunk are nonzero, it compares only these.
#[inline(never)]
fn mismatch_in_runs<B: BitBlock>(
    blocks: &[B],
    others: &[B],
    summary: &[B],
    first: usize,
) -> Option<usize>
    requires each { All B.is_block blocks.now }
    requires others { All B.is_block others.now }
    requires fits { length blocks.now < 2 ^ 64 }
    requires summary { All B.is_block summary.now }
    requires before { (k : ℕ) → k < first * B.width
        → get_or (map B.number blocks.now) k 0 ≡ get_or (map B.number others.now) k 0 }
    requires in_both { (k : ℕ) → first * B.width ≤ k → value_at B.width (map B.number summary.now) k ≡ true
        → (k < length blocks.now) × (k < length others.now) }
    requires zeros { (k : ℕ) → first * B.width ≤ k → k < length summary.now * B.width
        → value_at B.width (map B.number summary.now) k ≡ false
        → get_or (map B.number blocks.now) k 0 ≡ get_or (map B.number others.now) k 0 }
    ensures { MatchOption result
        ((k : ℕ) → k < length summary.now * B.width
        → get_or (map B.number blocks.now) k 0 ≡ get_or (map B.number others.now) k 0)
        (IsFirstBlockMismatch (map B.number blocks.now) (map B.number others.now)) }
{
    let mut q = first;
    while q < summary.len() {
        let (found, count) = mismatch_in_next(blocks, others, summary, q);
        if found.is_some() {
            return found;
        }
        q += count;
    }
    None
}

// The blocks from `first` up to `end`, as far as there are any.
#[inline]
fn part_of<B: BitBlock>(blocks: &[B], first: usize, end: usize) -> &[B]
    requires { first ≤ end }
    ensures { result.now ≡ take (end - first) (drop first blocks.now) }
{
    let rest = blocks.split_at(first.min(blocks.len())).1;
    rest.split_at((end - first).min(rest.len())).0
}

// The first of the chunks from `first` on that has another summary in each list, or `end`; but `first` itself where most blocks
// are not 0, since the summaries save nothing there.
#[inline]
fn chunks_alike<B: BitBlock>(summary: &[B], other_summary: &[B], first: usize, end: usize) -> usize
    requires forward { first ≤ end }
    requires summary { All B.is_block summary.now }
    requires other_summary { All B.is_block other_summary.now }
    ensures from { first ≤ result }
    ensures within { result ≤ end }
    ensures alike { (q : ℕ) → first ≤ q → q < result
        → get_or (map B.number summary.now) q 0 ≡ get_or (map B.number other_summary.now) q 0 }
{
    let own = part_of(summary, first, end);
    let other = part_of(other_summary, first, end);
    if own.len() == end - first && is_full(own) {
        return first;
    }
    first + first_mismatching_block(own, other).unwrap_or(end - first)
}

// The first block that differs of the chunks from `first` up to `end`; those before are the same. Both lists store a summary.
#[inline]
fn mismatch_in_part<B: BitBlock>(
    blocks: &[B],
    summary: &[B],
    others: &[B],
    other_summary: &[B],
    first: usize,
    end: usize,
) -> Option<usize>
    requires forward { first ≤ end }
    requires each { All B.is_block blocks.now }
    requires others { All B.is_block others.now }
    requires summary { IsSummary B.width B.number B.is_block blocks.now summary.now }
    requires other_summary { IsSummary B.width B.number B.is_block others.now other_summary.now }
    requires before { (k : ℕ) → k < first * B.width
        → get_or (map B.number blocks.now) k 0 ≡ get_or (map B.number others.now) k 0 }
    ensures { MatchOption result
        ((k : ℕ) → k < end * B.width
        → get_or (map B.number blocks.now) k 0 ≡ get_or (map B.number others.now) k 0)
        (IsFirstBlockMismatch (map B.number blocks.now) (map B.number others.now)) }
{
    let alike = chunks_alike(summary, other_summary, first, end);
    let own = alike.min(summary.len());
    let found = mismatch_in_runs(blocks, others, summary.split_at(own).0, first);
    if found.is_some() {
        return found;
    }
    mismatch_in_chunks(blocks, others, alike, end - alike)
}

// Each part of two lists that is compared by itself has this many times as many chunks as all before it: so what is read
// grows with the place of the first difference, and of a long list there are few parts.
const FURTHER: usize = 16;

// The first block at which two lists differ, by their summaries if there are many.
#[inline(never)]
pub(crate) fn mismatch_by_summaries<B: BitBlock>(
    blocks: &[B],
    summary: &[B],
    others: &[B],
    other_summary: &[B],
) -> Option<usize>
    requires each { All B.is_block blocks.now }
    requires others { All B.is_block others.now }
    requires summary { IsStoredSummary B.width B.number B.is_block blocks.now summary.now }
    requires other_summary { IsStoredSummary B.width B.number B.is_block others.now other_summary.now }
    ensures { MatchOption result
        ((k : ℕ) → get_or (map B.number blocks.now) k 0 ≡ get_or (map B.number others.now) k 0)
        (IsFirstBlockMismatch (map B.number blocks.now) (map B.number others.now)) }
{
    if is_short::<B>(blocks.len().min(others.len())) {
        return first_mismatching_block(blocks, others);
    }
    // Many lists differ in their first blocks, which take less than a choice of a way.
    let found = mismatch_in_chunks(blocks, others, 0, 1);
    if found.is_some() {
        return found;
    }
    let most = summary.len().max(other_summary.len());
    let mut q = 1;
    while q < most {
        let end = most.min(q.saturating_mul(FURTHER));
        let found = mismatch_in_part(blocks, summary, others, other_summary, q, end);
        if found.is_some() {
            return found;
        }
        q = end;
    }
    None
}

// Whether two lists have the same blocks, by their summaries if there are many.
#[inline]
pub(crate) fn same_by_summaries<B: BitBlock>(
    blocks: &[B],
    summary: &[B],
    others: &[B],
    other_summary: &[B],
) -> bool
    requires each { All B.is_block blocks.now }
    requires others { All B.is_block others.now }
    requires summary { IsStoredSummary B.width B.number B.is_block blocks.now summary.now }
    requires other_summary { IsStoredSummary B.width B.number B.is_block others.now other_summary.now }
    ensures { IsTrue result
        ↔ ((k : ℕ) → get_or (map B.number blocks.now) k 0 ≡ get_or (map B.number others.now) k 0) }
{
    if is_short::<B>(blocks.len()) {
        return same_blocks(blocks, others);
    }
    mismatch_by_summaries(blocks, summary, others, other_summary).is_none()
}
