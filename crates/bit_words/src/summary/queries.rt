// What is found faster by a summary: the ones of the blocks, and the last block that is not 0. Changes nothing.
ghost use Rattle.std.specs.Prelude.{◌≡◌, ℕ, ◌+◌, ◌*◌, ◌^◌, ◌<◌, ◌≤◌, ◌↔◌, All, IsTrue, get_or, length, map, take, drop, ◌≢◌, ◌-◌};
ghost use Rattle.bit_blocks.specs.{Digits.is_one, Storage.{value_at, ones_in, is_used}};
ghost use Rattle.bit_words.specs.Summary.{short_count, IsStoredSummary};

use crate::summary::{is_short, used_from};
use bit_blocks::block::BitBlock;
use bit_blocks::block::operators::same;
use bit_blocks::packed::access::block_at;
use bit_blocks::packed::ones::ones_of;
use bit_blocks::packed::zeros::{are_zero, used_blocks, zeros_before};

// One chunk of this many is looked at to tell whether a list is dense.
pub(crate) const SAMPLED: usize = 8;

// How many of this many chunks are looked at, each SAMPLED past the one before it. The last chunk may be a part of
// one, and is not looked at.
#[inline(always)]
pub(crate) fn samples(chunks: usize) -> usize
    ensures { (k : ℕ) → k < result → k * SAMPLED < chunks }
{
    chunks.saturating_sub(1).div_ceil(SAMPLED)
}

// Whether most blocks are not 0 in each chunk that is looked at: then no summary saves a pass over all of them.
#[inline]
pub(crate) fn is_full<B: BitBlock>(summary: &[B]) -> bool
    requires each { All B.is_block summary.now }
{
    for sample in 0..samples(summary.len()) {
        if block_at(summary, sample * SAMPLED).count_ones() <= B::bits() / 2 {
            return false;
        }
    }
    true
}

// Whether all blocks are 0, by the summary if one is stored.
pub(crate) fn are_zero_by_summary<B: BitBlock>(blocks: &[B], summary: &[B]) -> bool
    requires each { All B.is_block blocks.now }
    requires summary { IsStoredSummary B.width B.number B.is_block blocks.now summary.now }
    ensures { IsTrue result ↔ All (λ block. B.number block ≡ 0) blocks.now }
{
    if is_short::<B>(blocks.len()) {
        are_zero(blocks)
    } else {
        are_zero(summary)
    }
}

// How many ones the blocks have, given a summary that says which of them are nonzero. If none is stored, or there
// are few blocks, it counts every block.
#[inline]
pub(crate) fn ones_by_summary<B: BitBlock>(blocks: &[B], summary: &[B]) -> usize
    requires each { All B.is_block blocks.now }
    requires summary { All B.is_block summary.now }
    requires enough { short_count B.width < length blocks.now → length blocks.now ≤ length summary.now * B.width }
    requires digit { short_count B.width < length blocks.now
        → (k : ℕ) → k < length blocks.now
        → value_at B.width (map B.number summary.now) k ≡ is_used (map B.number blocks.now) k }
    requires fits { ones_in B.number blocks.now < 2 ^ 64 }
    ensures { result ≡ ones_in B.number blocks.now }
{
    if is_short::<B>(blocks.len()) {
        ones_of(blocks)
    } else {
        ones_of_runs(blocks, summary)
    }
}

// How many ones the blocks have, by a summary. Counts each run of chunks that have any in one pass, and skips
// chunks of zeros, each as many blocks as one has bits, by the summary alone. It is a separate function, so that a
// short list saves no registers for it.
#[inline(never)]
pub(crate) fn ones_of_runs<B: BitBlock>(blocks: &[B], summary: &[B]) -> usize
    requires each { All B.is_block blocks.now }
    requires summary { All B.is_block summary.now }
    requires enough { length blocks.now ≤ length summary.now * B.width }
    requires digit { (k : ℕ) → k < length blocks.now
        → value_at B.width (map B.number summary.now) k ≡ is_used (map B.number blocks.now) k }
    requires fits { ones_in B.number blocks.now < 2 ^ 64 }
    ensures { result ≡ ones_in B.number blocks.now }
{
    let mut ones = 0;
    let mut q = 0;
    while q < summary.len() {
        let used = chunks_before_zero(summary.split_at(q).1);
        ones += ones_of(first_chunks(first_chunks(blocks, q).1, used).0);
        q += used;
        q += zeros_before(summary.split_at(q).1);
    }
    ones
}

// How many blocks of a summary come before the first that is 0.
#[inline]
pub(crate) fn chunks_before_zero<B: BitBlock>(summary: &[B]) -> usize
    requires each { All B.is_block summary.now }
    ensures within { result ≤ length summary.now }
    ensures end { get_or (map B.number summary.now) result 0 ≡ 0 }
{
    for k in 0..summary.len() {
        if same(block_at(summary, k), B::zero()) {
            return k;
        }
    }
    summary.len()
}

// Where at most one in this many blocks of a chunk is looked at, these are taken one by one, and else all by vector
// code.
const FEW: usize = 8;

// Whether few blocks of a chunk are looked at: those at the ones of `used`.
#[inline(always)]
pub(crate) fn has_few<B: BitBlock>(used: B) -> bool
    requires { B.is_block used }
{
    used.count_ones() <= B::bits() / FEW
}

// How many blocks of a chunk vector code could process in the time that is saved by taking those at the ones of
// `used` one by one.
#[inline(always)]
pub(crate) fn saved_blocks<B: BitBlock>(used: B) -> usize
    requires { B.is_block used }
{
    B::bits().saturating_sub(used.count_ones().saturating_mul(FEW))
}

// Chunks of narrower blocks are so short that a pass over all of their blocks costs less than to pick some.
const WIDE: usize = 32;

// Whether so few blocks of a chunk are not 0 that they are taken one by one, and the run of chunks that is passed in one loop ends.
#[inline(always)]
pub(crate) fn has_few_of_wide<B: BitBlock>(used: B) -> bool
    requires { B.is_block used }
{
    if B::bits() < WIDE {
        return used.count_ones() == 0;
    }
    has_few(used)
}

// Whether there are few blocks that are not 0, over all chunks that are looked at: half as many as make few in one.
#[inline]
pub(crate) fn is_sparse<B: BitBlock>(summary: &[B]) -> bool
    requires each { All B.is_block summary.now }
{
    if B::bits() < WIDE {
        return false;
    }
    let count = samples(summary.len());
    let mut ones = 0usize;
    for sample in 0..count {
        ones = ones.saturating_add(block_at(summary, sample * SAMPLED).count_ones());
    }
    ones < count.saturating_mul(B::bits() / FEW / 2)
}

// How many blocks of a summary come before the next of which few blocks are not 0: the first counts in any case.
#[inline]
pub(crate) fn chunks_before_few<B: BitBlock>(summary: &[B]) -> usize
    requires each { All B.is_block summary.now }
    requires some { 0 < length summary.now }
    ensures some { 0 < result }
    ensures within { result ≤ length summary.now }
{
    for k in 1..summary.len() {
        if has_few_of_wide(block_at(summary, k)) {
            return k;
        }
    }
    summary.len()
}

// The blocks that the first blocks of a summary cover, or all if there are fewer, and the others.
#[inline]
pub(crate) fn first_chunks<B: BitBlock>(blocks: &[B], chunks: usize) -> (&[B], &[B])
    ensures first { result.0.now ≡ take (chunks * B.width) blocks.now }
    ensures rest { result.1.now ≡ drop (chunks * B.width) blocks.now }
{
    blocks.split_at(chunks.saturating_mul(B::bits()).min(blocks.len()))
}

// As many blocks as one has bits, or all if there are fewer, and the others.
#[inline]
pub(crate) fn first_blocks<B: BitBlock>(blocks: &[B]) -> (&[B], &[B])
    ensures first { result.0.now ≡ take B.width blocks.now }
    ensures rest { result.1.now ≡ drop B.width blocks.now }
{
    first_chunks(blocks, 1)
}

// Which of the blocks that block `q` of a summary covers are not 0: that block, or what it would be if the summary
// has none, because it is not stored or the blocks end before.
#[inline]
pub(crate) fn summary_at<B: BitBlock>(blocks: &[B], summary: &[B], q: usize) -> B
    requires each { All B.is_block blocks.now }
    requires summary { IsStoredSummary B.width B.number B.is_block blocks.now summary.now }
    requires fits { q * B.width < 2 ^ 64 }
    ensures of_block { B.is_block result }
    ensures digits { (j : ℕ) → j < B.width
        → is_one (B.number result) j ≡ is_used (map B.number blocks.now) (q * B.width + j) }
{
    if q < summary.len() {
        block_at(summary, q)
    } else {
        used_from(blocks, blocks.len().min(q * B::bits()))
    }
}

// How many blocks there are up to the last that is not 0. If a summary is stored it says among which to look.
pub(crate) fn used_by_summary<B: BitBlock>(blocks: &[B], summary: &[B]) -> usize
    requires each { All B.is_block blocks.now }
    requires summary { IsStoredSummary B.width B.number B.is_block blocks.now summary.now }
    ensures within { result ≤ length blocks.now }
    ensures zeros { (k : ℕ) → result ≤ k → get_or (map B.number blocks.now) k 0 ≡ 0 }
    ensures last { 0 < result → get_or (map B.number blocks.now) (result - 1) 0 ≢ 0 }
{
    if is_short::<B>(blocks.len()) {
        return used_blocks(blocks);
    }
    let chunks = used_blocks(summary);
    let end = chunks.saturating_mul(B::bits()).min(blocks.len());
    used_blocks(&blocks[..end])
}
