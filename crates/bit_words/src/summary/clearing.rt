// All values of a list set to one value, and the summary with them. Blocks that are 0 by it are skipped if they all
// become false.
ghost use Rattle.std.specs.Prelude.{◌≡◌, ℕ, ◌+◌, ◌*◌, ◌^◌, ◌<◌, ◌≤◌, All, length, map, vec_capacity};
ghost use Rattle.bit_blocks.specs.{Digits.is_one, Storage.{value_at, is_used, IsPacked, WritesInPlace}};
ghost use Rattle.bit_words.specs.Summary.{AreCleared, IsStoredSummary, IsSummary};

use crate::summary::queries::{chunks_before_few, has_few_of_wide, is_full};
use crate::summary::{is_nonzero, is_short};
use bit_blocks::block::BitBlock;
use bit_blocks::block::lowest::take_lowest_one;
use bit_blocks::packed::access::{block_at, put_in};
use bit_blocks::packed::resizing::fill_bits;
use bit_blocks::packed::zeros::zeros_before;

// The blocks from `start` up to `end` become 0, as far as they exist.
#[inline]
fn clear_blocks<B: BitBlock>(blocks: &mut [B], start: usize, end: usize)
    requires each { All B.is_block blocks.old }
    ensures { AreCleared B.number B.is_block start end blocks.old blocks.new }
{
    for k in start..end.min(blocks.len()) {
        put_in(blocks, k, B::zero());
    }
}

// The blocks of chunk `q` become 0, of which `used` says which are not. Writes these one by one.
#[inline]
fn clear_used<B: BitBlock>(blocks: &mut [B], q: usize, used: B)
    requires each { All B.is_block blocks.old }
    requires fits { length blocks.old < 2 ^ 64 }
    requires of_used { B.is_block used }
    requires says { (p : ℕ) → p < B.width
        → is_one (B.number used) p ≡ is_used (map B.number blocks.old) (q * B.width + p) }
    ensures { AreCleared B.number B.is_block (q * B.width) ((q + 1) * B.width) blocks.old blocks.new }
{
    let mut left = used;
    while is_nonzero(left) {
        let p = take_lowest_one(&mut left);
        put_in(blocks, q * B::bits() + p, B::zero());
    }
}

// The next chunks from `q` on become 0, and how many these are is returned: chunks of zeros, one in which few blocks are not 0,
// or all up to the next such one.
#[inline(always)]
fn clear_next<B: BitBlock>(blocks: &mut [B], summary: &[B], q: usize) -> usize
    requires in_summary { q < length summary.now }
    requires each { All B.is_block blocks.old }
    requires fits { length blocks.old < 2 ^ 64 }
    requires summary { All B.is_block summary.now }
    requires says { (k : ℕ) → q * B.width ≤ k → k < length summary.now * B.width
        → value_at B.width (map B.number summary.now) k ≡ is_used (map B.number blocks.old) k }
    ensures some { 0 < result }
    ensures within { q + result ≤ length summary.now }
    ensures cleared { AreCleared B.number B.is_block (q * B.width) ((q + result) * B.width) blocks.old blocks.new }
{
    let used = block_at(summary, q);
    let rest = summary.split_at(q).1;
    if !is_nonzero(used) {
        return zeros_before(rest);
    }
    if has_few_of_wide(used) {
        clear_used(blocks, q, used);
        return 1;
    }
    let count = chunks_before_few(rest);
    let width = B::bits();
    clear_blocks(
        blocks,
        q.saturating_mul(width),
        (q + count).saturating_mul(width),
    );
    count
}

// The chunks from `first` on that the summary covers become 0. Chunks of zeros are skipped, and if few blocks of a
// chunk are nonzero, only these are written.
#[inline(never)]
fn clear_runs<B: BitBlock>(blocks: &mut [B], summary: &[B], first: usize)
    requires in_summary { first ≤ length summary.now }
    requires each { All B.is_block blocks.old }
    requires fits { length blocks.old < 2 ^ 64 }
    requires summary { All B.is_block summary.now }
    requires says { (k : ℕ) → k < length summary.now * B.width
        → value_at B.width (map B.number summary.now) k ≡ is_used (map B.number blocks.old) k }
    ensures { AreCleared B.number B.is_block (first * B.width) (length summary.now * B.width) blocks.old blocks.new }
{
    let mut q = first;
    while q < summary.len() {
        q += clear_next(blocks, summary, q);
    }
}

// The chunks from `first` up to `end` become 0.
pub(crate) fn clear_chunks<B: BitBlock>(
    blocks: &mut Vec<B>,
    summary: &[B],
    first: usize,
    end: usize,
)
    requires forward { first ≤ end }
    requires in_summary { end ≤ length summary.now }
    requires each { All B.is_block blocks.old.items }
    requires summary { IsSummary B.width B.number B.is_block blocks.old.items summary.now }
    ensures cleared { AreCleared B.number B.is_block (first * B.width) (end * B.width) blocks.old.items blocks.new.items }
    ensures in_place { WritesInPlace B.is_block blocks.old blocks.new }
{
    clear_runs(blocks.as_mut_slice(), summary.split_at(end).0, first);
}

// The blocks of a list that stores a summary become those of as many values `bit`.
#[inline]
fn fill_blocks<B: BitBlock>(blocks: &mut Vec<B>, summary: &[B], len: usize, bit: bool)
    requires packed { IsPacked B.width B.number B.is_block blocks.old.items len }
    requires summary { IsSummary B.width B.number B.is_block blocks.old.items summary.now }
    ensures filled { (i : ℕ) → i < len → value_at B.width (map B.number blocks.new.items) i ≡ bit }
    ensures packed { IsPacked B.width B.number B.is_block blocks.new.items len }
    ensures capacity { vec_capacity blocks.new ≡ vec_capacity blocks.old }
{
    if !bit && !is_full(summary) {
        clear_chunks(blocks, summary, 0, summary.len());
    } else {
        fill_bits(blocks, len, bit);
    }
}

// Does so, and the summary becomes theirs. It is a separate function, so that a short list saves no registers for
// it.
#[inline(never)]
fn fill_long<B: BitBlock>(blocks: &mut Vec<B>, summary: &mut Vec<B>, len: usize, bit: bool)
    requires packed { IsPacked B.width B.number B.is_block blocks.old.items len }
    requires summary { IsSummary B.width B.number B.is_block blocks.old.items summary.old.items }
    ensures filled { (i : ℕ) → i < len → value_at B.width (map B.number blocks.new.items) i ≡ bit }
    ensures packed { IsPacked B.width B.number B.is_block blocks.new.items len }
    ensures summary { IsSummary B.width B.number B.is_block blocks.new.items summary.new.items }
    ensures capacity { vec_capacity blocks.new ≡ vec_capacity blocks.old }
    ensures summary_capacity { vec_capacity summary.new ≡ vec_capacity summary.old }
{
    fill_blocks(blocks, summary, len, bit);
    fill_bits(summary, blocks.len(), bit);
}

// All values become `bit`, and the summary is that of what their blocks become.
pub(crate) fn fill_both<B: BitBlock>(
    blocks: &mut Vec<B>,
    summary: &mut Vec<B>,
    len: usize,
    bit: bool,
)
    requires packed { IsPacked B.width B.number B.is_block blocks.old.items len }
    requires summary { IsStoredSummary B.width B.number B.is_block blocks.old.items summary.old.items }
    ensures filled { (i : ℕ) → i < len → value_at B.width (map B.number blocks.new.items) i ≡ bit }
    ensures packed { IsPacked B.width B.number B.is_block blocks.new.items len }
    ensures summary { IsStoredSummary B.width B.number B.is_block blocks.new.items summary.new.items }
    ensures capacity { vec_capacity blocks.new ≡ vec_capacity blocks.old }
    ensures summary_capacity { vec_capacity summary.new ≡ vec_capacity summary.old }
{
    if is_short::<B>(blocks.len()) {
        fill_bits(blocks, len, bit);
    } else {
        fill_long(blocks, summary, len, bit);
    }
}
