// The summary of a vector of blocks: a list of bits, one for each block, which says which of them are not 0. It is kept
// in blocks as well, and so changed by `packed`. This folder keeps the two in step, but where all bits become one value
// or none is left: `fill` and `remove_all` of a bit vector do the same to both.
ghost use Rattle.std.specs.Prelude.{◌≡◌, ℕ, ◌+◌, ◌-◌, ◌*◌, ◌/◌, ◌^◌, ◌<◌, ◌≤◌, ◌==◌, ◌&&◌, ◌||◌, All, IfOk, IsOk, get_or};
ghost use Rattle.std.specs.Prelude.{if◌then◌else◌, not, nat_le, [], length, map, min, false, true, vec_len, vec_capacity};
ghost use Rattle.bit_blocks.specs.{Bits.blocks_for, Digits.is_one, Storage.{value_at, IsPacked, WritesInPlace, WritesValue, is_used}};
ghost use Rattle.bit_words.specs.Summary.{short_count, stored_for, IsSummary, IsStoredSummary, SaysUsed};

use bit_blocks::block::BitBlock;
use bit_blocks::block::masks::{clear_below, with_one_if, with_zeros_from};
use bit_blocks::block::operators::{block_or, same, shift_left};
use bit_blocks::packed::access::{
    block_at, block_count, block_index, put_block, replace_bit, write_bit,
};
use bit_blocks::packed::copies::push_copies;
use bit_blocks::packed::groups::{GROUP, LONG_GROUP};
use bit_blocks::packed::resizing::{append_bits, repeated_bit, truncate_bits};
use std::alloc::{AllocError, Global};

pub(crate) mod changes;
pub(crate) mod clearing;
pub(crate) mod comparing;
pub(crate) mod copies;
pub(crate) mod counts;
pub(crate) mod differences;
pub(crate) mod inclusion;
pub(crate) mod merges;
pub(crate) mod queries;
pub(crate) mod range_queries;
pub(crate) mod remaking;
pub(crate) mod searching;
pub(crate) mod shared_capacity;
pub(crate) mod spans;
pub(crate) mod summarized;
pub(crate) mod taking;

#[inline]
pub(crate) fn is_nonzero<B: BitBlock>(block: B) -> bool
    requires { B.is_block block }
    ensures { result ≡ not (B.number block == 0) }
{
    !same(block, B::zero())
}

// The summary's bit of block `k` is set anew, whatever it was.
#[inline]
pub(crate) fn update_summary_at<B: BitBlock>(summary: &mut Vec<B>, blocks: &[B], k: usize)
    requires in_bounds { k < length blocks.now }
    requires in_summary { k / B.width < vec_len summary.old }
    requires each { All B.is_block summary.old.items }
    requires blocks { All B.is_block blocks.now }
    ensures value { WritesValue B.width (map B.number summary.old.items) (map B.number summary.new.items) k
        (is_used (map B.number blocks.now) k) }
    ensures in_place { WritesInPlace B.is_block summary.old summary.new }
{
    let _was = replace_bit(summary, k, is_nonzero(block_at(blocks, k)));
}

// Updates the summary where block `k`, in which a bit became `bit`, is now `block`. `current` is the block of the
// summary that has its bit. No branch depends on the block: in a sparse set it would be random.
#[inline]
pub(crate) fn update_summary_bit<B: BitBlock>(
    summary: &mut Vec<B>,
    current: B,
    k: usize,
    block: B,
    bit: bool,
)
    requires in_summary { k / B.width < vec_len summary.old }
    requires each { All B.is_block summary.old.items }
    requires of_current { B.is_block current }
    requires read { B.number current ≡ get_or (map B.number summary.old.items) (k / B.width) 0 }
    requires of_block { B.is_block block }
    requires nonzero { bit ≡ true → not (B.number block == 0) ≡ true }
    ensures value { WritesValue B.width (map B.number summary.old.items) (map B.number summary.new.items) k
        (not (B.number block == 0)) }
    ensures in_place { WritesInPlace B.is_block summary.old summary.new }
{
    let used = bit || is_nonzero(block);
    let _written = write_bit(summary, k, current, used);
}

// A search of the summary starts at its block `chunk` at the latest, because a bit of a block that this covers
// became 1.
#[inline]
pub(crate) fn follow_one(start: &mut usize, chunk: usize, bit: bool)
    ensures reached { bit ≡ true → start.new ≤ chunk }
    ensures back { start.new ≤ start.old }
    ensures value { start.new ≡ (if bit then min start.old chunk else start.old) }
{
    if bit && chunk < *start {
        move_back(start, chunk);
    }
}

// Few values become true before all others: a separate function, so that no other one stores where the search
// starts.
#[cold]
#[inline(never)]
fn move_back(start: &mut usize, chunk: usize)
    ensures { start.new ≡ chunk }
{
    *start = chunk;
}

// Where a search of the summary starts once values `bit` were appended to a list of `old` blocks: where it started, if
// a summary was stored and these are false.
#[inline]
pub(crate) fn start_after_growth<B: BitBlock>(start: usize, old: usize, bit: bool) -> usize
    ensures stays { 0 < result → (result ≡ start) × (bit ≡ false) × (short_count B.width < old) }
    ensures value { result ≡ (if bit || nat_le old (short_count B.width) then 0 else start) }
{
    if bit || is_short::<B>(old) { 0 } else { start }
}

// Which of the `count` blocks from `start` on are not 0, the first of them at the lowest bit.
#[inline]
fn used_bits<B: BitBlock>(blocks: &[B], start: usize, count: usize) -> B
    requires in_bounds { start + count ≤ length blocks.now }
    requires within { count ≤ B.width }
    requires each { All B.is_block blocks.now }
    ensures { SaysUsed B.width B.number B.is_block blocks.now start count result }
{
    let mut digits = B::zero();
    for j in 0..count {
        digits = with_one_if(digits, j, is_nonzero(block_at(blocks, start + j)));
    }
    digits
}

// Which of the blocks of the first groups from `start` on are not 0. The compiler makes vector code of a group, whose
// count it knows.
#[inline]
fn bits_of_groups<B: BitBlock>(blocks: &[B], start: usize, groups: usize) -> B
    requires in_bounds { start + groups * GROUP ≤ length blocks.now }
    requires within { groups * GROUP ≤ B.width }
    requires each { All B.is_block blocks.now }
    ensures { SaysUsed B.width B.number B.is_block blocks.now start (groups * GROUP) result }
{
    let mut digits = B::zero();
    for group in 0..groups {
        let index = group * GROUP;
        let more = used_bits(blocks, start + index, GROUP);
        digits = block_or(digits, shift_left(more, index));
    }
    digits
}

// The block of a summary that covers the blocks from `start` on, as many as a block has bits. It is a separate
// function: in a loop over chunks that seldom makes one anew, the compiler would get its parts ready at each turn.
#[inline(never)]
pub(crate) fn used_from<B: BitBlock>(blocks: &[B], start: usize) -> B
    requires in_bounds { start ≤ length blocks.now }
    requires each { All B.is_block blocks.now }
    ensures of_block { B.is_block result }
    ensures digits { (j : ℕ) → j < B.width
        → is_one (B.number result) j ≡ is_used (map B.number blocks.now) (start + j) }
{
    let count = (blocks.len() - start).min(B::bits());
    if count < GROUP {
        return used_bits(blocks, start, count);
    }
    bits_from(blocks, start, count)
}

// Which of the `count` blocks from `start` on are not 0, a group at a time.
#[inline(never)]
fn bits_from<B: BitBlock>(blocks: &[B], start: usize, count: usize) -> B
    requires in_bounds { start + count ≤ length blocks.now }
    requires within { count ≤ B.width }
    requires each { All B.is_block blocks.now }
    ensures { SaysUsed B.width B.number B.is_block blocks.now start count result }
{
    // Most often over blocks of 32 bits, and then vector code with nothing left over.
    if count == LONG_GROUP {
        return used_bits(blocks, start, LONG_GROUP);
    }
    let groups = count / GROUP;
    let digits = bits_of_groups(blocks, start, groups);
    let index = groups * GROUP;
    if index == count {
        return digits;
    }
    let rest = used_bits(blocks, start + index, count - index);
    block_or(digits, shift_left(rest, index))
}

// A list of at most four times as many blocks as one has bits stores no summary: what that would say is soon read off
// the blocks.
const SHORT: usize = 4;

// How many blocks such a list has at most.
#[inline]
pub(crate) fn short_limit<B: BitBlock>() -> usize
    ensures { result ≡ min (short_count B.width) (2 ^ 64 - 1) }
{
    B::bits().saturating_mul(SHORT)
}

// Whether a list of this many blocks stores no summary.
#[inline]
pub(crate) fn is_short<B: BitBlock>(count: usize) -> bool
    ensures value { result ≡ nat_le count (short_count B.width) }
    ensures short { result ≡ true → count ≤ short_count B.width }
    ensures long { result ≡ false → short_count B.width < count }
{
    count <= short_limit::<B>()
}

// How many blocks of a summary a list of this many blocks stores.
#[inline]
pub(crate) fn stored_count<B: BitBlock>(count: usize) -> usize
    ensures { result ≡ stored_for B.width count }
{
    if is_short::<B>(count) {
        0
    } else {
        block_count::<B>(count)
    }
}

// The summary of blocks of which each is 0, or none is.
pub(crate) fn uniform_summary<B: BitBlock>(
    alloc: Global,
    blocks: &[B],
    bit: bool,
) -> Result<Vec<B>, AllocError>
    requires blocks { All B.is_block blocks.now }
    requires uniform { (k : ℕ) → k < length blocks.now → is_used (map B.number blocks.now) k ≡ bit }
    ensures summary { IfOk result (λ summary. IsStoredSummary B.width B.number B.is_block blocks.now summary.items) }
    ensures capacity { IfOk result (λ summary. vec_capacity summary ≡ stored_for B.width (length blocks.now)) }
    ensures short { length blocks.now ≤ short_count B.width → IsOk result }
{
    if is_short::<B>(blocks.len()) {
        return Ok(Vec::new(alloc));
    }
    repeated_bit(alloc, blocks.len(), bit)
}

// Computes the summary anew from its block `first` on, over one that has as many blocks as it takes; those before are right.
fn summarize<B: BitBlock>(summary: &mut Vec<B>, blocks: &[B], first: usize)
    requires count { vec_len summary.old ≡ blocks_for B.width (length blocks.now) }
    requires within { first ≤ vec_len summary.old }
    requires before { (q j : ℕ) → q < first → j < B.width
        → is_one (get_or (map B.number summary.old.items) q 0) j
        ≡ is_used (map B.number blocks.now) (q * B.width + j) }
    requires each { All B.is_block summary.old.items }
    requires blocks { All B.is_block blocks.now }
    requires fits { length blocks.now < 2 ^ 64 }
    ensures summary { IsSummary B.width B.number B.is_block blocks.now summary.new.items }
    ensures capacity { vec_capacity summary.new ≡ vec_capacity summary.old }
{
    for q in first..summary.len() {
        put_block(summary, q, used_from(blocks, q * B::bits()));
    }
}

// A block of a summary, of which `count` bits from `index` on are computed anew: they say which of the blocks from
// `start` on are not 0.
#[inline]
fn with_used_bits<B: BitBlock>(
    block: B,
    index: usize,
    blocks: &[B],
    start: usize,
    count: usize,
) -> B
    requires of_block { B.is_block block }
    requires index { index < B.width }
    requires within { index + count ≤ B.width }
    requires in_bounds { start + count ≤ length blocks.now }
    requires each { All B.is_block blocks.now }
    ensures of_block { B.is_block result }
    ensures made { (j : ℕ) → j < count
        → is_one (B.number result) (index + j) ≡ is_used (map B.number blocks.now) (start + j) }
    ensures below { (j : ℕ) → j < index → is_one (B.number result) j ≡ is_one (B.number block) j }
    ensures above { (j : ℕ) → index + count ≤ j → j < B.width
        → is_one (B.number result) j ≡ is_one (B.number block) j }
{
    let kept = block_or(
        with_zeros_from(block, index),
        clear_below(block, index + count),
    );
    block_or(kept, shift_left(bits_from(blocks, start, count), index))
}

// Makes the bits of the summary of the blocks from `first` up to `end` anew, whatever they were.
pub(crate) fn summarize_span<B: BitBlock>(
    summary: &mut Vec<B>,
    blocks: &[B],
    first: usize,
    end: usize,
)
    requires forward { first ≤ end }
    requires in_blocks { end ≤ length blocks.now }
    requires in_summary { end ≤ vec_len summary.old * B.width }
    requires each { All B.is_block summary.old.items }
    requires blocks { All B.is_block blocks.now }
    requires fits { length blocks.now < 2 ^ 64 }
    ensures made { (k : ℕ) → first ≤ k → k < end
        → value_at B.width (map B.number summary.new.items) k ≡ is_used (map B.number blocks.now) k }
    ensures before { (k : ℕ) → k < first
        → value_at B.width (map B.number summary.new.items) k ≡ value_at B.width (map B.number summary.old.items) k }
    ensures after { (k : ℕ) → end ≤ k
        → value_at B.width (map B.number summary.new.items) k ≡ value_at B.width (map B.number summary.old.items) k }
    ensures in_place { WritesInPlace B.is_block summary.old summary.new }
{
    let width = B::bits();
    for q in block_index::<B>(first)..block_count::<B>(end) {
        let start = first.max(q * width);
        let index = start - q * width;
        let count = (end - start).min(width - index);
        let own = block_at(summary, q);
        put_block(summary, q, with_used_bits(own, index, blocks, start, count));
    }
}

// A summary of its own for the blocks, of which those before block `k` are 0; empty if they are few. Fails only if memory runs
// out, and never for few.
pub(crate) fn summary_of<B: BitBlock>(
    alloc: Global,
    blocks: &[B],
    k: usize,
) -> Result<Vec<B>, AllocError>
    requires within { k ≤ length blocks.now }
    requires zeros { (q : ℕ) → q < k → is_used (map B.number blocks.now) q ≡ false }
    requires blocks { All B.is_block blocks.now }
    requires fits { length blocks.now < 2 ^ 64 }
    ensures summary { IfOk result (λ summary. IsStoredSummary B.width B.number B.is_block blocks.now summary.items) }
    ensures capacity { IfOk result (λ summary. vec_capacity summary ≡ stored_for B.width (length blocks.now)) }
    ensures short { length blocks.now ≤ short_count B.width → IsOk result }
{
    if is_short::<B>(blocks.len()) {
        return Ok(Vec::new(alloc));
    }
    let mut summary = repeated_bit(alloc, blocks.len(), false)?;
    summarize(&mut summary, blocks, block_index::<B>(k));
    Ok(summary)
}

// Makes the summary of `blocks`, of which there will be `count`, if it must be stored and is not yet. There is
// capacity for it.
#[inline]
pub(crate) fn store_summary<B: BitBlock>(summary: &mut Vec<B>, blocks: &[B], count: usize)
    requires keeps { IsStoredSummary B.width B.number B.is_block blocks.now summary.old.items }
    requires blocks { All B.is_block blocks.now }
    requires longer { length blocks.now ≤ count }
    requires capacity { stored_for B.width count ≤ vec_capacity summary.old }
    ensures short { count ≤ short_count B.width → summary.new.items ≡ [] }
    ensures long { short_count B.width < count → IsSummary B.width B.number B.is_block blocks.now summary.new.items }
    ensures capacity { vec_capacity summary.new ≡ vec_capacity summary.old }
{
    if is_short::<B>(blocks.len()) && !is_short::<B>(count) {
        store_short(summary, blocks);
    }
}

// The summary of blocks of which none was stored yet. It is rare, and so a separate function.
#[cold]
#[inline(never)]
fn store_short<B: BitBlock>(summary: &mut Vec<B>, blocks: &[B])
    requires none { summary.old.items ≡ [] }
    requires blocks { All B.is_block blocks.now }
    requires fits { length blocks.now < 2 ^ 64 }
    requires capacity { blocks_for B.width (length blocks.now) ≤ vec_capacity summary.old }
    ensures summary { IsSummary B.width B.number B.is_block blocks.now summary.new.items }
    ensures capacity { vec_capacity summary.new ≡ vec_capacity summary.old }
{
    push_copies(summary, block_count::<B>(blocks.len()), B::zero());
    summarize(summary, blocks, 0);
}

// The summary of `old` blocks becomes that of the longer list: each of the new ones is 0, or none of them is, and
// then the last of the old ones may have changed. There is capacity for it. If they are few, none is stored.
#[inline]
pub(crate) fn append_to_summary<B: BitBlock>(
    summary: &mut Vec<B>,
    blocks: &[B],
    old: usize,
    bit: bool,
)
    requires none { length blocks.now ≤ short_count B.width → summary.old.items ≡ [] }
    requires packed { short_count B.width < length blocks.now
        → IsPacked B.width B.number B.is_block summary.old.items old }
    requires blocks { All B.is_block blocks.now }
    requires longer { old ≤ length blocks.now }
    requires capacity { stored_for B.width (length blocks.now) ≤ vec_capacity summary.old }
    requires before { short_count B.width < length blocks.now → (k : ℕ) → k + 1 < old
        → value_at B.width (map B.number summary.old.items) k ≡ is_used (map B.number blocks.now) k }
    requires last { short_count B.width < length blocks.now → bit ≡ false → (k : ℕ) → k < old
        → value_at B.width (map B.number summary.old.items) k ≡ is_used (map B.number blocks.now) k }
    requires after { (k : ℕ) → old ≤ k → k < length blocks.now → is_used (map B.number blocks.now) k ≡ bit }
    ensures summary { IsStoredSummary B.width B.number B.is_block blocks.now summary.new.items }
    ensures capacity { vec_capacity summary.new ≡ vec_capacity summary.old }
{
    if is_short::<B>(blocks.len()) {
        return;
    }
    append_bits(summary, old, blocks.len(), bit);
    if bit && old != 0 {
        update_summary_at(summary, blocks, old - 1);
    }
}

// The summary of `old` blocks becomes that of the first of them that are left, the last of which may
// have changed. Where these are few, none is stored.
pub(crate) fn cut_summary<B: BitBlock>(summary: &mut Vec<B>, blocks: &[B], old: usize)
    requires packed { short_count B.width < old → IsPacked B.width B.number B.is_block summary.old.items old }
    requires blocks { All B.is_block blocks.now }
    requires shorter { length blocks.now ≤ old }
    requires before { short_count B.width < old → (k : ℕ) → k + 1 < length blocks.now
        → value_at B.width (map B.number summary.old.items) k ≡ is_used (map B.number blocks.now) k }
    ensures summary { IsStoredSummary B.width B.number B.is_block blocks.now summary.new.items }
    ensures capacity { vec_capacity summary.new ≡ vec_capacity summary.old }
{
    if is_short::<B>(blocks.len()) {
        summary.clear();
        return;
    }
    truncate_bits(summary, old, blocks.len());
    update_summary_at(summary, blocks, blocks.len() - 1);
}
