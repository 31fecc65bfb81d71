// Merges of blocks with others of one list, or of another list, each by the digits of every block. Each keeps, in
// one block, whether one of them changed: the compiler removes it if nothing reads it.
ghost use Rattle.std.specs.Prelude.{◌≡◌, ◌+◌, ◌*◌, ◌<◌, ◌≤◌, ◌↔◌, All, false, length, map};
ghost use Rattle.bit_blocks.specs.BlockMerges.{other_at, AreKept, CanMerge, HasMerged};
ghost use Rattle.bit_matrix.specs.Merges.{AreApart, CanTrack, IsTrackedBlock, IsTrackedMerge, MergesPart};

use crate::BitBlock;
use bit_blocks::packed::{block_at, or_mismatch, put_in, same};
use bit_words::bit_vec::operation::Operation;

// The merge of block `k` with the other of its index, and a block that is 0 exactly if `seen` is 0 and block `k`
// stays.
#[inline(always)]
fn merged_at<B: BitBlock, O: Operation>(blocks: &[B], others: &[B], k: usize, seen: B) -> (B, B)
    requires can { CanTrack B.is_block blocks.now others.now seen }
    requires within { k < length others.now }
    ensures { IsTrackedBlock O.merge B.width B.number B.is_block k blocks.now others.now result.0 seen result.1 }
{
    let block = block_at(blocks, k);
    let merged = O::of_blocks(block, block_at(others, k));
    (merged, or_mismatch(seen, block, merged))
}

// Each of the `count` blocks from `start` on becomes its merge with the other of its index. Returns a block that is
// 0 exactly if `seen` is 0 and none changed.
#[inline(always)]
fn merge_each<B: BitBlock, O: Operation>(
    blocks: &mut [B],
    others: &[B],
    start: usize,
    count: usize,
    seen: B,
) -> B
    requires can { CanTrack B.is_block blocks.old others.now seen }
    requires within { start + count ≤ length others.now }
    ensures { IsTrackedMerge O.merge B.width B.number B.is_block start (start + count) blocks.old others.now blocks.new seen
        result }
{
    let mut mismatch = seen;
    for k in 0..count {
        let (merged, changed) = merged_at::<B, O>(blocks, others, start + k, mismatch);
        mismatch = changed;
        put_in(blocks, start + k, merged);
    }
    mismatch
}

// Does so with four blocks. All of them are read before one is written: so the compiler makes vector code of it, though it
// does not know that the lists are apart.
#[inline(always)]
fn merge_four<B: BitBlock, O: Operation>(blocks: &mut [B], others: &[B], start: usize, seen: B) -> B
    requires can { CanTrack B.is_block blocks.old others.now seen }
    requires within { start + 4 ≤ length others.now }
    ensures { IsTrackedMerge O.merge B.width B.number B.is_block start (start + 4) blocks.old others.now blocks.new seen
        result }
{
    let (first, one) = merged_at::<B, O>(blocks, others, start, seen);
    let (second, two) = merged_at::<B, O>(blocks, others, start + 1, one);
    let (third, three) = merged_at::<B, O>(blocks, others, start + 2, two);
    let (fourth, four) = merged_at::<B, O>(blocks, others, start + 3, three);
    put_in(blocks, start, first);
    put_in(blocks, start + 1, second);
    put_in(blocks, start + 2, third);
    put_in(blocks, start + 3, fourth);
    four
}

// Does so with this many groups of four.
#[inline(always)]
fn merge_fours<B: BitBlock, O: Operation>(
    blocks: &mut [B],
    others: &[B],
    start: usize,
    fours: usize,
    seen: B,
) -> B
    requires can { CanTrack B.is_block blocks.old others.now seen }
    requires within { start + fours * 4 ≤ length others.now }
    ensures { IsTrackedMerge O.merge B.width B.number B.is_block start (start + fours * 4) blocks.old others.now blocks.new
        seen result }
{
    let mut mismatch = seen;
    for four in 0..fours {
        mismatch = merge_four::<B, O>(blocks, others, start + four * 4, mismatch);
    }
    mismatch
}

// Does so with this many groups of sixteen, from the first block on.
#[inline(always)]
fn merge_groups<B: BitBlock, O: Operation>(
    blocks: &mut [B],
    others: &[B],
    groups: usize,
    seen: B,
) -> B
    requires can { CanTrack B.is_block blocks.old others.now seen }
    requires within { groups * 16 ≤ length others.now }
    ensures { IsTrackedMerge O.merge B.width B.number B.is_block 0 (groups * 16) blocks.old others.now blocks.new seen
        result }
{
    let mut mismatch = seen;
    for group in 0..groups {
        mismatch = merge_fours::<B, O>(blocks, others, group * 16, 4, mismatch);
    }
    mismatch
}

// Each block, as far as there are others, becomes its merge with the other of its index. Returns whether one
// changed. All but at most three blocks are merged by fours.
#[inline(always)]
fn merge_blocks<B: BitBlock, O: Operation>(blocks: &mut [B], others: &[B]) -> bool
    requires can { CanMerge B.is_block blocks.old (length others.now) (All B.is_block others.now) }
    ensures has { HasMerged O.merge B.width B.number B.is_block 0 (length others.now)
        (other_at (map B.number others.now)) blocks.old blocks.new }
    ensures kept { (result ≡ false) ↔ AreKept (map B.number blocks.old) (map B.number blocks.new) }
{
    let count = others.len();
    let first = merge_groups::<B, O>(blocks, others, count / 16, B::zero());
    let second = merge_fours::<B, O>(blocks, others, count / 16 * 16, count % 16 / 4, first);
    let mismatch = merge_each::<B, O>(blocks, others, count / 4 * 4, count % 4, second);
    !same(mismatch, B::zero())
}

// Each of the blocks from `write` on, as far as there are others, becomes its merge with the other. Returns whether one
// changed.
#[inline(always)]
pub(crate) fn merge_others<B: BitBlock, O: Operation>(
    blocks: &mut [B],
    others: &[B],
    write: usize,
) -> bool
    requires in_write { write + length others.now ≤ length blocks.old }
    requires each { All B.is_block blocks.old }
    requires others { All B.is_block others.now }
    ensures { MergesPart O.merge B.width B.number B.is_block 0 write (length others.now) blocks.old others.now blocks.new
        result }
{
    let (_, back) = blocks.split_at_mut(write);
    let (part, _) = back.split_at_mut(others.len());
    merge_blocks::<B, O>(part, others)
}

// Each of this many blocks from `start` on becomes its merge with itself. Returns whether one changed.
fn merge_same<B: BitBlock, O: Operation>(blocks: &mut [B], start: usize, count: usize) -> bool
    requires within { start + count ≤ length blocks.old }
    requires each { All B.is_block blocks.old }
    ensures { MergesPart O.merge B.width B.number B.is_block start start count blocks.old blocks.old blocks.new result }
{
    let mut mismatch = B::zero();
    for k in 0..count {
        let block = block_at(blocks, start + k);
        let merged = O::of_blocks(block, block);
        mismatch = or_mismatch(mismatch, block, merged);
        put_in(blocks, start + k, merged);
    }
    !same(mismatch, B::zero())
}

// Each of this many blocks from `write` on becomes its merge with that as far from `read` on. Returns whether one
// changed.
#[inline(always)]
pub(crate) fn merge_within<B: BitBlock, O: Operation>(
    blocks: &mut [B],
    read: usize,
    write: usize,
    count: usize,
) -> bool
    requires in_read { read + count ≤ length blocks.old }
    requires in_write { write + count ≤ length blocks.old }
    requires apart { AreApart read write count }
    requires each { All B.is_block blocks.old }
    ensures { MergesPart O.merge B.width B.number B.is_block read write count blocks.old blocks.old blocks.new result }
{
    if read < write {
        let (front, back) = blocks.split_at_mut(write);
        let others = front.split_at(read).1.split_at(count).0;
        merge_others::<B, O>(back, others, 0)
    } else if write < read {
        let (front, back) = blocks.split_at_mut(read);
        merge_others::<B, O>(front, back.split_at(count).0, write)
    } else {
        merge_same::<B, O>(blocks, write, count)
    }
}
