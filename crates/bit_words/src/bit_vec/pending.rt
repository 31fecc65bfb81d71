// The blocks that a walk has still to look at, by the summary.
ghost use Rattle.std.specs.Prelude.{◌≡◌, ◌≢◌, ℕ, ◌+◌, ◌-◌, ◌*◌, ◌/◌, ◌<◌, ◌≤◌, ◌^◌, All, drop, get_or, length, map, nat_lt};
ghost use Rattle.bit_blocks.specs.{Bits.blocks_for, Digits.is_one};
ghost use Rattle.bit_words.specs.{Pending.{CoversUsed, Finds, IsPending, IsStoredFrom, left_from, next_at}, Summary.IsStoredSummary};

use crate::bit_vec::Blocks;
use crate::summary::{is_nonzero, used_from};
use bit_blocks::block::BitBlock;
use bit_blocks::block::lowest::take_lowest_one;
use bit_blocks::block::masks::{clear_below, clear_from};
use bit_blocks::block::operators::{all_ones, ones_below};
use bit_blocks::packed::nonzero::block_or_zero;

mod back;
mod chunks;

// What of a summary is left, and of its block in hand.
#[derive(Drop)]
pub(crate) struct Pending<'a, B: BitBlock> {
    pub(crate) summary: Blocks<'a, B>,
    // What is left of the summary's block in hand. If none is stored, it has a bit for each block that there is.
    pub(crate) bits: B,
    // The index of the block that its lowest digit is about.
    pub(crate) index: usize,
    // The index of the block before which those that are left are: the others were taken from the back.
    pub(crate) end: usize,
}

// What is made up for a block of the summary if none is stored.
#[derive(Clone, Copy, Drop)]
pub(crate) enum Unstored {
    // A bit for each block, zero or not.
    Each,
    // A bit for each block, or, if the first block is zero, only for the nonzero ones.
    NonzeroPastZero,
}

impl<'a, B: BitBlock> Pending<'a, B> {
    // What is pending past the block at `first`. If there is no block, nothing.
    #[inline]
    pub(crate) fn after(blocks: &[B], summary: &'a [B], first: usize, unstored: Unstored) -> Self
        requires each { All B.is_block blocks.now }
        requires fits { length blocks.now < 2 ^ 64 }
        requires summary { IsStoredSummary B.width B.number B.is_block blocks.now summary.now }
        requires inside { first ≤ length blocks.now - 1 }
        ensures walk { IsPending B.width B.number B.is_block
            result.index result.end result.bits blocks.now result.summary.left }
        ensures end { result.end ≡ length blocks.now }
        ensures left { left_from B.number (next_at B.width result.index (B.number result.bits)) result.end blocks.now
            ≡ left_from B.number (first + 1) result.end blocks.now }
        ensures index { result.index ≡ first / B.width * B.width }
        ensures pulls { result.summary.pulls ≡ 1 }
        ensures count { blocks_for B.width (length blocks.now - (result.index + B.width))
            ≡ blocks_for B.width (length blocks.now) - 1 - first / B.width }
    {
        let chunk = first / B::bits();
        let index = chunk * B::bits();
        let mut rest = Blocks::over(summary.split_at(chunk.min(summary.len())).1);
        let end = blocks.len();
        let used = pull_used(&mut rest, blocks, index, end, unstored);
        Pending {
            summary: rest,
            bits: clear_below(used, first % B::bits() + 1),
            index,
            end,
        }
    }

    // A copy, whose count of pulls goes on from this one's.
    #[inline]
    pub(crate) fn clone(&self) -> Self
        ensures { result ≡ self.now }
    {
        Pending {
            summary: self.summary.clone(),
            bits: self.bits,
            index: self.index,
            end: self.end,
        }
    }

    // Takes the lowest pending bit, and returns the index of the block that it covers; if none is left, after
    // moving to the next block of the summary that has one.
    #[inline(always)]
    pub(crate) fn next_block(&mut self, blocks: &[B]) -> Option<usize>
        requires walk { IsPending B.width B.number B.is_block
            self.old.index self.old.end self.old.bits blocks.now self.old.summary.left }
        ensures walk { IsPending B.width B.number B.is_block
            self.new.index self.new.end self.new.bits blocks.now self.new.summary.left }
        ensures end { self.new.end ≡ self.old.end }
        ensures found { Finds B.width B.number blocks.now
            self.new.end self.old.index (B.number self.old.bits) self.old.summary.pulls
            result self.new.index (B.number self.new.bits) self.new.summary.pulls }
    {
        while !is_nonzero(self.bits) {
            // `index` goes with the block of the summary in hand: it advances by those that are skipped, and by one
            // more only if there are blocks for it.
            self.index += pass_zero_chunks(&mut self.summary, self.end - self.index) * B::bits();
            if self.end - self.index <= B::bits() {
                return None;
            }
            self.index += B::bits();
            let (index, end) = (self.index, self.end);
            self.bits = pull_used(&mut self.summary, blocks, index, end, Unstored::Each);
        }
        Some(self.index + take_lowest_one(&mut self.bits))
    }
}

// Pulls the blocks of the summary before the first that is not 0, and returns how many they are. Where only `count`
// blocks are left from those of the summary's block in hand on, and these are the last, none is looked for.
#[inline(always)]
fn pass_zero_chunks<B: BitBlock>(summary: &mut Blocks<'_, B>, count: usize) -> usize
    requires each { All B.is_block summary.old.left }
    ensures there { result ≤ length summary.old.left }
    ensures zeros { (k : ℕ) → k < result → get_or (map B.number summary.old.left) k 0 ≡ 0 }
    ensures end { B.width < count → result < length summary.old.left
        → get_or (map B.number summary.old.left) result 0 ≢ 0 }
    ensures left { summary.new.left ≡ drop result summary.old.left }
    ensures pulls { summary.new.pulls ≡ summary.old.pulls + result }
{
    if count <= B::bits() {
        return 0;
    }
    summary.pass_zeros()
}

// The next block of the summary, which covers the blocks from `start` on, or what is made up if none is stored. It
// has no bit of a block from `end` on. Counts one pull.
#[inline(always)]
fn pull_used<B: BitBlock>(
    summary: &mut Blocks<'_, B>,
    blocks: &[B],
    start: usize,
    end: usize,
    unstored: Unstored,
) -> B
    requires in_bounds { start ≤ end }
    requires to { end ≤ length blocks.now }
    requires each { All B.is_block blocks.now }
    requires stored { IsStoredFrom B.width B.number B.is_block start end blocks.now summary.old.left }
    ensures of_block { B.is_block result }
    ensures digits { CoversUsed B.width B.number blocks.now start end (B.number result) }
    ensures left { summary.new.left ≡ drop 1 summary.old.left }
    ensures pulls { summary.new.pulls ≡ summary.old.pulls + 1 }
{
    let pulled = summary.next();
    if let Some(used) = pulled {
        return clear_from(used, end - start);
    }
    match unstored {
        Unstored::NonzeroPastZero if !is_nonzero(block_or_zero(blocks, start)) => {
            clear_from(used_from(blocks, start), end - start)
        }
        _ => ones_for(end - start),
    }
}

// A block with this many bits set, from the lowest on, or all of them.
#[inline]
#[tactic(auto, using(bit_blocks::proofs::Masks::masks))]
fn ones_for<B: BitBlock>(count: usize) -> B
    ensures of_block { B.is_block result }
    ensures digits { (j : ℕ) → j < B.width → is_one (B.number result) j ≡ nat_lt j count }
{
    if count < B::bits() {
        ones_below(count)
    } else {
        all_ones()
    }
}
