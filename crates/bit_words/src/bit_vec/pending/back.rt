// The blocks that a walk has still to look at, from the back.
ghost use Rattle.std.specs.Prelude.{◌≡◌, ℕ, ◌+◌, ◌-◌, ◌<◌, ◌≤◌, ◌&&◌, IsTrue, false, length, map, nat_lt, take, true};
ghost use Rattle.bit_blocks.specs.{Bits.blocks_for, Digits.is_one, Storage.is_used};
ghost use Rattle.bit_words.specs.Pending.{FindsLast, FindsLastPending, IsPending, next_at};

use crate::bit_vec::pending::Pending;
use crate::summary::is_nonzero;
use crate::summary::searching::last_used_from;
use bit_blocks::block::BitBlock;
use bit_blocks::block::masks::clear_from;
use bit_blocks::block::operators::has_one_at;
use bit_blocks::packed::access::{block_at, block_count};

impl<'a, B: BitBlock> Pending<'a, B> {
    // Takes the highest bit that is pending, or that the summary has past these, and returns the index of the block
    // that it covers: `end` is there then. If there is none, nothing is left, so that a later call looks at no
    // more. Most often it is the last block, past the block of the summary in hand: that takes no search.
    #[inline(always)]
    pub(crate) fn last_block(&mut self, blocks: &[B]) -> Option<usize>
        requires walk { IsPending B.width B.number B.is_block
            self.old.index self.old.end self.old.bits blocks.now self.old.summary.left }
        ensures walk { IsPending B.width B.number B.is_block
            self.new.index self.new.end self.new.bits blocks.now self.new.summary.left }
        ensures found { FindsLast B.width B.number blocks.now
            self.old.index (B.number self.old.bits) self.old.end result (B.number self.new.bits) self.new.end }
        ensures index { self.new.index ≡ self.old.index }
        ensures pulls { self.new.summary.pulls ≡ self.old.summary.pulls }
    {
        if self.has_last(blocks) {
            self.drop_last();
        } else {
            self.search_last(blocks)?;
        }
        Some(self.end)
    }

    // Whether there are blocks past the block of the summary in hand, and the last of them is not zero.
    #[inline(always)]
    fn has_last(&self, blocks: &[B]) -> bool
        requires { IsPending B.width B.number B.is_block
            self.now.index self.now.end self.now.bits blocks.now self.now.summary.left }
        ensures past { IsTrue result → self.now.index + B.width < self.now.end }
        ensures used { IsTrue result → is_used (map B.number blocks.now) (self.now.end - 1) ≡ true }
    {
        self.end - self.index > B::bits() && is_nonzero(block_at(blocks, self.end - 1))
    }

    // Leaves the bits of the blocks before the last one, which is past the block of the summary in hand.
    #[inline(always)]
    fn drop_last(&mut self)
        requires past { self.old.index + B.width < self.old.end }
        requires few { length self.old.summary.left
            ≤ blocks_for B.width (self.old.end - (self.old.index + B.width)) }
        ensures stored { self.new.summary.left
            ≡ take (blocks_for B.width (self.new.end - (self.old.index + B.width))) self.old.summary.left }
        ensures end { self.new.end ≡ self.old.end - 1 }
        ensures bits { self.new.bits ≡ self.old.bits }
        ensures index { self.new.index ≡ self.old.index }
        ensures pulls { self.new.summary.pulls ≡ self.old.summary.pulls }
    {
        self.end -= 1;
        let count = self.end - self.index;
        // It was the first of its chunk: what the summary has of that is about no block that is left.
        if count % B::bits() == 0 {
            self.summary.keep_first(count / B::bits() - 1);
        }
    }

    // Takes that bit by a search, which looks at the block of the summary in hand too.
    #[inline(always)]
    fn search_last(&mut self, blocks: &[B]) -> Option<usize>
        requires walk { IsPending B.width B.number B.is_block
            self.old.index self.old.end self.old.bits blocks.now self.old.summary.left }
        ensures walk { IsPending B.width B.number B.is_block
            self.new.index self.new.end self.new.bits blocks.now self.new.summary.left }
        ensures found { FindsLast B.width B.number blocks.now
            self.old.index (B.number self.old.bits) self.old.end result (B.number self.new.bits) self.new.end }
        ensures index { self.new.index ≡ self.old.index }
        ensures pulls { self.new.summary.pulls ≡ self.old.summary.pulls }
    {
        let found = self.find_last(blocks);
        self.keep_before(found.unwrap_or(self.index));
        found
    }

    // The last block that a bit covers: of those past the block of the summary in hand, or else of that one.
    #[inline(always)]
    fn find_last(&self, blocks: &[B]) -> Option<usize>
        requires { IsPending B.width B.number B.is_block
            self.now.index self.now.end self.now.bits blocks.now self.now.summary.left }
        ensures { FindsLastPending B.number blocks.now
            (next_at B.width self.now.index (B.number self.now.bits)) self.now.end result }
    {
        if let Some(k) = self.find_last_past_hand(blocks) {
            return Some(k);
        }
        if !is_nonzero(self.bits) {
            return None;
        }
        Some(self.index + self.bits.highest_one())
    }

    #[inline(always)]
    fn find_last_past_hand(&self, blocks: &[B]) -> Option<usize>
        requires { IsPending B.width B.number B.is_block
            self.now.index self.now.end self.now.bits blocks.now self.now.summary.left }
        ensures { FindsLastPending B.number blocks.now (self.now.index + B.width) self.now.end result }
    {
        if self.end - self.index <= B::bits() {
            return None;
        }
        let start = self.index + B::bits();
        let found = last_used_from(blocks, self.summary.as_slice(), start, self.end)?;
        Some(start + found)
    }

    // Leaves what is about the blocks before the one at `end`.
    #[inline(always)]
    pub(crate) fn keep_before(&mut self, end: usize)
        requires from { self.old.index ≤ end }
        requires to { end ≤ self.old.end }
        requires of_block { B.is_block self.old.bits }
        ensures of_block { B.is_block self.new.bits }
        ensures digits { (j : ℕ) → j < B.width → is_one (B.number self.new.bits) j
            ≡ (nat_lt j (end - self.old.index) && is_one (B.number self.old.bits) j) }
        ensures stored { self.new.summary.left
            ≡ take (blocks_for B.width (end - (self.old.index + B.width))) self.old.summary.left }
        ensures end { self.new.end ≡ end }
        ensures index { self.new.index ≡ self.old.index }
        ensures pulls { self.new.summary.pulls ≡ self.old.summary.pulls }
    {
        let past = (end - self.index).saturating_sub(B::bits());
        self.bits = clear_from(self.bits, end - self.index);
        self.summary.keep_first(block_count::<B>(past));
        self.end = end;
    }

    // Whether the block at `k` is among those that are left, unless it is zero.
    #[inline]
    pub(crate) fn may_have(&self, k: usize) -> bool
        requires { B.is_block self.now.bits }
        ensures left { IsTrue result → (next_at B.width self.now.index (B.number self.now.bits) ≤ k) × (k < self.now.end) }
        ensures out { result ≡ false → k < self.now.end → self.now.index ≤ k
            → (k < self.now.index + B.width) × (is_one (B.number self.now.bits) (k - self.now.index) ≡ false) }
    {
        if k < self.index || k >= self.end {
            return false;
        }
        let digit = k - self.index;
        digit >= B::bits() || has_one_at(self.bits, digit)
    }
}
