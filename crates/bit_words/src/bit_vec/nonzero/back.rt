// The walk over the blocks that are not 0, from the back, and up to a block.
ghost use Rattle.std.specs.Prelude.{◌≡◌, ◌-◌, ◌*◌, ◌/◌, ◌<◌, ◌≤◌, ◌^◌, ◌==◌, All, IfSome, not, length, map, min};
ghost use Rattle.bit_blocks.specs.Bits.{blocks_for, blocks_of, IsWithinCapacity};
ghost use Rattle.bit_words.specs.Nonzero.{CutsAt, PullsLast, Refills, TakesLast, walk_past};

use crate::bit_vec::nonzero::at;
use crate::bit_vec::pending::{Pending, Unstored};
use crate::bit_vec::{BitVec, Nonzero};
use crate::summary::is_nonzero;
use bit_blocks::block::BitBlock;
use bit_blocks::block::masks::clear_from;
use bit_blocks::steps::Steps;

impl<B: BitBlock> BitVec<B> {
    /// The walk of [`nonzero_past`](Self::nonzero_past), which ends before the block at `last`, and the lowest `count` bits
    /// of that block, or zeros where it is not past the first one. These bits are a second pull where one of them is 1.
    /// Of the summary it pulls what says of the blocks between alone.
    ///
    /// ```
    /// // Of 100 values, over blocks of 32 bits, those at 70 and 71 are true.
    /// let (mut walk, block) = bits.nonzero_between(0, 2, 7);
    /// assert_eq!(block, 0b0100_0000);
    /// assert_eq!(walk.next(), None);
    /// ```
    #[inline]
    pub fn nonzero_between(&self, first: usize, last: usize, count: usize) -> (Nonzero<'_, B>, B)
        ensures blocks { map B.number result.0.blocks ≡ blocks_of B.width self.now.values }
        ensures each { All B.is_block result.0.blocks }
        ensures of_block { B.is_block result.1 }
        ensures cut { CutsAt B.width B.number last count
            (walk_past B.width B.number (min first (length result.0.blocks - 1)) result.0.blocks) result.1 result.0 }
        ensures summary { result.0.summary_left
            ≤ blocks_for B.width last - 1 - min first (length result.0.blocks - 1) / B.width }
        ensures fits { IsWithinCapacity self.now }
    {
        let end = self.storage().len().saturating_sub(1);
        Nonzero::between(self, first.min(end), last, count)
    }
}

impl<'a, B: BitBlock> Nonzero<'a, B> {
    /// The same for the hand at the back: where `back` is zero, makes it the last block that is left, and where none is
    /// left, takes over the block at the front.
    #[inline(always)]
    pub fn refill_back(
        &mut self,
        back: &mut B,
        back_index: &mut usize,
        block: &mut B,
        index: usize,
    ) -> bool
        requires of_back { B.is_block back.old }
        requires of_block { B.is_block block.old }
        requires fits { (length self.old.blocks - 1) * B.width < 2 ^ 64 }
        ensures of_back { B.is_block back.new }
        ensures of_block { B.is_block block.new }
        ensures found { result ≡ not (B.number back.new == 0) }
        ensures refills { Refills TakesLast PullsLast B.width B.number
            self.old (record { block = back.old; index = back_index.old }) (record { block = block.old; index = index })
            result
            self.new (record { block = back.new; index = back_index.new }) (record { block = block.new; index = index }) }
    {
        if is_nonzero(*back) {
            return true;
        }
        if let Some((k, last)) = self.take_last() {
            *back = last;
            *back_index = k * B::bits();
            return true;
        }
        if is_nonzero(*block) {
            *back = *block;
            *back_index = index;
            *block = B::zero();
            return true;
        }
        self.steps.tick();
        false
    }

    // The walk past the block at `first` and before the one at `last`, and the lowest `count` bits of that block, or zeros
    // where it is not past the first one.
    #[inline]
    pub(crate) fn between(bits: &'a BitVec<B>, first: usize, last: usize, count: usize) -> (Self, B)
        requires inside { first ≤ blocks_for B.width (length bits.now.values) - 1 }
        ensures blocks { map B.number result.0.blocks ≡ blocks_of B.width bits.now.values }
        ensures each { All B.is_block result.0.blocks }
        ensures of_block { B.is_block result.1 }
        ensures cut { CutsAt B.width B.number last count
            (walk_past B.width B.number first result.0.blocks) result.1 result.0 }
        ensures summary { result.0.summary_left ≤ blocks_for B.width last - 1 - first / B.width }
        ensures fits { IsWithinCapacity bits.now }
    {
        let blocks = bits.blocks.as_slice();
        let mut pending = Pending::after(blocks, &bits.summary, first, Unstored::NonzeroPastZero);
        let whole = if pending.may_have(last) {
            at(blocks, last)
        } else {
            B::zero()
        };
        let block = clear_from(whole, count);
        let end = last.max(pending.index).min(pending.end);
        pending.keep_before(end);
        let mut steps = Steps::new();
        steps.tick();
        if is_nonzero(block) {
            steps.tick();
        }
        let walk = Nonzero {
            blocks,
            pending,
            steps,
        };
        (walk, block)
    }

    // The last block, with its index, as a pull. Where there is none it counts no pull.
    #[inline(always)]
    fn take_last(&mut self) -> Option<(usize, B)>
        ensures steps { TakesLast self.old result self.new }
        ensures found { IfSome result (λ entry. (entry.0 < length self.old.blocks)
            × B.is_block entry.1 × (0 < B.number entry.1)) }
    {
        while let Some(k) = self.pending.last_block(self.blocks) {
            let block = at(self.blocks, k);
            if is_nonzero(block) {
                self.steps.tick();
                return Some((k, block));
            }
        }
        None
    }
}

impl<'a, B: BitBlock> DoubleEndedIterator for Nonzero<'a, B> {
    ghost use Rattle.bit_words.specs.Nonzero.{PullsLast};

    ghost next_back_gives = { PullsLast };

    /// The last block that is not zero, with its index. Both ends take of the same blocks. It passes over zero blocks as
    /// [`next`](Iterator::next) does, and counts no pull of the summary.
    #[inline]
    fn next_back(&mut self) -> Option<(usize, B)> {
        let last = self.take_last();
        if last.is_none() {
            self.steps.tick();
        }
        last
    }
}
