// The iterator over a set's elements, from the back.
ghost use Rattle.std.specs.{Prelude.{◌≡◌, MatchOption, None}, Iterator.{Adapters.{RevKeepsRuns, rev_source}, Runs.YieldsInReverse}, List.last_or};
ghost use Rattle.set_algebra.specs.{Choices.{IsGreatest, IsLastOf}, Members.HasNone};
ghost use Rattle.bit_set.specs.Walk.{AdvancesBack};

use crate::BitBlock;
use crate::bit_vec::take_highest_one;
use crate::walk::Iter;
use std::iter::Rev;

impl<'a, B: BitBlock> Iter<'a, B> {
    /// The greatest element that is left: one call of [`next_back`](DoubleEndedIterator::next_back).
    #[inline]
    pub fn last(mut self) -> Option<usize>
        ensures value { result ≡ last_or None self.entry.left }
        ensures last { IsLastOf self.entry.left result }
        ensures members { MatchOption result (HasNone self.entry.left) (IsGreatest self.entry.left) }
    {
        self.next_back()
    }

    /// The greatest element that is left, as [`last`](Self::last).
    #[inline]
    pub fn max(self) -> Option<usize>
        ensures last { IsLastOf self.entry.left result }
        ensures members { MatchOption result (HasNone self.entry.left) (IsGreatest self.entry.left) }
    {
        self.last()
    }

    /// The elements that are left, in descending order: std's `rev`, which other adapters can follow. Constant
    /// time.
    ///
    /// ```
    /// let set = BitSet::from_bytes(alloc, &[0b0100_1010])?;
    /// assert!(set.iter().rev().eq([6, 4, 1]));
    /// ```
    // With std's own method a caller would not know what it yields; if each iterator said so, loops over it would
    // stay open.
    #[inline]
    pub fn rev(self) -> Rev<Self>
        ensures source { rev_source result ≡ self.entry }
        ensures runs { RevKeepsRuns (AdvancesBack B.width) self.entry result }
        ensures gives { YieldsInReverse (AdvancesBack B.width) (λ walk. walk.left) }
    {
        Iterator::rev(self)
    }
}

impl<'a, B: BitBlock> DoubleEndedIterator for Iter<'a, B> {
    ghost next_back_gives = { AdvancesBack B.width };

    /// The greatest element that is left, and `None` for good once there is none. Both ends draw on the same
    /// elements. Moves to the last nonzero block by the summary; constant time within a block of the six types.
    // If it is not inlined, the iterator goes through memory.
    #[inline(always)]
    fn next_back(&mut self) -> Option<usize> {
        let index = self.index;
        let (block, back, back_index) = (&mut self.block, &mut self.back, &mut self.back_index);
        if !self.nonzero.refill_back(back, back_index, block, index) {
            self.back_index = index;
            return None;
        }
        Some(self.back_index + take_highest_one(&mut self.back))
    }
}
