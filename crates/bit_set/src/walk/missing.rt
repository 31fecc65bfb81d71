// The iterator over the absent numbers of a range.
ghost use Rattle.std.specs.{Prelude.{◌≡◌, ℕ, ◌+◌, ◌-◌, ◌&&◌, not, IfSome, Some, length}, Iterator.{UpTo, item_count, Runs.YieldsInOrder, SizeHint.IsWithinCount}};
ghost use Rattle.bit_blocks.specs.Ranges.{in_range};
ghost use Rattle.set_algebra.specs.{Ranges.{span, those_in_range}, Sets.{difference, elements, has}};
ghost use Rattle.bit_set.specs.Missing.{PassesMembers, StartsMissing};

use crate::bit_vec::{BitVec, clear_below, take_lowest_one};
use crate::{BitBlock, BitSet};
use std::marker::Model;
use std::ops::Range;

/// The numbers of a range that are absent from a set, in ascending order, each once. Reads each block of the range
/// once, and none past the length, where all numbers are missing.
#[derive(Drop)]
pub struct Missing<'a, B: BitBlock> {
    bits: &'a BitVec<B>,
    // What is left of the block in hand: its ones are the numbers that are missing.
    block: B,
    // The index of its lowest bit.
    index: usize,
    end: usize,
}

impl<'a, B: BitBlock> Model for Missing<'a, B> {
    ghost use Rattle.bit_set.specs.Missing.{MissingWalk, IsMissingWalk, missing_left};

    ghost Value = { MissingWalk };

    ghost view = { λ it. record {
      left = missing_left B.width it.index (B.number it.block) it.end it.bits.now.values;
      index = it.index;
      end = it.end;
    } };

    ghost invariant = { λ it.
        IsMissingWalk (B.is_block it.block) B.width it.index (B.number it.block) it.end it.bits.now.values };
}

impl<'a, B: BitBlock> Missing<'a, B> {
    // The iterator over the numbers from `start` up to `end` at which a bit vector is not true.
    #[inline]
    fn over(bits: &'a BitVec<B>, start: usize, end: usize) -> Self
        ensures { StartsMissing B.width bits.now.values start end result }
    {
        let from = start.min(end);
        let first = from / B::bits();
        let index = first * B::bits();
        Missing {
            bits,
            block: clear_below(bits.zeros_in_block(first, end), from - index),
            index,
            end,
        }
    }

    /// How many numbers are left. Adds up the ones of the remaining blocks of the range.
    pub fn count(self) -> usize
        ensures { result ≡ length self.entry.left }
    {
        let in_hand = self.block.count_ones();
        if self.end - self.index <= B::bits() {
            return in_hand;
        }
        let past = self.index + B::bits();
        let members = self.bits.count_ones_in_range(past..self.end);
        in_hand + (self.end - past - members)
    }

    /// Another iterator over what is left. Constant time.
    #[inline]
    pub fn clone(&self) -> Self
        ensures { result ≡ self.now }
    {
        Missing {
            bits: self.bits,
            block: self.block,
            index: self.index,
            end: self.end,
        }
    }
}

impl<'a, B: BitBlock> Iterator for Missing<'a, B> {
    type Item = usize;

    ghost next_gives = { PassesMembers B.width };

    ghost remaining = { item_count (λ walk. walk.left) };

    /// The least number that is left, and `None` for good once there is none. Moves to the next block that lacks
    /// one; constant time within a block.
    #[inline]
    fn next(&mut self) -> Option<usize> {
        while self.block == B::zero() {
            if self.end - self.index <= B::bits() {
                return None;
            }
            self.index += B::bits();
            self.block = self.bits.zeros_in_block(self.index / B::bits(), self.end);
        }
        Some(self.index + take_lowest_one(&mut self.block))
    }

    /// From 0 up to the distance from the first number of the block in hand to the end of the range. Constant time.
    #[inline]
    fn size_hint(&self) -> (usize, Option<usize>)
        ensures exact { result ≡ (0, Some (self.now.end - self.now.index)) }
        ensures lower { IsWithinCount result.0 (item_count (λ walk. walk.left) self.now) }
        ensures upper { IfSome result.1 (UpTo (item_count (λ walk. walk.left) self.now)) }
    {
        (0, Some(self.end - self.index))
    }
}

impl<B: BitBlock> BitSet<B> {
    /// An iterator over the absent numbers of the range, in ascending order; there are none if the range is empty.
    /// Past the length all are missing. Constant time.
    ///
    /// ```
    /// // The set is {1, 4}.
    /// assert!(set.missing(0..6).eq([0, 2, 3, 5]));
    /// ```
    #[inline]
    pub fn missing(&self, range: Range<usize>) -> Missing<'_, B>
        ensures left { result.left ≡ difference (span range.start range.end) (elements self.now.values) }
        ensures members { (n : ℕ) → has result.left n
            ≡ (in_range range.start range.end n && not (has (elements self.now.values) n)) }
        ensures count { length result.left + length (those_in_range (elements self.now.values) range.start range.end)
            ≡ range.end - range.start }
        ensures start { StartsMissing B.width self.now.values range.start range.end result }
        ensures runs { YieldsInOrder (PassesMembers B.width) (λ walk. walk.left) }
    {
        Missing::over(self.get_ref(), range.start, range.end)
    }
}
