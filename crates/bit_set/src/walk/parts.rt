// The iterators over a part of a set's elements.
ghost use Rattle.std.specs.{Prelude.{◌≡◌, ℕ, ◌-◌, ◌*◌, ◌/◌, ◌<◌, ◌&&◌, All, get_or, length, map, max, min, nat_le}, Iterator.Runs.YieldsInOrder};
ghost use Rattle.bit_blocks.specs.{Digits.is_one, Ranges.in_range};
ghost use Rattle.set_algebra.specs.{Ranges.those_in_range, Sets.{elements, has, those_from}};
ghost use Rattle.bit_set.specs.Walk.{Advances, IsAtStartFrom, IsAtStartOfPart};

use crate::bit_vec::{BitVec, block_or_zero, clear_below, clear_from};
use crate::walk::Iter;
use crate::{BitBlock, BitSet};
use std::ops::Range;

impl<B: BitBlock> BitSet<B> {
    /// An iterator over the elements that are `from` or above, in ascending order. Constant time.
    ///
    /// ```
    /// let set = BitSet::from_bytes(alloc, &[0b0100_1010])?;
    /// assert!(set.iter_from(2).eq([4, 6]));
    /// ```
    #[inline]
    pub fn iter_from(&self, from: usize) -> Iter<'_, B>
        ensures left { result.left ≡ those_from (elements self.now.values) from }
        ensures start { IsAtStartFrom B.width self.now.values from result }
        ensures runs { YieldsInOrder (Advances B.width) (λ walk. walk.left) }
    {
        Iter::over_from(self.get_ref(), from)
    }

    /// A double-ended iterator over the elements of the range, in ascending order; there are none if the range is
    /// empty. Constant time.
    ///
    /// ```
    /// let set = BitSet::from_bytes(alloc, &[0b0100_1010])?;
    /// assert!(set.range(1..6).eq([1, 4]));
    /// assert!(set.range(2..8).rev().eq([6, 4]));
    /// ```
    #[inline]
    pub fn range(&self, range: Range<usize>) -> Iter<'_, B>
        ensures left { result.left ≡ those_in_range (elements self.now.values) range.start range.end }
        ensures members { (n : ℕ) → has result.left n
            ≡ (in_range range.start range.end n && has (elements self.now.values) n) }
        ensures start { IsAtStartOfPart B.width self.now.values range.start range.end result }
        ensures runs { YieldsInOrder (Advances B.width) (λ walk. walk.left) }
    {
        Iter::over_part(self.get_ref(), range.start, range.end)
    }
}

impl<'a, B: BitBlock> Iter<'a, B> {
    // The iterator over those of these places that are `from` or above.
    #[inline]
    pub(crate) fn over_from(bits: &'a BitVec<B>, from: usize) -> Self
        ensures { IsAtStartFrom B.width bits.now.values from result }
    {
        let blocks = bits.storage();
        let (first, block) = block_from(blocks, from);
        Iter {
            nonzero: bits.nonzero_past(first),
            block,
            index: first * B::bits(),
            back: B::zero(),
            back_index: blocks.len().saturating_sub(1) * B::bits(),
        }
    }

    // The iterator over those of these places that are at least `start` and below `end`.
    #[inline]
    pub(crate) fn over_part(bits: &'a BitVec<B>, start: usize, end: usize) -> Self
        ensures { IsAtStartOfPart B.width bits.now.values start end result }
    {
        let blocks = bits.storage();
        let (first, block) = block_from(blocks, start);
        let index = first * B::bits();
        let last = last_of_part::<B>(blocks, first, end);
        let back_index = last * B::bits();
        let (nonzero, back) = bits.nonzero_between(first, last, end.saturating_sub(back_index));
        Iter {
            nonzero,
            block: clear_from(block, end.saturating_sub(index)),
            index,
            back,
            back_index,
        }
    }
}

// The index of the block of `from`, or of the last one, and what that block has from there on.
#[inline(always)]
fn block_from<B: BitBlock>(blocks: &[B], from: usize) -> (usize, B)
    requires { All B.is_block blocks.now }
    ensures at { result.0 ≡ min (from / B.width) (length blocks.now - 1) }
    ensures of_block { B.is_block result.1 }
    ensures digits { (j : ℕ) → j < B.width → is_one (B.number result.1) j
        ≡ (nat_le (from - result.0 * B.width) j && is_one (get_or (map B.number blocks.now) result.0 0) j) }
{
    let first = (from / B::bits()).min(blocks.len().saturating_sub(1));
    let block = block_or_zero(blocks, first);
    (first, clear_below(block, from - first * B::bits()))
}

// The index of the block in which what is below `end` ends, from the one at `first` on, or of the last one.
#[inline]
fn last_of_part<B: BitBlock>(blocks: &[B], first: usize, end: usize) -> usize
    ensures { result ≡ min (max ((end - 1) / B.width) first) (length blocks.now - 1) }
{
    let last = end.saturating_sub(1) / B::bits();
    last.max(first).min(blocks.len().saturating_sub(1))
}
