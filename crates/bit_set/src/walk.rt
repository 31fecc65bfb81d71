//! The iterators over a set's elements, and over the results of operations on two sets.
ghost use Rattle.std.specs.{Prelude.{◌≡◌, IfSome, MatchOption, length}, Iterator.{UpTo, item_count, Runs.YieldsInOrder, SizeHint.IsWithinCount}};
ghost use Rattle.set_algebra.specs.{Choices.{IsFirstOf, IsLeast}, Members.HasNone, Sets.elements};
ghost use Rattle.bit_set.specs.Walk.{Advances, IsAtStart, bound_on_rest};

use crate::bit_vec::{BitVec, Nonzero, block_or_zero, take_lowest_one};
use crate::{BitBlock, BitSet};
use std::marker::Model;

mod back;
mod intersection;
mod merged_blocks;
pub(crate) mod missing;
mod parts;
pub(crate) mod runs;
mod skipping;
mod two_sets;

pub use intersection::Intersection;
pub use two_sets::{Difference, SymmetricDifference, TwoSets, Union};

/// The elements of a set in ascending order, each once, from both ends. Reads no zero block of the set except the
/// first; if the set has few blocks and stores no summary, it reads each.
#[derive(Drop)]
pub struct Iter<'a, B: BitBlock> {
    nonzero: Nonzero<'a, B>,
    // What is left of the block in hand at the front.
    block: B,
    // The index of its lowest bit.
    index: usize,
    // What is left of the block in hand at the back: zeros, before one is pulled there.
    back: B,
    // The index of its lowest bit, or of the last block's.
    back_index: usize,
}

impl<'a, B: BitBlock> Model for Iter<'a, B> {
    ghost use Rattle.bit_set.specs.{Walk.Walk, Indexes.{seen_of, IsSparseWalk}};

    ghost Value = { Walk };

    ghost view = { λ it. seen_of B.width B.number (record { block = it.block; index = it.index }) it.nonzero
        (record { block = it.back; index = it.back_index }) };

    ghost invariant = { λ it. IsSparseWalk B.width B.number B.is_block (record { block = it.block; index = it.index })
        it.nonzero (record { block = it.back; index = it.back_index }) };
}

impl<'a, B: BitBlock> Iter<'a, B> {
    // The iterator over all indexes at which a bit vector is true.
    #[inline]
    pub(crate) fn over(bits: &'a BitVec<B>) -> Self
        ensures { IsAtStart B.width bits.now.values result }
    {
        let blocks = bits.storage();
        Iter {
            nonzero: bits.nonzero_past_first(),
            block: block_or_zero(blocks, 0),
            index: 0,
            back: B::zero(),
            back_index: blocks.len().saturating_sub(1) * B::bits(),
        }
    }

    /// How many elements are left. Adds up the ones of the remaining blocks, and skips as many at once as a block
    /// has bits, if they are all zero.
    pub fn count(self) -> usize
        ensures { result ≡ length self.entry.left }
    {
        self.block.count_ones() + self.nonzero.count_ones() + self.back.count_ones()
    }

    /// The least element that is left: one call of [`next`](Iterator::next).
    #[inline]
    pub fn min(mut self) -> Option<usize>
        ensures first { IsFirstOf self.entry.left result }
        ensures members { MatchOption result (HasNone self.entry.left) (IsLeast self.entry.left) }
    {
        self.next()
    }

    /// Another iterator over what is left, whose count of pulls continues from this one's. Constant time.
    #[inline]
    pub fn clone(&self) -> Self
        ensures { result ≡ self.now }
    {
        Iter {
            nonzero: self.nonzero.clone(),
            block: self.block,
            index: self.index,
            back: self.back,
            back_index: self.back_index,
        }
    }
}

impl<'a, B: BitBlock> Iterator for Iter<'a, B> {
    type Item = usize;

    ghost next_gives = { Advances B.width };

    ghost remaining = { item_count (λ walk. walk.left) };

    /// The least element that is left, and `None` for good once there is none. Moves to the next nonzero block by
    /// the summary; constant time within a block.
    #[inline]
    fn next(&mut self) -> Option<usize> {
        let back_index = self.back_index;
        let (block, index, back) = (&mut self.block, &mut self.index, &mut self.back);
        if !self.nonzero.refill(block, index, back, back_index) {
            // Moves to the last block, however far it is: those before it are zeros, and `size_hint` counts the
            // blocks after `index`.
            self.index = back_index;
            return None;
        }
        Some(self.index + take_lowest_one(&mut self.block))
    }

    /// From 0 up to the number of bits of the blocks from the one in hand at the front to the one at the back, or
    /// without a bound if a `usize` is too small for that. There is always a block in hand, one of zeros at the end
    /// and for a set of length 0, so its bits count even then. Constant time.
    #[inline]
    fn size_hint(&self) -> (usize, Option<usize>)
        ensures exact { result ≡ (0, bound_on_rest B.width self.now.blocks) }
        ensures lower { IsWithinCount result.0 (item_count (λ walk. walk.left) self.now) }
        ensures upper { IfSome result.1 (UpTo (item_count (λ walk. walk.left) self.now)) }
    {
        (0, (self.back_index - self.index).checked_add(B::bits()))
    }
}

impl<B: BitBlock> BitSet<B> {
    /// An iterator over the elements, in ascending order. Constant time.
    // If it is not inlined, the iterator that it returns goes through memory.
    #[inline(always)]
    pub fn iter(&self) -> Iter<'_, B>
        ensures left { result.left ≡ elements self.now.values }
        ensures start { IsAtStart B.width self.now.values result }
        ensures runs { YieldsInOrder (Advances B.width) (λ walk. walk.left) }
    {
        Iter::over(self.get_ref())
    }
}

/// A reference to a set iterates over its elements.
impl<'a, B: BitBlock> IntoIterator for &'a BitSet<B> {
    type Item = usize;

    type IntoIter = Iter<'a, B>;

    ghost into_iter_gives = { λ set walk. IsAtStart B.width set.now.values walk
        × YieldsInOrder (Advances B.width) (λ walk. walk.left) };

    /// [`BitSet::iter`].
    #[inline]
    fn into_iter(self) -> Iter<'a, B> {
        self.iter()
    }
}
