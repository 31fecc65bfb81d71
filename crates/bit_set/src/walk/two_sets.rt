// The iterator over a merge of two sets, with a type for each operation.
ghost use Rattle.std.specs.{Prelude.{◌≡◌, IfSome, length}, Iterator.{UpTo, item_count, Runs.YieldsInOrder, SizeHint.IsWithinCount}};
ghost use Rattle.set_algebra.specs.{Members.{IsDifference, IsMerged, IsSymmetricDifference, IsUnion}, Sets.{elements, merge_of_sets, union, difference, symmetric_difference}};
ghost use Rattle.bit_set.specs.Walk.{AdvancesByEach, GoesOn, StartsOverTwo, bound_on_rest};

use super::merged_blocks::Pairs;
use crate::bit_vec::operation::{self, Operation};
use crate::bit_vec::take_lowest_one;
use crate::{BitBlock, BitSet};
use std::marker::Model;

/// The result of an operation on two sets, in ascending order, each element once. Pulls each block of both sets
/// once.
#[derive(Drop)]
pub struct TwoSets<'a, B: BitBlock, O: Operation> {
    source: Pairs<'a, B, O>,
    // What is left of the block in hand.
    block: B,
    // The index of its lowest bit.
    index: usize,
    // Whether blocks are taken to have few ones, as the first one does. It changes no result.
    sparse: bool,
}

/// What is in at least one of two sets, in ascending order, each once. Pulls each block of both sets once.
pub type Union<'a, B> = TwoSets<'a, B, operation::Union>;

/// What only the first of two sets has, in ascending order, each once. Pulls each block of both sets once.
pub type Difference<'a, B> = TwoSets<'a, B, operation::Difference>;

/// What is in exactly one of two sets, in ascending order, each once. Pulls each block of both sets once.
pub type SymmetricDifference<'a, B> = TwoSets<'a, B, operation::Symmetric>;

impl<'a, B: BitBlock, O: Operation> Model for TwoSets<'a, B, O> {
    ghost use Rattle.bit_set.specs.{Walk.TwoSetWalk, Indexes.{indexes, IsWalk}};

    ghost Value = { TwoSetWalk };

    ghost view = { λ it. record {
      left = indexes B.width it.index (B.number it.block) it.source.values;
      pulls = it.source.pulls;
      index = it.index;
      blocks = it.source.blocks;
    } };

    ghost invariant = { λ it. IsWalk (B.is_block it.block) B.width it.index (B.number it.block) it.source };
}

impl<'a, B: BitBlock, O: Operation> TwoSets<'a, B, O> {
    // The iterator over a merge of two sets.
    #[inline]
    pub(crate) fn over(first: &'a BitSet<B>, second: &'a BitSet<B>) -> Self
        ensures left { result.left ≡ merge_of_sets O.merge (elements first.now.values) (elements second.now.values) }
        ensures members { IsMerged O.merge (elements first.now.values) (elements second.now.values) result.left }
        ensures start { StartsOverTwo B.width first.now.values second.now.values result }
    {
        let mut source = Pairs::over(first.get_ref(), second.get_ref());
        let pulled = source.pull_with_kind();
        let block = pulled.0.unwrap_or(B::zero());
        TwoSets {
            source,
            block,
            index: 0,
            sparse: pulled.1,
        }
    }

    // Advances to the next block, if the one in hand is used up and the source has a next one, without a branch.
    // How many ones a block has is random, so that a processor predicts the branch badly.
    #[inline(always)]
    fn advance_branchless(&mut self)
        ensures { GoesOn B.width self.old self.new }
    {
        let used_up = self.block == B::zero();
        if let Some(next) = self.source.pull_if(used_up) {
            self.block = if used_up { next } else { self.block };
            self.index += usize::from(used_up) * B::bits();
        }
    }

    /// How many elements are left. Adds up the ones of each remaining pair of blocks.
    pub fn count(self) -> usize
        ensures { result ≡ length self.entry.left }
    {
        self.block.count_ones() + self.source.count_ones()
    }

    /// Another iterator over what is left, whose count of pulls continues from this one's. Constant time.
    #[inline]
    pub fn clone(&self) -> Self
        ensures { result ≡ self.now }
    {
        TwoSets {
            source: self.source.clone(),
            block: self.block,
            index: self.index,
            sparse: self.sparse,
        }
    }
}

impl<'a, B: BitBlock, O: Operation> Iterator for TwoSets<'a, B, O> {
    type Item = usize;

    ghost next_gives = { AdvancesByEach B.width };

    ghost remaining = { item_count (λ walk. walk.left) };

    /// The least element that is left, and `None` for good once there is none. Pulls each block that it passes
    /// once, in both sets; constant time within a block.
    #[inline]
    fn next(&mut self) -> Option<usize> {
        if self.sparse {
            self.advance_branchless();
        }
        while self.block == B::zero() {
            // At the end `index` stays with the last block.
            self.block = self.source.pull_with_kind().0?;
            self.index += B::bits();
        }
        // `index` is a multiple of the width, so this adds as an or does if the width is a power of two.
        Some(self.index + take_lowest_one(&mut self.block))
    }

    /// From 0 up to the number of bits of the block in hand and of the blocks after it, as for
    /// [`Iter`](crate::Iter): those of a whole block if both sets have length 0. Constant time.
    #[inline]
    fn size_hint(&self) -> (usize, Option<usize>)
        ensures exact { result ≡ (0, bound_on_rest B.width self.now.blocks) }
        ensures lower { IsWithinCount result.0 (item_count (λ walk. walk.left) self.now) }
        ensures upper { IfSome result.1 (UpTo (item_count (λ walk. walk.left) self.now)) }
    {
        let blocks = 1 + self.source.blocks_left();
        (0, blocks.checked_mul(B::bits()))
    }
}

impl<B: BitBlock> BitSet<B> {
    /// An iterator over what is in this set or in the other one, in ascending order. Constant time.
    #[inline]
    pub fn union<'a>(&'a self, other: &'a Self) -> Union<'a, B>
        ensures left { result.left ≡ union (elements self.now.values) (elements other.now.values) }
        ensures members { IsUnion (elements self.now.values) (elements other.now.values) result.left }
        ensures start { StartsOverTwo B.width self.now.values other.now.values result }
        ensures runs { YieldsInOrder (AdvancesByEach B.width) (λ walk. walk.left) }
    {
        TwoSets::over(self, other)
    }

    /// An iterator over what is in this set and not in the other one, in ascending order. Constant time.
    #[inline]
    pub fn difference<'a>(&'a self, other: &'a Self) -> Difference<'a, B>
        ensures left { result.left ≡ difference (elements self.now.values) (elements other.now.values) }
        ensures members { IsDifference (elements self.now.values) (elements other.now.values) result.left }
        ensures start { StartsOverTwo B.width self.now.values other.now.values result }
        ensures runs { YieldsInOrder (AdvancesByEach B.width) (λ walk. walk.left) }
    {
        TwoSets::over(self, other)
    }

    /// An iterator over what is in exactly one of this set and the other one, in ascending order. Constant time.
    ///
    /// ```
    /// // The sets are {1, 2} and {2, 3}.
    /// assert!(set.symmetric_difference(&other).eq([1, 3]));
    /// ```
    #[inline]
    pub fn symmetric_difference<'a>(&'a self, other: &'a Self) -> SymmetricDifference<'a, B>
        ensures left { result.left ≡ symmetric_difference (elements self.now.values) (elements other.now.values) }
        ensures members { IsSymmetricDifference (elements self.now.values) (elements other.now.values) result.left }
        ensures start { StartsOverTwo B.width self.now.values other.now.values result }
        ensures runs { YieldsInOrder (AdvancesByEach B.width) (λ walk. walk.left) }
    {
        TwoSets::over(self, other)
    }
}
