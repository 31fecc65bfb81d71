// Calls that say how the true values of two lists lie to each other.
ghost use Rattle.std.specs.{Prelude.{◌≡◌, ◌≢◌, ℕ, ◌+◌, ◌/◌, ◌≤◌, ◌↔◌, IsTrue, MatchOption, Some, get_or, length, min, slice_get, true}, List.count_by};
ghost use Rattle.bit_blocks.specs.{Bits.{IsFirstTrue, blocks_for, blocks_of}, Merges.merge_of, Mismatches.IsFirstBlockMismatch, declared.block.merge.Merge.Merge};

use crate::bit_vec::BitVec;
use crate::summary::comparing::{mismatch_by_summaries, same_by_summaries};
use crate::summary::counts::by_summaries::ones_of_merge;
use crate::summary::inclusion::{difference_by_summaries, intersection_by_summaries};
use bit_blocks::block::BitBlock;
use bit_blocks::block::merge::Merge;
use bit_blocks::packed::counted::{difference_is_zero_counted, intersection_is_zero_counted};
use bit_blocks::steps::Steps;

impl<B: BitBlock> BitVec<B> {
    /// Whether `other` is true wherever this list is, whichever of them is longer. One step for each of
    /// its own blocks that is read, once at most; stops at the block of the first true value that `other` lacks.
    /// [`is_subset`](Self::is_subset) counts no steps, and is faster.
    pub fn is_subset_of(&self, other: &Self, steps: &mut Steps) -> bool
        ensures subset { IsTrue result
            ↔ ((i : ℕ) → slice_get self.now.values i ≡ Some true → slice_get other.now.values i ≡ Some true) }
        ensures stops { (i : ℕ) → IsFirstTrue (merge_of Merge.Difference self.now.values other.now.values) i
            → steps.new ≡ steps.old + i / B.width + 1 }
        ensures fewest { steps.old ≤ steps.new }
        ensures most { steps.new ≤ steps.old + blocks_for B.width (length self.now.values) }
        ensures all { IsTrue result → steps.new ≡ steps.old + blocks_for B.width (length self.now.values) }
    {
        difference_is_zero_counted(&self.blocks, &other.blocks, steps)
    }

    /// Whether no index is true in both lists. One step for each block that is read, of those that both have; stops
    /// at the block of the first index that is true in both. [`is_disjoint`](Self::is_disjoint) counts no steps, and is
    /// faster.
    pub fn is_disjoint_from(&self, other: &Self, steps: &mut Steps) -> bool
        ensures disjoint { IsTrue result
            ↔ ((i : ℕ) → slice_get self.now.values i ≡ Some true → slice_get other.now.values i ≢ Some true) }
        ensures stops { (i : ℕ) → IsFirstTrue (merge_of Merge.Intersection self.now.values other.now.values) i
            → steps.new ≡ steps.old + i / B.width + 1 }
        ensures fewest { steps.old ≤ steps.new }
        ensures most { steps.new
            ≤ steps.old
            + min (blocks_for B.width (length self.now.values)) (blocks_for B.width (length other.now.values)) }
        ensures all { IsTrue result
            → steps.new
            ≡ steps.old
            + min (blocks_for B.width (length self.now.values)) (blocks_for B.width (length other.now.values)) }
    {
        intersection_is_zero_counted(&self.blocks, &other.blocks, steps)
    }

    /// Whether `other` is true wherever this list is, whichever of them is longer. Of many blocks it reads those alone that
    /// the summaries say may decide, up to the chunk that does. Each is read at most once: no clause says so, but the test
    /// `scaling` bounds the instructions.
    ///
    /// ```
    /// // Of three values that at 1 is true, and of 40 in `other` those at 1 and 30.
    /// assert!(bits.is_subset(&other));
    /// assert!(!other.is_subset(&bits));
    /// ```
    pub fn is_subset(&self, other: &Self) -> bool
        ensures { IsTrue result
            ↔ ((i : ℕ) → slice_get self.now.values i ≡ Some true → slice_get other.now.values i ≡ Some true) }
    {
        difference_by_summaries(&self.blocks, &self.summary, &other.blocks, &other.summary)
    }

    /// Whether no index is true in both lists. Of many blocks it reads those alone that the summaries say may decide, up to
    /// the chunk that does. Each is read at most once: no clause says so, but the test `scaling` bounds the instructions.
    ///
    /// ```
    /// // Of three values that at 1 is true, and of 40 in `other` that at 30.
    /// assert!(bits.is_disjoint(&other));
    /// ```
    pub fn is_disjoint(&self, other: &Self) -> bool
        ensures { IsTrue result
            ↔ ((i : ℕ) → slice_get self.now.values i ≡ Some true → slice_get other.now.values i ≢ Some true) }
    {
        intersection_by_summaries(&self.blocks, &self.summary, &other.blocks, &other.summary)
    }

    /// Whether the same indexes are true in both lists, whichever of them is longer. Of many blocks it compares the
    /// summaries, and those blocks alone that are not zero, of parts of the lists that grow from 16 blocks of the summary on.
    /// Stops at the first group of at most 32 blocks that differs, so that what it reads grows with the place of that.
    ///
    /// ```
    /// // Of three values that at 1 is true, and so it is of 40 in `other`.
    /// assert!(bits.has_same_blocks(&other));
    /// ```
    #[inline]
    pub fn has_same_blocks(&self, other: &Self) -> bool
        ensures { IsTrue result
            ↔ ((k : ℕ) → get_or (blocks_of B.width self.now.values) k 0 ≡ get_or (blocks_of B.width other.now.values) k 0) }
    {
        same_by_summaries(&self.blocks, &self.summary, &other.blocks, &other.summary)
    }

    /// The first block at which the lists differ, or `None`, where blocks past the end of a list are zero. Reads what
    /// [`has_same_blocks`](Self::has_same_blocks) does.
    ///
    /// ```
    /// // Of 100 values, over blocks of 32 bits, that at 70 is true, and none in `other`.
    /// assert_eq!(bits.first_mismatching_block(&other), Some(2));
    /// ```
    pub fn first_mismatching_block(&self, other: &Self) -> Option<usize>
        ensures { MatchOption result
            ((k : ℕ) → get_or (blocks_of B.width self.now.values) k 0 ≡ get_or (blocks_of B.width other.now.values) k 0)
            (IsFirstBlockMismatch (blocks_of B.width self.now.values) (blocks_of B.width other.now.values)) }
    {
        mismatch_by_summaries(&self.blocks, &self.summary, &other.blocks, &other.summary)
    }

    /// How many values of the merge of this list with `other` are true, where the shorter list goes on with false values.
    /// Takes no memory: the merge is not made. Of many blocks it reads the summaries, and the blocks that these say
    /// may have true values, once each; past the end of the shorter list nothing, if the merge keeps nothing of that.
    ///
    /// ```
    /// // Of ten values, those at 1 and 8 are true, and of 100 in `other` those at 1 and 70.
    /// assert_eq!(bits.count_merged(&other, Merge::Union), 3);
    /// assert_eq!(bits.count_merged(&other, Merge::Difference), 1);
    /// ```
    #[inline(always)]
    pub fn count_merged(&self, other: &Self, merge: Merge) -> usize
        ensures { result ≡ count_by (λ value. value) (merge_of merge self.now.values other.now.values) }
    {
        ones_of_merge(
            &self.blocks,
            &self.summary,
            &other.blocks,
            &other.summary,
            merge,
        )
    }
}
