// How many elements the merges of two sets have.
ghost use Rattle.std.specs.Prelude.{◌≡◌, length};
ghost use Rattle.set_algebra.specs.Sets.{difference, elements, intersection, merge_of_sets, symmetric_difference, union};

use crate::bit_vec::Merge;
use crate::{BitBlock, BitSet};

impl<B: BitBlock> BitSet<B> {
    // How many elements a merge of both sets has. It is inlined into its caller, which knows the merge.
    #[inline(always)]
    fn merged_count(&self, other: &Self, merge: Merge) -> usize
        ensures { result ≡ length (merge_of_sets merge (elements self.now.values) (elements other.now.values)) }
    {
        self.bits.count_merged(&other.bits, merge)
    }

    /// How many elements are in this set or in `other`: as many as [`BitSet::union`] yields. Adds up the ones of
    /// each pair of blocks, and past the shorter set those of the longer, as [`BitSet::count`] does. If a summary is stored,
    /// it skips as many blocks at once as a block has bits, if they are zero in both sets.
    ///
    /// ```
    /// // The sets are {1, 4} and {4, 5, 6}.
    /// assert_eq!(set.union_count(&other), 4);
    /// ```
    pub fn union_count(&self, other: &Self) -> usize
        ensures { result ≡ length (union (elements self.now.values) (elements other.now.values)) }
    {
        self.merged_count(other, Merge::Union)
    }

    /// How many elements are in both sets: as many as [`BitSet::intersection`] yields. Reads blocks as
    /// [`BitSet::union_count`] does, but none past the shorter set, and skips those that are zero in either set.
    ///
    /// ```
    /// // The sets are {1, 4} and {4, 5, 6}.
    /// assert_eq!(set.intersection_count(&other), 1);
    /// ```
    pub fn intersection_count(&self, other: &Self) -> usize
        ensures { result ≡ length (intersection (elements self.now.values) (elements other.now.values)) }
    {
        self.merged_count(other, Merge::Intersection)
    }

    /// How many elements are in this set and not in `other`: as many as [`BitSet::difference`] yields. Reads blocks
    /// as [`BitSet::union_count`] does, but none past this set, and skips those that are zero in it.
    ///
    /// ```
    /// // The sets are {1, 4} and {4, 5, 6}.
    /// assert_eq!(set.difference_count(&other), 1);
    /// ```
    pub fn difference_count(&self, other: &Self) -> usize
        ensures { result ≡ length (difference (elements self.now.values) (elements other.now.values)) }
    {
        self.merged_count(other, Merge::Difference)
    }

    /// How many elements are in exactly one of the two sets: as many as [`BitSet::symmetric_difference`] yields.
    /// Reads blocks as [`BitSet::union_count`] does.
    ///
    /// ```
    /// // The sets are {1, 4} and {4, 5, 6}.
    /// assert_eq!(set.symmetric_difference_count(&other), 3);
    /// ```
    pub fn symmetric_difference_count(&self, other: &Self) -> usize
        ensures { result
            ≡ length (symmetric_difference (elements self.now.values) (elements other.now.values)) }
    {
        self.merged_count(other, Merge::Symmetric)
    }
}
