// Calls that merge a set in place with another.
ghost use Rattle.std.specs.Prelude.{◌≡◌, ◌-◌, ◌++◌, OnOk, length, replicate, false};
ghost use Rattle.bit_words.specs.Growth.{Grows};
ghost use Rattle.set_algebra.specs.Members.{IsDifference, IsIntersection, IsMerged, IsSymmetricDifference, IsUnion};
ghost use Rattle.set_algebra.specs.Sets.{elements, union, intersection, difference, symmetric_difference, merge_of_sets};
ghost use Rattle.bit_set.specs.{Changes.{Change, Changes, outcome_of_result}, Sizes.Lengthens};

use crate::bit_vec::Merge;
use crate::{BitBlock, BitSet};
use std::alloc::AllocError;

impl<B: BitBlock> BitSet<B> {
    // Makes the list at least `len` long, extending it by false.
    #[inline]
    pub(crate) fn lengthen(&mut self, len: usize) -> Result<(), AllocError>
        ensures ok { OnOk result (self.new.values ≡ self.old.values ++ replicate (len - length self.old.values) false) }
        ensures grows { Grows len result self.old self.new }
    {
        let old = self.bits.len();
        if len > old {
            self.bits.grow(len - old, false)?;
        }
        Ok(())
    }

    // Each value becomes its merge with that of `other`. The shorter list is extended by false, so that the longer
    // length stays. It is inlined into its caller, which knows the merge.
    #[inline(always)]
    fn merge_with(&mut self, other: &Self, merge: Merge) -> Result<(), AllocError>
        ensures elements { OnOk result (elements self.new.values
            ≡ merge_of_sets merge (elements self.old.values) (elements other.now.values)) }
        ensures members { OnOk result (IsMerged merge (elements self.old.values) (elements other.now.values)
            (elements self.new.values)) }
        ensures grows { Lengthens (length other.now.values) result self.old self.new }
    {
        self.lengthen(other.bits.len())?;
        self.bits.merge(&other.bits, merge);
        Ok(())
    }

    /// Inserts the elements of `other`. The length becomes the greater of the two. One pass over the blocks. Fails
    /// only if the length of `other` exceeds the capacity and memory runs out; elements, length and capacity are
    /// then unchanged.
    pub fn union_with(&mut self, other: &Self) -> Result<(), AllocError>
        ensures elements { OnOk result (elements self.new.values
            ≡ union (elements self.old.values) (elements other.now.values)) }
        ensures members { OnOk result (IsUnion (elements self.old.values) (elements other.now.values)
            (elements self.new.values)) }
        ensures grows { Lengthens (length other.now.values) result self.old self.new }
        ensures changes { Changes (Change.UnionWith (elements other.now.values))
            self.old.values (outcome_of_result result) self.new.values }
    {
        self.merge_with(other, Merge::Union)
    }

    /// Keeps the elements that `other` has too, and removes the others. The length becomes the greater of the two.
    /// One pass over the blocks. Fails only if the length of `other` exceeds the capacity and memory runs out;
    /// elements, length and capacity are then unchanged.
    #[inline]
    pub fn intersect_with(&mut self, other: &Self) -> Result<(), AllocError>
        ensures elements { OnOk result (elements self.new.values
            ≡ intersection (elements self.old.values) (elements other.now.values)) }
        ensures members { OnOk result (IsIntersection (elements self.old.values) (elements other.now.values)
            (elements self.new.values)) }
        ensures grows { Lengthens (length other.now.values) result self.old self.new }
        ensures changes { Changes (Change.IntersectWith (elements other.now.values))
            self.old.values (outcome_of_result result) self.new.values }
    {
        self.merge_with(other, Merge::Intersection)
    }

    /// Removes the elements of `other`. The length becomes the greater of the two. One pass over the blocks. Fails
    /// only if the length of `other` exceeds the capacity and memory runs out; elements, length and capacity are
    /// then unchanged.
    pub fn difference_with(&mut self, other: &Self) -> Result<(), AllocError>
        ensures elements { OnOk result (elements self.new.values
            ≡ difference (elements self.old.values) (elements other.now.values)) }
        ensures members { OnOk result (IsDifference (elements self.old.values) (elements other.now.values)
            (elements self.new.values)) }
        ensures grows { Lengthens (length other.now.values) result self.old self.new }
        ensures changes { Changes (Change.DifferenceWith (elements other.now.values))
            self.old.values (outcome_of_result result) self.new.values }
    {
        self.merge_with(other, Merge::Difference)
    }

    /// Removes the elements that `other` has too, and inserts its others: what is in exactly one of the two
    /// remains. The length becomes the greater of the two. One pass over the blocks. Fails only if the length of
    /// `other` exceeds the capacity and memory runs out; elements, length and capacity are then unchanged.
    pub fn symmetric_difference_with(&mut self, other: &Self) -> Result<(), AllocError>
        ensures elements { OnOk result (elements self.new.values
            ≡ symmetric_difference (elements self.old.values) (elements other.now.values)) }
        ensures members { OnOk result (IsSymmetricDifference (elements self.old.values) (elements other.now.values)
            (elements self.new.values)) }
        ensures grows { Lengthens (length other.now.values) result self.old self.new }
        ensures changes { Changes (Change.SymmetricDifferenceWith (elements other.now.values))
            self.old.values (outcome_of_result result) self.new.values }
    {
        self.merge_with(other, Merge::Symmetric)
    }
}
