// Calls that merge a set in place with others, and return whether that changed it. They write no block before the
// first that changes.
ghost use Rattle.std.specs.Prelude.{◌≡◌, ◌+◌, ◌≤◌, not, if◌then◌else◌, IfOk, OnOk, length};
ghost use Rattle.set_algebra.specs.Members.{IsCounted, IsDifference, IsIntersection, IsMerged, IsSymmetricDifference, IsUnion, IsUnionWithDifference};
ghost use Rattle.set_algebra.specs.Sets.{elements, union, intersection, difference, symmetric_difference, merge_of_sets, is_subset};
ghost use Rattle.bit_set.specs.{Changes.{Change, Changes, outcome_of_flag}, Effects.TellsChange, Sizes.Lengthens};

use crate::bit_vec::Merge;
use crate::{BitBlock, BitSet};
use std::alloc::AllocError;

impl<B: BitBlock> BitSet<B> {
    // Each value becomes its merge with that of `other`. Returns whether that changed the set. It is inlined into
    // its caller, which knows the merge.
    #[inline(always)]
    fn merge_changes(&mut self, other: &Self, merge: Merge) -> Result<bool, AllocError>
        ensures elements { OnOk result (elements self.new.values
            ≡ merge_of_sets merge (elements self.old.values) (elements other.now.values)) }
        ensures members { OnOk result (IsMerged merge (elements self.old.values) (elements other.now.values)
            (elements self.new.values)) }
        ensures changed { IfOk result (λ changed. TellsChange changed (elements self.old.values)
            (elements self.new.values)) }
        ensures counted { OnOk result (IsCounted self.new.values) }
        ensures grows { Lengthens (length other.now.values) result self.old self.new }
        ensures changes { Changes (Change.MergeChanges merge (elements other.now.values))
            self.old.values (outcome_of_flag result) self.new.values }
    {
        self.lengthen(other.bits.len())?;
        let changed = self.bits.merge_changes(&other.bits, merge);
        prove!(self.bits.len() <= usize::MAX);
        Ok(changed)
    }

    /// Inserts the elements of `other`, as [`BitSet::union_with`] does, and returns whether any of them was absent.
    /// The length becomes the greater of the two. One pass over the blocks. Fails only if the length of `other`
    /// exceeds the capacity and memory runs out; elements, length and capacity are then unchanged.
    ///
    /// ```
    /// assert!(set.union_changes(&other)?);
    /// assert!(!set.union_changes(&other)?);
    /// ```
    pub fn union_changes(&mut self, other: &Self) -> Result<bool, AllocError>
        ensures elements { OnOk result (elements self.new.values
            ≡ union (elements self.old.values) (elements other.now.values)) }
        ensures members { OnOk result (IsUnion (elements self.old.values) (elements other.now.values)
            (elements self.new.values)) }
        ensures changed { IfOk result (λ changed. TellsChange changed (elements self.old.values)
            (elements self.new.values)) }
        ensures were_in { IfOk result (λ changed. changed
            ≡ not (is_subset (elements other.now.values) (elements self.old.values))) }
        ensures count { IfOk result (λ changed. length (elements self.old.values) + (if changed then 1 else 0)
            ≤ length (elements self.new.values)) }
        ensures counted { OnOk result (IsCounted self.new.values) }
        ensures grows { Lengthens (length other.now.values) result self.old self.new }
        ensures changes { Changes (Change.MergeChanges Merge.Union (elements other.now.values))
            self.old.values (outcome_of_flag result) self.new.values }
    {
        self.merge_changes(other, Merge::Union)
    }

    /// Keeps the elements that `other` has too, as [`BitSet::intersect_with`] does, and returns whether it removed
    /// any. The length becomes the greater of the two. One pass over the blocks. Fails only if the length of
    /// `other` exceeds the capacity and memory runs out; elements, length and capacity are then unchanged.
    pub fn intersection_changes(&mut self, other: &Self) -> Result<bool, AllocError>
        ensures elements { OnOk result (elements self.new.values
            ≡ intersection (elements self.old.values) (elements other.now.values)) }
        ensures members { OnOk result (IsIntersection (elements self.old.values) (elements other.now.values)
            (elements self.new.values)) }
        ensures changed { IfOk result (λ changed. TellsChange changed (elements self.old.values)
            (elements self.new.values)) }
        ensures count { IfOk result (λ changed. length (elements self.new.values) + (if changed then 1 else 0)
            ≤ length (elements self.old.values)) }
        ensures grows { Lengthens (length other.now.values) result self.old self.new }
        ensures changes { Changes (Change.MergeChanges Merge.Intersection (elements other.now.values))
            self.old.values (outcome_of_flag result) self.new.values }
    {
        self.merge_changes(other, Merge::Intersection)
    }

    /// Removes the elements of `other`, as [`BitSet::difference_with`] does, and returns whether any of them was
    /// present. The length becomes the greater of the two. One pass over the blocks. Fails only if the length of
    /// `other` exceeds the capacity and memory runs out; elements, length and capacity are then unchanged.
    pub fn difference_changes(&mut self, other: &Self) -> Result<bool, AllocError>
        ensures elements { OnOk result (elements self.new.values
            ≡ difference (elements self.old.values) (elements other.now.values)) }
        ensures members { OnOk result (IsDifference (elements self.old.values) (elements other.now.values)
            (elements self.new.values)) }
        ensures changed { IfOk result (λ changed. TellsChange changed (elements self.old.values)
            (elements self.new.values)) }
        ensures count { IfOk result (λ changed. length (elements self.new.values) + (if changed then 1 else 0)
            ≤ length (elements self.old.values)) }
        ensures grows { Lengthens (length other.now.values) result self.old self.new }
        ensures changes { Changes (Change.MergeChanges Merge.Difference (elements other.now.values))
            self.old.values (outcome_of_flag result) self.new.values }
    {
        self.merge_changes(other, Merge::Difference)
    }

    /// Removes the elements that `other` has too, and inserts its others, as [`BitSet::symmetric_difference_with`]
    /// does. Returns whether that changed the set, which is true unless `other` is empty. The length becomes the
    /// greater of the two. One pass over the blocks. Fails only if the length of `other` exceeds the capacity and
    /// memory runs out; elements, length and capacity are then unchanged.
    pub fn symmetric_difference_changes(&mut self, other: &Self) -> Result<bool, AllocError>
        ensures elements { OnOk result (elements self.new.values
            ≡ symmetric_difference (elements self.old.values) (elements other.now.values)) }
        ensures members { OnOk result (IsSymmetricDifference (elements self.old.values) (elements other.now.values)
            (elements self.new.values)) }
        ensures changed { IfOk result (λ changed. TellsChange changed (elements self.old.values)
            (elements self.new.values)) }
        ensures grows { Lengthens (length other.now.values) result self.old self.new }
        ensures changes { Changes (Change.MergeChanges Merge.Symmetric (elements other.now.values))
            self.old.values (outcome_of_flag result) self.new.values }
    {
        self.merge_changes(other, Merge::Symmetric)
    }

    /// Inserts the elements of `other` that are not in `except`, and returns whether any of them was absent. The
    /// length becomes the greater of the set's own and that of `other`. One pass over the blocks of all three sets;
    /// allocates nothing within the capacity. Fails only if the length of `other` exceeds the capacity and memory
    /// runs out; elements, length and capacity are then unchanged.
    ///
    /// ```
    /// // What flows into a block of code from one after it, in an analysis that goes backward.
    /// let grew = live.union_with_difference(&live_after, &assigned)?;
    /// ```
    pub fn union_with_difference(&mut self, other: &Self, except: &Self) -> Result<bool, AllocError>
        ensures elements { OnOk result (elements self.new.values ≡ union (elements self.old.values)
            (difference (elements other.now.values) (elements except.now.values))) }
        ensures members { OnOk result (IsUnionWithDifference (elements self.old.values) (elements other.now.values)
            (elements except.now.values) (elements self.new.values)) }
        ensures changed { IfOk result (λ changed. TellsChange changed (elements self.old.values)
            (elements self.new.values)) }
        ensures count { IfOk result (λ changed. length (elements self.old.values) + (if changed then 1 else 0)
            ≤ length (elements self.new.values)) }
        ensures counted { OnOk result (IsCounted self.new.values) }
        ensures grows { Lengthens (length other.now.values) result self.old self.new }
        ensures changes { Changes (Change.MergeChanges Merge.Union
            (difference (elements other.now.values) (elements except.now.values)))
            self.old.values (outcome_of_flag result) self.new.values }
    {
        self.lengthen(other.bits.len())?;
        let changed = self.bits.unite_difference(&other.bits, &except.bits);
        prove!(self.bits.len() <= usize::MAX);
        Ok(changed)
    }
}
