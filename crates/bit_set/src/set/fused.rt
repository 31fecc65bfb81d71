// Calls that merge a set with two others, and return whether that changed it. They write no block before the first
// that changes.
ghost use Rattle.std.specs.Prelude.{◌≡◌, ◌+◌, ◌≤◌, not, if◌then◌else◌, IfOk, OnOk, length};
ghost use Rattle.set_algebra.specs.Members.{IsCounted, IsDifference, IsUnionWithIntersection};
ghost use Rattle.set_algebra.specs.Sets.{elements, union, intersection, difference, is_subset};
ghost use Rattle.bit_set.specs.{Changes.{Change, Changes, outcome_of_flag}, Effects.TellsChange, Sizes.Lengthens};

use crate::bit_vec::Merge;
use crate::{BitBlock, BitSet};
use std::alloc::AllocError;

impl<B: BitBlock> BitSet<B> {
    /// Inserts the elements that `other` and `also` have in common, and returns whether any of them was absent. The
    /// length becomes the greater of the set's own and that of `other`. One pass over the blocks of all three sets;
    /// allocates nothing within the capacity. Fails only if the length of `other` exceeds the capacity and memory
    /// runs out; elements, length and capacity are then unchanged.
    ///
    /// ```
    /// // Of what is wanted, what is at hand is found too.
    /// let grew = found.union_with_intersection(&wanted, &at_hand)?;
    /// ```
    pub fn union_with_intersection(&mut self, other: &Self, also: &Self) -> Result<bool, AllocError>
        ensures elements { OnOk result (elements self.new.values ≡ union (elements self.old.values)
            (intersection (elements other.now.values) (elements also.now.values))) }
        ensures members { OnOk result (IsUnionWithIntersection (elements self.old.values) (elements other.now.values)
            (elements also.now.values) (elements self.new.values)) }
        ensures changed { IfOk result (λ changed. TellsChange changed (elements self.old.values)
            (elements self.new.values)) }
        ensures were_in { IfOk result (λ changed. changed
            ≡ not (is_subset (intersection (elements other.now.values) (elements also.now.values))
            (elements self.old.values))) }
        ensures count { IfOk result (λ changed. length (elements self.old.values) + (if changed then 1 else 0)
            ≤ length (elements self.new.values)) }
        ensures counted { OnOk result (IsCounted self.new.values) }
        ensures grows { Lengthens (length other.now.values) result self.old self.new }
        ensures changes { Changes (Change.MergeChanges Merge.Union
            (intersection (elements other.now.values) (elements also.now.values)))
            self.old.values (outcome_of_flag result) self.new.values }
    {
        self.lengthen(other.bits.len())?;
        let changed = self.bits.unite_intersection(&other.bits, &also.bits);
        prove!(self.bits.len() <= usize::MAX);
        Ok(changed)
    }

    /// Sets the elements to those of `other` that are not in `except`, and returns whether that changed them. The
    /// length becomes the greater of the set's own and that of `other`. Takes time for the blocks of all three
    /// sets, or only for those that have elements, if these are few among many. Allocates nothing within the
    /// capacity. Fails only if the length of `other` exceeds the capacity and memory runs out; elements, length and
    /// capacity are then unchanged.
    ///
    /// ```
    /// // What is asked for and was not given yet.
    /// let differs = left.copy_difference(&asked, &given)?;
    /// ```
    pub fn copy_difference(&mut self, other: &Self, except: &Self) -> Result<bool, AllocError>
        ensures elements { OnOk result (elements self.new.values
            ≡ difference (elements other.now.values) (elements except.now.values)) }
        ensures members { OnOk result (IsDifference (elements other.now.values) (elements except.now.values)
            (elements self.new.values)) }
        ensures changed { IfOk result (λ changed. TellsChange changed (elements self.old.values)
            (elements self.new.values)) }
        ensures counted { OnOk result (IsCounted self.new.values) }
        ensures grows { Lengthens (length other.now.values) result self.old self.new }
        ensures changes { Changes (Change.CopyDifference (elements other.now.values) (elements except.now.values))
            self.old.values (outcome_of_flag result) self.new.values }
    {
        self.lengthen(other.bits.len())?;
        let changed = self.bits.become_difference(&other.bits, &except.bits);
        prove!(self.bits.len() <= usize::MAX);
        Ok(changed)
    }
}
