// Calls that move elements from one set to another.
ghost use Rattle.std.specs.Prelude.{◌≡◌, ◌<◌, ◌≤◌, if◌then◌else◌, nat_lt, min, IfOk, OnOk, OnErr, IsOk, [], length};
ghost use Rattle.bit_blocks.specs.Bits.{blocks_for, capacity_of};
ghost use Rattle.set_algebra.specs.{Sets.{elements, those_below, those_from, union}, Members.{HasNone, IsUnion, KeepsBelow, KeepsFrom}};
ghost use Rattle.bit_set.specs.{Changes.{Change, Changes, outcome_of_result}, Sizes.{KeepsSize, Lengthens}};

use crate::{BitBlock, BitSet};
use std::alloc::{AllocError, Global};
use std::mem::replace;

impl<B: BitBlock> BitSet<B> {
    /// Moves the elements of `other` into the set. The length becomes the greater of the two; `other` becomes
    /// empty, and keeps its length and capacity. One pass over the blocks of the set, and one over those of
    /// `other`. Fails only if the length of `other` exceeds the capacity and memory runs out; elements, lengths and
    /// capacities of both are then unchanged.
    ///
    /// ```
    /// // The sets are {2, 6} and {1, 3, 6}.
    /// set.append(&mut other)?;
    /// assert!(set.iter().eq([1, 2, 3, 6]));
    /// assert!(other.is_empty());
    /// ```
    pub fn append(&mut self, other: &mut Self) -> Result<(), AllocError>
        ensures elements { OnOk result (elements self.new.values
            ≡ union (elements self.old.values) (elements other.old.values)) }
        ensures members { OnOk result (IsUnion (elements self.old.values) (elements other.old.values)
            (elements self.new.values)) }
        ensures emptied { OnOk result (elements other.new.values ≡ []) }
        ensures other_members { OnOk result (HasNone (elements other.new.values)) }
        ensures other_size { KeepsSize other.old other.new }
        ensures err_other { OnErr result (other.new ≡ other.old) }
        ensures grows { Lengthens (length other.old.values) result self.old self.new }
        ensures changes { Changes (Change.Append (elements other.old.values))
            self.old.values (outcome_of_result result) self.new.values }
    {
        self.union_with(other)?;
        other.make_empty();
        Ok(())
    }

    /// Splits the set at `at`: the elements below it stay, and the others are returned. The returned set has the
    /// old length, and the length of this one becomes `at`. Copies the blocks from that of `at` on, each once, and
    /// writes a zero for each before it; the capacity is that of these blocks.
    ///
    /// If `at` is at or past the length, nothing changes, and an empty set of length 0 is returned. If it is 0,
    /// everything is returned, including the capacity, and an empty set of length 0 stays. Both take constant time
    /// and allocate nothing. Between them it fails if memory runs out, and then changes nothing.
    ///
    /// ```
    /// // The set is {1, 2, 3, 6}.
    /// let part = set.split_off(alloc, 3)?;
    /// assert!(set.iter().eq([1, 2]));
    /// assert!(part.iter().eq([3, 6]));
    /// ```
    pub fn split_off(&mut self, alloc: Global, at: usize) -> Result<Self, AllocError>
        ensures elements { OnOk result (elements self.new.values ≡ those_below (elements self.old.values) at) }
        ensures members { OnOk result (KeepsBelow (elements self.old.values) (elements self.new.values) at) }
        ensures length { OnOk result (length self.new.values ≡ min (length self.old.values) at) }
        ensures part { IfOk result (λ part. elements part.values ≡ those_from (elements self.old.values) at) }
        ensures part_members { IfOk result (λ part. KeepsFrom (elements self.old.values) (elements part.values) at) }
        ensures part_length { IfOk result (λ part. length part.values
            ≡ (if nat_lt at (length self.old.values) then length self.old.values else 0)) }
        ensures whole { at ≡ 0 → IfOk result (λ part. part ≡ self.old) }
        ensures err { OnErr result (self.new ≡ self.old) }
        ensures inside { OnErr result ((0 < at) × (at < length self.old.values)) }
        ensures start { at ≡ 0 → IsOk result }
        ensures end { length self.old.values ≤ at → IsOk result }
        ensures capacity { 0 < at → self.new.capacity ≡ self.old.capacity }
        ensures given { at ≡ 0 → self.new.capacity ≡ 0 }
        ensures exact { 0 < at → at < length self.old.values
            → IfOk result (λ part. part.capacity ≡ capacity_of B.width (blocks_for B.width (length self.old.values))) }
        ensures nothing { 0 < at → length self.old.values ≤ at → IfOk result (λ part. part.capacity ≡ 0) }
        ensures changes { Changes (Change.SplitOff at) self.old.values (outcome_of_result result) self.new.values }
    {
        if at == 0 {
            return Ok(replace(self, Self::new_general(alloc)));
        }
        if at >= self.bits.len() {
            return Ok(Self::new_general(alloc));
        }
        let bits = self.bits.clone_tail(alloc, at)?;
        self.truncate(at);
        Ok(BitSet { bits })
    }
}
