// Calls that move each element by one distance, and the one that copies those of a range.
ghost use Rattle.std.specs.Prelude.{◌≡◌, ◌<◌, ◌≤◌, ◌↔◌, min, IfErr, IfOk, IsErrOf, IsOk, OnOk, length};
ghost use Rattle.bit_blocks.specs.Bits.{IsWithinCapacity};
ghost use Rattle.set_algebra.specs.{Moved.{IsLowered, IsRaised, KeepsRange, lowered, raised}, Ranges.{span_end, those_in_range}};
ghost use Rattle.bit_set.specs.Changes.{Change, Changes, Outcome.Done, outcome_of_shift};
ghost use Rattle.set_algebra.specs.Sets.{bound_of, elements};
ghost use Rattle.bit_set.specs.Sizes.{IsJustOf, KeepsSize, Lengthens};

use crate::{BitBlock, BitSet, SetError};
use std::alloc::{AllocError, Global};
use std::ops::Range;

impl<B: BitBlock> BitSet<B> {
    /// Moves each element up by `distance`: `n` becomes `n + distance`. The length becomes at least one more than
    /// the greatest of them. One pass over the blocks, each computed from two, besides a growth. Fails if an
    /// element would become `usize::MAX` or more, and if memory runs out in a growth past the capacity; elements,
    /// length and capacity are then unchanged.
    ///
    /// ```
    /// // The set is {1, 4}.
    /// set.shift_up(30)?;
    /// assert!(set.iter().eq([31, 34]));
    /// ```
    pub fn shift_up(&mut self, distance: usize) -> Result<(), SetError>
        ensures elements { OnOk result (elements self.new.values ≡ raised (elements self.old.values) distance) }
        ensures members { OnOk result (IsRaised (elements self.old.values) (elements self.new.values) distance) }
        ensures unfit { IsErrOf result SetError.Element
            ↔ (usize.MAX < bound_of (raised (elements self.old.values) distance)) }
        ensures never_long { IsErrOf result SetError.Length → ⊥ }
        ensures grows { Lengthens (bound_of (raised (elements self.old.values) distance)) result self.old self.new }
        ensures changes { Changes (Change.ShiftUp distance) self.old.values (outcome_of_shift result) self.new.values }
    {
        let end = self.end_of_raised(distance)?;
        self.lengthen(end)?;
        self.bits.shift_up(distance);
        Ok(())
    }

    // The length of a list that can hold the elements moved up by `distance`.
    fn end_of_raised(&self, distance: usize) -> Result<usize, SetError>
        ensures ok { IfOk result (λ end. (end ≡ bound_of (raised (elements self.now.values) distance))) }
        ensures err { IfErr result (λ fault. (fault ≡ SetError.Element)
            × (usize.MAX < bound_of (raised (elements self.now.values) distance))) }
        ensures fits { IsWithinCapacity self.now }
    {
        // Only for the proof: the call of `capacity` brings in its clause that it holds the list.
        prove!(self.bits.len() <= self.bits.capacity());
        let Some(last) = self.last() else {
            return Ok(0);
        };
        let top = last.saturating_add(distance);
        if top == usize::MAX {
            return Err(SetError::Element);
        }
        Ok(top + 1)
    }

    /// Moves each element down by `distance`: `n` becomes `n - distance`, and those below `distance` are removed.
    /// The length stays. One pass over the blocks, each computed from two.
    ///
    /// ```
    /// // The set is {1, 34}.
    /// set.shift_down(30);
    /// assert!(set.iter().eq([4]));
    /// ```
    pub fn shift_down(&mut self, distance: usize)
        ensures elements { elements self.new.values ≡ lowered (elements self.old.values) distance }
        ensures members { IsLowered (elements self.old.values) (elements self.new.values) distance }
        ensures size { KeepsSize self.old self.new }
        ensures changes { Changes (Change.ShiftDown distance) self.old.values Done self.new.values }
    {
        self.bits.shift_down(distance);
    }

    /// A new set of the elements of the range. Its length is the end of the range, or this set's length if that is
    /// less; if the range is empty or starts past the length, it is 0. Copies each block of the range once, and
    /// writes a zero for each before it, which it does not read; the capacity is that of these blocks. Fails only if memory
    /// runs out, and never if the range is empty or past the length.
    ///
    /// ```
    /// // The set is {1, 4, 34}.
    /// let part = set.copy_range(alloc, 2..34)?;
    /// assert!(part.iter().eq([4]));
    /// ```
    pub fn copy_range(&self, alloc: Global, range: Range<usize>) -> Result<Self, AllocError>
        ensures elements { IfOk result (λ part. elements part.values
            ≡ those_in_range (elements self.now.values) range.start range.end) }
        ensures members { IfOk result (λ part. KeepsRange (elements self.now.values) (elements part.values)
            range.start range.end) }
        ensures size { IfOk result (λ part. IsJustOf B.width
            (span_end range.start (min range.end (length self.now.values))) part) }
        ensures empty { min range.end (length self.now.values) ≤ range.start → IsOk result }
    {
        let end = range.end.min(self.bits.len());
        if range.start >= end {
            return Ok(Self::new_general(alloc));
        }
        let bits = self.bits.clone_range(alloc, range.start..end)?;
        Ok(BitSet { bits })
    }
}
