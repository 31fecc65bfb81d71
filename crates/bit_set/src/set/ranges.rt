// Calls on the numbers of a range.
ghost use Rattle.std.specs.Prelude.{◌≡◌, ℕ, ◌+◌, ◌-◌, ◌<◌, ◌≤◌, ◌↔◌, ◌++◌, false, length, max, not, true, IfErr, IsTrue, OnOk};
ghost use Rattle.bit_words.specs.Growth.{Grows};
ghost use Rattle.set_algebra.specs.{Members.UpdatesRange, Ranges.{span, span_end, those_in_range}};
ghost use Rattle.bit_set.specs.{Changes.{Change, Changes, Outcome.Done, outcome_of_result}, Faults.IsInsertFault};
ghost use Rattle.set_algebra.specs.Sets.{elements, has, is_disjoint, is_subset, symmetric_difference, those_below, those_from, union};
ghost use Rattle.bit_set.specs.Sizes.{KeepsSize, Lengthens};

use crate::{BitBlock, BitSet, SetError};
use std::ops::Range;

impl<B: BitBlock> BitSet<B> {
    // Makes the list at least as long as the end of the range; does nothing if that is empty.
    #[inline]
    fn lengthen_for(&mut self, range: &Range<usize>) -> Result<(), SetError>
        ensures same { OnOk result (elements self.new.values ≡ elements self.old.values) }
        ensures within { OnOk result (range.now.start < range.now.end → range.now.end ≤ length self.new.values) }
        ensures fails { IfErr result (λ fault. IsInsertFault fault (range.now.end - 1) self.old.capacity) }
        ensures grows { Lengthens (span_end range.now.start range.now.end) result self.old self.new }
    {
        let end = if range.start < range.end {
            range.end
        } else {
            0
        };
        self.lengthen(end)?;
        Ok(())
    }

    // Inserts the numbers of a range that ends past the list. Each new block is written once: the memory is
    // reserved before the list changes, so neither growth fails.
    #[inline(never)]
    fn insert_past(&mut self, range: Range<usize>) -> Result<(), SetError>
        requires some { range.start < range.end }
        requires past { length self.old.values < range.end }
        ensures members { OnOk result (UpdatesRange (λ _. true) (elements self.old.values) (elements self.new.values)
            range.start range.end) }
        ensures length { OnOk result (length self.new.values ≡ range.end) }
        ensures fails { IfErr result (λ fault. IsInsertFault fault (range.end - 1) self.old.capacity) }
        ensures grows { Grows range.end result self.old self.new }
    {
        let len = self.bits.len();
        self.bits.reserve(range.end - len)?;
        if range.start > len {
            self.bits.grow(range.start - len, false).unwrap();
        } else {
            self.bits.fill_range(range.start..len, true);
        }
        let start = self.bits.len();
        self.bits.grow(range.end - start, true).unwrap();
        Ok(())
    }

    /// Inserts each number of the range. The length becomes at least `range.end`; nothing changes if the range is
    /// empty. Writes each block of the range once, and those before it that the growth adds. Fails only if
    /// `range.end` exceeds the capacity and memory runs out; elements, length and capacity are then unchanged. Each
    /// number of a range is below `usize::MAX`, so it never fails with `Element`.
    ///
    /// ```
    /// // The set is {1, 4}.
    /// set.insert_range(3..6)?;
    /// assert!(set.iter().eq([1, 3, 4, 5]));
    /// ```
    pub fn insert_range(&mut self, range: Range<usize>) -> Result<(), SetError>
        ensures elements { OnOk result (elements self.new.values
            ≡ union (elements self.old.values) (span range.start range.end)) }
        ensures members { OnOk result (UpdatesRange (λ _. true) (elements self.old.values) (elements self.new.values)
            range.start range.end) }
        ensures count { OnOk result (length (elements self.new.values)
            + length (those_in_range (elements self.old.values) range.start range.end)
            ≡ length (elements self.old.values) + (range.end - range.start)) }
        ensures fails { IfErr result (λ fault. IsInsertFault fault (range.end - 1) self.old.capacity) }
        ensures grows { Lengthens (span_end range.start range.end) result self.old self.new }
        ensures changes { Changes (Change.InsertRange range.start range.end)
            self.old.values (outcome_of_result result) self.new.values }
    {
        if range.end > self.bits.len() && range.start < range.end {
            return self.insert_past(range);
        }
        self.bits.fill_range(range, true);
        Ok(())
    }

    /// Removes each number of the range. The length stays. Writes each block of the range at most once: in long
    /// sets it skips those that are zero.
    pub fn remove_range(&mut self, range: Range<usize>)
        ensures elements { elements self.new.values ≡ those_below (elements self.old.values) range.start
            ++ those_from (elements self.old.values) (max range.start range.end) }
        ensures members { UpdatesRange (λ _. false) (elements self.old.values) (elements self.new.values)
            range.start range.end }
        ensures count { length (elements self.new.values)
            + length (those_in_range (elements self.old.values) range.start range.end)
            ≡ length (elements self.old.values) }
        ensures size { KeepsSize self.old self.new }
        ensures changes { Changes (Change.RemoveRange range.start range.end) self.old.values Done self.new.values }
    {
        let end = range.end.min(self.bits.len());
        self.bits.fill_range(range.start..end, false);
    }

    /// Removes each number of the range that is present, and inserts each other: with `0..n` it makes the
    /// complement below `n`. The length becomes at least `range.end`; nothing changes if the range is empty. Writes
    /// each block of the range once. Fails only if `range.end` exceeds the capacity and memory runs out; elements,
    /// length and capacity are then unchanged. It never fails with `Element`.
    ///
    /// ```
    /// // The set is {1, 4}.
    /// set.toggle_range(3..6)?;
    /// assert!(set.iter().eq([1, 3, 5]));
    /// ```
    pub fn toggle_range(&mut self, range: Range<usize>) -> Result<(), SetError>
        ensures elements { OnOk result (elements self.new.values
            ≡ symmetric_difference (elements self.old.values) (span range.start range.end)) }
        ensures members { OnOk result (UpdatesRange not (elements self.old.values) (elements self.new.values)
            range.start range.end) }
        ensures count { OnOk result (length (those_in_range (elements self.new.values) range.start range.end)
            + length (those_in_range (elements self.old.values) range.start range.end) ≡ range.end - range.start) }
        ensures fails { IfErr result (λ fault. IsInsertFault fault (range.end - 1) self.old.capacity) }
        ensures grows { Lengthens (span_end range.start range.end) result self.old self.new }
        ensures changes { Changes (Change.ToggleRange range.start range.end)
            self.old.values (outcome_of_result result) self.new.values }
    {
        self.lengthen_for(&range)?;
        self.bits.negate_range(range);
        Ok(())
    }

    /// Whether every number of the range is present; true if the range is empty. Reads blocks of the range up to
    /// the first that lacks one.
    pub fn contains_all_in_range(&self, range: Range<usize>) -> bool
        ensures returned { result ≡ is_subset (span range.start range.end) (elements self.now.values) }
        ensures members { IsTrue result ↔ ((n : ℕ) → range.start ≤ n → n < range.end
            → IsTrue (has (elements self.now.values) n)) }
    {
        self.bits.all_in_range(range)
    }

    /// Whether any number of the range is present. Reads blocks of the range up to the first that has one; in a
    /// long range it skips zero blocks by the summary.
    pub fn contains_any_in_range(&self, range: Range<usize>) -> bool
        ensures returned { result ≡ not (is_disjoint (span range.start range.end) (elements self.now.values)) }
        ensures members { (result ≡ false) ↔ ((n : ℕ) → range.start ≤ n → n < range.end
            → has (elements self.now.values) n ≡ false) }
    {
        self.bits.any_in_range(range)
    }

    /// How many numbers of the range are present: for `0..n`, the rank of `n`. Reads each block of the range at
    /// most once, and no other; in a long range it skips zero blocks by the summary.
    ///
    /// ```
    /// // The set is {1, 3, 4, 5}.
    /// assert_eq!(set.count_in_range(3..5), 2);
    /// ```
    pub fn count_in_range(&self, range: Range<usize>) -> usize
        ensures value { result ≡ length (those_in_range (elements self.now.values) range.start range.end) }
        ensures within { result ≤ range.end - range.start }
    {
        self.bits.count_ones_in_range(range)
    }
}
