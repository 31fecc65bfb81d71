// Calls on the values in a range of indexes.
ghost use Rattle.std.specs.{Prelude.{◌≡◌, ◌≢◌, ℕ, ◌<◌, ◌≤◌, ◌↔◌, IsTrue, Some, false, length, not, slice_get, true}, List.count_by};
ghost use Rattle.bit_blocks.specs.Ranges.{changed_in_range, values_in_range};

use crate::bit_vec::BitVec;
use crate::summary::range_queries::{ones_in_range, range_is_zero};
use crate::summary::spans::{fill_span, negate_span};
use bit_blocks::block::BitBlock;
use bit_blocks::block::operation::{Difference, Union};
use bit_blocks::packed::span_queries::span_merges_to_false;
use std::ops::Range;

impl<B: BitBlock> BitVec<B> {
    /// Sets each value in the range to `bit`; does nothing if the range is empty. Writes each block of the range
    /// once, those between the first and the last as a fill; if `bit` is false and there are many blocks, it may
    /// skip those that are zero.
    ///
    /// ```
    /// // Of ten values all are false.
    /// bits.fill_range(2..5, true);
    /// assert_eq!(bits.storage(), [0b11100].as_slice());
    /// ```
    pub fn fill_range(&mut self, range: Range<usize>, bit: bool)
        requires { range.start < range.end → range.end ≤ length self.old.values }
        ensures values { self.new.values ≡ changed_in_range (λ _. bit) range.start range.end self.old.values }
        ensures capacity { self.new.capacity ≡ self.old.capacity }
    {
        if range.start >= range.end {
            return;
        }
        if bit {
            self.search_start = 0;
            fill_span::<B, Union>(&mut self.blocks, &mut self.summary, range.start, range.end);
        } else {
            fill_span::<B, Difference>(&mut self.blocks, &mut self.summary, range.start, range.end);
        }
    }

    /// Negates each value in the range; none if the range is empty. Writes each block of the range once.
    pub fn negate_range(&mut self, range: Range<usize>)
        requires { range.start < range.end → range.end ≤ length self.old.values }
        ensures values { self.new.values ≡ changed_in_range not range.start range.end self.old.values }
        ensures capacity { self.new.capacity ≡ self.old.capacity }
    {
        if range.start < range.end {
            self.search_start = 0;
            negate_span(&mut self.blocks, &mut self.summary, range.start, range.end);
        }
    }

    /// How many values in the range are true; past the list there are none. Reads each block of the range at most
    /// once, and no other; in a long range it skips zero blocks by the summary.
    pub fn count_ones_in_range(&self, range: Range<usize>) -> usize
        ensures { result ≡ count_by (λ value. value) (values_in_range range.start range.end self.now.values) }
    {
        let end = range.end.min(self.len);
        if range.start >= end {
            return 0;
        }
        ones_in_range(&self.blocks, &self.summary, range.start, end)
    }

    /// Whether each index in the range has a true value: true if the range is empty, and false if it extends past
    /// the list. Reads blocks of the range up to the first that has a false value in it.
    pub fn all_in_range(&self, range: Range<usize>) -> bool
        ensures { IsTrue result
            ↔ ((i : ℕ) → range.start ≤ i → i < range.end → slice_get self.now.values i ≡ Some true) }
    {
        if range.start >= range.end {
            return true;
        }
        if range.end > self.len {
            return false;
        }
        span_merges_to_false::<B, Difference>(&self.blocks, range.start, range.end)
    }

    /// Whether any index in the range has a true value. Reads blocks of the range up to the first that has one in
    /// it; in a long range it skips zero blocks by the summary.
    pub fn any_in_range(&self, range: Range<usize>) -> bool
        ensures { (result ≡ false)
            ↔ ((i : ℕ) → range.start ≤ i → i < range.end → slice_get self.now.values i ≢ Some true) }
    {
        let end = range.end.min(self.len);
        if range.start >= end {
            return false;
        }
        !range_is_zero(&self.blocks, &self.summary, range.start, end)
    }
}
