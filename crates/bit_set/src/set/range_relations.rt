// Calls that relate the elements of two sets in a range.
ghost use Rattle.std.specs.Prelude.{◌≡◌, ℕ, ◌<◌, ◌≤◌, ◌↔◌, IsTrue};
ghost use Rattle.set_algebra.specs.Sets.{elements, has};

use crate::{BitBlock, BitSet};
use std::ops::Range;

impl<B: BitBlock> BitSet<B> {
    /// Whether the sets have the same elements in the range; true if it is empty. Walks over these up to the first
    /// that differs.
    ///
    /// ```
    /// // The sets are {1, 4} and {4, 6}.
    /// assert!(set.same_in_range(other, 2..6));
    /// ```
    pub fn same_in_range(&self, other: &Self, range: Range<usize>) -> bool
        ensures { IsTrue result ↔ ((n : ℕ) → range.start ≤ n → n < range.end
            → has (elements self.now.values) n ≡ has (elements other.now.values) n) }
    {
        self.range(range.start..range.end).eq(other.range(range))
    }
}
