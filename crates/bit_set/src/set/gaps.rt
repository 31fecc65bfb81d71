// The call that looks for missing numbers in a row.
ghost use Rattle.std.specs.Prelude.{◌≤◌, IfSome, length, max};
ghost use Rattle.bit_blocks.specs.Searches.{FindsFrom};
ghost use Rattle.set_algebra.specs.{Gaps.{FindsGap, is_gap}, Sets.elements};

use crate::{BitBlock, BitSet};

impl<B: BitBlock> BitSet<B> {
    /// The least number at or above `from` at which `count` missing numbers in a row begin, so that `insert_range`
    /// of them inserts `count` new elements; `from` itself if `count` is 0. `None` if there is no such place below
    /// `usize::MAX`. Searches alternately for the next missing number and the next element, up to the element after
    /// the gap: one pass.
    ///
    /// ```
    /// // The set is {1, 4, 5}.
    /// assert_eq!(set.first_gap(0, 1), Some(0));
    /// assert_eq!(set.first_gap(0, 2), Some(2));
    /// assert_eq!(set.first_gap(3, 2), Some(6));
    /// assert_eq!(set.first_gap(0, usize::MAX), None);
    /// ```
    pub fn first_gap(&self, from: usize, count: usize) -> Option<usize>
        ensures elements { FindsFrom (is_gap (elements self.now.values) count) from result }
        ensures members { FindsGap (elements self.now.values) from count result }
        ensures within { IfSome result (λ gap. gap ≤ max from (length self.now.values)) }
    {
        if count == 0 {
            return Some(from);
        }
        let mut gap = self.next_missing(from);
        while let Some(element) = self.next(gap) {
            if element - gap >= count {
                return Some(gap);
            }
            gap = self.next_missing(element);
        }
        if count > usize::MAX - gap {
            return None;
        }
        Some(gap)
    }
}
