// Calls that look for the next value that is true, or false, in either direction.
ghost use Rattle.std.specs.Prelude.{◌≤◌, false, get_or, length, max, not};
ghost use Rattle.bit_blocks.specs.Searches.{FindsBefore, FindsFrom, IsFirstFrom};

use crate::bit_vec::BitVec;
use crate::summary::is_short;
use crate::summary::searching::{first_one_by_summary, last_one_by_summary};
use crate::summary::taking::first_of_chunk;
use bit_blocks::block::BitBlock;
use bit_blocks::packed::nonzero::first_nonzero_block;
use bit_blocks::packed::searching::{first_one, first_zero};

impl<B: BitBlock> BitVec<B> {
    /// The first index at which the list is true, or `None`. If there are many blocks, it reads the summary from
    /// where [`take_first_one`](Self::take_first_one) left off, or from where a value has become true since, and
    /// one block of the list; after a merge, a shift, `fill`, `negate_range` or a range that became true, it reads
    /// the summary from the start. If there are few blocks, there is no summary, and it reads each block up to that
    /// of the index.
    ///
    /// ```
    /// // Of 100 values, those at 3 and 70 are true.
    /// assert_eq!(bits.first_one(), Some(3));
    /// ```
    pub fn first_one(&self) -> Option<usize>
        ensures { FindsFrom (λ i. get_or self.now.values i false) 0 result }
    {
        if is_short::<B>(self.blocks.len()) {
            return first_one(&self.blocks, 0);
        }
        let chunk = first_nonzero_block(&self.summary, self.search_start)?;
        Some(first_of_chunk(&self.blocks, &self.summary, chunk))
    }

    /// The first index at or above `n` at which the list is true, or `None`. Reads the block of `n`, the summary
    /// from there up to the next nonzero block, and that block; if there are few blocks, there is no summary, and
    /// it reads each block up to there.
    ///
    /// ```
    /// // Of 100 values, those at 3 and 70 are true.
    /// assert_eq!(bits.first_one_from(3), Some(3));
    /// assert_eq!(bits.first_one_from(4), Some(70));
    /// assert_eq!(bits.first_one_from(71), None);
    /// ```
    pub fn first_one_from(&self, n: usize) -> Option<usize>
        ensures { FindsFrom (λ i. get_or self.now.values i false) n result }
    {
        first_one_by_summary(&self.blocks, &self.summary, n)
    }

    /// The last index below `n` at which the list is true, or `None`. Reads the block of `n`, the summary from
    /// there down to the next nonzero block, and that block; if there are few blocks, there is no summary, and it
    /// reads each block down to there.
    ///
    /// ```
    /// // Of 100 values, those at 3 and 70 are true.
    /// assert_eq!(bits.last_one_before(100), Some(70));
    /// assert_eq!(bits.last_one_before(70), Some(3));
    /// assert_eq!(bits.last_one_before(3), None);
    /// ```
    pub fn last_one_before(&self, n: usize) -> Option<usize>
        ensures { FindsBefore (λ i. get_or self.now.values i false) n result }
    {
        last_one_by_summary(&self.blocks, &self.summary, n)
    }

    /// The first index at or above `n` at which the list is not true; every index past the list counts. Reads each
    /// block from that of `n` up to that of the result.
    ///
    /// ```
    /// // Of 100 values, all but those at 3 and 70 are true.
    /// assert_eq!(bits.first_zero_from(3), 3);
    /// assert_eq!(bits.first_zero_from(4), 70);
    /// assert_eq!(bits.first_zero_from(71), 100);
    /// ```
    pub fn first_zero_from(&self, n: usize) -> usize
        ensures first { IsFirstFrom (λ i. not (get_or self.now.values i false)) n result }
        ensures within { result ≤ max n (length self.now.values) }
    {
        if n >= self.len {
            return n;
        }
        first_zero(&self.blocks, self.len, n)
    }
}
