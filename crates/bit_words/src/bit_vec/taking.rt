// Calls that make a true value false.
ghost use Rattle.std.specs.Prelude.{◌≡◌, MatchOption, false, get_or, slice_set};
ghost use Rattle.bit_blocks.specs.Searches.{FindsFrom};

use crate::bit_vec::BitVec;
use crate::summary::is_short;
use crate::summary::taking::take_first_of_chunk;
use bit_blocks::block::BitBlock;
use bit_blocks::packed::access::replace_bit;
use bit_blocks::packed::nonzero::first_nonzero_block;
use bit_blocks::packed::searching::first_one;

impl<B: BitBlock> BitVec<B> {
    /// Sets the first true value to false, and returns its index; `None` if no value is true. If there are many
    /// blocks, it reads the summary from where the last call left off, or from where a value has become true since,
    /// and one block of the list: taking all values in this way goes through the summary once. After a merge, a
    /// shift, `fill`, `negate_range` or a range that became true it reads the summary from its start. If there are
    /// few blocks, there is no summary, and it reads each block up to that of the value.
    ///
    /// ```
    /// // Of 100 values, those at 3 and 70 are true.
    /// assert_eq!(bits.take_first_one(), Some(3));
    /// assert_eq!(bits.take_first_one(), Some(70));
    /// assert_eq!(bits.take_first_one(), None);
    /// ```
    pub fn take_first_one(&mut self) -> Option<usize>
        ensures first { FindsFrom (λ i. get_or self.old.values i false) 0 result }
        ensures values { MatchOption result (self.new.values ≡ self.old.values)
            (λ i. self.new.values ≡ slice_set self.old.values i false) }
        ensures capacity { self.new.capacity ≡ self.old.capacity }
    {
        if is_short::<B>(self.blocks.len()) {
            let i = first_one(&self.blocks, 0)?;
            let _was = replace_bit(&mut self.blocks, i, false);
            return Some(i);
        }
        let Some(chunk) = first_nonzero_block(&self.summary, self.search_start) else {
            self.search_start = self.summary.len();
            return None;
        };
        self.search_start = chunk;
        Some(take_first_of_chunk(&mut self.blocks, &mut self.summary, chunk))
    }
}
