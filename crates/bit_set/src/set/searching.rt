// Calls that search for the next element, or the next absent number, in either direction.
ghost use Rattle.std.specs.Prelude.{◌<◌, ◌≤◌, IfSome, MatchOption, length, max, not};
ghost use Rattle.bit_blocks.specs.Searches.{FindsBefore, FindsFrom, IsFirstFrom};
ghost use Rattle.set_algebra.specs.{Choices.{IsFirstOf, IsGreatest, IsLastOf, IsLeast}, Members.HasNone, Sets.{elements, has, those_below, those_from}};

use crate::{BitBlock, BitSet};

impl<B: BitBlock> BitSet<B> {
    /// The least element at or above `n`, or `None`. Reads the block of `n`, the summary from there up to the next
    /// nonzero block, and that block; a set of few blocks stores no summary, and then it reads each block up to
    /// there.
    ///
    /// ```
    /// let set = BitSet::from_bytes(alloc, &[0b0100_1010])?;
    /// assert_eq!(set.next(2), Some(4));
    /// assert_eq!(set.next(7), None);
    /// ```
    pub fn next(&self, n: usize) -> Option<usize>
        ensures elements { IsFirstOf (those_from (elements self.now.values) n) result }
        ensures members { FindsFrom (has (elements self.now.values)) n result }
        ensures within { IfSome result (λ x. (x < length self.now.values) × (x < usize.MAX)) }
    {
        prove!(self.bits.len() <= usize::MAX);
        self.bits.first_one_from(n)
    }

    /// The greatest element below `n`, or `None`. Reads the block of `n`, the summary from there down to the next
    /// nonzero block, and that block; a set of few blocks stores no summary, and then it reads each block down to
    /// there.
    ///
    /// ```
    /// let set = BitSet::from_bytes(alloc, &[0b0100_1010])?;
    /// assert_eq!(set.previous(4), Some(1));
    /// assert_eq!(set.previous(1), None);
    /// ```
    pub fn previous(&self, n: usize) -> Option<usize>
        ensures elements { IsLastOf (those_below (elements self.now.values) n) result }
        ensures members { FindsBefore (has (elements self.now.values)) n result }
        ensures within { IfSome result (λ x. (x < length self.now.values) × (x < usize.MAX)) }
    {
        prove!(self.bits.len() <= usize::MAX);
        self.bits.last_one_before(n)
    }

    /// The least number at or above `n` that is not an element. There always is one, since `usize::MAX` is not an
    /// element. Reads each block from that of `n` up to that of the result.
    ///
    /// ```
    /// let set = BitSet::from_bytes(alloc, &[0b0111_0000])?;
    /// assert_eq!(set.next_missing(0), 0);
    /// assert_eq!(set.next_missing(1), 4);
    /// ```
    pub fn next_missing(&self, n: usize) -> usize
        ensures members { IsFirstFrom (λ m. not (has (elements self.now.values) m)) n result }
        ensures within { result ≤ max n (length self.now.values) }
    {
        self.bits.first_zero_from(n)
    }

    /// The least element, or `None` if the set is empty. Reads the summary from where [`BitSet::pop_first`] left
    /// off, or from a lesser number inserted since, up to the first nonzero block, and that block; a set of few
    /// blocks stores no summary, and then it reads each block up to there.
    pub fn first(&self) -> Option<usize>
        ensures elements { IsFirstOf (elements self.now.values) result }
        ensures members { MatchOption result (HasNone (elements self.now.values)) (IsLeast (elements self.now.values)) }
        ensures within { IfSome result (λ x. (x < length self.now.values) × (x < usize.MAX)) }
    {
        prove!(self.bits.len() <= usize::MAX);
        self.bits.first_one()
    }

    /// The greatest element, or `None` if the set is empty. Reads the last block, the summary down to the last
    /// nonzero block, and that block; a set of few blocks stores no summary, and then it reads each block down to
    /// there.
    pub fn last(&self) -> Option<usize>
        ensures elements { IsLastOf (elements self.now.values) result }
        ensures members { MatchOption result
            (HasNone (elements self.now.values)) (IsGreatest (elements self.now.values)) }
        ensures within { IfSome result (λ x. (x < length self.now.values) × (x < usize.MAX)) }
    {
        self.previous(self.bits.len())
    }
}
