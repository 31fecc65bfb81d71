// The iterator over a set's elements, skipping many of them at once.
ghost use Rattle.std.specs.Prelude.{◌≤◌, length};
ghost use Rattle.set_algebra.specs.Sets.{IsAscending};
ghost use Rattle.bit_set.specs.{Indexes.Passes, Walk.Skips};

use crate::BitBlock;
use crate::walk::Iter;

impl<'a, B: BitBlock> Iter<'a, B> {
    /// Skips `n` of the elements left and returns the next; `None` if there are no more than `n`. Skips a block by
    /// the count of its ones; if a summary is stored, as many blocks at once as a block has bits, unless few of
    /// these are nonzero.
    ///
    /// ```
    /// let set = BitSet::from_bytes(alloc, &[0b0100_1010])?;
    /// let mut walk = set.iter();
    /// assert_eq!(walk.nth(1), Some(4));
    /// assert_eq!(walk.next(), Some(6));
    /// ```
    pub fn nth(&mut self, n: usize) -> Option<usize>
        ensures { Skips B.width n self.old result self.new }
    {
        self.ascends();
        let mut ahead = n;
        while ahead > 0 {
            self.next()?;
            ahead -= 1;
            ahead -= self.pass_blocks(ahead);
        }
        self.next()
    }

    // What is left ascends, so `n` members are below the one that `nth` returns. It does nothing: its reads bring
    // the iterator's invariants into the proof.
    #[inline(always)]
    fn ascends(&self)
        ensures { IsAscending self.now.left }
    {
        let _index = self.index;
    }

    // Skips what is left of the block in hand if that is no more than `most` elements, and then blocks after it, as
    // many at once as a block has bits. Returns how many elements it skipped.
    #[inline]
    fn pass_blocks(&mut self, most: usize) -> usize
        ensures within { result ≤ most }
        ensures there { result ≤ length self.old.left }
        ensures walk { Passes B.width result self.old self.new }
    {
        let ones = self.block.count_ones();
        if ones > most {
            return 0;
        }
        self.block = B::zero();
        ones + self.nonzero.skip_blocks(most - ones)
    }
}
