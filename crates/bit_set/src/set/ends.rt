// Calls that remove the least or the greatest element.
ghost use Rattle.std.specs.{Prelude.{◌≡◌, ◌+◌, MatchOption, if◌then◌else◌, is_some, length}, Iterator.{YieldsFirst, YieldsLast}};
ghost use Rattle.set_algebra.specs.{Members.{HasNone, TakesGreatest, TakesLeast}, Sets.elements};
ghost use Rattle.bit_set.specs.{Changes.{Change, Changes, Outcome.Gave}, Sizes.KeepsSize};

use crate::{BitBlock, BitSet};

impl<B: BitBlock> BitSet<B> {
    /// Removes the least element and returns it; `None` if the set is empty. The length stays. If there are many
    /// blocks, it reads the summary from where the last call left off, or from a lesser number inserted since, and
    /// one block of the set: removing all elements in this way goes through the summary once. An operation in
    /// place, a shift or a change of a range may restart the search at the first block. A set of few blocks stores
    /// no summary, and each block up to that of the element is read.
    ///
    /// ```
    /// let mut set = BitSet::from_bytes(alloc, &[0b0100_1010])?;
    /// assert_eq!(set.pop_first(), Some(1));
    /// assert!(set.iter().eq([4, 6]));
    /// ```
    pub fn pop_first(&mut self) -> Option<usize>
        ensures elements { YieldsFirst elements self.old.values result self.new.values }
        ensures members { MatchOption result (HasNone (elements self.old.values))
            (λ x. TakesLeast (elements self.old.values) x (elements self.new.values)) }
        ensures count { length (elements self.new.values) + (if is_some result then 1 else 0)
            ≡ length (elements self.old.values) }
        ensures size { KeepsSize self.old self.new }
        ensures changes { Changes Change.PopFirst self.old.values (Gave result) self.new.values }
    {
        self.bits.take_first_one()
    }

    /// Removes the greatest element and returns it; `None` if the set is empty. The length stays. Takes as long as
    /// [`BitSet::last`], and then constant time.
    ///
    /// ```
    /// let mut set = BitSet::from_bytes(alloc, &[0b0100_1010])?;
    /// assert_eq!(set.pop_last(), Some(6));
    /// assert!(set.iter().eq([1, 4]));
    /// ```
    pub fn pop_last(&mut self) -> Option<usize>
        ensures elements { YieldsLast elements self.old.values result self.new.values }
        ensures members { MatchOption result (HasNone (elements self.old.values))
            (λ x. TakesGreatest (elements self.old.values) x (elements self.new.values)) }
        ensures count { length (elements self.new.values) + (if is_some result then 1 else 0)
            ≡ length (elements self.old.values) }
        ensures size { KeepsSize self.old self.new }
        ensures changes { Changes Change.PopLast self.old.values (Gave result) self.new.values }
    {
        let value = self.last()?;
        let _was = self.remove(value);
        Some(value)
    }
}
