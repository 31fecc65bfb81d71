// Calls that change the capacity, or return the bit vector.
ghost use Rattle.std.specs.{Prelude.{◌≡◌, ℕ, ◌*◌, ◌<◌, ◌≤◌, Bool, IsOk, OnErr, OnOk, [], length, max, slice_set}, Borrow.sem};
ghost use Rattle.bit_blocks.specs.Bits.{blocks_for, capacity_of, whole_blocks, IsWithinCapacity};
ghost use Rattle.bit_words.specs.Growth.{Grows};
ghost use Rattle.set_algebra.specs.{Members.{IsSameSet, Updates}, Sets.{bound_of, elements}};
ghost use Rattle.bit_set.specs.{Changes.{Change, Changes, outcome_of_result}, Lends.lends_bits};

use crate::bit_vec::BitVec;
use crate::{BitBlock, BitSet};
use std::alloc::AllocError;

impl<B: BitBlock> BitSet<B> {
    /// Reserves capacity for elements below `len`; elements and length stay. If the capacity was less, it requests
    /// at least twice the old one, and may move the blocks. Fails only then, and the capacity is unchanged.
    ///
    /// ```
    /// set.reserve_len(100)?;
    /// // From here on no insertion below 100 fails.
    /// ```
    pub fn reserve_len(&mut self, len: usize) -> Result<(), AllocError>
        ensures values { self.new.values ≡ self.old.values }
        ensures grows { Grows len result self.old self.new }
        ensures changes { Changes (Change.ReserveLen len) self.old.values (outcome_of_result result) self.new.values }
    {
        let missing = len.saturating_sub(self.bits.len());
        self.bits.reserve(missing)
    }

    /// Reserves capacity for elements below `len`; elements and length stay. If the capacity was less, it becomes
    /// that of the blocks for `len`, which may move the blocks. Fails only then, and the capacity is unchanged.
    pub fn reserve_len_exact(&mut self, len: usize) -> Result<(), AllocError>
        ensures values { self.new.values ≡ self.old.values }
        ensures grows { Grows len result self.old self.new }
        ensures exact { OnOk result (self.new.capacity ≡ max self.old.capacity
            (capacity_of B.width (blocks_for B.width len))) }
        ensures changes { Changes (Change.ReserveLenExact len)
            self.old.values (outcome_of_result result) self.new.values }
    {
        let missing = len.saturating_sub(self.bits.len());
        self.bits.reserve_exact(missing)
    }

    /// Sets the length to the end of the last nonempty block, which may also lengthen it, and gives back the
    /// capacity that these blocks do not need; may move them. The elements stay. Fails exactly if the capacity is
    /// still greater than that of these blocks, since there was no memory to move to; the length has changed then
    /// too.
    ///
    /// ```
    /// // The set is {3, 400}, over blocks of 32 bits.
    /// set.remove(400);
    /// set.shrink_to_fit()?;
    /// assert_eq!(set.capacity(), 32);
    /// ```
    pub fn shrink_to_fit(&mut self) -> Result<(), AllocError>
        ensures elements { elements self.new.values ≡ elements self.old.values }
        ensures members { IsSameSet (elements self.new.values) (elements self.old.values) }
        ensures length { length self.new.values ≡ whole_blocks B.width self.old.values }
        ensures cut { blocks_for B.width (bound_of (elements self.old.values)) * B.width ≤ usize.MAX
            → length self.new.values ≡ blocks_for B.width (bound_of (elements self.old.values)) * B.width }
        ensures top { usize.MAX < blocks_for B.width (bound_of (elements self.old.values)) * B.width
            → length self.new.values ≡ length self.old.values }
        ensures ok { OnOk result (self.new.capacity ≡ capacity_of B.width
            (blocks_for B.width (length self.new.values))) }
        ensures err { OnErr result (capacity_of B.width (blocks_for B.width (length self.new.values))
            < self.new.capacity) }
        ensures capacity { self.new.capacity ≤ self.old.capacity }
        ensures fits { IsWithinCapacity self.new }
        ensures empty { elements self.old.values ≡ [] → IsOk result }
        ensures changes { Changes Change.ShrinkToFit self.old.values (outcome_of_result result) self.new.values }
    {
        self.bits.cut_zero_blocks();
        self.bits.shrink_to_fit()
    }

    /// The bit vector, for writing: its value when the borrow ends is the set from then on. Constant time.
    #[inline]
    pub fn get_mut(&mut self) -> &mut BitVec<B>
        ensures* writes_back { sem 𝓛 (lends_bits B.row B.BitBlock self.entry result) }
        ensures value { result.now ≡ self.old }
        ensures members { (i : ℕ) (bit : Bool) → i < length self.old.values
            → Updates (elements self.old.values) (elements (slice_set self.old.values i bit)) i bit }
    {
        &mut self.bits
    }

    /// The bit vector that stores the set. Constant time.
    #[inline]
    pub fn into_bit_vec(self) -> BitVec<B>
        ensures { result ≡ self }
    {
        self.bits
    }
}
