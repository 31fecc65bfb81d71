// Calls that make a set.
ghost use Rattle.std.specs.{Prelude.{◌≡◌, ◌≢◌, ℕ, ◌≤◌, ◌↔◌, IfOk, IfErr, IsOk, List, [], length, Some}, Iterator.{Drains, IsFinite, YieldsThen, Runs.WholeRun}};
ghost use Rattle.bit_blocks.specs.Bits.{blocks_for, capacity_of};
ghost use Rattle.bit_words.specs.Bounds.{greatest};
ghost use Rattle.set_algebra.specs.{Sets.{bound_of, elements, put_all}, Members.{HasNone, HasTrueOf, IsSameSet}};
ghost use Rattle.bit_set.specs.{Capacity.IsPastBlocks, Sizes.IsJustOf};

use crate::bit_vec::BitVec;
use crate::{BitBlock, BitSet, SetError};
use std::alloc::{AllocError, Global};

impl<B: BitBlock> BitSet<B> {
    /// The empty set of length 0. Constant time; allocates nothing.
    #[inline]
    pub fn new_general(alloc: Global) -> Self
        ensures values { result.values ≡ [] }
        ensures members { HasNone (elements result.values) }
        ensures capacity { result.capacity ≡ 0 }
    {
        BitSet {
            bits: BitVec::new_general(alloc),
        }
    }

    /// The empty set of length `len`, so that inserting elements below `len` allocates nothing. Fails only if
    /// memory runs out. Writes `len` bits.
    pub fn with_capacity_general(alloc: Global, len: usize) -> Result<Self, AllocError>
        ensures elements { IfOk result (λ set. elements set.values ≡ []) }
        ensures members { IfOk result (λ set. HasNone (elements set.values)) }
        ensures size { IfOk result (λ set. IsJustOf B.width len set) }
        ensures capacity { IfOk result (λ set. len ≤ set.capacity) }
        ensures empty { len ≡ 0 → IsOk result }
    {
        let bits = BitVec::from_elem_general(alloc, len, false)?;
        Ok(BitSet { bits })
    }

    /// The set of the indexes at which the bit vector is true. Constant time.
    #[tactic(auto, using(set_algebra::proofs::MemberLemmas::reads))]
    #[inline]
    pub fn from_bit_vec_general(bit_vec: BitVec<B>) -> Self
        ensures value { result ≡ bit_vec }
        ensures members { HasTrueOf (elements result.values) bit_vec.values }
    {
        BitSet { bits: bit_vec }
    }

    /// The set of the items, with the least length that its greatest element allows; with no items the capacity is
    /// 0. The iterator must end. Constant time for each item, except for growths. Fails at the first item that is
    /// `usize::MAX`, or for which memory runs out: one past the blocks of all items before it. The remaining items
    /// are dropped.
    pub fn from_iter<I: Iterator<Item = usize> + Drop>(
        alloc: Global,
        iter: I,
    ) -> Result<Self, SetError>
        requires can { I.can_next iter }
        requires ends { IsFinite (I.remaining iter) }
        ensures ok { IfOk result (λ set. (items : List ℕ) × Drains I.next_gives iter items
            × (elements set.values ≡ put_all [] items) × (length set.values ≡ bound_of items)
            × IsSameSet (elements set.values) items) }
        ensures runs { IfOk result (λ set. WholeRun I.next_gives iter (λ run.
            (elements set.values ≡ put_all [] run.items) × (length set.values ≡ bound_of run.items)
            × IsSameSet (elements set.values) run.items)) }
        ensures err { IfErr result (λ fault. (items : List ℕ) × (item : ℕ) × (rest : I)
            × YieldsThen I.next_gives iter items (Some item) rest × (bound_of items ≤ item) × (item ≤ greatest)
            × (fault ≢ SetError.Length) × ((fault ≡ SetError.Element) ↔ (item ≡ greatest))
            × IsPastBlocks fault B.width (bound_of items) item) }
        ensures capacity { IfOk result (λ set. length set.values ≡ 0 → set.capacity ≡ 0) }
    {
        let mut set = Self::new_general(alloc);
        set.extend(iter)?;
        Ok(set)
    }

    /// A separate set with the same list. Copies each block once. Its capacity is that of its blocks. Fails only if
    /// memory runs out.
    pub fn clone(&self, alloc: Global) -> Result<Self, AllocError>
        ensures values { IfOk result (λ set. set.values ≡ self.now.values) }
        ensures members { IfOk result (λ set. IsSameSet (elements set.values) (elements self.now.values)) }
        ensures capacity { IfOk result (λ set. set.capacity
            ≡ capacity_of B.width (blocks_for B.width (length self.now.values))) }
        ensures empty { length self.now.values ≡ 0 → IsOk result }
    {
        let bits = self.bits.clone(alloc)?;
        Ok(BitSet { bits })
    }
}

impl BitSet<u32> {
    /// [`BitSet::new_general`] over blocks of 32 bits.
    #[inline]
    pub fn new(alloc: Global) -> Self
        ensures values { result.values ≡ [] }
        ensures members { HasNone (elements result.values) }
        ensures capacity { result.capacity ≡ 0 }
    {
        BitSet::new_general(alloc)
    }

    /// [`BitSet::with_capacity_general`] over blocks of 32 bits.
    pub fn with_capacity(alloc: Global, len: usize) -> Result<Self, AllocError>
        ensures elements { IfOk result (λ set. elements set.values ≡ []) }
        ensures members { IfOk result (λ set. HasNone (elements set.values)) }
        ensures size { IfOk result (λ set. IsJustOf 32 len set) }
        ensures capacity { IfOk result (λ set. len ≤ set.capacity) }
        ensures empty { len ≡ 0 → IsOk result }
    {
        BitSet::with_capacity_general(alloc, len)
    }

    /// [`BitSet::from_bit_vec_general`] over blocks of 32 bits.
    #[inline]
    pub fn from_bit_vec(bit_vec: BitVec<u32>) -> Self
        ensures value { result ≡ bit_vec }
        ensures members { HasTrueOf (elements result.values) bit_vec.values }
    {
        BitSet::from_bit_vec_general(bit_vec)
    }
}
