// Calls that make a set of many.
ghost use Rattle.std.specs.Prelude.{◌≡◌, ◌≢◌, ℕ, ◌+◌, ◌*◌, ◌<◌, ◌≤◌, ◌↔◌, All, Any, IfOk, IsOk, IsTrue, [], false, get_or, length, map, true};
ghost use Rattle.bit_blocks.specs.Merges.{merge_of_values};
ghost use Rattle.set_algebra.specs.Sets.{elements, has};
ghost use Rattle.bit_set.specs.Many.{HasEach, HasSome, intersection_all, longest, merged_at, shortest, union_all};
ghost use Rattle.bit_set.specs.Sizes.{IsJustOf, KeepsSize};

use crate::bit_vec::{BitVec, Merge};
use crate::{BitBlock, BitSet};
use std::alloc::{AllocError, Global};

impl<B: BitBlock> BitSet<B> {
    /// The set of what is in at least one of the sets. It is as long as the longest of them; for no input sets, the
    /// result is the empty set of length 0. Writes zeros, and then makes one pass: as many blocks as a block has
    /// bits are merged with those of each set before the next ones. So each block of the sets is read once, while
    /// those of the new set stay in the cache. The capacity is that of the blocks. Fails only if memory runs out,
    /// and never for the length 0.
    ///
    /// ```
    /// // The sets are {1, 4}, {4, 70} and {}.
    /// let all = BitSet::union_of(alloc, &sets)?;
    /// assert!(all.iter().eq([1, 4, 70]));
    /// ```
    pub fn union_of(alloc: Global, sets: &[BitSet<B>]) -> Result<Self, AllocError>
        ensures elements { IfOk result (λ set. elements set.values
            ≡ union_all (map (λ s. elements s.values) sets.now)) }
        ensures members { IfOk result (λ set. HasSome sets.now (elements set.values)) }
        ensures some { IfOk result (λ set. (n : ℕ) → IsTrue (has (elements set.values) n)
            ↔ Any (λ s. IsTrue (has (elements s.values) n)) sets.now) }
        ensures size { IfOk result (λ set. IsJustOf B.width (longest sets.now) set) }
        ensures empty { longest sets.now ≡ 0 → IsOk result }
    {
        let bits = merged(alloc, sets, Merge::Union, longest(sets), false)?;
        Ok(BitSet { bits })
    }

    /// The set of what is in each of the sets. It is as long as the shortest of them. For no input sets, the result
    /// is the empty set of length 0, since a set of all numbers would have no end. Made as [`BitSet::union_of`]
    /// makes its result, but from ones: it reads no block past the shortest set. The capacity is that of the
    /// blocks. Fails only if memory runs out, and never for the length 0.
    ///
    /// ```
    /// // The sets are {1, 4, 70} and {4, 70, 200}.
    /// let common = BitSet::intersection_of(alloc, &sets)?;
    /// assert!(common.iter().eq([4, 70]));
    /// ```
    pub fn intersection_of(alloc: Global, sets: &[BitSet<B>]) -> Result<Self, AllocError>
        ensures elements { IfOk result (λ set. elements set.values
            ≡ intersection_all (map (λ s. elements s.values) sets.now)) }
        ensures members { IfOk result (λ set. HasEach sets.now (elements set.values)) }
        ensures each { IfOk result (λ set. sets.now ≢ [] → (n : ℕ) → IsTrue (has (elements set.values) n)
            ↔ All (λ s. IsTrue (has (elements s.values) n)) sets.now) }
        ensures size { IfOk result (λ set. IsJustOf B.width (shortest sets.now) set) }
        ensures empty { shortest sets.now ≡ 0 → IsOk result }
    {
        let bits = merged(alloc, sets, Merge::Intersection, shortest(sets), true)?;
        Ok(BitSet { bits })
    }
}

// The greatest length of the sets, or 0 if there are none.
fn longest<B: BitBlock>(sets: &[BitSet<B>]) -> usize
    ensures { result ≡ longest sets.now }
{
    let mut most: usize = 0;
    for set in sets {
        most = most.max(set.get_ref().len());
    }
    most
}

// The least length of the sets, or 0 if there are none.
fn shortest<B: BitBlock>(sets: &[BitSet<B>]) -> usize
    ensures { result ≡ shortest sets.now }
{
    let Some((first, rest)) = sets.split_first() else {
        return 0;
    };
    let mut least = first.get_ref().len();
    for set in rest {
        least = least.min(set.get_ref().len());
    }
    least
}

// A list of length `len`: at each index `value` merged with the values of the sets. It is inlined into its caller,
// which knows the merge.
#[inline(always)]
fn merged<B: BitBlock>(
    alloc: Global,
    sets: &[BitSet<B>],
    merge: Merge,
    len: usize,
    value: bool,
) -> Result<BitVec<B>, AllocError>
    requires fits { All (λ s. len < length s.values → merge_of_values merge false true ≡ false) sets.now }
    ensures size { IfOk result (λ bits. IsJustOf B.width len bits) }
    ensures values { IfOk result (λ bits. (i : ℕ) → i < len
        → get_or bits.values i false ≡ merged_at merge sets.now i value) }
    ensures empty { len ≡ 0 → IsOk result }
{
    let mut bits = BitVec::from_elem_general(alloc, len, value)?;
    for chunk in 0..bits.chunk_count() {
        merge_chunk(&mut bits, sets, merge, chunk);
    }
    Ok(bits)
}

// Merges the values of a chunk of the list with those of the sets; the others stay.
#[inline(always)]
fn merge_chunk<B: BitBlock>(bits: &mut BitVec<B>, sets: &[BitSet<B>], merge: Merge, chunk: usize)
    requires some { chunk * B.width * B.width < length bits.old.values }
    requires fits { All (λ s. length bits.old.values < length s.values
        → merge_of_values merge false true ≡ false) sets.now }
    ensures size { KeepsSize bits.old bits.new }
    ensures inside { (i : ℕ) → chunk * B.width * B.width ≤ i → i < (chunk + 1) * B.width * B.width
        → get_or bits.new.values i false ≡ merged_at merge sets.now i (get_or bits.old.values i false) }
    ensures before { (i : ℕ) → i < chunk * B.width * B.width
        → get_or bits.new.values i false ≡ get_or bits.old.values i false }
    ensures after { (i : ℕ) → (chunk + 1) * B.width * B.width ≤ i
        → get_or bits.new.values i false ≡ get_or bits.old.values i false }
{
    for set in sets {
        bits.merge_chunk_with(set.get_ref(), merge, chunk);
    }
}
