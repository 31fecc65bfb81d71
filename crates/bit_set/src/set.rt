// A set, and the calls that read it. Those that make or change one are in the folder; walks, order, texts and JSON
// are beside it.
#![tactic(auto, unfolding(crate::specs::Changes::Changes))]

ghost use Rattle.std.specs.Prelude.{◌≡◌, ◌<◌, ◌≤◌, ◌↔◌, IsTrue, [], length};
ghost use Rattle.bit_blocks.specs.Bits.{IsCapacityOfBlocks};
ghost use Rattle.set_algebra.specs.{Members.{HasNone, IsCounted}, Sets.{elements, has}};

use crate::BitBlock;
use crate::bit_vec::BitVec;
use std::marker::Model;

mod bytes;
mod capacity;
mod changing;
mod counts;
mod ends;
mod fused;
mod gaps;
mod in_place;
mod new_sets;
mod of_many;
mod proper_subset;
mod range_relations;
mod ranges;
mod relations;
mod reporting;
mod retaining;
mod searching;
mod shifting;
mod splitting;

/// A set of whole numbers below `usize::MAX`, stored as a bit vector: a number is an element exactly if the vector
/// is true at that index.
///
/// Contracts see the bit vector, as its list of truth values and its capacity. The list is determined by its
/// elements and its length.
///
/// ```
/// let mut set = BitSet::new(alloc);
/// assert!(set.insert(3)?);
/// set.extend([1, 4, 1].into_iter())?;
/// assert!(set.remove(4));
/// assert!(set.iter().eq([1, 3]));
/// ```
#[derive(Drop)]
pub struct BitSet<B: BitBlock = u32> {
    bits: BitVec<B>,
}

impl<B: BitBlock> Model for BitSet<B> {
    ghost use Rattle.bit_blocks.specs.Bits.{Bits};

    ghost Value = { Bits };

    ghost view = { λ set. set.bits };
}

impl<B: BitBlock> BitSet<B> {
    /// Whether `value` is an element. Constant time.
    #[tactic(auto, using(set_algebra::proofs::MemberLemmas::reads))]
    #[inline]
    pub fn contains(&self, value: usize) -> bool
        ensures value { result ≡ has (elements self.now.values) value }
        ensures within { IsTrue result → (value < length self.now.values) × (value < usize.MAX) }
    {
        prove!(self.bits.len() <= usize::MAX);
        self.bits.get(value).unwrap_or(false)
    }

    /// How many elements there are. Adds up the ones of each block, and skips as many blocks at once as a block has
    /// bits, if they are all zero.
    #[tactic(auto, using(set_algebra::proofs::MemberLemmas::reads))]
    #[inline]
    pub fn count(&self) -> usize
        ensures value { result ≡ length (elements self.now.values) }
        ensures counted { IsCounted self.now.values }
    {
        prove!(self.bits.len() <= usize::MAX);
        self.bits.count_ones()
    }

    /// How many elements there are: the older name of [`BitSet::count`].
    #[inline]
    pub fn len(&self) -> usize
        ensures value { result ≡ length (elements self.now.values) }
        ensures counted { IsCounted self.now.values }
    {
        self.count()
    }

    /// Whether there is no element. If there are many blocks, it reads only the summary, each block of which says
    /// whether as many blocks as it has bits are all zero; if there are few, it reads each, up to the first that is
    /// not zero.
    #[inline]
    pub fn is_empty(&self) -> bool
        ensures elements { IsTrue result ↔ (elements self.now.values ≡ []) }
        ensures members { IsTrue result ↔ HasNone (elements self.now.values) }
    {
        self.bits.none()
    }

    /// The number below which inserting an element allocates nothing: that of a whole number of blocks, or
    /// `usize::MAX`. Constant time.
    #[inline]
    pub fn capacity(&self) -> usize
        ensures value { result ≡ self.now.capacity }
        ensures holds_values { length self.now.values ≤ result }
        ensures whole { IsCapacityOfBlocks B.width self.now }
    {
        self.bits.capacity()
    }

    /// The bit vector that stores the set. Constant time.
    #[inline]
    pub fn get_ref(&self) -> &BitVec<B>
        ensures { result.now ≡ self.now }
    {
        &self.bits
    }
}
