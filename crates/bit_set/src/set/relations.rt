// Calls that relate the elements of two sets.
ghost use Rattle.std.specs.Prelude.{◌≡◌, ◌↔◌, IsTrue};
ghost use Rattle.set_algebra.specs.{Members.{IsDisjoint, IsSubset}, Sets.{elements, is_subset, is_disjoint}};

use crate::{BitBlock, BitSet};

impl<B: BitBlock> BitSet<B> {
    /// Whether every element is in `other`, whichever set is longer. Reads each block at most once, and stops at
    /// the one with the first element that `other` lacks.
    #[inline]
    pub fn is_subset(&self, other: &Self) -> bool
        ensures returned { result ≡ is_subset (elements self.now.values) (elements other.now.values) }
        ensures members { IsTrue result ↔ IsSubset (elements self.now.values) (elements other.now.values) }
    {
        self.bits.is_subset(&other.bits)
    }

    /// Whether every element of `other` is in this set: [`BitSet::is_subset`] with the sets exchanged.
    #[inline]
    pub fn is_superset(&self, other: &Self) -> bool
        ensures returned { result ≡ is_subset (elements other.now.values) (elements self.now.values) }
        ensures members { IsTrue result ↔ IsSubset (elements other.now.values) (elements self.now.values) }
    {
        other.is_subset(self)
    }

    /// Whether no element is in `other`. Reads each block at most once, and stops at the first in which the sets
    /// have one in common.
    #[inline]
    pub fn is_disjoint(&self, other: &Self) -> bool
        ensures returned { result ≡ is_disjoint (elements self.now.values) (elements other.now.values) }
        ensures members { IsTrue result ↔ IsDisjoint (elements self.now.values) (elements other.now.values) }
    {
        self.bits.is_disjoint(&other.bits)
    }
}
