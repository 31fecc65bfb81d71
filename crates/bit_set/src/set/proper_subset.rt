// Whether every element is in another set, which has more.
ghost use Rattle.std.specs.Prelude.{◌≡◌, ◌<◌, ◌&&◌, ◌↔◌, ℕ, All, IsTrue, get_or, map, not};
ghost use Rattle.bit_blocks.specs.{BlockMerges.MergesToFalse, declared.block.merge.Merge.Merge};
ghost use Rattle.set_algebra.specs.{Runs.IsProperSubset, Sets.{elements, is_subset}};

use crate::bit_vec::first_mismatching_block;
use crate::{BitBlock, BitSet};
use bit_blocks::packed::inclusion::difference_is_zero;

impl<B: BitBlock> BitSet<B> {
    /// Whether every element is in `other`, and `other` has at least one more. Compares the blocks up to the first
    /// that differs, and continues from there as [`BitSet::is_subset`] does: one pass.
    ///
    /// ```
    /// // The sets are {1, 4} and {1, 4, 6}.
    /// assert!(set.is_proper_subset(&other));
    /// assert!(!set.is_proper_subset(&set));
    /// ```
    pub fn is_proper_subset(&self, other: &Self) -> bool
        ensures returned { result ≡ (is_subset (elements self.now.values) (elements other.now.values)
            && not (is_subset (elements other.now.values) (elements self.now.values))) }
        ensures members { IsTrue result ↔ IsProperSubset (elements self.now.values) (elements other.now.values) }
    {
        let (blocks, others) = (self.get_ref().storage(), other.get_ref().storage());
        match first_mismatching_block(blocks, others) {
            None => false,
            Some(at) => is_within_from(blocks, others, at),
        }
    }
}

// Whether each 1 of the blocks is a 1 of the others; those before `start` are the same.
fn is_within_from<B: BitBlock>(blocks: &[B], others: &[B], start: usize) -> bool
    requires each { All B.is_block blocks.now }
    requires others { All B.is_block others.now }
    requires before { (k : ℕ) → k < start
        → get_or (map B.number blocks.now) k 0 ≡ get_or (map B.number others.now) k 0 }
    ensures { IsTrue result
        ↔ MergesToFalse Merge.Difference B.width (map B.number blocks.now) (map B.number others.now) }
{
    let rest = blocks.split_at(start.min(blocks.len())).1;
    let other_rest = others.split_at(start.min(others.len())).1;
    difference_is_zero(rest, other_rest)
}
