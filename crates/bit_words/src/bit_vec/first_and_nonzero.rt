// The walk over the first block of a bit vector, and then those that are not 0.
ghost use Rattle.std.specs.{Prelude.{◌≡◌, All, map}, Iterator.item_count};
ghost use Rattle.bit_blocks.specs.Bits.{blocks_of, IsWithinCapacity};
ghost use Rattle.bit_words.specs.Nonzero.{before_first};

use crate::bit_vec::{BitVec, Nonzero};
use bit_blocks::block::BitBlock;
use std::marker::Model;

/// An iterator over the first block of a bit vector, zero or not, and then its nonzero blocks, each with its index,
/// in ascending order.
///
/// Contracts see what they see of [`Nonzero`], the iterator past the first block.
#[derive(Drop)]
pub struct FirstAndNonzero<'a, B: BitBlock> {
    past: Nonzero<'a, B>,
    // Whether the first block is still to come.
    at_first: bool,
}

impl<'a, B: BitBlock> Model for FirstAndNonzero<'a, B> {
    ghost use Rattle.std.specs.Prelude.{◌≡◌, true, if◌then◌else◌};
    ghost use Rattle.bit_words.specs.Nonzero.{before_first, Nonzeros, StartsPast};

    ghost Value = { Nonzeros B };

    ghost view = { λ it. if it.at_first then before_first B.width B.number it.past else it.past };

    ghost invariant = { λ it. it.at_first ≡ true → StartsPast B.width B.number 0 it.past };
}

impl<B: BitBlock> BitVec<B> {
    /// An iterator over the first block, zero or not, and then the nonzero blocks, each with its index. Constant
    /// time, and allocates nothing.
    ///
    /// ```
    /// // Of 100 values, over blocks of 32 bits, those at 70 and 71 are true.
    /// assert!(bits.nonzero().eq([(0, 0), (2, 0b1100_0000)]));
    /// assert!(bits.nonzero_past_first().eq([(2, 0b1100_0000)]));
    /// ```
    #[inline]
    pub fn nonzero(&self) -> FirstAndNonzero<'_, B>
        ensures blocks { map B.number result.blocks ≡ blocks_of B.width self.now.values }
        ensures each { All B.is_block result.blocks }
        ensures start { result ≡ before_first B.width B.number result }
        ensures fits { IsWithinCapacity self.now }
    {
        FirstAndNonzero {
            past: self.nonzero_past_first(),
            at_first: true,
        }
    }
}

impl<'a, B: BitBlock> FirstAndNonzero<'a, B> {
    /// An iterator at the same place, whose counts continue from this one's. Constant time.
    #[inline]
    pub fn clone(&self) -> Self
        ensures { result ≡ self.now }
    {
        FirstAndNonzero {
            past: self.past.clone(),
            at_first: self.at_first,
        }
    }
}

impl<'a, B: BitBlock> Iterator for FirstAndNonzero<'a, B> {
    ghost use Rattle.bit_words.specs.Nonzero.{PullsNonzero};

    type Item = (usize, B);

    ghost next_gives = { PullsNonzero };

    ghost remaining = { item_count (λ walk. walk.left) };

    /// The first block, or the next nonzero block, with its index.
    #[inline]
    fn next(&mut self) -> Option<(usize, B)> {
        if self.at_first {
            self.at_first = false;
            let block = *self.past.as_slice().first()?;
            return Some((0, block));
        }
        self.past.next()
    }
}
