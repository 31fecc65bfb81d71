//! Bit vectors over blocks of any lawful type.
ghost use Rattle.std.specs.{Prelude.{◌≡◌, ◌-◌, ◌↔◌, All, IsTrue, false, length, map, min, slice_get}, List.count_by};
ghost use Rattle.bit_blocks.specs.Bits.{blocks_of, IsCapacityOfBlocks, IsWithinCapacity};
ghost use Rattle.bit_words.specs.Nonzero.{StartsPast};

use crate::bit_vec::pending::Unstored;
use crate::summary::queries::{are_zero_by_summary, ones_by_summary};
use crate::summary::short_limit;
use bit_blocks::packed::access::get_bit;
use std::marker::Model;

mod blocks;
mod bytes;
mod capacity;
mod changes;
mod chunk_merging;
mod comparing;
mod constructors;
mod debug;
mod editing;
mod first_and_nonzero;
mod merging;
mod nonzero;
mod one_block;
mod pending;
mod ranges;
mod searching;
mod shifting;
mod taking;
mod whole_blocks;

pub use crate::summary::counts::count_merged_blocks;
pub use bit_blocks::block::highest::take_highest_one;
pub use bit_blocks::block::lowest::take_lowest_one;
pub use bit_blocks::block::masks::{clear_below, clear_from, with_bit};
pub use bit_blocks::block::merge::Merge;
pub use bit_blocks::block::{BitBlock, operation};
pub use bit_blocks::packed::comparing::{
    first_mismatching_block, lowest_mismatch, mismatch_between, same_blocks,
};
pub use bit_blocks::packed::groups::GROUP;
pub use bit_blocks::packed::nonzero::{block_or_zero, first_nonzero_block, has_one_from};
pub use bit_blocks::steps::Steps;
pub use blocks::Blocks;
pub use constructors::BitsError;
pub use first_and_nonzero::FirstAndNonzero;
pub use nonzero::Nonzero;

/// A list of truth values, stored as bits in a vector of blocks.
///
/// Contracts see the list, as `values`, and `capacity`, the length up to which it grows without allocating. Value
/// `i` is bit `i % B::bits()` of block `i / B::bits()`; bits of the last block past the length are 0.
///
/// ```
/// let mut bits = BitVec::from_elem(alloc, 3, false)?;
/// bits.set(1, true);
/// bits.grow(2, true)?;
/// assert_eq!(bits.storage(), [0b11010].as_slice());
/// ```
#[derive(Drop)]
pub struct BitVec<B: BitBlock = u32> {
    blocks: Vec<B>,
    // Which of the blocks are not 0. Empty if they are few.
    summary: Vec<B>,
    // If a summary is stored, each block of it before this one is 0: a search for the first true value starts here.
    search_start: usize,
    len: usize,
}

impl<B: BitBlock> Model for BitVec<B> {
    ghost use Rattle.std.specs.Prelude.{map, vec_capacity};
    ghost use Rattle.bit_blocks.specs.{Bits.{Bits, capacity_of}, Storage.values_of};
    ghost use Rattle.bit_words.specs.Summary.{shared_capacity, IsStoredList};

    ghost Value = { Bits };

    ghost view = { λ v. record {
      values = values_of B.width (map B.number v.blocks.items) v.len;
      capacity = capacity_of B.width (shared_capacity B.width (vec_capacity v.blocks) (vec_capacity v.summary));
    } };

    ghost invariant = { λ v. IsStoredList B.width B.number B.is_block v.blocks.items v.summary.items v.len
        v.search_start };
}

impl<B: BitBlock> BitVec<B> {
    /// How many values the list has. Constant time.
    #[inline]
    pub fn len(&self) -> usize
        ensures value { result ≡ length self.now.values }
        ensures fits { IsWithinCapacity self.now }
    {
        self.len
    }

    /// The value at `i`, or `None` at or past the length. Constant time.
    #[inline]
    pub fn get(&self, i: usize) -> Option<bool>
        ensures { result ≡ slice_get self.now.values i }
    {
        if i >= self.len {
            return None;
        }
        Some(get_bit(&self.blocks, i))
    }

    /// Whether no value is true. If there are many blocks, it reads only the summary, each block of which covers as
    /// many blocks as it has bits.
    pub fn none(&self) -> bool
        ensures { IsTrue result ↔ All (λ bit. bit ≡ false) self.now.values }
    {
        are_zero_by_summary(&self.blocks, &self.summary)
    }

    /// How many values are true. Adds up the ones of each block, and skips as many blocks at once as a block has
    /// bits, if they are all zero.
    pub fn count_ones(&self) -> usize
        ensures { result ≡ count_by (λ value. value) self.now.values }
    {
        ones_by_summary(&self.blocks, &self.summary)
    }

    /// The greatest length that needs no further memory: the total width of the blocks that there is capacity for,
    /// or `usize::MAX` if that is less. Constant time.
    #[inline]
    pub fn capacity(&self) -> usize
        ensures value { result ≡ self.now.capacity }
        ensures fits { IsWithinCapacity self.now }
        ensures whole { IsCapacityOfBlocks B.width self.now }
    {
        let stored = self.summary.capacity().saturating_mul(B::bits());
        let count = self.blocks.capacity().min(stored.max(short_limit::<B>()));
        count.saturating_mul(B::bits())
    }

    /// The blocks that store the list. Constant time.
    #[inline]
    pub fn storage(&self) -> &[B]
        ensures numbers { map B.number result.now ≡ blocks_of B.width self.now.values }
        ensures each { All B.is_block result.now }
        ensures fits { IsWithinCapacity self.now }
    {
        &self.blocks
    }

    /// An iterator over these blocks. Constant time.
    #[inline]
    pub fn blocks(&self) -> Blocks<'_, B>
        ensures numbers { map B.number result.left ≡ blocks_of B.width self.now.values }
        ensures each { All B.is_block result.left }
        ensures pulls { result.pulls ≡ 0 }
        ensures fits { IsWithinCapacity self.now }
    {
        Blocks::over(self.storage())
    }

    /// What [`nonzero`](Self::nonzero) leaves after one pull: the nonzero blocks past the first. Constant time, and
    /// allocates nothing.
    #[inline]
    pub fn nonzero_past_first(&self) -> Nonzero<'_, B>
        ensures blocks { map B.number result.blocks ≡ blocks_of B.width self.now.values }
        ensures each { All B.is_block result.blocks }
        ensures start { StartsPast B.width B.number 0 result }
        ensures fits { IsWithinCapacity self.now }
    {
        Nonzero::after(self, 0, Unstored::Each)
    }

    /// An iterator over the nonzero blocks past the one with this index, or past the last one if there are fewer.
    /// Constant time, and allocates nothing: if no summary is stored and the first of these blocks is zero, it
    /// looks at no more blocks than a block has bits.
    ///
    /// ```
    /// // Of 100 values, over blocks of 32 bits, those at 70 and 71 are true.
    /// assert!(bits.nonzero_past(1).eq([(2, 0b1100_0000)]));
    /// ```
    #[inline]
    pub fn nonzero_past(&self, index: usize) -> Nonzero<'_, B>
        ensures blocks { map B.number result.blocks ≡ blocks_of B.width self.now.values }
        ensures each { All B.is_block result.blocks }
        ensures start { StartsPast B.width B.number (min index (length result.blocks - 1)) result }
        ensures fits { IsWithinCapacity self.now }
    {
        let last = self.storage().len().saturating_sub(1);
        Nonzero::after(self, index.min(last), Unstored::NonzeroPastZero)
    }
}
