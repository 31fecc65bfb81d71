// Calls that make a bit vector.
ghost use Rattle.std.specs.Prelude.{◌≡◌, ◌<◌, ◌≤◌, ◌++◌, [], alloc_error, drop, false, length, replicate, IfOk, IsOk};
ghost use Rattle.bit_blocks.specs.Bits.{blocks_for, capacity_of};
ghost use Rattle.bit_words.specs.declared.bit_vec.constructors.BitsError.TheVariants.{Memory};

use crate::bit_vec::BitVec;
use crate::summary::copies::copy_summary_from;
use crate::summary::uniform_summary;
use bit_blocks::block::BitBlock;
use bit_blocks::packed::access::block_index;
use bit_blocks::packed::copies::copy_of;
use bit_blocks::packed::resizing::repeated_bit;
use bit_blocks::packed::tail_copies::copy_bits_from;
use std::alloc::{AllocError, AllocFailed, Global};
use thiserror::Error;

/// Why bytes could not be made a bit vector.
#[derive(Clone, Copy, Debug, PartialEq, Eq, Error)]
pub enum BitsError {
    /// Eight times the number of bytes is more than `usize::MAX`.
    #[error("too many bits")]
    Length,
    /// Memory for the blocks ran out.
    #[error("memory refused")]
    Memory(AllocError),
}

impl From<AllocError> for BitsError {
    ghost from_gives = { λ fault e. e ≡ Memory fault };

    fn from(fault: AllocError) -> BitsError {
        BitsError::Memory(fault)
    }
}

// So that `?` serves a push to a `Vec` as well.
impl<T: Drop> From<AllocFailed<T>> for BitsError {
    ghost from_gives = { λ _ e. e ≡ Memory alloc_error };

    fn from(_fault: AllocFailed<T>) -> BitsError {
        BitsError::Memory(AllocError)
    }
}

impl BitVec<u32> {
    /// The empty list, over blocks of 32 bits. Allocates nothing.
    pub fn new(alloc: Global) -> Self
        ensures values { result.values ≡ [] }
        ensures capacity { result.capacity ≡ 0 }
    {
        BitVec::new_general(alloc)
    }

    /// A list of `n` values `bit`, over blocks of 32 bits. Writes each block once. The capacity is that of its
    /// blocks. Fails only if memory runs out, and never if `n` is 0.
    pub fn from_elem(alloc: Global, n: usize, bit: bool) -> Result<Self, AllocError>
        ensures values { IfOk result (λ vector. vector.values ≡ replicate n bit) }
        ensures holds_values { IfOk result (λ vector. n ≤ vector.capacity) }
        ensures capacity { IfOk result (λ vector. vector.capacity ≡ capacity_of 32 (blocks_for 32 n)) }
        ensures empty { n ≡ 0 → IsOk result }
    {
        BitVec::from_elem_general(alloc, n, bit)
    }
}

impl<B: BitBlock> BitVec<B> {
    /// The empty list. Allocates nothing.
    pub fn new_general(alloc: Global) -> Self
        ensures values { result.values ≡ [] }
        ensures capacity { result.capacity ≡ 0 }
    {
        BitVec {
            blocks: Vec::new(alloc),
            summary: Vec::new(alloc),
            search_start: 0,
            len: 0,
        }
    }

    /// A list of `n` values `bit`. Writes each block once. The capacity is that of its blocks. Fails only if memory
    /// runs out, and never if `n` is 0.
    pub fn from_elem_general(alloc: Global, n: usize, bit: bool) -> Result<Self, AllocError>
        ensures values { IfOk result (λ vector. vector.values ≡ replicate n bit) }
        ensures holds_values { IfOk result (λ vector. n ≤ vector.capacity) }
        ensures capacity { IfOk result (λ vector. vector.capacity ≡ capacity_of B.width (blocks_for B.width n)) }
        ensures empty { n ≡ 0 → IsOk result }
    {
        let blocks = repeated_bit(alloc, n, bit)?;
        let summary = uniform_summary(alloc, &blocks, bit)?;
        Ok(BitVec {
            blocks,
            summary,
            search_start: 0,
            len: n,
        })
    }

    /// A bit vector of the same list. Copies each block once. Its capacity is that of its blocks. Fails only if
    /// memory runs out, and never for an empty list.
    pub fn clone(&self, alloc: Global) -> Result<Self, AllocError>
        ensures values { IfOk result (λ vector. vector.values ≡ self.now.values) }
        ensures capacity { IfOk result
            (λ vector. vector.capacity ≡ capacity_of B.width (blocks_for B.width (length self.now.values))) }
        ensures empty { length self.now.values ≡ 0 → IsOk result }
    {
        let blocks = copy_of(alloc, &self.blocks)?;
        let summary = copy_of(alloc, &self.summary)?;
        Ok(BitVec {
            blocks,
            summary,
            search_start: self.search_start,
            len: self.len,
        })
    }

    /// A bit vector of the same length, with the same values from `at` on and false values before it; `at` must be
    /// below the length. Writes each block once, those before that of `at` as zeros. Its capacity is that of its
    /// blocks. Fails only if memory runs out.
    pub fn clone_tail(&self, alloc: Global, at: usize) -> Result<Self, AllocError>
        requires { at < length self.now.values }
        ensures values { IfOk result (λ vector. vector.values ≡ replicate at false ++ drop at self.now.values) }
        ensures capacity { IfOk result
            (λ vector. vector.capacity ≡ capacity_of B.width (blocks_for B.width (length self.now.values))) }
    {
        let blocks = copy_bits_from(alloc, &self.blocks, at)?;
        let summary = copy_summary_from(alloc, &self.summary, &blocks, block_index::<B>(at))?;
        Ok(BitVec {
            blocks,
            summary,
            search_start: 0,
            len: self.len,
        })
    }
}
