// A bit vector of bytes, and its bytes.
ghost use Rattle.std.specs.Prelude.{◌≡◌, ℕ, ◌-◌, ◌*◌, ◌^◌, ◌<◌, ◌↔◌, ◌++◌, IfOk, IsErrOf, IsOk, false, get_or, length, replicate};
ghost use Rattle.bit_blocks.specs.Bits.{blocks_for, blocks_of, capacity_of, values_of_bytes};

use crate::bit_vec::{BitVec, BitsError};
use crate::summary::summary_of;
use bit_blocks::block::BitBlock;
use bit_blocks::packed::bytes::{blocks_of_bytes, blocks_of_bytes_lsb, bytes_of, bytes_of_lsb};
use std::alloc::{AllocError, Global};

impl BitVec<u32> {
    /// The bits of each byte in turn, from the highest down, over blocks of 32 bits. One step for each byte. The
    /// capacity is that of its blocks.
    ///
    /// Fails with `Length` exactly if there are more values than `usize::MAX`, before it allocates; with `Memory`
    /// only if memory runs out, and never if there are no bytes.
    pub fn from_bytes(alloc: Global, bytes: &[u8]) -> Result<Self, BitsError>
        ensures values { IfOk result (λ vector. vector.values ≡ values_of_bytes bytes.now) }
        ensures capacity { IfOk result (λ vector. vector.capacity
            ≡ capacity_of 32 (blocks_for 32 (8 * length bytes.now))) }
        ensures too_long { IsErrOf result BitsError.Length ↔ (usize.MAX < 8 * length bytes.now) }
        ensures empty { length bytes.now ≡ 0 → IsOk result }
    {
        BitVec::from_bytes_general(alloc, bytes)
    }

    /// The bits of each byte in turn, from the lowest up, over blocks of 32 bits, as [`BitVec::from_bytes_lsb_general`].
    pub fn from_bytes_lsb(alloc: Global, bytes: &[u8]) -> Result<Self, BitsError>
        ensures values { IfOk result (λ vector. blocks_of 8 vector.values ≡ bytes.now) }
        ensures len { IfOk result (λ vector. length vector.values ≡ 8 * length bytes.now) }
        ensures capacity { IfOk result (λ vector. vector.capacity
            ≡ capacity_of 32 (blocks_for 32 (8 * length bytes.now))) }
        ensures too_long { IsErrOf result BitsError.Length ↔ (usize.MAX < 8 * length bytes.now) }
        ensures empty { length bytes.now ≡ 0 → IsOk result }
    {
        BitVec::from_bytes_lsb_general(alloc, bytes)
    }
}

impl<B: BitBlock> BitVec<B> {
    /// The bits of each byte in turn, from the highest down. One step for each byte. The capacity is that of its
    /// blocks.
    ///
    /// Fails with `Length` exactly if there are more values than `usize::MAX`, before it allocates; with `Memory`
    /// only if memory runs out, and never if there are no bytes.
    pub fn from_bytes_general(alloc: Global, bytes: &[u8]) -> Result<Self, BitsError>
        ensures values { IfOk result (λ vector. vector.values ≡ values_of_bytes bytes.now) }
        ensures capacity { IfOk result
            (λ vector. vector.capacity ≡ capacity_of B.width (blocks_for B.width (8 * length bytes.now))) }
        ensures too_long { IsErrOf result BitsError.Length ↔ (usize.MAX < 8 * length bytes.now) }
        ensures empty { length bytes.now ≡ 0 → IsOk result }
    {
        let Some(len) = bytes.len().checked_mul(8) else {
            return Err(BitsError::Length);
        };
        let blocks = blocks_of_bytes(alloc, bytes)?;
        let summary = summary_of(alloc, &blocks, 0)?;
        Ok(BitVec {
            blocks,
            summary,
            search_start: 0,
            len,
        })
    }

    /// The values as bytes, eight each, the first at the highest bit; the bits of the last byte past the list are
    /// 0. So `from_bytes` restores the list from them, followed by false values up to a whole byte. Reads each
    /// block once. Fails only if memory runs out, and never for an empty list.
    ///
    /// ```
    /// // Of 10 values, those at 1 and 9 are true.
    /// let bytes = bits.to_bytes(alloc)?;
    /// assert_eq!(bytes.as_slice(), [64, 64].as_slice());
    /// ```
    pub fn to_bytes(&self, alloc: Global) -> Result<Vec<u8>, AllocError>
        ensures values { IfOk result (λ bytes. values_of_bytes bytes.items
            ≡ self.now.values ++ replicate (8 * length bytes.items - length self.now.values) false) }
        ensures len { IfOk result (λ bytes. length bytes.items ≡ blocks_for 8 (length self.now.values)) }
        ensures empty { length self.now.values ≡ 0 → IsOk result }
    {
        bytes_of(alloc, &self.blocks, self.len)
    }

    /// The bits of each byte in turn, from the lowest up: value `n` is bit `n % 8` of byte `n / 8`, counted from
    /// the lowest, as in Java's `BitSet.valueOf`, in Arrow and in NumPy's little order. One step for each byte. The
    /// capacity is that of the blocks. Fails as [`BitVec::from_bytes_general`] does.
    pub fn from_bytes_lsb_general(alloc: Global, bytes: &[u8]) -> Result<Self, BitsError>
        ensures values { IfOk result (λ vector. blocks_of 8 vector.values ≡ bytes.now) }
        ensures len { IfOk result (λ vector. length vector.values ≡ 8 * length bytes.now) }
        ensures capacity { IfOk result
            (λ vector. vector.capacity ≡ capacity_of B.width (blocks_for B.width (8 * length bytes.now))) }
        ensures too_long { IsErrOf result BitsError.Length ↔ (usize.MAX < 8 * length bytes.now) }
        ensures empty { length bytes.now ≡ 0 → IsOk result }
    {
        let Some(len) = bytes.len().checked_mul(8) else {
            return Err(BitsError::Length);
        };
        let blocks = blocks_of_bytes_lsb(alloc, bytes)?;
        let summary = summary_of(alloc, &blocks, 0)?;
        Ok(BitVec {
            blocks,
            summary,
            search_start: 0,
            len,
        })
    }

    /// The values as bytes, eight each, the first at the lowest bit; the bits of the last byte past the list are 0.
    /// So `from_bytes_lsb` restores the list from them, followed by false values up to a whole byte. Reads each
    /// block once. Fails only if memory runs out, and never for an empty list.
    ///
    /// ```
    /// // Of 10 values, those at 1 and 9 are true.
    /// let bytes = bits.to_bytes_lsb(alloc)?;
    /// assert_eq!(bytes.as_slice(), [2, 2].as_slice());
    /// ```
    pub fn to_bytes_lsb(&self, alloc: Global) -> Result<Vec<u8>, AllocError>
        ensures values { IfOk result (λ bytes. bytes.items ≡ blocks_of 8 self.now.values) }
        ensures empty { length self.now.values ≡ 0 → IsOk result }
    {
        let bytes = bytes_of_lsb(alloc, &self.blocks, self.len)?;
        are_bytes(bytes.as_slice());
        Ok(bytes)
    }
}

// Only for the proof: what the type of a byte says of each.
#[inline(always)]
fn are_bytes(bytes: &[u8])
    ensures { (k : ℕ) → get_or bytes.now k 0 < 2 ^ 8 }
{
    let _count = bytes.len();
}
