// A set of bytes, and its bytes.
ghost use Rattle.std.specs.{Prelude.{◌≡◌, ℕ, ◌+◌, ◌-◌, ◌*◌, ◌<◌, ◌↔◌, IfOk, IsOk, IsTrue, length, slice_index}, Int.bit_at};
ghost use Rattle.bit_blocks.specs.Bits.{blocks_for, blocks_of, values_of_bytes};
ghost use Rattle.set_algebra.specs.{Members.{HasBitsOf, HasLowBitsOf}, Sets.{elements, has}};
ghost use Rattle.bit_set.specs.{Faults.FailsForBytes, Sizes.IsJustOf};

use crate::bit_vec::BitVec;
use crate::{BitBlock, BitSet, SetError};
use std::alloc::{AllocError, Global};

impl<B: BitBlock> BitSet<B> {
    /// The set of the bits that are 1, those of each byte counted from the highest. One step for each byte. Fails
    /// with [`SetError::Length`] before it allocates, or if memory runs out.
    ///
    /// ```
    /// let set = BitSet::from_bytes(alloc, &[0b0100_1010])?;
    /// assert!(set.iter().eq([1, 4, 6]));
    /// ```
    pub fn from_bytes_general(alloc: Global, bytes: &[u8]) -> Result<Self, SetError>
        ensures values { IfOk result (λ set. set.values ≡ values_of_bytes bytes.now) }
        ensures elements { IfOk result (λ set. (q r : ℕ) → r < 8
            → IsTrue (has (elements set.values) (8 * q + r)) ↔ (bit_at (slice_index bytes.now q) (7 - r) ≡ 1)) }
        ensures members { IfOk result (λ set. HasBitsOf (elements set.values) bytes.now) }
        ensures size { IfOk result (λ set. IsJustOf B.width (8 * length bytes.now) set) }
        ensures fails { FailsForBytes (length bytes.now) result }
    {
        let bits = BitVec::from_bytes_general(alloc, bytes)?;
        Ok(BitSet { bits })
    }

    /// The set as bytes, a bit for each number below the length, the first at the highest bit; the bits of the last
    /// byte past the length are 0. [`BitSet::from_bytes`] makes a set of the same elements from them. Reads each
    /// block once. Fails only if memory runs out, and never for a set of length 0.
    ///
    /// ```
    /// let set = BitSet::from_bytes(alloc, &[0b0100_1010])?;
    /// let bytes = set.to_bytes(alloc)?;
    /// assert_eq!(bytes.as_slice(), [0b0100_1010].as_slice());
    /// ```
    pub fn to_bytes(&self, alloc: Global) -> Result<Vec<u8>, AllocError>
        ensures elements { IfOk result (λ bytes. elements (values_of_bytes bytes.items) ≡ elements self.now.values) }
        ensures members { IfOk result (λ bytes. HasBitsOf (elements self.now.values) bytes.items) }
        ensures len { IfOk result (λ bytes. length bytes.items ≡ blocks_for 8 (length self.now.values)) }
        ensures empty { length self.now.values ≡ 0 → IsOk result }
    {
        self.bits.to_bytes(alloc)
    }

    /// The set of the bits that are 1, those of each byte counted from the lowest: `n` is present if bit `n % 8` of
    /// byte `n / 8`, counted from the lowest, is 1, as in Java's `BitSet.valueOf`, in Arrow and in NumPy's little
    /// order. One step for each byte. Fails as [`BitSet::from_bytes`] does.
    ///
    /// ```
    /// let set = BitSet::from_bytes_lsb(alloc, &[0b0101_0010])?;
    /// assert!(set.iter().eq([1, 4, 6]));
    /// ```
    pub fn from_bytes_lsb_general(alloc: Global, bytes: &[u8]) -> Result<Self, SetError>
        ensures values { IfOk result (λ set. blocks_of 8 set.values ≡ bytes.now) }
        ensures elements { IfOk result (λ set. (q r : ℕ) → r < 8
            → IsTrue (has (elements set.values) (8 * q + r)) ↔ (bit_at (slice_index bytes.now q) r ≡ 1)) }
        ensures members { IfOk result (λ set. HasLowBitsOf (elements set.values) bytes.now) }
        ensures size { IfOk result (λ set. IsJustOf B.width (8 * length bytes.now) set) }
        ensures fails { FailsForBytes (length bytes.now) result }
    {
        let bits = BitVec::from_bytes_lsb_general(alloc, bytes)?;
        Ok(BitSet { bits })
    }

    /// The set as bytes, a bit for each number below the length, the first at the lowest bit; the bits of the last
    /// byte past the length are 0. [`BitSet::from_bytes_lsb`] makes a set of the same elements from them. Reads
    /// each block once. Fails only if memory runs out, and never for a set of length 0.
    ///
    /// ```
    /// let set = BitSet::from_bytes_lsb(alloc, &[0b0101_0010])?;
    /// let bytes = set.to_bytes_lsb(alloc)?;
    /// assert_eq!(bytes.as_slice(), [0b0101_0010].as_slice());
    /// ```
    pub fn to_bytes_lsb(&self, alloc: Global) -> Result<Vec<u8>, AllocError>
        ensures values { IfOk result (λ bytes. bytes.items ≡ blocks_of 8 self.now.values) }
        ensures members { IfOk result (λ bytes. HasLowBitsOf (elements self.now.values) bytes.items) }
        ensures empty { length self.now.values ≡ 0 → IsOk result }
    {
        self.bits.to_bytes_lsb(alloc)
    }
}

impl BitSet<u32> {
    /// [`BitSet::from_bytes_general`] over blocks of 32 bits.
    pub fn from_bytes(alloc: Global, bytes: &[u8]) -> Result<Self, SetError>
        ensures values { IfOk result (λ set. set.values ≡ values_of_bytes bytes.now) }
        ensures elements { IfOk result (λ set. (q r : ℕ) → r < 8
            → IsTrue (has (elements set.values) (8 * q + r)) ↔ (bit_at (slice_index bytes.now q) (7 - r) ≡ 1)) }
        ensures members { IfOk result (λ set. HasBitsOf (elements set.values) bytes.now) }
        ensures size { IfOk result (λ set. IsJustOf 32 (8 * length bytes.now) set) }
        ensures fails { FailsForBytes (length bytes.now) result }
    {
        BitSet::from_bytes_general(alloc, bytes)
    }

    /// [`BitSet::from_bytes_lsb_general`] over blocks of 32 bits.
    pub fn from_bytes_lsb(alloc: Global, bytes: &[u8]) -> Result<Self, SetError>
        ensures values { IfOk result (λ set. blocks_of 8 set.values ≡ bytes.now) }
        ensures elements { IfOk result (λ set. (q r : ℕ) → r < 8
            → IsTrue (has (elements set.values) (8 * q + r)) ↔ (bit_at (slice_index bytes.now q) r ≡ 1)) }
        ensures members { IfOk result (λ set. HasLowBitsOf (elements set.values) bytes.now) }
        ensures size { IfOk result (λ set. IsJustOf 32 (8 * length bytes.now) set) }
        ensures fails { FailsForBytes (length bytes.now) result }
    {
        BitSet::from_bytes_lsb_general(alloc, bytes)
    }
}
