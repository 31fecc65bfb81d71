// Making the bits that were read.
ghost use Rattle.std.specs.{Prelude.{◌≡◌, ◌≢◌, ◌+◌, ◌^◌, ◌<◌, ℕ, All, IfOk, IsOk, false, get_or, length}, Int.bit_at};
ghost use Rattle.bit_blocks.specs.{Bits.{blocks_for, blocks_of}, Digits.is_one};
ghost use Rattle.bit_set.specs.{Json.HasZeroTail, Entries.{IsEntry, numbers_of}, Sizes.{IsJustOf, KeepsSize}};

use super::JsonBlock;
use super::checking::block_of;
use crate::BitBlock;
use crate::bit_vec::{BitVec, take_lowest_one};
use serde_json::Value;
use std::alloc::{AllocError, Global};

// The bits of this length whose blocks have the numbers of the entries.
pub(super) fn bits_of_entries<B: JsonBlock>(
    alloc: Global,
    entries: &[Value],
    len: usize,
) -> Result<BitVec<B>, AllocError>
    requires each { All (IsEntry B.width) entries.now }
    requires count { length entries.now ≡ blocks_for B.width len }
    requires zero_tail { HasZeroTail B.width (numbers_of entries.now) len }
    ensures blocks { IfOk result (λ bits. blocks_of B.width bits.values ≡ numbers_of entries.now) }
    ensures size { IfOk result (λ bits. IsJustOf B.width len bits) }
    ensures empty { len ≡ 0 → IsOk result }
{
    let mut bits = BitVec::from_elem_general(alloc, len, false)?;
    for (k, entry) in entries.iter().enumerate() {
        put_ones(&mut bits, k * B::bits(), block_of(entry));
    }
    Ok(bits)
}

// Sets the values from `index` on, which are false, to the block's bits, in one step for each 1.
fn put_ones<B: BitBlock>(bits: &mut BitVec<B>, index: usize, mut block: B)
    requires of_block { B.is_block block }
    requires counted { length bits.old.values < 2 ^ 64 }
    requires within { (j : ℕ) → j < B.width → bit_at (B.number block) j ≡ 1 → index + j < length bits.old.values }
    requires falses { (j : ℕ) → j < B.width → get_or bits.old.values (index + j) false ≡ false }
    ensures values { (j : ℕ) → j < B.width → get_or bits.new.values (index + j) false ≡ is_one (B.number block) j }
    ensures others { (i : ℕ) → ((j : ℕ) → j < B.width → i ≢ index + j)
        → get_or bits.new.values i false ≡ get_or bits.old.values i false }
    ensures size { KeepsSize bits.old bits.new }
{
    while block != B::zero() {
        let lowest = take_lowest_one(&mut block);
        bits.set(index + lowest, true);
    }
}
