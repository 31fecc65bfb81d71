// A block with some of its bits written. Each clause is by digit, as the test that it is 1. Lists of blocks are in
// `packed`.
ghost use Rattle.std.specs.{Prelude.{◌≡◌, ◌≢◌, ℕ, ◌<◌, ◌==◌, ◌&&◌, ◌||◌, false, nat_lt, nat_le}, Int.bit_at};
ghost use Rattle.bit_blocks.specs.Digits.{is_one};

use crate::block::BitBlock;
use crate::block::operators::{block_and, block_not, block_or, one_at, ones_below};

/// The block with its digit at `index` set to `bit`. Constant time.
///
/// ```
/// assert_eq!(with_bit(0b0110u8, 1, false), 0b0100);
/// assert_eq!(with_bit(0b0110u8, 0, true), 0b0111);
/// ```
#[inline]
pub fn with_bit<B: BitBlock>(block: B, index: usize, bit: bool) -> B
    requires of_block { B.is_block block }
    requires within { index < B.width }
    ensures of_block { B.is_block result }
    ensures same { (bit_at (B.number result) index == 1) ≡ bit }
    ensures others { (j : ℕ) → j < B.width → j ≢ index
        → (bit_at (B.number result) j == 1) ≡ (bit_at (B.number block) j == 1) }
{
    let mask = one_at(index);
    if bit {
        block_or(block, mask)
    } else {
        block_and(block, block_not(mask))
    }
}

/// The bit at `index`, which is 0, becomes `bit`: a loop of these becomes vector code.
#[inline]
pub fn with_one_if<B: BitBlock>(block: B, index: usize, bit: bool) -> B
    requires of_block { B.is_block block }
    requires within { index < B.width }
    requires clear { is_one (B.number block) index ≡ false }
    ensures of_block { B.is_block result }
    ensures same { is_one (B.number result) index ≡ bit }
    ensures others { (j : ℕ) → j < B.width → j ≢ index → is_one (B.number result) j ≡ is_one (B.number block) j }
{
    if bit {
        with_bit(block, index, true)
    } else {
        block
    }
}

// The block whose bits from `index` on are 1, and no others.
#[inline]
pub(crate) fn ones_from<B: BitBlock>(index: usize) -> B
    requires { index < B.width }
    ensures of_block { B.is_block result }
    ensures digits { (j : ℕ) → j < B.width → is_one (B.number result) j ≡ nat_le index j }
{
    block_not(ones_below(index))
}

// The bits from `index` on become 1.
#[inline]
#[tactic(auto, using(crate::proofs::Masks::masks))]
pub(crate) fn with_ones_from<B: BitBlock>(block: B, index: usize) -> B
    requires of_block { B.is_block block }
    requires within { index < B.width }
    ensures of_block { B.is_block result }
    ensures digits { (j : ℕ) → j < B.width
        → is_one (B.number result) j ≡ (is_one (B.number block) j || nat_le index j) }
{
    block_or(block, ones_from(index))
}

// The block whose bits from `start` to before `end` are 1, and no others.
#[inline]
pub(crate) fn ones_between<B: BitBlock>(start: usize, end: usize) -> B
    requires from { start < B.width }
    requires to { end < B.width }
    ensures of_block { B.is_block result }
    ensures digits { (j : ℕ) → j < B.width → is_one (B.number result) j ≡ (nat_lt j end && nat_le start j) }
{
    block_and(ones_below(end), ones_from(start))
}

// The bits from `start` to before `end` become 1.
#[inline]
pub(crate) fn with_ones_between<B: BitBlock>(block: B, start: usize, end: usize) -> B
    requires of_block { B.is_block block }
    requires from { start < B.width }
    requires to { end < B.width }
    ensures of_block { B.is_block result }
    ensures digits { (j : ℕ) → j < B.width
        → is_one (B.number result) j ≡ (is_one (B.number block) j || (nat_lt j end && nat_le start j)) }
{
    block_or(block, ones_between(start, end))
}

/// The bits from `index` on become 0; `index` must be below the width. [`clear_from`] takes any index.
#[inline]
#[tactic(auto, using(crate::proofs::Masks::masks))]
pub fn with_zeros_from<B: BitBlock>(block: B, index: usize) -> B
    requires of_block { B.is_block block }
    requires within { index < B.width }
    ensures of_block { B.is_block result }
    ensures digits { (j : ℕ) → j < B.width
        → is_one (B.number result) j ≡ (nat_lt j index && is_one (B.number block) j) }
{
    block_and(block, ones_below(index))
}

/// The bits below `index` become 0; `index` must be below the width. [`clear_below`] takes any index.
#[inline]
#[tactic(auto, using(crate::proofs::Masks::masks))]
pub fn with_zeros_below<B: BitBlock>(block: B, index: usize) -> B
    requires of_block { B.is_block block }
    requires within { index < B.width }
    ensures of_block { B.is_block result }
    ensures digits { (j : ℕ) → j < B.width
        → is_one (B.number result) j ≡ (nat_le index j && is_one (B.number block) j) }
{
    block_and(block, ones_from(index))
}

/// A block with its digits below `index` set to 0: all of them, if it has no others. Constant time: with this an
/// iterator starts inside a block.
///
/// ```
/// assert_eq!(clear_below(0b0111u8, 1), 0b0110);
/// assert_eq!(clear_below(0b0111u8, 8), 0);
/// ```
#[inline]
pub fn clear_below<B: BitBlock>(block: B, index: usize) -> B
    requires { B.is_block block }
    ensures of_block { B.is_block result }
    ensures digits { (j : ℕ) → j < B.width → (bit_at (B.number result) j == 1)
        ≡ (nat_le index j && (bit_at (B.number block) j == 1)) }
{
    if index < B::bits() {
        with_zeros_below(block, index)
    } else {
        B::zero()
    }
}

/// A block with its digits from `index` on set to 0; unchanged, if it has none there. Constant time: with this an
/// iterator ends inside a block.
///
/// ```
/// assert_eq!(clear_from(0b0111u8, 1), 0b0001);
/// assert_eq!(clear_from(0b0111u8, 8), 0b0111);
/// ```
#[inline]
pub fn clear_from<B: BitBlock>(block: B, index: usize) -> B
    requires { B.is_block block }
    ensures of_block { B.is_block result }
    ensures digits { (j : ℕ) → j < B.width → (bit_at (B.number result) j == 1)
        ≡ (nat_lt j index && (bit_at (B.number block) j == 1)) }
{
    if index < B::bits() {
        with_zeros_from(block, index)
    } else {
        block
    }
}
