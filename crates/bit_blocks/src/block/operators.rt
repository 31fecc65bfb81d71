// The operators of a block type, each as a function whose clauses name the digits and the number of the result.
// Generic code calls these, and so cites no law of an operator.
ghost use Rattle.std.specs.{Prelude.{◌≡◌, ◌-◌, ◌*◌, ◌/◌, ◌%◌, ◌^◌, ◌<◌, ◌≤◌, ◌==◌, bit_and, bit_or}, Int.bit_at};
ghost use Rattle.bit_blocks.specs.Digits.{IsBoth, IsEither, IsDifferent, IsComplement, IsShiftedLeft, IsShiftedRight};

use crate::block::BitBlock;

/// The block with a 1 where both have one.
#[inline]
pub fn block_and<B: BitBlock>(a: B, b: B) -> B
    requires left { B.is_block a }
    requires right { B.is_block b }
    ensures of_block { B.is_block result }
    ensures of_digits { IsBoth B.width (B.number a) (B.number b) (B.number result) }
    ensures of_number { B.number result ≡ bit_and (B.number a) (B.number b) }
{
    a & b
}

/// The block with a 1 where either has one.
#[inline]
pub fn block_or<B: BitBlock>(a: B, b: B) -> B
    requires left { B.is_block a }
    requires right { B.is_block b }
    ensures of_block { B.is_block result }
    ensures of_digits { IsEither B.width (B.number a) (B.number b) (B.number result) }
    ensures of_number { B.number result ≡ bit_or (B.number a) (B.number b) }
{
    a | b
}

#[inline]
pub(crate) fn block_xor<B: BitBlock>(a: B, b: B) -> B
    requires left { B.is_block a }
    requires right { B.is_block b }
    ensures of_block { B.is_block result }
    ensures of_digits { IsDifferent B.width (B.number a) (B.number b) (B.number result) }
{
    a ^ b
}

/// The block with a 1 where this one has a 0.
#[inline]
pub fn block_not<B: BitBlock>(a: B) -> B
    requires { B.is_block a }
    ensures of_block { B.is_block result }
    ensures of_digits { IsComplement B.width (B.number a) (B.number result) }
    ensures of_number { B.number result ≡ 2 ^ B.width - 1 - B.number a }
{
    !a
}

#[inline]
pub(crate) fn block_sub<B: BitBlock>(a: B, b: B) -> B
    requires left { B.is_block a }
    requires right { B.is_block b }
    requires not_above { B.number b ≤ B.number a }
    ensures of_block { B.is_block result }
    ensures of_number { B.number result ≡ B.number a - B.number b }
{
    a - b
}

/// The block with its digits moved up by `distance`; those that pass the top are lost.
#[inline]
pub fn shift_left<B: BitBlock>(a: B, distance: usize) -> B
    requires left { B.is_block a }
    requires within { distance < B.width }
    ensures of_block { B.is_block result }
    ensures of_digits { IsShiftedLeft B.width (B.number a) distance (B.number result) }
    ensures of_number { B.number result ≡ B.number a * 2 ^ distance % 2 ^ B.width }
{
    a.shift_left(distance)
}

#[inline]
pub(crate) fn shift_right<B: BitBlock>(a: B, distance: usize) -> B
    requires left { B.is_block a }
    requires within { distance < B.width }
    ensures of_block { B.is_block result }
    ensures of_digits { IsShiftedRight B.width (B.number a) distance (B.number result) }
    ensures of_number { B.number result ≡ B.number a / 2 ^ distance }
{
    a.shift_right(distance)
}

/// Whether two blocks are the same. Constant time.
///
/// ```
/// assert!(same(5u8, 5));
/// ```
#[inline]
pub fn same<B: BitBlock>(a: B, b: B) -> bool
    requires left { B.is_block a }
    requires right { B.is_block b }
    ensures { result ≡ (B.number a == B.number b) }
{
    a == b
}

// The block whose bit at an index is 1, and no other.
#[inline]
#[tactic(auto, using(crate::proofs::Words::one_moved))]
pub(crate) fn one_at<B: BitBlock>(index: usize) -> B
    requires { index < B.width }
    ensures of_block { B.is_block result }
    ensures of_number { B.number result ≡ 2 ^ index }
{
    shift_left(B::one(), index)
}

/// The block whose bits below an index are 1, and no others.
#[inline]
pub fn ones_below<B: BitBlock>(index: usize) -> B
    requires { index < B.width }
    ensures of_block { B.is_block result }
    ensures of_number { B.number result ≡ 2 ^ index - 1 }
{
    block_sub(one_at(index), B::one())
}

/// The block whose bits are all 1.
#[inline]
pub fn all_ones<B: BitBlock>() -> B
    ensures of_block { B.is_block result }
    ensures of_number { B.number result ≡ 2 ^ B.width - 1 }
{
    block_not(B::zero())
}

/// Whether the bit at an index is 1.
#[inline]
pub fn has_one_at<B: BitBlock>(a: B, index: usize) -> bool
    requires of_block { B.is_block a }
    requires within { index < B.width }
    ensures { result ≡ (bit_at (B.number a) index == 1) }
{
    same(block_and(shift_right(a, index), B::one()), B::one())
}
