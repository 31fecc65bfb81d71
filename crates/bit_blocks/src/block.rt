//! What a block type must provide. The types themselves, and what is computed from one or two blocks, are in the
//! folder; nothing here deals with lists.
ghost use Rattle.std.specs.{Prelude.{◌≡◌, ℕ, ◌+◌, ◌^◌, ◌<◌, ◌≤◌, ◌↔◌, true}, Int.RustNames.count_ones};
ghost use Rattle.bit_blocks.specs.{Digits.{IsWidth, IsBoth, IsEither, IsDifferent, IsComplement, IsShiftedLeft, IsShiftedRight}, Highest.IsHighest};

use std::ops::{Add, BitAnd, BitOr, BitXor, Not, Sub};

pub mod highest;
pub mod integers;
pub mod lowest;
pub mod masks;
pub mod merge;
pub mod operation;
pub mod operators;

/// A block of bits: a value that represents a whole number below `2 ^ bits()`.
///
/// The laws below the functions speak only of block values, those with `is_block`. Block values and the numbers
/// below `2 ^ bits()` correspond one to one, and `==` holds exactly for equal numbers. `&`, `|`, `^` and `!` act
/// digit by digit; `+` and `-` are those of numbers if the result is that of a block. The width need not be a power
/// of two.
pub trait BitBlock: Copy
    + Eq
    + BitAnd<Output = Self>
    + BitOr<Output = Self>
    + BitXor<Output = Self>
    + Not<Output = Self>
    + Add<Output = Self>
    + Sub<Output = Self> {
    // How many digits a block has.
    ghost width: { ℕ };

    // The number that a value represents.
    ghost number: { Self → ℕ };

    // The block value that represents a number.
    ghost block: { ℕ → Self };

    // Whether a value is a block value.
    ghost is_block: { Self → Type 0 };

    /// How many bits a block has: a positive multiple of 8.
    fn bits() -> usize
        ensures { result ≡ width };

    /// The block whose bits are all 0.
    #[inline]
    fn zero() -> Self
        ensures of_block { is_block result }
        ensures of_number { number result ≡ 0 }
    {
        Self::from_byte(0)
    }

    /// The block in which only the lowest bit is 1.
    #[inline]
    fn one() -> Self
        ensures of_block { is_block result }
        ensures of_number { number result ≡ 1 }
    {
        Self::from_byte(1)
    }

    /// How many bits are 1.
    fn count_ones(self) -> usize
        requires { is_block self }
        ensures { result ≡ count_ones (number self) };

    /// The block whose lowest eight bits are those of the byte.
    fn from_byte(byte: u8) -> Self
        ensures of_block { is_block result }
        ensures of_number { number result ≡ byte };

    /// The bits moved up by `distance`, which must be below `bits()`. Those that pass the top are dropped, and
    /// zeros enter at the bottom.
    fn shift_left(self, distance: usize) -> Self
        requires of_block { is_block self }
        requires within { distance < width }
        ensures of_block { is_block result }
        ensures of_digits { IsShiftedLeft width (number self) distance (number result) };

    /// The bits moved down by `distance`, which must be below `bits()`. Those that pass the bottom are dropped, and
    /// zeros enter at the top.
    fn shift_right(self, distance: usize) -> Self
        requires of_block { is_block self }
        requires within { distance < width }
        ensures of_block { is_block result }
        ensures of_digits { IsShiftedRight width (number self) distance (number result) };

    /// The index of the highest 1 of a nonzero block. Sets the digits below it to 1, in as many steps as the width
    /// has binary digits, and counts them. A type for which the processor finds it in one step overrides this.
    #[inline]
    fn highest_one(self) -> usize
        requires of_block { is_block self }
        requires not_zero { 0 < number self }
        ensures within { result < width }
        ensures highest { IsHighest (number self) result }
    {
        let mut filled = self;
        let mut distance = 1usize;
        while distance < Self::bits() {
            filled = filled | filled.shift_right(distance);
            distance = distance.saturating_add(distance);
        }
        filled.count_ones() - 1
    }

    ghost width_law: { IsWidth width };

    ghost number_law: { (a : Self) → is_block a → (number a < 2 ^ width) × (block (number a) ≡ a) };

    ghost block_law: { (m : ℕ) → m < 2 ^ width → is_block (block m) × (number (block m) ≡ m) };

    ghost eq_law: { (a b : Self) → is_block a → is_block b → (Self.Eq.eq a b ≡ true) ↔ (number a ≡ number b) };

    ghost can_and: { (a b : Self) → is_block a → is_block b → Self.can_bitand a b };

    ghost and_law: { (a b r : Self) → is_block a → is_block b → Self.bitand_gives a b r
        → is_block r × IsBoth width (number a) (number b) (number r) };

    ghost can_or: { (a b : Self) → is_block a → is_block b → Self.can_bitor a b };

    ghost or_law: { (a b r : Self) → is_block a → is_block b → Self.bitor_gives a b r
        → is_block r × IsEither width (number a) (number b) (number r) };

    ghost can_xor: { (a b : Self) → is_block a → is_block b → Self.can_bitxor a b };

    ghost xor_law: { (a b r : Self) → is_block a → is_block b → Self.bitxor_gives a b r
        → is_block r × IsDifferent width (number a) (number b) (number r) };

    ghost can_complement: { (a : Self) → is_block a → Self.can_not a };

    ghost not_law: { (a r : Self) → is_block a → Self.not_gives a r
        → is_block r × IsComplement width (number a) (number r) };

    ghost can_sum: { (a b : Self) → is_block a → is_block b → number a + number b < 2 ^ width → Self.can_add a b };

    ghost add_law: { (a b r : Self) → is_block a → is_block b → number a + number b < 2 ^ width → Self.add_gives a b r
        → is_block r × (number r ≡ number a + number b) };

    ghost can_subtract: { (a b : Self) → is_block a → is_block b → number b ≤ number a → Self.can_sub a b };

    ghost sub_law: { (a b r : Self) → is_block a → is_block b → number b ≤ number a → Self.sub_gives a b r
        → is_block r × (number r + number b ≡ number a) };
}
