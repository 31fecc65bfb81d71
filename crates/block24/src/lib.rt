//! A block of 24 bits over a `u32`: a lawful block whose width is not a power of two, and less than that of the
//! type below it. Only for tests.
#![tactic(auto)]

ghost use Rattle.std.specs.Prelude.{◌≡◌, ◌+◌, ◌-◌, ◌^◌, ◌<◌, ◌≤◌, refl, bit_and, bit_or, bit_xor};
ghost use Rattle.std.proofs.Common.{lit<};
ghost use Rattle.bit_blocks.specs.DigitLaws.{both, either, different, complement, added, subtracted, compared};

use bit_words::bit_vec::BitBlock;
use std::ops::{Add, BitAnd, BitOr, BitXor, Not, Sub};

/// A block of 24 bits, the lowest ones of its `u32`. The others are 0.
#[derive(Clone, Copy, PartialEq, Eq, Debug)]
pub struct Block24(pub u32);

const MASK: u32 = 0xff_ffff;

impl BitAnd for Block24 {
    type Output = Block24;

    ghost bitand_gives = { λ a b r. r.0 ≡ bit_and a.0 b.0 };

    fn bitand(self, rhs: Block24) -> Block24 {
        Block24(self.0 & rhs.0)
    }
}

impl BitOr for Block24 {
    type Output = Block24;

    ghost bitor_gives = { λ a b r. r.0 ≡ bit_or a.0 b.0 };

    fn bitor(self, rhs: Block24) -> Block24 {
        Block24(self.0 | rhs.0)
    }
}

impl BitXor for Block24 {
    type Output = Block24;

    ghost bitxor_gives = { λ a b r. r.0 ≡ bit_xor a.0 b.0 };

    fn bitxor(self, rhs: Block24) -> Block24 {
        Block24(self.0 ^ rhs.0)
    }
}

impl Not for Block24 {
    type Output = Block24;

    ghost can_not = { λ a. a.0 < 2 ^ 24 };

    ghost not_gives = { λ a r. r.0 ≡ 2 ^ 24 - 1 - a.0 };

    fn not(self) -> Block24 {
        Block24(MASK - self.0)
    }
}

impl Add for Block24 {
    type Output = Block24;

    ghost can_add = { λ a b. a.0 + b.0 < 2 ^ 24 };

    ghost add_gives = { λ a b r. r.0 ≡ a.0 + b.0 };

    fn add(self, rhs: Block24) -> Block24 {
        Block24(self.0 + rhs.0)
    }
}

impl Sub for Block24 {
    type Output = Block24;

    ghost can_sub = { λ a b. b.0 ≤ a.0 };

    ghost sub_gives = { λ a b r. r.0 ≡ a.0 - b.0 };

    fn sub(self, rhs: Block24) -> Block24 {
        Block24(self.0 - rhs.0)
    }
}

impl BitBlock for Block24 {
    ghost width = { 24 };

    ghost number = { λ a. a.0 };

    ghost block = { λ m. record { 0 = m } };

    ghost is_block = { λ a. a.0 < 2 ^ 24 };

    fn bits() -> usize {
        24
    }

    fn zero() -> Block24 {
        Block24(0)
    }

    fn one() -> Block24 {
        Block24(1)
    }

    fn count_ones(self) -> usize {
        self.0.count_ones() as usize
    }

    fn from_byte(byte: u8) -> Block24 {
        Block24(byte as u32)
    }

    fn shift_left(self, distance: usize) -> Block24 {
        Block24((self.0 << distance as u32) & MASK)
    }

    #[tactic(auto, using(bit_blocks::specs::DigitLaws::shifted_right))]
    fn shift_right(self, distance: usize) -> Block24 {
        Block24(self.0 >> distance as u32)
    }

    ghost width_law = { record { positive = lit< tt; whole_bytes = refl; fits = lit< tt } };

    ghost number_law = { λ a is. (is, refl) };

    ghost block_law = { λ m fits. (fits, refl) };

    ghost eq_law = { λ a b. compared 24 a.0 b.0 };

    ghost can_and = { λ _ _ _ _. tt };

    ghost and_law = { λ a b r. both 24 a.0 b.0 r.0 };

    ghost can_or = { λ _ _ _ _. tt };

    ghost or_law = { λ a b r. either 24 a.0 b.0 r.0 };

    ghost can_xor = { λ _ _ _ _. tt };

    ghost xor_law = { λ a b r. different 24 a.0 b.0 r.0 };

    ghost can_complement = { λ _ fits. fits };

    ghost not_law = { λ a r. complement 24 a.0 r.0 };

    ghost can_sum = { λ _ _ _ _ fits. fits };

    ghost add_law = { λ a b r. added 24 a.0 b.0 r.0 };

    ghost can_subtract = { λ _ _ _ _ below. below };

    ghost sub_law = { λ a b r. subtracted 24 a.0 b.0 r.0 };
}
