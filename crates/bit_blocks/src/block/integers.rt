// The unsigned integers as blocks: a value is its own number. No other type is a block here. The six impls differ in
// the type and its width alone. They are written out, since the merge gate takes no impl that a macro of the
// repository writes.
// The highest 1 is found by flipping the digits of the count of leading zeros: of a difference LLVM makes a shift of the
// sign bit, where the 1 is cleared too, and of this the one instruction that clears a bit.
#![tactic(auto, using(crate::specs::DigitLaws::shifted_left, crate::specs::DigitLaws::shifted_right, crate::proofs::HighestLemmas::highest_ones))]

ghost use Rattle.std.{specs.Prelude.{◌^◌, ◌<◌, refl}, proofs.Common.lit<};
ghost use Rattle.bit_blocks.specs.DigitLaws.{both, either, different, complement, added, subtracted, compared};

use crate::block::BitBlock;

impl BitBlock for u8 {
    ghost width = { 8 };

    ghost number = { λ a. a };

    ghost block = { λ m. m };

    ghost is_block = { λ a. a < 2 ^ 8 };

    #[inline]
    fn bits() -> usize {
        u8::BITS as usize
    }

    #[inline]
    fn count_ones(self) -> usize {
        u8::count_ones(self) as usize
    }

    #[inline]
    fn from_byte(byte: u8) -> u8 {
        byte
    }

    #[inline]
    fn shift_left(self, distance: usize) -> u8 {
        self << distance as u8
    }

    #[inline]
    fn shift_right(self, distance: usize) -> u8 {
        self >> distance as u8
    }

    #[inline]
    fn highest_one(self) -> usize {
        (self.leading_zeros() ^ (u8::BITS - 1)) as usize
    }

    ghost width_law = { record { positive = lit< tt; whole_bytes = refl; fits = lit< tt } };

    ghost number_law = { λ a is. (is, refl) };

    ghost block_law = { λ m fits. (fits, refl) };

    ghost eq_law = { compared 8 };

    ghost can_and = { λ _ _ _ _. tt };

    ghost and_law = { both 8 };

    ghost can_or = { λ _ _ _ _. tt };

    ghost or_law = { either 8 };

    ghost can_xor = { λ _ _ _ _. tt };

    ghost xor_law = { different 8 };

    ghost can_complement = { λ _ _. tt };

    ghost not_law = { complement 8 };

    ghost can_sum = { λ _ _ _ _ fits. fits };

    ghost add_law = { added 8 };

    ghost can_subtract = { λ _ _ _ _ below. below };

    ghost sub_law = { subtracted 8 };
}

impl BitBlock for u16 {
    ghost width = { 16 };

    ghost number = { λ a. a };

    ghost block = { λ m. m };

    ghost is_block = { λ a. a < 2 ^ 16 };

    #[inline]
    fn bits() -> usize {
        u16::BITS as usize
    }

    #[inline]
    fn count_ones(self) -> usize {
        u16::count_ones(self) as usize
    }

    #[inline]
    fn from_byte(byte: u8) -> u16 {
        byte as u16
    }

    #[inline]
    fn shift_left(self, distance: usize) -> u16 {
        self << distance as u16
    }

    #[inline]
    fn shift_right(self, distance: usize) -> u16 {
        self >> distance as u16
    }

    #[inline]
    fn highest_one(self) -> usize {
        (self.leading_zeros() ^ (u16::BITS - 1)) as usize
    }

    ghost width_law = { record { positive = lit< tt; whole_bytes = refl; fits = lit< tt } };

    ghost number_law = { λ a is. (is, refl) };

    ghost block_law = { λ m fits. (fits, refl) };

    ghost eq_law = { compared 16 };

    ghost can_and = { λ _ _ _ _. tt };

    ghost and_law = { both 16 };

    ghost can_or = { λ _ _ _ _. tt };

    ghost or_law = { either 16 };

    ghost can_xor = { λ _ _ _ _. tt };

    ghost xor_law = { different 16 };

    ghost can_complement = { λ _ _. tt };

    ghost not_law = { complement 16 };

    ghost can_sum = { λ _ _ _ _ fits. fits };

    ghost add_law = { added 16 };

    ghost can_subtract = { λ _ _ _ _ below. below };

    ghost sub_law = { subtracted 16 };
}

impl BitBlock for u32 {
    ghost width = { 32 };

    ghost number = { λ a. a };

    ghost block = { λ m. m };

    ghost is_block = { λ a. a < 2 ^ 32 };

    #[inline]
    fn bits() -> usize {
        u32::BITS as usize
    }

    #[inline]
    fn count_ones(self) -> usize {
        u32::count_ones(self) as usize
    }

    #[inline]
    fn from_byte(byte: u8) -> u32 {
        byte as u32
    }

    #[inline]
    fn shift_left(self, distance: usize) -> u32 {
        self << distance as u32
    }

    #[inline]
    fn shift_right(self, distance: usize) -> u32 {
        self >> distance as u32
    }

    #[inline]
    fn highest_one(self) -> usize {
        (self.leading_zeros() ^ (u32::BITS - 1)) as usize
    }

    ghost width_law = { record { positive = lit< tt; whole_bytes = refl; fits = lit< tt } };

    ghost number_law = { λ a is. (is, refl) };

    ghost block_law = { λ m fits. (fits, refl) };

    ghost eq_law = { compared 32 };

    ghost can_and = { λ _ _ _ _. tt };

    ghost and_law = { both 32 };

    ghost can_or = { λ _ _ _ _. tt };

    ghost or_law = { either 32 };

    ghost can_xor = { λ _ _ _ _. tt };

    ghost xor_law = { different 32 };

    ghost can_complement = { λ _ _. tt };

    ghost not_law = { complement 32 };

    ghost can_sum = { λ _ _ _ _ fits. fits };

    ghost add_law = { added 32 };

    ghost can_subtract = { λ _ _ _ _ below. below };

    ghost sub_law = { subtracted 32 };
}

impl BitBlock for u64 {
    ghost width = { 64 };

    ghost number = { λ a. a };

    ghost block = { λ m. m };

    ghost is_block = { λ a. a < 2 ^ 64 };

    #[inline]
    fn bits() -> usize {
        u64::BITS as usize
    }

    #[inline]
    fn count_ones(self) -> usize {
        u64::count_ones(self) as usize
    }

    #[inline]
    fn from_byte(byte: u8) -> u64 {
        byte as u64
    }

    #[inline]
    fn shift_left(self, distance: usize) -> u64 {
        self << distance as u64
    }

    #[inline]
    fn shift_right(self, distance: usize) -> u64 {
        self >> distance as u64
    }

    #[inline]
    fn highest_one(self) -> usize {
        (self.leading_zeros() ^ (u64::BITS - 1)) as usize
    }

    ghost width_law = { record { positive = lit< tt; whole_bytes = refl; fits = lit< tt } };

    ghost number_law = { λ a is. (is, refl) };

    ghost block_law = { λ m fits. (fits, refl) };

    ghost eq_law = { compared 64 };

    ghost can_and = { λ _ _ _ _. tt };

    ghost and_law = { both 64 };

    ghost can_or = { λ _ _ _ _. tt };

    ghost or_law = { either 64 };

    ghost can_xor = { λ _ _ _ _. tt };

    ghost xor_law = { different 64 };

    ghost can_complement = { λ _ _. tt };

    ghost not_law = { complement 64 };

    ghost can_sum = { λ _ _ _ _ fits. fits };

    ghost add_law = { added 64 };

    ghost can_subtract = { λ _ _ _ _ below. below };

    ghost sub_law = { subtracted 64 };
}

impl BitBlock for u128 {
    ghost width = { 128 };

    ghost number = { λ a. a };

    ghost block = { λ m. m };

    ghost is_block = { λ a. a < 2 ^ 128 };

    #[inline]
    fn bits() -> usize {
        u128::BITS as usize
    }

    #[inline]
    fn count_ones(self) -> usize {
        u128::count_ones(self) as usize
    }

    #[inline]
    fn from_byte(byte: u8) -> u128 {
        byte as u128
    }

    #[inline]
    fn shift_left(self, distance: usize) -> u128 {
        self << distance as u128
    }

    #[inline]
    fn shift_right(self, distance: usize) -> u128 {
        self >> distance as u128
    }

    #[inline]
    fn highest_one(self) -> usize {
        (self.leading_zeros() ^ (u128::BITS - 1)) as usize
    }

    ghost width_law = { record { positive = lit< tt; whole_bytes = refl; fits = lit< tt } };

    ghost number_law = { λ a is. (is, refl) };

    ghost block_law = { λ m fits. (fits, refl) };

    ghost eq_law = { compared 128 };

    ghost can_and = { λ _ _ _ _. tt };

    ghost and_law = { both 128 };

    ghost can_or = { λ _ _ _ _. tt };

    ghost or_law = { either 128 };

    ghost can_xor = { λ _ _ _ _. tt };

    ghost xor_law = { different 128 };

    ghost can_complement = { λ _ _. tt };

    ghost not_law = { complement 128 };

    ghost can_sum = { λ _ _ _ _ fits. fits };

    ghost add_law = { added 128 };

    ghost can_subtract = { λ _ _ _ _ below. below };

    ghost sub_law = { subtracted 128 };
}

impl BitBlock for usize {
    ghost width = { 64 };

    ghost number = { λ a. a };

    ghost block = { λ m. m };

    ghost is_block = { λ a. a < 2 ^ 64 };

    #[inline]
    fn bits() -> usize {
        usize::BITS as usize
    }

    #[inline]
    fn count_ones(self) -> usize {
        usize::count_ones(self) as usize
    }

    #[inline]
    fn from_byte(byte: u8) -> usize {
        byte as usize
    }

    #[inline]
    fn shift_left(self, distance: usize) -> usize {
        self << distance
    }

    #[inline]
    fn shift_right(self, distance: usize) -> usize {
        self >> distance
    }

    #[inline]
    fn highest_one(self) -> usize {
        (self.leading_zeros() ^ (usize::BITS - 1)) as usize
    }

    ghost width_law = { record { positive = lit< tt; whole_bytes = refl; fits = lit< tt } };

    ghost number_law = { λ a is. (is, refl) };

    ghost block_law = { λ m fits. (fits, refl) };

    ghost eq_law = { compared 64 };

    ghost can_and = { λ _ _ _ _. tt };

    ghost and_law = { both 64 };

    ghost can_or = { λ _ _ _ _. tt };

    ghost or_law = { either 64 };

    ghost can_xor = { λ _ _ _ _. tt };

    ghost xor_law = { different 64 };

    ghost can_complement = { λ _ _. tt };

    ghost not_law = { complement 64 };

    ghost can_sum = { λ _ _ _ _ fits. fits };

    ghost add_law = { added 64 };

    ghost can_subtract = { λ _ _ _ _ below. below };

    ghost sub_law = { subtracted 64 };
}
