// Calls on one block of a list.
ghost use Rattle.std.specs.Prelude.{◌≡◌, ℕ, ◌+◌, ◌*◌, ◌<◌, ◌≤◌, ◌&&◌, false, get_or, length, nat_lt, not};
ghost use Rattle.bit_blocks.specs.Digits.{is_one};
ghost use Rattle.bit_words.specs.Kept.{KeepsInBlock};

use crate::bit_vec::BitVec;
use crate::summary::{is_short, update_summary_at};
use bit_blocks::block::BitBlock;
use bit_blocks::block::masks::with_zeros_from;
use bit_blocks::block::operators::{block_and, block_not};
use bit_blocks::packed::access::{block_at, put_block};
use bit_blocks::packed::nonzero::block_or_zero;

impl<B: BitBlock> BitVec<B> {
    /// Which values of block `k` are false, as a block: a 1 at each index below `end` whose value is not true. Past
    /// the list no value is true. Constant time.
    ///
    /// ```
    /// // Of ten values over blocks of 8 bits, those at 1 and 8 are true.
    /// assert_eq!(bits.zeros_in_block(0, 5), 0b1_1101);
    /// assert_eq!(bits.zeros_in_block(1, 12), 0b1110);
    /// ```
    #[inline]
    pub fn zeros_in_block(&self, k: usize, end: usize) -> B
        requires { k * B.width ≤ end }
        ensures of_block { B.is_block result }
        ensures digits { (j : ℕ) → j < B.width → is_one (B.number result) j
            ≡ (nat_lt (k * B.width + j) end && not (get_or self.now.values (k * B.width + j) false)) }
    {
        let zeros = block_not(block_or_zero(self.storage(), k));
        let below = end - k * B::bits();
        if below >= B::bits() {
            return zeros;
        }
        with_zeros_from(zeros, below)
    }

    /// Sets the values of block `k` to false where `kept` has a 0. Constant time: one write of one block, and of
    /// one of the summary.
    ///
    /// ```
    /// // Of ten values over blocks of 8 bits, those at 1, 2 and 8 are true.
    /// bits.keep_in_block(0, 0b100);
    /// assert_eq!(bits.storage(), [0b100, 0b1].as_slice());
    /// ```
    #[inline]
    pub fn keep_in_block(&mut self, k: usize, kept: B)
        requires within { k * B.width < length self.old.values }
        requires of_block { B.is_block kept }
        ensures values { KeepsInBlock B.width k (B.number kept) self.old.values self.new.values }
        ensures capacity { self.new.capacity ≡ self.old.capacity }
    {
        let block = block_and(block_at(&self.blocks, k), kept);
        put_block(&mut self.blocks, k, block);
        if is_short::<B>(self.blocks.len()) {
            return;
        }
        update_summary_at(&mut self.summary, &self.blocks, k);
    }
}
