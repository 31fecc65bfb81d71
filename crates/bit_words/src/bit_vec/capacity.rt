// Calls that change for how many values there is capacity, or how many blocks there are.
ghost use Rattle.std.specs.Prelude.{◌≡◌, ℕ, ◌+◌, ◌<◌, ◌≤◌, ◌↔◌, IsOk, OnErr, OnOk, Some, length, max, slice_get, true};
ghost use Rattle.bit_blocks.specs.Bits.{blocks_for, capacity_of, whole_blocks, IsWithinCapacity};
ghost use Rattle.bit_words.specs.Growth.{Grows};

use crate::bit_vec::BitVec;
use crate::summary::cut_summary;
use crate::summary::queries::used_by_summary;
use crate::summary::shared_capacity::{
    reserve_shared, reserve_shared_exact, shrink_shared_capacity,
};
use bit_blocks::block::BitBlock;
use bit_blocks::packed::access::block_count;
use bit_blocks::packed::resizing::truncate_blocks;
use std::alloc::AllocError;

impl<B: BitBlock> BitVec<B> {
    /// Reserves capacity for `n` more values than there are; the sum must fit a `usize`. If the capacity was less,
    /// it requests at least twice the old one, and may move the blocks. Fails only then; the list and the capacity
    /// are unchanged, though part of the memory may be kept.
    pub fn reserve(&mut self, n: usize) -> Result<(), AllocError>
        requires { length self.old.values + n ≤ usize.MAX }
        ensures values { self.new.values ≡ self.old.values }
        ensures grows { Grows (length self.old.values + n) result self.old self.new }
    {
        let count = block_count::<B>(self.len + n);
        reserve_shared(&mut self.blocks, &mut self.summary, count, false)
    }

    /// Reserves capacity for `n` more values than there are; the sum must fit a `usize`. If the capacity was less,
    /// it becomes that of the blocks for that length, which may move the blocks. Fails only then; the list and the
    /// capacity are unchanged, though part of the memory may be kept.
    pub fn reserve_exact(&mut self, n: usize) -> Result<(), AllocError>
        requires { length self.old.values + n ≤ usize.MAX }
        ensures values { self.new.values ≡ self.old.values }
        ensures grows { Grows (length self.old.values + n) result self.old self.new }
        ensures exact { OnOk result
            (self.new.capacity
            ≡ max self.old.capacity (capacity_of B.width (blocks_for B.width (length self.old.values + n)))) }
    {
        let count = block_count::<B>(self.len + n);
        reserve_shared_exact(&mut self.blocks, &mut self.summary, count)
    }

    /// Gives back the capacity that the blocks of the list do not need; may move them. Fails exactly if the
    /// capacity is still greater than that of these blocks, since there was no memory to move to; the list is
    /// unchanged.
    pub fn shrink_to_fit(&mut self) -> Result<(), AllocError>
        ensures values { self.new.values ≡ self.old.values }
        ensures ok { OnOk result (self.new.capacity ≡ capacity_of B.width
            (blocks_for B.width (length self.old.values))) }
        ensures err { OnErr result (capacity_of B.width (blocks_for B.width (length self.old.values))
            < self.new.capacity) }
        ensures capacity { self.new.capacity ≤ self.old.capacity }
        ensures fits { IsWithinCapacity self.new }
        ensures empty { length self.old.values ≡ 0 → IsOk result }
    {
        shrink_shared_capacity(&mut self.blocks, &mut self.summary);
        if self.capacity() > self.blocks.len().saturating_mul(B::bits()) {
            return Err(AllocError);
        }
        Ok(())
    }

    /// Sets the length to the end of the last nonempty block: the true values stay, and false values may be added.
    /// Does nothing if the list would be longer than `usize::MAX`. Finds that block by the summary, and then among
    /// as many blocks as a block has bits. Allocates nothing.
    pub fn cut_zero_blocks(&mut self)
        ensures true_values { (i : ℕ) → (slice_get self.new.values i ≡ Some true)
            ↔ (slice_get self.old.values i ≡ Some true) }
        ensures len { length self.new.values ≡ whole_blocks B.width self.old.values }
        ensures capacity { self.new.capacity ≡ self.old.capacity }
    {
        let count = used_by_summary(&self.blocks, &self.summary);
        let Some(len) = count.checked_mul(B::bits()) else {
            return;
        };
        let old = self.blocks.len();
        truncate_blocks(&mut self.blocks, count);
        cut_summary(&mut self.summary, &self.blocks, old);
        self.len = len;
    }
}
