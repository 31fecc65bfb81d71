// Calls that change the list in place.
ghost use Rattle.std.specs.Prelude.{◌≡◌, ◌+◌, ◌<◌, ◌≤◌, [], ◌++◌, length, max, replicate, slice_get, slice_set, take, Some, OnOk};
ghost use Rattle.bit_blocks.specs.Bits.{blocks_for, capacity_of};
ghost use Rattle.bit_words.specs.Growth.{Grows};

use crate::bit_vec::BitVec;
use crate::summary::clearing::fill_both;
use crate::summary::copies::copy_both;
use crate::summary::shared_capacity::reserve_shared;
use crate::summary::{
    append_to_summary, cut_summary, follow_one, is_short, start_after_growth, store_summary,
    update_summary_bit,
};
use bit_blocks::block::BitBlock;
use bit_blocks::packed::access::{block_at, block_count, block_index, exchange_bit, replace_bit};
use bit_blocks::packed::resizing::{append_bits, truncate_bits};
use std::alloc::AllocError;

impl<B: BitBlock> BitVec<B> {
    /// Sets the value at `i` to `bit`; `i` must be below [`len`](Self::len). Constant time.
    #[inline]
    pub fn set(&mut self, i: usize, bit: bool)
        requires { i < length self.old.values }
        ensures values { self.new.values ≡ slice_set self.old.values i bit }
        ensures capacity { self.new.capacity ≡ self.old.capacity }
    {
        let _was = self.replace(i, bit);
    }

    /// Sets the value at `i` to `bit`, and returns what it was; `i` must be below [`len`](Self::len). Constant
    /// time: one read and one write of one block and of one of the summary, whatever they hold.
    #[inline]
    pub fn replace(&mut self, i: usize, bit: bool) -> bool
        requires { i < length self.old.values }
        ensures was { slice_get self.old.values i ≡ Some result }
        ensures values { self.new.values ≡ slice_set self.old.values i bit }
        ensures capacity { self.new.capacity ≡ self.old.capacity }
    {
        if is_short::<B>(self.blocks.len()) {
            return replace_bit(&mut self.blocks, i, bit);
        }
        let k = block_index::<B>(i);
        let chunk = block_index::<B>(k);
        // Read before the block is written, so that a bit of it is set in a register and not in memory.
        let current = block_at(&self.summary, chunk);
        let (was, block) = exchange_bit(&mut self.blocks, i, bit);
        update_summary_bit(&mut self.summary, current, k, block, bit);
        follow_one(&mut self.search_start, chunk, bit);
        was
    }

    /// Sets every value to `bit`. Writes each block once; if `bit` is false and there are many blocks, it may skip
    /// those that are zero.
    pub fn fill(&mut self, bit: bool)
        ensures values { self.new.values ≡ replicate (length self.old.values) bit }
        ensures capacity { self.new.capacity ≡ self.old.capacity }
    {
        self.search_start = 0;
        fill_both(&mut self.blocks, &mut self.summary, self.len, bit);
    }

    /// Keeps the first `n` values, or all if there are no more. Writes at most one block, and one of the summary.
    /// Constant time, once the compiler has removed std's loop over the dropped blocks.
    pub fn truncate(&mut self, n: usize)
        ensures values { self.new.values ≡ take n self.old.values }
        ensures capacity { self.new.capacity ≡ self.old.capacity }
    {
        if n >= self.len {
            return;
        }
        let count = self.blocks.len();
        truncate_bits(&mut self.blocks, self.len, n);
        cut_summary(&mut self.summary, &self.blocks, count);
        self.len = n;
    }

    /// Makes the list empty. Constant time, as [`truncate`](Self::truncate).
    #[inline]
    pub fn remove_all(&mut self)
        ensures values { self.new.values ≡ [] }
        ensures capacity { self.new.capacity ≡ self.old.capacity }
    {
        self.blocks.clear();
        self.summary.clear();
        self.len = 0;
    }

    /// Appends `n` values `bit`; the new length must fit a `usize`. Writes each new block once, and the old last
    /// one if ones are added to it. Within the capacity it allocates nothing; past it, it moves the old blocks.
    /// Fails only then; the list and the capacity are unchanged, though part of the memory may be kept.
    pub fn grow(&mut self, n: usize, bit: bool) -> Result<(), AllocError>
        requires { length self.old.values + n ≤ usize.MAX }
        ensures ok { OnOk result (self.new.values ≡ self.old.values ++ replicate n bit) }
        ensures grows { Grows (length self.old.values + n) result self.old self.new }
    {
        let len = self.len + n;
        if !bit && block_count::<B>(len) == self.blocks.len() {
            self.len = len;
            return Ok(());
        }
        self.grow_blocks(n, bit)
    }

    // `grow` where a block is written. It is a separate function, so that a list that grows by a value at a time,
    // past the last block once in its width, saves no registers for what is rare.
    #[inline(never)]
    fn grow_blocks(&mut self, n: usize, bit: bool) -> Result<(), AllocError>
        requires { length self.old.values + n ≤ usize.MAX }
        ensures ok { OnOk result (self.new.values ≡ self.old.values ++ replicate n bit) }
        ensures grows { Grows (length self.old.values + n) result self.old self.new }
    {
        let len = self.len + n;
        let count = block_count::<B>(len);
        reserve_shared(&mut self.blocks, &mut self.summary, count, false)?;
        store_summary(&mut self.summary, &self.blocks, count);
        let old = self.blocks.len();
        append_bits(&mut self.blocks, self.len, len, bit);
        append_to_summary(&mut self.summary, &self.blocks, old, bit);
        self.search_start = start_after_growth::<B>(self.search_start, old, bit);
        self.len = len;
        Ok(())
    }

    /// Becomes equal to `other`, in one pass over its blocks; if both lists have equally many blocks, and many, it
    /// may skip those that are zero in both. Within the capacity it allocates nothing; past it, it allocates new
    /// blocks, and the capacity becomes that of the blocks of `other`. Fails only then, and changes nothing.
    pub fn clone_from(&mut self, other: &Self) -> Result<(), AllocError>
        ensures ok { OnOk result (self.new.values ≡ other.now.values) }
        ensures grows { Grows (length other.now.values) result self.old self.new }
        ensures exact { OnOk result
            (self.new.capacity
            ≡ max self.old.capacity (capacity_of B.width (blocks_for B.width (length other.now.values)))) }
    {
        copy_both(
            &mut self.blocks,
            &mut self.summary,
            &other.blocks,
            &other.summary,
        )?;
        self.search_start = other.search_start;
        self.len = other.len;
        Ok(())
    }
}
