// Calls that move each value up or down, and the one that copies a range.
ghost use Rattle.std.specs.Prelude.{◌≡◌, ◌<◌, ◌≤◌, ◌++◌, IfOk, drop, false, length, min, replicate, take};
ghost use Rattle.bit_blocks.specs.{Bits.{blocks_for, capacity_of}, Ranges.values_in_range};

use crate::bit_vec::BitVec;
use crate::summary::remaking::remake_summary;
use crate::summary::summary_of;
use bit_blocks::block::BitBlock;
use bit_blocks::packed::access::{block_count, block_index, clear_tail};
use bit_blocks::packed::shifting::{shift_bits_down, shift_bits_up};
use bit_blocks::packed::tail_copies::copy_bits_from;
use std::alloc::{AllocError, Global};
use std::ops::Range;

impl<B: BitBlock> BitVec<B> {
    /// Moves each value up by `distance`. Those that pass the end are lost, and the first `distance` become false.
    /// One pass over the blocks, each computed from two; allocates nothing.
    ///
    /// ```
    /// // Of ten values over blocks of 8 bits, those at 1 and 8 are true.
    /// bits.shift_up(1);
    /// assert_eq!(bits.storage(), [0b100, 0b10].as_slice());
    /// ```
    pub fn shift_up(&mut self, distance: usize)
        ensures values { self.new.values
            ≡ take (length self.old.values) (replicate distance false ++ self.old.values) }
        ensures capacity { self.new.capacity ≡ self.old.capacity }
    {
        self.search_start = 0;
        shift_bits_up(&mut self.blocks, self.len, distance);
        remake_summary(&mut self.summary, &self.blocks);
    }

    /// Moves each value down by `distance`. The first `distance` are lost, and the last `distance` become false.
    /// One pass over the blocks, each computed from two; allocates nothing.
    ///
    /// ```
    /// // Of ten values over blocks of 8 bits, those at 1 and 8 are true.
    /// bits.shift_down(1);
    /// assert_eq!(bits.storage(), [0b1000_0001, 0].as_slice());
    /// ```
    pub fn shift_down(&mut self, distance: usize)
        ensures values { self.new.values
            ≡ drop distance self.old.values ++ replicate (min distance (length self.old.values)) false }
        ensures capacity { self.new.capacity ≡ self.old.capacity }
    {
        self.search_start = 0;
        shift_bits_down(&mut self.blocks, self.len, distance);
        remake_summary(&mut self.summary, &self.blocks);
    }

    /// A bit vector of the values in the range, each at its index; those before the range are false, and the list
    /// ends with the range. The range must not be empty, and must lie within the list. Writes each block once,
    /// those before the range as zeros, and reads those of the range alone. The capacity is that of the blocks. Fails only if
    /// memory runs out.
    ///
    /// ```
    /// // Of ten values over blocks of 8 bits, those at 1, 3 and 8 are true.
    /// let part = bits.clone_range(alloc, 2..9)?;
    /// assert_eq!(part.storage(), [0b1000, 0b1].as_slice());
    /// ```
    pub fn clone_range(&self, alloc: Global, range: Range<usize>) -> Result<Self, AllocError>
        requires some { range.start < range.end }
        requires within { range.end ≤ length self.now.values }
        ensures values { IfOk result (λ vector. vector.values
            ≡ replicate range.start false ++ values_in_range range.start range.end self.now.values) }
        ensures capacity { IfOk result
            (λ vector. vector.capacity ≡ capacity_of B.width (blocks_for B.width range.end)) }
    {
        let count = block_count::<B>(range.end);
        let mut blocks = copy_bits_from(alloc, &self.blocks[..count], range.start)?;
        clear_tail(&mut blocks, range.end);
        let summary = summary_of(alloc, &blocks, block_index::<B>(range.start))?;
        Ok(BitVec {
            blocks,
            summary,
            search_start: 0,
            len: range.end,
        })
    }
}
