// Calls that fill or clear a row, or a part of one.
ghost use Rattle.std.specs.Prelude.{◌≡◌, ◌<◌, ◌≤◌, ◌||◌, [], false, length, nat_lt};
ghost use Rattle.bit_blocks.specs.Ranges.{in_range};
ghost use Rattle.bit_set.specs.{Ranges.span, Sets.union};
ghost use Rattle.bit_matrix.specs.Matrices.{ChangesRow, has_at, row_of, with_row};

use crate::table::bit_index_of;
use crate::{BitBlock, BitMatrix};
use bit_blocks::packed::merge_span;
use bit_words::bit_vec::operation::{Difference, Union};
use std::ops::Range;

impl<B: BitBlock> BitMatrix<B> {
    /// Inserts the columns of the range into the row; none if the range is empty. Writes each block of the range
    /// once.
    ///
    /// ```
    /// matrix.insert_range(1, 2..5);
    /// assert!(matrix.iter(1).eq([2, 3, 4]));
    /// ```
    pub fn insert_range(&mut self, row: usize, range: Range<usize>)
        requires row { row < length self.old.rows }
        requires columns { range.start < range.end → range.end ≤ self.old.columns }
        ensures matrix { self.new ≡ with_row self.old row (union (row_of self.old row) (span range.start range.end)) }
        ensures members { ChangesRow self.old self.new row
            (λ c. has_at self.old row c || in_range range.start range.end c) }
    {
        let Range { start, end } = range;
        if start >= end {
            return;
        }
        let first = bit_index_of::<B>(self.stride, row, start);
        merge_span::<B, Union>(&mut self.blocks, first, first + (end - start));
    }

    /// Inserts every column into the row. Writes each of its blocks once.
    pub fn fill_row(&mut self, row: usize)
        requires { row < length self.old.rows }
        ensures matrix { self.new ≡ with_row self.old row (span 0 self.old.columns) }
        ensures members { ChangesRow self.old self.new row (λ c. nat_lt c self.old.columns) }
    {
        let columns = self.columns();
        self.insert_range(row, 0..columns);
    }

    /// Removes every column from the row. Writes each of its blocks once.
    pub fn clear_row(&mut self, row: usize)
        requires { row < length self.old.rows }
        ensures matrix { self.new ≡ with_row self.old row [] }
        ensures members { ChangesRow self.old self.new row (λ c. false) }
    {
        if self.stride == 0 {
            return;
        }
        let first = bit_index_of::<B>(self.stride, row, 0);
        merge_span::<B, Difference>(&mut self.blocks, first, first + self.stride * B::bits());
    }
}
