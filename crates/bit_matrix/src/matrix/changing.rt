// Calls that change one bit of a matrix.
ghost use Rattle.std.specs.Prelude.{◌≡◌, ◌<◌, ◌&&◌, ◌||◌, ◌==◌, length, not};
ghost use Rattle.bit_set.specs.Sets.{put, without};
ghost use Rattle.bit_matrix.specs.Matrices.{ChangesRow, has_at, row_of, with_row};

use crate::table::bit_index_of;
use crate::{BitBlock, BitMatrix};
use bit_blocks::packed::replace_bit;

impl<B: BitBlock> BitMatrix<B> {
    /// Inserts the column into the row, and returns whether it was absent. Constant time.
    ///
    /// ```
    /// assert!(matrix.insert(1, 2));
    /// assert!(!matrix.insert(1, 2));
    /// ```
    #[inline]
    pub fn insert(&mut self, row: usize, column: usize) -> bool
        requires row { row < length self.old.rows }
        requires column { column < self.old.columns }
        ensures new { result ≡ not (has_at self.old row column) }
        ensures matrix { self.new ≡ with_row self.old row (put (row_of self.old row) column) }
        ensures members { ChangesRow self.old self.new row (λ c. column == c || has_at self.old row c) }
    {
        let i = bit_index_of::<B>(self.stride, row, column);
        !replace_bit(&mut self.blocks, i, true)
    }

    /// Removes the column from the row, and returns whether it was present. Constant time.
    ///
    /// ```
    /// assert!(matrix.remove(1, 2));
    /// assert!(!matrix.remove(1, 2));
    /// ```
    #[inline]
    pub fn remove(&mut self, row: usize, column: usize) -> bool
        requires row { row < length self.old.rows }
        requires column { column < self.old.columns }
        ensures was { result ≡ has_at self.old row column }
        ensures matrix { self.new ≡ with_row self.old row (without (row_of self.old row) column) }
        ensures members { ChangesRow self.old self.new row (λ c. not (column == c) && has_at self.old row c) }
    {
        let i = bit_index_of::<B>(self.stride, row, column);
        replace_bit(&mut self.blocks, i, false)
    }
}
