// A matrix, and the calls that read it. Those that make or change one are in the folder.
ghost use Rattle.std.specs.Prelude.{◌≡◌, ◌<◌, Some, None, if◌then◌else◌, nat_lt, ◌&&◌, false, IfNone, length};
ghost use Rattle.bit_matrix.specs.Matrices.{has_at, IsMatrix};

use crate::BitBlock;
use crate::table::bit_index_of;
use bit_blocks::packed::get_bit;
use std::marker::Model;

mod changing;
mod comparing;
mod copies;
mod making;
mod ranges;
mod rows;
mod sets;

/// A matrix of bits: each row is a set of columns. The blocks of all rows are in one piece of memory, each row in
/// whole blocks.
///
/// Contracts see the list of rows, each as the ascending list of its columns, and the number of columns.
///
/// ```
/// let mut reaches = BitMatrix::new(alloc, 3, 3)?;
/// reaches.insert(0, 1);
/// reaches.insert(1, 2);
/// assert!(reaches.union_rows(1, 0));
/// assert!(reaches.contains(0, 2));
/// ```
#[derive(Drop)]
pub struct BitMatrix<B: BitBlock = u32> {
    blocks: Vec<B>,
    rows: usize,
    columns: usize,
    // How many blocks a row has.
    stride: usize,
}

impl<B: BitBlock> Model for BitMatrix<B> {
    ghost use Rattle.std.specs.Prelude.{map};
    ghost use Rattle.bit_matrix.specs.{Matrices.{Matrix}, Tables.{IsTable, matrix_in}};

    ghost Value = { Matrix };

    ghost view = { λ m. matrix_in B.width m.stride m.rows m.columns (map B.number m.blocks.items) };

    ghost invariant = { λ m. IsTable B.width B.number B.is_block m.blocks.items m.rows m.columns m.stride };
}

impl<B: BitBlock> BitMatrix<B> {
    /// How many rows there are. Constant time.
    #[inline]
    pub fn rows(&self) -> usize
        ensures value { result ≡ length self.now.rows }
        ensures matrix { IsMatrix self.now }
    {
        self.rows
    }

    /// How many columns there are. Constant time.
    #[inline]
    pub fn columns(&self) -> usize
        ensures value { result ≡ self.now.columns }
        ensures matrix { IsMatrix self.now }
    {
        self.columns
    }

    /// Whether the column is in the row. Constant time.
    #[inline]
    pub fn contains(&self, row: usize, column: usize) -> bool
        requires row { row < length self.now.rows }
        requires column { column < self.now.columns }
        ensures { result ≡ has_at self.now row column }
    {
        get_bit(&self.blocks, bit_index_of::<B>(self.stride, row, column))
    }

    /// Whether the column is in the row, or `None` if there is no such row or column. Constant time.
    ///
    /// ```
    /// let matrix = BitMatrix::new(alloc, 2, 3)?;
    /// assert_eq!(matrix.get(1, 2), Some(false));
    /// assert_eq!(matrix.get(2, 1), None);
    /// ```
    #[inline]
    pub fn get(&self, row: usize, column: usize) -> Option<bool>
        ensures value { result ≡ (if nat_lt row (length self.now.rows) && nat_lt column self.now.columns
            then Some (has_at self.now row column) else None) }
        ensures outside { IfNone result (has_at self.now row column ≡ false) }
        ensures matrix { IsMatrix self.now }
    {
        if row >= self.rows || column >= self.columns {
            return None;
        }
        Some(self.contains(row, column))
    }
}
