// Calls on a row and a set: a set is inserted into a row, or made from one.
ghost use Rattle.std.specs.Prelude.{◌≡◌, ℕ, ◌*◌, ◌<◌, ◌≤◌, ◌↔◌, ◌||◌, All, IfOk, IsErrOf, IsOk, IsTrue, false, get_or, length, map, not, replicate, true};
ghost use Rattle.bit_blocks.specs.{Bits.{blocks_for, capacity_of}, Storage.value_at};
ghost use Rattle.bit_set.specs.{Members.IsSameSet, Order.same_sets, Sets.{elements, has, union}};
ghost use Rattle.bit_matrix.specs.Matrices.{ChangesRow, has_at, matrix_of, row_of, with_row};

use crate::merges::merge_others;
use crate::{BitBlock, BitMatrix, MatrixError};
use bit_blocks::packed::block_at;
use bit_set::BitSet;
use bit_words::bit_vec::BitVec;
use bit_words::bit_vec::operation::Union;
use std::alloc::{AllocError, Global};

impl<B: BitBlock> BitMatrix<B> {
    /// A matrix of this many rows, each with the elements of the set, and as many columns as the set's length.
    /// Writes each block twice, and takes constant time if the length is 0. Fails as [`new`](BitMatrix::new) does.
    ///
    /// ```
    /// // The set is {1, 4, 6}.
    /// let matrix = BitMatrix::from_row(alloc, &set, 2)?;
    /// assert!(matrix.iter(1).eq([1, 4, 6]));
    /// ```
    pub fn from_row(alloc: Global, set: &BitSet<B>, rows: usize) -> Result<Self, MatrixError>
        ensures matrix { IfOk result
            (λ matrix. matrix ≡ matrix_of rows (length set.now.values) (elements set.now.values)) }
        ensures too_large { IsErrOf result MatrixError.Length
            ↔ (usize.MAX < rows * (blocks_for B.width (length set.now.values) * B.width)) }
        ensures empty { rows * (blocks_for B.width (length set.now.values) * B.width) ≡ 0 → IsOk result }
    {
        let mut matrix = BitMatrix::new_general(alloc, rows, set.get_ref().len())?;
        if set.get_ref().len() == 0 {
            return Ok(matrix);
        }
        for row in 0..rows {
            matrix.union_row_with(set, row);
        }
        Ok(matrix)
    }

    /// Inserts the elements of the set, each of which must be below [`columns`](Self::columns), into the row, and
    /// returns whether any of them was absent. One pass over the blocks of both.
    ///
    /// ```
    /// assert!(matrix.union_row_with(&set, 1));
    /// assert!(!matrix.union_row_with(&set, 1));
    /// ```
    #[inline]
    pub fn union_row_with(&mut self, set: &BitSet<B>, row: usize) -> bool
        requires row { row < length self.old.rows }
        requires columns { (n : ℕ) → IsTrue (has (elements set.now.values) n) → n < self.old.columns }
        ensures matrix { self.new ≡ with_row self.old row (union (row_of self.old row) (elements set.now.values)) }
        ensures members { ChangesRow self.old self.new row
            (λ c. has_at self.old row c || has (elements set.now.values) c) }
        ensures changed { result ≡ not (same_sets (row_of self.old row) (row_of self.new row)) }
        ensures unchanged { result ≡ false → self.new ≡ self.old }
    {
        let stride = self.stride;
        let blocks = set.get_ref().storage();
        let others = blocks.split_at(blocks.len().min(stride)).0;
        merge_others::<B, Union>(self.blocks.as_mut_slice(), others, row * stride)
    }

    /// Whether the columns of the row are the elements of the set. Walks over both up to the first that differs.
    ///
    /// ```
    /// assert!(matrix.row_equals(1, &matrix.row_to_set(alloc, 1)?));
    /// ```
    pub fn row_equals(&self, row: usize, set: &BitSet<B>) -> bool
        requires { row < length self.now.rows }
        ensures returned { result ≡ same_sets (row_of self.now row) (elements set.now.values) }
        ensures members { IsTrue result ↔ IsSameSet (row_of self.now row) (elements set.now.values) }
    {
        prove!(self.rows() == self.rows());
        self.iter(row).eq(set.iter())
    }

    /// The set of the columns of the row, of length [`columns`](Self::columns). Writes each block twice. The
    /// capacity is that of its blocks. Fails only if memory runs out, and never if there are no columns.
    ///
    /// ```
    /// matrix.insert_range(1, 2..5);
    /// assert!(matrix.row_to_set(alloc, 1)?.iter().eq([2, 3, 4]));
    /// ```
    pub fn row_to_set(&self, alloc: Global, row: usize) -> Result<BitSet<B>, AllocError>
        requires { row < length self.now.rows }
        ensures elements { IfOk result (λ set. elements set.values ≡ row_of self.now row) }
        ensures columns { IfOk result (λ set. (c : ℕ) → IsTrue (has (elements set.values) c) → c < self.now.columns) }
        ensures length { IfOk result (λ set. length set.values ≡ self.now.columns) }
        ensures capacity { IfOk result
            (λ set. set.capacity ≡ capacity_of B.width (blocks_for B.width self.now.columns)) }
        ensures empty { self.now.columns ≡ 0 → IsOk result }
    {
        let mut bits = BitVec::from_elem_general(alloc, self.columns, true)?;
        keep_blocks(&mut bits, self.row_blocks(row));
        Ok(BitSet::from_bit_vec_general(bits))
    }
}

// The values, which are all true, become those of the blocks.
fn keep_blocks<B: BitBlock>(bits: &mut BitVec<B>, blocks: &[B])
    requires ones { bits.old.values ≡ replicate (length bits.old.values) true }
    requires each { All B.is_block blocks.now }
    requires count { (k : ℕ) → k < length blocks.now → k * B.width < length bits.old.values }
    requires enough { length bits.old.values ≤ length blocks.now * B.width }
    ensures values { (i : ℕ) → i < length bits.old.values
        → get_or bits.new.values i false ≡ value_at B.width (map B.number blocks.now) i }
    ensures len { length bits.new.values ≡ length bits.old.values }
    ensures capacity { bits.new.capacity ≡ bits.old.capacity }
{
    for k in 0..blocks.len() {
        bits.keep_in_block(k, block_at(blocks, k));
    }
}
