// A matrix made of another.
ghost use Rattle.std.specs.Prelude.{◌≡◌, ℕ, ◌+◌, ◌*◌, ◌<◌, ◌≤◌, ◌↔◌, ◌⊎◌, ◌&&◌, ◌||◌, ◌==◌, IfOk, IsErrOf, IsOk, length, nat_le};
ghost use Rattle.bit_blocks.specs.Bits.{blocks_for};
ghost use Rattle.bit_matrix.specs.Matrices.{HasTurnedShape, IsTransposed, KeepsShape, has_at};

use crate::squares::transpose_into;
use crate::{BitBlock, BitMatrix, MatrixError};
use bit_blocks::packed::{copy_of, ones_in_span};
use std::alloc::{AllocError, Global};

impl<B: BitBlock> BitMatrix<B> {
    /// A matrix with the same rows. Copies each block once. Fails only if memory runs out, and never if there are
    /// no blocks.
    pub fn clone(&self, alloc: Global) -> Result<Self, AllocError>
        ensures matrix { IfOk result (λ matrix. matrix ≡ self.now) }
        ensures empty { length self.now.rows * (blocks_for B.width self.now.columns * B.width) ≡ 0 → IsOk result }
    {
        let blocks = copy_of(alloc, &self.blocks)?;
        Ok(BitMatrix {
            blocks,
            rows: self.rows,
            columns: self.columns,
            stride: self.stride,
        })
    }

    /// The matrix that has a row for each column, with the rows that have that column. If fewer than one bit in 64
    /// is set, it reads each block and writes once for each set bit. Otherwise it transposes squares of as many
    /// rows and columns as a block has bits, with operations on whole blocks: some four for each block and each
    /// halving of its width, so 24 for blocks of 64 bits. Only the columns past the last whole block are done one
    /// by one. If there are no blocks, it takes constant time. Fails as [`new`](BitMatrix::new) does.
    ///
    /// ```
    /// matrix.insert(0, 2);
    /// assert!(matrix.transpose(alloc)?.contains(2, 0));
    /// ```
    pub fn transpose(&self, alloc: Global) -> Result<Self, MatrixError>
        ensures matrix { IfOk result (IsTransposed self.now) }
        ensures too_large { IsErrOf result MatrixError.Length
            ↔ (usize.MAX < self.now.columns * (blocks_for B.width (length self.now.rows) * B.width)) }
        ensures empty { self.now.columns * (blocks_for B.width (length self.now.rows) * B.width) ≡ 0 → IsOk result }
    {
        let mut transposed = BitMatrix::new_general(alloc, self.columns(), self.rows())?;
        let strips = self.strips();
        for k in 0..strips {
            transposed.transpose_columns(self, k);
        }
        let from = strips * B::bits();
        if from < self.columns() {
            insert_columns(&mut transposed, self, from);
        }
        Ok(transposed)
    }

    // How many whole blocks of each row are transposed by squares: all of them if at least one bit in 64 is 1, and
    // otherwise none.
    fn strips(&self) -> usize
        ensures { result * B.width ≤ self.now.columns }
    {
        let bits = self.blocks.len() * B::bits();
        if bits == 0 || ones_in_span(&self.blocks, 0, bits) < bits / 64 {
            return 0;
        }
        self.columns / B::bits()
    }

    // The rows of as many columns as a block has bits, from the first column of block `k` on, become what is in these columns.
    fn transpose_columns(&mut self, matrix: &BitMatrix<B>, k: usize)
        requires whole { (k + 1) * B.width ≤ matrix.now.columns }
        requires shape { HasTurnedShape matrix.now self.old }
        ensures inside { (r c : ℕ) → k * B.width ≤ c → c < (k + 1) * B.width
            → has_at self.new c r ≡ has_at matrix.now r c }
        ensures others { (r c : ℕ) → (c < k * B.width) ⊎ ((k + 1) * B.width ≤ c)
            → has_at self.new c r ≡ has_at self.old c r }
        ensures shape { KeepsShape self.old self.new }
    {
        let stride = self.stride;
        transpose_into(
            self.blocks.as_mut_slice(),
            stride,
            &matrix.blocks,
            matrix.stride,
            matrix.rows,
            k,
        );
    }
}

// Inserts each row into those whose index is one of its columns from `from` on.
fn insert_columns<B: BitBlock>(transposed: &mut BitMatrix<B>, matrix: &BitMatrix<B>, from: usize)
    requires { HasTurnedShape matrix.now transposed.old }
    ensures bits { (r c : ℕ) → has_at transposed.new c r
        ≡ (has_at transposed.old c r || (nat_le from c && has_at matrix.now r c)) }
    ensures shape { KeepsShape transposed.old transposed.new }
{
    for row in 0..matrix.rows() {
        insert_in_each(transposed, matrix, row, from);
    }
}

// Inserts `row` into each row whose index is a column from `from` on in the row `row` of the other matrix.
fn insert_in_each<B: BitBlock>(
    transposed: &mut BitMatrix<B>,
    matrix: &BitMatrix<B>,
    row: usize,
    from: usize,
)
    requires row { row < length matrix.now.rows }
    requires shape { HasTurnedShape matrix.now transposed.old }
    ensures bits { (r c : ℕ) → has_at transposed.new c r
        ≡ (has_at transposed.old c r || (r == row && (nat_le from c && has_at matrix.now row c))) }
    ensures shape { KeepsShape transposed.old transposed.new }
{
    for column in matrix.iter_from(row, from) {
        transposed.insert(column, row);
    }
}
