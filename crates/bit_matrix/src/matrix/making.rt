// Calls that make a matrix.
ghost use Rattle.std.specs.Prelude.{◌≡◌, ◌*◌, ◌<◌, ◌↔◌, [], IfOk, IsErrOf, IsOk};
ghost use Rattle.bit_blocks.specs.Bits.{blocks_for};
ghost use Rattle.bit_matrix.specs.Matrices.{matrix_of};

use crate::table::blocks_of_rows;
use crate::{BitBlock, BitMatrix, MatrixError};
use bit_blocks::packed::{block_count, push_copies};
use std::alloc::Global;

impl BitMatrix<u32> {
    /// A matrix of this many empty rows, over blocks of 32 bits. Writes each block once.
    ///
    /// Fails with [`MatrixError::Length`] exactly if the rows, each in whole blocks, have more bits than
    /// `usize::MAX`, before it allocates; with [`MatrixError::Memory`] only if memory runs out, and never if there
    /// are no blocks.
    ///
    /// ```
    /// let matrix = BitMatrix::new(alloc, 3, 100)?;
    /// assert_eq!((matrix.rows(), matrix.columns()), (3, 100));
    /// assert!(!matrix.contains(2, 99));
    /// ```
    pub fn new(alloc: Global, rows: usize, columns: usize) -> Result<Self, MatrixError>
        ensures matrix { IfOk result (λ matrix. matrix ≡ matrix_of rows columns []) }
        ensures too_large { IsErrOf result MatrixError.Length ↔ (usize.MAX < rows * (blocks_for 32 columns * 32)) }
        ensures empty { rows * (blocks_for 32 columns * 32) ≡ 0 → IsOk result }
    {
        BitMatrix::new_general(alloc, rows, columns)
    }
}

impl<B: BitBlock> BitMatrix<B> {
    /// A matrix of this many empty rows. Writes each block once.
    ///
    /// Fails with [`MatrixError::Length`] exactly if the rows, each in whole blocks, have more bits than
    /// `usize::MAX`, before it allocates; with [`MatrixError::Memory`] only if memory runs out, and never if there
    /// are no blocks.
    pub fn new_general(alloc: Global, rows: usize, columns: usize) -> Result<Self, MatrixError>
        ensures matrix { IfOk result (λ matrix. matrix ≡ matrix_of rows columns []) }
        ensures too_large { IsErrOf result MatrixError.Length
            ↔ (usize.MAX < rows * (blocks_for B.width columns * B.width)) }
        ensures empty { rows * (blocks_for B.width columns * B.width) ≡ 0 → IsOk result }
    {
        let stride = block_count::<B>(columns);
        let Some(count) = blocks_of_rows::<B>(rows, stride) else {
            return Err(MatrixError::Length);
        };
        let mut blocks = Vec::with_capacity(alloc, count)?;
        push_copies(&mut blocks, count, B::zero());
        Ok(BitMatrix {
            blocks,
            rows,
            columns,
            stride,
        })
    }
}
