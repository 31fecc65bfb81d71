// The columns of a row, and its blocks, copied out.
ghost use Rattle.std.specs.Prelude.{◌≡◌, ℕ, ◌+◌, ◌*◌, ◌-◌, ◌<◌, ◌≤◌, length, min, slice_index};
ghost use Rattle.bit_blocks.specs.{Bits.blocks_for, Digits.is_one};
ghost use Rattle.bit_set.specs.Sets.{those_from};
ghost use Rattle.bit_matrix.specs.Matrices.{has_at, row_of};
ghost use Rattle.c_handles.specs.{Copies.{CopiesFront, FillsFront}, Handed.IsAt};
ghost use Rattle.bit_set_c.specs.Block.{width};

use crate::block::{Block, WIDTH};
use crate::handed::SharedMatrix;
use bit_blocks::block::masks::with_bit;
use bit_matrix::BitMatrix;

fn copy_columns(matrix: &BitMatrix<Block>, row: usize, from: usize, columns: &mut [usize]) -> usize
    requires { row < length matrix.now.rows }
    ensures { CopiesFront result (those_from (row_of matrix.now row) from) columns.old columns.new }
{
    let mut done = 0;
    for column in matrix.iter_from(row, from) {
        if done == columns.len() {
            return done;
        }
        columns[done] = column;
        done += 1;
    }
    done
}

/// Copies the columns of the row that are `from` or above, in ascending order, as many as fit, and returns how
/// many.
#[unsafe(no_mangle)]
pub extern "C" fn bit_matrix_copy_members(
    matrix: &mut SharedMatrix,
    row: usize,
    from: usize,
    columns: &mut [usize],
) -> usize
    requires here { IsAt matrix.ref_ptr matrix.old.at }
    requires row { row < length matrix.old.cells.rows }
    ensures copied { CopiesFront result (those_from (row_of matrix.old.cells row) from) columns.old columns.new }
    ensures kept { matrix.new ≡ matrix.old }
{
    copy_columns(matrix.get(), row, from, columns)
}

// Copies the blocks of the row from an index on; all of them are blocks of the row.
fn put_columns(matrix: &BitMatrix<Block>, row: usize, from: usize, blocks: &mut [Block])
    requires row { row < length matrix.now.rows }
    requires inside { from * width ≤ matrix.now.columns }
    ensures members { (k j : ℕ) → k < length blocks.old → j < width
        → is_one (slice_index blocks.new k) j ≡ has_at matrix.now row ((from + k) * width + j) }
    ensures len { length blocks.new ≡ length blocks.old }
{
    // Only for the proof: the number of columns is a `usize`.
    prove!(matrix.columns() <= usize::MAX);
    blocks.fill(0);
    for column in matrix.iter_from(row, from * WIDTH) {
        let k = column / WIDTH - from;
        if k >= blocks.len() {
            return;
        }
        blocks[k] = with_bit(blocks[k], column % WIDTH, true);
    }
}

fn copy_row(matrix: &BitMatrix<Block>, row: usize, from: usize, blocks: &mut [Block]) -> usize
    requires { row < length matrix.now.rows }
    ensures fills { FillsFront result (blocks_for width matrix.now.columns - from) blocks.old blocks.new }
    ensures members { (k j : ℕ) → k < result → j < width
        → is_one (slice_index blocks.new k) j ≡ has_at matrix.now row ((from + k) * width + j) }
{
    let all = matrix.columns().div_ceil(WIDTH);
    let count = blocks.len().min(all.saturating_sub(from));
    if count > 0 {
        put_columns(matrix, row, from, &mut blocks[..count]);
    }
    count
}

/// Copies the blocks of the row from an index on, as many as fit, and returns how many. One step for each block,
/// and one for each column that is present.
#[unsafe(no_mangle)]
pub extern "C" fn bit_matrix_copy_blocks(
    matrix: &mut SharedMatrix,
    row: usize,
    from: usize,
    blocks: &mut [Block],
) -> usize
    requires here { IsAt matrix.ref_ptr matrix.old.at }
    requires row { row < length matrix.old.cells.rows }
    ensures fills { FillsFront result (blocks_for width matrix.old.cells.columns - from) blocks.old blocks.new }
    ensures members { (k j : ℕ) → k < result → j < width
        → is_one (slice_index blocks.new k) j ≡ has_at matrix.old.cells row ((from + k) * width + j) }
    ensures kept { matrix.new ≡ matrix.old }
{
    copy_row(matrix.get(), row, from, blocks)
}
