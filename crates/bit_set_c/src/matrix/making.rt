// Calls that make a matrix, or a set of a row, and the one that frees a matrix.
ghost use Rattle.std.specs.Prelude.{◌≡◌, ◌*◌, ◌<◌, IfSome, None, is_some, [], length};
ghost use Rattle.bit_blocks.specs.Bits.{blocks_for};
ghost use Rattle.bit_set.specs.{Members.IsSameSet, Sets.elements, Sizes.IsJustOf};
ghost use Rattle.bit_matrix.specs.Matrices.{IsTransposed, matrix_of, row_of};
ghost use Rattle.c_handles.specs.Handed.{IsAt};
ghost use Rattle.bit_set_c.specs.Block.{width};

use crate::block::Block;
use crate::handed::{Owned, OwnedMatrix, Shared, SharedMatrix};
use crate::making::boxed;
use bit_matrix::BitMatrix;
use std::alloc::Global;

// Stores the matrix in a new box, and returns whether memory sufficed.
pub(crate) fn boxed_matrix(alloc: Global, out: &mut OwnedMatrix, matrix: BitMatrix<Block>) -> bool
    requires empty { out.old.held ≡ None }
    ensures made { result ≡ is_some out.new.held }
    ensures value { IfSome out.new.held (λ held. held ≡ matrix) }
{
    match Box::new(alloc, matrix) {
        Ok(matrix) => {
            out.put(matrix);
            true
        }
        Err(_) => false,
    }
}

/// A matrix of this many empty rows, or none if memory runs out or the rows, each in whole blocks, have more bits
/// than a `usize` can count.
#[unsafe(no_mangle)]
pub extern "C" fn bit_matrix_new(
    alloc: Global,
    out: &mut OwnedMatrix,
    rows: usize,
    columns: usize,
) -> bool
    requires empty { out.old.held ≡ None }
    ensures made { result ≡ is_some out.new.held }
    ensures matrix { IfSome out.new.held (λ matrix. matrix ≡ matrix_of rows columns []) }
    ensures too_large { usize.MAX < rows * (blocks_for width columns * width) → out.new.held ≡ None }
{
    match BitMatrix::new_general(alloc, rows, columns) {
        Ok(matrix) => boxed_matrix(alloc, out, matrix),
        Err(_) => false,
    }
}

/// A matrix of this many rows, each with the members of the set, and as many columns as the set's length; or none
/// where `bit_matrix_new` makes none.
#[unsafe(no_mangle)]
pub extern "C" fn bit_matrix_from_set(
    alloc: Global,
    out: &mut OwnedMatrix,
    set: &mut Shared,
    rows: usize,
) -> bool
    requires empty { out.old.held ≡ None }
    requires here { IsAt set.ref_ptr set.old.at }
    ensures made { result ≡ is_some out.new.held }
    ensures matrix { IfSome out.new.held (λ matrix. matrix
        ≡ matrix_of rows (length set.old.bits.values) (elements set.old.bits.values)) }
    ensures too_large { usize.MAX < rows * (blocks_for width (length set.old.bits.values) * width)
        → out.new.held ≡ None }
    ensures kept { set.new ≡ set.old }
{
    match BitMatrix::from_row(alloc, set.get(), rows) {
        Ok(matrix) => boxed_matrix(alloc, out, matrix),
        Err(_) => false,
    }
}

/// A separate matrix with the same rows, or none if memory runs out.
#[unsafe(no_mangle)]
pub extern "C" fn bit_matrix_clone(
    alloc: Global,
    out: &mut OwnedMatrix,
    matrix: &mut SharedMatrix,
) -> bool
    requires empty { out.old.held ≡ None }
    requires here { IsAt matrix.ref_ptr matrix.old.at }
    ensures made { result ≡ is_some out.new.held }
    ensures matrix { IfSome out.new.held (λ copy. copy ≡ matrix.old.cells) }
    ensures kept { matrix.new ≡ matrix.old }
{
    match matrix.get().clone(alloc) {
        Ok(copy) => boxed_matrix(alloc, out, copy),
        Err(_) => false,
    }
}

/// The matrix that has a row for each column, with the rows that have that column; or none where `bit_matrix_new`
/// makes none.
#[unsafe(no_mangle)]
pub extern "C" fn bit_matrix_transpose(
    alloc: Global,
    out: &mut OwnedMatrix,
    matrix: &mut SharedMatrix,
) -> bool
    requires empty { out.old.held ≡ None }
    requires here { IsAt matrix.ref_ptr matrix.old.at }
    ensures made { result ≡ is_some out.new.held }
    ensures matrix { IfSome out.new.held (IsTransposed matrix.old.cells) }
    ensures too_large { usize.MAX
        < matrix.old.cells.columns * (blocks_for width (length matrix.old.cells.rows) * width)
        → out.new.held ≡ None }
    ensures kept { matrix.new ≡ matrix.old }
{
    match matrix.get().transpose(alloc) {
        Ok(transposed) => boxed_matrix(alloc, out, transposed),
        Err(_) => false,
    }
}

/// The set of the columns of the row, with the number of columns as its length, or none if memory runs out.
#[unsafe(no_mangle)]
pub extern "C" fn bit_matrix_row_to_set(
    alloc: Global,
    out: &mut Owned,
    matrix: &mut SharedMatrix,
    row: usize,
) -> bool
    requires empty { out.old.held ≡ None }
    requires here { IsAt matrix.ref_ptr matrix.old.at }
    requires row { row < length matrix.old.cells.rows }
    ensures made { result ≡ is_some out.new.held }
    ensures elements { IfSome out.new.held (λ set. elements set.values ≡ row_of matrix.old.cells row) }
    ensures members { IfSome out.new.held (λ set. IsSameSet (elements set.values) (row_of matrix.old.cells row)) }
    ensures size { IfSome out.new.held (λ set. IsJustOf width matrix.old.cells.columns set) }
    ensures kept { matrix.new ≡ matrix.old }
{
    match matrix.get().row_to_set(alloc, row) {
        Ok(set) => boxed(alloc, out, set),
        Err(_) => false,
    }
}

/// Gives the memory of a matrix back; does nothing for a null pointer.
#[unsafe(no_mangle)]
pub extern "C" fn bit_matrix_free(matrix: OwnedMatrix) {
    matrix.free();
}
