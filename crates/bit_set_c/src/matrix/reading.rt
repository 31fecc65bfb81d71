// Calls that read a matrix and its rows, and compare rows and matrices.
ghost use Rattle.std.specs.{Prelude.{◌≡◌, ◌<◌, ◌≤◌, ◌↔◌, IfSome, IsTrue, length, min}, List.sum_by};
ghost use Rattle.bit_blocks.specs.Searches.{FindsFrom};
ghost use Rattle.bit_set.specs.{Choices.IsFirstOf, Members.{IsDisjoint, IsSameSet, IsSubset}, Order.same_sets, Sets.{elements, is_disjoint, is_subset, those_from}};
ghost use Rattle.bit_matrix.specs.{Compared.same_matrices, Matrices.{IsMatrix, has_at, row_of}};
ghost use Rattle.c_handles.specs.{Answers.found, Handed.{AreAt, BothStay, IsAt}};

use crate::block::Block;
use crate::handed::{Shared, SharedMatrix};
use crate::searching::or_max;
use bit_matrix::BitMatrix;

/// How many rows there are.
#[unsafe(no_mangle)]
pub extern "C" fn bit_matrix_rows(matrix: &mut SharedMatrix) -> usize
    requires here { IsAt matrix.ref_ptr matrix.old.at }
    ensures value { result ≡ length matrix.old.cells.rows }
    ensures matrix { IsMatrix matrix.old.cells }
    ensures kept { matrix.new ≡ matrix.old }
{
    matrix.get().rows()
}

/// How many columns there are.
#[unsafe(no_mangle)]
pub extern "C" fn bit_matrix_columns(matrix: &mut SharedMatrix) -> usize
    requires here { IsAt matrix.ref_ptr matrix.old.at }
    ensures value { result ≡ matrix.old.cells.columns }
    ensures kept { matrix.new ≡ matrix.old }
{
    matrix.get().columns()
}

/// How many columns are in the row.
#[unsafe(no_mangle)]
pub extern "C" fn bit_matrix_count(matrix: &mut SharedMatrix, row: usize) -> usize
    requires here { IsAt matrix.ref_ptr matrix.old.at }
    requires row { row < length matrix.old.cells.rows }
    ensures value { result ≡ length (row_of matrix.old.cells row) }
    ensures kept { matrix.new ≡ matrix.old }
{
    matrix.get().count(row)
}

// Adds up the counts of the rows.
fn count_rows(matrix: &BitMatrix<Block>) -> usize
    ensures { result ≡ min (sum_by length matrix.now.rows) usize.MAX }
{
    let mut count: usize = 0;
    for row in 0..matrix.rows() {
        count = count.saturating_add(matrix.count(row));
    }
    count
}

/// How many columns are in all rows together, or `usize::MAX` if that is less.
#[unsafe(no_mangle)]
pub extern "C" fn bit_matrix_count_all(matrix: &mut SharedMatrix) -> usize
    requires here { IsAt matrix.ref_ptr matrix.old.at }
    ensures value { result ≡ min (sum_by length matrix.old.cells.rows) usize.MAX }
    ensures kept { matrix.new ≡ matrix.old }
{
    count_rows(matrix.get())
}

/// The least column of the row that is `from` or above, or `usize::MAX` if there is none.
#[unsafe(no_mangle)]
pub extern "C" fn bit_matrix_next(matrix: &mut SharedMatrix, row: usize, from: usize) -> usize
    requires here { IsAt matrix.ref_ptr matrix.old.at }
    requires row { row < length matrix.old.cells.rows }
    ensures elements { IsFirstOf (those_from (row_of matrix.old.cells row) from) (found result) }
    ensures members { FindsFrom (has_at matrix.old.cells row) from (found result) }
    ensures within { IfSome (found result) (λ c. c < matrix.old.cells.columns) }
    ensures kept { matrix.new ≡ matrix.old }
{
    let matrix = matrix.get();
    prove!(matrix.columns() <= usize::MAX);
    or_max(matrix.iter_from(row, from).next())
}

/// Whether each column of the first row is in the second.
#[unsafe(no_mangle)]
pub extern "C" fn bit_matrix_is_subset_row(
    matrix: &mut SharedMatrix,
    row: usize,
    other: usize,
) -> bool
    requires here { IsAt matrix.ref_ptr matrix.old.at }
    requires row { row < length matrix.old.cells.rows }
    requires other { other < length matrix.old.cells.rows }
    ensures returned { result ≡ is_subset (row_of matrix.old.cells row) (row_of matrix.old.cells other) }
    ensures members { IsTrue result ↔ IsSubset (row_of matrix.old.cells row) (row_of matrix.old.cells other) }
    ensures kept { matrix.new ≡ matrix.old }
{
    matrix.get().is_subset_row(row, other)
}

/// Whether the two rows have no column in common.
#[unsafe(no_mangle)]
pub extern "C" fn bit_matrix_is_disjoint_row(
    matrix: &mut SharedMatrix,
    row: usize,
    other: usize,
) -> bool
    requires here { IsAt matrix.ref_ptr matrix.old.at }
    requires row { row < length matrix.old.cells.rows }
    requires other { other < length matrix.old.cells.rows }
    ensures returned { result ≡ is_disjoint (row_of matrix.old.cells row) (row_of matrix.old.cells other) }
    ensures members { IsTrue result ↔ IsDisjoint (row_of matrix.old.cells row) (row_of matrix.old.cells other) }
    ensures kept { matrix.new ≡ matrix.old }
{
    matrix.get().is_disjoint_row(row, other)
}

/// Whether the columns of the row are the members of the set.
#[unsafe(no_mangle)]
pub extern "C" fn bit_matrix_row_equals(
    matrix: &mut SharedMatrix,
    row: usize,
    set: &mut Shared,
) -> bool
    requires here { AreAt matrix.ref_ptr matrix.old.at set.ref_ptr set.old.at }
    requires row { row < length matrix.old.cells.rows }
    ensures returned { result ≡ same_sets (row_of matrix.old.cells row) (elements set.old.bits.values) }
    ensures members { IsTrue result ↔ IsSameSet (row_of matrix.old.cells row) (elements set.old.bits.values) }
    ensures kept { BothStay matrix.old matrix.new set.old set.new }
{
    matrix.get().row_equals(row, set.get())
}

/// Whether both matrices have equally many columns and the same rows.
#[unsafe(no_mangle)]
pub extern "C" fn bit_matrix_equals(matrix: &mut SharedMatrix, other: &mut SharedMatrix) -> bool
    requires here { AreAt matrix.ref_ptr matrix.old.at other.ref_ptr other.old.at }
    ensures returned { result ≡ same_matrices matrix.old.cells other.old.cells }
    ensures same { IsTrue result ↔ (matrix.old.cells ≡ other.old.cells) }
    ensures kept { BothStay matrix.old matrix.new other.old other.new }
{
    *matrix.get() == *other.get()
}
