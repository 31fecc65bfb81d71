// Calls on one column of a row.
ghost use Rattle.std.specs.Prelude.{◌≡◌, ◌<◌, ◌&&◌, ◌||◌, ◌==◌, length, not};
ghost use Rattle.bit_set.specs.Sets.{put, without};
ghost use Rattle.bit_matrix.specs.Matrices.{ChangesRow, has_at, row_of, with_row};
ghost use Rattle.c_handles.specs.Handed.{IsAt};

use crate::handed::{ExclusiveMatrix, SharedMatrix};

/// Whether the column is in the row.
#[unsafe(no_mangle)]
pub extern "C" fn bit_matrix_contains(matrix: &mut SharedMatrix, row: usize, column: usize) -> bool
    requires here { IsAt matrix.ref_ptr matrix.old.at }
    requires row { row < length matrix.old.cells.rows }
    requires column { column < matrix.old.cells.columns }
    ensures value { result ≡ has_at matrix.old.cells row column }
    ensures kept { matrix.new ≡ matrix.old }
{
    matrix.get().contains(row, column)
}

/// Inserts the column into the row, and returns whether it was absent.
#[unsafe(no_mangle)]
pub extern "C" fn bit_matrix_insert(matrix: &mut ExclusiveMatrix, row: usize, column: usize) -> bool
    requires here { IsAt matrix.ref_ptr matrix.old.at }
    requires row { row < length matrix.old.cells.rows }
    requires column { column < matrix.old.cells.columns }
    ensures returned { result ≡ not (has_at matrix.old.cells row column) }
    ensures matrix { matrix.new.cells
        ≡ with_row matrix.old.cells row (put (row_of matrix.old.cells row) column) }
    ensures members { ChangesRow matrix.old.cells matrix.new.cells row
        (λ c. column == c || has_at matrix.old.cells row c) }
    ensures place { matrix.new.at ≡ matrix.old.at }
{
    matrix.get().insert(row, column)
}

/// Removes the column from the row, and returns whether it was present.
#[unsafe(no_mangle)]
pub extern "C" fn bit_matrix_remove(matrix: &mut ExclusiveMatrix, row: usize, column: usize) -> bool
    requires here { IsAt matrix.ref_ptr matrix.old.at }
    requires row { row < length matrix.old.cells.rows }
    requires column { column < matrix.old.cells.columns }
    ensures returned { result ≡ has_at matrix.old.cells row column }
    ensures matrix { matrix.new.cells
        ≡ with_row matrix.old.cells row (without (row_of matrix.old.cells row) column) }
    ensures members { ChangesRow matrix.old.cells matrix.new.cells row
        (λ c. not (column == c) && has_at matrix.old.cells row c) }
    ensures place { matrix.new.at ≡ matrix.old.at }
{
    matrix.get().remove(row, column)
}
