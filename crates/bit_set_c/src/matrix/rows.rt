// Calls that change a whole row, or a range of it. Those that merge return whether the row changed.
ghost use Rattle.std.specs.Prelude.{◌≡◌, ℕ, ◌<◌, ◌≤◌, ◌&&◌, ◌||◌, IsTrue, [], false, length, nat_lt, not};
ghost use Rattle.bit_blocks.specs.Ranges.{in_range};
ghost use Rattle.bit_set.specs.{Order.same_sets, Ranges.span, Sets.{difference, elements, has, intersection, union}};
ghost use Rattle.bit_matrix.specs.Matrices.{ChangesRow, has_at, row_of, with_row};
ghost use Rattle.c_handles.specs.Handed.{AreAt, BothStay, IsAt};

use crate::handed::{ExclusiveMatrix, Shared};

/// Inserts the columns of the row `read` into the row `write`, and returns whether any of them was absent.
#[unsafe(no_mangle)]
pub extern "C" fn bit_matrix_union_rows(
    matrix: &mut ExclusiveMatrix,
    read: usize,
    write: usize,
) -> bool
    requires here { IsAt matrix.ref_ptr matrix.old.at }
    requires read { read < length matrix.old.cells.rows }
    requires write { write < length matrix.old.cells.rows }
    ensures matrix { matrix.new.cells ≡ with_row matrix.old.cells write
        (union (row_of matrix.old.cells write) (row_of matrix.old.cells read)) }
    ensures members { ChangesRow matrix.old.cells matrix.new.cells write
        (λ c. has_at matrix.old.cells write c || has_at matrix.old.cells read c) }
    ensures changed { result ≡ not (same_sets (row_of matrix.old.cells write) (row_of matrix.new.cells write)) }
    ensures unchanged { result ≡ false → matrix.new.cells ≡ matrix.old.cells }
    ensures place { matrix.new.at ≡ matrix.old.at }
{
    matrix.get().union_rows(read, write)
}

/// Keeps in the row `write` the columns that the row `read` has too, and returns whether it removed any.
#[unsafe(no_mangle)]
pub extern "C" fn bit_matrix_intersect_rows(
    matrix: &mut ExclusiveMatrix,
    read: usize,
    write: usize,
) -> bool
    requires here { IsAt matrix.ref_ptr matrix.old.at }
    requires read { read < length matrix.old.cells.rows }
    requires write { write < length matrix.old.cells.rows }
    ensures matrix { matrix.new.cells ≡ with_row matrix.old.cells write
        (intersection (row_of matrix.old.cells write) (row_of matrix.old.cells read)) }
    ensures members { ChangesRow matrix.old.cells matrix.new.cells write
        (λ c. has_at matrix.old.cells write c && has_at matrix.old.cells read c) }
    ensures changed { result ≡ not (same_sets (row_of matrix.old.cells write) (row_of matrix.new.cells write)) }
    ensures unchanged { result ≡ false → matrix.new.cells ≡ matrix.old.cells }
    ensures place { matrix.new.at ≡ matrix.old.at }
{
    matrix.get().intersect_rows(read, write)
}

/// Removes the columns of the row `read` from the row `write`, and returns whether any of them was present.
#[unsafe(no_mangle)]
pub extern "C" fn bit_matrix_difference_rows(
    matrix: &mut ExclusiveMatrix,
    read: usize,
    write: usize,
) -> bool
    requires here { IsAt matrix.ref_ptr matrix.old.at }
    requires read { read < length matrix.old.cells.rows }
    requires write { write < length matrix.old.cells.rows }
    ensures matrix { matrix.new.cells ≡ with_row matrix.old.cells write
        (difference (row_of matrix.old.cells write) (row_of matrix.old.cells read)) }
    ensures members { ChangesRow matrix.old.cells matrix.new.cells write
        (λ c. has_at matrix.old.cells write c && not (has_at matrix.old.cells read c)) }
    ensures changed { result ≡ not (same_sets (row_of matrix.old.cells write) (row_of matrix.new.cells write)) }
    ensures unchanged { result ≡ false → matrix.new.cells ≡ matrix.old.cells }
    ensures place { matrix.new.at ≡ matrix.old.at }
{
    matrix.get().difference_rows(read, write)
}

/// Inserts the members of the set, each of which must be below the number of columns, into the row, and returns
/// whether any of them was absent.
#[unsafe(no_mangle)]
pub extern "C" fn bit_matrix_union_row_with(
    matrix: &mut ExclusiveMatrix,
    set: &mut Shared,
    row: usize,
) -> bool
    requires here { AreAt matrix.ref_ptr matrix.old.at set.ref_ptr set.old.at }
    requires row { row < length matrix.old.cells.rows }
    requires columns { (n : ℕ) → IsTrue (has (elements set.old.bits.values) n) → n < matrix.old.cells.columns }
    ensures matrix { matrix.new.cells ≡ with_row matrix.old.cells row
        (union (row_of matrix.old.cells row) (elements set.old.bits.values)) }
    ensures members { ChangesRow matrix.old.cells matrix.new.cells row
        (λ c. has_at matrix.old.cells row c || has (elements set.old.bits.values) c) }
    ensures changed { result ≡ not (same_sets (row_of matrix.old.cells row) (row_of matrix.new.cells row)) }
    ensures unchanged { result ≡ false → matrix.new.cells ≡ matrix.old.cells }
    ensures kept { BothStay matrix.old.at matrix.new.at set.old set.new }
{
    matrix.get().union_row_with(set.get(), row)
}

/// Inserts the columns of the range into the row; none if the range is empty.
#[unsafe(no_mangle)]
pub extern "C" fn bit_matrix_insert_range(
    matrix: &mut ExclusiveMatrix,
    row: usize,
    start: usize,
    end: usize,
)
    requires here { IsAt matrix.ref_ptr matrix.old.at }
    requires row { row < length matrix.old.cells.rows }
    requires columns { start < end → end ≤ matrix.old.cells.columns }
    ensures matrix { matrix.new.cells ≡ with_row matrix.old.cells row
        (union (row_of matrix.old.cells row) (span start end)) }
    ensures members { ChangesRow matrix.old.cells matrix.new.cells row
        (λ c. has_at matrix.old.cells row c || in_range start end c) }
    ensures place { matrix.new.at ≡ matrix.old.at }
{
    matrix.get().insert_range(row, start..end);
}

/// Inserts every column into the row.
#[unsafe(no_mangle)]
pub extern "C" fn bit_matrix_fill_row(matrix: &mut ExclusiveMatrix, row: usize)
    requires here { IsAt matrix.ref_ptr matrix.old.at }
    requires row { row < length matrix.old.cells.rows }
    ensures matrix { matrix.new.cells ≡ with_row matrix.old.cells row (span 0 matrix.old.cells.columns) }
    ensures members { ChangesRow matrix.old.cells matrix.new.cells row
        (λ c. nat_lt c matrix.old.cells.columns) }
    ensures place { matrix.new.at ≡ matrix.old.at }
{
    matrix.get().fill_row(row);
}

/// Removes every column from the row.
#[unsafe(no_mangle)]
pub extern "C" fn bit_matrix_clear_row(matrix: &mut ExclusiveMatrix, row: usize)
    requires here { IsAt matrix.ref_ptr matrix.old.at }
    requires row { row < length matrix.old.cells.rows }
    ensures matrix { matrix.new.cells ≡ with_row matrix.old.cells row [] }
    ensures members { ChangesRow matrix.old.cells matrix.new.cells row (λ c. false) }
    ensures place { matrix.new.at ≡ matrix.old.at }
{
    matrix.get().clear_row(row);
}
