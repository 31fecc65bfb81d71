// Calls of matrices that make something, and some that take no memory.
use crate::asks::Ask;
use crate::faults::Fault;
use crate::states::{LENT, LENT_ELEMENTS, is_state, set_of};
use crate::sweep::{Row, Trial, table};
use bit_matrix::{BitMatrix, MatrixError};
use bit_set::{BitBlock, BitSet};
use graph_walks::transitive_closure;
use std::alloc::{AllocError, Global};

pub enum Call {
    New,
    FromRow,
    Clone,
    Transpose,
    RowToSet,
    // Rows of more bits than are counted.
    TooMany,
    // Calls that change a matrix.
    Change,
}

// How many columns the matrices have: the length of the set that each row is.
const COLUMNS: usize = 5001;

pub const ROWS: &[Row<Call>] = table! {
    "matrix_new", &[Ask::Rows(3, COLUMNS)], Call::New;
    "matrix_from_row", &[Ask::Rows(2, COLUMNS)], Call::FromRow;
    "matrix_clone", &[Ask::Rows(2, COLUMNS)], Call::Clone;
    "matrix_transpose", &[Ask::Rows(COLUMNS, 2)], Call::Transpose;
    "matrix_row_to_set", &[Ask::Exact(COLUMNS)], Call::RowToSet;
    "matrix_too_large", &[], Call::TooMany;
    "matrix_changes", &[], Call::Change;
};

/// The set that is lent, and two rows of it.
#[derive(Drop)]
pub struct Matrices<B: BitBlock> {
    lent: BitSet<B>,
    rows: BitMatrix<B>,
}

// Whether the matrix has this many rows and columns, and each row just these columns.
fn has_rows<B: BitBlock>(
    matrix: &BitMatrix<B>,
    rows: usize,
    columns: usize,
    elements: &[usize],
) -> bool {
    let mut is_right = matrix.rows() == rows && matrix.columns() == columns;
    for row in 0..matrix.rows() {
        is_right &= matrix.iter(row).eq(elements.iter().copied());
    }
    is_right
}

// Whether the matrix has both rows at 3, 7 and 5000, and nothing else.
fn is_transposed<B: BitBlock>(matrix: &BitMatrix<B>) -> bool {
    let mut is_right = matrix.rows() == COLUMNS && matrix.columns() == 2;
    for row in 0..matrix.rows() {
        let has = row == 3 || row == 7 || row == 5000;
        is_right &= matrix.count(row) == if has { 2 } else { 0 };
    }
    is_right
}

// Changes the rows back and forth. Whether each call returns what it may.
fn changes<B: BitBlock>(matrix: &mut BitMatrix<B>) -> bool {
    if matrix.rows() < 2 || matrix.columns() < COLUMNS {
        return false;
    }
    let has_come = matrix.insert(0, 9) && matrix.union_rows(0, 1) && matrix.contains(1, 9);
    let has_gone = matrix.remove(0, 9) && matrix.intersect_rows(0, 1);
    transitive_closure(matrix);
    has_come && has_gone && !matrix.union_rows(0, 1)
}

// Whether a matrix of too many bits is refused as one.
fn is_too_large<B: BitBlock>(alloc: Global) -> bool {
    match BitMatrix::<B>::new_general(alloc, usize::MAX, 2) {
        Ok(_) => false,
        Err(fault) => fault == MatrixError::Length,
    }
}

// Whether the first row is the set that is lent.
fn is_row_of_lent<B: BitBlock>(alloc: Global, rows: &BitMatrix<B>) -> Result<bool, AllocError> {
    if rows.rows() == 0 {
        return Ok(false);
    }
    let set = rows.row_to_set(alloc, 0)?;
    Ok(is_state(&set, LENT))
}

// Makes a matrix. Whether it is right.
fn makes<B: BitBlock>(
    alloc: Global,
    call: &Call,
    set: &BitSet<B>,
    rows: &BitMatrix<B>,
) -> Result<bool, Fault> {
    Ok(match call {
        Call::New => has_rows(
            &BitMatrix::<B>::new_general(alloc, 3, COLUMNS)?,
            3,
            COLUMNS,
            &[],
        ),
        Call::FromRow => BitMatrix::from_row(alloc, set, 2)? == *rows,
        Call::Clone => rows.clone(alloc)? == *rows,
        _ => is_transposed(&rows.transpose(alloc)?),
    })
}

impl<B: BitBlock> Trial<Call> for Matrices<B> {
    fn prepare(alloc: Global, _call: &Call) -> Result<Self, Fault> {
        let lent = set_of(alloc, LENT_ELEMENTS)?;
        let rows = BitMatrix::from_row(alloc, &lent, 2)?;
        Ok(Matrices { lent, rows })
    }

    fn make(&mut self, alloc: Global, call: &Call) -> Result<bool, Fault> {
        match call {
            Call::RowToSet => Ok(is_row_of_lent(alloc, &self.rows)?),
            Call::TooMany => Ok(is_too_large::<B>(alloc)),
            Call::Change => Ok(changes(&mut self.rows)),
            _ => makes(alloc, call, &self.lent, &self.rows),
        }
    }

    fn is_right(&mut self, _alloc: Global, _call: &Call, _returned: bool) -> Result<bool, Fault> {
        Ok(is_state(&self.lent, LENT) & has_rows(&self.rows, 2, COLUMNS, LENT_ELEMENTS))
    }
}
