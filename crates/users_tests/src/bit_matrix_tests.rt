//! The examples of the doc comments of `bit_matrix`, as they are there but for `expect`, which costs less, and rows of many
//! blocks.
use crate::expect::{Test, expect, expect_eq, ok, shows};
use bit_matrix::{BitBlock, BitMatrix, MatrixError};
use bit_set::BitSet;
use block24::Block24;
use std::alloc::AllocError;
use std::fmt;

fn three_nodes(rt: &impl Test) -> Result<(), MatrixError> {
    let alloc = rt.alloc();
    let mut reaches = BitMatrix::new(alloc, 3, 3)?;
    reaches.insert(0, 1);
    reaches.insert(1, 2);
    expect(rt, reaches.union_rows(1, 0));
    expect(rt, reaches.contains(0, 2));
    Ok(())
}

fn by_another_node(rt: &impl Test) -> Result<(), MatrixError> {
    let alloc = rt.alloc();
    let mut reaches = BitMatrix::new(alloc, 2, 3)?;
    reaches.insert(1, 2);
    // What the node 0 reaches, it reaches by the node 1 too.
    expect(rt, reaches.union_rows(1, 0));
    expect(rt, !reaches.union_rows(1, 0));
    Ok(())
}

#[test]
fn what_nodes_reach(rt: HostRuntime) {
    ok(&rt, three_nodes(&rt));
    ok(&rt, by_another_node(&rt));
}

fn nothing_in_it(rt: &impl Test) -> Result<(), MatrixError> {
    let alloc = rt.alloc();
    let matrix = BitMatrix::new(alloc, 3, 100)?;
    expect_eq(rt, &(matrix.rows(), matrix.columns()), &(3, 100));
    expect(rt, !matrix.contains(2, 99));
    Ok(())
}

fn past_the_end(rt: &impl Test) -> Result<(), MatrixError> {
    let alloc = rt.alloc();
    let matrix = BitMatrix::new(alloc, 2, 3)?;
    expect_eq(rt, &matrix.get(1, 2), &Some(false));
    expect_eq(rt, &matrix.get(2, 1), &None);
    Ok(())
}

fn one_column(rt: &impl Test) -> Result<(), MatrixError> {
    let alloc = rt.alloc();
    let mut matrix = BitMatrix::new(alloc, 2, 3)?;
    expect(rt, matrix.insert(1, 2));
    expect(rt, !matrix.insert(1, 2));
    expect(rt, matrix.remove(1, 2));
    expect(rt, !matrix.remove(1, 2));
    Ok(())
}

#[test]
fn columns_that_are_there(rt: HostRuntime) {
    ok(&rt, nothing_in_it(&rt));
    ok(&rt, past_the_end(&rt));
    ok(&rt, one_column(&rt));
}

fn some_columns(rt: &impl Test) -> Result<(), MatrixError> {
    let alloc = rt.alloc();
    let mut matrix = BitMatrix::new(alloc, 2, 40)?;
    matrix.insert_range(1, 2..5);
    expect(rt, matrix.iter(1).eq([2, 3, 4]));
    let mut matrix = BitMatrix::new(alloc, 2, 40)?;
    matrix.insert_range(1, 2..5);
    expect_eq(rt, &matrix.count(1), &3);
    Ok(())
}

fn from_a_column_on(rt: &impl Test) -> Result<(), MatrixError> {
    let alloc = rt.alloc();
    let mut matrix = BitMatrix::new(alloc, 2, 40)?;
    matrix.insert_range(1, 2..5);
    expect(rt, matrix.iter_from(1, 3).eq([3, 4]));
    let mut matrix = BitMatrix::new(alloc, 2, 40)?;
    matrix.insert_range(1, 2..5);
    expect(rt, matrix.row_to_set(alloc, 1)?.iter().eq([2, 3, 4]));
    Ok(())
}

fn turned(rt: &impl Test) -> Result<(), MatrixError> {
    let alloc = rt.alloc();
    let mut matrix = BitMatrix::new(alloc, 2, 40)?;
    matrix.insert(0, 2);
    expect(rt, matrix.transpose(alloc)?.contains(2, 0));
    Ok(())
}

#[test]
fn ranges_of_columns(rt: HostRuntime) {
    ok(&rt, some_columns(&rt));
    ok(&rt, from_a_column_on(&rt));
    ok(&rt, turned(&rt));
}

// The set of a byte.
fn set_of_a_byte(rt: &impl Test) -> BitSet {
    ok(rt, BitSet::from_bytes(rt.alloc(), &[0b0100_1010]))
}

fn rows_of(rt: &impl Test, set: BitSet) -> Result<(), MatrixError> {
    let alloc = rt.alloc();
    // The set is {1, 4, 6}.
    let matrix = BitMatrix::from_row(alloc, &set, 2)?;
    expect(rt, matrix.iter(1).eq([1, 4, 6]));
    Ok(())
}

fn with_a_set(rt: &impl Test, columns: BitSet) -> Result<(), MatrixError> {
    let alloc = rt.alloc();
    let mut matrix = BitMatrix::new(alloc, 2, 40)?;
    let mut set = columns;
    set.truncate(matrix.columns());
    expect(rt, matrix.union_row_with(&set, 1));
    expect(rt, !matrix.union_row_with(&set, 1));
    Ok(())
}

fn a_row_that_is_a_set(rt: &impl Test, set: BitSet) -> Result<(), MatrixError> {
    let alloc = rt.alloc();
    let matrix = BitMatrix::from_row(alloc, &set, 2)?;
    expect(rt, matrix.row_equals(1, &matrix.row_to_set(alloc, 1)?));
    expect(rt, !matrix.row_equals(1, &BitSet::new(alloc)));
    Ok(())
}

#[test]
fn rows_and_sets(rt: HostRuntime) {
    ok(&rt, rows_of(&rt, set_of_a_byte(&rt)));
    ok(&rt, with_a_set(&rt, set_of_a_byte(&rt)));
    ok(&rt, a_row_that_is_a_set(&rt, set_of_a_byte(&rt)));
}

// Of 25 blocks a union takes sixteen at once, then four twice, and then one.
fn long_rows(rt: &impl Test) -> Result<(), MatrixError> {
    let mut matrix = BitMatrix::<u8>::new_general(rt.alloc(), 2, 200)?;
    matrix.insert_range(1, 100..200);
    expect(rt, matrix.union_rows(1, 0));
    expect_eq(rt, &matrix.count(0), &100);
    expect(rt, matrix.transpose(rt.alloc())?.contains(199, 1));
    Ok(())
}

#[test]
fn rows_of_many_blocks(rt: HostRuntime) {
    ok(&rt, long_rows(&rt));
}

// Puts the columns of a pattern into each row, which are two of five.
fn patterned<B: BitBlock>(rt: &impl Test) -> Result<BitMatrix<B>, MatrixError> {
    let mut matrix = BitMatrix::new_general(rt.alloc(), 150, 171)?;
    for row in 0..matrix.rows() {
        for column in 0..matrix.columns() {
            let is_in = row.wrapping_mul(7).wrapping_add(column) % 5 < 2;
            if is_in && row < matrix.rows() && column < matrix.columns() {
                matrix.insert(row, column);
            }
        }
    }
    Ok(matrix)
}

// By squares, of which some are cut by the last row, and column by column past the last whole block.
fn turned_by_squares<B: BitBlock>(rt: &impl Test) -> Result<(), MatrixError> {
    let matrix = patterned::<B>(rt)?;
    let transposed = matrix.transpose(rt.alloc())?;
    for row in 0..171 {
        for column in 0..150 {
            expect_eq(rt, &transposed.get(row, column), &matrix.get(column, row));
        }
    }
    expect(rt, transposed.transpose(rt.alloc())? == matrix);
    Ok(())
}

#[test]
fn a_matrix_that_is_turned_by_squares(rt: HostRuntime) {
    ok(&rt, turned_by_squares::<u8>(&rt));
    ok(&rt, turned_by_squares::<u32>(&rt));
    ok(&rt, turned_by_squares::<u64>(&rt));
    ok(&rt, turned_by_squares::<Block24>(&rt));
}

// Of three columns, with 0 and 2 in the first row and none in the other.
fn two_rows(rt: &impl Test) -> Result<BitMatrix, MatrixError> {
    let mut matrix = BitMatrix::new(rt.alloc(), 2, 3)?;
    matrix.insert(0, 0);
    matrix.insert(0, 2);
    Ok(matrix)
}

fn debugs(rt: &impl Test, matrix: &BitMatrix, text: &str) {
    let shown = ok(rt, format!(in rt.alloc(); "{matrix:?}"));
    expect_eq(rt, &shown.as_str(), &text);
}

const TEXTS: &[(MatrixError, &str)] = &[
    (MatrixError::Length, "too many bits"),
    (MatrixError::Memory(AllocError), "memory refused"),
];

#[test]
fn matrices_and_faults_have_texts(rt: HostRuntime) {
    let matrix = ok(&rt, two_rows(&rt));
    shows(&rt, &matrix, "{0, 2}\n{}\n");
    debugs(&rt, &matrix, "BitMatrix { columns: 3, rows: [{0, 2}, {}] }");
    let none = ok(&rt, BitMatrix::new(rt.alloc(), 0, 4));
    debugs(&rt, &none, "BitMatrix { columns: 4, rows: [] }");
    for (fault, text) in TEXTS {
        shows(&rt, fault, text);
    }
}

// Takes this many pieces of a text, and fails from then on.
#[derive(Drop)]
struct Sink {
    most: usize,
    offered: usize,
}

impl fmt::Write for Sink {
    fn write_str(&mut self, _text: &str) -> fmt::Result {
        self.offered = self.offered.saturating_add(1);
        if self.offered > self.most {
            return Err(fmt::Error);
        }
        Ok(())
    }
}

// How many pieces are offered to what takes this many of them, and whether the writing failed.
fn offered(matrix: &BitMatrix, is_debug: bool, most: usize) -> (usize, bool) {
    let mut sink = Sink { most, offered: 0 };
    let ended = if is_debug {
        fmt::Write::write_fmt(&mut sink, format_args!("{matrix:?}"))
    } else {
        fmt::Write::write_fmt(&mut sink, format_args!("{matrix}"))
    };
    (sink.offered, ended.is_err())
}

// Each piece that is not taken is the last that is offered, and the writing fails.
fn fails_with_its_writer(rt: &impl Test, matrix: &BitMatrix, is_debug: bool) {
    let (count, failed) = offered(matrix, is_debug, usize::MAX);
    expect(rt, !failed && count > 4);
    for most in 0..count {
        let wanted = (most.saturating_add(1), true);
        expect_eq(rt, &offered(matrix, is_debug, most), &wanted);
    }
}

#[test]
fn texts_fail_with_their_writer(rt: HostRuntime) {
    let matrix = ok(&rt, two_rows(&rt));
    fails_with_its_writer(&rt, &matrix, true);
    fails_with_its_writer(&rt, &matrix, false);
}

// As many rows as there can be, with no columns.
fn rows_of_nothing(rt: &impl Test) -> Result<(), MatrixError> {
    let matrix = BitMatrix::new(rt.alloc(), usize::MAX, 0)?;
    let transposed = matrix.transpose(rt.alloc())?;
    let size = (transposed.rows(), transposed.columns());
    expect_eq(rt, &size, &(0, usize::MAX));
    let same = BitMatrix::from_row(rt.alloc(), &BitSet::new(rt.alloc()), usize::MAX)?;
    expect(rt, same == matrix);
    expect(rt, transposed.transpose(rt.alloc())? == matrix);
    Ok(())
}

#[test]
fn a_matrix_of_no_columns_takes_no_time(rt: HostRuntime) {
    ok(&rt, rows_of_nothing(&rt));
}
