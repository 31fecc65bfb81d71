// Matrices of bits: their closure, unions of rows, and walks over a row.
ghost use Rattle.std.specs.Prelude.{◌≡◌, ◌<◌, length};

use crate::graphs::end_of;
use bit_matrix::{BitBlock, BitMatrix, MatrixError};
use bit_set::BitSet;
use graph_walks::transitive_closure;
use std::alloc::{AllocError, Global};

// Puts the column into the row, where there are both.
fn put<B: BitBlock>(matrix: &mut BitMatrix<B>, row: usize, column: usize)
    ensures { length matrix.new.rows ≡ length matrix.old.rows }
{
    if row < matrix.rows() && column < matrix.columns() {
        matrix.insert(row, column);
    }
}

// How many columns are in the rows.
fn count_all<B: BitBlock>(matrix: &BitMatrix<B>) -> usize {
    let mut sum = 0usize;
    for row in 0..matrix.rows() {
        sum = sum.wrapping_add(matrix.count(row));
    }
    sum
}

// The matrix of a graph's edges, a row for each node.
fn edges<B: BitBlock>(
    alloc: Global,
    nodes: usize,
    each: usize,
    ends: &[usize],
) -> Result<BitMatrix<B>, MatrixError> {
    let mut matrix = BitMatrix::new_general(alloc, nodes, nodes)?;
    for node in 0..nodes {
        for edge in 0..each {
            put(&mut matrix, node, end_of(ends, each, node, edge));
        }
    }
    Ok(matrix)
}

// Closes copies of the matrix, and adds up how many edges these have then.
fn close_copies<B: BitBlock>(
    alloc: Global,
    matrix: &BitMatrix<B>,
    turns: usize,
) -> Result<usize, AllocError> {
    let mut sum = 0usize;
    for _turn in 0..turns {
        let mut closed = matrix.clone(alloc)?;
        transitive_closure(&mut closed);
        sum = sum.wrapping_add(count_all(&closed));
    }
    Ok(sum)
}

pub(crate) fn close_matrix<B: BitBlock>(
    alloc: Global,
    nodes: usize,
    each: usize,
    ends: &[usize],
    turns: usize,
) -> Result<usize, MatrixError> {
    let matrix = edges::<B>(alloc, nodes, each, ends)?;
    Ok(close_copies(alloc, &matrix, turns)?)
}

// Each turn puts what is in the last row into one of the two others.
fn unite(rows: &mut BitMatrix<u32>, turns: usize)
    requires { 2 < length rows.old.rows }
{
    for turn in 0..turns {
        rows.union_rows(2, turn % 2);
    }
}

fn unite_turns(
    alloc: Global,
    len: usize,
    first: &[usize],
    second: &[usize],
    turns: usize,
) -> Result<usize, MatrixError> {
    let mut rows = BitMatrix::new(alloc, 3, len)?;
    for number in first {
        put(&mut rows, 0, *number);
        put(&mut rows, 1, *number);
    }
    for number in second {
        put(&mut rows, 2, *number);
    }
    if rows.rows() <= 2 {
        return Ok(0);
    }
    let last = rows.count(2);
    unite(&mut rows, turns);
    Ok(count_all(&rows).wrapping_sub(last))
}

#[unsafe(no_mangle)]
pub extern "C" fn bench_small_union_rows(
    alloc: Global,
    len: usize,
    first: &[usize],
    second: &[usize],
    turns: usize,
) -> usize {
    unite_turns(alloc, len, first, second, turns).unwrap_or(usize::MAX)
}

fn sum_of_row(matrix: &BitMatrix<u64>, row: usize) -> usize
    requires { row < length matrix.now.rows }
{
    let mut sum = 0usize;
    for column in matrix.iter(row) {
        sum = sum.wrapping_add(column);
    }
    sum
}

// Walks over a row of the members. One number leaves after each turn, so that no turn can be the result of another.
fn walk_turns(alloc: Global, members: &[usize], turns: usize) -> Option<usize> {
    let set = BitSet::<u64>::from_iter(alloc, members.iter().copied()).ok()?;
    let mut matrix = BitMatrix::from_row(alloc, &set, 1).ok()?;
    let mut sum = 0usize;
    for turn in 0..turns {
        if matrix.rows() > 0 && turn < matrix.columns() {
            sum = sum.wrapping_add(sum_of_row(&matrix, 0));
            let _was = matrix.remove(0, turn);
        }
    }
    Some(sum)
}

#[unsafe(no_mangle)]
pub extern "C" fn bench_walk_row(alloc: Global, members: &[usize], turns: usize) -> usize {
    walk_turns(alloc, members, turns).unwrap_or(usize::MAX)
}
