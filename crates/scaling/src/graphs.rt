// Closures and dominators of a chain of n nodes, and a matrix transposed.
use crate::faults::Fault;
use crate::work::{Sets, Work};
use bit_matrix::BitMatrix;
use bit_set::BitSet;
use graph_walks::{close, dominators, reflexive_transitive_closure, transitive_closure};
use std::alloc::Global;

#[derive(Clone, Copy)]
pub enum Table {
    Close,
    TransitiveClosure,
    ReflexiveTransitiveClosure,
    Dominators,
    Transpose,
}

// Puts the column into the row, where there are both.
fn put(matrix: &mut BitMatrix<u64>, row: usize, column: usize) {
    if row < matrix.rows() && column < matrix.columns() {
        matrix.insert(row, column);
    }
}

fn count_all(matrix: &BitMatrix<u64>) -> usize {
    let mut sum = 0usize;
    for row in 0..matrix.rows() {
        sum = sum.wrapping_add(matrix.count(row));
    }
    sum
}

// The matrix of a chain: an edge from each node to the next one.
fn chain(alloc: Global, n: usize) -> Result<BitMatrix<u64>, Fault> {
    let mut matrix = BitMatrix::new_general(alloc, n, n)?;
    for node in 1..n {
        put(&mut matrix, node - 1, node);
    }
    Ok(matrix)
}

// The same as a set of successors for each node.
fn chain_of_sets(alloc: Global, n: usize) -> Result<Vec<BitSet<u64>>, Fault> {
    let mut rows = Vec::new(alloc);
    for node in 0..n {
        let mut row = BitSet::with_capacity_general(alloc, n)?;
        if node + 1 < n {
            row.insert(node + 1)?;
        }
        rows.push(row)?;
    }
    Ok(rows)
}

// The same as a list of successors for each node.
fn chain_of_lists(alloc: Global, n: usize) -> Result<Vec<Vec<usize>>, Fault> {
    let mut rows = Vec::new(alloc);
    for node in 0..n {
        let mut row = Vec::new(alloc);
        if node + 1 < n {
            row.push(node + 1)?;
        }
        rows.push(row)?;
    }
    Ok(rows)
}

fn close_chain(alloc: Global, n: usize) -> Result<usize, Fault> {
    let mut rows = chain_of_sets(alloc, n)?;
    close(alloc, rows.as_mut_slice())?;
    let mut sum = 0usize;
    for row in &rows {
        sum = sum.wrapping_add(row.count());
    }
    Ok(sum)
}

fn dominators_of_chain(alloc: Global, n: usize) -> Result<usize, Fault> {
    let rows = chain_of_lists(alloc, n)?;
    let matrix = dominators::<u64, _>(alloc, rows.as_slice(), 0)?;
    Ok(count_all(&matrix))
}

// A matrix in which each row has the columns that its set has, transposed.
fn transposed(alloc: Global, set: &BitSet<u64>, n: usize) -> Result<usize, Fault> {
    let matrix = BitMatrix::from_row(alloc, set, n)?;
    let other = matrix.transpose(alloc)?;
    Ok(other.rows())
}

impl Work for Table {
    fn from_name(name: &str) -> Option<Self> {
        Some(match name {
            "close" => Table::Close,
            "transitive_closure" => Table::TransitiveClosure,
            "reflexive_transitive_closure" => Table::ReflexiveTransitiveClosure,
            "dominators" => Table::Dominators,
            "transpose" => Table::Transpose,
            _ => return None,
        })
    }

    fn turn(self, alloc: Global, sets: &mut Sets, n: usize) -> Result<usize, Fault> {
        match self {
            Table::Close => close_chain(alloc, n),
            Table::TransitiveClosure => {
                let mut matrix = chain(alloc, n)?;
                transitive_closure(&mut matrix);
                Ok(count_all(&matrix))
            }
            Table::ReflexiveTransitiveClosure => {
                let mut matrix = chain(alloc, n)?;
                reflexive_transitive_closure(&mut matrix);
                Ok(count_all(&matrix))
            }
            Table::Dominators => dominators_of_chain(alloc, n),
            Table::Transpose => transposed(alloc, &sets.set, n),
        }
    }
}
