//! The closures and the dominators of graphs, worked out by hand, and the examples of the doc comments.
use super::rows_of;
use crate::expect::{Test, expect, expect_eq, expect_eq_at, ok, sets_of, table};
use bit_matrix::{BitBlock, BitMatrix, MatrixError};
use graph_walks::{Graph, dominators, reflexive_transitive_closure, transitive_closure};

// Puts the column into the row, where there are both.
fn put<B: BitBlock>(matrix: &mut BitMatrix<B>, row: usize, column: usize) {
    if row < matrix.rows() && column < matrix.columns() {
        matrix.insert(row, column);
    }
}

// The matrix of these rows, without what is past its columns.
fn matrix_of<B: BitBlock>(rt: &impl Test, columns: usize, rows: &[&[usize]]) -> BitMatrix<B> {
    let mut matrix = ok(rt, BitMatrix::new_general(rt.alloc(), rows.len(), columns));
    for (node, row) in rows.iter().enumerate() {
        for column in *row {
            put(&mut matrix, node, *column);
        }
    }
    matrix
}

// Whether the row has just these columns, in ascending order.
fn is_row<B: BitBlock>(matrix: &BitMatrix<B>, row: usize, columns: &[usize]) -> bool {
    row < matrix.rows() && matrix.iter(row).eq(columns.iter().copied())
}

// The matrix has just these rows.
fn check_rows<B: BitBlock>(rt: &impl Test, matrix: &BitMatrix<B>, lists: &[&[usize]]) {
    expect(rt, matrix.rows() == lists.len());
    for (row, list) in lists.iter().enumerate() {
        expect_eq_at(rt, row, &is_row(matrix, row, list), &true);
    }
}

fn closed_chain(rt: &impl Test) -> Result<(), MatrixError> {
    let alloc = rt.alloc();
    let mut reaches = BitMatrix::new(alloc, 3, 3)?;
    reaches.insert(0, 1);
    reaches.insert(1, 2);
    transitive_closure(&mut reaches);
    expect(rt, reaches.contains(0, 2));
    check_rows(rt, &reaches, &[&[1, 2], &[2], &[]]);
    Ok(())
}

fn reflexive_chain(rt: &impl Test) -> Result<(), MatrixError> {
    let alloc = rt.alloc();
    let mut reaches = BitMatrix::new(alloc, 3, 3)?;
    reaches.insert(0, 1);
    reaches.insert(1, 2);
    reflexive_transitive_closure(&mut reaches);
    expect(rt, reaches.iter(0).eq([0, 1, 2]));
    expect(rt, reaches.iter(2).eq([2]));
    check_rows(rt, &reaches, &[&[0, 1, 2], &[1, 2], &[2]]);
    Ok(())
}

fn four_nodes(rt: &impl Test) -> Result<(), MatrixError> {
    let alloc = rt.alloc();
    let mut edges = BitMatrix::new(alloc, 4, 4)?;
    edges.insert(0, 1);
    edges.insert(0, 2);
    edges.insert(1, 3);
    edges.insert(2, 3);
    let found: BitMatrix = dominators(alloc, &edges, 0)?;
    expect(rt, found.iter(3).eq([0, 3]));
    Ok(())
}

#[test]
fn examples_of_matrices(rt: HostRuntime) {
    ok(&rt, closed_chain(&rt));
    ok(&rt, reflexive_chain(&rt));
    ok(&rt, four_nodes(&rt));
}

type Rows = &'static [&'static [usize]];

// How many columns a matrix has, the rows of the graph, and those of its two closures.
type Closures = (usize, Rows, Rows, Rows);

const CLOSURES: &[Closures] = table! {
    // 0 leads into the loop of 1, 2 and 3, and nothing to 4, which leads there too.
    5, &[&[1], &[2], &[3], &[1], &[0]], &[&[1, 2, 3], &[1, 2, 3], &[1, 2, 3], &[1, 2, 3], &[0, 1, 2, 3]],
        &[&[0, 1, 2, 3], &[1, 2, 3], &[1, 2, 3], &[1, 2, 3], &[0, 1, 2, 3, 4]];
    // The node 2 has a row and is no column.
    2, &[&[1], &[0], &[1]], &[&[0, 1], &[0, 1], &[0, 1]], &[&[0, 1], &[0, 1], &[0, 1]];
    // If there are fewer rows, 2 and 3 are columns and have no row.
    4, &[&[1], &[3]], &[&[1, 3], &[3]], &[&[0, 1, 3], &[1, 3]];
};

#[test]
fn graphs_have_closures(rt: HostRuntime) {
    for (columns, edges, closed, reflexive) in CLOSURES {
        let mut matrix = matrix_of::<u8>(&rt, *columns, edges);
        transitive_closure(&mut matrix);
        check_rows(&rt, &matrix, closed);
        let mut matrix = matrix_of::<u64>(&rt, *columns, edges);
        reflexive_transitive_closure(&mut matrix);
        check_rows(&rt, &matrix, reflexive);
    }
}

// The dominators of this graph have just these rows.
fn check_graph<B: BitBlock, G: Graph>(rt: &impl Test, graph: G, entry: usize, lists: &[&[usize]]) {
    let found = ok(rt, dominators::<B, G>(rt.alloc(), graph, entry));
    expect_eq(rt, &found.columns(), &found.rows());
    check_rows(rt, &found, lists);
}

// The edges of a graph, its entry, and the rows of its dominators.
const DOMINATORS: &[(Rows, usize, Rows)] = table! {
    // Loops within loops, and a back edge from 8 to the entry.
    &[&[1, 2], &[2], &[3], &[2, 4, 5], &[6], &[6], &[3, 7], &[2, 8, 9], &[0], &[6]], 0,
        &[&[0], &[0, 1], &[0, 2], &[0, 2, 3], &[0, 2, 3, 4], &[0, 2, 3, 5], &[0, 2, 3, 6],
            &[0, 2, 3, 6, 7], &[0, 2, 3, 6, 7, 8], &[0, 2, 3, 6, 7, 9]];
    // Loops that are entered at more than one node.
    &[&[1, 2], &[2], &[1]], 0, &[&[0], &[0, 1], &[0, 2]];
    &[&[1], &[0, 2], &[1], &[1, 2], &[0], &[3, 4]], 5, &[&[0, 5], &[1, 5], &[2, 5], &[3, 5], &[4, 5], &[5]];
    // No path leads to 2 and 3, and an edge from 2 to 1 takes nothing out of the row of 1.
    &[&[1], &[], &[1, 3], &[2]], 0, &[&[0], &[0, 1], &[0, 1, 2, 3], &[0, 1, 2, 3]];
    // Edges to the entry, from a node to itself and past the end change nothing.
    OUTWARD, 0, &[&[0], &[0, 1], &[0, 1, 2]];
    // From past the end no node is reached.
    OUTWARD, 3, &[&[0, 1, 2], &[0, 1, 2], &[0, 1, 2]];
    OUTWARD, usize::MAX, &[&[0, 1, 2], &[0, 1, 2], &[0, 1, 2]];
    &[], 0, &[];
    &[&[0]], 0, &[&[0]];
};

const OUTWARD: Rows = &[&[0, 1, 9], &[0, 1, 2], &[2, 70, 1]];

// So it is of the graph as lists, as sets and as a matrix.
#[test]
fn graphs_have_dominators(rt: HostRuntime) {
    for (edges, entry, lists) in DOMINATORS {
        let rows = rows_of(&rt, edges);
        check_graph::<u8, _>(&rt, rows.as_slice(), *entry, lists);
        let sets = sets_of::<u32>(&rt, edges);
        check_graph::<u32, _>(&rt, sets.as_slice(), *entry, lists);
        let matrix = matrix_of::<u64>(&rt, edges.len(), edges);
        check_graph::<u64, _>(&rt, &matrix, *entry, lists);
    }
}
