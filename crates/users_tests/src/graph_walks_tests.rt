//! The walks and the closure of long lines and of small graphs, and the examples of the doc comments.
use crate::expect::{Test, expect, expect_eq, expect_eq_at, ok, set_of, sets_of};
use bit_matrix::{BitMatrix, MatrixError};
use bit_set::{BitBlock, BitSet, SetError};
use graph_walks::{
    Effort, close, reachable, reachable_counted, reachable_from_any, reachable_from_any_counted,
    reaches_all_of,
};
use std::alloc::AllocError;

mod matrix_tests;

fn closed(rt: &impl Test, rows: &mut [BitSet]) -> Result<(), AllocError> {
    let alloc = rt.alloc();
    // The edges lead from 0 to 1 and from 1 to 2.
    close(alloc, rows)?;
    expect(rt, reaches_all_of(rows, 0, 1));
    // The rows are closed: 0 reaches 1 and 2, and 1 reaches 2.
    expect(rt, reaches_all_of(rows, 0, 1));
    expect(rt, !reaches_all_of(rows, 1, 0));
    Ok(())
}

#[test]
fn examples_of_closed_rows(rt: HostRuntime) {
    let mut rows = sets_of(&rt, &[&[1], &[2], &[]]);
    ok(&rt, closed(&rt, rows.as_mut_slice()));
}

fn edges_of_three(rt: &impl Test) -> Result<BitMatrix, MatrixError> {
    let mut edges = BitMatrix::new(rt.alloc(), 3, 3)?;
    edges.insert(0, 1);
    edges.insert(1, 2);
    Ok(edges)
}

fn a_walk(rt: &impl Test, edges: &BitMatrix) -> Result<(), SetError> {
    let alloc = rt.alloc();
    // The edges lead from 0 to 1 and from 1 to 2.
    let reached: BitSet = reachable(alloc, edges, 0)?;
    expect(rt, reached.iter().eq([0, 1, 2]));
    a_counted_walk(rt, edges, reached)
}

fn a_counted_walk(rt: &impl Test, edges: &BitMatrix, reached: BitSet) -> Result<(), SetError> {
    let alloc = rt.alloc();
    let mut effort = Effort::new();
    let counted: BitSet = reachable_counted(alloc, edges, 0, &mut effort)?;
    expect(rt, counted == reached);
    Ok(())
}

fn a_walk_from_two(rt: &impl Test, edges: &BitMatrix, starts: &BitSet) -> Result<(), SetError> {
    let alloc = rt.alloc();
    // The starts are {1, 2}.
    let others: BitSet = reachable_from_any(alloc, edges, &starts)?;
    expect(rt, others.iter().eq([1, 2]));
    a_counted_walk_from_two(rt, (edges, starts), others)
}

fn a_counted_walk_from_two(
    rt: &impl Test,
    (edges, starts): (&BitMatrix, &BitSet),
    others: BitSet,
) -> Result<(), SetError> {
    let alloc = rt.alloc();
    let mut effort = Effort::new();
    let more: BitSet = reachable_from_any_counted(alloc, edges, &starts, &mut effort)?;
    expect(rt, more == others);
    Ok(())
}

#[test]
fn examples_of_walks(rt: HostRuntime) {
    let edges = ok(&rt, edges_of_three(&rt));
    ok(&rt, a_walk(&rt, &edges));
    ok(&rt, a_walk_from_two(&rt, &edges, &set_of(&rt, &[1, 2])));
}

// These numbers as a list.
fn listed(rt: &impl Test, numbers: &[usize]) -> Vec<usize> {
    ok(rt, Vec::from_slice(rt.alloc(), numbers))
}

// A graph of these rows.
fn rows_of(rt: &impl Test, lists: &[&[usize]]) -> Vec<Vec<usize>> {
    let mut rows = Vec::new(rt.alloc());
    for list in lists {
        ok(rt, rows.push(listed(rt, list)));
    }
    rows
}

// Each node leads to the next.
fn line(rt: &impl Test, nodes: usize) -> Vec<Vec<usize>> {
    let mut rows = Vec::new(rt.alloc());
    for node in 0..nodes {
        ok(rt, rows.push(listed(rt, &[node + 1])));
    }
    rows
}

// How many nodes are reached from one.
fn count_from_one(rt: &impl Test, rows: &[Vec<usize>], start: usize) -> usize {
    ok(rt, reachable::<u32, _>(rt.alloc(), rows, start)).count()
}

// How many nodes are reached from any of some.
fn count_from(rt: &impl Test, rows: &[Vec<usize>], starts: &BitSet) -> usize {
    let reached: BitSet = ok(rt, reachable_from_any(rt.alloc(), rows, starts));
    reached.count()
}

// A node of a line of a hundred thousand, and how many are reached from it.
const REACHED: &[(usize, usize)] = &[(0, 100_001), (40_000, 60_001), (99_999, 2), (100_000, 1)];

// The same of many nodes, and of none.
const FROM_MANY: &[(&[usize], usize)] = &[(&[40_000, 70_000], 60_001), (&[], 0)];

#[test]
fn a_line(rt: HostRuntime) {
    let rows = line(&rt, 100_000);
    for (start, count) in REACHED {
        let found = count_from_one(&rt, rows.as_slice(), *start);
        expect_eq_at(&rt, *start, &found, count);
    }
    for (starts, count) in FROM_MANY {
        let found = count_from(&rt, rows.as_slice(), &set_of(&rt, starts));
        expect_eq(&rt, &found, count);
    }
    let all = ok(&rt, BitSet::from_iter(rt.alloc(), 0..100_000));
    expect_eq(&rt, &count_from(&rt, rows.as_slice(), &all), &100_001);
}

// How many nodes each row of a closed line of 1,000 nodes has.
#[test]
fn a_closed_line(rt: HostRuntime) {
    let mut sets = Vec::new(rt.alloc());
    for node in 1..=1000 {
        ok(&rt, sets.push(set_of::<u64>(&rt, &[node])));
    }
    ok(&rt, close(rt.alloc(), sets.as_mut_slice()));
    for (node, row) in sets.iter().enumerate() {
        expect_eq_at(&rt, node, &row.count().saturating_add(node), &1000);
    }
}

#[test]
fn a_path_to_the_greatest_number(rt: HostRuntime) {
    let greatest = 18446744073709551615;
    let rows = rows_of(&rt, &[&[1], &[1, greatest], &[2]]);
    for start in [0, 1, greatest] {
        let fault = reachable::<u32, _>(rt.alloc(), rows.as_slice(), start).err();
        expect_eq_at(&rt, start, &fault, &Some(SetError::Element));
    }
    expect_eq(&rt, &count_from_one(&rt, rows.as_slice(), 2), &1);
}

// Whether the row of a node is these numbers.
fn is_row<B: BitBlock>(sets: &[BitSet<B>], node: usize, numbers: &[usize]) -> bool {
    match sets.get(node) {
        Some(row) => row.iter().eq(numbers.iter().copied()),
        None => false,
    }
}

// Two nodes of the closure, and whether the first reaches all that the second reaches.
const REACHES: &[(usize, usize, bool)] = &[
    (0, 1, true),
    (1, 0, false),
    (1, 3, true),
    (3, 1, true),
    (2, 1, false),
    (2, 70, true),
    (70, 2, false),
    (70, 71, true),
];

// 0 leads to 1 and 2, 1 to 3, 2 to itself, 3 to 1 and past the end.
#[test]
fn a_small_closure(rt: HostRuntime) {
    let mut sets = sets_of::<u32>(&rt, &[&[1, 2], &[3], &[2], &[1, 70]]);
    ok(&rt, close(rt.alloc(), sets.as_mut_slice()));
    expect_eq(&rt, &sets.len(), &4);
    let lists: [&[usize]; 4] = [&[1, 2, 3, 70], &[1, 3, 70], &[2], &[1, 3, 70]];
    for (node, list) in lists.iter().enumerate() {
        expect_eq_at(&rt, node, &is_row(sets.as_slice(), node, list), &true);
    }
    for (a, b, wanted) in REACHES {
        expect_eq_at(&rt, *a, &reaches_all_of(sets.as_slice(), *a, *b), wanted);
    }
}
