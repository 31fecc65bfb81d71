// Walks over graphs, and their closure.
use bit_set::{BitBlock, BitSet, SetError};
use graph_walks::{close, reachable};
use std::alloc::{AllocError, Global};

// The end of an edge: each node has as many, and those of one node come after those of another.
pub(crate) fn end_of(ends: &[usize], each: usize, node: usize, edge: usize) -> usize {
    let place = node.wrapping_mul(each).wrapping_add(edge);
    ends.get(place).copied().unwrap_or(0)
}

// A row of successors for each node.
fn lists(
    alloc: Global,
    nodes: usize,
    each: usize,
    ends: &[usize],
) -> Result<Vec<Vec<usize>>, AllocError> {
    let mut rows = Vec::new(alloc);
    for node in 0..nodes {
        let mut row = Vec::new(alloc);
        for edge in 0..each {
            row.push(end_of(ends, each, node, edge))?;
        }
        rows.push(row)?;
    }
    Ok(rows)
}

// A set of successors for each node, with capacity for all nodes.
pub(crate) fn sets<B: BitBlock>(
    alloc: Global,
    nodes: usize,
    each: usize,
    ends: &[usize],
) -> Result<Vec<BitSet<B>>, SetError> {
    let mut rows = Vec::new(alloc);
    for node in 0..nodes {
        let mut row = BitSet::with_capacity_general(alloc, nodes)?;
        for edge in 0..each {
            row.insert(end_of(ends, each, node, edge))?;
        }
        rows.push(row)?;
    }
    Ok(rows)
}

// Adds up how many nodes are reached from the first one.
pub(crate) fn reach<B: BitBlock>(
    alloc: Global,
    nodes: usize,
    each: usize,
    ends: &[usize],
    turns: usize,
) -> Result<usize, SetError> {
    let rows = lists(alloc, nodes, each, ends)?;
    let mut sum = 0usize;
    for _turn in 0..turns {
        let reached = reachable::<B, _>(alloc, rows.as_slice(), 0)?;
        sum = sum.wrapping_add(reached.count());
    }
    Ok(sum)
}

// Closes copies of the rows, and adds up how many edges these have then.
fn close_copies<B: BitBlock>(
    alloc: Global,
    rows: &[BitSet<B>],
    turns: usize,
) -> Result<usize, AllocError> {
    let mut sum = 0usize;
    for _turn in 0..turns {
        let mut closed = Vec::with_capacity(alloc, rows.len())?;
        for row in rows {
            closed.push(row.clone(alloc)?)?;
        }
        close(alloc, closed.as_mut_slice())?;
        for row in &closed {
            sum = sum.wrapping_add(row.count());
        }
    }
    Ok(sum)
}

pub(crate) fn close_all<B: BitBlock>(
    alloc: Global,
    nodes: usize,
    each: usize,
    ends: &[usize],
    turns: usize,
) -> Result<usize, SetError> {
    let rows = sets::<B>(alloc, nodes, each, ends)?;
    Ok(close_copies(alloc, rows.as_slice(), turns)?)
}
