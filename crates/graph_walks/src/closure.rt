// The transitive closure of a graph of sets.
ghost use Rattle.std.specs.Prelude.{◌≡◌, ◌<◌, ◌≤◌, ◌⊎◌, ℕ, All, IsOk, OnErr, OnOk, length, map};
ghost use Rattle.graph_walks.specs.{Closed.{IsClosed, IsClosureOf, IsOnTheWay, Joins, row}, Paths.rows_of};

use bit_set::laws::members_of_merged_sets;
use bit_set::{BitBlock, BitSet};
use std::alloc::{AllocError, Global};

/// Sets row `u` to all nodes to which a path of at least one edge leads from `u`: Warshall's algorithm, a whole row
/// at a time. For `n` rows it makes `n` copies of a row, `n * n` tests and at most as many unions. It first
/// allocates one spare row, as long as the longest, and then only for a row whose capacity is less than that. Fails
/// only if memory runs out, and never if all rows have length 0. After a failure each row still has all that it
/// had, and nothing that the closure does not have, so that the call may be repeated.
///
/// ```
/// // The edges lead from 0 to 1 and from 1 to 2.
/// close(alloc, rows)?;
/// assert!(reaches_all_of(rows, 0, 1));
/// ```
pub fn close<B: BitBlock>(alloc: Global, rows: &mut [BitSet<B>]) -> Result<(), AllocError>
    ensures closure { OnOk result (IsClosureOf (rows_of rows.old) (rows_of rows.new)) }
    ensures closed { OnOk result (IsClosed (rows_of rows.new)) }
    ensures on_the_way { IsOnTheWay (rows_of rows.old) (rows_of rows.new) }
    ensures spare { (m : ℕ) → All (λ row. (length row.values ≤ m) × (m ≤ row.capacity)) rows.old
        → OnErr result (rows.new ≡ rows.old) }
    ensures capacity { (m : ℕ) → All (λ row. (length row.values ≤ m) × (m ≤ row.capacity)) rows.old
        → map (λ row. row.capacity) rows.new ≡ map (λ row. row.capacity) rows.old }
    ensures no_length { All (λ row. length row.values ≡ 0) rows.old → IsOk result }
{
    let mut via = BitSet::with_capacity_general(alloc, longest(rows))?;
    for node in 0..rows.len() {
        // It has the capacity for the longest row.
        via.clone_from(&rows[node]).unwrap();
        join_all(rows, node, &via)?;
    }
    Ok(())
}

// The greatest length of a row, or 0 if there are no rows.
fn longest<B: BitBlock>(rows: &[BitSet<B>]) -> usize
    ensures all { (u : ℕ) → u < length rows.now → length (row rows.now u).values ≤ result }
    ensures least { (m : ℕ) → ((u : ℕ) → u < length rows.now → length (row rows.now u).values ≤ m) → result ≤ m }
{
    let mut longest: usize = 0;
    for row in rows {
        longest = longest.max(row.get_ref().len());
    }
    longest
}

// Inserts the members of `via` into each row that has the node.
fn join_all<B: BitBlock>(
    rows: &mut [BitSet<B>],
    node: usize,
    via: &BitSet<B>,
) -> Result<(), AllocError>
    ensures each { OnOk result ((u : ℕ) → u < length rows.old
        → Joins node via.now (row rows.old u) (row rows.new u)) }
    ensures some { (u : ℕ) → Joins node via.now (row rows.old u) (row rows.new u)
        ⊎ (row rows.new u ≡ row rows.old u) }
    ensures full { OnErr result ((u : ℕ) × (u < length rows.old)
        × ((row rows.old u).capacity < length via.now.values)) }
{
    for row in rows.iter_mut() {
        join(row, node, via)?;
    }
    Ok(())
}

// Inserts the members of `via` into the row, if it has the node.
fn join<B: BitBlock>(row: &mut BitSet<B>, node: usize, via: &BitSet<B>) -> Result<(), AllocError>
    ensures joins { OnOk result (Joins node via.now row.old row.new) }
    ensures err { OnErr result (row.new ≡ row.old) }
    ensures full { OnErr result (row.old.capacity < length via.now.values) }
{
    members_of_merged_sets();
    if row.contains(node) {
        row.union_with(via)?;
    }
    Ok(())
}
