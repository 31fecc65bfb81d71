//! Loops to a fixed point: each number leads to those in its row, and the set gets everything to which its members
//! lead.
ghost use Rattle.std.specs.Prelude.{◌≡◌, ◌+◌, ◌<◌, ◌≤◌, ◌^◌, if◌then◌else◌, false, true, IfOk, IsTrue, OnErr, OnOk, length, slice_index_or};
ghost use Rattle.bit_set.specs.Bits.{Bits};
ghost use Rattle.bit_set.specs.Measures.{turns_left};
ghost use Rattle.bit_set.specs.Members.{HasNone, IsSubset, IsUnion, IsUnionWithDifference};
ghost use Rattle.bit_set.specs.Sets.{elements, has};
ghost use Rattle.uses.specs.Rows.{IsClosed, IsClosedBut, ReachesOnly};

use bit_set::{BitBlock, BitSet, laws};
use std::alloc::{AllocError, Global};

// How many members there can be.
fn few<B: BitBlock>(set: &BitSet<B>)
    ensures { length (elements set.now.values) < 2 ^ 64 }
{
    laws::sizes_of_sets();
    prove!(set.capacity() <= usize::MAX);
}

// Puts a row in, and what is new of it among what is pending.
fn take_on<B: BitBlock>(
    set: &mut BitSet<B>,
    pending: &mut BitSet<B>,
    row: &BitSet<B>,
) -> Result<(), AllocError>
    ensures set { OnOk result (IsUnion (elements set.old.values) (elements row.now.values) (elements set.new.values)) }
    ensures pending { OnOk result (IsUnionWithDifference (elements pending.old.values) (elements row.now.values)
        (elements set.old.values) (elements pending.new.values)) }
    ensures err { OnErr result (elements set.new.values ≡ elements set.old.values) }
    ensures count { OnOk result (turns_left (elements set.new.values) (elements pending.new.values)
        ≤ turns_left (elements set.old.values) (elements pending.old.values)) }
{
    if row.is_subset(set) {
        return Ok(());
    }
    pending.union_with_difference(row, set)?;
    set.union_changes(row)?;
    few(set);
    few(pending);
    Ok(())
}

// A turn: something pending goes, and its row comes in. Returns whether there was something.
fn take_next<B: BitBlock>(
    set: &mut BitSet<B>,
    pending: &mut BitSet<B>,
    rows: &[BitSet<B>],
) -> Result<bool, AllocError>
    requires { IsClosedBut rows.now (elements set.old.values) (elements pending.old.values) }
    ensures more { IsSubset (elements set.old.values) (elements set.new.values) }
    ensures closed { OnOk result (IsClosedBut rows.now (elements set.new.values) (elements pending.new.values)) }
    ensures least { ReachesOnly rows.now (elements set.old.values) (elements set.new.values) }
    ensures ended { IfOk result (λ more. more ≡ false → HasNone (elements pending.new.values)) }
    ensures count { IfOk result (λ more. more ≡ true
        → turns_left (elements set.new.values) (elements pending.new.values)
        < turns_left (elements set.old.values) (elements pending.old.values)) }
{
    match pending.pop_first() {
        None => Ok(false),
        Some(at) => {
            if at < rows.len() && set.contains(at) {
                take_on(set, pending, &rows[at])?;
            }
            Ok(true)
        }
    }
}

// The turns, until nothing is pending.
fn take_all<B: BitBlock>(
    set: &mut BitSet<B>,
    pending: &mut BitSet<B>,
    rows: &[BitSet<B>],
) -> Result<(), AllocError>
    requires { elements pending.old.values ≡ elements set.old.values }
    ensures more { IsSubset (elements set.old.values) (elements set.new.values) }
    ensures closed { OnOk result (IsClosed rows.now (elements set.new.values)) }
    ensures least { ReachesOnly rows.now (elements set.old.values) (elements set.new.values) }
{
    while take_next(set, pending, rows)? {}
    Ok(())
}

/// Inserts everything to which the members lead, by a set of those whose rows are still to come: the result is the
/// least set that has the old members, and with each member its row. Fails only if memory runs out, for the copy of
/// the set or at a row that is longer than the capacity of the set or of the copy; the set then has its old members
/// and part of the new ones.
pub fn reach_by_rows<B: BitBlock>(
    alloc: Global,
    set: &mut BitSet<B>,
    rows: &[BitSet<B>],
) -> Result<(), AllocError>
    ensures more { IsSubset (elements set.old.values) (elements set.new.values) }
    ensures closed { OnOk result (IsClosed rows.now (elements set.new.values)) }
    ensures least { ReachesOnly rows.now (elements set.old.values) (elements set.new.values) }
{
    let mut pending = set.clone(alloc)?;
    take_all(set, &mut pending, rows)
}

// Takes in the row of a number where the number is in, and returns whether that changed the set.
fn take_in_row<B: BitBlock>(
    set: &mut BitSet<B>,
    rows: &[BitSet<B>],
    at: usize,
) -> Result<bool, AllocError>
    requires { at < length rows.now }
    ensures more { IsSubset (elements set.old.values) (elements set.new.values) }
    ensures closed { OnOk result ((d : Bits) → IsTrue (has (elements set.new.values) at)
        → IsSubset (elements (slice_index_or rows.now at d).values) (elements set.new.values)) }
    ensures least { ReachesOnly rows.now (elements set.old.values) (elements set.new.values) }
    ensures unchanged { IfOk result (λ grew. grew ≡ false → elements set.new.values ≡ elements set.old.values) }
    ensures count { IfOk result (λ grew. length (elements set.old.values) + (if grew then 1 else 0)
        ≤ length (elements set.new.values)) }
{
    if set.contains(at) {
        set.union_changes(&rows[at])
    } else {
        Ok(false)
    }
}

// Does that for each number in turn, and returns whether one changed the set. Where none did, the rows of all that are in
// are in.
fn take_in_rows<B: BitBlock>(set: &mut BitSet<B>, rows: &[BitSet<B>]) -> Result<bool, AllocError>
    ensures more { IsSubset (elements set.old.values) (elements set.new.values) }
    ensures closed { IfOk result (λ grew. grew ≡ false → IsClosed rows.now (elements set.new.values)) }
    ensures least { ReachesOnly rows.now (elements set.old.values) (elements set.new.values) }
    ensures count { IfOk result (λ grew. length (elements set.old.values) + (if grew then 1 else 0)
        ≤ length (elements set.new.values)) }
{
    let mut grew = false;
    for at in 0..rows.len() {
        if take_in_row(set, rows, at)? {
            grew = true;
        }
    }
    Ok(grew)
}

/// The same result, by rounds over all rows until one changes nothing. Allocates only for the set itself, and fails
/// only if memory runs out, at a row that is longer than the capacity of the set; the set then has its old members
/// and part of the new ones.
pub fn close_by_rows<B: BitBlock>(set: &mut BitSet<B>, rows: &[BitSet<B>]) -> Result<(), AllocError>
    ensures more { IsSubset (elements set.old.values) (elements set.new.values) }
    ensures closed { OnOk result (IsClosed rows.now (elements set.new.values)) }
    ensures least { ReachesOnly rows.now (elements set.old.values) (elements set.new.values) }
{
    while take_in_rows(set, rows)? {
        few(set);
    }
    Ok(())
}
