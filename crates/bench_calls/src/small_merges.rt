// Two sets of a few blocks that become one. Turns take one of two sets in turn, so that no turn can be the result of
// another. The turns of a call are a function that borrows its sets: where the sets are owned, each failure drops them all,
// and the proof pays for each.
use crate::input_sets::{Input, Sum, count_all, two_and_other, without};
use crate::two_sets::{change_by, merge_into};
use bit_set::BitSet;
use bit_set::bit_vec::Merge;
use std::alloc::{AllocError, Global};

#[inline(always)]
fn merge_each(merge: Merge, sets: &mut [BitSet<u32>], other: &BitSet<u32>, turns: usize) -> Sum {
    for turn in 0..turns {
        if let Some(set) = sets.get_mut(turn % 2) {
            merge_into(merge, set, other)?;
        }
    }
    Ok(count_all(sets))
}

// It goes into each of its callers, so that no turn picks the merge.
#[inline(always)]
pub(crate) fn merge_turns(merge: Merge, input: Input<'_>) -> Sum {
    let mut made = two_and_other(input)?;
    merge_each(merge, made.sets.as_mut_slice(), &made.other, input.turns)
}

#[inline(always)]
fn change_each(merge: Merge, sets: &mut [BitSet<u32>], other: &BitSet<u32>, turns: usize) -> Sum {
    let mut changes = 0usize;
    for turn in 0..turns {
        if let Some(set) = sets.get_mut(turn % 2) {
            changes = changes.wrapping_add(usize::from(change_by(merge, set, other)?));
        }
    }
    Ok(changes.wrapping_add(count_all(sets)))
}

// The same merges, by the calls that tell whether they changed the set. Adds up how often they did.
#[inline(always)]
pub(crate) fn change_turns(merge: Merge, input: Input<'_>) -> Sum {
    let mut made = two_and_other(input)?;
    change_each(merge, made.sets.as_mut_slice(), &made.other, input.turns)
}

#[inline(always)]
fn fuse_each(
    sets: &mut [BitSet<u32>],
    other: &BitSet<u32>,
    except: &BitSet<u32>,
    turns: usize,
) -> Sum {
    let mut changes = 0usize;
    for turn in 0..turns {
        if let Some(set) = sets.get_mut(turn % 2) {
            changes = changes.wrapping_add(usize::from(set.union_with_difference(other, except)?));
        }
    }
    Ok(changes.wrapping_add(count_all(sets)))
}

// Each turn puts in what the second numbers have and the first have not.
pub(crate) fn fused_turns(input: Input<'_>) -> Sum {
    let mut made = two_and_other(input)?;
    let except = without(input)?;
    fuse_each(made.sets.as_mut_slice(), &made.other, &except, input.turns)
}

#[inline(always)]
fn unite_by_copy(
    set: &mut BitSet<u32>,
    copy: &mut BitSet<u32>,
    other: &BitSet<u32>,
    except: &BitSet<u32>,
) -> Result<(), AllocError> {
    copy.clone_from(other)?;
    copy.difference_with(except)?;
    set.union_with(copy)
}

#[inline(always)]
fn unite_each_by_copy(
    alloc: Global,
    sets: &mut [BitSet<u32>],
    other: &BitSet<u32>,
    except: &BitSet<u32>,
    turns: usize,
) -> Sum {
    let mut copy = other.clone(alloc)?;
    for turn in 0..turns {
        if let Some(set) = sets.get_mut(turn % 2) {
            unite_by_copy(set, &mut copy, other, except)?;
        }
    }
    Ok(count_all(sets))
}

// The same by two merges over a copy, which do not tell whether the set changed.
pub(crate) fn parted_turns(input: Input<'_>) -> Sum {
    let mut made = two_and_other(input)?;
    let except = without(input)?;
    unite_each_by_copy(
        input.alloc,
        made.sets.as_mut_slice(),
        &made.other,
        &except,
        input.turns,
    )
}
