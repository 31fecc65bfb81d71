// Two sets at once.
ghost use Rattle.std.specs.Iterator.{IsFinite};

use crate::input_sets::{Input, Sum};
use crate::turns::{sum_of_reads, sum_of_turns};
use bit_set::bit_vec::Merge;
use bit_set::{BitBlock, BitSet, SetError};
use std::alloc::{AllocError, Global};
use std::cmp::Ordering;

fn sum_of<I: Iterator<Item = usize> + Drop>(items: I) -> usize
    requires can { I.can_next items }
    requires ends { IsFinite (I.remaining items) }
{
    let mut sum = 0usize;
    for item in items {
        sum = sum.wrapping_add(item);
    }
    sum
}

fn sum_of_merged<B: BitBlock>(merge: Merge, one: &BitSet<B>, other: &BitSet<B>) -> usize {
    match merge {
        Merge::Union => sum_of(one.union(other)),
        Merge::Intersection => sum_of(one.intersection(other)),
        Merge::Difference => sum_of(one.difference(other)),
        Merge::Symmetric => sum_of(one.symmetric_difference(other)),
    }
}

fn count_of_merged<B: BitBlock>(merge: Merge, one: &BitSet<B>, other: &BitSet<B>) -> usize {
    match merge {
        Merge::Union => one.union(other).count(),
        Merge::Intersection => one.intersection(other).count(),
        Merge::Difference => one.difference(other).count(),
        Merge::Symmetric => one.symmetric_difference(other).count(),
    }
}

#[inline(always)]
pub(crate) fn merge_into<B: BitBlock>(
    merge: Merge,
    one: &mut BitSet<B>,
    other: &BitSet<B>,
) -> Result<(), AllocError> {
    match merge {
        Merge::Union => one.union_with(other),
        Merge::Intersection => one.intersect_with(other),
        Merge::Difference => one.difference_with(other),
        Merge::Symmetric => one.symmetric_difference_with(other),
    }
}

#[inline(always)]
pub(crate) fn change_by<B: BitBlock>(
    merge: Merge,
    one: &mut BitSet<B>,
    other: &BitSet<B>,
) -> Result<bool, AllocError> {
    match merge {
        Merge::Union => one.union_changes(other),
        Merge::Intersection => one.intersection_changes(other),
        Merge::Difference => one.difference_changes(other),
        Merge::Symmetric => one.symmetric_difference_changes(other),
    }
}

// The sets that a call owns. Its turns are a function that borrows them: where they are owned, each failure drops them
// all, and the proof pays for each.
#[derive(Drop)]
struct TwoSets<B: BitBlock> {
    one: BitSet<B>,
    other: BitSet<B>,
}

fn one_and_other<B: BitBlock>(input: Input<'_>) -> Result<TwoSets<B>, SetError> {
    let one = input.one()?;
    let other = input.other()?;
    Ok(TwoSets { one, other })
}

pub(crate) fn walk_merged<B: BitBlock>(merge: Merge, input: Input<'_>) -> Sum {
    let mut one = input.one::<B>()?;
    let other = input.other::<B>()?;
    sum_of_reads!(one, input.turns, sum_of_merged(merge, &one, &other))
}

pub(crate) fn count_merged<B: BitBlock>(merge: Merge, input: Input<'_>) -> Sum {
    let mut one = input.one::<B>()?;
    let other = input.other::<B>()?;
    sum_of_reads!(one, input.turns, count_of_merged(merge, &one, &other))
}

#[inline(always)]
fn merge_each_turn<B: BitBlock>(
    merge: Merge,
    one: &mut BitSet<B>,
    other: &BitSet<B>,
    turns: usize,
) -> Sum {
    Ok(sum_of_turns!(turns, |turn| {
        merge_into(merge, one, other)?;
        usize::from(one.remove(turn))
    }))
}

pub(crate) fn merge_in_place<B: BitBlock>(merge: Merge, input: Input<'_>) -> Sum {
    let mut sets = one_and_other::<B>(input)?;
    merge_each_turn(merge, &mut sets.one, &sets.other, input.turns)
}

#[inline(always)]
fn change_each_turn(merge: Merge, one: &mut BitSet<u32>, other: &BitSet<u32>, turns: usize) -> Sum {
    Ok(sum_of_turns!(turns, |turn| {
        let changes = change_by(merge, one, other)?;
        usize::from(one.remove(turn)) + usize::from(changes)
    }))
}

// The same by the calls that tell whether the set changed.
pub(crate) fn change_in_place(merge: Merge, input: Input<'_>) -> Sum {
    let mut sets = one_and_other(input)?;
    change_each_turn(merge, &mut sets.one, &sets.other, input.turns)
}

// The set of the first numbers without another.
fn set_without(input: Input<'_>, other: &BitSet<u32>) -> Result<BitSet<u32>, SetError> {
    let mut set = input.one()?;
    set.difference_with(other)?;
    Ok(set)
}

#[inline(always)]
fn unite_each_turn(
    one: &mut BitSet<u32>,
    other: &BitSet<u32>,
    except: &BitSet<u32>,
    turns: usize,
) -> Sum {
    Ok(sum_of_turns!(turns, |turn| {
        let changes = one.union_with_difference(other, except)?;
        usize::from(one.remove(turn)) + usize::from(changes)
    }))
}

#[inline(always)]
fn unite_with_rest(input: Input<'_>, one: &mut BitSet<u32>, other: &BitSet<u32>) -> Sum {
    let except = set_without(input, other)?;
    unite_each_turn(one, other, &except, input.turns)
}

// What the second numbers have and the first have not goes in.
pub(crate) fn unite_in_place(input: Input<'_>) -> Sum {
    let mut sets = one_and_other(input)?;
    unite_with_rest(input, &mut sets.one, &sets.other)
}

// The first set without the second, which has nothing in common with it.
pub(crate) fn find_apart(input: Input<'_>) -> Sum {
    let other = input.other()?;
    let mut one = set_without(input, &other)?;
    sum_of_reads!(one, input.turns, usize::from(one.is_disjoint(&other)))
}

// The second set and the first with it, which has all of it.
pub(crate) fn find_within(input: Input<'_>) -> Sum {
    let mut one = input.other::<u32>()?;
    let mut other = input.one()?;
    other.union_with(&one)?;
    sum_of_reads!(one, input.turns, usize::from(one.is_subset(&other)))
}

pub(crate) fn compare<B: BitBlock>(input: Input<'_>) -> Sum {
    let mut one = input.one::<B>()?;
    let mut other = one.clone(input.alloc)?;
    Ok(sum_of_turns!(input.turns, |turn| {
        let same = usize::from(one == other);
        let _was = one.remove(turn) | other.remove(turn);
        same
    }))
}

pub(crate) fn order(input: Input<'_>) -> Sum {
    let mut one = input.one::<u32>()?;
    let mut other = one.clone(input.alloc)?;
    Ok(sum_of_turns!(input.turns, |turn| {
        let same = usize::from(one.cmp(&other) == Ordering::Equal);
        let _was = one.remove(turn) | other.remove(turn);
        same
    }))
}

#[inline(always)]
fn append_copy(
    one: &mut BitSet<u32>,
    other: &BitSet<u32>,
    copy: &mut BitSet<u32>,
) -> Result<(), AllocError> {
    copy.clone_from(other)?;
    one.append(copy)
}

#[inline(always)]
fn append_each(
    one: &mut BitSet<u32>,
    other: &BitSet<u32>,
    copy: &mut BitSet<u32>,
    turns: usize,
) -> Sum {
    Ok(sum_of_turns!(turns, |turn| {
        append_copy(one, other, copy)?;
        usize::from(one.remove(turn))
    }))
}

// Each turn copies the second set, and moves the copy into the first. One number leaves after each turn.
pub(crate) fn append_copies(input: Input<'_>) -> Sum {
    let mut sets = one_and_other(input)?;
    let mut copy = BitSet::new(input.alloc);
    append_each(&mut sets.one, &sets.other, &mut copy, input.turns)
}

#[inline(always)]
fn part_once(
    alloc: Global,
    set: &mut BitSet<u32>,
    middle: usize,
    number: usize,
) -> Result<bool, AllocError> {
    let mut part = set.split_off(alloc, middle)?;
    let found = part.contains(number);
    set.append(&mut part)?;
    Ok(found)
}

#[inline(always)]
fn part_each(alloc: Global, set: &mut BitSet<u32>, middle: usize, turns: usize) -> Sum {
    Ok(sum_of_turns!(turns, |turn| {
        usize::from(part_once(alloc, set, middle, middle.saturating_add(turn))?)
    }))
}

// Each turn parts the set in the middle, and puts it together again.
pub(crate) fn part_and_join(input: Input<'_>) -> Sum {
    let mut set = input.one::<u32>()?;
    let middle = set.get_ref().len() / 2;
    part_each(input.alloc, &mut set, middle, input.turns)
}
