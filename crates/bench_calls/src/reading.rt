// Sets that are read. One number leaves after each turn, so that no turn can be the result of another.
use crate::input_sets::{Input, Sum};
use crate::turns::{sum_of_reads, sum_of_turns};
use bit_set::{BitBlock, BitSet};
use std::alloc::Global;

pub(crate) fn contains<B: BitBlock>(input: Input<'_>) -> Sum {
    let set = input.one::<B>()?;
    let mut found = 0usize;
    for _ in 0..input.turns {
        for number in input.second {
            found = found.wrapping_add(usize::from(set.contains(*number)));
        }
    }
    Ok(found)
}

#[inline(always)]
fn sum_of_set<B: BitBlock>(set: &BitSet<B>) -> usize {
    let mut sum = 0usize;
    for item in set {
        sum = sum.wrapping_add(item);
    }
    sum
}

fn sum_from_the_back(set: &BitSet<u64>) -> usize {
    let mut sum = 0usize;
    for item in set.iter().rev() {
        sum = sum.wrapping_add(item);
    }
    sum
}

// The element that half of the members come before, by a walk to there.
fn walk_to(set: &BitSet<u64>, n: usize) -> Option<usize> {
    let mut walk = set.iter();
    for _ in 0..n {
        walk.next()?;
    }
    walk.next()
}

pub(crate) fn walk<B: BitBlock>(input: Input<'_>) -> Sum {
    let mut set = input.one::<B>()?;
    sum_of_reads!(set, input.turns, sum_of_set(&set))
}

pub(crate) fn count<B: BitBlock>(input: Input<'_>) -> Sum {
    let mut set = input.one::<B>()?;
    sum_of_reads!(set, input.turns, set.count())
}

// Asks a set whether it is empty that has these numbers no more.
pub(crate) fn is_empty<B: BitBlock>(input: Input<'_>) -> Sum {
    let mut set = input.one::<B>()?;
    for number in input.first {
        let _was = set.remove(*number);
    }
    sum_of_reads!(set, input.turns, usize::from(set.is_empty()))
}

pub(crate) fn walk_back(input: Input<'_>) -> Sum {
    let mut set = input.one::<u64>()?;
    sum_of_reads!(set, input.turns, sum_from_the_back(&set))
}

pub(crate) fn nth_by_walks(input: Input<'_>) -> Sum {
    let mut set = input.one::<u64>()?;
    sum_of_reads!(
        set,
        input.turns,
        walk_to(&set, input.first.len() / 2).unwrap_or(0)
    )
}

pub(crate) fn nths(input: Input<'_>) -> Sum {
    let mut set = input.one::<u64>()?;
    sum_of_reads!(
        set,
        input.turns,
        set.iter().nth(input.first.len() / 2).unwrap_or(0)
    )
}

// The sum of a set of the numbers, which is made, walked over and dropped.
#[inline(always)]
fn small_set<B: BitBlock>(alloc: Global, numbers: &[usize]) -> Sum {
    let set = BitSet::<B>::from_iter(alloc, numbers.iter().copied())?;
    Ok(sum_of_set(&set))
}

// A set of eight of the numbers after another.
pub(crate) fn small_sets<B: BitBlock>(input: Input<'_>) -> Sum {
    let mut sum = 0usize;
    for _ in 0..input.turns {
        for eight in input.first.chunks(8) {
            sum = sum.wrapping_add(small_set::<B>(input.alloc, eight)?);
        }
    }
    Ok(sum)
}
