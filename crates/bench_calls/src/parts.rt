// Calls on a part of a set, on all that it lacks, and on its bytes, and sets that are made of numbers. One number leaves after
// each turn, so that no turn can be the result of another.
use crate::input_sets::{Input, Sum};
use crate::turns::{sum_of_reads, sum_of_turns};
use bit_set::BitSet;

fn sum_of_range(set: &BitSet<u64>, start: usize, end: usize) -> usize {
    let mut sum = 0usize;
    for member in set.range(start..end) {
        sum = sum.wrapping_add(member);
    }
    sum
}

fn sum_of_missing(set: &BitSet<u64>, start: usize, end: usize) -> usize {
    let mut sum = 0usize;
    for number in set.missing(start..end) {
        sum = sum.wrapping_add(number);
    }
    sum
}

pub(crate) fn walk_range(input: Input<'_>, start: usize, end: usize) -> Sum {
    let mut set = input.one()?;
    sum_of_reads!(set, input.turns, sum_of_range(&set, start, end))
}

pub(crate) fn walk_missing(input: Input<'_>, start: usize, end: usize) -> Sum {
    let mut set = input.one()?;
    sum_of_reads!(set, input.turns, sum_of_missing(&set, start, end))
}

// All elements are kept but the number of the turn.
pub(crate) fn retain_turns(input: Input<'_>) -> Sum {
    let mut set = input.one::<u64>()?;
    for turn in 0..input.turns {
        set.retain(|element| element != turn);
    }
    Ok(set.count())
}

pub(crate) fn byte_turns(input: Input<'_>) -> Sum {
    let mut set = input.one::<u64>()?;
    Ok(sum_of_turns!(input.turns, |turn| {
        let bytes = set.to_bytes(input.alloc)?;
        let _was = set.remove(turn);
        usize::from(bytes.as_slice().get(turn).copied().unwrap_or(0))
    }))
}

pub(crate) fn sets_of_numbers(input: Input<'_>) -> Sum {
    Ok(sum_of_turns!(input.turns, |turn| {
        let set = BitSet::<u64>::from_iter(input.alloc, input.first.iter().copied())?;
        usize::from(set.contains(turn))
    }))
}
