// Calls on sets of few numbers in a wide range, of runs, and of half of all numbers. Turns are on two equal sets in turn, so
// that no turn can be the result of another.
use crate::input_sets::set_of;
use crate::two_sets::merge_into;
use bit_set::bit_vec::Merge;
use bit_set::{BitSet, SetError};
use std::alloc::Global;

// Two equal sets, and another one.
#[derive(Drop)]
struct Inputs {
    ones: [BitSet<u64>; 2],
    other: BitSet<u64>,
}

fn inputs_of(
    alloc: Global,
    len: usize,
    first: &[usize],
    second: &[usize],
) -> Result<Inputs, SetError> {
    let one = set_of::<u64>(alloc, len, first)?;
    let copy = one.clone(alloc)?;
    let other = set_of::<u64>(alloc, len, second)?;
    Ok(Inputs {
        ones: [one, copy],
        other,
    })
}

fn merge_turns(inputs: &mut Inputs, merge: Merge, turns: usize) -> Result<usize, SetError> {
    for turn in 0..turns {
        merge_into(merge, &mut inputs.ones[turn % 2], &inputs.other)?;
    }
    Ok(inputs.ones[0].count())
}

// How many numbers the set has that two become.
fn count_between(merge: Merge, one: &BitSet<u64>, other: &BitSet<u64>) -> usize {
    match merge {
        Merge::Union => one.union_count(other),
        Merge::Intersection => one.intersection_count(other),
        Merge::Difference => one.difference_count(other),
        Merge::Symmetric => one.symmetric_difference_count(other),
    }
}

fn count_turns(inputs: &Inputs, merge: Merge, turns: usize) -> usize {
    let mut count = 0usize;
    for turn in 0..turns {
        let more = count_between(merge, &inputs.ones[turn % 2], &inputs.other);
        count = count.wrapping_add(more);
    }
    count
}

// Both sets are equal, whichever of them is first.
fn compare_turns(inputs: &Inputs, turns: usize) -> usize {
    let mut equal = 0usize;
    for turn in 0..turns {
        let (one, two) = (&inputs.ones[turn % 2], &inputs.ones[1 - turn % 2]);
        equal = equal.wrapping_add(usize::from(one == two));
    }
    equal
}

// The other set goes into an empty one, which is cleared again.
fn clear_turns(inputs: &mut Inputs, turns: usize) -> Result<usize, SetError> {
    inputs.ones[0].make_empty();
    inputs.ones[1].make_empty();
    for turn in 0..turns {
        let set = &mut inputs.ones[turn % 2];
        set.union_with(&inputs.other)?;
        set.make_empty();
    }
    Ok(inputs.ones[0].count())
}

fn walk_turns(inputs: &Inputs, turns: usize) -> usize {
    let mut sum = 0usize;
    for turn in 0..turns {
        for member in &inputs.ones[turn % 2] {
            sum = sum.wrapping_add(member);
        }
    }
    sum
}

// The work of this number, where there is such work.
fn do_turns(inputs: &mut Inputs, work: usize, turns: usize) -> Result<usize, SetError> {
    match work {
        0 => merge_turns(inputs, Merge::Union, turns),
        1 => merge_turns(inputs, Merge::Intersection, turns),
        2 => merge_turns(inputs, Merge::Difference, turns),
        3 => Ok(count_turns(inputs, Merge::Union, turns)),
        4 => Ok(count_turns(inputs, Merge::Intersection, turns)),
        5 => Ok(count_turns(inputs, Merge::Difference, turns)),
        6 => Ok(count_turns(inputs, Merge::Symmetric, turns)),
        7 => Ok(compare_turns(inputs, turns)),
        8 => clear_turns(inputs, turns),
        9 => Ok(walk_turns(inputs, turns)),
        _ => Ok(usize::MAX),
    }
}

fn run_turns(
    alloc: Global,
    work: usize,
    len: usize,
    (first, second): (&[usize], &[usize]),
    turns: usize,
) -> Result<usize, SetError> {
    let mut inputs = inputs_of(alloc, len, first, second)?;
    do_turns(&mut inputs, work, turns)
}

#[unsafe(no_mangle)]
pub extern "C" fn bench_sparse(
    alloc: Global,
    work: usize,
    len: usize,
    first: &[usize],
    second: &[usize],
    turns: usize,
) -> usize {
    run_turns(alloc, work, len, (first, second), turns).unwrap_or(usize::MAX)
}
