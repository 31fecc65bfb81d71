// Calls that read sets of a few blocks. Turns take one of two sets in turn, so that no turn can be the result of another.
use crate::input_sets::{Input, Sum, number_at, two_of, without};
use crate::turns::sum_of_turns;
use std::cmp::Ordering;

// What each turn reads in one of the sets.
macro_rules! reads {
    ($sets:expr, $turns:expr, |$set:ident| $number:expr) => {
        Ok(sum_of_turns!($turns, |turn| match $sets.get(turn % 2) {
            Some($set) => $number,
            None => 0,
        }))
    };
}

pub(crate) fn eq_turns(input: Input<'_>) -> Sum {
    let sets = two_of(input.alloc, input.len, input.first)?;
    let other = input.one()?;
    reads!(sets, input.turns, |set| usize::from(*set == other))
}

pub(crate) fn cmp_turns(input: Input<'_>) -> Sum {
    let sets = two_of(input.alloc, input.len, input.first)?;
    let other = input.one()?;
    reads!(
        sets,
        input.turns,
        |set| usize::from(set.cmp(&other) == Ordering::Equal)
    )
}

// Each turn asks whether the first numbers are among all.
pub(crate) fn is_subset_turns(input: Input<'_>) -> Sum {
    let sets = two_of(input.alloc, input.len, input.first)?;
    let mut other = input.one()?;
    other.extend(input.second.iter().copied())?;
    reads!(sets, input.turns, |set| usize::from(set.is_subset(&other)))
}

// Each turn asks whether the second numbers have nothing in common with the rest of the first.
pub(crate) fn is_disjoint_turns(input: Input<'_>) -> Sum {
    let sets = two_of(input.alloc, input.len, input.second)?;
    let other = without(input)?;
    reads!(
        sets,
        input.turns,
        |set| usize::from(set.is_disjoint(&other))
    )
}

pub(crate) fn count_turns(input: Input<'_>) -> Sum {
    let sets = two_of(input.alloc, input.len, input.first)?;
    reads!(sets, input.turns, |set| set.count())
}

pub(crate) fn walk_turns(input: Input<'_>) -> Sum {
    let sets = two_of(input.alloc, input.len, input.first)?;
    let mut sum = 0usize;
    for turn in 0..input.turns {
        if let Some(set) = sets.get(turn % 2) {
            for item in set {
                sum = sum.wrapping_add(item);
            }
        }
    }
    Ok(sum)
}

// Each turn asks for one of the second numbers, some of which are in.
pub(crate) fn contains_turns(input: Input<'_>) -> Sum {
    let set = input.one::<u32>()?;
    Ok(sum_of_turns!(
        input.turns,
        |turn| usize::from(set.contains(number_at(input.second, turn)))
    ))
}
