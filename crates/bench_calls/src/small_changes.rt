// Calls that change or make a set of a few blocks. Turns take one of two sets in turn, so that no turn can be the result
// of another.
use crate::input_sets::{Input, Sum, count_all, number_at, two_and_other, two_of, without};
use crate::turns::sum_of_turns;
use bit_set::BitSet;

pub(crate) fn clone_turns(input: Input<'_>) -> Sum {
    let sets = two_of(input.alloc, input.len, input.first)?;
    Ok(sum_of_turns!(input.turns, |turn| match sets.get(turn % 2) {
        Some(set) => usize::from(
            set.clone(input.alloc)?
                .contains(number_at(input.first, turn))
        ),
        None => 0,
    }))
}

#[inline(always)]
fn clone_into_each(sets: &mut [BitSet<u32>], other: &BitSet<u32>, turns: usize) -> Sum {
    for turn in 0..turns {
        if let Some(set) = sets.get_mut(turn % 2) {
            set.clone_from(other)?;
        }
    }
    Ok(count_all(sets))
}

pub(crate) fn clone_from_turns(input: Input<'_>) -> Sum {
    let mut made = two_and_other(input)?;
    clone_into_each(made.sets.as_mut_slice(), &made.other, input.turns)
}

pub(crate) fn with_capacity_turns(input: Input<'_>) -> Sum {
    Ok(sum_of_turns!(input.turns, |turn| {
        let mut set = BitSet::with_capacity(input.alloc, input.len)?;
        usize::from(set.insert(number_at(input.second, turn))?)
    }))
}

pub(crate) fn make_empty_turns(input: Input<'_>) -> Sum {
    let mut sets = two_of(input.alloc, input.len, input.first)?;
    for turn in 0..input.turns {
        if let Some(set) = sets.get_mut(turn % 2) {
            set.make_empty();
        }
    }
    Ok(count_all(sets.as_slice()))
}

// Each turn a number goes in that is not in, and out again.
pub(crate) fn insert_and_remove_turns(input: Input<'_>) -> Sum {
    let mut set = without(input)?;
    Ok(sum_of_turns!(input.turns, |turn| {
        let number = number_at(input.second, turn);
        let is_new = set.insert(number)?;
        usize::from(is_new) + usize::from(set.remove(number))
    }))
}

// Each turn a number goes in that is in.
pub(crate) fn insert_turns(input: Input<'_>) -> Sum {
    let mut set = input.other::<u32>()?;
    Ok(sum_of_turns!(
        input.turns,
        |turn| usize::from(set.insert(number_at(input.second, turn))?)
    ))
}

// Each turn a number goes out that is not in.
pub(crate) fn remove_turns(input: Input<'_>) -> Sum {
    let mut set = without(input)?;
    Ok(sum_of_turns!(
        input.turns,
        |turn| usize::from(set.remove(number_at(input.second, turn)))
    ))
}
