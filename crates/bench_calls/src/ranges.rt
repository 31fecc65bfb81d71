// Calls on a range of numbers of a long set, and the least element taken out until none is left. A range begins one number
// later at every second turn, so that no turn can be the result of another.
use crate::input_sets::{Input, Sum, set_of};
use crate::turns::sum_of_turns;
use bit_set::{BitSet, SetError};

// A set as long as `len` that has the last number below it alone.
fn long_set(input: Input<'_>) -> Result<BitSet<u64>, SetError> {
    let last = [input.len.saturating_sub(1)];
    set_of(input.alloc, input.len, last.as_slice())
}

// What each turn gives of the numbers from one on.
macro_rules! from_each {
    ($start:expr, $turns:expr, |$from:ident| $number:expr) => {
        Ok(sum_of_turns!($turns, |turn| {
            let $from = $start.saturating_add(turn % 2);
            $number
        }))
    };
}

pub(crate) fn insert_ranges(input: Input<'_>, start: usize, end: usize) -> Sum {
    let mut set = long_set(input)?;
    from_each!(start, input.turns, |from| {
        set.insert_range(from..end)?;
        usize::from(set.contains(from))
    })
}

pub(crate) fn remove_ranges(input: Input<'_>, start: usize, end: usize) -> Sum {
    let mut set = long_set(input)?;
    from_each!(start, input.turns, |from| {
        set.remove_range(from..end);
        usize::from(set.contains(from))
    })
}

pub(crate) fn toggle_ranges(input: Input<'_>, start: usize, end: usize) -> Sum {
    let mut set = long_set(input)?;
    from_each!(start, input.turns, |from| {
        set.toggle_range(from..end)?;
        usize::from(set.contains(from))
    })
}

pub(crate) fn count_in_ranges(input: Input<'_>, start: usize, end: usize) -> Sum {
    let set = long_set(input)?;
    from_each!(start, input.turns, |from| set.count_in_range(from..end))
}

// The sum of the elements, each taken out as the least.
fn take_each(set: &mut BitSet<u64>) -> usize {
    let mut sum = 0usize;
    while let Some(value) = set.pop_first() {
        sum = sum.wrapping_add(value);
    }
    sum
}

pub(crate) fn take_turns(input: Input<'_>) -> Sum {
    let set = input.one::<u64>()?;
    Ok(sum_of_turns!(input.turns, |_turn| take_each(&mut set.clone(input.alloc)?)))
}

// The sum of the elements, each met by a walk and removed.
fn remove_each(set: &mut BitSet<u64>, members: &BitSet<u64>) -> usize {
    let mut sum = 0usize;
    for member in members {
        set.remove(member);
        sum = sum.wrapping_add(member);
    }
    sum
}

pub(crate) fn remove_turns(input: Input<'_>) -> Sum {
    let set = input.one::<u64>()?;
    Ok(sum_of_turns!(
        input.turns,
        |_turn| remove_each(&mut set.clone(input.alloc)?, &set)
    ))
}
