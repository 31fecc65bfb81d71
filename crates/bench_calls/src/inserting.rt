// Numbers that go in and out one by one.
use crate::input_sets::{Input, Sum};
use crate::turns::sum_of_turns;
use bit_set::{BitBlock, BitSet};

// Puts the numbers in, and says how many were not in yet.
#[inline(always)]
fn insert_all<B: BitBlock>(set: &mut BitSet<B>, numbers: &[usize]) -> Sum {
    let mut new = 0usize;
    for number in numbers {
        new = new.wrapping_add(usize::from(set.insert(*number)?));
    }
    Ok(new)
}

// The same with a new set.
#[inline(always)]
fn insert_into_new<B: BitBlock>(input: Input<'_>) -> Sum {
    let mut set = BitSet::<B>::with_capacity_general(input.alloc, input.len)?;
    insert_all(&mut set, input.first)
}

pub(crate) fn insert_with_capacity<B: BitBlock>(input: Input<'_>) -> Sum {
    Ok(sum_of_turns!(input.turns, |_turn| insert_into_new::<B>(input)?))
}

pub(crate) fn insert_below<B: BitBlock>(input: Input<'_>) -> Sum {
    let mut set = BitSet::<B>::with_capacity_general(input.alloc, input.len)?;
    Ok(sum_of_turns!(input.turns, |_turn| {
        set.make_empty();
        insert_all(&mut set, input.first)?
    }))
}

pub(crate) fn insert_in_order<B: BitBlock>(input: Input<'_>) -> Sum {
    let mut new = 0usize;
    for _ in 0..input.turns {
        let mut set = BitSet::<B>::new_general(input.alloc);
        for number in 0..input.len {
            new = new.wrapping_add(usize::from(set.insert(number)?));
        }
    }
    Ok(new)
}

pub(crate) fn remove<B: BitBlock>(input: Input<'_>) -> Sum {
    let full = input.one::<B>()?;
    let mut were = 0usize;
    for _ in 0..input.turns {
        let mut set = full.clone(input.alloc)?;
        for number in input.second {
            were = were.wrapping_add(usize::from(set.remove(*number)));
        }
    }
    Ok(were)
}

// A set with capacity for all numbers below `len`, and with these.
pub(crate) fn sets_with_capacity(input: Input<'_>) -> Sum {
    Ok(sum_of_turns!(input.turns, |turn| {
        usize::from(input.one::<u64>()?.contains(turn))
    }))
}
