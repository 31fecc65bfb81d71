// Bit vectors that are written whole, or grow, and capacity that is asked for, and that is given back.
use crate::input_sets::{Sum, set_of};
use crate::turns::sum_of_turns;
use bit_set::bit_vec::BitVec;
use bit_set::{BitBlock, BitSet};
use std::alloc::{AllocError, Global};

pub(crate) fn fill(alloc: Global, len: usize, turns: usize) -> Sum {
    let mut bits = BitVec::from_elem(alloc, len, false)?;
    Ok(sum_of_turns!(turns, |turn| {
        bits.fill(turn % 2 == 0);
        usize::from(bits.get(turn).unwrap_or(false))
    }))
}

// Each turn appends this many values, ones and zeros in turn.
pub(crate) fn grow(alloc: Global, values: u8, turns: u32) -> Result<usize, AllocError> {
    let mut bits = BitVec::new(alloc);
    for turn in 0..turns {
        bits.grow(usize::from(values), turn % 2 == 0)?;
    }
    Ok(bits.len())
}

// Each turn asks for capacity for one number more.
pub(crate) fn reserve(alloc: Global, turns: usize) -> Sum {
    let mut set = BitSet::new(alloc);
    for turn in 0..turns {
        set.reserve_len(turn)?;
    }
    Ok(set.get_ref().len())
}

// Each turn a number goes in and out of {0}, and the capacity that it took is given back.
pub(crate) fn shrink(alloc: Global, number: usize, turns: usize) -> Sum {
    let mut set = BitSet::new(alloc);
    set.insert(0)?;
    Ok(sum_of_turns!(turns, |_turn| {
        set.insert(number)?;
        set.remove(number);
        set.shrink_to_fit()?;
        set.get_ref().len()
    }))
}

// Each turn makes a set that 0 and a number have left again. Its capacity is given back where it is to
// shrink.
pub(crate) fn shrink_emptied<B: BitBlock>(
    alloc: Global,
    number: usize,
    shrinks: bool,
    turns: usize,
) -> Sum {
    Ok(sum_of_turns!(turns, |_turn| {
        let mut set = set_of::<B>(alloc, 0, &[0, number])?;
        let _first = set.remove(0);
        let _second = set.remove(number);
        if shrinks {
            set.shrink_to_fit()?;
        }
        usize::from(!set.contains(number))
    }))
}
