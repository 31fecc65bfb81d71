// Sets to work on.
use crate::turns::sum_of_turns;
use bit_set::{BitBlock, BitSet, SetError};
use std::alloc::Global;

// What a call works on, of which some calls leave out a part, and how many turns it takes. Sets are as long as `len` or
// longer.
#[derive(Clone, Copy)]
pub(crate) struct Input<'a> {
    pub(crate) alloc: Global,
    pub(crate) len: usize,
    pub(crate) first: &'a [usize],
    pub(crate) second: &'a [usize],
    pub(crate) turns: usize,
}

// What all turns give, added up.
pub(crate) type Sum = Result<usize, SetError>;

impl Input<'_> {
    // The set of the first numbers.
    #[inline(always)]
    pub(crate) fn one<B: BitBlock>(self) -> Result<BitSet<B>, SetError> {
        set_of(self.alloc, self.len, self.first)
    }

    // The set of the second numbers.
    #[inline(always)]
    pub(crate) fn other<B: BitBlock>(self) -> Result<BitSet<B>, SetError> {
        set_of(self.alloc, self.len, self.second)
    }
}

pub(crate) fn set_of<B: BitBlock>(
    alloc: Global,
    len: usize,
    numbers: &[usize],
) -> Result<BitSet<B>, SetError> {
    let mut set = BitSet::with_capacity_general(alloc, len)?;
    for number in numbers {
        let _new = set.insert(*number)?;
    }
    Ok(set)
}

// Two sets of the numbers.
pub(crate) fn two_of(
    alloc: Global,
    len: usize,
    numbers: &[usize],
) -> Result<Vec<BitSet<u32>>, SetError> {
    let mut sets = Vec::new(alloc);
    for _ in 0..2 {
        sets.push(set_of(alloc, len, numbers)?)?;
    }
    Ok(sets)
}

// Two sets of the first numbers, and one of the second.
#[derive(Drop)]
pub(crate) struct SetsAndOther {
    pub(crate) sets: Vec<BitSet<u32>>,
    pub(crate) other: BitSet<u32>,
}

pub(crate) fn two_and_other(input: Input<'_>) -> Result<SetsAndOther, SetError> {
    let sets = two_of(input.alloc, input.len, input.first)?;
    let other = input.other()?;
    Ok(SetsAndOther { sets, other })
}

// The set of the first numbers without the second.
pub(crate) fn without(input: Input<'_>) -> Result<BitSet<u32>, SetError> {
    let mut set = input.one()?;
    for number in input.second {
        let _was = set.remove(*number);
    }
    Ok(set)
}

// One of eight numbers, another at each turn.
pub(crate) fn number_at(numbers: &[usize], turn: usize) -> usize {
    numbers.get(turn % 8).copied().unwrap_or(0)
}

// How many numbers the sets have.
pub(crate) fn count_all(sets: &[BitSet<u32>]) -> usize {
    let mut sum = 0usize;
    for set in sets {
        sum = sum.wrapping_add(set.count());
    }
    sum
}

pub(crate) fn copies<B: BitBlock>(input: Input<'_>) -> Sum {
    let set = input.one::<B>()?;
    Ok(sum_of_turns!(input.turns, |turn| {
        usize::from(set.clone(input.alloc)?.contains(turn))
    }))
}

pub(crate) fn sets_of_bytes(alloc: Global, bytes: &[u8], turns: usize) -> Sum {
    Ok(sum_of_turns!(turns, |turn| {
        usize::from(BitSet::from_bytes(alloc, bytes)?.contains(turn))
    }))
}
