// Calls that look for one element, or take it out.
use crate::faults::Fault;
use crate::work::{Sets, Work};
use bit_set::BitSet;
use std::alloc::Global;

#[derive(Clone, Copy)]
pub enum Search {
    First,
    Last,
    Next,
    Previous,
    NextMissing,
    IsEmpty,
    PopFirst,
    PopLast,
    TakeAll,
    TakeAndInsert,
}

// Takes out the least element until none is left, and returns the sum. At most `n` are in.
fn take_all(mut set: BitSet<u64>, n: usize) -> usize {
    let mut sum = 0usize;
    for _ in 0..n {
        let Some(value) = set.pop_first() else {
            return sum;
        };
        sum = sum.wrapping_add(value);
    }
    sum
}

// Takes out the least element and puts in the greatest again, for each second element that is in.
fn take_and_insert(mut set: BitSet<u64>, n: usize) -> Result<usize, Fault> {
    let mut sum = 0usize;
    for _ in 0..n / 32 {
        if let Some(value) = set.pop_first() {
            sum = sum.wrapping_add(value);
        }
        set.insert(n)?;
    }
    Ok(sum)
}

// Puts in again what was taken out, and returns the sum.
fn put_back(set: &mut BitSet<u64>, taken: [Option<usize>; 2]) -> Result<usize, Fault> {
    let mut sum = 0usize;
    for value in taken.into_iter().flatten() {
        set.insert(value)?;
        sum = sum.wrapping_add(value);
    }
    Ok(sum)
}

impl Work for Search {
    fn from_name(name: &str) -> Option<Self> {
        Some(match name {
            "first" => Search::First,
            "last" => Search::Last,
            "next" => Search::Next,
            "previous" => Search::Previous,
            "next_missing" => Search::NextMissing,
            "is_empty" => Search::IsEmpty,
            "pop_first" => Search::PopFirst,
            "pop_last" => Search::PopLast,
            "take_all" => Search::TakeAll,
            "take_and_insert" => Search::TakeAndInsert,
            _ => return None,
        })
    }

    fn turn(self, alloc: Global, sets: &mut Sets, n: usize) -> Result<usize, Fault> {
        let set = &mut sets.set;
        Ok(match self {
            Search::First => set.first().unwrap_or(0),
            Search::Last => set.last().unwrap_or(0),
            Search::Next => set.next(1).unwrap_or(0),
            Search::Previous => set.previous(n).unwrap_or(0),
            Search::NextMissing => set.next_missing(2),
            Search::IsEmpty => usize::from(set.is_empty()),
            Search::PopFirst => {
                let taken = [set.pop_first(), set.pop_first()];
                put_back(set, taken)?
            }
            Search::PopLast => {
                let taken = [set.pop_last(), set.pop_last()];
                put_back(set, taken)?
            }
            Search::TakeAll => take_all(set.clone(alloc)?, n),
            Search::TakeAndInsert => take_and_insert(set.clone(alloc)?, n)?,
        })
    }
}
