// Walks over a set, and what is missing in it.
use crate::faults::Fault;
use crate::work::{Sets, Work};
use bit_set::BitSet;
use std::alloc::Global;

#[derive(Clone, Copy)]
pub enum Walk {
    Forward,
    Backward,
    Range,
    Nth,
    NthOfTwo,
    Count,
    Missing,
    CountMissing,
    Retain,
}

fn sum_forward(set: &BitSet<u64>) -> usize {
    let mut sum = 0usize;
    for value in set.iter() {
        sum = sum.wrapping_add(value);
    }
    sum
}

fn sum_backward(set: &BitSet<u64>) -> usize {
    let mut sum = 0usize;
    for value in set.iter().rev() {
        sum = sum.wrapping_add(value);
    }
    sum
}

// The sum of the elements among 1,000 numbers from the middle on.
fn sum_of_part(set: &BitSet<u64>, n: usize) -> usize {
    let middle = n / 2;
    let mut sum = 0usize;
    for value in set.range(middle..middle.saturating_add(1000)) {
        sum = sum.wrapping_add(value);
    }
    sum
}

fn sum_of_missing(set: &BitSet<u64>, n: usize) -> usize {
    let mut sum = 0usize;
    for value in set.missing(0..n) {
        sum = sum.wrapping_add(value);
    }
    sum
}

impl Work for Walk {
    fn from_name(name: &str) -> Option<Self> {
        Some(match name {
            "iter" => Walk::Forward,
            "rev" => Walk::Backward,
            "range" => Walk::Range,
            "nth" => Walk::Nth,
            "nth_of_two" => Walk::NthOfTwo,
            "count" => Walk::Count,
            "missing" => Walk::Missing,
            "count_missing" => Walk::CountMissing,
            "retain" => Walk::Retain,
            _ => return None,
        })
    }

    fn turn(self, _alloc: Global, sets: &mut Sets, n: usize) -> Result<usize, Fault> {
        let set = &mut sets.set;
        Ok(match self {
            Walk::Forward => sum_forward(set),
            Walk::Backward => sum_backward(set),
            Walk::Range => sum_of_part(set, n),
            Walk::Nth => set.iter().nth(n / 32).unwrap_or(0),
            Walk::NthOfTwo => set.iter().nth(1).unwrap_or(0),
            Walk::Count => set.count(),
            Walk::Missing => sum_of_missing(set, n),
            Walk::CountMissing => set.missing(0..n).count(),
            Walk::Retain => {
                set.retain(|value| value != 1);
                0
            }
        })
    }
}
