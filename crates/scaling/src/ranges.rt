// Calls on a range of numbers: on 1,000 from the middle on, or on all below n.
use crate::faults::Fault;
use crate::work::{Sets, Work};
use std::alloc::Global;
use std::ops::Range;

#[derive(Clone, Copy)]
enum Call {
    Insert,
    Remove,
    Toggle,
    ContainsAll,
    ContainsAny,
    Count,
    Copy,
}

#[derive(Clone, Copy)]
enum Numbers {
    Part,
    All,
}

#[derive(Clone, Copy)]
pub struct RangeCall {
    call: Call,
    numbers: Numbers,
}

fn call_of(name: &str) -> Option<Call> {
    Some(match name {
        "insert_range" => Call::Insert,
        "remove_range" => Call::Remove,
        "toggle_range" => Call::Toggle,
        "contains_all_in_range" => Call::ContainsAll,
        "contains_any_in_range" => Call::ContainsAny,
        "count_in_range" => Call::Count,
        "copy_range" => Call::Copy,
        _ => return None,
    })
}

fn range_of(numbers: Numbers, n: usize) -> Range<usize> {
    let middle = n / 2;
    match numbers {
        Numbers::Part => middle..middle.saturating_add(1000),
        Numbers::All => 2..n,
    }
}

impl Work for RangeCall {
    fn from_name(name: &str) -> Option<Self> {
        let (whole, numbers) = match name.strip_suffix("_of_all") {
            Some(call) => (call, Numbers::All),
            None => (name, Numbers::Part),
        };
        Some(RangeCall {
            call: call_of(whole)?,
            numbers,
        })
    }

    fn turn(self, alloc: Global, sets: &mut Sets, n: usize) -> Result<usize, Fault> {
        let set = &mut sets.set;
        let range = range_of(self.numbers, n);
        Ok(match self.call {
            Call::Insert => {
                set.insert_range(range)?;
                0
            }
            Call::Remove => {
                set.remove_range(range);
                0
            }
            Call::Toggle => {
                set.toggle_range(range)?;
                0
            }
            Call::ContainsAll => usize::from(set.contains_all_in_range(range)),
            Call::ContainsAny => usize::from(set.contains_any_in_range(range)),
            Call::Count => set.count_in_range(range),
            Call::Copy => set.copy_range(alloc, range)?.len(),
        })
    }
}
