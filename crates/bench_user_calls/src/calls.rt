// The calls over blocks of 32 and of 64 bits, by the numbers that `bench/user_calls.rs` has for them.
use crate::determinizing::count_states;
use crate::graphs::{close_all, reach};
use crate::live_variables::count_live;
use crate::matrices::close_matrix;
use crate::slots::take_and_give_back;
use std::alloc::Global;

macro_rules! at_width {
    ($bits:expr, $call:ident($($argument:expr),*)) => {
        match $bits {
            32 => $call::<u32>($($argument),*),
            _ => $call::<u64>($($argument),*),
        }
        .unwrap_or(usize::MAX)
    };
}

// Of nodes or states of which each has so many edges, with these ends; of slots of which so many are taken, and these are
// given back; or of variables with these numbers.
#[unsafe(no_mangle)]
pub extern "C" fn bench_user(
    alloc: Global,
    call: usize,
    bits: usize,
    len: usize,
    each: usize,
    numbers: &[usize],
    turns: usize,
) -> usize {
    match call {
        0 => at_width!(bits, take_and_give_back(alloc, len, each, numbers, turns)),
        1 => at_width!(bits, reach(alloc, len, each, numbers, turns)),
        2 => at_width!(bits, close_all(alloc, len, each, numbers, turns)),
        3 => at_width!(bits, close_matrix(alloc, len, each, numbers, turns)),
        4 => at_width!(bits, count_states(alloc, len, each, numbers, turns)),
        _ => at_width!(bits, count_live(alloc, len, numbers, turns)),
    }
}
