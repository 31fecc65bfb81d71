// The calls, by the numbers that `bench/calls.rs` has for them: so each shape of arguments is declared once. `at` is how
// many bits a block has, or the number of a merge.
use crate::input_sets::{Input, Sum, copies, sets_of_bytes};
use crate::inserting::{
    insert_below, insert_in_order, insert_with_capacity, remove, sets_with_capacity,
};
use crate::parts::{byte_turns, retain_turns, sets_of_numbers, walk_missing, walk_range};
use crate::ranges::{
    count_in_ranges, insert_ranges, remove_ranges, remove_turns, take_turns, toggle_ranges,
};
use crate::reading::{contains, count, is_empty, nth_by_walks, nths, small_sets, walk, walk_back};
use crate::two_sets::{
    append_copies, change_in_place, compare, count_merged, find_apart, find_within, merge_in_place,
    order, part_and_join, unite_in_place, walk_merged,
};
use crate::{growing, small_changes, small_merges, small_reads};
use bit_set::bit_vec::Merge;
use std::alloc::Global;

// The call at the type of blocks that has this many bits.
macro_rules! at_width {
    ($bits:expr, $call:ident($($argument:expr),*)) => {
        match $bits {
            32 => $call::<u32>($($argument),*),
            64 => $call::<u64>($($argument),*),
            _ => $call::<u128>($($argument),*),
        }
    };
}

// The call at each merge in code of its own, so that no turn picks the merge.
macro_rules! at_merge {
    ($merge:expr, $($call:tt)*) => {
        match $merge {
            0 => at!(Merge::Union, $($call)*),
            1 => at!(Merge::Intersection, $($call)*),
            2 => at!(Merge::Difference, $($call)*),
            _ => at!(Merge::Symmetric, $($call)*),
        }
    };
}

macro_rules! at {
    ($merge:expr, at_width $bits:expr, $call:ident($input:expr)) => {
        at_width!($bits, $call($merge, $input))
    };
    ($merge:expr, $call:path, $input:expr) => {
        $call($merge, $input)
    };
}

fn on_one_set(call: usize, bits: usize, input: Input<'_>) -> Sum {
    match call {
        0 => at_width!(bits, walk(input)),
        1 => at_width!(bits, count(input)),
        2 => at_width!(bits, is_empty(input)),
        3 => at_width!(bits, copies(input)),
        4 => at_width!(bits, compare(input)),
        5 => at_width!(bits, small_sets(input)),
        6 => order(input),
        7 => part_and_join(input),
        8 => retain_turns(input),
        9 => byte_turns(input),
        10 => sets_of_numbers(input),
        11 => take_turns(input),
        12 => remove_turns(input),
        13 => walk_back(input),
        14 => nths(input),
        _ => nth_by_walks(input),
    }
}

fn on_numbers_or_two_sets(call: usize, bits: usize, input: Input<'_>) -> Sum {
    match call {
        20 => at_width!(bits, contains(input)),
        21 => at_width!(bits, remove(input)),
        22 => at_width!(bits, insert_with_capacity(input)),
        23 => at_width!(bits, insert_below(input)),
        24 => at_width!(bits, insert_in_order(input)),
        25 => sets_with_capacity(input),
        26 => append_copies(input),
        27 => unite_in_place(input),
        28 => find_apart(input),
        _ => find_within(input),
    }
}

fn on_small_sets(call: usize, merge: usize, input: Input<'_>) -> Sum {
    match call {
        40 => at_merge!(merge, small_merges::merge_turns, input),
        41 => at_merge!(merge, small_merges::change_turns, input),
        42 => small_merges::fused_turns(input),
        43 => small_merges::parted_turns(input),
        44 => small_changes::clone_turns(input),
        45 => small_changes::clone_from_turns(input),
        46 => small_changes::with_capacity_turns(input),
        47 => small_changes::make_empty_turns(input),
        48 => small_changes::insert_turns(input),
        49 => small_changes::insert_and_remove_turns(input),
        50 => small_changes::remove_turns(input),
        51 => small_reads::eq_turns(input),
        52 => small_reads::cmp_turns(input),
        53 => small_reads::is_subset_turns(input),
        54 => small_reads::is_disjoint_turns(input),
        55 => small_reads::count_turns(input),
        56 => small_reads::walk_turns(input),
        _ => small_reads::contains_turns(input),
    }
}

#[unsafe(no_mangle)]
pub extern "C" fn bench_call(
    alloc: Global,
    call: usize,
    at: usize,
    len: usize,
    first: &[usize],
    second: &[usize],
    turns: usize,
) -> usize {
    let input = Input {
        alloc,
        len,
        first,
        second,
        turns,
    };
    let sum = match call / 20 {
        0 => on_one_set(call, at, input),
        1 => on_numbers_or_two_sets(call, at, input),
        _ => on_small_sets(call, at, input),
    };
    sum.unwrap_or(usize::MAX)
}

// Work on two sets at a merge, over blocks of this many bits.
#[unsafe(no_mangle)]
pub extern "C" fn bench_merged(
    alloc: Global,
    call: usize,
    merge: usize,
    bits: usize,
    first: &[usize],
    second: &[usize],
    turns: usize,
) -> usize {
    let input = Input {
        alloc,
        len: 0,
        first,
        second,
        turns,
    };
    let sum = match call {
        0 => at_merge!(merge, at_width bits, walk_merged(input)),
        1 => at_merge!(merge, at_width bits, count_merged(input)),
        2 => at_merge!(merge, at_width bits, merge_in_place(input)),
        _ => at_merge!(merge, change_in_place, input),
    };
    sum.unwrap_or(usize::MAX)
}

#[unsafe(no_mangle)]
pub extern "C" fn bench_from_bytes(alloc: Global, bytes: &[u8], turns: usize) -> usize {
    sets_of_bytes(alloc, bytes, turns).unwrap_or(usize::MAX)
}

// Work on the numbers from one to another: of a set that has the last number below `len`, or has the members.
#[unsafe(no_mangle)]
pub extern "C" fn bench_range(
    alloc: Global,
    call: usize,
    len: usize,
    members: &[usize],
    start: usize,
    end: usize,
    turns: usize,
) -> usize {
    let input = Input {
        alloc,
        len,
        first: members,
        second: &[],
        turns,
    };
    let sum = match call {
        0 => insert_ranges(input, start, end),
        1 => remove_ranges(input, start, end),
        2 => toggle_ranges(input, start, end),
        3 => count_in_ranges(input, start, end),
        4 => walk_range(input, start, end),
        _ => walk_missing(input, start, end),
    };
    sum.unwrap_or(usize::MAX)
}

#[unsafe(no_mangle)]
pub extern "C" fn bench_growing(alloc: Global, call: usize, number: usize, turns: usize) -> usize {
    let sum = match call {
        0 => growing::fill(alloc, number, turns),
        1 => growing::reserve(alloc, turns),
        2 => growing::shrink(alloc, number, turns),
        3 => growing::shrink_emptied::<u32>(alloc, number, false, turns),
        4 => growing::shrink_emptied::<u32>(alloc, number, true, turns),
        5 => growing::shrink_emptied::<u64>(alloc, number, false, turns),
        _ => growing::shrink_emptied::<u64>(alloc, number, true, turns),
    };
    sum.unwrap_or(usize::MAX)
}

#[unsafe(no_mangle)]
pub extern "C" fn bench_grow(alloc: Global, values: u8, turns: u32) -> usize {
    growing::grow(alloc, values, turns).unwrap_or(usize::MAX)
}
