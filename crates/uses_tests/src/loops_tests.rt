//! The loops over sets, and those to a fixed point.
use crate::expect::{Test, expect_eq, has_members, ok, set_of};
use bit_set::BitSet;
use uses::loops::{all_below, follow, has_neighbours, insert_members, sum_of_members};
use uses::worklists::{close_by_rows, reach_by_rows};

// Some numbers, their sum, and whether one follows another.
const SETS: &[(&[usize], Option<usize>, bool)] = &[
    (&[], Some(0), false),
    (&[0, 1, 3], Some(4), true),
    (&[5, 400], Some(405), false),
];

#[test]
fn numbers_are_found(rt: HostRuntime) {
    for &(numbers, sum, neighbours) in SETS {
        let set = set_of::<u8>(&rt, numbers);
        let found = (sum_of_members(&set), has_neighbours(&set));
        expect_eq(&rt, &found, &(sum, neighbours));
    }
}

// A bound, and whether 3 and 70 are both below it.
const BOUNDS: &[(usize, bool)] = &[(0, false), (3, false), (70, false), (71, true)];

#[test]
fn members_are_compared_with_a_bound(rt: HostRuntime) {
    let set = set_of::<u8>(&rt, &[3, 70]);
    for &(n, below) in BOUNDS {
        expect_eq(&rt, &all_below(&set, n), &below);
    }
}

fn put_in(rt: &impl Test, set: &mut BitSet<u8>, other: &BitSet<u64>) {
    ok(rt, insert_members(set, other));
}

#[test]
fn members_are_put_in(rt: HostRuntime) {
    let mut set = set_of(&rt, &[1, 70]);
    put_in(&rt, &mut set, &set_of(&rt, &[3, 70]));
    has_members(&rt, &set, &[1, 3, 70]);
}

#[test]
fn a_walk_along_a_row_ends(rt: HostRuntime) {
    let seen = ok(&rt, follow::<u8>(rt.alloc(), &[2, 0, 300], 1));
    has_members(&rt, &seen, &[0, 1, 2, 300]);
}

// Three sets of successors.
fn rows(rt: &impl Test) -> [BitSet<u8>; 3] {
    [
        set_of(rt, &[1, 2]),
        set_of(rt, &[3, 4]),
        set_of(rt, &[2, 500]),
    ]
}

fn close_set(rt: &impl Test, set: &mut BitSet<u8>) {
    ok(rt, close_by_rows(set, &rows(rt)));
}

fn reach(rt: &impl Test, set: &mut BitSet<u8>) {
    ok(rt, reach_by_rows(rt.alloc(), set, &rows(rt)));
}

#[test]
fn sets_are_closed_by_rows(rt: HostRuntime) {
    let mut set = set_of(&rt, &[0]);
    close_set(&rt, &mut set);
    has_members(&rt, &set, &[0, 1, 2, 3, 4, 500]);
    let mut set = set_of(&rt, &[1, 700]);
    reach(&rt, &mut set);
    has_members(&rt, &set, &[1, 3, 4, 700]);
}
