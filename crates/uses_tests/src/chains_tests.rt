//! The walks in chains.
use crate::expect::{Test, expect, expect_eq, has_members, ok, set_of};
use bit_set::BitSet;
use uses::chains::{
    all_below, any_from, copy_over, first_from, first_without, greatest_odd, halves, is_union,
    place_of, put_row, ten_least,
};

// A bound, whether 3 and 70 are both below it, and the least of them that is not.
const BOUNDS: &[(usize, bool, Option<usize>)] = &[
    (0, false, Some(3)),
    (4, false, Some(70)),
    (70, false, Some(70)),
    (71, true, None),
];

#[test]
fn members_are_searched(rt: HostRuntime) {
    let set = set_of::<u8>(&rt, &[3, 70]);
    for &(n, below, first) in BOUNDS {
        let found = (all_below(&set, n), !any_from(&set, n), first_from(&set, n));
        expect_eq(&rt, &found, &(below, below, first));
    }
}

#[test]
fn members_are_put_in(rt: HostRuntime) {
    let mut set = set_of::<u8>(&rt, &[2]);
    ok(&rt, put_row(&mut set, &[70, 3, 9, 3]));
    has_members(&rt, &set, &[2, 3, 9, 70]);
}

// What the calls make. A function without a clause keeps what they ensure from the test.
fn copied(rt: &impl Test, set: &BitSet<u128>) -> BitSet<u8> {
    ok(rt, copy_over(rt.alloc(), set))
}

fn halved(rt: &impl Test, set: &BitSet<u128>) -> BitSet<u8> {
    ok(rt, halves(rt.alloc(), set))
}

#[test]
fn sets_are_made_by_chains(rt: HostRuntime) {
    let set = set_of(&rt, &[2, 3, 300]);
    has_members(&rt, &copied(&rt, &set), &[2, 3, 300]);
    has_members(&rt, &halved(&rt, &set), &[1, 150]);
}

// Eleven members.
const ELEVEN: &[usize] = &[1, 2, 3, 5, 8, 13, 21, 34, 55, 89, 144];

#[test]
fn ten_members_are_the_least(rt: HostRuntime) {
    let set = set_of::<u8>(&rt, ELEVEN);
    let least = ok(&rt, ten_least(rt.alloc(), &set));
    has_members(&rt, &least, &[1, 2, 3, 5, 8, 13, 21, 34, 55, 89]);
}

#[test]
fn odd_members_have_a_greatest(rt: HostRuntime) {
    let set = set_of::<u8>(&rt, ELEVEN);
    expect_eq(&rt, &greatest_odd(&set), &Some(89));
}

#[test]
fn members_have_places(rt: HostRuntime) {
    let set = set_of::<u8>(&rt, &[3, 70]);
    let places = [place_of(&set, 70), place_of(&set, 4)];
    expect_eq(&rt, &places, &[Some(1), None]);
}

#[test]
fn sets_are_compared(rt: HostRuntime) {
    let a = set_of::<u16>(&rt, &[1, 70]);
    let b = set_of::<u16>(&rt, &[1]);
    let found = [first_without(&a, &b), first_without(&b, &a)];
    expect_eq(&rt, &found, &[Some(70), None]);
    expect(&rt, is_union(&a, &b, &a));
    expect(&rt, !is_union(&b, &b, &a));
}
