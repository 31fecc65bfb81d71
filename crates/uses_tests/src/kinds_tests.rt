//! The uses by kinds, each at values that were worked out by hand.
use crate::expect::{Test, expect_eq, has_members, ok, set_of};
use bit_set::BitSet;
use uses::allocating::{claim_run, take_lowest};
use uses::complements::{absent, complement_below, free_ports};
use uses::filling::{remove_multiples, remove_pairs, with_hole};
use uses::filtering::{keep_common, part};
use uses::from_the_back::{greatest_k, keep_least, last_below};
use uses::merging::{all_have_loop, union_of_all};
use uses::reading::{bytes_with, insert_all, through_bytes};
use uses::selecting::{median, place_in_queue};

fn holed(rt: &impl Test) -> BitSet<u8> {
    ok(rt, with_hole(rt.alloc(), 10, 3, 5))
}

#[test]
fn sets_are_filled(rt: HostRuntime) {
    let mut set = holed(&rt);
    has_members(&rt, &set, &[0, 1, 2, 5, 6, 7, 8, 9]);
    remove_multiples(&mut set, 3, 7);
    has_members(&rt, &set, &[1, 2, 5, 7, 8, 9]);
}

#[test]
fn pairs_are_taken_out(rt: HostRuntime) {
    let mut set = set_of::<u8>(&rt, &[1, 2, 3, 7]);
    remove_pairs(&mut set, &set_of::<u8>(&rt, &[1, 3]));
    has_members(&rt, &set, &[7]);
}

fn complemented(rt: &impl Test, set: &BitSet<u16>) -> BitSet<u16> {
    ok(rt, complement_below(rt.alloc(), set, 5))
}

fn absentees(rt: &impl Test, present: &BitSet<u16>) -> BitSet<u16> {
    ok(rt, absent(rt.alloc(), present, 5))
}

#[test]
fn what_is_not_in_is_found(rt: HostRuntime) {
    let set = set_of(&rt, &[1, 3, 6]);
    has_members(&rt, &complemented(&rt, &set), &[0, 2, 4]);
    has_members(&rt, &absentees(&rt, &set), &[0, 2, 4]);
    let ports = ok(&rt, free_ports(rt.alloc(), &set, 2, 5));
    expect_eq(&rt, &&*ports, &&[2, 4][..]);
}

#[test]
fn members_are_selected(rt: HostRuntime) {
    let set = set_of::<u16>(&rt, &[3, 70, 71]);
    let places = [place_in_queue(&set, 71), place_in_queue(&set, 4)];
    expect_eq(&rt, &places, &[Some(2), None]);
    expect_eq(&rt, &median(&set), &Some(70));
}

fn united(rt: &impl Test, sets: &[BitSet<u8>]) -> BitSet<u8> {
    ok(rt, union_of_all(rt.alloc(), sets))
}

#[test]
fn rows_of_sets_are_merged(rt: HostRuntime) {
    let sets = [
        set_of(&rt, &[1, 2]),
        set_of(&rt, &[2, 3]),
        set_of(&rt, &[2]),
    ];
    let found = [all_have_loop(&sets, 2), all_have_loop(&sets, 3)];
    expect_eq(&rt, &found, &[true, false]);
    has_members(&rt, &united(&rt, &sets), &[1, 2, 3]);
}

fn taken(rt: &impl Test, used: &mut BitSet<u8>) -> [Option<usize>; 2] {
    [ok(rt, take_lowest(used, 1)), ok(rt, take_lowest(used, 9))]
}

fn claimed(rt: &impl Test, used: &mut BitSet<u8>) -> [Option<usize>; 2] {
    [ok(rt, claim_run(used, 2, 3)), ok(rt, claim_run(used, 2, 9))]
}

#[test]
fn numbers_are_handed_out(rt: HostRuntime) {
    let mut used = set_of(&rt, &[0, 3]);
    expect_eq(&rt, &taken(&rt, &mut used), &[None, Some(1)]);
    expect_eq(&rt, &claimed(&rt, &mut used), &[None, Some(4)]);
    has_members(&rt, &used, &[0, 1, 3, 4, 5]);
}

#[test]
fn members_come_from_the_back(rt: HostRuntime) {
    let mut set = set_of::<u64>(&rt, &[1, 5, 300]);
    let greatest = ok(&rt, greatest_k(rt.alloc(), &set, 2));
    expect_eq(&rt, &&*greatest, &&[300, 5][..]);
    let below = [last_below(&set, 300), last_below(&set, 1)];
    expect_eq(&rt, &below, &[Some(5), None]);
    keep_least(&mut set, 2);
    has_members(&rt, &set, &[1, 5]);
}

#[test]
fn members_are_kept(rt: HostRuntime) {
    let mut set = set_of::<u8>(&rt, &[1, 2, 4, 9]);
    keep_common(&mut set, &set_of::<u64>(&rt, &[1, 4, 5]));
    has_members(&rt, &set, &[1, 4]);
}

fn parted(rt: &impl Test, set: &BitSet<u8>, even: &mut BitSet<u8>, odd: &mut BitSet<u8>) {
    ok(rt, part(set, even, odd));
}

#[test]
fn members_are_parted(rt: HostRuntime) {
    let (mut even, mut odd) = (BitSet::new_general(rt.alloc()), set_of(&rt, &[8]));
    parted(&rt, &set_of(&rt, &[1, 2, 4]), &mut even, &mut odd);
    has_members(&rt, &even, &[2, 4]);
    has_members(&rt, &odd, &[1, 8]);
}

#[test]
fn sets_go_through_bytes(rt: HostRuntime) {
    let set = set_of::<u128>(&rt, &[1, 9]);
    has_members(&rt, &ok(&rt, through_bytes(rt.alloc(), &set)), &[1, 9]);
}

#[test]
fn bytes_have_one_more(rt: HostRuntime) {
    let mut set = set_of::<u16>(&rt, &[1]);
    let bytes = ok(&rt, bytes_with(rt.alloc(), &mut set, 15));
    expect_eq(&rt, &&*bytes, &&[0b0100_0000, 0b0000_0001][..]);
}

fn inserted(rt: &impl Test, set: &mut BitSet<u8>) {
    ok(rt, insert_all(set, &[5, 3]));
}

#[test]
fn all_numbers_go_in_or_none(rt: HostRuntime) {
    let mut set = set_of(&rt, &[1]);
    inserted(&rt, &mut set);
    has_members(&rt, &set, &[1, 3, 5]);
    expect_eq(
        &rt,
        &insert_all(&mut set, &[7, 18446744073709551615]).is_err(),
        &true,
    );
    has_members(&rt, &set, &[1, 3, 5]);
}
