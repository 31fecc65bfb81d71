//! The uses of `src/lib.rt`.
use crate::expect::{expect_eq, has_members, ok, ok_as_said, set_of};
use bit_set::BitSet;
use std::collections::BTreeMap;
use uses::chains::copy_over;
use uses::{evens_by_chain, exchange, keep_under, lists_of_members, members, toggle};

const EVENS: &[usize] = &[0, 2, 4, 6, 8];

#[test]
fn sets_are_made(rt: HostRuntime) {
    has_members(&rt, &ok(&rt, evens_by_chain::<u64>(rt.alloc(), 9)), EVENS);
}

#[test]
fn members_are_listed(rt: HostRuntime) {
    let set = set_of::<u8>(&rt, EVENS);
    let members = ok(&rt, members(rt.alloc(), &set));
    expect_eq(&rt, &members.as_slice(), &EVENS);
}

#[test]
fn members_are_exchanged(rt: HostRuntime) {
    let mut set = set_of::<u16>(&rt, &[2, 4]);
    ok(&rt, exchange(&mut set, 300, 2));
    has_members(&rt, &set, &[4, 300]);
}

#[test]
fn a_member_comes_and_goes(rt: HostRuntime) {
    let mut set = BitSet::<u16>::new_general(rt.alloc());
    for there in [true, false] {
        expect_eq(&rt, &toggle(&mut set, 300), &Ok(there));
    }
    has_members(&rt, &set, &[]);
}

#[test]
fn a_set_is_a_key(rt: HostRuntime) {
    let mut longer = set_of::<u8>(&rt, &[0, 2, 900]);
    longer.remove(900);
    let shorter = ok_as_said(&rt, copy_over::<u8, u8>(rt.alloc(), &longer));
    lists_of_members(&shorter, &longer);
    let found = keep_under(&mut BTreeMap::new(rt.alloc()), shorter, 7, &longer);
    expect_eq(&rt, &ok(&rt, found), &Some(7));
}
