//! Rows with their exact results, each generic call once, and the texts of the faults.
ghost use Rattle.std.specs.Prelude.{◌≡◌, IsErrOf, OnOk};

use crate::expect::{Test, expect, expect_eq, ok, set_of, set_of_bytes, shows};
use crate::steps::{Step, has_just, steps, take};
use bit_set::bit_vec::{BitVec, Merge};
use bit_set::laws::parted_sets;
use bit_set::{BitBlock, BitSet, SetError};
use block24::Block24;
use std::alloc::{AllocError, Global};

const GREATEST: usize = 18446744073709551615;

// Each from a new set. The greatest number is no element, and a set that it is put into stays as it is.
const ROWS: &[&[Step]] = &[
    steps! {
        Insert(3, true) Insert(3, false) Insert(4, true) Insert(400, true) Insert(400, false)
        Count(3) Len(401) Blocks(13)
    },
    steps! {
        InsertFails(GREATEST, SetError::Element) Elements(&[]) Len(0) IsEmpty(true) Insert(5, true)
        InsertFails(GREATEST, SetError::Element) Elements(&[5]) Len(6)
    },
    // Items before one that fails stay in.
    &[
        Step::ExtendFails(&[7, GREATEST, 9], SetError::Element),
        Step::Elements(&[7]),
    ],
    // The list grows ahead of an item, and afterwards is as long as the items ask, also where one does not go in. The
    // capacity stays.
    steps! {
        ReserveExact(5000) Extend(&[3000, 5, 2500]) Elements(&[5, 2500, 3000]) Len(3001) Blocks(94)
        Capacity(5024) ExtendFails(&[4000, GREATEST, 9], SetError::Element)
        Elements(&[5, 2500, 3000, 4000]) Len(4001) Blocks(126) Capacity(5024)
    },
    // There is not so much memory.
    steps! {
        Insert(5, true) InsertFails(18446744073709551614, SetError::Memory(AllocError))
        ReserveFails(GREATEST) Elements(&[5]) Len(6)
    },
];

#[test]
fn calls_return_what_they_say(rt: HostRuntime) {
    for row in ROWS {
        take(&rt, &mut BitSet::new(rt.alloc()), row);
    }
    let none = BitSet::<u8>::with_capacity_general(rt.alloc(), GREATEST);
    expect(&rt, none.is_err());
}

// Puts a number into a set and at the end of a list: one `?` serves both.
fn put_in_both(set: &mut BitSet, list: &mut Vec<usize>, value: usize) -> Result<(), SetError>
    ensures unfit { IsErrOf result SetError.Length → ⊥ }
{
    set.insert(value)?;
    list.push(value)?;
    Ok(())
}

#[test]
fn a_set_and_a_list_grow_in_one_function(rt: HostRuntime) {
    let mut set = BitSet::new(rt.alloc());
    let mut list = Vec::new(rt.alloc());
    for value in [7, 3] {
        ok(&rt, put_in_both(&mut set, &mut list, value));
    }
    expect(&rt, has_just(&set, &[3, 7]));
    expect_eq(&rt, &list.as_slice(), &[7, 3].as_slice());
}

const FOUR: &[Step] = steps! {
    Extend(&[20, 21, 22, 23]) Count(4) Remove(22, true) Count(3) Clear Count(0) Len(24)
};

// Of a set of two bytes.
const COPIED: &[Step] = steps! { Count(4) MakeEmpty Len(16) Reset Len(0) };

fn sets_are_made<B: BitBlock>(rt: &impl Test) {
    let mut set = ok(rt, BitSet::<B>::with_capacity_general(rt.alloc(), 20));
    take(rt, &mut set, FOUR);
    let bytes = set_of_bytes(rt, &[0b0100_1010, 0b1000_0000]);
    ok(rt, set.clone_from(&bytes));
    take(rt, &mut set, COPIED);
}

// Nine ones are a set that has 8, that is not empty, and that has capacity for them.
const NINE: &[Step] = steps! { Contains(8, true) IsEmpty(false) CapacityFrom(9) };

// Of a copy of {60, 65, 69}: one more number is new, and how many there are once the copy is cut off at 65.
const CUT_COPY: &[Step] = steps! { Insert(100, true) Truncate(65) Count(1) Len(65) };

fn sets_are_copied<B: BitBlock>(rt: &impl Test) {
    let nine = ok(rt, BitVec::<B>::from_elem_general(rt.alloc(), 9, true));
    take(rt, &mut BitSet::from_bit_vec_general(nine), NINE);
    let mut set = set_of::<B>(rt, &[60, 65, 69]);
    take(rt, &mut ok(rt, set.clone(rt.alloc())), CUT_COPY);
    take(rt, &mut set, &[Step::Count(3)]);
}

// Makes the set what it and another become.
fn merge_in<B: BitBlock>(
    set: &mut BitSet<B>,
    merge: Merge,
    other: &BitSet<B>,
) -> Result<(), AllocError> {
    match merge {
        Merge::Union => set.union_with(other),
        Merge::Intersection => set.intersect_with(other),
        Merge::Difference => set.difference_with(other),
        Merge::Symmetric => set.symmetric_difference_with(other),
    }
}

// How many elements two sets of numbers become, by one merge after another.
const COUNTS: &[(Merge, usize)] = &[
    (Merge::Union, 10),
    (Merge::Difference, 5),
    (Merge::Symmetric, 10),
    (Merge::Intersection, 5),
];

fn sets_become_one<B: BitBlock>(rt: &impl Test) {
    let mut set = set_of::<B>(rt, &[1, 3, 5, 9, 11, 160, 19, 24, 200]);
    let other = set_of(rt, &[1, 5, 9, 13, 19]);
    for (merge, count) in COUNTS {
        ok(rt, merge_in(&mut set, *merge, &other));
        expect_eq(rt, &set.count(), count);
    }
}

// Whether a set is in another, that one in it, and whether they have nothing in common.
fn inclusions<B: BitBlock>(less: &BitSet<B>, more: &BitSet<B>) -> [bool; 3] {
    [
        less.is_subset(more),
        less.is_superset(more),
        less.is_disjoint(more),
    ]
}

fn each_succeeds<B: BitBlock>(rt: &impl Test) {
    sets_are_made::<B>(rt);
    sets_are_copied::<B>(rt);
    sets_become_one::<B>(rt);
    let found = inclusions::<B>(&set_of(rt, &[1, 160]), &set_of(rt, &[1, 160, 24]));
    expect_eq(rt, &found, &[true, false, false]);
}

#[test]
fn every_call_succeeds(rt: HostRuntime) {
    each_succeeds::<u8>(&rt);
    each_succeeds::<u128>(&rt);
}

// Parts a set at a number and puts it together again. Once it is done, the set is as it was.
fn split_and_join<B: BitBlock>(
    alloc: Global,
    set: &mut BitSet<B>,
    at: usize,
) -> Result<BitSet<B>, AllocError>
    ensures { OnOk result (set.new.values ≡ set.old.values) }
{
    parted_sets();
    let mut part = set.split_off(alloc, at)?;
    set.append(&mut part)?;
    Ok(part)
}

// {1, 2, 3, 6} is parted at a number and put together again.
fn comes_back<B: BitBlock>(rt: &impl Test, at: usize) {
    let mut set = set_of::<B>(rt, &[1, 2, 3, 6]);
    let part = ok(rt, split_and_join(rt.alloc(), &mut set, at));
    expect(rt, has_just(&set, &[1, 2, 3, 6]));
    expect_eq(rt, &part.count(), &0);
}

#[test]
fn a_parted_set_is_put_together_again(rt: HostRuntime) {
    comes_back::<Block24>(&rt, 0);
    comes_back::<u64>(&rt, 3);
}

const TEXTS: &[(SetError, &str)] = &[
    (SetError::Element, "the element does not fit"),
    (SetError::Length, "too many bits"),
    (SetError::Memory(AllocError), "memory refused"),
];

#[test]
fn faults_have_texts(rt: HostRuntime) {
    for (fault, text) in TEXTS {
        shows(&rt, fault, text);
    }
}
