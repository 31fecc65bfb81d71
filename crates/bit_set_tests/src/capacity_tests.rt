//! Capacity, and the bit vector in hand.
ghost use Rattle.std.specs.Prelude.{◌≡◌, ◌<◌, ◌≤◌, All, IsOk, length, slice_set, true};

use crate::expect::{expect, expect_eq, ok, set_of, set_of_bytes};
use crate::steps::{Step, has_just, steps, take};
use bit_set::{BitBlock, BitSet, SetError};
use block24::Block24;
use std::alloc::Global;

// Makes the bit vector true at 1: what is written through it is the set.
fn raise_at_one<B: BitBlock>(set: &mut BitSet<B>)
    requires { 1 < length set.old.values }
    ensures { set.new.values ≡ slice_set set.old.values 1 true }
{
    set.get_mut().set(1, true);
}

// Puts 0 and 3 in, and 1 by way of the bit vector.
fn write_one(set: &mut BitSet) -> Result<(), SetError> {
    set.insert(0)?;
    set.insert(3)?;
    raise_at_one(set);
    Ok(())
}

#[test]
fn what_is_written_is_the_set(rt: HostRuntime) {
    let mut set = BitSet::new(rt.alloc());
    ok(&rt, write_one(&mut set));
    expect(&rt, has_just(&set, &[0, 1, 3]));
}

#[test]
fn the_bit_vector_is_handed_out(rt: HostRuntime) {
    let bits = set_of::<u32>(&rt, &[0, 3]).into_bit_vec();
    expect_eq(&rt, &[bits.get(3), bits.get(4)], &[Some(true), None]);
}

const EXACTLY: &[Step] = steps! {
    ReserveExact(41) Capacity(48) Insert(40, true) Remove(40, true) Shrink Capacity(0)
};

#[test]
fn capacity_is_reserved_and_given_back(rt: HostRuntime) {
    take(
        &rt,
        &mut BitSet::<Block24>::new_general(rt.alloc()),
        EXACTLY,
    );
}

// Once 0 is in, 1 goes in for sure: they share a block.
fn put_one_after_zero(set: &mut BitSet) -> Result<bool, SetError>
    requires { 0 < length set.old.values }
    ensures { IsOk result }
{
    prove!(set.capacity() > 1);
    set.insert(1)
}

// Whether 1 is new in {0}.
fn is_one_new(alloc: Global) -> Result<bool, SetError> {
    let mut set = BitSet::new(alloc);
    set.insert(0)?;
    put_one_after_zero(&mut set)
}

#[test]
fn a_block_that_is_there_is_enough(rt: HostRuntime) {
    expect(&rt, ok(&rt, is_one_new(rt.alloc())));
    let bytes = set_of_bytes::<u8>(&rt, &[7; 5]);
    expect_eq(&rt, &bytes.capacity(), &40);
}

// Numbers below 100 go into a set with capacity for 100, and no call fails.
fn put_all_within<B: BitBlock>(set: &mut BitSet<B>, values: &[usize]) -> Result<(), SetError>
    requires capacity { 100 ≤ set.old.capacity }
    requires low { All (λ value. value < 100) values.now }
    ensures ok { IsOk result }
    ensures kept { set.new.capacity ≡ set.old.capacity }
{
    for &value in values {
        set.insert(value)?;
    }
    Ok(())
}

// Calls on a set by itself that want capacity for no more than 100, where it has it: none fails.
fn change_alone_within<B: BitBlock>(set: &mut BitSet<B>) -> Result<(), SetError>
    requires { 100 ≤ set.old.capacity }
    ensures ok { IsOk result }
    ensures kept { set.new.capacity ≡ set.old.capacity }
{
    set.remove(3);
    set.reserve_len(70)?;
    set.truncate(80);
    set.insert(99)?;
    Ok(())
}

// Calls that want capacity for no more than 100, on a set that has it: none fails.
fn change_within<B: BitBlock>(set: &mut BitSet<B>, other: &BitSet<B>) -> Result<(), SetError>
    requires capacity { 100 ≤ set.old.capacity }
    requires short { length other.now.values ≤ 100 }
    ensures ok { IsOk result }
    ensures kept { set.new.capacity ≡ set.old.capacity }
{
    set.union_with(other)?;
    change_alone_within(set)?;
    set.symmetric_difference_with(other)?;
    set.clone_from(other)?;
    Ok(())
}

// Reserves capacity for 100, and makes these calls within it, where the other set is no longer. Whether the capacity
// stays.
fn stays_within(set: &mut BitSet<Block24>, other: &BitSet<Block24>) -> Result<bool, SetError> {
    if other.get_ref().len() > 100 {
        return Ok(false);
    }
    set.reserve_len(100)?;
    let capacity = set.capacity();
    put_all_within(set, &[99, 0, 41])?;
    change_within(set, other)?;
    Ok(set.capacity() == capacity)
}

#[test]
fn within_its_capacity_a_set_never_fails(rt: HostRuntime) {
    let other = set_of(&rt, &[3, 98]);
    let mut set = BitSet::new_general(rt.alloc());
    let stays = ok(&rt, stays_within(&mut set, &other));
    expect(&rt, stays);
    expect(&rt, has_just(&set, &[3, 98]));
}
