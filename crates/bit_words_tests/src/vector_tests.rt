//! Each call on a list that is no example: what it makes, what is no memory for, and what is given back.
use crate::expect::{Test, expect, expect_eq, list_of, ok};
use bit_words::bit_vec::{BitBlock, BitVec, BitsError, Blocks, Steps};
use block24::Block24;
use std::alloc::AllocError;

// The list of these bytes.
fn of_bytes<B: BitBlock>(rt: &impl Test, bytes: &[u8]) -> BitVec<B> {
    ok(rt, BitVec::from_bytes_general(rt.alloc(), bytes))
}

// A list of 40 values of which the last is true, made by way of each general call.
fn last_of_forty<B: BitBlock>(rt: &impl Test) -> BitVec<B> {
    let bytes = of_bytes::<B>(rt, &[0, 0, 0, 0, 1]);
    let mut bits = ok(rt, BitVec::from_elem_general(rt.alloc(), 50, true));
    ok(rt, bits.clone_from(&bytes));
    ok(rt, bits.clone(rt.alloc()))
}

// Appends this many values where a list may be so long.
fn grow_by<B: BitBlock>(rt: &impl Test, bits: &mut BitVec<B>, n: usize, bit: bool) {
    let n = n.min(usize::MAX - bits.len());
    ok(rt, bits.grow(n, bit));
}

// Whether the value at a place was true, which is false then.
fn is_lowered<B: BitBlock>(bits: &mut BitVec<B>, place: usize) -> bool {
    place < bits.len() && bits.replace(place, false)
}

// Of five values that are true except for the first: the outer two, what is past them, and whether the capacity
// holds all.
fn grown<B: BitBlock>(rt: &impl Test) -> ([Option<bool>; 3], bool) {
    let mut bits = BitVec::<B>::new_general(rt.alloc());
    grow_by(rt, &mut bits, 5, true);
    let was_true = is_lowered(&mut bits, 0);
    let ends = [bits.get(0), bits.get(4), bits.get(5)];
    (ends, was_true && bits.capacity() >= bits.len())
}

// How many values and blocks there are, and how many blocks a walk and its copy have left after one.
fn sizes<B: BitBlock>(bits: &BitVec<B>) -> [usize; 4] {
    let mut walk = bits.blocks();
    let _first = walk.next();
    let left = walk.clone().count();
    [bits.len(), bits.storage().len(), walk.size_hint().0, left]
}

// Whether no value is true, of such a list, of all but its last value, and of none.
fn nones<B: BitBlock>(bits: &mut BitVec<B>) -> [bool; 3] {
    let whole = bits.none();
    bits.truncate(39);
    let cut = bits.none();
    bits.fill(true);
    bits.remove_all();
    [whole, cut, bits.none()]
}

fn check_each_call<B: BitBlock>(rt: &impl Test, wanted: [usize; 4]) {
    let mut bits = last_of_forty::<B>(rt);
    expect_eq(rt, &sizes(&bits), &wanted);
    expect_eq(rt, &nones(&mut bits), &[false, true, true]);
    let ends = [Some(false), Some(true), None];
    expect_eq(rt, &grown::<B>(rt), &(ends, true));
}

#[test]
fn each_call_works_at_three_widths(rt: HostRuntime) {
    check_each_call::<u8>(&rt, [40, 5, 4, 4]);
    check_each_call::<Block24>(&rt, [40, 2, 1, 1]);
    check_each_call::<u128>(&rt, [40, 1, 0, 0]);
    let mut steps = Steps::new();
    steps.tick();
    let _same = steps.clone();
}

// The next block. It has no clause, so that a test that makes many such calls does not carry each one along.
fn next_if<B: BitBlock>(walk: &mut Blocks<'_, B>, wanted: bool) -> Option<B> {
    walk.next_if(wanted)
}

#[test]
fn a_block_comes_where_it_is_wanted(rt: HostRuntime) {
    let bits = of_bytes::<u8>(&rt, &[0b1000_0000, 0b0000_0001]);
    let mut walk = bits.blocks();
    expect_eq(&rt, &next_if(&mut walk, false), &Some(0));
    expect_eq(&rt, &walk.size_hint(), &(2, Some(2)));
    let rest = [
        next_if(&mut walk, true),
        next_if(&mut walk, false),
        walk.next(),
    ];
    expect_eq(&rt, &rest, &[Some(1), Some(0), Some(128)]);
    let end = [next_if(&mut walk, false), next_if(&mut walk, true)];
    expect_eq(&rt, &end, &[Some(0), None]);
}

// The tail of a list from an index on that the list has: how long it is, how many of its values are true, and whether
// the one at the index is.
fn tail_of<B: BitBlock>(
    rt: &impl Test,
    bits: &BitVec<B>,
    at: usize,
) -> Option<(usize, usize, Option<bool>)> {
    if at >= bits.len() {
        return None;
    }
    let tail = ok(rt, bits.clone_tail(rt.alloc(), at));
    Some((tail.len(), tail.count_ones(), tail.get(at)))
}

#[test]
fn a_tail_is_false_before_its_index(rt: HostRuntime) {
    let bits = list_of::<Block24>(&rt, 100, &[3, 40, 99]);
    expect_eq(&rt, &tail_of(&rt, &bits, 40), &Some((100, 2, Some(true))));
}

// How long a list is once its zero blocks are cut, and its capacity after that.
fn cut_and_shrunk<B: BitBlock>(rt: &impl Test, bits: &mut BitVec<B>) -> (usize, usize) {
    bits.cut_zero_blocks();
    let len = bits.len();
    ok(rt, bits.shrink_to_fit());
    (len, bits.capacity())
}

#[test]
fn capacity_is_reserved_exactly_and_given_back(rt: HostRuntime) {
    let mut exact = BitVec::<Block24>::new_general(rt.alloc());
    ok(&rt, exact.reserve_exact(25));
    expect_eq(&rt, &exact.capacity(), &48);
    let mut bits = list_of::<Block24>(&rt, 1000, &[40]);
    expect_eq(&rt, &cut_and_shrunk(&rt, &mut bits), &(48, 48));
    bits.fill(false);
    expect_eq(&rt, &cut_and_shrunk(&rt, &mut bits), &(0, 0));
}

// How a list fails to take this many values, by each call that takes memory for them.
fn failures<B: BitBlock>(bits: &mut BitVec<B>, len: usize) -> [Result<(), AllocError>; 4] {
    let more = len.saturating_sub(bits.len());
    let ones = bits.grow(more, true);
    let more = len.saturating_sub(bits.len());
    let zeros = bits.grow(more, false);
    let more = len.saturating_sub(bits.len());
    let capacity = bits.reserve(more);
    let more = len.saturating_sub(bits.len());
    [ones, zeros, capacity, bits.reserve_exact(more)]
}

// Whether no list is made of this many values.
fn is_too_long<B: BitBlock>(rt: &impl Test, len: usize) -> bool {
    BitVec::<B>::from_elem_general(rt.alloc(), len, true).is_err()
        && BitVec::<B>::from_elem_general(rt.alloc(), len, false).is_err()
}

// The first three values and the eighth, and how many are true.
fn firsts<B: BitBlock>(bits: &BitVec<B>) -> ([Option<bool>; 4], usize) {
    let firsts = [bits.get(0), bits.get(1), bits.get(2), bits.get(7)];
    (firsts, bits.count_ones())
}

// Each call that takes a number, at one for which there is no memory.
fn check_greatest<B: BitBlock>(rt: &impl Test, number: usize) {
    let mut bits = of_bytes::<B>(rt, &[0b1010_0000]);
    let capacity = bits.capacity();
    expect_eq(rt, &failures(&mut bits, number), &[Err(AllocError); 4]);
    expect(rt, is_too_long::<B>(rt, number));
    expect_eq(rt, &bits.get(number), &None);
    bits.truncate(number);
    let values = [Some(true), Some(false), Some(true), Some(false)];
    expect_eq(rt, &firsts(&bits), &(values, 2));
    expect_eq(rt, &[bits.len(), bits.capacity()], &[8, capacity]);
}

#[test]
fn the_greatest_numbers_change_nothing(rt: HostRuntime) {
    for number in [18446744073709551615, 18446744073709551614] {
        check_greatest::<u8>(&rt, number);
        check_greatest::<Block24>(&rt, number);
        check_greatest::<u64>(&rt, number);
    }
}

// Makes a vector of bytes and puts one byte at the end of a list: one `?` serves both.
fn keep_byte(rt: &impl Test, list: &mut Vec<u8>, byte: u8) -> Result<BitVec, BitsError> {
    let bits = BitVec::from_bytes(rt.alloc(), &[byte])?;
    list.push(byte)?;
    Ok(bits)
}

#[test]
fn a_vector_and_a_list_are_made_in_one_function(rt: HostRuntime) {
    let mut list = Vec::new(rt.alloc());
    let bits = ok(&rt, keep_byte(&rt, &mut list, 0b1010_0000));
    expect_eq(&rt, &bits.storage(), &[5].as_slice());
    expect_eq(&rt, &list.as_slice(), &[0b1010_0000].as_slice());
}
