//! The examples of the doc comments, as they are there except for `expect`, which costs less.
use crate::expect::{Test, expect, expect_eq, list_of, ok, put};
use bit_words::bit_vec::{
    BitVec, BitsError, Merge, clear_below, clear_from, first_mismatching_block,
    first_nonzero_block, lowest_mismatch, mismatch_between, same_blocks, take_highest_one,
    take_lowest_one, with_bit,
};
use std::alloc::AllocError;
use std::test::Fail;

#[test]
fn ones_of_a_block(rt: HostRuntime) {
    let mut block = 0b0110u8;
    expect_eq(&rt, &take_lowest_one(&mut block), &1);
    expect_eq(&rt, &block, &0b0100);
    let mut block = 0b0110u8;
    expect_eq(&rt, &take_highest_one(&mut block), &2);
    expect_eq(&rt, &block, &0b0010);
}

#[test]
fn digits_of_a_block(rt: HostRuntime) {
    expect_eq(&rt, &clear_below(0b0111u8, 1), &0b0110);
    expect_eq(&rt, &clear_below(0b0111u8, 8), &0);
    expect_eq(&rt, &clear_from(0b0111u8, 1), &0b0001);
    expect_eq(&rt, &clear_from(0b0111u8, 8), &0b0111);
    expect_eq(&rt, &with_bit(0b0110u8, 1, false), &0b0100);
    expect_eq(&rt, &with_bit(0b0110u8, 0, true), &0b0111);
}

#[test]
fn lists_of_blocks(rt: HostRuntime) {
    expect(&rt, same_blocks(&[7u8, 1], &[7, 1, 0]));
    expect(&rt, !same_blocks(&[7u8, 1], &[7, 1, 2]));
    expect_eq(&rt, &first_mismatching_block(&[7u8, 1], &[7, 1, 0]), &None);
    assert_eq!(rt; first_mismatching_block(&[7u8, 1], &[7, 1, 2]), Some(2));
}

#[test]
fn where_blocks_differ_and_are_not_zero(rt: HostRuntime) {
    assert_eq!(rt; mismatch_between(&[7u8, 1, 3], &[7, 2, 4], 1, 3), Some(1));
    expect_eq(&rt, &first_nonzero_block(&[1u8, 0, 4], 1), &Some(2));
    expect_eq(&rt, &lowest_mismatch(0b0101u8, 0b1001), &2);
}

#[test]
fn a_list_of_five_values(rt: HostRuntime) -> Result<(), Fail> {
    let alloc = rt.alloc();
    let mut bits = BitVec::from_elem(alloc, 3, false)?;
    bits.set(1, true);
    bits.grow(2, true)?;
    expect_eq(&rt, &bits.storage(), &[0b11010].as_slice());
    Ok(())
}

#[test]
fn blocks_that_are_not_zero(rt: HostRuntime) -> Result<(), Fail> {
    let mut bits = BitVec::from_elem(rt.alloc(), 100, false)?;
    bits.set(70, true);
    bits.set(71, true);
    // Of 100 values, over blocks of 32 bits, those at 70 and 71 are true.
    expect(&rt, bits.nonzero().eq([(0, 0), (2, 0b1100_0000)]));
    expect(&rt, bits.nonzero_past_first().eq([(2, 0b1100_0000)]));
    // Of 100 values, over blocks of 32 bits, those at 70 and 71 are true.
    expect(&rt, bits.nonzero_past(1).eq([(2, 0b1100_0000)]));
    // Of 100 values, over blocks of 32 bits, those at 70 and 71 are true.
    let (mut walk, block) = bits.nonzero_between(0, 2, 7);
    expect_eq(&rt, &block, &0b0100_0000);
    expect_eq(&rt, &walk.next(), &None);
    Ok(())
}

#[test]
fn a_chunk_that_is_merged(rt: HostRuntime) -> Result<(), Fail> {
    let mut bits = BitVec::<u8>::from_elem_general(rt.alloc(), 72, false)?;
    let mut other = BitVec::<u8>::from_elem_general(rt.alloc(), 72, false)?;
    // Of 72 values, over blocks of 8 bits.
    expect_eq(&rt, &bits.chunk_count(), &2);
    bits.set(5, true);
    bits.set(70, true);
    other.set(6, true);
    other.set(71, true);
    // Of 72 values, over blocks of 8 bits, those at 5 and 70 are true, and in `other` those at 6 and 71.
    bits.merge_chunk_with(&other, Merge::Union, 1);
    assert_eq!(rt;
        bits.storage(),
        [0b0010_0000, 0, 0, 0, 0, 0, 0, 0, 0b1100_0000].as_slice()
    );
    Ok(())
}

#[test]
fn a_walk_that_skips_blocks(rt: HostRuntime) -> Result<(), Fail> {
    let bits = BitVec::<u8>::from_elem_general(rt.alloc(), 1000, true)?;
    // Of 1000 values, all true, over blocks of 8 bits.
    let mut walk = bits.nonzero_past(7);
    expect_eq(&rt, &walk.skip_blocks(200), &192);
    expect_eq(&rt, &walk.next(), &Some((32, 0xff)));
    Ok(())
}

#[test]
fn true_values_are_found_and_taken_out(rt: HostRuntime) {
    let mut bits = list_of::<u32>(&rt, 100, &[3, 70]);
    // Of 100 values, those at 3 and 70 are true.
    expect_eq(&rt, &bits.first_one_from(3), &Some(3));
    expect_eq(&rt, &bits.first_one_from(4), &Some(70));
    expect_eq(&rt, &bits.first_one_from(71), &None);
    // Of 100 values, those at 3 and 70 are true.
    expect_eq(&rt, &bits.last_one_before(100), &Some(70));
    expect_eq(&rt, &bits.last_one_before(70), &Some(3));
    expect_eq(&rt, &bits.last_one_before(3), &None);
    // Of 100 values, those at 3 and 70 are true.
    expect_eq(&rt, &bits.first_one(), &Some(3));
    // Of 100 values, those at 3 and 70 are true.
    expect_eq(&rt, &bits.take_first_one(), &Some(3));
    expect_eq(&rt, &bits.take_first_one(), &Some(70));
    expect_eq(&rt, &bits.take_first_one(), &None);
}

#[test]
fn the_next_false_value_is_found(rt: HostRuntime) {
    let mut bits = list_of::<u32>(&rt, 100, &[]);
    bits.fill(true);
    put(&mut bits, 3, false);
    put(&mut bits, 70, false);
    // Of 100 values, all but those at 3 and 70 are true.
    expect_eq(&rt, &bits.first_zero_from(3), &3);
    expect_eq(&rt, &bits.first_zero_from(4), &70);
    expect_eq(&rt, &bits.first_zero_from(71), &100);
}

#[test]
fn the_false_values_of_a_block(rt: HostRuntime) {
    let bits = list_of::<u8>(&rt, 10, &[1, 8]);
    // Of ten values over blocks of 8 bits, those at 1 and 8 are true.
    expect_eq(&rt, &bits.zeros_in_block(0, 5), &0b1_1101);
    expect_eq(&rt, &bits.zeros_in_block(1, 12), &0b1110);
}

fn a_range_filled(rt: &impl Test, mut bits: BitVec) {
    if bits.len() >= 5 {
        // Of ten values all are false.
        bits.fill_range(2..5, true);
        expect_eq(rt, &bits.storage(), &[0b11100].as_slice());
    }
}

fn blocks_put(rt: &impl Test, mut bits: BitVec<u8>) {
    if bits.len() == 24 {
        // Of 24 values over blocks of 8 bits all are false.
        bits.put_blocks(1, &[0b100, 0b1]);
        expect_eq(rt, &bits.storage(), &[0, 0b100, 0b1].as_slice());
    }
}

fn some_values_kept(rt: &impl Test, mut bits: BitVec<u8>) {
    if bits.len() > 0 {
        // Of ten values over blocks of 8 bits, those at 1, 2 and 8 are true.
        bits.keep_in_block(0, 0b100);
        expect_eq(rt, &bits.storage(), &[0b100, 0b1].as_slice());
    }
}

#[test]
fn parts_of_a_list_are_written(rt: HostRuntime) {
    a_range_filled(&rt, list_of(&rt, 10, &[]));
    blocks_put(&rt, list_of(&rt, 24, &[]));
    some_values_kept(&rt, list_of(&rt, 10, &[1, 2, 8]));
}

fn ten_values_written(rt: &impl Test, bits: &BitVec) -> Result<(), AllocError> {
    let alloc = rt.alloc();
    // Of 10 values, those at 1 and 9 are true.
    let bytes = bits.to_bytes(alloc)?;
    expect_eq(rt, &bytes.as_slice(), &[64, 64].as_slice());
    // Of 10 values, those at 1 and 9 are true.
    let bytes = bits.to_bytes_lsb(alloc)?;
    expect_eq(rt, &bytes.as_slice(), &[2, 2].as_slice());
    Ok(())
}

#[test]
fn a_list_is_written_as_bytes(rt: HostRuntime) {
    ok(&rt, ten_values_written(&rt, &list_of(&rt, 10, &[1, 9])));
}

fn common_values(rt: &impl Test, bits: &mut BitVec<u8>, other: BitVec<u8>) {
    if other.len() <= bits.len() {
        // Of three values those at 0 and 1 are true, and those at 1 and 2 of `other`.
        bits.merge(&other, Merge::Intersection);
        expect_eq(rt, &bits.storage(), &[0b010].as_slice());
    }
}

#[test]
fn lists_that_are_merged_and_compared(rt: HostRuntime) {
    let mut bits = list_of::<u8>(&rt, 3, &[0, 1]);
    common_values(&rt, &mut bits, list_of(&rt, 3, &[1, 2]));
    let other = list_of(&rt, 40, &[1, 30]);
    // Of three values that at 1 is true, and of 40 in `other` those at 1 and 30.
    expect(&rt, bits.is_subset(&other));
    expect(&rt, !other.is_subset(&bits));
    let other = list_of(&rt, 40, &[30]);
    // Of three values that at 1 is true, and of 40 in `other` that at 30.
    expect(&rt, bits.is_disjoint(&other));
}

fn a_merge_twice(rt: &impl Test, mut bits: BitVec, other: BitVec) {
    if other.len() <= bits.len() {
        // Some value of `other` is true that is not in `bits`.
        expect(rt, bits.merge_changes(&other, Merge::Union));
    }
    if other.len() <= bits.len() {
        expect(rt, !bits.merge_changes(&other, Merge::Union));
    }
}

#[test]
fn a_merge_changes_a_list_once(rt: HostRuntime) {
    a_merge_twice(&rt, list_of(&rt, 70, &[3]), list_of(&rt, 70, &[3, 69]));
}

// A list, and two others by which it changes.
type Three = (BitVec, BitVec, BitVec);

fn a_transfer(rt: &impl Test, (mut live, live_after, assigned): Three) {
    if live_after.len() <= live.len() {
        // live |= live_after & !assigned
        let grew = live.unite_difference(&live_after, &assigned);
        expect(rt, grew && live.first_one_from(3) == Some(5));
    }
}

fn a_find(rt: &impl Test, (mut found, wanted, at_hand): Three) {
    if wanted.len() <= found.len() {
        // found |= wanted & at_hand
        let grew = found.unite_intersection(&wanted, &at_hand);
        expect(rt, grew && found.first_one_from(3) == Some(4));
    }
}

fn a_remainder(rt: &impl Test, (mut left, asked, given): Three) {
    if asked.len() <= left.len() {
        // left = asked & !given
        let differs = left.become_difference(&asked, &given);
        expect(rt, differs && left.first_one_from(0) == Some(5));
    }
}

fn three(rt: &impl Test) -> Three {
    let list = list_of(rt, 10, &[2]);
    (list, list_of(rt, 10, &[4, 5]), list_of(rt, 10, &[4]))
}

#[test]
fn a_list_changes_by_two_others(rt: HostRuntime) {
    a_transfer(&rt, three(&rt));
    a_find(&rt, three(&rt));
    a_remainder(&rt, three(&rt));
}

fn same_ones(rt: &impl Test, bits: &BitVec, other: BitVec) {
    // Of three values that at 1 is true, and so it is of 40 in `other`.
    expect(rt, bits.has_same_blocks(&other));
}

fn another_third_block(rt: &impl Test, bits: &BitVec, other: BitVec) {
    // Of 100 values, over blocks of 32 bits, that at 70 is true, and none in `other`.
    expect_eq(rt, &bits.first_mismatching_block(&other), &Some(2));
}

fn counts_of_merges(rt: &impl Test, bits: &BitVec, other: BitVec) {
    // Of ten values, those at 1 and 8 are true, and of 100 in `other` those at 1 and 70.
    expect_eq(rt, &bits.count_merged(&other, Merge::Union), &3);
    expect_eq(rt, &bits.count_merged(&other, Merge::Difference), &1);
}

#[test]
fn two_lists(rt: HostRuntime) {
    same_ones(&rt, &list_of(&rt, 3, &[1]), list_of(&rt, 40, &[1]));
    another_third_block(&rt, &list_of(&rt, 100, &[70]), list_of(&rt, 100, &[]));
    counts_of_merges(&rt, &list_of(&rt, 10, &[1, 8]), list_of(&rt, 100, &[1, 70]));
}
