//! The examples of the doc comments of the calls on lists of blocks, as they are there except for `expect`.
ghost use Rattle.std.specs.Prelude.{IfOk};
ghost use Rattle.bit_blocks.specs.Storage.{IsPacked};

use crate::expect::{Test, expect, expect_eq, list_of, ok};
use bit_blocks::packed::counted::{
    difference_is_zero_counted, intersection_is_zero_counted, merge_counted,
};
use bit_blocks::packed::resizing::{append_bits, repeated_bit, truncate_bits};
use bit_blocks::packed::shifting::{shift_bits_down, shift_bits_up};
use bit_blocks::packed::{
    bit_index, block_at, block_count, block_index, copy_of, difference_is_zero, get_bit,
    intersection_is_zero, merge_span, ones_in_span, or_mismatch, push_copies, put_in, replace_bit,
    same, span_merges_to_false,
};
use bit_words::bit_vec::operation::{Difference, Union};
use bit_words::bit_vec::{BitBlock, BitVec, Merge, Steps, count_merged_blocks};
use std::alloc::{AllocError, Global};
use std::test::Fail;

#[test]
fn where_a_bit_is(rt: HostRuntime) {
    expect_eq(&rt, &block_count::<u8>(17), &3);
    expect_eq(&rt, &block_index::<u8>(17), &2);
    expect_eq(&rt, &bit_index::<u8>(17), &1);
}

#[test]
fn what_is_read(rt: HostRuntime) {
    expect_eq(&rt, &block_at(&[7u8, 1], 1), &1);
    expect(&rt, get_bit(&[0u8, 0b0100], 10));
    expect(&rt, same(5u8, 5));
    expect_eq(&rt, &or_mismatch(0u8, 5, 5), &0);
    assert_ne!(rt; or_mismatch(0u8, 5, 4), 0);
}

#[test]
fn what_is_written(rt: HostRuntime) -> Result<(), Fail> {
    let mut blocks = [0u8, 0];
    put_in(&mut blocks, 1, 5);
    expect_eq(&rt, &blocks, &[0, 5]);
    let mut blocks = Vec::from_array(rt.alloc(), [0u8, 0])?;
    expect(&rt, !replace_bit(&mut blocks, 10, true));
    expect(&rt, replace_bit(&mut blocks, 10, true));
    Ok(())
}

#[test]
fn blocks_that_are_appended(rt: HostRuntime) -> Result<(), Fail> {
    let alloc = rt.alloc();
    let mut blocks: Vec<u8> = Vec::with_capacity(alloc, 3)?;
    push_copies(&mut blocks, 3, 0);
    let copy = copy_of(alloc, &blocks)?;
    expect_eq(&rt, &copy.len(), &3);
    Ok(())
}

#[test]
fn blocks_that_are_merged_and_compared(rt: HostRuntime) {
    expect(&rt, difference_is_zero(&[5u8], &[7, 1]));
    expect(&rt, intersection_is_zero(&[5u8], &[2, 1]));
    let mut steps = Steps::new();
    let mut blocks = [5u8, 1];
    merge_counted(&mut blocks, &[2], Merge::Union, &mut steps);
    expect_eq(&rt, &blocks, &[7, 1]);
    expect(&rt, difference_is_zero_counted(&[5u8], &[7, 1], &mut steps));
    assert!(rt; intersection_is_zero_counted(&[5u8], &[2, 1], &mut steps));
}

#[test]
fn bits_of_a_span(rt: HostRuntime) -> Result<(), Fail> {
    expect_eq(&rt, &ones_in_span(&[0b1001u8, 0b0110], 3, 10), &2);
    assert!(rt; span_merges_to_false::<u8, Difference>(&[0b1000, 0b0011], 3, 4));
    let mut blocks = Vec::from_array(rt.alloc(), [0u8, 0])?;
    merge_span::<u8, Union>(&mut blocks, 3, 10);
    expect_eq(&rt, &blocks[0], &0b1111_1000);
    Ok(())
}

#[test]
fn ones_of_merged_blocks(rt: HostRuntime) {
    expect_eq(&rt, &count_merged_blocks::<_, Union>(&[5u8, 1], &[6]), &4);
}

// The bits at 1 and 8 of ten.
fn ten_bits<B: BitBlock>(alloc: Global) -> Result<Vec<B>, AllocError>
    ensures { IfOk result (λ blocks. IsPacked B.width B.number B.is_block blocks.items 10) }
{
    let mut blocks = repeated_bit(alloc, 10, false)?;
    truncate_bits(&mut blocks, 10, 1);
    append_bits(&mut blocks, 1, 2, true);
    append_bits(&mut blocks, 2, 8, false);
    append_bits(&mut blocks, 8, 9, true);
    append_bits(&mut blocks, 9, 10, false);
    Ok(blocks)
}

#[test]
fn bits_that_move(rt: HostRuntime) -> Result<(), Fail> {
    let mut blocks = ten_bits::<u8>(rt.alloc())?;
    // The bits at 1 and 8 of ten, over blocks of 8 bits.
    shift_bits_up(&mut blocks, 10, 1);
    expect_eq(&rt, &blocks.as_slice(), &[0b100, 0b10].as_slice());
    let mut blocks = ten_bits::<u8>(rt.alloc())?;
    // The bits at 1 and 8 of ten, over blocks of 8 bits.
    shift_bits_down(&mut blocks, 10, 1);
    expect_eq(&rt, &blocks.as_slice(), &[0b1000_0001, 0].as_slice());
    Ok(())
}

#[test]
fn values_that_move(rt: HostRuntime) {
    let mut bits = list_of::<u8>(&rt, 10, &[1, 8]);
    // Of ten values over blocks of 8 bits, those at 1 and 8 are true.
    bits.shift_up(1);
    expect_eq(&rt, &bits.storage(), &[0b100, 0b10].as_slice());
    let mut bits = list_of::<u8>(&rt, 10, &[1, 8]);
    // Of ten values over blocks of 8 bits, those at 1 and 8 are true.
    bits.shift_down(1);
    expect_eq(&rt, &bits.storage(), &[0b1000_0001, 0].as_slice());
}

fn copied(rt: &impl Test, bits: &BitVec<u8>) -> Result<(), AllocError> {
    let alloc = rt.alloc();
    assert!(rt; bits.len() == 10);
    // Of ten values over blocks of 8 bits, those at 1, 3 and 8 are true.
    let part = bits.clone_range(alloc, 2..9)?;
    expect_eq(rt, &part.storage(), &[0b1000, 0b1].as_slice());
    Ok(())
}

#[test]
fn a_range_that_is_copied(rt: HostRuntime) {
    ok(&rt, copied(&rt, &list_of(&rt, 10, &[1, 3, 8])));
}
