//! The walk over the blocks that are not zero, from both ends and by blocks in hand.
use crate::expect::{expect_eq, list_of};
use bit_words::bit_vec::{BitBlock, FirstAndNonzero, Nonzero};

// Whether a walk refills a block, which block that is then, and the index. Of a long list it is not tried.
fn refilled(walk: &mut Nonzero<'_, u32>, block: u32, index: usize) -> Option<(bool, u32, usize)> {
    if walk.as_slice().len() >= 1000 {
        return None;
    }
    let (mut block, mut index, mut back) = (block, index, 0);
    let is_nonzero = walk.refill(&mut block, &mut index, &mut back, 0);
    Some((is_nonzero, block, index))
}

// Whether a walk refills a block, and which block that is then. The index may be any at the end.
fn refilled_block(walk: &mut Nonzero<'_, u32>) -> Option<(bool, u32)> {
    let (is_nonzero, block, _) = refilled(walk, 0, 0)?;
    Some((is_nonzero, block))
}

#[test]
fn a_refill_passes_zero_blocks(rt: HostRuntime) {
    let bits = list_of::<u32>(&rt, 401, &[400]);
    let mut walk = bits.nonzero_past_first();
    let found = Some((true, 0x1_0000, 384));
    expect_eq(&rt, &refilled(&mut walk, 0, 0), &found);
    expect_eq(&rt, &refilled(&mut walk, 0x1_0000, 384), &found);
    expect_eq(&rt, &refilled_block(&mut walk), &Some((false, 0)));
}

// The blocks and indexes that the two hands of a walk have after a refill at the back.
fn refilled_back(
    walk: &mut Nonzero<'_, u32>,
    (block, index): (u32, usize),
    (back, back_index): (u32, usize),
) -> Option<(bool, (u32, usize), (u32, usize))> {
    if walk.as_slice().len() >= 1000 {
        return None;
    }
    let (mut block, mut back, mut back_index) = (block, back, back_index);
    let is_nonzero = walk.refill_back(&mut back, &mut back_index, &mut block, index);
    Some((is_nonzero, (block, index), (back, back_index)))
}

#[test]
fn a_hand_takes_over_the_other_block(rt: HostRuntime) {
    let bits = list_of::<u32>(&rt, 401, &[400]);
    let mut walk = bits.nonzero_past_first();
    let last = Some((true, (5, 0), (0x1_0000, 384)));
    expect_eq(&rt, &refilled_back(&mut walk, (5, 0), (0, 384)), &last);
    let over = Some((true, (0, 0), (5, 0)));
    expect_eq(&rt, &refilled_back(&mut walk, (5, 0), (0, 384)), &over);
    let end = Some((false, (0, 0), (0, 384)));
    expect_eq(&rt, &refilled_back(&mut walk, (0, 0), (0, 384)), &end);
}

fn first_left<B: BitBlock>(walk: &mut Nonzero<'_, B>) -> Option<usize> {
    Some(walk.next()?.0)
}

fn last_left<B: BitBlock>(walk: &mut Nonzero<'_, B>) -> Option<usize> {
    Some(walk.next_back()?.0)
}

// The indices that a walk gives by calls from the front and from the back in turn, the front first.
fn from_both_ends<B: BitBlock>(walk: &mut Nonzero<'_, B>) -> [Option<usize>; 4] {
    let outer = [first_left(walk), last_left(walk)];
    [outer[0], outer[1], first_left(walk), last_left(walk)]
}

#[test]
fn both_ends_take_of_the_same_blocks(rt: HostRuntime) {
    // Few blocks, with no summary, and many.
    for len in [2_000, 20_000] {
        let bits = list_of::<u32>(&rt, len, &[3, 40, 500, 1999]);
        let found = from_both_ends(&mut bits.nonzero_past_first());
        expect_eq(&rt, &found, &[Some(1), Some(62), Some(15), None]);
    }
}

// The next two blocks of a walk.
fn next_two(walk: &mut FirstAndNonzero<'_, u8>) -> [Option<(usize, u8)>; 2] {
    [walk.next(), walk.next()]
}

#[test]
fn a_walk_goes_on_from_its_clone(rt: HostRuntime) {
    let bits = list_of::<u8>(&rt, 200, &[9, 80, 199]);
    let mut walk = bits.nonzero();
    let first = [Some((0, 0)), Some((1, 2))];
    expect_eq(&rt, &next_two(&mut walk), &first);
    let mut copy = walk.clone();
    let second = [Some((10, 1)), Some((24, 128))];
    expect_eq(&rt, &next_two(&mut copy), &second);
    expect_eq(&rt, &next_two(&mut walk), &second);
    expect_eq(&rt, &next_two(&mut walk), &[None, None]);
}
