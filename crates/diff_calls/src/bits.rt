// Calls that change the bit vector that a set lends.
use crate::answers::Answers;
use crate::calls::{Fusing, Lengthening, Ranged, Writing};
use bit_set::BitBlock;
use bit_set::bit_vec::{BitVec, Merge, Steps, block_or_zero};
use std::alloc::AllocError;

// Blocks are merged where the other list is no longer.
pub(crate) fn merge_blocks<B: BitBlock>(merge: Merge, bits: &mut BitVec<B>, other: &BitVec<B>) {
    if other.len() <= bits.len() {
        bits.merge_blocks(other, merge, &mut Steps::new());
    }
}

// Likewise, and whether the list changed.
pub(crate) fn merge_and_tell<B: BitBlock>(
    merge: Merge,
    bits: &mut BitVec<B>,
    other: &BitVec<B>,
    answers: &mut Answers,
) {
    if other.len() <= bits.len() {
        answers.truth(bits.merge_changes(other, merge));
    }
}

// What the first list becomes by two others, where the second is no longer than the first.
pub(crate) fn fuse_bits<B: BitBlock>(
    fusing: Fusing,
    bits: &mut BitVec<B>,
    other: &BitVec<B>,
    third: &BitVec<B>,
    answers: &mut Answers,
) {
    if other.len() <= bits.len() {
        answers.truth(match fusing {
            Fusing::UnionWithDifference => bits.unite_difference(other, third),
            Fusing::UnionWithIntersection => bits.unite_intersection(other, third),
            Fusing::CopyDifference => bits.become_difference(other, third),
        });
    }
}

// Calls on a range, as far as the list goes.
pub(crate) fn write_range<B: BitBlock>(
    ranged: Ranged,
    bits: &mut BitVec<B>,
    start: usize,
    end: usize,
) {
    let range = start..end.min(bits.len());
    match ranged {
        Ranged::Set => bits.fill_range(range, true),
        Ranged::Clear => bits.fill_range(range, false),
        Ranged::Negate => bits.negate_range(range),
    }
}

// What the other list has in a block too stays there, where there is such a block.
fn keep_in_block<B: BitBlock>(bits: &mut BitVec<B>, other: &BitVec<B>, k: usize) {
    match k.checked_mul(B::bits()) {
        Some(first) if first < bits.len() => {
            bits.keep_in_block(k, block_or_zero(other.storage(), k));
        }
        _ => {}
    }
}

// Calls at a place, where there is one. What is written says whether one is, and what was or is there.
fn write_at<B: BitBlock>(
    bits: &mut BitVec<B>,
    replaces: bool,
    place: usize,
    bit: bool,
) -> Option<bool> {
    if bits.len() <= place {
        return None;
    }
    if replaces {
        return Some(bits.replace(place, bit));
    }
    bits.set(place, bit);
    Some(bit)
}

// Calls for more values, where a length counts them.
pub(crate) fn lengthen<B: BitBlock>(
    lengthening: Lengthening,
    bits: &mut BitVec<B>,
    count: usize,
    bit: bool,
) -> Result<(), AllocError> {
    if count > usize::MAX - bits.len() {
        return Ok(());
    }
    match lengthening {
        Lengthening::Grow => bits.grow(count, bit),
        Lengthening::Reserve => bits.reserve(count),
        Lengthening::ReserveExact => bits.reserve_exact(count),
    }
}

pub(crate) fn write<B: BitBlock>(
    writing: Writing,
    bits: &mut BitVec<B>,
    other: &BitVec<B>,
    (number, bit): (usize, bool),
    answers: &mut Answers,
) {
    match writing {
        Writing::Set => answers.bit(write_at(bits, false, number, bit)),
        Writing::Replace => answers.bit(write_at(bits, true, number, bit)),
        Writing::Fill => bits.fill(bit),
        Writing::Truncate => bits.truncate(number),
        Writing::RemoveAll => bits.remove_all(),
        Writing::ShrinkToFit => answers.ended(bits.shrink_to_fit()),
        Writing::CutZeroBlocks => bits.cut_zero_blocks(),
        Writing::CloneFrom => answers.ended(bits.clone_from(other)),
        Writing::KeepInBlock => keep_in_block(bits, other, number),
    }
}
