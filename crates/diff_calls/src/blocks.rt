// Blocks as words, and what is looked for in them.
ghost use Rattle.std.specs.Prelude.{All};

use crate::answers::Answers;
use crate::widths::Width;
use bit_set::bit_vec::{
    BitVec, Merge, block_or_zero, clear_below, first_mismatching_block, first_nonzero_block,
    has_one_from, lowest_mismatch, mismatch_between, same_blocks, with_bit,
};

const MERGES: [Merge; 4] = [
    Merge::Union,
    Merge::Intersection,
    Merge::Difference,
    Merge::Symmetric,
];

pub(crate) fn block<B: Width>(block: B, answers: &mut Answers) {
    let (low, high) = block.halves();
    answers.number(low);
    answers.number(high);
}

pub(crate) fn next_block<B: Width>(next: Option<B>, answers: &mut Answers) {
    answers.truth(next.is_some());
    block(next.unwrap_or(B::zero()), answers);
}

// All blocks.
pub(crate) fn storage<B: Width>(bits: &BitVec<B>, answers: &mut Answers) {
    let blocks = bits.storage();
    answers.number(blocks.len());
    for &each in blocks {
        block(each, answers);
    }
}

// Which values of a block are not true, where its first index is not past the end.
pub(crate) fn zeros<B: Width>(bits: &BitVec<B>, k: usize, end: usize, answers: &mut Answers) {
    match k.checked_mul(B::bits()) {
        Some(first) if first <= end => block(bits.zeros_in_block(k, end), answers),
        _ => block(B::zero(), answers),
    }
}

// The first blocks that differ, by each call that looks for them, and the lowest bit in which they do.
fn mismatch_of_blocks<B: Width>(blocks: &[B], others: &[B], answers: &mut Answers)
    requires left { All B.is_block blocks.now }
    requires right { All B.is_block others.now }
{
    answers.truth(same_blocks(blocks, others));
    let both = blocks.len().min(others.len());
    answers.item(mismatch_between(blocks, others, 0, both));
    let found = first_mismatching_block(blocks, others);
    answers.item(found);
    if let Some(k) = found {
        answers.number(lowest_mismatch(block_or_zero(blocks, k), block_or_zero(others, k)));
    }
}

pub(crate) fn mismatch<B: Width>(bits: &BitVec<B>, other: &BitVec<B>, answers: &mut Answers) {
    mismatch_of_blocks(bits.storage(), other.storage(), answers);
}

// What is found in a block from a place on, and what the block becomes.
fn alone<B: Width>(one: B, place: usize, answers: &mut Answers)
    requires { B.is_block one }
{
    let within = place % B::bits();
    answers.number(one.count_ones());
    answers.truth(has_one_from(one, within));
    block(clear_below(one, place), answers);
    for bit in [true, false] {
        block(with_bit(one, within, bit), answers);
    }
    block(one.shift_left(within), answers);
    block(one.shift_right(within), answers);
}

// What it becomes with one of another list.
fn merged<B: Width>(one: B, two: B, answers: &mut Answers)
    requires one { B.is_block one }
    requires two { B.is_block two }
{
    for merge in &MERGES {
        block(merge.of_blocks(one, two), answers);
    }
}

pub(crate) fn single<B: Width>(
    bits: &BitVec<B>,
    other: &BitVec<B>,
    (k, place): (usize, usize),
    answers: &mut Answers,
) {
    answers.item(first_nonzero_block(bits.storage(), k));
    let one = block_or_zero(bits.storage(), k);
    alone(one, place, answers);
    merged(one, block_or_zero(other.storage(), k), answers);
}
