// Walks over the blocks of a bit vector.
use crate::answers::Answers;
use crate::blocks::next_block;
use crate::widths::Width;
use bit_set::BitBlock;
use bit_set::bit_vec::{
    BitVec, Blocks, FirstAndNonzero, Nonzero, block_or_zero, take_highest_one, take_lowest_one,
};

// This many steps of a walk over blocks, and before each of them the bounds on what is left.
fn take_steps<B: Width>(walk: &mut Blocks<'_, B>, steps: usize, answers: &mut Answers) {
    for _ in 0..steps {
        answers.bounds(walk.size_hint());
        next_block(walk.next(), answers);
    }
}

// A walk over some blocks, and on; a copy that was taken between; and how many blocks are left.
pub(crate) fn blocks<B: Width>(
    bits: &BitVec<B>,
    steps: usize,
    further: usize,
    answers: &mut Answers,
) {
    let mut walk = bits.blocks();
    take_steps(&mut walk, steps, answers);
    let mut copy = walk.clone();
    take_steps(&mut walk, further, answers);
    take_steps(&mut copy, further, answers);
    answers.number(walk.as_slice().len());
    answers.number(walk.count());
    answers.number(copy.count());
}

// Blocks of which each second one is wanted.
pub(crate) fn next_if<B: Width>(bits: &BitVec<B>, steps: usize, answers: &mut Answers) {
    let mut walk = bits.blocks();
    for turn in 0..steps {
        next_block(walk.next_if(turn % 2 == 0), answers);
    }
    answers.number(walk.count());
}

// A walk over blocks with their indices that can be copied at any point.
trait Entries<B: BitBlock>: Iterator<Item = (usize, B)> {
    fn copy(&self) -> Self;
}

impl<B: BitBlock> Entries<B> for FirstAndNonzero<'_, B> {
    fn copy(&self) -> Self {
        self.clone()
    }
}

impl<B: BitBlock> Entries<B> for Nonzero<'_, B> {
    fn copy(&self) -> Self {
        self.clone()
    }
}

// An entry of such a walk: the index of a block, and the block.
fn entry<B: Width>(entry: Option<(usize, B)>, answers: &mut Answers) {
    match entry {
        Some((k, block)) => {
            answers.item(Some(k));
            next_block(Some(block), answers);
        }
        None => {
            answers.item(None);
            next_block(None::<B>, answers);
        }
    }
}

fn next_entry<B: Width, W: Entries<B>>(walk: &mut W, answers: &mut Answers)
    requires { (s : W) → W.can_next s }
{
    entry(walk.next(), answers);
}

fn take_entries<B: Width, W: Entries<B>>(walk: &mut W, steps: usize, answers: &mut Answers)
    requires { (s : W) → W.can_next s }
{
    for _ in 0..steps {
        next_entry(walk, answers);
    }
}

// A walk over this many blocks, and on, and a copy that was taken between.
fn take<B: Width, W: Entries<B>>(mut walk: W, steps: usize, answers: &mut Answers)
    requires { (s : W) → W.can_next s }
{
    take_entries(&mut walk, steps, answers);
    let mut copy = walk.copy();
    take_entries(&mut walk, 3, answers);
    take_entries(&mut copy, steps, answers);
}

// The first block, and those after it that are not 0.
pub(crate) fn nonzero<B: Width>(bits: &BitVec<B>, steps: usize, answers: &mut Answers) {
    take(bits.nonzero(), steps, answers);
}

// The blocks past the first, or past some block, that are not 0, and how many blocks there are.
pub(crate) fn nonzero_past<B: Width>(walk: Nonzero<'_, B>, steps: usize, answers: &mut Answers) {
    answers.number(walk.as_slice().len());
    take(walk, steps, answers);
}

// Whether a step takes of the front: a digit of a number says it of each.
pub(crate) fn is_front(ends: usize, step: usize) -> bool {
    (ends >> (step % 64)) % 2 == 1
}

// The next block of the walk, at one of its ends.
fn next_at<B: Width>(walk: &mut Nonzero<'_, B>, is_front: bool) -> Option<(usize, B)> {
    if is_front {
        walk.next()
    } else {
        walk.next_back()
    }
}

// The blocks past the first that are not 0, from both ends.
pub(crate) fn nonzero_ends<B: Width>(
    bits: &BitVec<B>,
    steps: usize,
    ends: usize,
    answers: &mut Answers,
) {
    let mut walk = bits.nonzero_past_first();
    for step in 0..steps {
        entry(next_at(&mut walk, is_front(ends, step)), answers);
    }
}

// This many places from a block on at which the bit vector is true, by a block that is filled again and again.
pub(crate) fn refill<B: Width>(
    bits: &BitVec<B>,
    first: usize,
    steps: usize,
    answers: &mut Answers,
) {
    let mut walk = bits.nonzero_past(first);
    let mut block = block_or_zero(bits.storage(), first);
    let mut index = first.wrapping_mul(B::bits());
    let mut back = B::zero();
    for step in 0..steps {
        answers.item(first_place(&mut walk, &mut block, &mut index, &mut back, 0));
    }
}

// The highest place that is left in the block in hand at the back, or else in those that the walk gives, or in the block
// in hand at the front.
fn last_place<B: Width>(
    walk: &mut Nonzero<'_, B>,
    back: &mut B,
    back_index: &mut usize,
    block: &mut B,
    index: usize,
) -> Option<usize>
    requires back { B.is_block back.old }
    requires front { B.is_block block.old }
    ensures back { B.is_block back.new }
    ensures front { B.is_block block.new }
{
    walk.as_slice().len().checked_mul(B::bits())?;
    if !walk.refill_back(back, back_index, block, index) {
        return None;
    }
    back_index.checked_add(take_highest_one(back))
}

// The lowest place by two hands.
fn first_place<B: Width>(
    walk: &mut Nonzero<'_, B>,
    block: &mut B,
    index: &mut usize,
    back: &mut B,
    back_index: usize,
) -> Option<usize>
    requires front { B.is_block block.old }
    requires back { B.is_block back.old }
    ensures front { B.is_block block.new }
    ensures back { B.is_block back.new }
{
    walk.as_slice().len().checked_mul(B::bits())?;
    if !walk.refill(block, index, back, back_index) {
        return None;
    }
    index.checked_add(take_lowest_one(block))
}

// This many places at which the bit vector is true, from both ends, by a block in hand at each.
pub(crate) fn refill_ends<B: Width>(
    bits: &BitVec<B>,
    steps: usize,
    ends: usize,
    answers: &mut Answers,
) {
    let mut walk = bits.nonzero_past_first();
    let (mut block, mut index) = (block_or_zero(bits.storage(), 0), 0);
    let (mut back, mut back_index) = (B::zero(), 0);
    for step in 0..steps {
        answers.item(if is_front(ends, step) {
            first_place(&mut walk, &mut block, &mut index, &mut back, back_index)
        } else {
            last_place(&mut walk, &mut back, &mut back_index, &mut block, index)
        });
    }
}
