// Calls that read the bit vector that a set lends, by what they return.
use crate::answers::{Answer, Answers};
use crate::block_walks::{
    blocks, next_if, nonzero, nonzero_ends, nonzero_past, refill, refill_ends,
};
use crate::blocks::{mismatch, single, storage, zeros};
use crate::calls::{BitReading, BitTelling, Looking};
use crate::widths::Width;
use bit_set::BitBlock;
use bit_set::bit_vec::{BitVec, Steps};
use std::alloc::Global;

pub(crate) fn read_bits<B: BitBlock>(
    reading: BitReading,
    bits: &BitVec<B>,
    other: &BitVec<B>,
    (number, end): (usize, usize),
) -> Answer {
    match reading {
        BitReading::Len => Answer::Number(bits.len()),
        BitReading::CountOnes => Answer::Number(bits.count_ones()),
        BitReading::CountOnesInRange => Answer::Number(bits.count_ones_in_range(number..end)),
        BitReading::FirstZeroFrom => Answer::Number(bits.first_zero_from(number)),
        BitReading::None => Answer::Truth(bits.none()),
        BitReading::Capacity => Answer::Truth(bits.len() <= bits.capacity()),
        BitReading::IsSubsetOf => Answer::Truth(bits.is_subset_of(other, &mut Steps::new())),
        BitReading::IsDisjointFrom => {
            Answer::Truth(bits.is_disjoint_from(other, &mut Steps::new()))
        }
        BitReading::AllInRange => Answer::Truth(bits.all_in_range(number..end)),
        BitReading::AnyInRange => Answer::Truth(bits.any_in_range(number..end)),
        BitReading::FirstOneFrom => Answer::Item(bits.first_one_from(number)),
        BitReading::LastOneBefore => Answer::Item(bits.last_one_before(number)),
        BitReading::Get => Answer::Bit(bits.get(number)),
    }
}

pub(crate) fn tell_bits<B: BitBlock>(
    alloc: Global,
    telling: BitTelling,
    bits: &BitVec<B>,
    answers: &mut Answers,
) {
    match telling {
        BitTelling::Debug => answers.text(format!(in alloc; "{bits:?}")),
        BitTelling::ToBytes => answers.made_bytes(bits.to_bytes(alloc)),
    }
}

pub(crate) fn look<B: Width>(
    looking: Looking,
    bits: &BitVec<B>,
    other: &BitVec<B>,
    (first, second): (usize, usize),
    answers: &mut Answers,
) {
    match looking {
        Looking::Storage => storage(bits, answers),
        Looking::Blocks => blocks(bits, first, second, answers),
        Looking::NextIf => next_if(bits, first, answers),
        Looking::Nonzero => nonzero(bits, first, answers),
        Looking::NonzeroPastFirst => nonzero_past(bits.nonzero_past_first(), first, answers),
        Looking::NonzeroPast => nonzero_past(bits.nonzero_past(first), second, answers),
        Looking::NonzeroEnds => nonzero_ends(bits, first, second, answers),
        Looking::Refill => refill(bits, first, second, answers),
        Looking::RefillEnds => refill_ends(bits, first, second, answers),
        Looking::Mismatch => mismatch(bits, other, answers),
        Looking::Block => single(bits, other, (first, second), answers),
        Looking::ZerosInBlock => zeros(bits, first, second, answers),
    }
}
