// Calls that change a set, alone or by a second one, and those that make a set of a second one or change both.
use crate::answers::Answers;
use crate::calls::{Changing, Lessening, Moving};
use bit_set::bit_vec::{BitVec, Merge};
use bit_set::{BitBlock, BitSet};
use std::alloc::{AllocError, Global};
use std::mem;

// Gives the set its own bit vector back, and returns the length.
fn through_bit_vec<B: BitBlock>(alloc: Global, set: &mut BitSet<B>) -> usize {
    let bits = mem::replace(set, BitSet::new_general(alloc)).into_bit_vec();
    let len = bits.len();
    *set = BitSet::from_bit_vec_general(bits);
    len
}

pub(crate) fn change<B: BitBlock>(
    changing: Changing,
    set: &mut BitSet<B>,
    (number, end): (usize, usize),
    numbers: &[usize],
    answers: &mut Answers,
) {
    match changing {
        Changing::Insert => answers.change(set.insert(number)),
        Changing::Remove => answers.truth(set.remove(number)),
        Changing::Extend => answers.outcome(set.extend(numbers.iter().copied())),
        Changing::ReserveLen => answers.done(set.reserve_len(number)),
        Changing::ReserveLenExact => answers.done(set.reserve_len_exact(number)),
        Changing::ShrinkToFit => answers.done(set.shrink_to_fit()),
        Changing::InsertRange => answers.outcome(set.insert_range(number..end)),
        Changing::ToggleRange => answers.outcome(set.toggle_range(number..end)),
        Changing::Toggle => answers.change(set.toggle(number)),
        Changing::Set => answers.change(set.set(number, end == 1)),
        Changing::ShiftUp => answers.outcome(set.shift_up(number)),
        Changing::PopFirst => answers.item(set.pop_first()),
        Changing::PopLast => answers.item(set.pop_last()),
    }
}

pub(crate) fn lessen<B: BitBlock>(
    lessening: Lessening,
    set: &mut BitSet<B>,
    number: usize,
    end: usize,
) {
    match lessening {
        Lessening::Truncate => set.truncate(number),
        Lessening::MakeEmpty => set.make_empty(),
        Lessening::Clear => set.clear(),
        Lessening::Reset => set.reset(),
        Lessening::RemoveRange => set.remove_range(number..end),
        Lessening::Retain => set.retain(|element| element % 3 != number % 3),
        Lessening::ShiftDown => set.shift_down(number),
    }
}

pub(crate) fn combine<B: BitBlock>(
    merge: Merge,
    set: &mut BitSet<B>,
    other: &BitSet<B>,
) -> Result<(), AllocError> {
    match merge {
        Merge::Union => set.union_with(other),
        Merge::Intersection => set.intersect_with(other),
        Merge::Difference => set.difference_with(other),
        Merge::Symmetric => set.symmetric_difference_with(other),
    }
}

pub(crate) fn combine_and_tell<B: BitBlock>(
    merge: Merge,
    set: &mut BitSet<B>,
    other: &BitSet<B>,
) -> Result<bool, AllocError> {
    match merge {
        Merge::Union => set.union_changes(other),
        Merge::Intersection => set.intersection_changes(other),
        Merge::Difference => set.difference_changes(other),
        Merge::Symmetric => set.symmetric_difference_changes(other),
    }
}

// Puts a set that was made in the place of one.
fn put<B: BitBlock>(
    place: &mut BitSet<B>,
    made: Result<BitSet<B>, AllocError>,
    answers: &mut Answers,
) {
    match made {
        Ok(set) => *place = set,
        Err(_) => answers.refuse(),
    }
}

// The same of a bit vector.
fn put_bits<B: BitBlock>(
    place: &mut BitSet<B>,
    made: Result<BitVec<B>, AllocError>,
    answers: &mut Answers,
) {
    match made {
        Ok(bits) => *place = BitSet::from_bit_vec_general(bits),
        Err(_) => answers.refuse(),
    }
}

// Makes the set the tail of a list from a place on, where that is in the list.
fn put_tail<B: BitBlock>(
    alloc: Global,
    place: &mut BitSet<B>,
    bits: &BitVec<B>,
    at: usize,
    answers: &mut Answers,
) {
    if at < bits.len() {
        put_bits(place, bits.clone_tail(alloc, at), answers);
    }
}

pub(crate) fn move_over<B: BitBlock>(
    alloc: Global,
    moving: Moving,
    (set, other): (&mut BitSet<B>, &mut BitSet<B>),
    (at, end): (usize, usize),
    answers: &mut Answers,
) {
    match moving {
        Moving::IntoBitVec => answers.number(through_bit_vec(alloc, set)),
        Moving::CloneFrom => answers.ended(set.clone_from(other)),
        Moving::Clone => put(set, other.clone(alloc), answers),
        Moving::Append => answers.ended(set.append(other)),
        Moving::SplitOff => put(other, set.split_off(alloc, at), answers),
        Moving::BitsClone => put_bits(set, other.get_ref().clone(alloc), answers),
        Moving::BitsCloneTail => put_tail(alloc, set, other.get_ref(), at, answers),
        Moving::CopyRange => put(set, other.copy_range(alloc, at..end), answers),
    }
}
