// Calls on a set, one after another, each with what is wanted of it. A test is then a row of these, and the calls are
// proved once.
use crate::expect::{Test, expect_at};
use bit_set::{BitBlock, BitSet, SetError};

#[derive(Clone, Copy)]
pub(crate) enum Step {
    // A number goes in, and is new or not.
    Insert(usize, bool),
    // A number does not go in.
    InsertFails(usize, SetError),
    Extend(&'static [usize]),
    // One of the numbers does not go in.
    ExtendFails(&'static [usize], SetError),
    // A number goes out, and was in or not.
    Remove(usize, bool),
    Truncate(usize),
    Clear,
    // The capacity stays.
    MakeEmpty,
    Reset,
    ReserveExact(usize),
    // Neither can be reserved.
    ReserveFails(usize),
    Shrink,
    // What there is then.
    Contains(usize, bool),
    IsEmpty(bool),
    Elements(&'static [usize]),
    Count(usize),
    // The length, and that in blocks.
    Len(usize),
    Blocks(usize),
    Capacity(usize),
    CapacityFrom(usize),
}

macro_rules! steps {
    ($($name:ident$(($($with:expr),+))?)*) => { &[$(Step::$name$(($($with),+))?),*] };
}

pub(crate) use steps;

// Whether a set has just these elements.
pub(crate) fn has_just<B: BitBlock>(set: &BitSet<B>, elements: &[usize]) -> bool {
    set.iter().eq(elements.iter().copied())
}

pub(crate) fn len_of<B: BitBlock>(set: &BitSet<B>) -> usize {
    set.get_ref().len()
}

fn blocks_of<B: BitBlock>(set: &BitSet<B>) -> usize {
    set.get_ref().storage().len()
}

fn extend<B: BitBlock>(set: &mut BitSet<B>, numbers: &[usize]) -> Result<(), SetError> {
    set.extend(numbers.iter().copied())
}

fn keeps_capacity<B: BitBlock>(set: &mut BitSet<B>) -> bool {
    let capacity = set.capacity();
    set.make_empty();
    set.capacity() == capacity
}

fn refuses<B: BitBlock>(set: &mut BitSet<B>, len: usize) -> bool {
    set.reserve_len(len).is_err() && set.reserve_len_exact(len).is_err()
}

// Makes the call, where it returns nothing.
fn changes<B: BitBlock>(set: &mut BitSet<B>, step: Step) -> bool {
    match step {
        Step::Truncate(len) => set.truncate(len),
        Step::Clear => set.clear(),
        Step::Reset => set.reset(),
        _ => return false,
    }
    true
}

// Whether a set is as is wanted.
fn is_as_wanted<B: BitBlock>(set: &BitSet<B>, step: Step) -> bool {
    match step {
        Step::Contains(value, is_in) => set.contains(value) == is_in,
        Step::IsEmpty(is_empty) => set.is_empty() == is_empty,
        Step::Elements(elements) => has_just(set, elements),
        Step::Count(count) => set.count() == count && set.len() == count,
        Step::Len(len) => len_of(set) == len,
        Step::Blocks(blocks) => blocks_of(set) == blocks,
        Step::Capacity(capacity) => set.capacity() == capacity,
        Step::CapacityFrom(least) => set.capacity() >= least,
        _ => false,
    }
}

// Makes the call. Whether it returns what is wanted.
fn goes_well<B: BitBlock>(set: &mut BitSet<B>, step: Step) -> bool {
    match step {
        Step::Insert(value, is_new) => set.insert(value) == Ok(is_new),
        Step::InsertFails(value, fault) => set.insert(value) == Err(fault),
        Step::Extend(values) => extend(set, values).is_ok(),
        Step::ExtendFails(values, fault) => extend(set, values) == Err(fault),
        Step::Remove(value, was_in) => set.remove(value) == was_in,
        Step::ReserveExact(len) => set.reserve_len_exact(len).is_ok(),
        Step::ReserveFails(len) => refuses(set, len),
        Step::Shrink => set.shrink_to_fit().is_ok(),
        Step::MakeEmpty => keeps_capacity(set),
        Step::Truncate(_) | Step::Clear | Step::Reset => changes(set, step),
        _ => is_as_wanted(set, step),
    }
}

// Takes the steps one after another; ends the test at one that does not come out as is wanted.
pub(crate) fn take<B: BitBlock>(rt: &impl Test, set: &mut BitSet<B>, steps: &[Step]) {
    for (place, step) in steps.iter().enumerate() {
        expect_at(rt, place, goes_well(set, *step));
    }
}
