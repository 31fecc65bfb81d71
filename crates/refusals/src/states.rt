// Sets to begin with, and what sets are after a call.
use bit_set::bit_vec::BitVec;
use bit_set::{BitBlock, BitSet, RangesError, SetError};
use std::alloc::{AllocError, Global};

/// What a set is.
#[derive(Clone, Copy)]
pub enum State {
    /// These elements, and this length.
    Of(&'static [usize], usize),
    /// These elements and each number from one on up to another, which is the length.
    Filled(&'static [usize], usize, usize),
    /// These elements, and this length in whole blocks.
    Blocks(&'static [usize], usize),
}

/// What there is at first of the set that a call is made on, unless it is long.
pub const FIRST: State = State::Of(&[3, 447], 448);

/// The elements of the set that is lent to a call.
pub const LENT_ELEMENTS: &[usize] = &[3, 7, 5000];

/// What is left of that set.
pub const LENT: State = State::Of(LENT_ELEMENTS, 5001);

pub const EMPTY: State = State::Of(&[], 0);

/// The set of 3 and 447 with capacity for the numbers of a text, and this length.
pub struct Start(&'static str, usize);

/// Capacity for the length and no more.
pub const FULL: Start = Start("3, 447", 448);

/// For 1000 places, or some more of the last block.
pub const SHORT: Start = Start("3, 447, 999", 448);

/// For 5001 places.
pub const AMPLE: Start = Start("3, 447, 5000", 448);

/// For 5001 places, and that is the length too.
pub const LONG: Start = Start("3, 447, 5000", 5001);

/// The set of this start.
pub fn first_set<B: BitBlock>(alloc: Global, start: &Start) -> Result<BitSet<B>, RangesError> {
    let Start(numbers, len) = start;
    let mut set = BitSet::from_ranges(alloc, numbers)?;
    set.truncate(*len);
    set.remove(5000);
    Ok(set)
}

/// The set of these numbers.
pub fn set_of<B: BitBlock>(alloc: Global, numbers: &[usize]) -> Result<BitSet<B>, SetError> {
    BitSet::from_iter(alloc, numbers.iter().copied())
}

/// Appends an item to a list.
pub fn push<T: Drop>(list: &mut Vec<T>, item: T) -> Result<(), AllocError> {
    Ok(list.push(item)?)
}

/// A set for each of these rows of numbers.
pub fn sets_of<B: BitBlock>(alloc: Global, rows: &[&[usize]]) -> Result<Vec<BitSet<B>>, SetError> {
    let mut sets = Vec::new(alloc);
    for numbers in rows {
        push(&mut sets, set_of(alloc, numbers)?)?;
    }
    Ok(sets)
}

// Whether a walk over the blocks that are not zero gives just these, and the first.
fn gives_nonzero_blocks<B: BitBlock>(bits: &BitVec<B>) -> bool {
    let mut walk = bits.nonzero();
    let mut is_right = true;
    for (k, block) in bits.storage().iter().enumerate() {
        if k == 0 || *block != B::zero() {
            is_right &= match walk.next() {
                Some((place, given)) => place == k && given == *block,
                None => false,
            };
        }
    }
    is_right && walk.next().is_none()
}

// Whether what goes by the summary agrees with the values one by one: the walk over the elements, how many there are,
// and whether there is one.
fn gives_true_values<B: BitBlock>(set: &BitSet<B>) -> bool {
    let bits = set.get_ref();
    let mut walk = set.iter();
    let mut is_right = true;
    let mut ones: usize = 0;
    for i in 0..bits.len() {
        if bits.get(i) == Some(true) {
            is_right &= walk.next() == Some(i);
            ones = ones.saturating_add(1);
        }
    }
    is_right &= walk.next().is_none();
    is_right &= set.count() == ones;
    is_right &= bits.count_ones() == ones;
    is_right & (bits.none() == (ones == 0))
}

// Whether the capacity is at least the length, and the summary agrees with the values.
fn is_whole<B: BitBlock>(set: &BitSet<B>) -> bool {
    let bits = set.get_ref();
    (set.capacity() >= bits.len()) & gives_true_values(set) & gives_nonzero_blocks(bits)
}

/// Whether the set works: it is whole, and so it is with one more number, and again without it.
pub fn works<B: BitBlock>(set: &mut BitSet<B>) -> bool {
    let mut is_right = is_whole(set);
    is_right &= set.insert(6) == Ok(true);
    is_right &= is_whole(set);
    is_right &= set.remove(6);
    is_right &= !set.contains(6);
    is_right & is_whole(set)
}

/// Whether the set has just these elements, and each number from `first` on below its length.
pub fn has_just<B: BitBlock>(set: &BitSet<B>, elements: &[usize], first: usize) -> bool {
    let len = set.get_ref().len();
    set.iter().eq(elements.iter().copied().chain(first..len))
}

/// Whether a set is this.
pub fn is_state<B: BitBlock>(set: &BitSet<B>, state: State) -> bool {
    let len = set.get_ref().len();
    match state {
        State::Of(elements, wanted) => len == wanted && has_just(set, elements, len),
        State::Filled(elements, first, wanted) => len == wanted && has_just(set, elements, first),
        State::Blocks(elements, wanted) => {
            len == wanted.div_ceil(B::bits()).saturating_mul(B::bits())
                && has_just(set, elements, len)
        }
    }
}
