// Calls on a set and another one that is lent to them, or that make one in the place of the set.
use crate::faults::Fault;
use crate::groups::Group;
use crate::plain::{BYTES, Plain, is_made};
use crate::states::{LENT, LENT_ELEMENTS, Start, State, first_set, is_state, set_of, works};
use crate::sweep::Trial;
use bit_set::bit_vec::BitVec;
use bit_set::{BitBlock, BitSet, SetError};
use std::alloc::{AllocError, Global};

/// The set that a call is made on, and the one that is lent to it.
#[derive(Drop)]
pub struct Sets<B: BitBlock> {
    set: BitSet<B>,
    lent: BitSet<B>,
}

/// A call on the set of some start, and what it leaves: of the set and of the one that is lent where it returns, and of
/// the set where it fails, when the one that is lent is as before.
pub struct Change {
    pub call: Call,
    pub start: Start,
    pub returned: State,
    pub lent: State,
    pub failed: State,
}

/// A call, by what it takes and returns.
pub enum Call {
    /// Changes the set or its capacity, and returns nothing.
    InPlace(InPlace),
    /// The same of its bit vector.
    Bits(Bits),
    /// Changes the set by the other one, and says whether it did.
    Report(Report),
    /// Puts numbers in, or moves them.
    Put(Put),
    /// Moves elements from one of the two sets to the other, or copies them.
    Exchange(Exchange),
    /// Makes a set.
    Make(Make),
    /// Makes a set over blocks of 32 bits, by a call that has no other ones.
    Plain(Plain),
    /// Calls that take no memory.
    Group(Group),
}

pub enum InPlace {
    Union,
    Intersection,
    Difference,
    Symmetric,
    CloneFrom,
    Reserve,
    ReserveExact,
    Shrink,
}

pub enum Bits {
    Grow(bool),
    Reserve,
    ReserveExact,
    CloneFrom,
    Shrink,
}

pub enum Report {
    Union,
    Intersection,
    Difference,
    Symmetric,
    UnionWithDifference,
    UnionWithIntersection,
    CopyDifference,
}

pub enum Put {
    Insert(usize),
    InsertHundred,
    Extend,
    InsertRange,
    ToggleRange,
    Toggle,
    Set,
    ShiftUp,
}

pub enum Exchange {
    Append,
    SplitOff(usize),
    CopyRange(usize, usize),
}

pub enum Make {
    WithCapacity,
    UnionOf,
    IntersectionOf,
    Clone,
    BitsFromElem,
    BitsClone,
    BitsCloneTail,
    BitsFromBytes,
    FromBytes(Order),
    FromIter,
    FromRanges,
    /// Of the bytes that the other set becomes.
    Reread(Order),
}

/// Which bit of a byte comes first.
pub enum Order {
    High,
    Low,
}

fn changed<B: BitBlock>(
    call: &InPlace,
    set: &mut BitSet<B>,
    lent: &BitSet<B>,
) -> Result<(), AllocError> {
    match call {
        InPlace::Union => set.union_with(lent),
        InPlace::Intersection => set.intersect_with(lent),
        InPlace::Difference => set.difference_with(lent),
        InPlace::Symmetric => set.symmetric_difference_with(lent),
        InPlace::CloneFrom => set.clone_from(lent),
        InPlace::Reserve => set.reserve_len(5001),
        InPlace::ReserveExact => set.reserve_len_exact(5001),
        InPlace::Shrink => set.shrink_to_fit(),
    }
}

fn changed_bits<B: BitBlock>(
    call: &Bits,
    bits: &mut BitVec<B>,
    lent: &BitVec<B>,
) -> Result<(), AllocError> {
    let more = (usize::MAX - bits.len()).min(5001 - 448);
    match call {
        Bits::Grow(bit) => bits.grow(more, *bit),
        Bits::Reserve => bits.reserve(more),
        Bits::ReserveExact => bits.reserve_exact(more),
        Bits::CloneFrom => bits.clone_from(lent),
        Bits::Shrink => bits.shrink_to_fit(),
    }
}

fn reported<B: BitBlock>(
    alloc: Global,
    call: &Report,
    set: &mut BitSet<B>,
    lent: &BitSet<B>,
) -> Result<bool, AllocError> {
    match call {
        Report::Union => set.union_changes(lent),
        Report::Intersection => set.intersection_changes(lent),
        Report::Difference => set.difference_changes(lent),
        Report::Symmetric => set.symmetric_difference_changes(lent),
        Report::UnionWithDifference => set.union_with_difference(lent, &BitSet::new_general(alloc)),
        Report::UnionWithIntersection => set.union_with_intersection(lent, lent),
        Report::CopyDifference => set.copy_difference(lent, &BitSet::new_general(alloc)),
    }
}

// The numbers from 500 up to 600, one after another.
fn put_hundred<B: BitBlock>(set: &mut BitSet<B>) -> Result<bool, SetError> {
    let mut is_right = true;
    for number in 500..600 {
        is_right &= set.insert(number)?;
    }
    Ok(is_right)
}

fn put_in<B: BitBlock>(call: &Put, set: &mut BitSet<B>) -> Result<bool, SetError> {
    let items: [usize; 3] = [9, 450, 5000];
    match call {
        Put::Insert(number) => return set.insert(*number),
        Put::InsertHundred => return put_hundred(set),
        Put::Toggle => return set.toggle(5000),
        Put::Set => return set.set(5000, true),
        Put::Extend => set.extend(items.iter().copied())?,
        Put::InsertRange => set.insert_range(500..5001)?,
        Put::ToggleRange => set.toggle_range(447..5001)?,
        Put::ShiftUp => set.shift_up(4553)?,
    }
    Ok(true)
}

fn exchanged<B: BitBlock>(
    alloc: Global,
    call: &Exchange,
    sets: &mut Sets<B>,
) -> Result<(), AllocError> {
    match call {
        Exchange::Append => sets.set.append(&mut sets.lent)?,
        Exchange::SplitOff(at) => sets.lent = sets.set.split_off(alloc, *at)?,
        Exchange::CopyRange(start, end) => sets.lent = sets.set.copy_range(alloc, *start..*end)?,
    }
    Ok(())
}

fn copy_of<B: BitBlock>(
    alloc: Global,
    call: &Make,
    lent: &BitSet<B>,
) -> Result<BitSet<B>, AllocError> {
    match call {
        Make::WithCapacity => BitSet::with_capacity_general(alloc, 5000),
        Make::UnionOf => BitSet::union_of(alloc, &[lent.clone(alloc)?]),
        Make::IntersectionOf => BitSet::intersection_of(alloc, &[lent.clone(alloc)?]),
        _ => lent.clone(alloc),
    }
}

fn copy_of_bits<B: BitBlock>(
    alloc: Global,
    call: &Make,
    lent: &BitVec<B>,
) -> Result<BitVec<B>, AllocError> {
    match call {
        Make::BitsFromElem => BitVec::from_elem_general(alloc, 5000, false),
        Make::BitsCloneTail if lent.len() > 4 => lent.clone_tail(alloc, 4),
        _ => lent.clone(alloc),
    }
}

fn of_bytes<B: BitBlock>(
    alloc: Global,
    order: &Order,
    bytes: &[u8],
) -> Result<BitSet<B>, SetError> {
    match order {
        Order::High => BitSet::from_bytes_general(alloc, bytes),
        Order::Low => BitSet::from_bytes_lsb_general(alloc, bytes),
    }
}

fn reread<B: BitBlock>(
    alloc: Global,
    order: &Order,
    lent: &BitSet<B>,
) -> Result<BitSet<B>, SetError> {
    let bytes = match order {
        Order::High => lent.to_bytes(alloc)?,
        Order::Low => lent.to_bytes_lsb(alloc)?,
    };
    of_bytes(alloc, order, &bytes)
}

fn made<B: BitBlock>(alloc: Global, call: &Make, lent: &BitSet<B>) -> Result<BitSet<B>, Fault> {
    match call {
        Make::BitsFromElem | Make::BitsClone | Make::BitsCloneTail => {
            let bits = copy_of_bits(alloc, call, lent.get_ref())?;
            Ok(BitSet::from_bit_vec_general(bits))
        }
        Make::FromBytes(order) => Ok(of_bytes(alloc, order, &BYTES)?),
        Make::BitsFromBytes => {
            let bits = BitVec::from_bytes_general(alloc, &BYTES)?;
            Ok(BitSet::from_bit_vec_general(bits))
        }
        Make::FromIter => Ok(set_of(alloc, &[9, 450, 5000])?),
        Make::FromRanges => Ok(BitSet::from_ranges(alloc, "9, 450,5000")?),
        Make::Reread(order) => Ok(reread(alloc, order, lent)?),
        _ => Ok(copy_of(alloc, call, lent)?),
    }
}

impl<B: BitBlock> Trial<Change> for Sets<B> {
    fn prepare(alloc: Global, change: &Change) -> Result<Self, Fault> {
        let set = first_set(alloc, &change.start)?;
        let lent = set_of(alloc, LENT_ELEMENTS)?;
        Ok(Sets { set, lent })
    }

    fn make(&mut self, alloc: Global, change: &Change) -> Result<bool, Fault> {
        match &change.call {
            Call::InPlace(call) => changed(call, &mut self.set, &self.lent)?,
            Call::Bits(call) => changed_bits(call, self.set.get_mut(), self.lent.get_ref())?,
            Call::Exchange(call) => exchanged(alloc, call, self)?,
            Call::Make(call) => self.set = made(alloc, call, &self.lent)?,
            Call::Report(call) => return Ok(reported(alloc, call, &mut self.set, &self.lent)?),
            Call::Put(call) => return Ok(put_in(call, &mut self.set)?),
            Call::Plain(call) => return is_made(alloc, call),
            Call::Group(group) => return Ok(group.is_right(alloc, &mut self.set, &self.lent)),
        }
        Ok(true)
    }

    fn is_right(
        &mut self,
        _alloc: Global,
        change: &Change,
        has_returned: bool,
    ) -> Result<bool, Fault> {
        let (set, lent) = if has_returned {
            (change.returned, change.lent)
        } else {
            (change.failed, LENT)
        };
        let is_right = is_state(&self.set, set) & is_state(&self.lent, lent);
        Ok(is_right & works(&mut self.set) & works(&mut self.lent))
    }
}
