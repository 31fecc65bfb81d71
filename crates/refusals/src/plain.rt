// Calls over blocks of 32 bits alone.
use crate::faults::Fault;
use crate::states::{State, is_state, works};
use crate::sweep::{Row, Trial, table};
use bit_set::BitSet;
use bit_set::bit_vec::BitVec;
use bit_set_run::Numbers;
use std::alloc::{AllocError, Global};
use std::mem;

/// Sixteen bytes with the bits 0, 9, 90 and 127, each byte counted from its highest.
pub const BYTES: [u8; 16] = [0x80, 0x40, 0, 0, 0, 0, 0, 0, 0, 0, 0, 0x20, 0, 0, 0, 0x01];

/// What makes a set.
pub enum Plain {
    WithCapacity,
    FromBytes,
    FromBytesLsb,
    BitsFromElem,
    BitsFromBytes,
}

fn plain_set(alloc: Global, call: &Plain) -> Result<BitSet<u32>, Fault> {
    match call {
        Plain::WithCapacity => Ok(BitSet::with_capacity(alloc, 5000)?),
        Plain::FromBytes => Ok(BitSet::from_bytes(alloc, &BYTES)?),
        Plain::FromBytesLsb => Ok(BitSet::from_bytes_lsb(alloc, &BYTES)?),
        Plain::BitsFromElem => Ok(BitSet::from_bit_vec(BitVec::from_elem(alloc, 5000, false)?)),
        Plain::BitsFromBytes => Ok(BitSet::from_bit_vec(BitVec::from_bytes(alloc, &BYTES)?)),
    }
}

/// Makes the set. Whether it is right, and works.
pub fn is_made(alloc: Global, call: &Plain) -> Result<bool, Fault> {
    let mut set = plain_set(alloc, call)?;
    let wanted = match call {
        Plain::WithCapacity | Plain::BitsFromElem => State::Of(&[], 5000),
        Plain::FromBytes | Plain::BitsFromBytes => State::Of(&[0, 9, 90, 127], 128),
        Plain::FromBytesLsb => State::Of(&[7, 14, 93, 120], 128),
    };
    Ok(is_state(&set, wanted) & works(&mut set))
}

/// Ten values, and two lists of numbers.
#[derive(Drop)]
pub struct Moves {
    bits: BitVec<u32>,
    numbers: Numbers,
    others: Numbers,
}

fn numbers_of(alloc: Global, items: &[usize]) -> Result<Numbers, AllocError> {
    Ok(Numbers::from_vec(items.to_vec(alloc)?))
}

impl Trial<()> for Moves {
    fn prepare(alloc: Global, _call: &()) -> Result<Self, Fault> {
        let bits = BitVec::from_elem(alloc, 10, true)?;
        let numbers = numbers_of(alloc, &[3, 447])?;
        let others = numbers_of(alloc, &[3, 448])?;
        Ok(Moves {
            bits,
            numbers,
            others,
        })
    }

    // The values become a set and are a list again, and the lists of numbers are compared.
    fn make(&mut self, alloc: Global, _call: &()) -> Result<bool, Fault> {
        let set = BitSet::from_bit_vec(mem::replace(&mut self.bits, BitVec::new(alloc)));
        let count = set.count();
        self.bits = set.into_bit_vec();
        Ok(count == 10 && self.numbers == self.numbers && self.numbers != self.others)
    }

    fn is_right(&mut self, _alloc: Global, _call: &(), _returned: bool) -> Result<bool, Fault> {
        Ok(self.bits.len() == 10 && self.bits.count_ones() == 10)
    }
}

pub const MOVES: &[Row<()>] = table! { "plain_moves", &[], (); };
