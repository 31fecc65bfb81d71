// Sets and bit vectors that are made of bytes, of one truth value, of other sets or of nothing.
use crate::calls::{Gathering, Making};
use bit_set::bit_vec::BitVec;
use bit_set::{BitBlock, BitSet, SetError};
use std::alloc::{AllocError, Global};

pub(crate) fn bytes_of(alloc: Global, numbers: &[usize]) -> Result<Vec<u8>, AllocError> {
    let mut bytes = Vec::new(alloc);
    for number in numbers {
        bytes.push((*number % 256) as u8)?;
    }
    Ok(bytes)
}

// The set by a call for any type of blocks: as long as is said, or of these bytes, or of so many times a truth value.
pub(crate) fn made<B: BitBlock>(
    alloc: Global,
    making: Making,
    (len, bit): (usize, bool),
    bytes: &[u8],
) -> Result<BitSet<B>, SetError> {
    Ok(match making {
        Making::New => BitSet::new_general(alloc),
        Making::WithCapacity => BitSet::with_capacity_general(alloc, len)?,
        Making::FromBytes => BitSet::from_bytes_general(alloc, bytes)?,
        Making::FromBytesLsb => BitSet::from_bytes_lsb_general(alloc, bytes)?,
        Making::Bits => BitSet::from_bit_vec_general(BitVec::new_general(alloc)),
        Making::BitsFromElem => {
            BitSet::from_bit_vec_general(BitVec::from_elem_general(alloc, len, bit)?)
        }
        Making::BitsFromBytes => {
            BitSet::from_bit_vec_general(BitVec::from_bytes_general(alloc, bytes)?)
        }
    })
}

// The same by a call that is at `u32` alone.
pub(crate) fn made_plain(
    alloc: Global,
    making: Making,
    (len, bit): (usize, bool),
    bytes: &[u8],
) -> Result<BitSet<u32>, SetError> {
    Ok(match making {
        Making::New => BitSet::new(alloc),
        Making::WithCapacity => BitSet::with_capacity(alloc, len)?,
        Making::FromBytes => BitSet::from_bytes(alloc, bytes)?,
        Making::FromBytesLsb => BitSet::from_bytes_lsb(alloc, bytes)?,
        Making::Bits => BitSet::from_bit_vec(BitVec::new(alloc)),
        Making::BitsFromElem => BitSet::from_bit_vec(BitVec::from_elem(alloc, len, bit)?),
        Making::BitsFromBytes => BitSet::from_bit_vec(BitVec::from_bytes(alloc, bytes)?),
    })
}

pub(crate) fn gathered<B: BitBlock>(
    alloc: Global,
    gathering: Gathering,
    sets: &[BitSet<B>],
    numbers: &[usize],
) -> Result<BitSet<B>, SetError> {
    Ok(match gathering {
        Gathering::UnionOf => BitSet::union_of(alloc, sets)?,
        Gathering::IntersectionOf => BitSet::intersection_of(alloc, sets)?,
        Gathering::FromIter => BitSet::from_iter(alloc, numbers.iter().copied())?,
    })
}
