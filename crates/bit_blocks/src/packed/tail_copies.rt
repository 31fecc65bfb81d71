// A copy of the tail of a list, from an index on, at its own indexes: the bits before it are 0.
ghost use Rattle.std.specs.Prelude.{◌≡◌, ℕ, ◌<◌, ◌≤◌, ◌++◌, ◌&&◌, All, IfOk, drop, length, map, nat_le, replicate, vec_len, vec_capacity};
ghost use Rattle.bit_blocks.specs.{Bits.blocks_for, Storage.value_at};

use crate::block::BitBlock;
use crate::block::masks::with_zeros_below;
use crate::packed::access::{bit_index, block_at, block_index, put_block};
use crate::packed::copies::{filled_with, push_copies};
use std::alloc::{AllocError, Global};

// A new vector of the same blocks, except for the first `count`, which are 0.
fn copy_past<B: BitBlock>(alloc: Global, blocks: &[B], count: usize) -> Result<Vec<B>, AllocError>
    requires within { count ≤ length blocks.now }
    requires each { All B.is_block blocks.now }
    ensures numbers { IfOk result
        (λ copy. map B.number copy.items ≡ replicate count 0 ++ drop count (map B.number blocks.now)) }
    ensures each { IfOk result (λ copy. All B.is_block copy.items) }
    ensures len { IfOk result (λ copy. vec_len copy ≡ length blocks.now) }
    ensures capacity { IfOk result (λ copy. vec_capacity copy ≡ length blocks.now) }
{
    let mut copy = Vec::with_capacity(alloc, blocks.len())?;
    push_copies(&mut copy, count, B::zero());
    filled_with(copy, &blocks[count..])
}

/// A new vector of as many blocks with the same values, except that those before `at` are false.
pub fn copy_bits_from<B: BitBlock>(
    alloc: Global,
    blocks: &[B],
    at: usize,
) -> Result<Vec<B>, AllocError>
    requires within { blocks_for B.width at ≤ length blocks.now }
    requires each { All B.is_block blocks.now }
    ensures values { IfOk result
        (λ copy. (i : ℕ)
        → value_at B.width (map B.number copy.items) i
        ≡ (nat_le at i && value_at B.width (map B.number blocks.now) i)) }
    ensures each { IfOk result (λ copy. All B.is_block copy.items) }
    ensures len { IfOk result (λ copy. vec_len copy ≡ length blocks.now) }
    ensures capacity { IfOk result (λ copy. vec_capacity copy ≡ length blocks.now) }
{
    let k = block_index::<B>(at);
    let mut copy = copy_past(alloc, blocks, k)?;
    let index = bit_index::<B>(at);
    if index == 0 {
        return Ok(copy);
    }
    let block = with_zeros_below(block_at(blocks, k), index);
    put_block(&mut copy, k, block);
    Ok(copy)
}
