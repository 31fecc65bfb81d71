// Whole blocks that are appended, or copied from another list. The vector keeps its capacity: std says so of
// `push_reserved` and of `copy_from_slice`, but not of `resize` and `extend_from_slice`.
ghost use Rattle.std.specs.Prelude.{◌≡◌, ◌+◌, ◌-◌, ◌<◌, ◌≤◌, ◌++◌, All, IfOk, IsOk, length, map, replicate, vec_len, vec_capacity};
ghost use Rattle.bit_blocks.specs.Written.{HasBlocks, Holds};

use crate::block::BitBlock;
use crate::packed::groups::BULK_WRITE;
use std::alloc::{AllocError, Global};
use std::mem::replace;

// The blocks with copies of `block` after them, until there are `count`. There is capacity for them. The loop
// owns the vector, so that it writes nothing but blocks: it becomes a `memset` or vector code.
fn with_copies<B: BitBlock>(mut blocks: Vec<B>, count: usize, block: B) -> Vec<B>
    requires more { vec_len blocks ≤ count }
    requires capacity { count ≤ vec_capacity blocks }
    requires each { All B.is_block blocks.items }
    requires of_block { B.is_block block }
    ensures numbers { map B.number result.items
        ≡ map B.number blocks.items ++ replicate (count - vec_len blocks) (B.number block) }
    ensures has { HasBlocks B.is_block count (vec_capacity blocks) result }
{
    for _ in blocks.len()..count {
        blocks.push_reserved(block);
    }
    blocks
}

/// Appends copies of `block` until there are `count` blocks; there must be capacity for them. One write for each.
///
/// ```
/// let mut blocks: Vec<u8> = Vec::with_capacity(alloc, 3)?;
/// push_copies(&mut blocks, 3, 0);
/// ```
pub fn push_copies<B: BitBlock>(blocks: &mut Vec<B>, count: usize, block: B)
    requires more { vec_len blocks.old ≤ count }
    requires capacity { count ≤ vec_capacity blocks.old }
    requires each { All B.is_block blocks.old.items }
    requires of_block { B.is_block block }
    ensures numbers { map B.number blocks.new.items
        ≡ map B.number blocks.old.items ++ replicate (count - vec_len blocks.old) (B.number block) }
    ensures each { All B.is_block blocks.new.items }
    ensures len { vec_len blocks.new ≡ count }
    ensures capacity { vec_capacity blocks.new ≡ vec_capacity blocks.old }
{
    match count - blocks.len() {
        0 => {}
        // As often as not where a list grows step by step, and not worth a `memset`.
        1 => blocks.push_reserved(block),
        _ => {
            let alloc = *blocks.allocator();
            let owned = replace(blocks, Vec::new(alloc));
            *blocks = with_copies(owned, count, block);
        }
    }
}

// The blocks with `more` after them. There is capacity for them. The loop owns the vector, as above.
fn with_blocks<B: BitBlock>(mut blocks: Vec<B>, more: &[B]) -> Vec<B>
    requires { vec_len blocks + length more.now ≤ vec_capacity blocks }
    ensures { Holds (blocks.items ++ more.now) (vec_len blocks + length more.now) (vec_capacity blocks) result }
{
    for block in more {
        blocks.push_reserved(*block);
    }
    blocks
}

// The blocks with `more` after them, which take all the capacity that is left. A `memcpy`, which a loop is not.
// That it keeps the capacity is so, but std does not say it: so it is tested.
#[inline]
pub(crate) fn filled_with<B: BitBlock>(mut blocks: Vec<B>, more: &[B]) -> Result<Vec<B>, AllocError>
    requires { vec_len blocks + length more.now ≡ vec_capacity blocks }
    ensures items { IfOk result (λ filled. filled.items ≡ blocks.items ++ more.now) }
    ensures len { IfOk result (λ filled. vec_len filled ≡ vec_capacity blocks) }
    ensures capacity { IfOk result (λ filled. vec_capacity filled ≡ vec_capacity blocks) }
    ensures empty { length more.now ≡ 0 → IsOk result }
{
    if more.is_empty() {
        return Ok(blocks);
    }
    let capacity = blocks.capacity();
    blocks.extend_from_slice(more)?;
    if blocks.capacity() > capacity {
        return Err(AllocError);
    }
    Ok(blocks)
}

/// A new vector of the same blocks, with capacity for no more. Fails if memory runs out, and never if there are no
/// blocks. One write for each.
///
/// ```
/// let copy = copy_of(alloc, &blocks)?;
/// ```
#[inline]
pub fn copy_of<B: BitBlock>(alloc: Global, blocks: &[B]) -> Result<Vec<B>, AllocError>
    ensures items { IfOk result (λ copy. copy.items ≡ blocks.now) }
    ensures len { IfOk result (λ copy. vec_len copy ≡ length blocks.now) }
    ensures capacity { IfOk result (λ copy. vec_capacity copy ≡ length blocks.now) }
    ensures empty { length blocks.now ≡ 0 → IsOk result }
{
    if blocks.is_empty() {
        return Ok(Vec::new(alloc));
    }
    filled_with(Vec::with_capacity(alloc, blocks.len())?, blocks)
}

// Appends blocks one by one. There is capacity for them.
#[inline]
fn push_each<B: BitBlock>(blocks: &mut Vec<B>, more: &[B])
    requires { vec_len blocks.old + length more.now ≤ vec_capacity blocks.old }
    ensures { Holds (blocks.old.items ++ more.now) (vec_len blocks.old + length more.now) (vec_capacity blocks.old)
        blocks.new }
{
    for block in more {
        blocks.push_reserved(*block);
    }
}

// The blocks become those of `from`, which are not as many. There is capacity for them.
#[inline(never)]
fn copy_other_count<B: BitBlock>(blocks: &mut Vec<B>, from: &[B])
    requires { length from.now ≤ vec_capacity blocks.old }
    ensures { Holds from.now (length from.now) (vec_capacity blocks.old) blocks.new }
{
    blocks.truncate(from.len());
    let written_over = blocks.len();
    blocks.copy_from_slice(&from[..written_over]);
    let alloc = *blocks.allocator();
    let owned = replace(blocks, Vec::new(alloc));
    *blocks = with_blocks(owned, &from[written_over..]);
}

/// The blocks become those of `from`; there must be capacity for them. If there are equally many, as is often the
/// case, no block is appended.
#[inline]
pub fn copy_blocks<B: BitBlock>(blocks: &mut Vec<B>, from: &[B])
    requires { length from.now ≤ vec_capacity blocks.old }
    ensures items { blocks.new.items ≡ from.now }
    ensures len { vec_len blocks.new ≡ length from.now }
    ensures capacity { vec_capacity blocks.new ≡ vec_capacity blocks.old }
{
    if from.len() < BULK_WRITE {
        blocks.clear();
        push_each(blocks, from);
    } else if from.len() == blocks.len() {
        blocks.copy_from_slice(from);
    } else {
        copy_other_count(blocks, from);
    }
}
