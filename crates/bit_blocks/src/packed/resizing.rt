// A list of bits that grows, is cut or is filled: the bits past its length stay 0. Memory is allocated elsewhere.
ghost use Rattle.std.specs.Prelude.{◌≡◌, ℕ, ◌-◌, ◌/◌, ◌<◌, ◌≤◌, All, IfOk, IsOk, false, nat_lt, map, take, vec_len, vec_capacity};
ghost use Rattle.bit_blocks.specs.{Bits.blocks_for, Storage.{value_at, IsPacked, WritesInPlace}, Written.HasBlocks};

use crate::block::BitBlock;
use crate::block::operators::{all_ones, ones_below};
use crate::packed::access::{
    bit_index, block_count, block_index, clear_tail, fill_blocks, put_block, set_tail,
};
use crate::packed::copies::push_copies;
use std::alloc::{AllocError, Global};

// Appends blocks of ones until there are those of `len` values. There is capacity for them.
fn push_ones<B: BitBlock>(blocks: &mut Vec<B>, len: usize)
    requires more { vec_len blocks.old ≤ blocks_for B.width len }
    requires capacity { blocks_for B.width len ≤ vec_capacity blocks.old }
    requires each { All B.is_block blocks.old.items }
    ensures kept { (i : ℕ) → i / B.width < vec_len blocks.old
        → value_at B.width (map B.number blocks.new.items) i ≡ value_at B.width (map B.number blocks.old.items) i }
    ensures added { (i : ℕ) → vec_len blocks.old ≤ i / B.width
        → value_at B.width (map B.number blocks.new.items) i ≡ nat_lt i len }
    ensures has { HasBlocks B.is_block (blocks_for B.width len) (vec_capacity blocks.old) blocks.new }
{
    let whole = block_index::<B>(len);
    if blocks.len() > whole {
        return;
    }
    push_copies(blocks, whole, all_ones());
    let index = bit_index::<B>(len);
    if index != 0 {
        blocks.push_reserved(ones_below(index));
    }
}

/// Keeps the first `count` blocks.
#[inline]
pub fn truncate_blocks<B: BitBlock>(blocks: &mut Vec<B>, count: usize)
    requires fewer { count ≤ vec_len blocks.old }
    requires each { All B.is_block blocks.old.items }
    ensures numbers { map B.number blocks.new.items ≡ take count (map B.number blocks.old.items) }
    ensures each { All B.is_block blocks.new.items }
    ensures len { vec_len blocks.new ≡ count }
    ensures capacity { vec_capacity blocks.new ≡ vec_capacity blocks.old }
{
    blocks.truncate(count);
}

/// Appends `bit` to a list of `old` values until there are `len`; there must be capacity for the blocks. A list
/// grows by two calls of this, one for its blocks and one for their summary.
#[inline(always)]
pub fn append_bits<B: BitBlock>(blocks: &mut Vec<B>, old: usize, len: usize, bit: bool)
    requires packed { IsPacked B.width B.number B.is_block blocks.old.items old }
    requires longer { old ≤ len }
    requires capacity { blocks_for B.width len ≤ vec_capacity blocks.old }
    ensures kept { (i : ℕ) → i < old
        → value_at B.width (map B.number blocks.new.items) i ≡ value_at B.width (map B.number blocks.old.items) i }
    ensures added { (i : ℕ) → old ≤ i → i < len → value_at B.width (map B.number blocks.new.items) i ≡ bit }
    ensures packed { IsPacked B.width B.number B.is_block blocks.new.items len }
    ensures capacity { vec_capacity blocks.new ≡ vec_capacity blocks.old }
{
    if old == len {
        return;
    }
    if bit {
        set_tail(blocks, old, len);
        push_ones(blocks, len);
    } else {
        push_copies(blocks, block_count::<B>(len), B::zero());
    }
}

/// A new list of `len` values `bit`, with capacity for no more blocks. Fails only if memory runs out, and never if
/// there are no values.
#[inline]
pub fn repeated_bit<B: BitBlock>(alloc: Global, len: usize, bit: bool) -> Result<Vec<B>, AllocError>
    ensures filled { IfOk result (λ blocks. (i : ℕ) → i < len → value_at B.width (map B.number blocks.items) i ≡ bit) }
    ensures packed { IfOk result (λ blocks. IsPacked B.width B.number B.is_block blocks.items len) }
    ensures capacity { IfOk result (λ blocks. vec_capacity blocks ≡ blocks_for B.width len) }
    ensures empty { len ≡ 0 → IsOk result }
{
    let mut blocks = Vec::with_capacity(alloc, block_count::<B>(len))?;
    append_bits(&mut blocks, 0, len, bit);
    Ok(blocks)
}

/// Keeps the first `len` of a list of `old` values.
pub fn truncate_bits<B: BitBlock>(blocks: &mut Vec<B>, old: usize, len: usize)
    requires packed { IsPacked B.width B.number B.is_block blocks.old.items old }
    requires shorter { len ≤ old }
    ensures kept { (i : ℕ) → i < len
        → value_at B.width (map B.number blocks.new.items) i ≡ value_at B.width (map B.number blocks.old.items) i }
    ensures packed { IsPacked B.width B.number B.is_block blocks.new.items len }
    ensures capacity { vec_capacity blocks.new ≡ vec_capacity blocks.old }
{
    truncate_blocks(blocks, block_count::<B>(len));
    clear_tail(blocks, len);
}

// Makes each of `len` values true.
fn fill_ones<B: BitBlock>(blocks: &mut Vec<B>, len: usize)
    requires count { vec_len blocks.old ≡ blocks_for B.width len }
    requires each { All B.is_block blocks.old.items }
    ensures values { (i : ℕ) → value_at B.width (map B.number blocks.new.items) i ≡ nat_lt i len }
    ensures in_place { WritesInPlace B.is_block blocks.old blocks.new }
{
    let whole = block_index::<B>(len);
    fill_blocks(blocks, whole, all_ones());
    let index = bit_index::<B>(len);
    if index != 0 {
        put_block(blocks, whole, ones_below(index));
    }
}

// Makes every value false.
fn fill_zeros<B: BitBlock>(blocks: &mut Vec<B>)
    requires { All B.is_block blocks.old.items }
    ensures values { (i : ℕ) → value_at B.width (map B.number blocks.new.items) i ≡ false }
    ensures in_place { WritesInPlace B.is_block blocks.old blocks.new }
{
    fill_blocks(blocks, blocks.len(), B::zero());
}

/// Sets each of `len` values to `bit`.
pub fn fill_bits<B: BitBlock>(blocks: &mut Vec<B>, len: usize, bit: bool)
    requires packed { IsPacked B.width B.number B.is_block blocks.old.items len }
    ensures filled { (i : ℕ) → i < len → value_at B.width (map B.number blocks.new.items) i ≡ bit }
    ensures packed { IsPacked B.width B.number B.is_block blocks.new.items len }
    ensures capacity { vec_capacity blocks.new ≡ vec_capacity blocks.old }
{
    if bit {
        fill_ones(blocks, len);
    } else {
        fill_zeros(blocks);
    }
}
