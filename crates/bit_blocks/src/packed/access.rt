// Reads and writes of a vector of blocks, each by what it does to the bit at every index. They keep its length and
// capacity unless they say otherwise, and know nothing of how many bits it holds.
ghost use Rattle.std.specs.Prelude.{◌≡◌, ◌≢◌, ℕ, ◌<◌, ◌≤◌, ◌/◌, ◌%◌, ◌==◌, ◌&&◌, ◌||◌, All, length, map, set, get_or, nat_lt, nat_le, vec_len};
ghost use Rattle.bit_blocks.specs.{Bits.blocks_for, Digits.is_one, Places.IsPlace, Storage.{value_at, FillsFirst, WritesInPlace, WritesValue}, Written.WritesBlocks};

use crate::block::BitBlock;
use crate::block::masks::{with_bit, with_ones_between, with_ones_from, with_zeros_from};
use crate::block::operators::{has_one_at, same};
use crate::packed::groups::BULK_WRITE;

/// How many blocks a list of `len` values has: `len / B::bits()`, rounded up. Constant time.
///
/// ```
/// assert_eq!(block_count::<u8>(17), 3);
/// ```
#[inline]
pub fn block_count<B: BitBlock>(len: usize) -> usize
    ensures { result ≡ blocks_for B.width len }
{
    len.div_ceil(B::bits())
}

/// The index of the block in which bit `i` is. Constant time: a division, which is a shift for the six types.
///
/// ```
/// assert_eq!(block_index::<u8>(17), 2);
/// ```
#[inline]
pub fn block_index<B: BitBlock>(i: usize) -> usize
    ensures { result ≡ i / B.width }
{
    i / B::bits()
}

/// The index that bit `i` has in its block. Constant time.
///
/// ```
/// assert_eq!(bit_index::<u8>(17), 1);
/// ```
#[inline]
pub fn bit_index<B: BitBlock>(i: usize) -> usize
    ensures value { result ≡ i % B.width }
    ensures within { result < B.width }
{
    i % B::bits()
}

// The index of the block of bit `i`, and the bit's own in it.
#[inline]
pub(crate) fn place_of<B: BitBlock>(i: usize) -> (usize, usize)
    ensures { IsPlace B.width i result.0 result.1 }
{
    (block_index::<B>(i), bit_index::<B>(i))
}

/// The block with this index, which must be below their number. Constant time.
///
/// ```
/// assert_eq!(block_at(&[7u8, 1], 1), 1);
/// ```
#[inline]
pub fn block_at<B: BitBlock>(blocks: &[B], k: usize) -> B
    requires in_bounds { k < length blocks.now }
    requires each { All B.is_block blocks.now }
    ensures of_block { B.is_block result }
    ensures of_number { B.number result ≡ get_or (map B.number blocks.now) k 0 }
{
    blocks[k]
}

/// Sets block `k` to `block`.
#[inline]
pub fn put_block<B: BitBlock>(blocks: &mut Vec<B>, k: usize, block: B)
    requires in_bounds { k < vec_len blocks.old }
    requires each { All B.is_block blocks.old.items }
    requires of_block { B.is_block block }
    ensures numbers { map B.number blocks.new.items ≡ set (map B.number blocks.old.items) k (B.number block) }
    ensures in_place { WritesInPlace B.is_block blocks.old blocks.new }
{
    blocks[k] = block;
}

/// Writes a block of a slice. Constant time.
///
/// ```
/// put_in(&mut blocks, 1, 5);
/// ```
// The address of a slice is in a register, so that a loop of these becomes vector code.
#[inline]
pub fn put_in<B: BitBlock>(blocks: &mut [B], k: usize, block: B)
    requires in_bounds { k < length blocks.old }
    requires each { All B.is_block blocks.old }
    requires of_block { B.is_block block }
    ensures numbers { map B.number blocks.new ≡ set (map B.number blocks.old) k (B.number block) }
    ensures each { All B.is_block blocks.new }
    ensures len { length blocks.new ≡ length blocks.old }
{
    blocks[k] = block;
}

/// Whether bit `i` is 1. Constant time.
///
/// ```
/// assert!(get_bit(&[0u8, 0b0100], 10));
/// ```
#[inline]
pub fn get_bit<B: BitBlock>(blocks: &[B], i: usize) -> bool
    requires in_bounds { i / B.width < length blocks.now }
    requires each { All B.is_block blocks.now }
    ensures { result ≡ value_at B.width (map B.number blocks.now) i }
{
    let block = block_at(blocks, block_index::<B>(i));
    has_one_at(block, bit_index::<B>(i))
}

/// Sets the value at `i` to `bit`, where `block` is the block that has it. Returns the new block.
#[inline]
pub fn write_bit<B: BitBlock>(blocks: &mut Vec<B>, i: usize, block: B, bit: bool) -> B
    requires in_bounds { i / B.width < vec_len blocks.old }
    requires each { All B.is_block blocks.old.items }
    requires of_block { B.is_block block }
    requires read { B.number block ≡ get_or (map B.number blocks.old.items) (i / B.width) 0 }
    ensures of_block { B.is_block result }
    ensures digit { is_one (B.number result) (i % B.width) ≡ bit }
    ensures other_digits { (j : ℕ) → j < B.width → j ≢ i % B.width
        → is_one (B.number result) j ≡ is_one (B.number block) j }
    ensures of_number { B.number result ≡ get_or (map B.number blocks.new.items) (i / B.width) 0 }
    ensures value { WritesValue B.width (map B.number blocks.old.items) (map B.number blocks.new.items) i bit }
    ensures in_place { WritesInPlace B.is_block blocks.old blocks.new }
{
    let written = with_bit(block, bit_index::<B>(i), bit);
    put_block(blocks, block_index::<B>(i), written);
    written
}

/// Sets bit `i` to `bit`, and returns what it was, and its new block. Constant time.
// It was the other where the block changes: so no bit of the old block is tested.
#[inline]
pub fn exchange_bit<B: BitBlock>(blocks: &mut Vec<B>, i: usize, bit: bool) -> (bool, B)
    requires in_bounds { i / B.width < vec_len blocks.old }
    requires each { All B.is_block blocks.old.items }
    ensures was { result.0 ≡ value_at B.width (map B.number blocks.old.items) i }
    ensures of_block { B.is_block result.1 }
    ensures of_number { B.number result.1 ≡ get_or (map B.number blocks.new.items) (i / B.width) 0 }
    ensures value { WritesValue B.width (map B.number blocks.old.items) (map B.number blocks.new.items) i bit }
    ensures in_place { WritesInPlace B.is_block blocks.old blocks.new }
{
    let block = block_at(blocks, block_index::<B>(i));
    let written = write_bit(blocks, i, block, bit);
    (same(written, block) == bit, written)
}

/// Sets bit `i` to `bit`, and returns what it was. Constant time.
///
/// ```
/// assert!(!replace_bit(&mut blocks, 10, true));
/// assert!(replace_bit(&mut blocks, 10, true));
/// ```
#[inline]
pub fn replace_bit<B: BitBlock>(blocks: &mut Vec<B>, i: usize, bit: bool) -> bool
    requires in_bounds { i / B.width < vec_len blocks.old }
    requires each { All B.is_block blocks.old.items }
    ensures was { result ≡ value_at B.width (map B.number blocks.old.items) i }
    ensures value { WritesValue B.width (map B.number blocks.old.items) (map B.number blocks.new.items) i bit }
    ensures in_place { WritesInPlace B.is_block blocks.old blocks.new }
{
    exchange_bit(blocks, i, bit).0
}

// The values from `len` on, up to `end`, become true in the last block; none where it is full.
pub(crate) fn set_tail<B: BitBlock>(blocks: &mut Vec<B>, len: usize, end: usize)
    requires count { vec_len blocks.old ≡ blocks_for B.width len }
    requires each { All B.is_block blocks.old.items }
    requires forward { len ≤ end }
    ensures values { (i : ℕ) → i / B.width < vec_len blocks.old
        → value_at B.width (map B.number blocks.new.items) i
        ≡ (value_at B.width (map B.number blocks.old.items) i || (nat_lt i end && nat_le len i)) }
    ensures in_place { WritesInPlace B.is_block blocks.old blocks.new }
{
    let index = bit_index::<B>(len);
    if index == 0 {
        return;
    }
    let k = block_index::<B>(len);
    let last = block_at(blocks, k);
    if block_index::<B>(end) == k {
        let raised = with_ones_between(last, index, bit_index::<B>(end));
        put_block(blocks, k, raised);
    } else {
        put_block(blocks, k, with_ones_from(last, index));
    }
}

/// The values from `len` on become false; there must be no block after theirs.
pub fn clear_tail<B: BitBlock>(blocks: &mut Vec<B>, len: usize)
    requires count { vec_len blocks.old ≡ blocks_for B.width len }
    requires each { All B.is_block blocks.old.items }
    ensures values { (i : ℕ)
        → value_at B.width (map B.number blocks.new.items) i
        ≡ (nat_lt i len && value_at B.width (map B.number blocks.old.items) i) }
    ensures in_place { WritesInPlace B.is_block blocks.old blocks.new }
{
    let index = bit_index::<B>(len);
    if index == 0 {
        return;
    }
    let k = block_index::<B>(len);
    let block = with_zeros_from(block_at(blocks, k), index);
    put_block(blocks, k, block);
}

// Each of the first `count` blocks becomes `block`, as they are lent as a slice: it becomes a `memset` or vector code.
#[inline]
fn fill_slice<B: BitBlock>(blocks: &mut [B], count: usize, block: B)
    requires in_bounds { count ≤ length blocks.old }
    requires each { All B.is_block blocks.old }
    requires of_block { B.is_block block }
    ensures fills { FillsFirst (map B.number blocks.old) (map B.number blocks.new) count (B.number block) }
    ensures written { WritesBlocks B.is_block blocks.old blocks.new }
{
    for k in 0..count {
        put_in(blocks, k, block);
    }
}

// Each of the first `count` blocks becomes `block`, one by one.
#[inline]
fn fill_each<B: BitBlock>(blocks: &mut Vec<B>, count: usize, block: B)
    requires in_bounds { count ≤ vec_len blocks.old }
    requires each { All B.is_block blocks.old.items }
    requires of_block { B.is_block block }
    ensures fills { FillsFirst (map B.number blocks.old.items) (map B.number blocks.new.items) count (B.number block) }
    ensures in_place { WritesInPlace B.is_block blocks.old blocks.new }
{
    for k in 0..count {
        put_block(blocks, k, block);
    }
}

// Each of the first `count` blocks becomes `block`.
pub(crate) fn fill_blocks<B: BitBlock>(blocks: &mut Vec<B>, count: usize, block: B)
    requires in_bounds { count ≤ vec_len blocks.old }
    requires each { All B.is_block blocks.old.items }
    requires of_block { B.is_block block }
    ensures fills { FillsFirst (map B.number blocks.old.items) (map B.number blocks.new.items) count (B.number block) }
    ensures in_place { WritesInPlace B.is_block blocks.old blocks.new }
{
    if count < BULK_WRITE {
        fill_each(blocks, count, block);
        return;
    }
    fill_slice(blocks.as_mut_slice(), count, block);
}
