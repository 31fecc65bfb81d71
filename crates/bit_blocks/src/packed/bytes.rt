// Blocks made of bytes, and bytes of blocks: the highest bit of a byte is the first of eight values, or the lowest.
ghost use Rattle.std.specs.Prelude.{◌≡◌, ℕ, ◌+◌, ◌*◌, ◌-◌, ◌^◌, ◌<◌, ◌≤◌, ◌&&◌, All, get_or, map, nat_lt, length, vec_capacity, vec_len, IfOk, IsOk};
ghost use Rattle.bit_blocks.specs.{Bits.blocks_for, Bytes.{byte_value, placed_value}, Digits.is_one, Storage.{value_at, IsPacked}};

use crate::block::BitBlock;
use crate::block::masks::with_one_if;
use crate::block::operators::{block_or, has_one_at, shift_left, shift_right};
use crate::packed::access::{block_at, block_count};
use std::alloc::{AllocError, Global};

/// The blocks of the values of all bytes, the first value of eight highest.
pub fn blocks_of_bytes<B: BitBlock>(alloc: Global, bytes: &[u8]) -> Result<Vec<B>, AllocError>
    requires { 8 * length bytes.now < 2 ^ 64 }
    ensures values { IfOk result
        (λ blocks. (i : ℕ) → value_at B.width (map B.number blocks.items) i ≡ byte_value bytes.now i) }
    ensures each { IfOk result (λ blocks. All B.is_block blocks.items) }
    ensures len { IfOk result (λ blocks. length blocks.items ≡ blocks_for B.width (8 * length bytes.now)) }
    ensures capacity { IfOk result (λ blocks. vec_capacity blocks ≡ blocks_for B.width (8 * length bytes.now)) }
    ensures empty { length bytes.now ≡ 0 → IsOk result }
{
    blocks_in_order::<B, HighestFirst>(alloc, bytes)
}

/// The blocks of the values of all bytes, the first value of eight lowest.
pub fn blocks_of_bytes_lsb<B: BitBlock>(alloc: Global, bytes: &[u8]) -> Result<Vec<B>, AllocError>
    requires { 8 * length bytes.now < 2 ^ 64 }
    ensures values { IfOk result
        (λ blocks. (i : ℕ) → value_at B.width (map B.number blocks.items) i ≡ value_at 8 bytes.now i) }
    ensures each { IfOk result (λ blocks. All B.is_block blocks.items) }
    ensures len { IfOk result (λ blocks. length blocks.items ≡ blocks_for B.width (8 * length bytes.now)) }
    ensures capacity { IfOk result (λ blocks. vec_capacity blocks ≡ blocks_for B.width (8 * length bytes.now)) }
    ensures empty { length bytes.now ≡ 0 → IsOk result }
{
    blocks_in_order::<B, LowestFirst>(alloc, bytes)
}

// The blocks of the values of all bytes.
fn blocks_in_order<B: BitBlock, T: ByteOrder>(
    alloc: Global,
    bytes: &[u8],
) -> Result<Vec<B>, AllocError>
    requires { 8 * length bytes.now < 2 ^ 64 }
    ensures values { IfOk result
        (λ blocks. (i : ℕ) → value_at B.width (map B.number blocks.items) i ≡ placed_value T.place bytes.now i) }
    ensures each { IfOk result (λ blocks. All B.is_block blocks.items) }
    ensures len { IfOk result (λ blocks. length blocks.items ≡ blocks_for B.width (8 * length bytes.now)) }
    ensures capacity { IfOk result (λ blocks. vec_capacity blocks ≡ blocks_for B.width (8 * length bytes.now)) }
    ensures empty { length bytes.now ≡ 0 → IsOk result }
{
    let count = block_count::<B>(8 * bytes.len());
    let mut blocks = Vec::with_capacity(alloc, count)?;
    for k in 0..count {
        blocks.push_reserved(block_of_bytes::<B, T>(bytes_of_block::<B>(bytes, k)));
    }
    Ok(blocks)
}

// The bytes of block `k`: as many as a block holds, or those that are left.
#[inline]
fn bytes_of_block<B: BitBlock>(bytes: &[u8], k: usize) -> &[u8]
    requires fits { 8 * length bytes.now < 2 ^ 64 }
    requires in_bounds { k < blocks_for B.width (8 * length bytes.now) }
    ensures len { 8 * length result.now ≤ B.width }
    ensures values { (place : ℕ → ℕ) (j : ℕ) → j < B.width
        → placed_value place result.now j ≡ placed_value place bytes.now (k * B.width + j) }
{
    let step = B::bits() / 8;
    let start = k * step;
    let end = (start + step).min(bytes.len());
    &bytes[start..end]
}

// One block of no more bytes than it holds.
#[inline]
fn block_of_bytes<B: BitBlock, T: ByteOrder>(bytes: &[u8]) -> B
    requires { 8 * length bytes.now ≤ B.width }
    ensures of_block { B.is_block result }
    ensures digits { (j : ℕ) → j < B.width → is_one (B.number result) j ≡ placed_value T.place bytes.now j }
{
    let whole = B::bits() / 8;
    // All blocks but the last are whole, and the compiler unrolls a loop whose count it knows.
    if bytes.len() == whole {
        block_of_first::<B, T>(bytes, whole)
    } else {
        block_of_first::<B, T>(bytes, bytes.len())
    }
}

// One block of the first `count` bytes.
#[inline]
fn block_of_first<B: BitBlock, T: ByteOrder>(bytes: &[u8], count: usize) -> B
    requires in_bounds { count ≤ length bytes.now }
    requires within { 8 * count ≤ B.width }
    ensures of_block { B.is_block result }
    ensures digits { (j : ℕ) → j < B.width
        → is_one (B.number result) j ≡ (nat_lt j (8 * count) && placed_value T.place bytes.now j) }
{
    let mut block = B::zero();
    for index in 0..count {
        let digits = B::from_byte(T::ordered(bytes[index]));
        block = block_or(block, shift_left(digits, 8 * index));
    }
    block
}

/// The bytes of `len` values, the first value of eight highest, and zeros past these in the last byte.
pub fn bytes_of<B: BitBlock>(alloc: Global, blocks: &[B], len: usize) -> Result<Vec<u8>, AllocError>
    requires { IsPacked B.width B.number B.is_block blocks.now len }
    ensures values { IfOk result
        (λ bytes. (i : ℕ) → byte_value bytes.items i ≡ value_at B.width (map B.number blocks.now) i) }
    ensures len { IfOk result (λ bytes. length bytes.items ≡ blocks_for 8 len) }
    ensures empty { len ≡ 0 → IsOk result }
{
    bytes_in_order::<B, HighestFirst>(alloc, blocks, len)
}

/// The bytes of `len` values, the first value of eight lowest, and zeros past these in the last byte.
pub fn bytes_of_lsb<B: BitBlock>(
    alloc: Global,
    blocks: &[B],
    len: usize,
) -> Result<Vec<u8>, AllocError>
    requires { IsPacked B.width B.number B.is_block blocks.now len }
    ensures values { IfOk result
        (λ bytes. (i : ℕ) → value_at 8 bytes.items i ≡ value_at B.width (map B.number blocks.now) i) }
    ensures len { IfOk result (λ bytes. length bytes.items ≡ blocks_for 8 len) }
    ensures empty { len ≡ 0 → IsOk result }
{
    bytes_in_order::<B, LowestFirst>(alloc, blocks, len)
}

// The order of eight values in a byte.
pub(crate) trait ByteOrder {
    // Where value j of a byte is.
    ghost place: { ℕ → ℕ };

    // A byte whose first value is the lowest digit, in this order; and back.
    fn ordered(byte: u8) -> u8
        ensures there { (j : ℕ) → j < 8 → is_one result (place j) ≡ is_one byte j }
        ensures back { (j : ℕ) → j < 8 → is_one result j ≡ is_one byte (place j) };
}

// The first value is the highest digit.
pub(crate) struct HighestFirst;

// The first value is the lowest digit.
pub(crate) struct LowestFirst;

impl ByteOrder for HighestFirst {
    ghost place = { λ j. 7 - j };

    #[inline(always)]
    fn ordered(byte: u8) -> u8 {
        byte.reverse_bits()
    }
}

impl ByteOrder for LowestFirst {
    ghost place = { λ j. j };

    #[inline(always)]
    fn ordered(byte: u8) -> u8 {
        byte
    }
}

// The bytes of `len` values, and zeros past these in the last byte.
fn bytes_in_order<B: BitBlock, T: ByteOrder>(
    alloc: Global,
    blocks: &[B],
    len: usize,
) -> Result<Vec<u8>, AllocError>
    requires { IsPacked B.width B.number B.is_block blocks.now len }
    ensures values { IfOk result (λ bytes. (q j : ℕ) → q < blocks_for 8 len → j < 8
        → is_one (get_or bytes.items q 0) (T.place j) ≡ value_at B.width (map B.number blocks.now) (8 * q + j)) }
    ensures len { IfOk result (λ bytes. length bytes.items ≡ blocks_for 8 len) }
    ensures empty { len ≡ 0 → IsOk result }
{
    let count = len.div_ceil(8);
    let step = B::bits() / 8;
    let mut bytes = Vec::with_capacity(alloc, count)?;
    for k in 0..count / step {
        bytes = with_bytes::<B, T>(bytes, block_at(blocks, k), step);
    }
    let rest = count % step;
    if rest == 0 {
        return Ok(bytes);
    }
    Ok(with_bytes::<B, T>(bytes, block_at(blocks, count / step), rest))
}

// The bytes with the first `count` of a block after them. There is capacity for them. The loop owns the vector: so the
// compiler writes all bytes of a block at once.
#[inline(always)]
fn with_bytes<B: BitBlock, T: ByteOrder>(mut bytes: Vec<u8>, block: B, count: usize) -> Vec<u8>
    requires capacity { vec_len bytes + count ≤ vec_capacity bytes }
    requires of_block { B.is_block block }
    requires within { 8 * count ≤ B.width }
    ensures len { vec_len result ≡ vec_len bytes + count }
    ensures capacity { vec_capacity result ≡ vec_capacity bytes }
    ensures kept { (q : ℕ) → q < vec_len bytes → get_or result.items q 0 ≡ get_or bytes.items q 0 }
    ensures digits { (p j : ℕ) → p < count → j < 8
        → is_one (get_or result.items (vec_len bytes + p) 0) (T.place j) ≡ is_one (B.number block) (8 * p + j) }
{
    for p in 0..count {
        bytes.push_reserved(T::ordered(lowest_byte(shift_right(block, 8 * p))));
    }
    bytes
}

// The lowest eight bits of a block. The compiler makes one instruction of it.
#[inline(always)]
fn lowest_byte<B: BitBlock>(block: B) -> u8
    requires { B.is_block block }
    ensures { (j : ℕ) → j < 8 → is_one result j ≡ is_one (B.number block) j }
{
    let mut byte = 0u8;
    for j in 0..8 {
        byte = with_one_if(byte, j, has_one_at(block, j));
    }
    byte
}
