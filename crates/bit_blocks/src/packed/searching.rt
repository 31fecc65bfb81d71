// What is looked for in a list of blocks, and in one of them, and what is taken out of it.
ghost use Rattle.std.specs.Prelude.{◌≡◌, ℕ, ◌+◌, ◌*◌, ◌/◌, ◌^◌, ◌<◌, ◌≤◌, All, MatchOption, false, get_or, length, map, not, true, vec_len};
ghost use Rattle.bit_blocks.specs.{Searches.{FindsBefore, FindsFrom, IsFirstFrom, IsLastBefore}, Storage.{value_at, IsPacked, WritesInPlace, WritesValue, is_used}};

use crate::block::BitBlock;
use crate::block::lowest::{lowest_one, take_lowest_one};
use crate::block::masks::{with_zeros_below, with_zeros_from};
use crate::block::operators::{block_not, same};
use crate::packed::access::{bit_index, block_at, block_index, put_block};
use crate::packed::nonzero::block_or_zero;
use crate::packed::zeros::{used_blocks, zeros_before};

/// The first nonzero block at or after `from`. Reads a group of blocks at once.
#[inline]
pub fn first_used<B: BitBlock>(blocks: &[B], from: usize) -> Option<usize>
    requires { All B.is_block blocks.now }
    ensures { FindsFrom (is_used (map B.number blocks.now)) from result }
{
    if from >= blocks.len() {
        return None;
    }
    let rest = blocks.split_at(from).1;
    let zeros = zeros_before(rest);
    if zeros == rest.len() {
        return None;
    }
    Some(from + zeros)
}

/// The last nonzero block before `end`. Reads a group of blocks at once.
#[inline]
pub fn last_used<B: BitBlock>(blocks: &[B], end: usize) -> Option<usize>
    requires { All B.is_block blocks.now }
    ensures { FindsBefore (is_used (map B.number blocks.now)) end result }
{
    let count = used_blocks(blocks.split_at(end.min(blocks.len())).0);
    if count == 0 {
        return None;
    }
    Some(count - 1)
}

/// The first 1 from `from` on in the block that it is in.
#[inline]
pub fn first_in_block<B: BitBlock>(blocks: &[B], from: usize) -> Option<usize>
    requires each { All B.is_block blocks.now }
    requires fits { (i : ℕ) → value_at B.width (map B.number blocks.now) i ≡ true → i < 2 ^ 64 }
    ensures { MatchOption result
        ((j : ℕ) → from ≤ j → j < from / B.width * B.width + B.width
        → value_at B.width (map B.number blocks.now) j ≡ false)
        (IsFirstFrom (value_at B.width (map B.number blocks.now)) from) }
{
    let k = block_index::<B>(from);
    let rest = with_zeros_below(block_or_zero(blocks, k), bit_index::<B>(from));
    if same(rest, B::zero()) {
        return None;
    }
    let index = lowest_one(rest);
    Some(k * B::bits() + index)
}

/// The first 1 of a nonzero block.
#[inline]
pub fn first_of_block<B: BitBlock>(blocks: &[B], k: usize) -> usize
    requires each { All B.is_block blocks.now }
    requires fits { (i : ℕ) → value_at B.width (map B.number blocks.now) i ≡ true → i < 2 ^ 64 }
    requires used { is_used (map B.number blocks.now) k ≡ true }
    ensures { IsFirstFrom (value_at B.width (map B.number blocks.now)) (k * B.width) result }
{
    let index = lowest_one(block_or_zero(blocks, k));
    k * B::bits() + index
}

/// Removes the first 1 of a nonzero block. Returns its index, and the new block. Constant time.
#[inline]
pub fn take_first_of_block<B: BitBlock>(blocks: &mut Vec<B>, k: usize) -> (usize, B)
    requires in_bounds { k < vec_len blocks.old }
    requires each { All B.is_block blocks.old.items }
    requires used { is_used (map B.number blocks.old.items) k ≡ true }
    requires fits { (i : ℕ) → value_at B.width (map B.number blocks.old.items) i ≡ true → i < 2 ^ 64 }
    ensures first { IsFirstFrom (value_at B.width (map B.number blocks.old.items)) (k * B.width) result.0 }
    ensures in_its_block { result.0 / B.width ≡ k }
    ensures of_block { B.is_block result.1 }
    ensures of_number { B.number result.1 ≡ get_or (map B.number blocks.new.items) k 0 }
    ensures value { WritesValue B.width (map B.number blocks.old.items) (map B.number blocks.new.items) result.0
        false }
    ensures in_place { WritesInPlace B.is_block blocks.old blocks.new }
{
    let mut block = block_at(blocks, k);
    let index = take_lowest_one(&mut block);
    put_block(blocks, k, block);
    (k * B::bits() + index, block)
}

/// The last 1 below `end` in the block that `end` is in.
#[inline]
pub fn last_in_block<B: BitBlock>(blocks: &[B], end: usize) -> Option<usize>
    requires { All B.is_block blocks.now }
    ensures { MatchOption result
        ((j : ℕ) → end / B.width * B.width ≤ j → j < end
        → value_at B.width (map B.number blocks.now) j ≡ false)
        (IsLastBefore (value_at B.width (map B.number blocks.now)) end) }
{
    let k = block_index::<B>(end);
    let rest = with_zeros_from(block_or_zero(blocks, k), bit_index::<B>(end));
    if same(rest, B::zero()) {
        return None;
    }
    let index = rest.highest_one();
    Some(k * B::bits() + index)
}

/// The last 1 of a nonzero block.
#[inline]
pub fn last_of_block<B: BitBlock>(blocks: &[B], k: usize) -> usize
    requires each { All B.is_block blocks.now }
    requires fits { (i : ℕ) → value_at B.width (map B.number blocks.now) i ≡ true → i < 2 ^ 64 }
    requires used { is_used (map B.number blocks.now) k ≡ true }
    ensures { IsLastBefore (value_at B.width (map B.number blocks.now)) (k * B.width + B.width) result }
{
    let index = block_or_zero(blocks, k).highest_one();
    k * B::bits() + index
}

/// The first 1 from `from` on.
pub fn first_one<B: BitBlock>(blocks: &[B], from: usize) -> Option<usize>
    requires each { All B.is_block blocks.now }
    requires fits { (i : ℕ) → value_at B.width (map B.number blocks.now) i ≡ true → i < 2 ^ 64 }
    ensures { FindsFrom (value_at B.width (map B.number blocks.now)) from result }
{
    if let Some(i) = first_in_block(blocks, from) {
        return Some(i);
    }
    let k = first_used(blocks, block_index::<B>(from) + 1)?;
    Some(first_of_block(blocks, k))
}

/// The last 1 below `end`.
pub fn last_one<B: BitBlock>(blocks: &[B], end: usize) -> Option<usize>
    requires each { All B.is_block blocks.now }
    requires fits { (i : ℕ) → value_at B.width (map B.number blocks.now) i ≡ true → i < 2 ^ 64 }
    ensures { FindsBefore (value_at B.width (map B.number blocks.now)) end result }
{
    if let Some(i) = last_in_block(blocks, end) {
        return Some(i);
    }
    let k = last_used(blocks, block_index::<B>(end))?;
    Some(last_of_block(blocks, k))
}

// The first 0 from `from` on in the block that it is in.
#[inline]
fn zero_in_block<B: BitBlock>(blocks: &[B], from: usize) -> Option<usize>
    requires in_bounds { from / B.width < length blocks.now }
    requires each { All B.is_block blocks.now }
    requires fits { (i : ℕ) → IsFirstFrom (λ j. not (value_at B.width (map B.number blocks.now) j)) from i → i < 2 ^ 64 }
    ensures { MatchOption result
        ((j : ℕ) → from ≤ j → j < from / B.width * B.width + B.width
        → not (value_at B.width (map B.number blocks.now) j) ≡ false)
        (IsFirstFrom (λ j. not (value_at B.width (map B.number blocks.now) j)) from) }
{
    let k = block_index::<B>(from);
    let zeros = with_zeros_below(block_not(block_at(blocks, k)), bit_index::<B>(from));
    if same(zeros, B::zero()) {
        return None;
    }
    let index = lowest_one(zeros);
    Some(k * B::bits() + index)
}

/// The first 0 at or above `from`; past the `len` values there are no ones.
pub fn first_zero<B: BitBlock>(blocks: &[B], len: usize, from: usize) -> usize
    requires packed { IsPacked B.width B.number B.is_block blocks.now len }
    requires within { from < len }
    ensures { IsFirstFrom (λ i. not (value_at B.width (map B.number blocks.now) i)) from result }
{
    if let Some(i) = zero_in_block(blocks, from) {
        return i;
    }
    for k in block_index::<B>(from) + 1..blocks.len() {
        if let Some(i) = zero_in_block(blocks, k * B::bits()) {
            return i;
        }
    }
    len
}
