// A list of bits moved up or down in place. Each block is made of the two that its bits come from, and written once.
ghost use Rattle.std.specs.Prelude.{◌≡◌, ℕ, ◌+◌, ◌-◌, ◌*◌, ◌/◌, ◌^◌, ◌<◌, ◌&&◌, All, get_or, length, map, nat_le, nat_lt, vec_capacity};
ghost use Rattle.bit_blocks.specs.{Digits.is_one, Shifts.{IsMovedDown, IsMovedUp}, Storage.{value_at, IsPacked}, Written.WritesBlocks};

use crate::block::BitBlock;
use crate::block::operators::{block_or, shift_left, shift_right};
use crate::packed::access::{bit_index, block_at, block_index, clear_tail, put_in};
use crate::packed::nonzero::block_or_zero;

// The bits from bit `low` of block `k` on, as many as a block has; past the blocks they are 0.
#[inline]
fn block_from<B: BitBlock>(blocks: &[B], k: usize, low: usize) -> B
    requires within { low < B.width }
    requires next { k + 1 < 2 ^ 64 }
    requires each { All B.is_block blocks.now }
    ensures of_block { B.is_block result }
    ensures digits { (j : ℕ) → j < B.width
        → is_one (B.number result) j ≡ value_at B.width (map B.number blocks.now) (k * B.width + (low + j)) }
{
    let block = block_or_zero(blocks, k);
    if low == 0 {
        return block;
    }
    let next = block_or_zero(blocks, k + 1);
    let high = shift_left(next, B::bits() - low);
    block_or(shift_right(block, low), high)
}

// What block `k` becomes where the bits move up.
#[inline]
fn block_below<B: BitBlock>(blocks: &[B], k: usize, distance: usize) -> B
    requires in_bounds { k < length blocks.now }
    requires fits { k * B.width < 2 ^ 64 }
    requires each { All B.is_block blocks.now }
    ensures of_block { B.is_block result }
    ensures digits { IsMovedUp B.width (map B.number blocks.now) distance k (B.number result) }
{
    let start = k * B::bits();
    if distance <= start {
        let index = start - distance;
        return block_from(blocks, block_index::<B>(index), bit_index::<B>(index));
    }
    let missing = distance - start;
    if missing < B::bits() {
        return shift_left(block_at(blocks, 0), missing);
    }
    B::zero()
}

// Each bit moves up by `distance`. From the last block on, so that none is written before it is read.
fn move_up<B: BitBlock>(blocks: &mut [B], distance: usize)
    requires fits { (k : ℕ) → k < length blocks.old → k * B.width < 2 ^ 64 }
    requires each { All B.is_block blocks.old }
    ensures moved { (k : ℕ) → k < length blocks.old
        → IsMovedUp B.width (map B.number blocks.old) distance k (get_or (map B.number blocks.new) k 0) }
    ensures written { WritesBlocks B.is_block blocks.old blocks.new }
{
    for k in (0..blocks.len()).rev() {
        let block = block_below(blocks, k, distance);
        put_in(blocks, k, block);
    }
}

// Each bit moves down by `distance`. From the first block on, so that none is written before it is read.
fn move_down<B: BitBlock>(blocks: &mut [B], distance: usize)
    requires fits { length blocks.old + distance / B.width < 2 ^ 64 }
    requires each { All B.is_block blocks.old }
    ensures moved { (k : ℕ) → k < length blocks.old
        → IsMovedDown B.width (map B.number blocks.old) distance k (get_or (map B.number blocks.new) k 0) }
    ensures written { WritesBlocks B.is_block blocks.old blocks.new }
{
    let whole = block_index::<B>(distance);
    let low = bit_index::<B>(distance);
    for k in 0..blocks.len() {
        let block = block_from(blocks, k + whole, low);
        put_in(blocks, k, block);
    }
}

/// Moves each bit of a list of `len` up by `distance`. Those that pass the end are lost, and zeros enter at the
/// start. Each block is written once, except the last, whose bits past the end are then cleared.
///
/// ```
/// // The bits at 1 and 8 of ten, over blocks of 8 bits.
/// shift_bits_up(&mut blocks, 10, 1);
/// assert_eq!(blocks.as_slice(), [0b100, 0b10].as_slice());
/// ```
pub fn shift_bits_up<B: BitBlock>(blocks: &mut Vec<B>, len: usize, distance: usize)
    requires { IsPacked B.width B.number B.is_block blocks.old.items len }
    ensures values { (i : ℕ) → value_at B.width (map B.number blocks.new.items) i ≡ (nat_lt i len
        && (nat_le distance i && value_at B.width (map B.number blocks.old.items) (i - distance))) }
    ensures packed { IsPacked B.width B.number B.is_block blocks.new.items len }
    ensures capacity { vec_capacity blocks.new ≡ vec_capacity blocks.old }
{
    move_up(blocks.as_mut_slice(), distance);
    clear_tail(blocks, len);
}

/// Moves each bit of a list of `len` down by `distance`. The first `distance` are lost, and zeros enter at the end.
/// Each block is written once.
///
/// ```
/// // The bits at 1 and 8 of ten, over blocks of 8 bits.
/// shift_bits_down(&mut blocks, 10, 1);
/// assert_eq!(blocks.as_slice(), [0b1000_0001, 0].as_slice());
/// ```
pub fn shift_bits_down<B: BitBlock>(blocks: &mut Vec<B>, len: usize, distance: usize)
    requires { IsPacked B.width B.number B.is_block blocks.old.items len }
    ensures values { (i : ℕ) → value_at B.width (map B.number blocks.new.items) i
        ≡ value_at B.width (map B.number blocks.old.items) (i + distance) }
    ensures packed { IsPacked B.width B.number B.is_block blocks.new.items len }
    ensures capacity { vec_capacity blocks.new ≡ vec_capacity blocks.old }
{
    move_down(blocks.as_mut_slice(), distance);
}
