// The bytes of a set, copied out: a bit of a byte for each of eight numbers.
ghost use Rattle.std.specs.Prelude.{◌≡◌, ℕ, ◌+◌, ◌*◌, ◌-◌, ◌/◌, ◌%◌, ◌<◌, ◌≤◌, drop, get_or, length, min, slice_index};
ghost use Rattle.bit_blocks.specs.{Bits.blocks_for, Digits.is_one};
ghost use Rattle.bit_set.specs.Sets.{elements, has};
ghost use Rattle.c_handles.specs.{Copies.FillsFront, Handed.IsAt};
ghost use Rattle.bit_set_c.specs.Block.{width};

use crate::block::{Block, WIDTH};
use crate::blocks::blocks_from;
use crate::handed::Shared;
use bit_set::bit_vec::block_or_zero;
use bit_set::{BitBlock, BitSet};

const STEP: usize = WIDTH / 8;

// Writes some bytes of a block, from byte `start` of it on, at a place.
#[inline(always)]
fn put_bytes(block: Block, start: usize, bytes: &mut [u8], at: usize, count: usize)
    requires within { start + count ≤ width / 8 }
    requires fits { at + count ≤ length bytes.old }
    ensures digits { (p j : ℕ) → p < count → j < 8
        → is_one (slice_index bytes.new (at + p)) j ≡ is_one block (8 * (start + p) + j) }
    ensures before { (k : ℕ) → k < at → slice_index bytes.new k ≡ slice_index bytes.old k }
    ensures others { drop (at + count) bytes.new ≡ drop (at + count) bytes.old }
{
    for p in 0..count {
        bytes[at + p] = (block.shift_right(8 * (start + p)) % 256) as u8;
    }
}

// Writes all bytes of some blocks at a place. The compiler writes those of a block at once.
fn put_whole(blocks: &[Block], bytes: &mut [u8], at: usize)
    requires fits { at + width / 8 * length blocks.now ≤ length bytes.old }
    ensures digits { (p j : ℕ) → p < width / 8 * length blocks.now → j < 8 → is_one (slice_index bytes.new (at + p)) j
        ≡ is_one (get_or blocks.now (p / (width / 8)) 0) (8 * (p % (width / 8)) + j) }
    ensures before { (k : ℕ) → k < at → slice_index bytes.new k ≡ slice_index bytes.old k }
    ensures others { drop (at + width / 8 * length blocks.now) bytes.new
        ≡ drop (at + width / 8 * length blocks.now) bytes.old }
{
    for k in 0..blocks.len() {
        put_bytes(blocks[k], 0, bytes, at + STEP * k, STEP);
    }
}

// Writes the bytes of some blocks, from byte `from` on: the rest of the block that it is in, whole blocks, and the front of
// the next one.
fn put_range(blocks: &[Block], from: usize, bytes: &mut [u8], count: usize)
    requires within { from + count ≤ width / 8 * length blocks.now }
    requires fits { count ≤ length bytes.old }
    ensures digits { (q j : ℕ) → q < count → j < 8 → is_one (slice_index bytes.new q) j
        ≡ is_one (get_or blocks.now ((from + q) / (width / 8)) 0) (8 * ((from + q) % (width / 8)) + j) }
    ensures others { drop count bytes.new ≡ drop count bytes.old }
{
    let front = ((STEP - from % STEP) % STEP).min(count);
    let whole = (count - front) / STEP;
    let next = from.div_ceil(STEP);
    let done = front + STEP * whole;
    let first = block_or_zero(blocks, from / STEP);
    let last = block_or_zero(blocks, next + whole);
    put_bytes(first, from % STEP, bytes, 0, front);
    put_whole(&blocks[next..next + whole], bytes, front);
    put_bytes(last, 0, bytes, done, count - done);
}

fn copy_bytes(set: &BitSet<Block>, from: usize, bytes: &mut [u8]) -> usize
    ensures fills { FillsFront result (blocks_for 8 (length set.now.values) - from) bytes.old bytes.new }
    ensures members { (q j : ℕ) → q < result → j < 8 → is_one (slice_index bytes.new q) j
        ≡ has (elements set.now.values) (8 * (from + q) + j) }
{
    let all = set.get_ref().len().div_ceil(8);
    let from = from.min(all);
    let count = bytes.len().min(all - from);
    put_range(blocks_from(set, 0), from, bytes, count);
    count
}

// Reverses the bits of each of the first bytes.
fn turn_bytes(bytes: &mut [u8], count: usize)
    requires { count ≤ length bytes.old }
    ensures turned { (q j : ℕ) → q < count → j < 8
        → is_one (slice_index bytes.new q) (7 - j) ≡ is_one (slice_index bytes.old q) j }
    ensures others { drop count bytes.new ≡ drop count bytes.old }
{
    for q in 0..count {
        bytes[q] = bytes[q].reverse_bits();
    }
}

/// Copies the bytes from an index on, as many as fit, and returns how many: a bit for each number below the length,
/// the first of a byte at its highest bit. Bits past the length are zeros.
#[unsafe(no_mangle)]
pub extern "C" fn bit_set_copy_bytes(set: &mut Shared, from: usize, bytes: &mut [u8]) -> usize
    requires here { IsAt set.ref_ptr set.old.at }
    ensures fills { FillsFront result (blocks_for 8 (length set.old.bits.values) - from) bytes.old bytes.new }
    ensures members { (q j : ℕ) → q < result → j < 8 → is_one (slice_index bytes.new q) (7 - j)
        ≡ has (elements set.old.bits.values) (8 * (from + q) + j) }
    ensures kept { set.new ≡ set.old }
{
    let count = copy_bytes(set.get(), from, bytes);
    turn_bytes(bytes, count);
    count
}

/// Copies the bytes from an index on as `bit_set_copy_bytes` does, but with the first number of a byte at its
/// lowest bit.
#[unsafe(no_mangle)]
pub extern "C" fn bit_set_copy_bytes_lsb(set: &mut Shared, from: usize, bytes: &mut [u8]) -> usize
    requires here { IsAt set.ref_ptr set.old.at }
    ensures fills { FillsFront result (blocks_for 8 (length set.old.bits.values) - from) bytes.old bytes.new }
    ensures members { (q j : ℕ) → q < result → j < 8 → is_one (slice_index bytes.new q) j
        ≡ has (elements set.old.bits.values) (8 * (from + q) + j) }
    ensures kept { set.new ≡ set.old }
{
    copy_bytes(set.get(), from, bytes)
}
