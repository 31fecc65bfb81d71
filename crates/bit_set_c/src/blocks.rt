// The blocks of a set, lent for reading, and copied out and in.
ghost use Rattle.std.specs.Prelude.{◌≡◌, ◌≢◌, ℕ, ◌+◌, ◌*◌, ◌^◌, ◌<◌, ◌-◌, ◌++◌, false, drop, get_or, length, min, replicate, slice_index, OnErr, OnOk};
ghost use Rattle.bit_blocks.specs.{Bits.blocks_of, Digits.is_one, Ranges.in_range};
ghost use Rattle.bit_words.specs.Growth.{Grows};
ghost use Rattle.bit_set.specs.{Ranges.span_end, Sets.{elements, has}, Sizes.Lengthens};
ghost use Rattle.c_handles.specs.{Answers.done, Copies.CopiesFront, Handed.IsAt};
ghost use Rattle.bit_set_c.specs.Block.{width};

use crate::block::{Block, WIDTH};
use crate::handed::{Exclusive, Shared};
use bit_set::BitSet;
use bit_words::bit_vec::BitVec;

#[tactic(auto, using(crate::proofs::BlockNumbers::numbers_are_blocks))]
fn all_blocks(set: &BitSet<Block>) -> &[Block]
    ensures { result.now ≡ blocks_of width set.now.values }
{
    set.get_ref().storage()
}

/// Lends the blocks for reading, for as long as the set is lent.
#[unsafe(no_mangle)]
pub extern "C" fn bit_set_lend_blocks<'a>(set: &'a mut Shared, lent: &mut &'a [Block])
    requires here { IsAt set.ref_ptr set.old.at }
    ensures blocks { lent.new.now ≡ blocks_of width set.old.bits.values }
{
    *lent = all_blocks(set.get());
}

// The blocks from one on.
#[tactic(auto, using(crate::proofs::BlockNumbers::numbers_are_blocks, std::proofs::lemmas::List::drop_all))]
pub(crate) fn blocks_from(set: &BitSet<Block>, from: usize) -> &[Block]
    ensures { result.now ≡ drop from (blocks_of width set.now.values) }
{
    let blocks = set.get_ref().storage();
    if from > blocks.len() {
        return &[];
    }
    &blocks[from..]
}

fn copy_front(from: &[Block], to: &mut [Block]) -> usize
    ensures { CopiesFront result from.now to.old to.new }
{
    let count = from.len().min(to.len());
    to[..count].copy_from_slice(&from[..count]);
    count
}

/// Copies the blocks from an index on, as many as fit, and returns how many.
#[unsafe(no_mangle)]
pub extern "C" fn bit_set_copy_blocks(set: &mut Shared, from: usize, blocks: &mut [Block]) -> usize
    requires here { IsAt set.ref_ptr set.old.at }
    ensures copied { CopiesFront result (drop from (blocks_of width set.old.bits.values)) blocks.old blocks.new }
    ensures kept { set.new ≡ set.old }
{
    copy_front(blocks_from(set.get(), from), blocks)
}

// Makes the list at least `len` long, and returns whether memory sufficed.
fn lengthen(bits: &mut BitVec<Block>, len: usize) -> bool
    ensures values { OnOk (done result) (bits.new.values
        ≡ bits.old.values ++ replicate (len - length bits.old.values) false) }
    ensures grows { Grows len (done result) bits.old bits.new }
{
    let old = bits.len();
    // Only for the proof: the capacity holds the list.
    prove!(old <= bits.capacity());
    len <= old || bits.grow(len - old, false).is_ok()
}

// Makes the blocks from one on those, and returns whether there was memory for it and a `usize` for the length.
fn put_blocks(bits: &mut BitVec<Block>, from: usize, blocks: &[Block]) -> bool
    ensures blocks { OnOk (done result) ((k j : ℕ) → k < length blocks.now → j < width
        → get_or bits.new.values ((from + k) * width + j) false ≡ is_one (slice_index blocks.now k) j) }
    ensures others { OnOk (done result) ((i : ℕ)
        → in_range (from * width) ((from + length blocks.now) * width) i ≡ false
        → get_or bits.new.values i false ≡ get_or bits.old.values i false) }
    ensures too_long { usize.MAX < span_end (from * width) ((from + length blocks.now) * width) → result ≡ false }
    ensures grows { Lengthens (span_end (from * width) ((from + length blocks.now) * width)) (done result)
        bits.old bits.new }
{
    // Only for the proof: the capacity holds the list, and is a `usize`.
    prove!(bits.len() <= bits.capacity());
    if blocks.is_empty() {
        return true;
    }
    let Some(end) = from
        .checked_add(blocks.len())
        .and_then(|end| end.checked_mul(WIDTH))
    else {
        return false;
    };
    if !lengthen(bits, end) {
        return false;
    }
    bits.put_blocks(from, blocks);
    true
}

/// Replaces the blocks from an index on by the given ones, and returns whether it could: nothing changes if memory
/// runs out, or the length would be above `usize::MAX`. Copies them all at once, and then reads each once.
#[tactic(auto, using(set_algebra::proofs::MemberLemmas::reads))]
#[unsafe(no_mangle)]
pub extern "C" fn bit_set_put_blocks(set: &mut Exclusive, from: usize, blocks: &[Block]) -> bool
    requires here { IsAt set.ref_ptr set.old.at }
    ensures blocks { OnOk (done result) ((k j : ℕ) → k < length blocks.now → j < width
        → has (elements set.new.bits.values) ((from + k) * width + j) ≡ is_one (slice_index blocks.now k) j) }
    ensures others { OnOk (done result) ((n : ℕ)
        → in_range (from * width) ((from + length blocks.now) * width) n ≡ false
        → has (elements set.new.bits.values) n ≡ has (elements set.old.bits.values) n) }
    ensures too_long { usize.MAX < span_end (from * width) ((from + length blocks.now) * width) → result ≡ false }
    ensures grows { Lengthens (span_end (from * width) ((from + length blocks.now) * width)) (done result)
        set.old.bits set.new.bits }
    ensures place { set.new.at ≡ set.old.at }
{
    put_blocks(set.get().get_mut(), from, blocks)
}
