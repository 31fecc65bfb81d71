// The first 1 of a list of bits, found or removed by the first nonzero block of its summary.
ghost use Rattle.std.specs.Prelude.{◌≡◌, ℕ, ◌^◌, ◌<◌, All, map, true, false, vec_capacity};
ghost use Rattle.bit_blocks.specs.{Mismatches.IsFirstNonzeroBlock, Searches.IsFirstFrom, Storage.{value_at, WritesInPlace, WritesValue}};
ghost use Rattle.bit_words.specs.Summary.{IsSummary};

use crate::summary::is_nonzero;
use bit_blocks::block::BitBlock;
use bit_blocks::block::lowest::take_lowest_one;
use bit_blocks::packed::access::{block_at, put_block};
use bit_blocks::packed::searching::{first_of_block, take_first_of_block};

// The first 1.
#[inline]
pub(crate) fn first_of_chunk<B: BitBlock>(blocks: &[B], summary: &[B], chunk: usize) -> usize
    requires each { All B.is_block blocks.now }
    requires summary { IsSummary B.width B.number B.is_block blocks.now summary.now }
    requires first { IsFirstNonzeroBlock (map B.number summary.now) 0 chunk }
    requires fits { (i : ℕ) → value_at B.width (map B.number blocks.now) i ≡ true → i < 2 ^ 64 }
    ensures { IsFirstFrom (value_at B.width (map B.number blocks.now)) 0 result }
{
    first_of_block(blocks, first_of_block(summary, chunk))
}

// Removes the first 1. No branch depends on whether its block becomes 0: in a sparse set that is random.
#[inline]
pub(crate) fn take_first_of_chunk<B: BitBlock>(
    blocks: &mut Vec<B>,
    summary: &mut Vec<B>,
    chunk: usize,
) -> usize
    requires each { All B.is_block blocks.old.items }
    requires summary { IsSummary B.width B.number B.is_block blocks.old.items summary.old.items }
    requires first { IsFirstNonzeroBlock (map B.number summary.old.items) 0 chunk }
    requires fits { (i : ℕ) → value_at B.width (map B.number blocks.old.items) i ≡ true → i < 2 ^ 64 }
    ensures first { IsFirstFrom (value_at B.width (map B.number blocks.old.items)) 0 result }
    ensures value { WritesValue B.width (map B.number blocks.old.items) (map B.number blocks.new.items) result false }
    ensures in_place { WritesInPlace B.is_block blocks.old blocks.new }
    ensures summary { IsSummary B.width B.number B.is_block blocks.new.items summary.new.items }
    ensures capacity { vec_capacity summary.new ≡ vec_capacity summary.old }
{
    let used = block_at(summary, chunk);
    let mut rest = used;
    let k = chunk * B::bits() + take_lowest_one(&mut rest);
    let (i, block) = take_first_of_block(blocks, k);
    let left = if is_nonzero(block) { used } else { rest };
    put_block(summary, chunk, left);
    i
}
