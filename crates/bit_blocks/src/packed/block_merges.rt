// Merges of the blocks of a list with others, each by the digits of every block. Summaries are merged in `summary`.
ghost use Rattle.std.specs.Prelude.{◌≡◌, ◌+◌, ◌<◌, ◌≤◌, All, false, get_or, length, map};
ghost use Rattle.bit_blocks.specs.{BlockMerges.{except_at, CanMerge, HasMerged}, declared.block.merge.Merge.Merge};

use crate::block::BitBlock;
use crate::block::operation::{Operation, Union};
use crate::packed::access::{block_at, put_in};
use crate::packed::others::{Except, Others};

/// Block `k` becomes its merge with the other of its index, and is returned.
#[inline]
pub fn merge_block<B: BitBlock, O: Operation, S: Others<B>>(
    blocks: &mut [B],
    others: S,
    k: usize,
) -> B
    requires can { CanMerge B.is_block blocks.old (S.count others) (S.are_blocks others) }
    requires in_others { k < S.count others }
    ensures has { HasMerged O.merge B.width B.number B.is_block k (k + 1) (S.digit others) blocks.old blocks.new }
    ensures of_block { B.is_block result }
    ensures of_number { B.number result ≡ get_or (map B.number blocks.new) k 0 }
{
    let merged = O::of_blocks(block_at(blocks, k), others.block(k));
    put_in(blocks, k, merged);
    merged
}

/// The blocks from `start` to before `end` become their merges with the others of their indexes.
#[inline]
pub fn merge_between<B: BitBlock, O: Operation, S: Others<B>>(
    blocks: &mut [B],
    others: S,
    start: usize,
    end: usize,
)
    requires can { CanMerge B.is_block blocks.old (S.count others) (S.are_blocks others) }
    requires forward { start ≤ end }
    requires in_others { start < end → end ≤ S.count others }
    ensures has { HasMerged O.merge B.width B.number B.is_block start end (S.digit others) blocks.old blocks.new }
{
    for k in start..end {
        let _merged = merge_block::<B, O, S>(blocks, others, k);
    }
}

/// Each of the blocks from `start` on becomes its merge with a block of zeros, and those before them stay.
/// Only an intersection changes them: otherwise the compiler takes out the loop.
pub fn merge_rest<B: BitBlock, O: Operation>(blocks: &mut [B], start: usize)
    requires within { start ≤ length blocks.old }
    requires each { All B.is_block blocks.old }
    ensures has { HasMerged O.merge B.width B.number B.is_block start (length blocks.old) (λ k j. false) blocks.old
        blocks.new }
{
    let zero = B::zero();
    for k in start..blocks.len() {
        let merged = O::of_blocks(block_at(blocks, k), zero);
        put_in(blocks, k, merged);
    }
}

/// Each of the blocks from `start` on becomes its merge with the other of its index, or with zeros where there is
/// none.
pub fn merge_from<B: BitBlock, O: Operation, S: Others<B>>(
    blocks: &mut [B],
    others: S,
    start: usize,
)
    requires can { CanMerge B.is_block blocks.old (S.count others) (S.are_blocks others) }
    requires from { start ≤ S.count others }
    ensures has { HasMerged O.merge B.width B.number B.is_block start (length blocks.old) (S.digit others) blocks.old
        blocks.new }
{
    let count = others.len();
    merge_between::<B, O, S>(blocks, others, start, count);
    merge_rest::<B, O>(blocks, count);
}

/// The blocks from `start` on become their unions with the others, except for the ones of `except`. Where `except` is the
/// shorter one, the others are merged alone past its end.
#[inline]
pub fn unite_except<B: BitBlock>(blocks: &mut [B], others: &[B], except: &[B], start: usize)
    requires can { CanMerge B.is_block blocks.old (length others.now) (All B.is_block others.now) }
    requires except { All B.is_block except.now }
    requires from { start ≤ length others.now }
    ensures { HasMerged Merge.Union B.width B.number B.is_block start (length blocks.old)
        (except_at (map B.number others.now) (map B.number except.now)) blocks.old blocks.new }
{
    let apart = Except { others, except };
    let both = apart.len().max(start);
    merge_between::<B, Union, Except<B>>(blocks, apart, start, both);
    merge_between::<B, Union, &[B]>(blocks, others, both, others.len());
}
