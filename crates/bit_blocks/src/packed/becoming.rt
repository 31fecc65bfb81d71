// The blocks of a list become others, whatever these are.
ghost use Rattle.std.specs.Prelude.{◌<◌, ◌≤◌, All, length, map};
ghost use Rattle.bit_blocks.specs.BlockMerges.{except_at, CanMerge, HaveBecome};

use crate::block::BitBlock;
use crate::packed::access::put_in;
use crate::packed::others::{Except, Others, Zeros};

// The blocks from `start` to before `end` become the others of their indexes.
#[inline]
fn become_between<B: BitBlock, S: Others<B>>(blocks: &mut [B], others: S, start: usize, end: usize)
    requires can { CanMerge B.is_block blocks.old (S.count others) (S.are_blocks others) }
    requires forward { start ≤ end }
    requires in_others { start < end → end ≤ S.count others }
    ensures { HaveBecome B.width B.number B.is_block start end (S.digit others) blocks.old blocks.new }
{
    for k in start..end {
        put_in(blocks, k, others.block(k));
    }
}

/// The blocks from `start` on become the others without the ones of `except`, or 0 past their end. If `except` is
/// shorter, the others are taken unchanged past its end.
pub fn become_except<B: BitBlock>(blocks: &mut [B], others: &[B], except: &[B], start: usize)
    requires can { CanMerge B.is_block blocks.old (length others.now) (All B.is_block others.now) }
    requires except { All B.is_block except.now }
    requires from { start ≤ length others.now }
    ensures { HaveBecome B.width B.number B.is_block start (length blocks.old)
        (except_at (map B.number others.now) (map B.number except.now)) blocks.old blocks.new }
{
    let apart = Except { others, except };
    let both = apart.len().max(start);
    let end = blocks.len();
    become_between(blocks, apart, start, both);
    become_between(blocks, others, both, others.len());
    become_between(blocks, Zeros { count: end }, others.len(), end);
}
