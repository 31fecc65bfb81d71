// Where a merge first changes a list of blocks: where the list differs from what it becomes. Nothing is written.
ghost use Rattle.std.specs.Prelude.{◌≤◌, ◌↔◌, All, IfNone, IfSome, IsTrue, false, length, map};
ghost use Rattle.bit_blocks.specs.{BlockMerges.{except_at, merge_at, CanMerge, FindsDifference, Stay}, declared.block.merge.Merge.Merge};

use crate::block::BitBlock;
use crate::block::operation::{Operation, Union};
use crate::packed::differences::{are_others, differing_place};
use crate::packed::others::{Except, Merged, Others, Zeros};
use std::marker::PhantomData;

/// Where a group of blocks begins, from `start` on and before `end`, in which one changes by a merge with the
/// others, or `None` if none changes.
#[inline(always)]
pub fn changing_place<B: BitBlock, O: Operation, S: Others<B>>(
    blocks: &[B],
    others: S,
    start: usize,
    end: usize,
) -> Option<usize>
    requires can { CanMerge B.is_block blocks.now (S.count others) (S.are_blocks others) }
    requires forward { start ≤ end }
    requires in_others { end ≤ S.count others }
    ensures { FindsDifference B.width B.number start end (merge_at O.merge B.number blocks.now (S.digit others))
        blocks.now result }
{
    let merged = Merged {
        blocks,
        others,
        operation: PhantomData::<O>,
    };
    differing_place(blocks, merged, start, end)
}

/// Where the list begins to change when it is merged with the others: a group of blocks in which one changes, or
/// the end of the others. `None` if no block changes.
#[inline(always)]
pub fn first_change<B: BitBlock, O: Operation, S: Others<B>>(
    blocks: &[B],
    others: S,
) -> Option<usize>
    requires can { CanMerge B.is_block blocks.now (S.count others) (S.are_blocks others) }
    ensures within { IfSome result (λ start. start ≤ S.count others) }
    ensures stay { IfSome result (λ start. Stay O.merge B.width B.number 0 start (S.digit others) blocks.now) }
    ensures changes { IfSome result (λ start. Stay O.merge B.width B.number 0 (length blocks.now)
        (S.digit others) blocks.now → ⊥) }
    ensures none { IfNone result (Stay O.merge B.width B.number 0 (length blocks.now)
        (S.digit others) blocks.now) }
{
    let count = others.len();
    let found = changing_place::<B, O, S>(blocks, others, 0, count);
    if found.is_some() || stay_from::<B, O>(blocks, count) {
        return found;
    }
    Some(count)
}

// Whether the blocks from `start` on stay where they are merged with zeros. Only an intersection changes them: otherwise
// the compiler takes out the loop.
#[inline]
fn stay_from<B: BitBlock, O: Operation>(blocks: &[B], start: usize) -> bool
    requires each { All B.is_block blocks.now }
    requires within { start ≤ length blocks.now }
    ensures { IsTrue result ↔ Stay O.merge B.width B.number start (length blocks.now) (λ k j. false) blocks.now }
{
    let end = blocks.len();
    let merged = Merged {
        blocks,
        others: Zeros { count: end },
        operation: PhantomData::<O>,
    };
    are_others(blocks, merged, start, end - start)
}

/// Where the list begins to change by a union with the others without the ones of `except`. `None` if no block
/// changes. If `except` is shorter, the others are taken unchanged past its end.
pub fn first_change_past_except<B: BitBlock>(
    blocks: &[B],
    others: &[B],
    except: &[B],
) -> Option<usize>
    requires can { CanMerge B.is_block blocks.now (length others.now) (All B.is_block others.now) }
    requires except { All B.is_block except.now }
    ensures within { IfSome result (λ start. start ≤ length others.now) }
    ensures stay { IfSome result (λ start. Stay Merge.Union B.width B.number 0 start
        (except_at (map B.number others.now) (map B.number except.now)) blocks.now) }
    ensures changes { IfSome result (λ start. Stay Merge.Union B.width B.number 0 (length blocks.now)
        (except_at (map B.number others.now) (map B.number except.now)) blocks.now → ⊥) }
    ensures none { IfNone result (Stay Merge.Union B.width B.number 0 (length blocks.now)
        (except_at (map B.number others.now) (map B.number except.now)) blocks.now) }
{
    let apart = Except { others, except };
    let both = apart.len();
    let found = changing_place::<B, Union, Except<B>>(blocks, apart, 0, both);
    if found.is_some() {
        return found;
    }
    changing_place::<B, Union, &[B]>(blocks, others, both, others.len())
}
