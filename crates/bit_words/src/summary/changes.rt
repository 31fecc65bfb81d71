// Merges of the blocks of a list that say whether one changed. The list is looked at up to the first blocks that change, and
// merged from there on.
ghost use Rattle.std.specs.Prelude.{◌≡◌, ◌+◌, ◌*◌, ◌<◌, ◌≤◌, ◌↔◌, All, IfNone, IfSome, false, length, map, min};
ghost use Rattle.bit_blocks.specs.BlockMerges.{both_at, other_at, AreKept, CanMerge, HasMerged, Stay};
ghost use Rattle.bit_blocks.specs.declared.block.merge.Merge.{Merge};
ghost use Rattle.bit_words.specs.Summary.{IsSummary, IsStoredSummary};

use crate::summary::is_short;
use crate::summary::merges::touched::changes_touched;
use crate::summary::merges::{chunks_to_merge, is_dense, merge_long, merge_stored, touched_at};
use crate::summary::queries::has_few;
use crate::summary::summarized::{Common, Listed, Summarized};
use bit_blocks::block::BitBlock;
use bit_blocks::block::merge::Merge;
use bit_blocks::block::operation::{Difference, Intersection, Operation, Symmetric, Union};
use bit_blocks::packed::access::block_index;
use bit_blocks::packed::block_merges::merge_from;
use bit_blocks::packed::changes::{changing_place, first_change};

// Whether a block of chunk `q` changes by the merge with the others. Reads no block if the summaries say that none
// does.
#[inline]
fn changes_chunk<B: BitBlock, O: Operation, S: Summarized<B>>(
    blocks: &[B],
    summary: &[B],
    others: S,
    q: usize,
) -> bool
    requires can { CanMerge B.is_block blocks.now (S.count others) (S.are_blocks others) }
    requires summaries { S.are_summarized others }
    requires in_summary { q < length summary.now }
    requires summary { IsSummary B.width B.number B.is_block blocks.now summary.now }
    ensures { (result ≡ false)
        ↔ Stay O.merge B.width B.number (q * B.width) ((q + 1) * B.width) (S.digit others) blocks.now }
{
    let touched = touched_at::<B, O, S>(blocks, summary, others, q);
    if has_few(touched) || block_index::<B>(others.len()) <= q {
        return changes_touched::<B, O, S>(blocks, others, q, touched);
    }
    let start = q * B::bits();
    changing_place::<B, O, S>(blocks, others, start, start + B::bits()).is_some()
}

// Where a long list begins to change when it is merged with the others: a chunk in which a block changes. `None` if
// none does. If most blocks of each chunk may change, groups of them are read.
#[inline(never)]
fn first_change_long<B: BitBlock, O: Operation, S: Summarized<B>>(
    blocks: &[B],
    summary: &[B],
    others: S,
) -> Option<usize>
    requires can { CanMerge B.is_block blocks.now (S.count others) (S.are_blocks others) }
    requires summaries { S.are_summarized others }
    requires summary { IsSummary B.width B.number B.is_block blocks.now summary.now }
    ensures within { IfSome result (λ start. start ≤ S.count others) }
    ensures stay { IfSome result (λ start. Stay O.merge B.width B.number 0 start (S.digit others) blocks.now) }
    ensures changes { IfSome result (λ start. Stay O.merge B.width B.number 0 (length blocks.now)
        (S.digit others) blocks.now → ⊥) }
    ensures none { IfNone result (Stay O.merge B.width B.number 0 (length blocks.now)
        (S.digit others) blocks.now) }
{
    if is_dense::<B, O, S>(blocks, summary, others) {
        return first_change::<B, O, S>(blocks, others);
    }
    for q in 0..chunks_to_merge::<B, O, S>(blocks, summary, others) {
        if changes_chunk::<B, O, S>(blocks, summary, others, q) {
            return Some(others.len().min(q * B::bits()));
        }
    }
    None
}

// The merge of a long list, and whether a block changed.
#[inline(never)]
fn change_stored<B: BitBlock, O: Operation>(
    blocks: &mut [B],
    summary: &mut [B],
    others: &[B],
    other_summary: &[B],
) -> bool
    requires can { CanMerge B.is_block blocks.old (length others.now) (All B.is_block others.now) }
    requires summary { IsSummary B.width B.number B.is_block blocks.old summary.old }
    requires other_summary { IsStoredSummary B.width B.number B.is_block others.now other_summary.now }
    ensures has { HasMerged O.merge B.width B.number B.is_block 0 (length blocks.old)
        (other_at (map B.number others.now)) blocks.old blocks.new }
    ensures kept { (result ≡ false) ↔ AreKept (map B.number blocks.old) (map B.number blocks.new) }
    ensures summary { IsSummary B.width B.number B.is_block blocks.new summary.new }
    ensures summary_len { length summary.new ≡ length summary.old }
{
    let list = Listed {
        blocks: others,
        summary: other_summary,
    };
    let Some(start) = first_change_long::<B, O, Listed<B>>(blocks, summary, list) else {
        return false;
    };
    merge_stored::<B, O>(blocks, summary, others, other_summary, start);
    true
}

// The merge, and whether a block changed.
#[inline(always)]
fn change_by<B: BitBlock, O: Operation>(
    blocks: &mut [B],
    summary: &mut [B],
    others: &[B],
    other_summary: &[B],
) -> bool
    requires can { CanMerge B.is_block blocks.old (length others.now) (All B.is_block others.now) }
    requires summary { IsStoredSummary B.width B.number B.is_block blocks.old summary.old }
    requires other_summary { IsStoredSummary B.width B.number B.is_block others.now other_summary.now }
    ensures has { HasMerged O.merge B.width B.number B.is_block 0 (length blocks.old)
        (other_at (map B.number others.now)) blocks.old blocks.new }
    ensures kept { (result ≡ false) ↔ AreKept (map B.number blocks.old) (map B.number blocks.new) }
    ensures summary { IsStoredSummary B.width B.number B.is_block blocks.new summary.new }
    ensures summary_len { length summary.new ≡ length summary.old }
{
    if !is_short::<B>(blocks.len()) {
        return change_stored::<B, O>(blocks, summary, others, other_summary);
    }
    match first_change::<B, O, &[B]>(blocks, others) {
        None => false,
        Some(start) => {
            merge_from::<B, O, &[B]>(blocks, others, start);
            true
        }
    }
}

// The merge that is named, and whether a block changed. Here the operation becomes a type.
#[inline(always)]
pub(crate) fn change_named<B: BitBlock>(
    blocks: &mut [B],
    summary: &mut [B],
    others: &[B],
    other_summary: &[B],
    merge: Merge,
) -> bool
    requires can { CanMerge B.is_block blocks.old (length others.now) (All B.is_block others.now) }
    requires summary { IsStoredSummary B.width B.number B.is_block blocks.old summary.old }
    requires other_summary { IsStoredSummary B.width B.number B.is_block others.now other_summary.now }
    ensures has { HasMerged merge B.width B.number B.is_block 0 (length blocks.old)
        (other_at (map B.number others.now)) blocks.old blocks.new }
    ensures kept { (result ≡ false) ↔ AreKept (map B.number blocks.old) (map B.number blocks.new) }
    ensures summary { IsStoredSummary B.width B.number B.is_block blocks.new summary.new }
    ensures summary_len { length summary.new ≡ length summary.old }
{
    match merge {
        Merge::Union => change_by::<B, Union>(blocks, summary, others, other_summary),
        Merge::Intersection => change_by::<B, Intersection>(blocks, summary, others, other_summary),
        Merge::Difference => change_by::<B, Difference>(blocks, summary, others, other_summary),
        Merge::Symmetric => change_by::<B, Symmetric>(blocks, summary, others, other_summary),
    }
}

// The merge of a long list, and whether a block changed.
#[inline(never)]
pub(crate) fn change_long<B: BitBlock, O: Operation, S: Summarized<B>>(
    blocks: &mut [B],
    summary: &mut [B],
    others: S,
) -> bool
    requires can { CanMerge B.is_block blocks.old (S.count others) (S.are_blocks others) }
    requires summaries { S.are_summarized others }
    requires summary { IsSummary B.width B.number B.is_block blocks.old summary.old }
    ensures has { HasMerged O.merge B.width B.number B.is_block 0 (length blocks.old) (S.digit others)
        blocks.old blocks.new }
    ensures kept { (result ≡ false) ↔ AreKept (map B.number blocks.old) (map B.number blocks.new) }
    ensures summary { IsSummary B.width B.number B.is_block blocks.new summary.new }
    ensures summary_len { length summary.new ≡ length summary.old }
{
    let Some(start) = first_change_long::<B, O, S>(blocks, summary, others) else {
        return false;
    };
    merge_long::<B, O, S>(blocks, summary, others, start);
    true
}

// The union with what two lists have in common, and whether a block changed.
pub(crate) fn unite_common<B: BitBlock>(
    blocks: &mut [B],
    summary: &mut [B],
    common: Common<B>,
) -> bool
    requires can { CanMerge B.is_block blocks.old
        (min (length common.first.blocks.now) (length common.second.blocks.now))
        (All B.is_block common.first.blocks.now × All B.is_block common.second.blocks.now) }
    requires summary { IsStoredSummary B.width B.number B.is_block blocks.old summary.old }
    requires first_summary { IsStoredSummary B.width B.number B.is_block
        common.first.blocks.now common.first.summary.now }
    requires second_summary { IsStoredSummary B.width B.number B.is_block
        common.second.blocks.now common.second.summary.now }
    ensures has { HasMerged Merge.Union B.width B.number B.is_block 0 (length blocks.old)
        (both_at (map B.number common.entry.first.blocks.now) (map B.number common.entry.second.blocks.now))
        blocks.old blocks.new }
    ensures kept { (result ≡ false) ↔ AreKept (map B.number blocks.old) (map B.number blocks.new) }
    ensures summary { IsStoredSummary B.width B.number B.is_block blocks.new summary.new }
    ensures summary_len { length summary.new ≡ length summary.old }
{
    if is_short::<B>(blocks.len()) {
        let Some(start) = first_change::<B, Union, Common<B>>(blocks, common) else {
            return false;
        };
        merge_from::<B, Union, Common<B>>(blocks, common, start);
        return true;
    }
    change_long::<B, Union, Common<B>>(blocks, summary, common)
}
