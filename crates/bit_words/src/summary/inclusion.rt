// Whether the blocks of two lists merge to zeros, by their summaries: within one another, or apart.
ghost use Rattle.std.specs.Prelude.{◌≡◌, ℕ, ◌^◌, ◌<◌, ◌↔◌, All, IsTrue, map};
ghost use Rattle.bit_blocks.specs.{BlockMerges.MergesToFalse, declared.block.merge.Merge.Merge};
ghost use Rattle.bit_words.specs.{MergedOnes.merged_ones, Summary.IsStoredSummary};

use crate::summary::counts::{merged_len, ones_at_chunk};
use crate::summary::is_short;
use crate::summary::queries::first_blocks;
use bit_blocks::block::BitBlock;
use bit_blocks::block::operation::{Difference, Intersection, Operation};
use bit_blocks::packed::access::block_count;
use bit_blocks::packed::inclusion::{difference_is_zero, intersection_is_zero};

// Whether the lists, whose first chunks merge to zeros, do so as a whole. Passes over chunks of zeros by the summaries, and stops
// at the chunk that decides.
#[inline(never)]
fn merge_is_zero<B: BitBlock, O: Operation>(
    blocks: &[B],
    summary: &[B],
    others: &[B],
    other_summary: &[B],
) -> bool
    requires each { All B.is_block blocks.now }
    requires others { All B.is_block others.now }
    requires summary { IsStoredSummary B.width B.number B.is_block blocks.now summary.now }
    requires other_summary { IsStoredSummary B.width B.number B.is_block others.now other_summary.now }
    requires front { merged_ones O.merge B.width (map B.number blocks.now) (map B.number others.now) 0 B.width ≡ 0 }
    requires fits { (n : ℕ)
        → merged_ones O.merge B.width (map B.number blocks.now) (map B.number others.now) 0 n < 2 ^ 64 }
    ensures { IsTrue result ↔ MergesToFalse O.merge B.width (map B.number blocks.now) (map B.number others.now) }
{
    for q in 1..block_count::<B>(merged_len::<B, O>(blocks, others)) {
        if ones_at_chunk::<B, O>(blocks, summary, others, other_summary, q) != 0 {
            return false;
        }
    }
    true
}

// Whether each 1 of the blocks is one of the others.
#[inline]
pub(crate) fn difference_by_summaries<B: BitBlock>(
    blocks: &[B],
    summary: &[B],
    others: &[B],
    other_summary: &[B],
) -> bool
    requires each { All B.is_block blocks.now }
    requires others { All B.is_block others.now }
    requires summary { IsStoredSummary B.width B.number B.is_block blocks.now summary.now }
    requires other_summary { IsStoredSummary B.width B.number B.is_block others.now other_summary.now }
    requires fits { (n : ℕ)
        → merged_ones Merge.Difference B.width (map B.number blocks.now) (map B.number others.now) 0 n < 2 ^ 64 }
    ensures { IsTrue result
        ↔ MergesToFalse Merge.Difference B.width (map B.number blocks.now) (map B.number others.now) }
{
    if is_short::<B>(blocks.len()) {
        return difference_is_zero(blocks, others);
    }
    // Many sets are decided by their first blocks, which take less than a choice of a way.
    if !difference_is_zero(first_blocks(blocks).0, first_blocks(others).0) {
        return false;
    }
    merge_is_zero::<B, Difference>(blocks, summary, others, other_summary)
}

// Whether no 1 of the blocks is one of the others.
#[inline]
pub(crate) fn intersection_by_summaries<B: BitBlock>(
    blocks: &[B],
    summary: &[B],
    others: &[B],
    other_summary: &[B],
) -> bool
    requires each { All B.is_block blocks.now }
    requires others { All B.is_block others.now }
    requires summary { IsStoredSummary B.width B.number B.is_block blocks.now summary.now }
    requires other_summary { IsStoredSummary B.width B.number B.is_block others.now other_summary.now }
    requires fits { (n : ℕ)
        → merged_ones Merge.Intersection B.width (map B.number blocks.now) (map B.number others.now) 0 n < 2 ^ 64 }
    ensures { IsTrue result
        ↔ MergesToFalse Merge.Intersection B.width (map B.number blocks.now) (map B.number others.now) }
{
    if is_short::<B>(blocks.len().min(others.len())) {
        return intersection_is_zero(blocks, others);
    }
    if !intersection_is_zero(first_blocks(blocks).0, first_blocks(others).0) {
        return false;
    }
    merge_is_zero::<B, Intersection>(blocks, summary, others, other_summary)
}
