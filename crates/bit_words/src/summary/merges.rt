// Merges of the blocks of two lists that have summaries. A merge goes by the summaries: of a chunk, the blocks that a block of
// the summary is about, it reads what one of them says may change.
ghost use Rattle.std.specs.Prelude.{◌≡◌, ℕ, ◌+◌, ◌*◌, ◌/◌, ◌<◌, ◌≤◌, All, false, get_or, length, map, true};
ghost use Rattle.bit_blocks.specs.{Bits.blocks_for, BlockMerges.{other_at, CanMerge, HasMerged, Stay}, Digits.is_one, Merges.merge_of_values, Storage.is_used, declared.block.merge.Merge.Merge};
ghost use Rattle.bit_words.specs.Summary.{IsSummary, IsStoredSummary, SaysUsed};

use crate::summary::counts::keeps_first;
use crate::summary::merges::touched::{merge_touched, touched_by};
use crate::summary::queries::{SAMPLED, has_few, saved_blocks};
use crate::summary::summarized::{Listed, Summarized};
use crate::summary::{is_nonzero, is_short, used_from};
use bit_blocks::block::BitBlock;
use bit_blocks::block::masks::with_one_if;
use bit_blocks::block::merge::Merge;
use bit_blocks::block::operation::{Difference, Intersection, Operation, Symmetric, Union};
use bit_blocks::block::operators::{block_or, shift_left};
use bit_blocks::packed::access::{block_at, block_count, block_index, put_in};
use bit_blocks::packed::block_merges::{merge_between, merge_block, merge_from};
use bit_blocks::packed::groups::LONG_GROUP;
use bit_blocks::packed::others::Others;

pub(crate) mod in_chunk;
pub(crate) mod touched;

// The `count` blocks from `start` on become their merges with the others of their indexes. Returns which of them
// are not 0 then, the first of them at the lowest bit. The compiler makes vector code of this where it knows the
// count.
#[inline]
fn merge_group<B: BitBlock, O: Operation, S: Others<B>>(
    blocks: &mut [B],
    others: S,
    start: usize,
    count: usize,
) -> B
    requires can { CanMerge B.is_block blocks.old (S.count others) (S.are_blocks others) }
    requires in_others { start + count ≤ S.count others }
    requires within { count ≤ B.width }
    ensures has { HasMerged O.merge B.width B.number B.is_block start (start + count) (S.digit others)
        blocks.old blocks.new }
    ensures says { SaysUsed B.width B.number B.is_block blocks.new start count result }
{
    let mut digits = B::zero();
    for j in 0..count {
        let merged = merge_block::<B, O, S>(blocks, others, start + j);
        digits = with_one_if(digits, j, is_nonzero(merged));
    }
    digits
}

// Groups of blocks from `start` on become their merges, with what `merge_group` returns of each in its place.
#[inline]
fn merge_long_groups<B: BitBlock, O: Operation, S: Others<B>>(
    blocks: &mut [B],
    others: S,
    start: usize,
    groups: usize,
) -> B
    requires can { CanMerge B.is_block blocks.old (S.count others) (S.are_blocks others) }
    requires in_others { start + groups * LONG_GROUP ≤ S.count others }
    requires within { groups * LONG_GROUP ≤ B.width }
    ensures has { HasMerged O.merge B.width B.number B.is_block start (start + groups * LONG_GROUP)
        (S.digit others) blocks.old blocks.new }
    ensures says { SaysUsed B.width B.number B.is_block blocks.new start (groups * LONG_GROUP) result }
{
    let mut digits = B::zero();
    for group in 0..groups {
        let index = group * LONG_GROUP;
        let more = merge_group::<B, O, S>(blocks, others, start + index, LONG_GROUP);
        digits = block_or(digits, shift_left(more, index));
    }
    digits
}

// The blocks of chunk `q` become their merges with the others of their indexes. Returns what the block of the summary is
// then.
#[inline]
fn merge_whole<B: BitBlock, O: Operation, S: Others<B>>(blocks: &mut [B], others: S, q: usize) -> B
    requires can { CanMerge B.is_block blocks.old (S.count others) (S.are_blocks others) }
    requires in_others { (q + 1) * B.width ≤ S.count others }
    ensures has { HasMerged O.merge B.width B.number B.is_block (q * B.width) ((q + 1) * B.width)
        (S.digit others) blocks.old blocks.new }
    ensures of_block { B.is_block result }
    ensures digits { (j : ℕ) → j < B.width
        → is_one (B.number result) j ≡ is_used (map B.number blocks.new) (q * B.width + j) }
{
    let width = B::bits();
    let start = q * width;
    if width % LONG_GROUP == 0 {
        merge_long_groups::<B, O, S>(blocks, others, start, width / LONG_GROUP)
    } else {
        merge_group::<B, O, S>(blocks, others, start, width)
    }
}

// The blocks of chunk `q` become their unions with the others of their indexes. `own` is the block of the summary, and what
// it is then is returned: the union of both summaries, but where a block that was 0 may be 0 still.
#[inline]
fn unite_whole<B: BitBlock, O: Operation, S: Summarized<B>>(
    blocks: &mut [B],
    others: S,
    q: usize,
    own: B,
) -> B
    requires union { O.merge ≡ Merge.Union }
    requires can { CanMerge B.is_block blocks.old (S.count others) (S.are_blocks others) }
    requires summaries { S.are_summarized others }
    requires in_others { (q + 1) * B.width ≤ S.count others }
    requires of_own { B.is_block own }
    requires says { (p : ℕ) → p < B.width
        → is_one (B.number own) p ≡ is_used (map B.number blocks.old) (q * B.width + p) }
    ensures has { HasMerged O.merge B.width B.number B.is_block (q * B.width) ((q + 1) * B.width)
        (S.digit others) blocks.old blocks.new }
    ensures of_block { B.is_block result }
    ensures digits { (p : ℕ) → p < B.width
        → is_one (B.number result) p ≡ is_used (map B.number blocks.new) (q * B.width + p) }
{
    let start = q * B::bits();
    merge_between::<B, O, S>(blocks, others, start, start + B::bits());
    let other = others.used_at(q);
    let taken = Difference::of_blocks(other, own);
    if is_nonzero(Intersection::of_blocks(taken, others.unsure_at(q))) {
        used_from(blocks, start)
    } else {
        Union::of_blocks(own, other)
    }
}

// The blocks of chunk `q` become their merges with the others of their indexes, or with zeros where there are none, where
// those at the ones of `touched` may change. Of the summary `own` is the block, and what it is then is returned.
#[inline(always)]
fn merge_chunk<B: BitBlock, O: Operation, S: Summarized<B>>(
    blocks: &mut [B],
    others: S,
    q: usize,
    own: B,
    touched: B,
) -> B
    requires can { CanMerge B.is_block blocks.old (S.count others) (S.are_blocks others) }
    requires summaries { S.are_summarized others }
    requires of_own { B.is_block own }
    requires of_touched { B.is_block touched }
    requires says { (p : ℕ) → p < B.width
        → is_one (B.number own) p ≡ is_used (map B.number blocks.old) (q * B.width + p) }
    requires within { (p : ℕ) → p < B.width → is_one (B.number touched) p ≡ true
        → q * B.width + p < length blocks.old }
    requires kept { (p j : ℕ) → p < B.width → j < B.width → is_one (B.number touched) p ≡ false
        → is_one (get_or (map B.number blocks.old) (q * B.width + p) 0) j
        ≡ merge_of_values O.merge (is_one (get_or (map B.number blocks.old) (q * B.width + p) 0) j)
        (S.digit others (q * B.width + p) j) }
    ensures has { HasMerged O.merge B.width B.number B.is_block (q * B.width) ((q + 1) * B.width)
        (S.digit others) blocks.old blocks.new }
    ensures of_block { B.is_block result }
    ensures digits { (p : ℕ) → p < B.width
        → is_one (B.number result) p ≡ is_used (map B.number blocks.new) (q * B.width + p) }
{
    if has_few(touched) || block_index::<B>(others.len()) <= q {
        merge_touched::<B, O, S>(blocks, others, q, own, touched)
    } else if O::is_union() {
        unite_whole::<B, O, S>(blocks, others, q, own)
    } else {
        merge_whole::<B, O, S>(blocks, others, q)
    }
}

// Which blocks of chunk `q` may change by the merge, by the summaries of both sides.
#[inline(always)]
pub(crate) fn touched_at<B: BitBlock, O: Operation, S: Summarized<B>>(
    blocks: &[B],
    summary: &[B],
    others: S,
    q: usize,
) -> B
    requires can { CanMerge B.is_block blocks.now (S.count others) (S.are_blocks others) }
    requires summaries { S.are_summarized others }
    requires in_summary { q < length summary.now }
    requires summary { IsSummary B.width B.number B.is_block blocks.now summary.now }
    ensures of_block { B.is_block result }
    ensures within { (p : ℕ) → p < B.width → is_one (B.number result) p ≡ true
        → q * B.width + p < length blocks.now }
    ensures kept { (p j : ℕ) → p < B.width → j < B.width → is_one (B.number result) p ≡ false
        → is_one (get_or (map B.number blocks.now) (q * B.width + p) 0) j
        ≡ merge_of_values O.merge (is_one (get_or (map B.number blocks.now) (q * B.width + p) 0) j)
        (S.digit others (q * B.width + p) j) }
{
    touched_by::<B, O>(block_at(summary, q), others.used_at(q))
}

// The blocks of chunk `q` become their merges, and the summary follows them.
#[inline(always)]
fn merge_chunk_at<B: BitBlock, O: Operation, S: Summarized<B>>(
    blocks: &mut [B],
    summary: &mut [B],
    others: S,
    q: usize,
)
    requires can { CanMerge B.is_block blocks.old (S.count others) (S.are_blocks others) }
    requires summaries { S.are_summarized others }
    requires in_summary { q < length summary.old }
    requires summary { IsSummary B.width B.number B.is_block blocks.old summary.old }
    ensures has { HasMerged O.merge B.width B.number B.is_block (q * B.width) ((q + 1) * B.width)
        (S.digit others) blocks.old blocks.new }
    ensures summary { IsSummary B.width B.number B.is_block blocks.new summary.new }
    ensures summary_len { length summary.new ≡ length summary.old }
{
    let touched = touched_at::<B, O, S>(blocks, summary, others, q);
    if is_nonzero(touched) {
        let own = block_at(summary, q);
        let digits = merge_chunk::<B, O, S>(blocks, others, q, own, touched);
        put_in(summary, q, digits);
    }
}

// How many chunks of a list may change by a merge: those past them stay.
#[inline(always)]
pub(crate) fn chunks_to_merge<B: BitBlock, O: Operation, S: Others<B>>(
    blocks: &[B],
    summary: &[B],
    others: S,
) -> usize
    requires can { CanMerge B.is_block blocks.now (S.count others) (S.are_blocks others) }
    requires summary { IsSummary B.width B.number B.is_block blocks.now summary.now }
    ensures within { result ≤ length summary.now }
    ensures enough { blocks_for B.width (S.count others) ≤ result }
    ensures rest { Stay O.merge B.width B.number (result * B.width) (length blocks.now) (S.digit others) blocks.now }
{
    if keeps_first::<B, O>() {
        block_count::<B>(others.len())
    } else {
        summary.len()
    }
}

// Before a merge at most so many chunks of a list are looked at, since each may be in another line of the cache.
const MOST_SAMPLES: usize = 64;

// Whether so many blocks may change in the chunks that are looked at that a pass over all blocks is the shortest: to take single
// blocks saves less than a third of it.
#[inline]
pub(crate) fn is_dense<B: BitBlock, O: Operation, S: Summarized<B>>(
    blocks: &[B],
    summary: &[B],
    others: S,
) -> bool
    requires can { CanMerge B.is_block blocks.now (S.count others) (S.are_blocks others) }
    requires summaries { S.are_summarized others }
    requires summary { IsSummary B.width B.number B.is_block blocks.now summary.now }
{
    let chunks = chunks_to_merge::<B, O, S>(blocks, summary, others);
    if chunks == 0 {
        return true;
    }
    let step = chunks.div_ceil(MOST_SAMPLES).max(SAMPLED);
    let samples = (chunks - 1).div_ceil(step);
    let mut spared = samples.saturating_mul(B::bits()) / 3;
    for sample in 0..samples {
        let q = sample.saturating_mul(step).min(chunks - 1);
        let saved = saved_blocks(touched_at::<B, O, S>(blocks, summary, others, q));
        if saved > spared {
            return false;
        }
        spared -= saved;
    }
    true
}

// The blocks of the chunks from `first` on and before `end` become their merges with the others, and the summary follows them.
// No summary is asked what may change: that saves nothing where many blocks may. It is a call of its own, so that the loop that
// asks keeps its registers.
#[inline(never)]
fn merge_chunks<B: BitBlock, O: Operation, S: Others<B>>(
    blocks: &mut [B],
    summary: &mut [B],
    others: S,
    first: usize,
    end: usize,
)
    requires can { CanMerge B.is_block blocks.old (S.count others) (S.are_blocks others) }
    requires forward { first ≤ end }
    requires in_others { end * B.width ≤ S.count others }
    requires in_summary { end ≤ length summary.old }
    requires summary { IsSummary B.width B.number B.is_block blocks.old summary.old }
    ensures has { HasMerged O.merge B.width B.number B.is_block (first * B.width) (end * B.width) (S.digit others)
        blocks.old blocks.new }
    ensures summary { IsSummary B.width B.number B.is_block blocks.new summary.new }
    ensures summary_len { length summary.new ≡ length summary.old }
{
    for q in first..end {
        let digits = merge_whole::<B, O, S>(blocks, others, q);
        put_in(summary, q, digits);
    }
}

// The same of chunks that the others may end in or before, each by what the summaries say may change.
#[inline]
fn merge_touched_chunks<B: BitBlock, O: Operation, S: Summarized<B>>(
    blocks: &mut [B],
    summary: &mut [B],
    others: S,
    first: usize,
    end: usize,
)
    requires can { CanMerge B.is_block blocks.old (S.count others) (S.are_blocks others) }
    requires summaries { S.are_summarized others }
    requires forward { first ≤ end }
    requires in_summary { end ≤ length summary.old }
    requires summary { IsSummary B.width B.number B.is_block blocks.old summary.old }
    ensures has { HasMerged O.merge B.width B.number B.is_block (first * B.width) (end * B.width) (S.digit others)
        blocks.old blocks.new }
    ensures summary { IsSummary B.width B.number B.is_block blocks.new summary.new }
    ensures summary_len { length summary.new ≡ length summary.old }
{
    for q in first..end {
        merge_chunk_at::<B, O, S>(blocks, summary, others, q);
    }
}

// Before which chunk all are merged and no summary is asked: where many blocks may change the first that the others do not
// fill, and else that of block `start`.
#[inline]
fn dense_end<B: BitBlock, O: Operation, S: Summarized<B>>(
    blocks: &[B],
    summary: &[B],
    others: S,
    start: usize,
) -> usize
    requires can { CanMerge B.is_block blocks.now (S.count others) (S.are_blocks others) }
    requires summaries { S.are_summarized others }
    requires from { start ≤ S.count others }
    requires summary { IsSummary B.width B.number B.is_block blocks.now summary.now }
    ensures from { start / B.width ≤ result }
    ensures in_others { result * B.width ≤ S.count others }
{
    if is_dense::<B, O, S>(blocks, summary, others) {
        block_index::<B>(others.len())
    } else {
        block_index::<B>(start)
    }
}

// Each block becomes its merge with the other of its index, or with zeros where there is none, and the summary is that of
// what they become. The blocks before `start` stay, and are passed over but for those of its chunk. It is a call of its own,
// so that what picks the merge is short and goes into its caller, which knows the merge.
#[inline(never)]
pub(crate) fn merge_long<B: BitBlock, O: Operation, S: Summarized<B>>(
    blocks: &mut [B],
    summary: &mut [B],
    others: S,
    start: usize,
)
    requires can { CanMerge B.is_block blocks.old (S.count others) (S.are_blocks others) }
    requires summaries { S.are_summarized others }
    requires from { start ≤ S.count others }
    requires stay { Stay O.merge B.width B.number 0 start (S.digit others) blocks.old }
    requires summary { IsSummary B.width B.number B.is_block blocks.old summary.old }
    ensures has { HasMerged O.merge B.width B.number B.is_block 0 (length blocks.old) (S.digit others)
        blocks.old blocks.new }
    ensures summary { IsSummary B.width B.number B.is_block blocks.new summary.new }
    ensures summary_len { length summary.new ≡ length summary.old }
{
    let chunks = chunks_to_merge::<B, O, S>(blocks, summary, others);
    let dense = dense_end::<B, O, S>(blocks, summary, others, start);
    merge_chunks::<B, O, S>(blocks, summary, others, block_index::<B>(start), dense);
    merge_touched_chunks::<B, O, S>(blocks, summary, others, dense, chunks);
}

// A union of two long lists by a pass over all blocks: its summary is the union of theirs. The blocks before `start` stay.
fn unite_long<B: BitBlock, O: Operation>(
    blocks: &mut [B],
    summary: &mut [B],
    others: &[B],
    other_summary: &[B],
    start: usize,
)
    requires union { O.merge ≡ Merge.Union }
    requires can { CanMerge B.is_block blocks.old (length others.now) (All B.is_block others.now) }
    requires from { start ≤ length others.now }
    requires stay { Stay O.merge B.width B.number 0 start (other_at (map B.number others.now)) blocks.old }
    requires summary { IsSummary B.width B.number B.is_block blocks.old summary.old }
    requires other_summary { IsSummary B.width B.number B.is_block others.now other_summary.now }
    ensures has { HasMerged O.merge B.width B.number B.is_block 0 (length blocks.old)
        (other_at (map B.number others.now)) blocks.old blocks.new }
    ensures summary { IsSummary B.width B.number B.is_block blocks.new summary.new }
{
    merge_from::<B, O, &[B]>(blocks, others, start);
    merge_from::<B, O, &[B]>(summary, other_summary, 0);
}

// The merge of a long list, whose blocks before `start` stay. It is a call of its own, so that a short list saves no registers
// for it.
#[inline(never)]
pub(crate) fn merge_stored<B: BitBlock, O: Operation>(
    blocks: &mut [B],
    summary: &mut [B],
    others: &[B],
    other_summary: &[B],
    start: usize,
)
    requires can { CanMerge B.is_block blocks.old (length others.now) (All B.is_block others.now) }
    requires from { start ≤ length others.now }
    requires stay { Stay O.merge B.width B.number 0 start (other_at (map B.number others.now)) blocks.old }
    requires summary { IsSummary B.width B.number B.is_block blocks.old summary.old }
    requires other_summary { IsStoredSummary B.width B.number B.is_block others.now other_summary.now }
    ensures has { HasMerged O.merge B.width B.number B.is_block 0 (length blocks.old)
        (other_at (map B.number others.now)) blocks.old blocks.new }
    ensures summary { IsSummary B.width B.number B.is_block blocks.new summary.new }
{
    let list = Listed {
        blocks: others,
        summary: other_summary,
    };
    if O::is_union()
        && !is_short::<B>(others.len())
        && is_dense::<B, O, Listed<B>>(blocks, summary, list)
    {
        unite_long::<B, O>(blocks, summary, others, other_summary, start);
    } else {
        merge_long::<B, O, Listed<B>>(blocks, summary, list, start);
    }
}

// The merge of lists of any length: of a short one no summary is stored.
#[inline(always)]
fn merge_by<B: BitBlock, O: Operation>(
    blocks: &mut [B],
    summary: &mut [B],
    others: &[B],
    other_summary: &[B],
)
    requires can { CanMerge B.is_block blocks.old (length others.now) (All B.is_block others.now) }
    requires summary { IsStoredSummary B.width B.number B.is_block blocks.old summary.old }
    requires other_summary { IsStoredSummary B.width B.number B.is_block others.now other_summary.now }
    ensures has { HasMerged O.merge B.width B.number B.is_block 0 (length blocks.old)
        (other_at (map B.number others.now)) blocks.old blocks.new }
    ensures summary { IsStoredSummary B.width B.number B.is_block blocks.new summary.new }
    ensures summary_len { length summary.new ≡ length summary.old }
{
    if is_short::<B>(blocks.len()) {
        merge_from::<B, O, &[B]>(blocks, others, 0);
    } else {
        merge_stored::<B, O>(blocks, summary, others, other_summary, 0);
    }
}

// The merge that is named. Here it becomes a type.
#[inline(always)]
pub(crate) fn merge_named<B: BitBlock>(
    blocks: &mut [B],
    summary: &mut [B],
    others: &[B],
    other_summary: &[B],
    merge: Merge,
)
    requires can { CanMerge B.is_block blocks.old (length others.now) (All B.is_block others.now) }
    requires summary { IsStoredSummary B.width B.number B.is_block blocks.old summary.old }
    requires other_summary { IsStoredSummary B.width B.number B.is_block others.now other_summary.now }
    ensures has { HasMerged merge B.width B.number B.is_block 0 (length blocks.old)
        (other_at (map B.number others.now)) blocks.old blocks.new }
    ensures summary { IsStoredSummary B.width B.number B.is_block blocks.new summary.new }
    ensures summary_len { length summary.new ≡ length summary.old }
{
    match merge {
        Merge::Union => merge_by::<B, Union>(blocks, summary, others, other_summary),
        Merge::Intersection => {
            merge_by::<B, Intersection>(blocks, summary, others, other_summary)
        }
        Merge::Difference => { merge_by::<B, Difference>(blocks, summary, others, other_summary) }
        Merge::Symmetric => { merge_by::<B, Symmetric>(blocks, summary, others, other_summary) }
    }
}
