// The difference of two other lists: the union with it, and becoming it. Both say whether a block changed.
ghost use Rattle.std.specs.Prelude.{◌≡◌, ℕ, ◌+◌, ◌*◌, ◌^◌, ◌<◌, ◌≤◌, ◌↔◌, ◌||◌, All, false, length, map, true, vec_capacity};
ghost use Rattle.bit_blocks.specs.Bits.{blocks_for};
ghost use Rattle.bit_blocks.specs.BlockMerges.{except_at, AreKept, CanMerge, HasMerged, HaveBecome, Stay};
ghost use Rattle.bit_blocks.specs.{Digits.is_one, Storage.{value_at, is_used}, declared.block.merge.Merge.Merge};
ghost use Rattle.bit_words.specs.Summary.{IsSummary, IsStoredSummary};

use crate::summary::changes::change_long;
use crate::summary::merges::is_dense;
use crate::summary::queries::summary_at;
use crate::summary::remaking::remake_summary;
use crate::summary::summarized::{Apart, Listed, Outside};
use crate::summary::{is_nonzero, is_short, used_from};
use bit_blocks::block::BitBlock;
use bit_blocks::block::operation::{Difference, Intersection, Operation, Union};
use bit_blocks::packed::access::{block_at, block_count, put_in};
use bit_blocks::packed::becoming::become_except;
use bit_blocks::packed::block_merges::unite_except;
use bit_blocks::packed::changes::{first_change, first_change_past_except};
use bit_blocks::packed::differences::first_difference_except;
use bit_blocks::packed::others::Except;

// What block `q` of a summary becomes, which was `own`, where blocks took in what others have without the ones of a
// third list. `other` and `except` are the blocks of the summaries of these two. A block that was 0 and that both
// cover may still be 0: only then are the blocks read.
#[inline]
fn followed<B: BitBlock>(blocks: &[B], q: usize, own: B, other: B, except: B) -> B
    requires in_bounds { q * B.width ≤ length blocks.now }
    requires each { All B.is_block blocks.now }
    requires of_own { B.is_block own }
    requires of_other { B.is_block other }
    requires of_except { B.is_block except }
    requires kept { (j : ℕ) → j < B.width
        → (is_one (B.number other) j ≡ true → is_one (B.number own) j ≡ true)
        → is_used (map B.number blocks.now) (q * B.width + j) ≡ is_one (B.number own) j }
    requires united { (j : ℕ) → j < B.width → is_one (B.number except) j ≡ false
        → is_used (map B.number blocks.now) (q * B.width + j)
        ≡ (is_one (B.number own) j || is_one (B.number other) j) }
    ensures of_block { B.is_block result }
    ensures digits { (j : ℕ) → j < B.width
        → is_one (B.number result) j ≡ is_used (map B.number blocks.now) (q * B.width + j) }
{
    let taken = Difference::of_blocks(other, own);
    if is_nonzero(Intersection::of_blocks(taken, except)) {
        used_from(blocks, q * B::bits())
    } else {
        Union::of_blocks(own, other)
    }
}

// The summary becomes that of blocks that took in what others have without the ones of `except`. No block is read
// if the summaries say enough.
fn follow_others<B: BitBlock>(
    blocks: &[B],
    summary: &mut [B],
    others: &[B],
    other_summary: &[B],
    except: &[B],
    except_summary: &[B],
)
    requires count { length summary.old ≡ blocks_for B.width (length blocks.now) }
    requires fewer { length others.now ≤ length blocks.now }
    requires each { All B.is_block blocks.now }
    requires each_sum { All B.is_block summary.old }
    requires each_other { All B.is_block others.now }
    requires other_summary { IsStoredSummary B.width B.number B.is_block others.now other_summary.now }
    requires each_except { All B.is_block except.now }
    requires except_summary { IsStoredSummary B.width B.number B.is_block except.now except_summary.now }
    requires fits { length blocks.now < 2 ^ 64 }
    requires kept { (k : ℕ) → (is_used (map B.number others.now) k ≡ true
        → value_at B.width (map B.number summary.old) k ≡ true)
        → is_used (map B.number blocks.now) k ≡ value_at B.width (map B.number summary.old) k }
    requires united { (k : ℕ) → is_used (map B.number except.now) k ≡ false
        → is_used (map B.number blocks.now) k
        ≡ (value_at B.width (map B.number summary.old) k || is_used (map B.number others.now) k) }
    ensures summary { IsSummary B.width B.number B.is_block blocks.now summary.new }
    ensures summary_len { length summary.new ≡ length summary.old }
{
    for q in 0..block_count::<B>(others.len()) {
        let own = block_at(summary, q);
        let other = summary_at(others, other_summary, q);
        let excepted = summary_at(except, except_summary, q);
        put_in(summary, q, followed(blocks, q, own, other, excepted));
    }
}

// The blocks of a long list from `start` on become their unions with the others, without the ones of `except`.
// Those before `start` stay. It takes vectors, so that a short list does not read the addresses of the others'
// summaries.
#[inline(never)]
fn unite_long_from<B: BitBlock>(
    blocks: &mut [B],
    summary: &mut [B],
    others: &[B],
    other_summary: &Vec<B>,
    except: &[B],
    except_summary: &Vec<B>,
    start: usize,
)
    requires can { CanMerge B.is_block blocks.old (length others.now) (All B.is_block others.now) }
    requires except { All B.is_block except.now }
    requires from { start ≤ length others.now }
    requires stay { Stay Merge.Union B.width B.number 0 start
        (except_at (map B.number others.now) (map B.number except.now)) blocks.old }
    requires summary { IsSummary B.width B.number B.is_block blocks.old summary.old }
    requires other_summary { IsStoredSummary B.width B.number B.is_block others.now other_summary.now.items }
    requires except_summary { IsStoredSummary B.width B.number B.is_block except.now except_summary.now.items }
    ensures has { HasMerged Merge.Union B.width B.number B.is_block 0 (length blocks.old)
        (except_at (map B.number others.now) (map B.number except.now)) blocks.old blocks.new }
    ensures summary { IsSummary B.width B.number B.is_block blocks.new summary.new }
    ensures summary_len { length summary.new ≡ length summary.old }
{
    unite_except(blocks, others, except, start);
    let sums = other_summary.as_slice();
    follow_others(
        blocks,
        summary,
        others,
        sums,
        except,
        except_summary.as_slice(),
    );
}

// The blocks of a short list, which stores no summary, become their unions with the others from `start` on, without
// the ones of `except`. Those before `start` stay.
#[inline(never)]
fn unite_short_from<B: BitBlock>(blocks: &mut [B], others: &[B], except: &[B], start: usize)
    requires can { CanMerge B.is_block blocks.old (length others.now) (All B.is_block others.now) }
    requires except { All B.is_block except.now }
    requires from { start ≤ length others.now }
    requires stay { Stay Merge.Union B.width B.number 0 start
        (except_at (map B.number others.now) (map B.number except.now)) blocks.old }
    ensures { HasMerged Merge.Union B.width B.number B.is_block 0 (length blocks.old)
        (except_at (map B.number others.now) (map B.number except.now)) blocks.old blocks.new }
{
    unite_except(blocks, others, except, start);
}

// `unite_past_except` of a long list: by chunks, or by a pass over all blocks up to the others' end if many may change
// in most chunks.
#[inline(never)]
fn unite_long_past_except<B: BitBlock>(
    blocks: &mut [B],
    summary: &mut [B],
    others: &[B],
    other_summary: &Vec<B>,
    except: &[B],
    except_summary: &Vec<B>,
) -> bool
    requires can { CanMerge B.is_block blocks.old (length others.now) (All B.is_block others.now) }
    requires except { All B.is_block except.now }
    requires shorter { length except.now < length others.now }
    requires summary { IsSummary B.width B.number B.is_block blocks.old summary.old }
    requires other_summary { IsStoredSummary B.width B.number B.is_block others.now other_summary.now.items }
    requires except_summary { IsStoredSummary B.width B.number B.is_block except.now except_summary.now.items }
    ensures has { HasMerged Merge.Union B.width B.number B.is_block 0 (length blocks.old)
        (except_at (map B.number others.now) (map B.number except.now)) blocks.old blocks.new }
    ensures kept { (result ≡ false) ↔ AreKept (map B.number blocks.old) (map B.number blocks.new) }
    ensures summary { IsSummary B.width B.number B.is_block blocks.new summary.new }
    ensures summary_len { length summary.new ≡ length summary.old }
{
    let outside = Outside {
        others: Listed {
            blocks: others,
            summary: other_summary,
        },
        except: Listed {
            blocks: except,
            summary: except_summary,
        },
    };
    if !is_dense::<B, Union, Outside<B>>(blocks, summary, outside) {
        return change_long::<B, Union, Outside<B>>(blocks, summary, outside);
    }
    let Some(start) = first_change_past_except(blocks, others, except) else {
        return false;
    };
    unite_long_from(
        blocks,
        summary,
        others,
        other_summary,
        except,
        except_summary,
        start,
    );
    true
}

// `unite_difference` if `except` is shorter than the others: a separate function, so that the usual one saves no
// registers for it.
#[inline(never)]
fn unite_past_except<B: BitBlock>(
    blocks: &mut [B],
    summary: &mut [B],
    others: &[B],
    other_summary: &Vec<B>,
    except: &[B],
    except_summary: &Vec<B>,
) -> bool
    requires can { CanMerge B.is_block blocks.old (length others.now) (All B.is_block others.now) }
    requires except { All B.is_block except.now }
    requires shorter { length except.now < length others.now }
    requires summary { IsStoredSummary B.width B.number B.is_block blocks.old summary.old }
    requires other_summary { IsStoredSummary B.width B.number B.is_block others.now other_summary.now.items }
    requires except_summary { IsStoredSummary B.width B.number B.is_block except.now except_summary.now.items }
    ensures has { HasMerged Merge.Union B.width B.number B.is_block 0 (length blocks.old)
        (except_at (map B.number others.now) (map B.number except.now)) blocks.old blocks.new }
    ensures kept { (result ≡ false) ↔ AreKept (map B.number blocks.old) (map B.number blocks.new) }
    ensures summary { IsStoredSummary B.width B.number B.is_block blocks.new summary.new }
    ensures summary_len { length summary.new ≡ length summary.old }
{
    if !is_short::<B>(blocks.len()) {
        return unite_long_past_except(
            blocks,
            summary,
            others,
            other_summary,
            except,
            except_summary,
        );
    }
    let Some(start) = first_change_past_except(blocks, others, except) else {
        return false;
    };
    unite_short_from(blocks, others, except, start);
    true
}

// Each block becomes its union with the others, without the ones of `except`. Returns whether one changed.
#[inline]
pub(crate) fn unite_difference<B: BitBlock>(
    blocks: &mut [B],
    summary: &mut [B],
    others: &[B],
    other_summary: &Vec<B>,
    except: &[B],
    except_summary: &Vec<B>,
) -> bool
    requires can { CanMerge B.is_block blocks.old (length others.now) (All B.is_block others.now) }
    requires except { All B.is_block except.now }
    requires summary { IsStoredSummary B.width B.number B.is_block blocks.old summary.old }
    requires other_summary { IsStoredSummary B.width B.number B.is_block others.now other_summary.now.items }
    requires except_summary { IsStoredSummary B.width B.number B.is_block except.now except_summary.now.items }
    ensures has { HasMerged Merge.Union B.width B.number B.is_block 0 (length blocks.old)
        (except_at (map B.number others.now) (map B.number except.now)) blocks.old blocks.new }
    ensures kept { (result ≡ false) ↔ AreKept (map B.number blocks.old) (map B.number blocks.new) }
    ensures summary { IsStoredSummary B.width B.number B.is_block blocks.new summary.new }
    ensures summary_len { length summary.new ≡ length summary.old }
{
    if except.len() < others.len() {
        return unite_past_except(
            blocks,
            summary,
            others,
            other_summary,
            except,
            except_summary,
        );
    }
    if is_short::<B>(blocks.len()) {
        let found = first_change::<B, Union, Except<B>>(blocks, Except { others, except });
        let Some(start) = found else {
            return false;
        };
        unite_short_from(blocks, others, except, start);
        return true;
    }
    let apart = Apart {
        others: Listed {
            blocks: others,
            summary: other_summary,
        },
        except: Listed {
            blocks: except,
            summary: except_summary,
        },
    };
    change_long::<B, Union, Apart<B>>(blocks, summary, apart)
}

// The blocks become the others without the ones of `except`, and returns whether one changed: by a pass over all of
// them. The summary is then computed anew.
#[inline]
fn become_dense<B: BitBlock>(
    blocks: &mut [B],
    summary: &mut Vec<B>,
    others: &[B],
    except: &[B],
) -> bool
    requires can { CanMerge B.is_block blocks.old (length others.now) (All B.is_block others.now) }
    requires except { All B.is_block except.now }
    requires summary { IsStoredSummary B.width B.number B.is_block blocks.old summary.old.items }
    requires fits { length blocks.old < 2 ^ 64 }
    ensures has { HaveBecome B.width B.number B.is_block 0 (length blocks.old)
        (except_at (map B.number others.now) (map B.number except.now)) blocks.old blocks.new }
    ensures kept { (result ≡ false) ↔ AreKept (map B.number blocks.old) (map B.number blocks.new) }
    ensures summary { IsStoredSummary B.width B.number B.is_block blocks.new summary.new.items }
    ensures capacity { vec_capacity summary.new ≡ vec_capacity summary.old }
{
    let Some(start) = first_difference_except(blocks, others, except) else {
        return false;
    };
    become_except(blocks, others, except, start);
    remake_summary(summary, blocks);
    true
}

// Does so by chunks, in two passes: the first removes what is not in the difference, and the second inserts the
// rest of it. One of these changes something exactly if the list changes.
#[inline(never)]
fn become_sparse<B: BitBlock>(blocks: &mut [B], summary: &mut [B], outside: Outside<B>) -> bool
    requires can { CanMerge B.is_block blocks.old (length outside.others.blocks.now)
        (All B.is_block outside.others.blocks.now × All B.is_block outside.except.blocks.now) }
    requires other_summary { IsStoredSummary B.width B.number B.is_block
        outside.others.blocks.now outside.others.summary.now }
    requires except_summary { IsStoredSummary B.width B.number B.is_block
        outside.except.blocks.now outside.except.summary.now }
    requires summary { IsSummary B.width B.number B.is_block blocks.old summary.old }
    ensures has { HaveBecome B.width B.number B.is_block 0 (length blocks.old)
        (except_at (map B.number outside.entry.others.blocks.now) (map B.number outside.entry.except.blocks.now))
        blocks.old blocks.new }
    ensures kept { (result ≡ false) ↔ AreKept (map B.number blocks.old) (map B.number blocks.new) }
    ensures summary { IsSummary B.width B.number B.is_block blocks.new summary.new }
    ensures summary_len { length summary.new ≡ length summary.old }
{
    let lost = change_long::<B, Intersection, Outside<B>>(blocks, summary, outside);
    let gained = change_long::<B, Union, Outside<B>>(blocks, summary, outside);
    lost || gained
}

// The blocks become the others without the ones of `except`. Returns whether one changed. A long list is merged by
// chunks if few blocks of the others are nonzero.
pub(crate) fn become_difference<B: BitBlock>(
    blocks: &mut [B],
    summary: &mut Vec<B>,
    others: Listed<B>,
    except: Listed<B>,
) -> bool
    requires can { CanMerge B.is_block blocks.old (length others.blocks.now) (All B.is_block others.blocks.now) }
    requires except { All B.is_block except.blocks.now }
    requires summary { IsStoredSummary B.width B.number B.is_block blocks.old summary.old.items }
    requires other_summary { IsStoredSummary B.width B.number B.is_block others.blocks.now others.summary.now }
    requires except_summary { IsStoredSummary B.width B.number B.is_block except.blocks.now except.summary.now }
    requires fits { length blocks.old < 2 ^ 64 }
    ensures has { HaveBecome B.width B.number B.is_block 0 (length blocks.old)
        (except_at (map B.number others.entry.blocks.now) (map B.number except.entry.blocks.now))
        blocks.old blocks.new }
    ensures kept { (result ≡ false) ↔ AreKept (map B.number blocks.old) (map B.number blocks.new) }
    ensures summary { IsStoredSummary B.width B.number B.is_block blocks.new summary.new.items }
    ensures capacity { vec_capacity summary.new ≡ vec_capacity summary.old }
{
    let outside = Outside { others, except };
    if is_short::<B>(blocks.len()) || is_dense::<B, Union, Outside<B>>(blocks, summary, outside) {
        return become_dense(blocks, summary, others.blocks, except.blocks);
    }
    become_sparse(blocks, summary.as_mut_slice(), outside)
}
