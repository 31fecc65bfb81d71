// Whether lists of blocks are the same, and where they differ. A block past the end of a list counts as 0.
ghost use Rattle.std.specs.Prelude.{◌≡◌, ◌≢◌, ℕ, ◌+◌, ◌-◌, ◌<◌, ◌≤◌, ◌==◌, ◌↔◌, All, IsTrue, MatchOption, get_or, length, map};
ghost use Rattle.bit_blocks.specs.{BlockMerges.{other_at, AreOthers, CanMerge}, Mismatches.{IsFirstBlockMismatch, IsLowestMismatch}};

use crate::block::BitBlock;
use crate::block::lowest::take_lowest_one;
use crate::block::operators::{block_or, block_xor, same};
use crate::packed::access::block_at;
use crate::packed::differences::{are_others, differences, differing_group, differing_place};
use crate::packed::groups::{GROUP, LONG_GROUP};
use crate::packed::nonzero::first_nonzero_block;

/// Whether the lists of blocks are the same; a block past the end of a list counts as 0. Compares groups of at most
/// 32 blocks, each by one test, and stops at the first group that differs.
///
/// ```
/// assert!(same_blocks(&[7u8, 1], &[7, 1, 0]));
/// assert!(!same_blocks(&[7u8, 1], &[7, 1, 2]));
/// ```
#[inline]
pub fn same_blocks<B: BitBlock>(a: &[B], b: &[B]) -> bool
    requires left { All B.is_block a.now }
    requires right { All B.is_block b.now }
    ensures { IsTrue result
        ↔ ((k : ℕ) → get_or (map B.number a.now) k 0 ≡ get_or (map B.number b.now) k 0) }
{
    if a.len() == b.len() {
        same_of_one_length(a, b)
    } else {
        same_by_search(a, b)
    }
}

/// The first index at which the blocks differ, or `None`. Compares groups of blocks, each by one test, and reads
/// fewer than 32 blocks past the first that differs.
///
/// ```
/// assert_eq!(first_mismatching_block(&[7u8, 1], &[7, 1, 0]), None);
/// assert_eq!(first_mismatching_block(&[7u8, 1], &[7, 1, 2]), Some(2));
/// ```
pub fn first_mismatching_block<B: BitBlock>(a: &[B], b: &[B]) -> Option<usize>
    requires left { All B.is_block a.now }
    requires right { All B.is_block b.now }
    ensures { MatchOption result
        ((k : ℕ) → get_or (map B.number a.now) k 0 ≡ get_or (map B.number b.now) k 0)
        (IsFirstBlockMismatch (map B.number a.now) (map B.number b.now)) }
{
    let both = a.len().min(b.len());
    let start = differing_place(a, b, 0, both).unwrap_or(both);
    let found = mismatch_between(a, b, start, both);
    if found.is_some() {
        return found;
    }
    let longer = if a.len() < b.len() { b } else { a };
    first_nonzero_block(longer, both)
}

/// The first index below `end` at which the blocks differ, or `None`; those before `start` must be the same.
/// Compares them one by one.
///
/// ```
/// assert_eq!(mismatch_between(&[7u8, 1, 3], &[7, 2, 4], 1, 3), Some(1));
/// ```
#[inline]
pub fn mismatch_between<B: BitBlock>(a: &[B], b: &[B], start: usize, end: usize) -> Option<usize>
    requires within { end ≤ length a.now }
    requires within_other { end ≤ length b.now }
    requires left { All B.is_block a.now }
    requires right { All B.is_block b.now }
    requires before { (k : ℕ) → k < start
        → get_or (map B.number a.now) k 0 ≡ get_or (map B.number b.now) k 0 }
    ensures { MatchOption result
        ((k : ℕ) → k < end → get_or (map B.number a.now) k 0 ≡ get_or (map B.number b.now) k 0)
        (IsFirstBlockMismatch (map B.number a.now) (map B.number b.now)) }
{
    for k in start..end {
        if !same(block_at(a, k), block_at(b, k)) {
            return Some(k);
        }
    }
    None
}

// Whether lists of one length are the same. It calls nothing, so it saves no registers.
#[inline(never)]
fn same_of_one_length<B: BitBlock>(a: &[B], b: &[B]) -> bool
    requires can { CanMerge B.is_block a.now (length b.now) (All B.is_block b.now) }
    requires as_long { length b.now ≡ length a.now }
    ensures { IsTrue result ↔ AreOthers B.width B.number 0 (length a.now) (other_at (map B.number b.now)) a.now }
{
    let count = a.len();
    if count < GROUP {
        return mismatch_between(a, b, 0, count).is_none();
    }
    if count <= 2 * GROUP {
        return same_ends(a, b, GROUP);
    }
    if count <= LONG_GROUP {
        return same_ends(a, b, 2 * GROUP);
    }
    // The last group may begin within the one before it.
    let groups = count / LONG_GROUP;
    differing_group(a, b, 0, groups, LONG_GROUP) == groups && same_last_group(a, b)
}

// Whether the last blocks are the same, as many as a long group has. Each slice begins anew: so the compiler knows how
// many blocks are compared.
#[inline(always)]
fn same_last_group<B: BitBlock>(a: &[B], b: &[B]) -> bool
    requires can { CanMerge B.is_block a.now (length b.now) (All B.is_block b.now) }
    requires as_long { length b.now ≡ length a.now }
    requires enough { LONG_GROUP ≤ length a.now }
    ensures { IsTrue result
        ↔ AreOthers B.width B.number (length a.now - LONG_GROUP) (length a.now) (other_at (map B.number b.now)) a.now }
{
    let start = a.len() - LONG_GROUP;
    are_others(a.split_at(start).1, b.split_at(start).1, 0, LONG_GROUP)
}

// Whether lists of `size` to twice as many blocks are the same: a group at each end, which may overlap, and one test.
#[inline(always)]
fn same_ends<B: BitBlock>(a: &[B], b: &[B], size: usize) -> bool
    requires can { CanMerge B.is_block a.now (length b.now) (All B.is_block b.now) }
    requires as_long { length b.now ≡ length a.now }
    requires enough { size ≤ length a.now }
    requires at_most_twice { length a.now ≤ size + size }
    ensures { IsTrue result ↔ AreOthers B.width B.number 0 (length a.now) (other_at (map B.number b.now)) a.now }
{
    let first = differences(a, b, 0, size);
    let last = differences(a, b, a.len() - size, size);
    same(either(first, last), B::zero())
}

// Whether lists of any lengths are the same.
#[inline(never)]
fn same_by_search<B: BitBlock>(a: &[B], b: &[B]) -> bool
    requires left { All B.is_block a.now }
    requires right { All B.is_block b.now }
    ensures { IsTrue result
        ↔ ((k : ℕ) → get_or (map B.number a.now) k 0 ≡ get_or (map B.number b.now) k 0) }
{
    first_mismatching_block(a, b).is_none()
}

/// A block that is 0 exactly if `seen` is 0 and the other two are the same, so that one test covers many pairs of
/// blocks. Constant time.
///
/// ```
/// assert_eq!(or_mismatch(0u8, 5, 5), 0);
/// assert_ne!(or_mismatch(0u8, 5, 4), 0);
/// ```
#[inline]
pub fn or_mismatch<B: BitBlock>(seen: B, a: B, b: B) -> B
    requires seen { B.is_block seen }
    requires left { B.is_block a }
    requires right { B.is_block b }
    ensures of_block { B.is_block result }
    ensures none { (B.number result ≡ 0) ↔ ((B.number seen ≡ 0) × (B.number a ≡ B.number b)) }
{
    either(seen, block_xor(a, b))
}

// A block that is 0 exactly if both are.
#[inline]
fn either<B: BitBlock>(a: B, b: B) -> B
    requires left { B.is_block a }
    requires right { B.is_block b }
    ensures of_block { B.is_block result }
    ensures none { (B.number result ≡ 0) ↔ ((B.number a ≡ 0) × (B.number b ≡ 0)) }
{
    block_or(a, b)
}

/// The lowest index at which the bits of two different blocks differ. Constant time.
///
/// ```
/// assert_eq!(lowest_mismatch(0b0101u8, 0b1001), 2);
/// ```
#[inline]
pub fn lowest_mismatch<B: BitBlock>(a: B, b: B) -> usize
    requires left { B.is_block a }
    requires right { B.is_block b }
    requires mismatch { B.number a ≢ B.number b }
    ensures { IsLowestMismatch B.width (B.number a) (B.number b) result }
{
    let mut mismatch = block_xor(a, b);
    take_lowest_one(&mut mismatch)
}
