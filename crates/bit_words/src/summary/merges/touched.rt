// Which blocks of a chunk a merge may change, by what the summaries say of both sides, and the merge of these alone.
ghost use Rattle.std.specs.Prelude.{◌≡◌, ℕ, ◌+◌, ◌*◌, ◌^◌, ◌<◌, ◌↔◌, ◌||◌, Bool, false, get_or, length, map, true};
ghost use Rattle.bit_blocks.specs.{BlockMerges.{CanMerge, HasMerged, Stay}, Digits.is_one, Merges.merge_of_values, Storage.is_used};

use crate::summary::is_nonzero;
use bit_blocks::block::BitBlock;
use bit_blocks::block::lowest::take_lowest_one;
use bit_blocks::block::masks::with_bit;
use bit_blocks::block::operation::{Intersection, Operation, Symmetric, Union};
use bit_blocks::block::operators::same;
use bit_blocks::packed::access::{block_at, put_in};
use bit_blocks::packed::others::Others;

// Which blocks of a chunk a merge may change, given the blocks of the summaries that say which blocks of either
// side may have a 1. The compiler knows the merge: what is left is `other` for a union, `own` for an intersection,
// and both for a difference.
#[inline(always)]
pub(crate) fn touched_by<B: BitBlock, O: Operation>(own: B, other: B) -> B
    requires of_own { B.is_block own }
    requires of_other { B.is_block other }
    ensures of_block { B.is_block result }
    ensures some { (p : ℕ) → p < B.width → is_one (B.number result) p ≡ true
        → (is_one (B.number own) p || is_one (B.number other) p) ≡ true }
    ensures kept { (p : ℕ) (a b : Bool) → p < B.width → is_one (B.number result) p ≡ false
        → (a ≡ true → is_one (B.number own) p ≡ true) → (b ≡ true → is_one (B.number other) p ≡ true)
        → a ≡ merge_of_values O.merge a b }
{
    let zero = B::zero();
    let lost = Symmetric::of_blocks(own, O::of_blocks(own, zero));
    let gained = O::of_blocks(zero, other);
    let both = Intersection::of_blocks(own, other);
    Union::of_blocks(both, Union::of_blocks(lost, gained))
}

// Block `k` becomes its merge with the other of its index, or with zeros if there is none, and is returned.
#[inline]
pub(crate) fn merge_any<B: BitBlock, O: Operation, S: Others<B>>(
    blocks: &mut [B],
    others: S,
    k: usize,
) -> B
    requires can { CanMerge B.is_block blocks.old (S.count others) (S.are_blocks others) }
    requires in_bounds { k < length blocks.old }
    ensures has { HasMerged O.merge B.width B.number B.is_block k (k + 1) (S.digit others) blocks.old blocks.new }
    ensures of_block { B.is_block result }
    ensures of_number { B.number result ≡ get_or (map B.number blocks.new) k 0 }
{
    let merged = O::of_blocks(block_at(blocks, k), block_or_zero(others, k));
    put_in(blocks, k, merged);
    merged
}

// The block with this index, and zeros past the last.
#[inline]
pub(crate) fn block_or_zero<B: BitBlock, S: Others<B>>(others: S, k: usize) -> B
    requires each { S.are_blocks others }
    ensures of_block { B.is_block result }
    ensures digits { (j : ℕ) → j < B.width → is_one (B.number result) j ≡ S.digit others k j }
{
    if k < others.len() {
        others.block(k)
    } else {
        B::zero()
    }
}

// The blocks of chunk `q` become their merges with the others; only those at the ones of `touched` may change.
// `own` is what the summary says about the chunk. Returns what it says afterwards.
#[inline]
pub(crate) fn merge_touched<B: BitBlock, O: Operation, S: Others<B>>(
    blocks: &mut [B],
    others: S,
    q: usize,
    own: B,
    touched: B,
) -> B
    requires can { CanMerge B.is_block blocks.old (S.count others) (S.are_blocks others) }
    requires of_own { B.is_block own }
    requires of_touched { B.is_block touched }
    requires says { (p : ℕ) → p < B.width
        → is_one (B.number own) p ≡ is_used (map B.number blocks.old) (q * B.width + p) }
    requires within { (p : ℕ) → p < B.width → is_one (B.number touched) p ≡ true
        → q * B.width + p < length blocks.old }
    requires fits { length blocks.old < 2 ^ 64 }
    requires kept { (p j : ℕ) → p < B.width → j < B.width → is_one (B.number touched) p ≡ false
        → is_one (get_or (map B.number blocks.old) (q * B.width + p) 0) j
        ≡ merge_of_values O.merge (is_one (get_or (map B.number blocks.old) (q * B.width + p) 0) j)
        (S.digit others (q * B.width + p) j) }
    ensures has { HasMerged O.merge B.width B.number B.is_block (q * B.width) ((q + 1) * B.width) (S.digit others)
        blocks.old blocks.new }
    ensures of_block { B.is_block result }
    ensures digits { (p : ℕ) → p < B.width
        → is_one (B.number result) p ≡ is_used (map B.number blocks.new) (q * B.width + p) }
{
    let mut digits = own;
    let mut left = touched;
    while is_nonzero(left) {
        let p = take_lowest_one(&mut left);
        let merged = merge_any::<B, O, S>(blocks, others, q * B::bits() + p);
        digits = with_bit(digits, p, is_nonzero(merged));
    }
    digits
}

// Whether block `k` changes when it is merged with the other of its index, or with zeros if there is none.
#[inline]
fn is_changed<B: BitBlock, O: Operation, S: Others<B>>(blocks: &[B], others: S, k: usize) -> bool
    requires can { CanMerge B.is_block blocks.now (S.count others) (S.are_blocks others) }
    requires in_bounds { k < length blocks.now }
    ensures { (result ≡ false) ↔ Stay O.merge B.width B.number k (k + 1) (S.digit others) blocks.now }
{
    let block = block_at(blocks, k);
    !same(block, O::of_blocks(block, block_or_zero(others, k)))
}

// Whether a block of chunk `q` changes by the merge with the others; only those at the ones of `touched` may.
#[inline]
pub(crate) fn changes_touched<B: BitBlock, O: Operation, S: Others<B>>(
    blocks: &[B],
    others: S,
    q: usize,
    touched: B,
) -> bool
    requires can { CanMerge B.is_block blocks.now (S.count others) (S.are_blocks others) }
    requires of_touched { B.is_block touched }
    requires within { (p : ℕ) → p < B.width → is_one (B.number touched) p ≡ true
        → q * B.width + p < length blocks.now }
    requires fits { length blocks.now < 2 ^ 64 }
    requires kept { (p j : ℕ) → p < B.width → j < B.width → is_one (B.number touched) p ≡ false
        → is_one (get_or (map B.number blocks.now) (q * B.width + p) 0) j
        ≡ merge_of_values O.merge (is_one (get_or (map B.number blocks.now) (q * B.width + p) 0) j)
        (S.digit others (q * B.width + p) j) }
    ensures { (result ≡ false)
        ↔ Stay O.merge B.width B.number (q * B.width) ((q + 1) * B.width) (S.digit others) blocks.now }
{
    let mut left = touched;
    while is_nonzero(left) {
        let p = take_lowest_one(&mut left);
        if is_changed::<B, O, S>(blocks, others, q * B::bits() + p) {
            return true;
        }
    }
    false
}
