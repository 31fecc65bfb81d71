//! Equality and order of sets: those of the ascending lists of their elements, determined block by block.
ghost use Rattle.std.specs.Prelude.{◌≡◌, ℕ, ◌≤◌, ◌↔◌, IsTrue, MatchOption, Some, get_or, true, false};
ghost use Rattle.std.specs.Cmp.{on_equiv, on_per, on_po, on_total, partial_equiv_from_equiv, Lexicographic.nat_list_cmp_total};
ghost use Rattle.std.{specs.{Cmp.Lexicographic.{nat_list_eq_equiv, texts_po, texts_ties}, Ordering.MatchOrdering}, proofs.Common.refl};
ghost use Rattle.bit_blocks.specs.{Bits.blocks_of, Mismatches.IsFirstBlockMismatch};
ghost use Rattle.set_algebra.specs.{Members.IsSameSet, Sets.{elements, has}, Order.{same_sets, order_of_sets}};

use crate::bit_vec::{GROUP, block_or_zero, lowest_mismatch, mismatch_between};
use crate::{BitBlock, BitSet};
use std::cmp::Ordering;

/// Sets are equal if they have the same elements, whatever their lengths and capacities. Compares the blocks up to
/// the first that differs; for long sets only the nonzero ones, by the summaries up to at most 16 times as far.
impl<B: BitBlock> PartialEq for BitSet<B> {
    ghost eq = { λ s t. same_sets (elements s.values) (elements t.values) };

    ghost laws = { on_per (λ s. elements s.values) (partial_equiv_from_equiv nat_list_eq_equiv) };

    #[inline]
    fn eq(&self, other: &Self) -> bool
        ensures lists { result ≡ same_sets (elements self.now.values) (elements other.now.values) }
        ensures members { IsTrue result ↔ IsSameSet (elements self.now.values) (elements other.now.values) }
    {
        self.get_ref().has_same_blocks(other.get_ref())
    }
}

impl<B: BitBlock> Eq for BitSet<B> {
    ghost laws = { on_equiv (λ s. elements s.values) nat_list_eq_equiv };
}

impl<B: BitBlock> PartialOrd for BitSet<B> {
    ghost partial_cmp = { λ s t. Some (order_of_sets (elements s.values) (elements t.values)) };

    ghost laws = { on_po (λ s. elements s.values) texts_po };

    #[inline]
    fn partial_cmp(&self, other: &Self) -> Option<Ordering> {
        Some(self.cmp(other))
    }
}

/// The order of the ascending lists of elements, by the first difference. It is not the order of subsets. Compares
/// the blocks up to the first that differs, for long sets only the nonzero ones, and looks for one element past it.
///
/// ```
/// // {0, 1} comes before {1}: 0 is the first number that just one of them has.
/// assert!(zero_and_one < one);
/// ```
impl<B: BitBlock> Ord for BitSet<B> {
    ghost cmp = { λ s t. order_of_sets (elements s.values) (elements t.values) };

    ghost total = { on_total (λ s. elements s.values) nat_list_cmp_total };

    ghost matches_partial_cmp = { λ s t. refl };

    ghost matches_eq = { λ s t. texts_ties (elements s.values) (elements t.values) };

    // Each call here except the comparisons of blocks is a tail call, so that none saves registers: a search in a
    // map compares small sets, or sets that differ in their first block.
    fn cmp(&self, other: &Self) -> Ordering {
        let (left, right) = (self.get_ref().storage(), other.get_ref().storage());
        if block_or_zero(left, 0) != block_or_zero(right, 0) {
            return order_by(self, other, Some(0));
        }
        if left.len() == right.len() && left.len() < GROUP {
            return order_by(self, other, mismatch_between(left, right, 1, left.len()));
        }
        order_by_groups(self, other)
    }
}

// The order of two sets, by a search of all their blocks.
#[inline(never)]
fn order_by_groups<B: BitBlock>(a: &BitSet<B>, b: &BitSet<B>) -> Ordering
    ensures { result ≡ order_of_sets (elements a.now.values) (elements b.now.values) }
{
    let first = a.get_ref().first_mismatching_block(b.get_ref());
    order_by(a, b, first)
}

// The order of two sets, by the first block at which they differ.
#[inline(always)]
fn order_by<B: BitBlock>(a: &BitSet<B>, b: &BitSet<B>, first: Option<usize>) -> Ordering
    requires { MatchOption first
        ((k : ℕ) → get_or (blocks_of B.width a.now.values) k 0 ≡ get_or (blocks_of B.width b.now.values) k 0)
        (IsFirstBlockMismatch (blocks_of B.width a.now.values) (blocks_of B.width b.now.values)) }
    ensures { result ≡ order_of_sets (elements a.now.values) (elements b.now.values) }
{
    match first {
        None => Ordering::Equal,
        Some(at) => order_in_block(a, b, at),
    }
}

// The order of two sets that first differ in this block.
#[inline(never)]
fn order_in_block<B: BitBlock>(a: &BitSet<B>, b: &BitSet<B>, at: usize) -> Ordering
    requires { IsFirstBlockMismatch (blocks_of B.width a.now.values) (blocks_of B.width b.now.values) at }
    ensures { result ≡ order_of_sets (elements a.now.values) (elements b.now.values) }
{
    let (left, right) = (a.get_ref().storage(), b.get_ref().storage());
    let index = lowest_mismatch(block_or_zero(left, at), block_or_zero(right, at));
    // The least number that exactly one of them has.
    let number = at * B::bits() + index;
    if a.contains(number) {
        order_of_holder(b, number)
    } else {
        order_of_holder(a, number).reverse()
    }
}

// How a set compares to the other, if it has the least number that exactly one of them has: it is less if the other
// has a greater member.
fn order_of_holder<B: BitBlock>(other: &BitSet<B>, number: usize) -> Ordering
    ensures { MatchOrdering result
        ((k : ℕ) × (number ≤ k) × (has (elements other.now.values) k ≡ true)) ⊥
        ((k : ℕ) → number ≤ k → has (elements other.now.values) k ≡ false) }
{
    match other.next(number) {
        Some(_) => Ordering::Less,
        None => Ordering::Greater,
    }
}
