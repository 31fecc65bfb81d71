//! Walks over sets in chains.
ghost use Rattle.std.specs.Prelude.{◌≡◌, ℕ, ◌/◌, ◌%◌, ◌≤◌, ◌==◌, false, filter, map, nat_le, nat_lt, position, take, IfNone, IfOk, IfSome, IsTrue, MatchOption, OnOk};
ghost use Rattle.std.specs.List.{list_all, list_any};
ghost use Rattle.bit_set.specs.Choices.{IsGreatest, IsLeastPassing};
ghost use Rattle.bit_set.specs.Members.{HasNone, IsSameSet, IsSubset, IsUnion};
ghost use Rattle.bit_set.specs.Order.{same_sets};
ghost use Rattle.bit_set.specs.Sets.{elements, has, union};

use bit_set::{BitBlock, BitSet, SetError};
use std::alloc::Global;

/// Whether all members are below `n`.
pub fn all_below<B: BitBlock>(set: &BitSet<B>, n: usize) -> bool
    ensures { result ≡ list_all (λ x. nat_lt x n) (elements set.now.values) }
{
    set.iter().all(|x| x < n)
}

/// Whether a member is `n` or above.
pub fn any_from<B: BitBlock>(set: &BitSet<B>, n: usize) -> bool
    ensures { result ≡ list_any (λ x. nat_le n x) (elements set.now.values) }
{
    set.iter().any(|x| n <= x)
}

/// Inserts the numbers of a row.
pub fn put_row<B: BitBlock>(set: &mut BitSet<B>, row: &[usize]) -> Result<(), SetError>
    ensures { OnOk result (IsUnion (elements set.old.values) row.now (elements set.new.values)) }
{
    set.extend(row.iter().copied())
}

/// A copy over another block type.
pub fn copy_over<A: BitBlock, B: BitBlock>(
    alloc: Global,
    set: &BitSet<A>,
) -> Result<BitSet<B>, SetError>
    ensures { IfOk result (λ copy. IsSameSet (elements copy.values) (elements set.now.values)) }
{
    BitSet::from_iter(alloc, set.iter())
}

/// The half of each member, over another block type.
pub fn halves<A: BitBlock, B: BitBlock>(
    alloc: Global,
    set: &BitSet<A>,
) -> Result<BitSet<B>, SetError>
    ensures { IfOk result (λ halves.
        IsSameSet (elements halves.values) (map (λ x. x / 2) (elements set.now.values))) }
{
    BitSet::from_iter(alloc, set.iter().map(|x| x / 2))
}

/// The ten least members, as a new set.
pub fn ten_least<B: BitBlock>(alloc: Global, set: &BitSet<B>) -> Result<BitSet<B>, SetError>
    ensures { IfOk result (λ least. IsSameSet (elements least.values) (take 10 (elements set.now.values))) }
{
    BitSet::from_iter(alloc, set.iter().take(10))
}

/// The greatest odd member.
pub fn greatest_odd<B: BitBlock>(set: &BitSet<B>) -> Option<usize>
    ensures { MatchOption result (HasNone (filter (λ x. x % 2 == 1) (elements set.now.values)))
        (IsGreatest (filter (λ x. x % 2 == 1) (elements set.now.values))) }
{
    set.iter().filter(|x| *x % 2 == 1).max()
}

/// At which place among the members, in ascending order, a number is.
pub fn place_of<B: BitBlock>(set: &BitSet<B>, value: usize) -> Option<usize>
    ensures { result ≡ position (λ x. x == value) (elements set.now.values) }
{
    set.iter().position(|x| x == value)
}

/// The least member that is `n` or above.
pub fn first_from<B: BitBlock>(set: &BitSet<B>, n: usize) -> Option<usize>
    ensures { MatchOption result
        ((x : ℕ) → IsTrue (has (elements set.now.values) x) → nat_le n x ≡ false)
        (IsLeastPassing (λ x. nat_le n x) (elements set.now.values)) }
{
    set.iter().find(|x| n <= *x)
}

/// Whether a set is the union of two others.
pub fn is_union<B: BitBlock>(a: &BitSet<B>, b: &BitSet<B>, whole: &BitSet<B>) -> bool
    ensures { result ≡ same_sets (union (elements a.now.values) (elements b.now.values)) (elements whole.now.values) }
{
    a.union(b).eq(whole.iter())
}

/// The least member of a that is not in b.
pub fn first_without<B: BitBlock>(a: &BitSet<B>, b: &BitSet<B>) -> Option<usize>
    ensures some { IfSome result (λ x. IsTrue (has (elements a.now.values) x)
        × (has (elements b.now.values) x ≡ false)
        × ((y : ℕ) → IsTrue (has (elements a.now.values) y) → has (elements b.now.values) y ≡ false → x ≤ y)) }
    ensures none { IfNone result (IsSubset (elements a.now.values) (elements b.now.values)) }
{
    a.difference(b).next()
}
