//! Laws above the definitions of `specs/`, stated as the contracts of functions that do nothing. A set is the list of
//! its members in strictly ascending order.
ghost use Rattle.std.specs.Prelude.{◌≡◌, ℕ, ◌+◌, ◌-◌, ◌<◌, ◌≤◌, ◌↔◌, ◌++◌, ◌∷◌, ◌==◌, ◌&&◌, ◌||◌, max, min, not, nat_lt, nat_le, if◌then◌else◌, Bool, true, IsTrue, Some};
ghost use Rattle.std.specs.Prelude.{Option, List, [], length, map, slice_get, MatchOption, filter, false, None, ◌⊎◌};
ghost use Rattle.std.specs.{Cmp.{IsEquivalence, IsTotalOrder}, Ordering.nat_cmp, List.{find, last_or, list_all, list_any, position_or_len, reduce}, declared.ops.Range.Range};
ghost use Rattle.std.specs.FinSet as set;
ghost use Rattle.bit_blocks.specs.{Merges.{merge_of_values, merge_of}, declared.block.merge.Merge.Merge};
ghost use Rattle.set_algebra.specs.Sets.{IsAscending, has, put, put_all, without, those_below, those_from, those_new, elements, bound_of, union, intersection, difference, symmetric_difference};
ghost use Rattle.set_algebra.specs.{Sets.{merge_of_sets, is_subset, is_disjoint}, Order.{same_sets, order_of_sets, fed_of_set}, Choices.{IsGreatest, IsLeast, IsLeastPassing}};
ghost use Rattle.set_algebra.specs.{Members.{HasNone, IsSameSet, TakesLeast}, Ranges.{span, span_end, those_in_range}, Runs.{AreRuns, runs_of}};

use bit_blocks::block::merge::Merge;
use std::cmp::Ordering;

/// What each operation does to the members of a set.
#[tactic(auto, using(crate::proofs::SetLaws::members_of_sets))]
pub fn members_of_sets()
    ensures put { (s : List ℕ) (n m : ℕ) → has (put s n) m ≡ (n == m || has s m) }
    ensures without { (s : List ℕ) (n m : ℕ) → has (without s n) m ≡ (not (n == m) && has s m) }
    ensures those_below { (s : List ℕ) (n m : ℕ) → has (those_below s n) m ≡ (nat_lt m n && has s m) }
    ensures those_from { (s : List ℕ) (n m : ℕ) → has (those_from s n) m ≡ (nat_le n m && has s m) }
    ensures put_all { (s items : List ℕ) (m : ℕ) → has (put_all s items) m ≡ (has items m || has s m) }
    ensures elements { (values : List Bool) (m : ℕ) → IsTrue (has (elements values) m)
        ↔ (slice_get values m ≡ Some true) }
{}

/// The numbers of a range: those at or above `a` and below `b`, in ascending order, and none if `b` is at most `a`.
/// A set without them is its difference with them, the members among them are the intersection, and toggling a
/// range twice leaves the elements unchanged.
#[tactic(auto, using(crate::proofs::RangeLemmas::numbers_of_ranges))]
pub fn numbers_of_ranges()
    ensures members { (a b n : ℕ) → has (span a b) n ≡ (nat_le a n && nat_lt n b) }
    ensures ascend { (a b : ℕ) → IsAscending (span a b) }
    ensures count { (a b : ℕ) → length (span a b) ≡ b - a }
    ensures bound { (a b : ℕ) → bound_of (span a b) ≡ span_end a b }
    ensures removed { (s : List ℕ) (a b : ℕ) → IsAscending s
        → those_below s a ++ those_from s (max a b) ≡ difference s (span a b) }
    ensures among { (s : List ℕ) (a b : ℕ) → IsAscending s → those_in_range s a b ≡ intersection s (span a b) }
    ensures twice { (s t : List ℕ) → IsAscending s → symmetric_difference (symmetric_difference s t) t ≡ s }
{}

/// How many members each operation leaves in a set whose list ascends. When items are inserted one by one,
/// `those_new` lists the new ones: the items that the set does not have. A list of truth values has at most as many
/// elements as its length.
#[tactic(auto, using(crate::proofs::SizeLemmas::sizes_of_sets))]
pub fn sizes_of_sets()
    ensures put { (s : List ℕ) (n : ℕ) → IsAscending s
        → length (put s n) ≡ length s + (if has s n then 0 else 1) }
    ensures without { (s : List ℕ) (n : ℕ) → IsAscending s
        → length (without s n) + (if has s n then 1 else 0) ≡ length s }
    ensures put_all { (s items : List ℕ) → IsAscending s
        → length (put_all s items) ≡ length s + length (those_new s items) }
    ensures those_new { (s items : List ℕ) (n : ℕ) → has (those_new s items) n ≡ (not (has s n) && has items n) }
    ensures no_more { (s items : List ℕ) → length (those_new s items) ≤ length items }
    ensures elements { (values : List Bool) → length (elements values) ≤ length values }
{}

/// Items inserted one by one in two parts: first those of one list, then those of the other.
#[tactic(auto, using(crate::proofs::SizeLemmas::items_in_two_parts))]
pub fn items_in_two_parts()
    ensures put_all { (s xs ys : List ℕ) → put_all s (xs ++ ys) ≡ put_all (put_all s xs) ys }
    ensures those_new { (s xs ys : List ℕ) → those_new s (xs ++ ys) ≡ those_new s xs ++ those_new (put_all s xs) ys }
{}

/// In a set whose list ascends the first member is the least, and the others are the set without it.
pub fn first_of_a_set()
    ensures taken { (s t : List ℕ) (x : ℕ) → IsAscending s → s ≡ x ∷ t → TakesLeast s x t }
    ensures rest { (s t : List ℕ) (x : ℕ) → IsAscending s → s ≡ x ∷ t → without s x ≡ t }
{}

/// The result of each operation is strictly ascending. `without`, `those_below`, `intersection` and `difference`
/// keep what passes a test, and `union` inserts all items.
#[tactic(auto, using(crate::proofs::AlgebraLemmas::sets_ascend))]
pub fn sets_ascend()
    ensures put { (s : List ℕ) (n : ℕ) → IsAscending s → IsAscending (put s n) }
    ensures filter { (test : ℕ → Bool) (s : List ℕ) → IsAscending s → IsAscending (filter test s) }
    ensures those_from { (s : List ℕ) (n : ℕ) → IsAscending s → IsAscending (those_from s n) }
    ensures put_all { (s items : List ℕ) → IsAscending s → IsAscending (put_all s items) }
    ensures merged { (merge : Merge) (s t : List ℕ) → IsAscending s → IsAscending (merge_of_sets merge s t) }
    ensures elements { (values : List Bool) → IsAscending (elements values) }
{}

/// A set is determined by its members, and a list of truth values by its set and its length. `bound_of` is the
/// least number above all numbers of a list.
#[tactic(auto, using(crate::proofs::SetLaws::sets_are_their_members))]
pub fn sets_are_their_members()
    ensures set { (s t : List ℕ) → IsAscending s → IsAscending t → ((n : ℕ) → has s n ≡ has t n) → s ≡ t }
    ensures values { (a b : List Bool) → elements a ≡ elements b → length a ≡ length b → a ≡ b }
    ensures bound_above { (numbers : List ℕ) (n : ℕ) → IsTrue (has numbers n) → n < bound_of numbers }
    ensures bound_least { (numbers : List ℕ) (bound : ℕ) → ((n : ℕ) → IsTrue (has numbers n) → n < bound)
        → bound_of numbers ≤ bound }
{}

/// The operations are those of finite sets. `those_below` and `those_from` each keep what passes a test; `put_all`
/// is `union`, for which see `merged_sets_are_finite_sets`.
#[tactic(auto, using(crate::proofs::SetLaws::sets_are_finite_sets))]
pub fn sets_are_finite_sets()
    ensures contains { (s : List ℕ) (n : ℕ) → set.contains (set.from_list {R = nat_cmp} s) n ≡ has s n }
    ensures insert { (s : List ℕ) (n : ℕ) → set.from_list {R = nat_cmp} (put s n) ≡ set.insert (set.from_list s) n }
    ensures remove { (s : List ℕ) (n : ℕ) → set.from_list {R = nat_cmp} (without s n) ≡ set.remove (set.from_list s) n }
    ensures retain { (test : ℕ → Bool) (s : List ℕ) → set.from_list {R = nat_cmp} (filter test s)
        ≡ set.retain (set.from_list s) test }
    ensures len { (s : List ℕ) → IsAscending s → set.len (set.from_list {R = nat_cmp} s) ≡ length s }
{}

/// The members of the merge of two sets.
#[tactic(auto, using(crate::proofs::AlgebraLemmas::members_of_merged_sets))]
pub fn members_of_merged_sets()
    ensures union { (s t : List ℕ) (n : ℕ) → has (union s t) n ≡ (has s n || has t n) }
    ensures intersection { (s t : List ℕ) (n : ℕ) → has (intersection s t) n ≡ (has s n && has t n) }
    ensures difference { (s t : List ℕ) (n : ℕ) → has (difference s t) n ≡ (has s n && not (has t n)) }
    ensures symmetric_difference { (s t : List ℕ) (n : ℕ) → has (symmetric_difference s t) n
        ≡ ((has s n && not (has t n)) || (not (has s n) && has t n)) }
    ensures merged { (merge : Merge) (s t : List ℕ) (n : ℕ)
        → has (merge_of_sets merge s t) n ≡ merge_of_values merge (has s n) (has t n) }
{}

/// A merge of two sets is that of two finite sets. The symmetric difference is what only the first has, and what
/// only the second has.
#[tactic(auto, using(crate::proofs::AlgebraLemmas::merged_sets_are_finite_sets))]
pub fn merged_sets_are_finite_sets()
    ensures union { (s t : List ℕ) → set.from_list {R = nat_cmp} (union s t)
        ≡ set.union (set.from_list s) (set.from_list t) }
    ensures intersection { (s t : List ℕ) → set.from_list {R = nat_cmp} (intersection s t)
        ≡ set.intersection (set.from_list s) (set.from_list t) }
    ensures difference { (s t : List ℕ) → set.from_list {R = nat_cmp} (difference s t)
        ≡ set.difference (set.from_list s) (set.from_list t) }
    ensures symmetric_difference { (s t : List ℕ) → set.from_list {R = nat_cmp} (symmetric_difference s t)
        ≡ set.union (set.difference (set.from_list s) (set.from_list t))
        (set.difference (set.from_list t) (set.from_list s)) }
{}

/// If two lists of truth values are merged value by value, the shorter one extended by false, their sets are merged
/// in the same way.
#[tactic(auto, using(crate::proofs::AlgebraLemmas::merged_lists_keep_merged_sets))]
pub fn merged_lists_keep_merged_sets()
    ensures merged { (merge : Merge) (a b : List Bool)
        → elements (merge_of merge a b) ≡ merge_of_sets merge (elements a) (elements b) }
    ensures length { (merge : Merge) (a b : List Bool) → length (merge_of merge a b) ≡ max (length a) (length b) }
{}

/// When a set is a subset of another, and when two have nothing in common.
#[tactic(auto, using(crate::proofs::MemberLemmas::sets_in_one_another))]
pub fn sets_in_one_another()
    ensures subset { (s t : List ℕ) → IsTrue (is_subset s t) ↔ ((n : ℕ) → IsTrue (has s n) → IsTrue (has t n)) }
    ensures disjoint { (s t : List ℕ) → IsTrue (is_disjoint s t) ↔ ((n : ℕ) → IsTrue (has s n) → IsTrue (has t n) → ⊥) }
    ensures no_difference { (s t : List ℕ) → IsTrue (is_subset s t) ↔ (difference s t ≡ []) }
    ensures no_intersection { (s t : List ℕ) → IsTrue (is_disjoint s t) ↔ (intersection s t ≡ []) }
    ensures both_ways { (s t : List ℕ) → IsAscending s → IsAscending t
        → (IsTrue (is_subset s t) × IsTrue (is_subset t s)) ↔ (s ≡ t) }
    ensures finite_sets { (s t : List ℕ) → is_subset s t ≡ set.is_subset (set.from_list {R = nat_cmp} s)
        (set.from_list t) }
{}

/// The two parts into which `split_off` divides a set: its members below a number, and the others. Each of the
/// first is below each of the second, so they have nothing in common, and together they are the set. So `append` of
/// the returned part restores the list of truth values: the old elements, and the old length.
#[tactic(auto, using(crate::proofs::SplitLemmas::joined, crate::proofs::SplitLemmas::apart, crate::proofs::SplitLemmas::rejoined))]
pub fn parted_sets()
    ensures joined { (s : List ℕ) (at : ℕ) → IsAscending s → union (those_below s at) (those_from s at) ≡ s }
    ensures below { (s : List ℕ) (at m n : ℕ) → IsTrue (has (those_below s at) m) → IsTrue (has (those_from s at) n)
        → m < n }
    ensures rejoined { (old first part new : List Bool) (at : ℕ) → elements first ≡ those_below (elements old) at
        → length first ≡ min (length old) at
        → elements part ≡ those_from (elements old) at
        → length part ≡ (if nat_lt at (length old) then length old else 0)
        → elements new ≡ union (elements first) (elements part) → length new ≡ max (length first) (length part)
        → new ≡ old }
{}

/// How sets compare. Sets are the same if their lists are equal. The order is total, and is `Equal` only for the
/// same sets. The first number that exactly one set has decides: that set is less if the other has a greater
/// member, and greater if it has none. So it is not the order of subsets. The same sets feed a hasher the same
/// input.
pub fn sets_compare()
    ensures same { (s t : List ℕ) → IsTrue (same_sets s t) ↔ (s ≡ t) }
    ensures equivalence { IsEquivalence same_sets }
    ensures total { IsTotalOrder order_of_sets }
    ensures equal { (s t : List ℕ) → (order_of_sets s t ≡ Ordering.Equal) ↔ IsTrue (same_sets s t) }
    ensures goes_on { (front s t : List ℕ) (x y : ℕ) → x < y
        → order_of_sets (front ++ x ∷ s) (front ++ y ∷ t) ≡ Ordering.Less }
    ensures ends { (front s : List ℕ) (x : ℕ) → order_of_sets front (front ++ x ∷ s) ≡ Ordering.Less }
    ensures no_subsets_first { order_of_sets (0 ∷ 1 ∷ []) (1 ∷ []) ≡ Ordering.Less }
    ensures fed { (s t : List ℕ) → IsTrue (same_sets s t) → fed_of_set s ≡ fed_of_set t }
{}

/// What tests of all members say about the members: a test that each passes, and `==`, which std's contracts call
/// `same_sets`.
#[tactic(auto, using(crate::proofs::MemberLemmas::tests_of_members))]
pub fn tests_of_members()
    ensures all { (p : ℕ → Bool) (s : List ℕ) → IsTrue (list_all p s)
        ↔ ((x : ℕ) → IsTrue (has s x) → IsTrue (p x)) }
    ensures same { (a b : List Bool) → IsTrue (same_sets (elements a) (elements b))
        ↔ IsSameSet (elements a) (elements b) }
{}

/// What searches say about the members: whether one passes a test, and in a list that ascends the least that does,
/// and how many are below it.
#[tactic(auto, using(crate::proofs::TestLemmas::searches_of_members))]
pub fn searches_of_members()
    ensures any { (p : ℕ → Bool) (s : List ℕ) → IsTrue (list_any p s)
        ↔ ((x : ℕ) × IsTrue (has s x) × IsTrue (p x)) }
    ensures found { (p : ℕ → Bool) (s : List ℕ) → IsAscending s
        → MatchOption (find p s) ((x : ℕ) → IsTrue (has s x) → p x ≡ false) (IsLeastPassing p s) }
    ensures place { (p : ℕ → Bool) (s : List ℕ) → IsAscending s → MatchOption (find p s)
        (position_or_len p s ≡ length s) (λ m. position_or_len p s ≡ length (those_below s m)) }
{}

/// The greatest and the least member, as `max`, `min` and `last` of an iterator return them.
pub fn ends_of_sets()
    ensures greatest { (s : List ℕ) → MatchOption (reduce max s) (HasNone s) (IsGreatest s) }
    ensures least { (s : List ℕ) → MatchOption (reduce min s) (HasNone s) (IsLeast s) }
    ensures last { (s : List ℕ) → IsAscending s → last_or None s ≡ reduce max s }
{}

/// The members of what a chain makes of a set: those that pass a test, and the results of a function. `put` says
/// the same for items inserted into the empty set.
#[tactic(auto, using(crate::proofs::TestLemmas::members_of_chains))]
pub fn members_of_chains()
    ensures filtered { (p : ℕ → Bool) (s : List ℕ) (x : ℕ) → has (filter p s) x ≡ (has s x && p x) }
    ensures mapped { (f : ℕ → ℕ) (s : List ℕ) (x : ℕ) → IsTrue (has (map f s) x)
        ↔ ((m : ℕ) × IsTrue (has s m) × (f m ≡ x)) }
    ensures raised { (s : List ℕ) (by x : ℕ) → has (map (λ m. m + by) s) x ≡ (nat_le by x && has s (x - by)) }
    ensures put { (items : List ℕ) (x : ℕ) → has (put_all [] items) x ≡ has items x }
{}

/// A member is below the length.
#[tactic(auto, using(crate::proofs::ValueLemmas::members_are_below_lengths))]
pub fn members_are_below_lengths()
    ensures within { (values : List Bool) (x : ℕ) → IsTrue (has (elements values) x) → x < length values }
    ensures past { (values : List Bool) (x : ℕ) → length values ≤ x → has (elements values) x ≡ false }
{}

/// What a step of an iterator does to the members that are left, by the clause `first` of `Advances`: `x` is the
/// item, and `s` and `t` are what was left before it and after it.
#[tactic(auto, using(std::proofs::lemmas::Bool::Decides::nat_tests))]
pub fn steps_of_walks()
    ensures before { (s t : List ℕ) (x y : ℕ) → TakesLeast s x t → IsTrue (has t y) → IsTrue (has s y) }
    ensures after { (s t : List ℕ) (x y : ℕ) → TakesLeast s x t → IsTrue (has s y) → (x ≡ y) ⊎ IsTrue (has t y) }
    ensures above { (s t : List ℕ) (x y : ℕ) → TakesLeast s x t → IsTrue (has t y) → x < y }
    ensures below { (s t : List ℕ) (x y : ℕ) → TakesLeast s x t → y < x → has s y ≡ false }
{}

/// The runs of a set: their numbers are exactly its members, they ascend, and between each and the next there is a
/// number that is not a member, so none can be longer. This holds for no other list of ranges.
#[tactic(auto, using(crate::proofs::RunLemmas::runs_of_sets))]
pub fn runs_of_sets()
    ensures runs { (s : List ℕ) → IsAscending s → AreRuns s (runs_of s) }
    ensures only { (s : List ℕ) (rs : List (Range ℕ)) → IsAscending s → AreRuns s rs → rs ≡ runs_of s }
{}
