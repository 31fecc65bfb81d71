//! Laws of sets of numbers, stated as the contracts of functions that do nothing; one of them has a body that does
//! nothing else than prove it. A set is the list of its members in strictly ascending order.
ghost use Rattle.std.specs.Prelude.{◌≡◌, ◌≢◌, ℕ, ◌+◌, ◌-◌, ◌*◌, ◌/◌, ◌<◌, ◌≤◌, ◌↔◌, ◌++◌, ◌∷◌, ◌==◌, ◌&&◌, ◌||◌, max, min, not, nat_lt, nat_le, if◌then◌else◌, Bool, true, All, IsTrue, Some, None};
ghost use Rattle.std.specs.Prelude.{Option, List, [], length, map, slice_get, MatchOption, filter, false, ◌⊎◌};
ghost use Rattle.std.specs.{Cmp.{IsEquivalence, IsTotalOrder}, Ordering.nat_cmp, Iterator.{YieldsThen, Drains}, List.{find, last_or, list_all, list_any, position_or_len, reduce}};
ghost use Rattle.std.specs.FinSet as set;
ghost use Rattle.bit_blocks.specs.{Bits.{blocks_for, blocks_of, true_end}, Merges.{merge_of_values, merge_of}, declared.block.merge.Merge.Merge};
ghost use Rattle.serde_json.specs.Data.{Data};
ghost use Rattle.set_algebra.specs.Sets.{IsAscending, has, put, put_all, without, those_below, those_from, those_new, elements, bound_of, union, intersection, difference, symmetric_difference};
ghost use Rattle.set_algebra.specs.Sets.{merge_of_sets, is_subset, is_disjoint};
ghost use Rattle.bit_set.specs.{Agreement.WalksAgree, Changes.{Change, Changes, Event, Happens, outcomes, set_after, Outcome.{Done, NoMemory}}, Effects.TakesIn};
ghost use Rattle.set_algebra.specs.Choices.{IsGreatest, IsLeast, IsLeastPassing};
ghost use Rattle.set_algebra.specs.{Members.{HasNone, IsSameSet, TakesLeast}, Ranges.{span, span_end, those_in_range}};
ghost use Rattle.bit_set.specs.{Capacity.Run, Json.{IsFirstFault, Spells}, declared.json.JsonError.JsonError};
ghost use Rattle.bit_set.specs.Walk.{Walk, TwoSetWalk, BoundedWalk, IsWalkedOut, IsAtStart};
ghost use Rattle.set_algebra.specs.Order.{same_sets, order_of_sets, fed_of_set};
ghost use Rattle.bit_set.specs.Walk.{IsAtStartFrom, CallsEnd, GivesFromEnds, in_order, StartsOverTwo, WalksOverTwo, blocks_past};

use crate::bit_vec::Merge;
use crate::{BitBlock, BitSet, Difference, Intersection, Iter, SymmetricDifference, Union};
use std::cmp::Ordering;
use std::fmt::Display;
use std::hash::Hash;

mod changes;
mod range_texts;
mod ranges;

pub use changes::merges_that_keep_sets;
pub use range_texts::texts_of_ranges;
pub use ranges::{
    ends_of_searches, parts_of_ranges, ranks_of_members, walks_over_missing, walks_over_parts,
};
/// The laws of sets of numbers.
pub use set_algebra::laws::{
    ends_of_sets, first_of_a_set, items_in_two_parts, members_are_below_lengths, members_of_chains,
    members_of_merged_sets, members_of_sets, merged_lists_keep_merged_sets,
    merged_sets_are_finite_sets, numbers_of_ranges, parted_sets, runs_of_sets, searches_of_members,
    sets_are_finite_sets, sets_are_their_members, sets_ascend, sets_compare, sets_in_one_another,
    sizes_of_sets, steps_of_walks, tests_of_members,
};

/// What `from_iter` collects from complete iteration over a merge of two sets is what the operation in place
/// leaves. The members of a set, inserted into the empty set one by one, are that set.
pub fn collected_walks<B: BitBlock + 'static>()
    ensures set { (s : List ℕ) → IsAscending s → put_all [] s ≡ s }
    ensures union { (a b c : List Bool) (s : TwoSetWalk) (items : List ℕ) → s.left ≡ union (elements a) (elements b)
        → Drains ⟦<Union<'static, B> as Iterator>⟧.next_gives s items → elements c ≡ put_all [] items
        → elements c ≡ union (elements a) (elements b) }
    ensures intersection { (a b c : List Bool) (s : BoundedWalk) (items : List ℕ)
        → s.walk.left ≡ intersection (elements a) (elements b)
        → Drains ⟦<Intersection<'static, B> as Iterator>⟧.next_gives s items → elements c ≡ put_all [] items
        → elements c ≡ intersection (elements a) (elements b) }
    ensures difference { (a b c : List Bool) (s : TwoSetWalk) (items : List ℕ)
        → s.left ≡ difference (elements a) (elements b)
        → Drains ⟦<Difference<'static, B> as Iterator>⟧.next_gives s items → elements c ≡ put_all [] items
        → elements c ≡ difference (elements a) (elements b) }
    ensures symmetric_difference { (a b c : List Bool) (s : TwoSetWalk) (items : List ℕ)
        → s.left ≡ symmetric_difference (elements a) (elements b)
        → Drains ⟦<SymmetricDifference<'static, B> as Iterator>⟧.next_gives s items → elements c ≡ put_all [] items
        → elements c ≡ symmetric_difference (elements a) (elements b) }
{}

/// What complete iteration yields. From any point on, the calls of `next` up to the first `None` yield exactly the
/// elements that are left, in order, and make at most one pull more than there are blocks after the block in hand.
/// After that there is only `None`. After an item the block in hand is the one that has it, which determines the
/// blocks that `size_hint` counts. From the start there is at most one pull more than there are blocks, and two
/// pulls if there is no block. Generic code makes these same calls of `next`, so the number of items that it counts
/// is the number of elements left.
pub fn whole_walks<B: BitBlock + 'static>()
    ensures rest { (s t : Walk) (items : List ℕ) → YieldsThen ⟦<Iter<'static, B> as Iterator>⟧.next_gives s items None t
        → IsWalkedOut s items t }
    ensures whole { (values : List Bool) (s t : Walk) (items : List ℕ) → IsAtStart B.width values s
        → YieldsThen ⟦<Iter<'static, B> as Iterator>⟧.next_gives s items None t
        → (items ≡ elements values) × (t.pulls ≤ max 1 (blocks_for B.width (length values)) + 1) }
    ensures in_hand { (values : List Bool) (s t : Walk) (items : List ℕ) (x : ℕ) → IsAtStart B.width values s
        → YieldsThen ⟦<Iter<'static, B> as Iterator>⟧.next_gives s items (Some x) t
        → t.blocks ≡ blocks_for B.width (length values) - 1 - x / B.width }
    ensures for_good { (s t : Walk) (r : Option ℕ) → s.left ≡ [] → ⟦<Iter<'static, B> as Iterator>⟧.next_gives s r t
        → (r ≡ None) × (t.left ≡ []) }
    ensures count { (s : Walk) (items : List ℕ) → Drains ⟦<Iter<'static, B> as Iterator>⟧.next_gives s items
        → length items ≡ length s.left }
{}

/// How many pulls complete iteration over a set makes. From any point up to the first `None` there is exactly one
/// pull more than there are nonzero blocks not yet pulled, all of which lie after the block in hand. From the
/// start, when block 0 is in hand, zero or not, there are two pulls more than there are nonzero blocks after it;
/// likewise for an iterator that starts at any number, counting the blocks after the one with that number. Each
/// block of the summary is pulled once, and there is one more pull at the end. The nonzero blocks after block `k`
/// are the blocks after it that have an element which is left, each once and in ascending order.
pub fn sparse_walks<B: BitBlock + 'static>()
    ensures rest { (s t : Walk) (items : List ℕ) → YieldsThen ⟦<Iter<'static, B> as Iterator>⟧.next_gives s items None t
        → t.pulls ≡ s.pulls + s.nonzero_left + 1 }
    ensures at_most { (s t : Walk) (items : List ℕ) → YieldsThen ⟦<Iter<'static, B> as Iterator>⟧.next_gives s items None t
        → t.pulls ≤ s.pulls + length (blocks_past B.width (s.index / B.width) s.left) + 1 }
    ensures whole { (values : List Bool) (s t : Walk) (items : List ℕ) → IsAtStart B.width values s
        → YieldsThen ⟦<Iter<'static, B> as Iterator>⟧.next_gives s items None t
        → t.pulls ≡ length (blocks_past B.width 0 (elements values)) + 2 }
    ensures summary { (values : List Bool) (s t : Walk) (items : List ℕ) → IsAtStart B.width values s
        → YieldsThen ⟦<Iter<'static, B> as Iterator>⟧.next_gives s items None t
        → t.summary_pulls ≡ max 1 (blocks_for B.width (blocks_for B.width (length values))) + 1 }
    ensures whole_from { (values : List Bool) (from : ℕ) (s t : Walk) (items : List ℕ)
        → IsAtStartFrom B.width values from s → YieldsThen ⟦<Iter<'static, B> as Iterator>⟧.next_gives s items None t
        → (items ≡ those_from (elements values) from)
        × (t.pulls ≡ length (blocks_past B.width (s.index / B.width) (those_from (elements values) from)) + 2) }
    ensures members { (k q : ℕ) (numbers : List ℕ) → IsAscending numbers
        → has (blocks_past B.width k numbers) q ≡ (nat_lt k q && has (map (λ n. n / B.width) numbers) q) }
    ensures ascend { (k : ℕ) (numbers : List ℕ) → IsAscending (blocks_past B.width k numbers) }
{}

/// What an iterator over a set yields from both ends, by calls of `next` and `next_back` in any mixture up to the
/// first `None`: the items from the front, followed by those from the back in reverse, are all that was left. There
/// is exactly one pull more than there are nonzero blocks not yet pulled, from whichever end; from the start there
/// are two more than there are nonzero blocks after block 0.
pub fn walks_from_both_ends<B: BitBlock + 'static>()
    ensures rest { (s t u : Walk) (calls : List (Bool × ℕ)) (front : Bool) → GivesFromEnds B.width s calls t
        → CallsEnd B.width front t None u
        → (s.left ≡ in_order calls) × (u.left ≡ []) × (u.pulls ≡ s.pulls + s.nonzero_left + 1) }
    ensures whole { (values : List Bool) (s t u : Walk) (calls : List (Bool × ℕ)) (front : Bool)
        → IsAtStart B.width values s → GivesFromEnds B.width s calls t → CallsEnd B.width front t None u
        → (in_order calls ≡ elements values) × (u.pulls ≡ length (blocks_past B.width 0 (elements values)) + 2) }
    ensures for_good { (s t : Walk) (r : Option ℕ) → s.left ≡ [] → CallsEnd B.width false s r t
        → (r ≡ None) × (t.left ≡ []) }
{}

/// What complete iteration over two sets yields, for each of the four operations. As above, but the number of pulls
/// is exact: from any point up to the first `None` there is one more than there are blocks after the block in hand;
/// from the start one more than the set with more blocks has, and two if both have none.
pub fn whole_walks_over_two_sets<B: BitBlock + 'static>()
    ensures union { WalksOverTwo B.width Merge.Union (λ walk. walk) ⟦<Union<'static, B> as Iterator>⟧.next_gives }
    ensures intersection { WalksOverTwo B.width Merge.Intersection
        (λ it. it.walk) ⟦<Intersection<'static, B> as Iterator>⟧.next_gives }
    ensures difference { WalksOverTwo B.width Merge.Difference
        (λ walk. walk) ⟦<Difference<'static, B> as Iterator>⟧.next_gives }
    ensures symmetric_difference { WalksOverTwo B.width Merge.Symmetric
        (λ walk. walk) ⟦<SymmetricDifference<'static, B> as Iterator>⟧.next_gives }
{}

/// What each of the five iterators yields up to the first `None` is strictly ascending.
pub fn whole_walks_ascend<B: BitBlock + 'static>()
    ensures iter { (a : List Bool) (s t : Walk) (items : List ℕ) → s.left ≡ elements a
        → YieldsThen ⟦<Iter<'static, B> as Iterator>⟧.next_gives s items None t → IsAscending items }
    ensures union { (a b : List Bool) (s t : TwoSetWalk) (items : List ℕ) → s.left ≡ union (elements a) (elements b)
        → YieldsThen ⟦<Union<'static, B> as Iterator>⟧.next_gives s items None t → IsAscending items }
    ensures intersection { (a b : List Bool) (s t : BoundedWalk) (items : List ℕ)
        → s.walk.left ≡ intersection (elements a) (elements b)
        → YieldsThen ⟦<Intersection<'static, B> as Iterator>⟧.next_gives s items None t → IsAscending items }
    ensures difference { (a b : List Bool) (s t : TwoSetWalk) (items : List ℕ)
        → s.left ≡ difference (elements a) (elements b)
        → YieldsThen ⟦<Difference<'static, B> as Iterator>⟧.next_gives s items None t → IsAscending items }
    ensures symmetric_difference { (a b : List Bool) (s t : TwoSetWalk) (items : List ℕ)
        → s.left ≡ symmetric_difference (elements a) (elements b)
        → YieldsThen ⟦<SymmetricDifference<'static, B> as Iterator>⟧.next_gives s items None t → IsAscending items }
{}

/// Capacity that a set has suffices. If it has capacity for `capacity` values, as after `reserve_len(capacity)`, no
/// sequence of calls that need no more can fail, and the capacity stays: insertions below `capacity`, removals,
/// `truncate`, `make_empty` and `reset`, reservations of at most `capacity`, and `clone_from`, `append` and
/// operations in place with sets no longer than `capacity`. The clause `grows` or `capacity` of each call says what
/// it does to the capacity.
pub fn runs_within_capacity()
    ensures each { (capacity old new : ℕ) (calls : List (ℕ × Bool)) → capacity ≤ old
        → All (λ call. call.0 ≤ capacity) calls → Run old calls new → All (λ call. IsTrue call.1) calls }
    ensures stays { (capacity old new : ℕ) (calls : List (ℕ × Bool)) → capacity ≤ old
        → All (λ call. call.0 ≤ capacity) calls → Run old calls new → new ≡ old }
{}

/// How long a shrunk set is. The last true value of a list is just below the bound of its elements, and
/// `blocks_for` is the least number of blocks of `w` bits that hold `n` values.
#[tactic(auto, using(crate::proofs::CapacityLemmas::shrunk_lengths))]
pub fn shrunk_lengths()
    ensures ends { (values : List Bool) → true_end values ≡ bound_of (elements values) }
    ensures enough { (w n : ℕ) → 0 < w → n ≤ blocks_for w n * w }
    ensures least { (w n blocks : ℕ) → 0 < w → n ≤ blocks * w → blocks_for w n ≤ blocks }
{}

/// What a JSON value represents, in blocks of `w` bits. It has one reading: the blocks, the length, and so the list
/// of truth values and its elements. A set that is written and read again is the same set. A value that represents
/// a set has no fault, and any other has at most one first fault.
pub fn values_have_one_reading()
    ensures reading { (w : ℕ) (value : Data) (ms ns : List ℕ) (m n : ℕ) → Spells w value ms m → Spells w value ns n
        → (ms ≡ ns) × (m ≡ n) }
    ensures values { (w : ℕ) (value : Data) (a b : List Bool) → 0 < w → Spells w value (blocks_of w a) (length a)
        → Spells w value (blocks_of w b) (length b) → a ≡ b }
    ensures no_fault { (w : ℕ) (value : Data) (ms : List ℕ) (n : ℕ) (fault : JsonError) → Spells w value ms n
        → ¬ IsFirstFault w value fault }
    ensures one_fault { (w : ℕ) (value : Data) (a b : JsonError) → IsFirstFault w value a → IsFirstFault w value b
        → a ≡ b }
{}

/// What calls make of a set, one after another, if every allocation succeeds. The elements are those of set
/// algebra, and so is the result of each call: no block, length or capacity matters. So two sets with the same
/// elements, over any two block types, have the same elements after the same calls, which return the same. The
/// clause `changes` of each call says what it does; for `extend`, the items are those that were inserted, in its
/// `TakesIn`.
#[tactic(auto, using(crate::proofs::ChangeLemmas::happens_found, crate::proofs::ChangeLemmas::happens_agree), unfolding(crate::specs::Changes::Changes))]
pub fn calls_are_set_algebra()
    ensures elements { (old new : List Bool) (events : List Event) → All (λ e. e.outcome ≢ NoMemory) events
        → Happens old events new → elements new ≡ set_after (elements old) (map (λ e. e.call) events) }
    ensures outcomes { (old new : List Bool) (events : List Event) → All (λ e. e.outcome ≢ NoMemory) events
        → Happens old events new
        → map (λ e. e.outcome) events ≡ outcomes (elements old) (map (λ e. e.call) events) }
    ensures agree { (a b new_a new_b : List Bool) (events others : List Event) → elements a ≡ elements b
        → map (λ e. e.call) events ≡ map (λ e. e.call) others
        → All (λ e. e.outcome ≢ NoMemory) events → All (λ e. e.outcome ≢ NoMemory) others
        → Happens a events new_a → Happens b others new_b
        → (elements new_a ≡ elements new_b) × (map (λ e. e.outcome) events ≡ map (λ e. e.outcome) others) }
    ensures extend { (items : List ℕ) (old new : List Bool) → TakesIn items old new
        → Changes (Change.Extend items) old Done new }
{}

/// No test depends on blocks, lengths or capacities. Over any two block types, if `a` has the elements of `b` and
/// `s` those of `t`, each test returns for `a` and `s` what it returns for `b` and `t`, as the body proves; a
/// hasher is fed the same, and Display writes the same.
pub fn tests_agree<A: BitBlock, B: BitBlock>(
    a: &BitSet<A>,
    s: &BitSet<A>,
    b: &BitSet<B>,
    t: &BitSet<B>,
    value: usize,
)
    requires first { elements a.now.values ≡ elements b.now.values }
    requires second { elements s.now.values ≡ elements t.now.values }
    ensures feed { ⟦<BitSet<A> as Hash>⟧.hash_input a.now ≡ ⟦<BitSet<B> as Hash>⟧.hash_input b.now }
    ensures text { ⟦<BitSet<A> as Display>⟧.output a.now ≡ ⟦<BitSet<B> as Display>⟧.output b.now }
{
    prove!(a.contains(value) == b.contains(value));
    prove!(a.count() == b.count());
    prove!(a.len() == b.len());
    prove!(a.is_empty() == b.is_empty());
    prove!(a.is_subset(s) == b.is_subset(t));
    prove!(a.is_superset(s) == b.is_superset(t));
    prove!(a.is_disjoint(s) == b.is_disjoint(t));
    prove!((a == s) == (b == t));
    prove!(a.cmp(s) == b.cmp(t));
    prove!(a.partial_cmp(s) == b.partial_cmp(t));
}

/// The items of an iterator do not depend on blocks, lengths or capacities. Over any two block types, two iterators
/// of a kind with the same elements left yield the same from there on, step by step and up to the first `None`.
/// They have the same elements left if they were made from sets of the same elements and have yielded equally many
/// items, or if one is a `clone` of the other; and `count` is the number of elements left.
pub fn walks_agree<A: BitBlock + 'static, B: BitBlock + 'static>()
    ensures iter { WalksAgree (λ walk. walk.left) ⟦<Iter<'static, A> as Iterator>⟧.next_gives
        (λ walk. walk.left) ⟦<Iter<'static, B> as Iterator>⟧.next_gives }
    ensures union { WalksAgree (λ walk. walk.left) ⟦<Union<'static, A> as Iterator>⟧.next_gives
        (λ walk. walk.left) ⟦<Union<'static, B> as Iterator>⟧.next_gives }
    ensures intersection { WalksAgree (λ it. it.walk.left) ⟦<Intersection<'static, A> as Iterator>⟧.next_gives
        (λ it. it.walk.left) ⟦<Intersection<'static, B> as Iterator>⟧.next_gives }
    ensures difference { WalksAgree (λ walk. walk.left) ⟦<Difference<'static, A> as Iterator>⟧.next_gives
        (λ walk. walk.left) ⟦<Difference<'static, B> as Iterator>⟧.next_gives }
    ensures symmetric_difference { WalksAgree
        (λ walk. walk.left) ⟦<SymmetricDifference<'static, A> as Iterator>⟧.next_gives
        (λ walk. walk.left) ⟦<SymmetricDifference<'static, B> as Iterator>⟧.next_gives }
{}

/// How many pulls complete iteration makes, from the start up to the first `None`: at most two more than there are
/// blocks; over two sets, blocks of the one that has more.
pub fn full_walks<B: BitBlock + 'static>()
    ensures iter { (a : List Bool) (s t : Walk) (items : List ℕ) → IsAtStart B.width a s
        → YieldsThen ⟦<Iter<'static, B> as Iterator>⟧.next_gives s items None t
        → t.pulls ≤ blocks_for B.width (length a) + 2 }
    ensures union { (a b : List Bool) (s t : TwoSetWalk) (items : List ℕ) → StartsOverTwo B.width a b s
        → YieldsThen ⟦<Union<'static, B> as Iterator>⟧.next_gives s items None t
        → t.pulls ≤ max (blocks_for B.width (length a)) (blocks_for B.width (length b)) + 2 }
    ensures intersection { (a b : List Bool) (s t : BoundedWalk) (items : List ℕ) → StartsOverTwo B.width a b s.walk
        → YieldsThen ⟦<Intersection<'static, B> as Iterator>⟧.next_gives s items None t
        → t.walk.pulls ≤ max (blocks_for B.width (length a)) (blocks_for B.width (length b)) + 2 }
    ensures difference { (a b : List Bool) (s t : TwoSetWalk) (items : List ℕ) → StartsOverTwo B.width a b s
        → YieldsThen ⟦<Difference<'static, B> as Iterator>⟧.next_gives s items None t
        → t.pulls ≤ max (blocks_for B.width (length a)) (blocks_for B.width (length b)) + 2 }
    ensures symmetric_difference { (a b : List Bool) (s t : TwoSetWalk) (items : List ℕ)
        → StartsOverTwo B.width a b s
        → YieldsThen ⟦<SymmetricDifference<'static, B> as Iterator>⟧.next_gives s items None t
        → t.pulls ≤ max (blocks_for B.width (length a)) (blocks_for B.width (length b)) + 2 }
{}
