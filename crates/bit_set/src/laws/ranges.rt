// Laws of the members and the absent numbers of a range, and of searches for the nearest member.
ghost use Rattle.std.specs.{Prelude.{◌≡◌, ℕ, ◌+◌, ◌/◌, ◌≤◌, ◌++◌, ◌↔◌, MatchOption, None, Option, Some, IsTrue, List, [], length, slice_get, Bool}, Iterator.{Drains, YieldsThen}};
ghost use Rattle.bit_blocks.specs.Searches.{FindsBefore, FindsFrom};
ghost use Rattle.set_algebra.specs.{Choices.{IsFirstOf, IsGreatest, IsLastOf, IsLeast}, Members.HasNone, Ranges.{span, those_in_range}};
ghost use Rattle.bit_set.specs.{Agreement.WalksAgree, Missing.{MissingWalk, StartsMissing}};
ghost use Rattle.set_algebra.specs.Sets.{IsAscending, difference, elements, has, is_disjoint, those_below, those_from, union};
ghost use Rattle.bit_set.specs.Walk.{CallsEnd, GivesFromEnds, IsAtStartOfPart, Walk, blocks_past, in_order};

use crate::{BitBlock, Iter, Missing};

/// A set divides a range into the numbers present and those absent: these have nothing in common, and together they
/// are the range. In a range from 0, the members are those below its end; so `count_in_range(0..n)` is the rank of
/// `n`, and the items of `missing(0..n)` together with the members below `n` are the numbers below `n`.
pub fn parts_of_ranges()
    ensures joined { (s : List ℕ) (a b : ℕ) → IsAscending s
        → union (difference (span a b) s) (those_in_range s a b) ≡ span a b }
    ensures apart { (s : List ℕ) (a b : ℕ) → IsTrue (is_disjoint (difference (span a b) s) (those_in_range s a b)) }
    ensures below { (s : List ℕ) (n : ℕ) → those_in_range s 0 n ≡ those_below s n }
    ensures count { (s : List ℕ) (a b : ℕ) → IsAscending s
        → length (difference (span a b) s) + length (those_in_range s a b) ≡ length (span a b) }
{}

/// What searches find in a set whose list ascends: `first` the least member, `last` the greatest, `next` the least
/// at or above a number, and `previous` the greatest below it; `None` if there is none.
pub fn ends_of_searches()
    ensures first { (s : List ℕ) (r : Option ℕ) → IsAscending s
        → IsFirstOf s r ↔ MatchOption r (HasNone s) (IsLeast s) }
    ensures last { (s : List ℕ) (r : Option ℕ) → IsAscending s
        → IsLastOf s r ↔ MatchOption r (HasNone s) (IsGreatest s) }
    ensures next { (s : List ℕ) (n : ℕ) (r : Option ℕ) → IsAscending s
        → FindsFrom (has s) n r ↔ IsFirstOf (those_from s n) r }
    ensures previous { (s : List ℕ) (n : ℕ) (r : Option ℕ) → IsAscending s
        → FindsBefore (has s) n r ↔ IsLastOf (those_below s n) r }
{}

/// What complete iteration over the missing numbers of a range yields: from any point up to the first `None`,
/// exactly what is left, in order, and after that only `None`; from the start, the absent numbers of the range. Two
/// iterators with the same numbers left yield the same from there on, whatever their block types.
pub fn walks_over_missing<A: BitBlock + 'static, B: BitBlock + 'static>()
    ensures rest { (s t : MissingWalk) (items : List ℕ)
        → YieldsThen ⟦<Missing<'static, B> as Iterator>⟧.next_gives s items None t → (items ≡ s.left) × (t.left ≡ []) }
    ensures whole { (values : List Bool) (a b : ℕ) (s t : MissingWalk) (items : List ℕ)
        → StartsMissing B.width values a b s
        → YieldsThen ⟦<Missing<'static, B> as Iterator>⟧.next_gives s items None t
        → items ≡ difference (span a b) (elements values) }
    ensures for_good { (s t : MissingWalk) (r : Option ℕ) → s.left ≡ []
        → ⟦<Missing<'static, B> as Iterator>⟧.next_gives s r t → (r ≡ None) × (t.left ≡ []) }
    ensures count { (s : MissingWalk) (items : List ℕ)
        → Drains ⟦<Missing<'static, B> as Iterator>⟧.next_gives s items → length items ≡ length s.left }
    ensures agree { WalksAgree (λ walk. walk.left) ⟦<Missing<'static, A> as Iterator>⟧.next_gives
        (λ walk. walk.left) ⟦<Missing<'static, B> as Iterator>⟧.next_gives }
{}

/// What an iterator over the elements of a range yields from its start, by calls of `next` up to the first `None`,
/// or by calls of `next` and `next_back` in any mixture: the elements of the range, in order. It makes two pulls
/// more than there are blocks after its first that have an element of the range. Together with the elements below
/// the range and those past it, they are the set.
pub fn walks_over_parts<B: BitBlock + 'static>()
    ensures joined { (s : List ℕ) (a b : ℕ) → IsAscending s → a ≤ b
        → those_below s a ++ (those_in_range s a b ++ those_from s b) ≡ s }
    ensures whole { (values : List Bool) (a b : ℕ) (s t : Walk) (items : List ℕ) → IsAtStartOfPart B.width values a b s
        → YieldsThen ⟦<Iter<'static, B> as Iterator>⟧.next_gives s items None t
        → (items ≡ those_in_range (elements values) a b)
        × (t.pulls ≡ length (blocks_past B.width (s.index / B.width) (those_in_range (elements values) a b)) + 2) }
    ensures both_ends { (values : List Bool) (a b : ℕ) (s t u : Walk) (calls : List (Bool × ℕ)) (front : Bool)
        → IsAtStartOfPart B.width values a b s → GivesFromEnds B.width s calls t → CallsEnd B.width front t None u
        → (in_order calls ≡ those_in_range (elements values) a b)
        × (u.pulls ≡ length (blocks_past B.width (s.index / B.width) (those_in_range (elements values) a b)) + 2) }
{}

/// The rank of a member, and selection by rank: in a set whose list ascends, `x` is the member with exactly `k`
/// others before it if and only if it is present and `k` members are below it, as `count_in_range(0..x)` counts
/// them.
pub fn ranks_of_members()
    ensures selected { (s : List ℕ) (k x : ℕ) → IsAscending s → (slice_get s k ≡ Some x)
        ↔ (IsTrue (has s x) × (length (those_in_range s 0 x) ≡ k)) }
{}
