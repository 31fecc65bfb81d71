//! What walks over two sets pull, count and collect.
ghost use Rattle.std.specs.Prelude.{◌≡◌, ℕ, ◌≤◌, Bool, IfOk, None, List, length};
ghost use Rattle.std.specs.Iterator.{YieldsThen};
ghost use Rattle.bit_set.specs.Sets.{elements, union, difference};
ghost use Rattle.bit_set.specs.Walk.{TwoSetWalk, StartsOverTwo};

use super::counted;
use crate::expect::{expect, expect_eq, ok, set_of};
use bit_set::laws::{collected_walks, whole_walks_over_two_sets};
use bit_set::{BitBlock, BitSet, Difference, SetError, Union};
use std::alloc::Global;

// Sets of lengths 501 and 201 over `u32` have 16 blocks and 7: a whole walk over what is in the first
// alone makes 17 pulls. One over what is in either of two sets of a block at most makes two.
fn pulls_over_two_sets()
    ensures wide { (a b : List Bool) (s t : TwoSetWalk) (items : List ℕ) → length a ≡ 501 → length b ≡ 201
        → s.left ≡ difference (elements a) (elements b)
        → StartsOverTwo 32 a b s → YieldsThen ⟦<Difference<'static, u32> as Iterator>⟧.next_gives s items None t
        → t.pulls ≡ 17 }
    ensures narrow { (a b : List Bool) (s t : TwoSetWalk) (items : List ℕ) → length a ≤ 32 → length b ≤ 32
        → s.left ≡ union (elements a) (elements b)
        → StartsOverTwo 32 a b s → YieldsThen ⟦<Union<'static, u32> as Iterator>⟧.next_gives s items None t
        → t.pulls ≡ 2 }
{
    whole_walks_over_two_sets::<u32>();
}

fn counts(a: &BitSet, b: &BitSet) -> [usize; 4] {
    [
        counted(a.union(b)),
        counted(a.intersection(b)),
        counted(a.difference(b)),
        counted(a.symmetric_difference(b)),
    ]
}

#[test]
fn what_two_sets_make_is_counted(rt: HostRuntime) {
    pulls_over_two_sets();
    let a = set_of(&rt, &[1, 3, 5, 200, 500]);
    let b = set_of(&rt, &[3, 200, 201]);
    expect_eq(&rt, &counts(&a, &b), &[6, 2, 3, 4]);
}

// What the walk over a union collects, and the set that becomes the union in place: they have the same
// elements.
fn collect_and_unite<B: BitBlock + 'static>(
    alloc: Global,
    set: &mut BitSet<B>,
    other: &BitSet<B>,
) -> Result<BitSet<B>, SetError>
    ensures { IfOk result (λ collected. elements collected.values ≡ elements set.new.values) }
{
    collected_walks::<B>();
    let collected = BitSet::from_iter(alloc, set.union(other))?;
    set.union_with(other)?;
    Ok(collected)
}

#[test]
fn a_walk_collects_what_is_left_in_place(rt: HostRuntime) {
    let mut set = set_of::<u32>(&rt, &[11, 1, 3]);
    let other = set_of(&rt, &[2, 11]);
    let collected = ok(&rt, collect_and_unite(rt.alloc(), &mut set, &other));
    expect(&rt, collected.iter().eq([1, 2, 3, 11]));
    expect(&rt, set.iter().eq([1, 2, 3, 11]));
}
