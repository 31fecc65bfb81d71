//! Sets by their names, and the iterators over two of them, which may be the same.

ghost use Rattle.std.specs.Prelude.{◌≡◌, ◌≢◌, [], drop, map, IfOk, OnErr};
ghost use Rattle.bit_set.specs.Sets.{merge_of_sets};
ghost use Rattle.bit_set_run.specs.{Elements.elements_of, Run.{rest_of, set_of}};
ghost use Rattle.bit_set_commands.specs.declared.commands.Reply.TheVariants.{Items};

use crate::walking::{items, rest};
use crate::{Reply, SetName};
use bit_set::bit_vec::Merge;
use bit_set::{BitBlock, BitSet};
use std::alloc::{AllocError, Global};

/// The set of this name.
#[inline]
pub(crate) fn set_of<B: BitBlock>(sets: &[BitSet<B>; 16], name: SetName) -> &BitSet<B>
    ensures { elements_of result.now ≡ set_of (map elements_of sets.now) name }
{
    &sets[name.place()]
}

/// What the sets become.
pub(crate) fn walk<B: BitBlock>(
    alloc: Global,
    sets: &[BitSet<B>; 16],
    merge: Merge,
    s: SetName,
    t: SetName,
) -> Result<Reply, AllocError>
    ensures reply { IfOk result (λ reply. reply ≡ Items
        (merge_of_sets merge (set_of (map elements_of sets.now) s) (set_of (map elements_of sets.now) t))) }
    ensures fails { OnErr result (merge_of_sets merge (set_of (map elements_of sets.now) s)
        (set_of (map elements_of sets.now) t) ≢ []) }
{
    let first = set_of(sets, s);
    let second = set_of(sets, t);
    match merge {
        Merge::Union => items(alloc, first.union(second)),
        Merge::Intersection => items(alloc, first.intersection(second)),
        Merge::Difference => items(alloc, first.difference(second)),
        Merge::Symmetric => items(alloc, first.symmetric_difference(second)),
    }
}

/// What is left of an iterator over the merge of the sets.
pub(crate) fn rest_of_walk<B: BitBlock>(
    alloc: Global,
    sets: &[BitSet<B>; 16],
    merge: Merge,
    s: SetName,
    t: SetName,
    taken: usize,
) -> Result<Reply, AllocError>
    ensures reply { IfOk result (λ reply. reply ≡ rest_of taken
        (merge_of_sets merge (set_of (map elements_of sets.now) s) (set_of (map elements_of sets.now) t))) }
    ensures fails { OnErr result (drop taken (merge_of_sets merge (set_of (map elements_of sets.now) s)
        (set_of (map elements_of sets.now) t)) ≢ []) }
{
    let first = set_of(sets, s);
    let second = set_of(sets, t);
    match merge {
        Merge::Union => rest(alloc, first.union(second), taken),
        Merge::Intersection => rest(alloc, first.intersection(second), taken),
        Merge::Difference => rest(alloc, first.difference(second), taken),
        Merge::Symmetric => rest(alloc, first.symmetric_difference(second), taken),
    }
}
