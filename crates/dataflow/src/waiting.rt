// The blocks that wait, by places: a set of them, and in which order they are visited.
ghost use Rattle.std.specs.Prelude.{◌≡◌, ◌<◌, ◌≤◌, ◌↔◌, ℕ, ◌*◌, ◌++◌, IfNone, IfOk, IfSome, IsOk, IsTrue, length, map, nat_lt};
ghost use Rattle.std.specs.List.{list_any};
ghost use Rattle.bit_set.specs.{Choices.IsFirstOf, Members.HasNone, Sets.{elements, has, those_from}};
ghost use Rattle.dataflow.specs.Worklist.{PutsBack, flowing_back, place_of};

use crate::Block;
use bit_set::{BitBlock, BitSet};
use std::alloc::{AllocError, Global};

// Whether most blocks have a source of a greater number, so that values flow from the last block to the first.
pub(crate) fn flows_back<B: BitBlock, N: Block<B>>(blocks: &[N]) -> bool
    ensures { IsTrue result ↔ (length blocks.now < 2 * flowing_back 0 (map N.flow blocks.now)) }
{
    let mut flowing: usize = 0;
    for (number, block) in blocks.iter().enumerate() {
        if has_greater(block.sources(), number) {
            flowing += 1;
        }
    }
    flowing > blocks.len() / 2
}

// Whether one of the sources has a greater number.
fn has_greater(sources: &[usize], number: usize) -> bool
    ensures { result ≡ list_any (λ source. nat_lt number source) sources.now }
{
    sources.iter().any(|source| *source > number)
}

// The place of a block, or the block at a place: each is the other counted from the last, or both are one.
#[inline]
pub(crate) fn place(count: usize, from_last: bool, block: usize) -> usize
    requires { block < count }
    ensures value { result ≡ place_of count from_last block }
    ensures inside { result < count }
{
    if from_last { count - 1 - block } else { block }
}

// The set of all numbers below `count`.
pub(crate) fn all_below<B: BitBlock>(alloc: Global, count: usize) -> Result<BitSet<B>, AllocError>
    ensures all { IfOk result (λ set. (n : ℕ) → IsTrue (has (elements set.values) n) ↔ (n < count)) }
    ensures capacity { IfOk result (λ set. count ≤ set.capacity) }
    ensures none { count ≡ 0 → IsOk result }
{
    let mut set = BitSet::with_capacity_general(alloc, count)?;
    set.insert_range(0..count).unwrap();
    Ok(set)
}

// The first place from `from` on that waits, or else the first of all.
#[inline]
pub(crate) fn next_waiting(waiting: &BitSet<usize>, from: usize) -> Option<usize>
    ensures next { IsFirstOf (those_from (elements waiting.now.values) from ++ elements waiting.now.values) result }
    ensures some { IfSome result (λ p. IsTrue (has (elements waiting.now.values) p)) }
    ensures none { IfNone result (HasNone (elements waiting.now.values)) }
{
    match waiting.next(from) {
        Some(place) => Some(place),
        None => waiting.first(),
    }
}

// The dependents of a block wait again. There is capacity for each, so it allocates nothing.
pub(crate) fn put_back(
    dependents: &[usize],
    count: usize,
    from_last: bool,
    waiting: &mut BitSet<usize>,
)
    requires inside { (b : ℕ) → IsTrue (has dependents.now b) → b < count }
    requires capacity { count ≤ waiting.old.capacity }
    ensures back { PutsBack dependents.now (place_of count from_last) (elements waiting.old.values)
        (elements waiting.new.values) }
    ensures capacity { waiting.new.capacity ≡ waiting.old.capacity }
{
    for &dependent in dependents {
        waiting.insert(place(count, from_last, dependent)).unwrap();
    }
}
