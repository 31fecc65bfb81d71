// The least solution, by a list of the blocks that wait.
ghost use Rattle.std.specs.{List.fold, Prelude.{◌≡◌, ◌<◌, ◌^◌, ℕ, IfOk, IsOk, OnOk, length, map, max, true, false}};
ghost use Rattle.bit_set.specs.Sets.{elements};
ghost use Rattle.dataflow.specs.Flow.{AreReached, HasAllDue, IsLeastSolution, lists_of, set_at};
ghost use Rattle.dataflow.specs.Worklist.{AreDependents, AreOnTheWay, TakesIn, Transfers, rows_of};

use crate::Block;
use crate::dependents::{Row, dependents_of};
use crate::waiting::{all_below, flows_back, next_waiting, place, put_back};
use bit_set::laws::sizes_of_sets;
use bit_set::{BitBlock, BitSet};
use std::alloc::{AllocError, Global};
use std::mem;

/// For each block the set of the values that reach it: what it generates, and what its sources have and it does not
/// kill. These are the least sets that satisfy the equations. Fails only if memory runs out, and never if there are
/// no blocks.
///
/// A block is visited again only after a set that flows into it has grown. A visit is one pass over the set of each
/// source, which inserts what the block does not kill and reports whether that is new. Sets get the capacity for
/// the longest before the first visit, so a visit allocates nothing.
///
/// ```
/// // The values of block 1 come from block 0, which generates 3.
/// let sets = solve(alloc, blocks)?;
/// for set in &sets {
///     assert!(set.contains(3));
/// }
/// ```
pub fn solve<B: BitBlock, N: Block<B>>(
    alloc: Global,
    blocks: &[N],
) -> Result<Vec<BitSet<B>>, AllocError>
    ensures long { IfOk result (λ sets. length sets.items ≡ length blocks.now) }
    ensures solution { IfOk result (λ sets. IsLeastSolution (map N.flow blocks.now) (lists_of sets.items)) }
    ensures reached { IfOk result (λ sets. AreReached (map N.flow blocks.now) (lists_of sets.items)) }
    ensures none { length blocks.now ≡ 0 → IsOk result }
{
    let dependents = dependents_of(alloc, blocks)?;
    let mut sets = first_sets(alloc, blocks)?;
    settle(alloc, blocks, dependents.as_slice(), sets.as_mut_slice())?;
    Ok(sets)
}

// The length of the longest set that a block generates, or 0 if there are no blocks.
fn longest<B: BitBlock, N: Block<B>>(blocks: &[N]) -> usize
    ensures { result ≡ fold (λ most block. max most (N.generated_length block)) 0 blocks.now }
{
    let mut longest: usize = 0;
    for block in blocks {
        longest = longest.max(block.generated().get_ref().len());
    }
    longest
}

// For each block what it generates.
fn first_sets<B: BitBlock, N: Block<B>>(
    alloc: Global,
    blocks: &[N],
) -> Result<Vec<BitSet<B>>, AllocError>
    ensures generated { IfOk result (λ sets. lists_of sets.items
        ≡ map (λ block. (N.flow block).generated) blocks.now) }
    ensures few { IfOk result (λ sets. (b : ℕ) → length (set_at (lists_of sets.items) b) < 2 ^ 64) }
    ensures none { length blocks.now ≡ 0 → IsOk result }
{
    let longest = longest(blocks);
    let mut sets = Vec::with_capacity(alloc, blocks.len())?;
    for block in blocks {
        let mut set = BitSet::with_capacity_general(alloc, longest)?;
        set.clone_from(block.generated())?;
        bounded(&set);
        sets.push(set)?;
    }
    Ok(sets)
}

// Visits blocks until each set has all that its equation says.
fn settle<B: BitBlock, N: Block<B>>(
    alloc: Global,
    blocks: &[N],
    dependents: &[Row],
    sets: &mut [BitSet<B>],
) -> Result<(), AllocError>
    requires dependents { AreDependents (map N.flow blocks.now) (rows_of dependents.now) }
    requires sets { AreOnTheWay (map N.flow blocks.now) (lists_of sets.old) }
    ensures sets { OnOk result (AreOnTheWay (map N.flow blocks.now) (lists_of sets.new)) }
    ensures settled { OnOk result (HasAllDue (map N.flow blocks.now) (lists_of sets.new)) }
    ensures none { length blocks.now ≡ 0 → IsOk result }
{
    let count = blocks.len();
    let from_last = flows_back(blocks);
    let mut waiting = all_below::<usize>(alloc, count)?;
    let mut from = 0;
    while let Some(next) = next_waiting(&waiting, from) {
        waiting.remove(next);
        from = next + 1;
        let number = place(count, from_last, next);
        if take_in(alloc, &blocks[number], number, sets)? {
            put_back(
                dependents[number].as_slice(),
                count,
                from_last,
                &mut waiting,
            );
        }
        bounded(&waiting);
    }
    Ok(())
}

// Inserts into the set of a block what enters the block and is not killed. Returns whether it grew.
fn take_in<B: BitBlock, N: Block<B>>(
    alloc: Global,
    block: &N,
    number: usize,
    sets: &mut [BitSet<B>],
) -> Result<bool, AllocError>
    requires { number < length sets.old }
    ensures takes { OnOk result (TakesIn (N.flow block.now) number (lists_of sets.old) (lists_of sets.new)) }
    ensures same { IfOk result (λ grew. grew ≡ false → lists_of sets.new ≡ lists_of sets.old) }
    ensures grew { IfOk result (λ grew. grew ≡ true
        → length (set_at (lists_of sets.old) number) < length (set_at (lists_of sets.new) number)) }
    ensures few { IfOk result (λ grew. grew ≡ true → length (set_at (lists_of sets.new) number) < 2 ^ 64) }
{
    // The set is moved out of its place, so that it can be changed while the others are read. This allocates
    // nothing. A block that is its own source reads the empty set there: what the block has need not be inserted
    // again.
    let mut own = mem::replace(&mut sets[number], BitSet::new_general(alloc));
    let grew = transfer(block.sources(), block.killed(), sets, &mut own)?;
    bounded(&own);
    sets[number] = own;
    Ok(grew)
}

// Inserts what the sets of the sources have and is not killed. Returns whether any of it was absent. One pass for
// each source.
fn transfer<B: BitBlock>(
    sources: &[usize],
    killed: &BitSet<B>,
    sets: &[BitSet<B>],
    into: &mut BitSet<B>,
) -> Result<bool, AllocError>
    ensures transfers { OnOk result (Transfers sources.now (elements killed.now.values) (lists_of sets.now)
        (elements into.old.values) (elements into.new.values)) }
    ensures same { IfOk result (λ grew. grew ≡ false → elements into.new.values ≡ elements into.old.values) }
    ensures grew { IfOk result (λ grew. grew ≡ true
        → length (elements into.old.values) < length (elements into.new.values)) }
{
    let mut grew = false;
    for &source in sources {
        if let Some(set) = sets.get(source) {
            grew |= into.union_with_difference(set, killed)?;
        }
    }
    Ok(grew)
}

// How many elements there can be.
#[inline]
fn bounded<B: BitBlock>(set: &BitSet<B>)
    ensures { length (elements set.now.values) < 2 ^ 64 }
{
    sizes_of_sets();
    // A call of constant time.
    prove!(set.capacity() <= usize::MAX);
}
