//! Uses of `bit_set` and `bit_matrix`, as a caller writes them.
#![tactic(auto, using(bit_set::proofs::CallerLemmas::calls))]

ghost use Rattle.std.specs.Prelude.{◌≡◌, ℕ, ◌%◌, ◌<◌, ◌==◌, ◌&&◌, ◌||◌, ◌↔◌, if◌then◌else◌, nat_lt, not, IfOk, IsOk, OnOk, Some};
ghost use Rattle.bit_set.specs.Members.{IsSameSet};
ghost use Rattle.bit_set.specs.Sets.{elements, has};

use bit_set::{BitBlock, BitSet, SetError, laws};
use std::alloc::{AllocError, AllocFailed, Global};
use std::collections::BTreeMap;

pub mod allocating;
pub mod bits;
pub mod chains;
pub mod commands;
pub mod complements;
pub mod filling;
pub mod filtering;
pub mod from_the_back;
pub mod loops;
pub mod matrices;
pub mod merging;
pub mod reading;
pub mod selecting;
pub mod worklists;

/// The even numbers below `n`, by a chain.
pub fn evens_by_chain<B: BitBlock>(alloc: Global, n: usize) -> Result<BitSet<B>, SetError>
    ensures { IfOk result (λ set. (x : ℕ) → has (elements set.values) x ≡ (nat_lt x n && x % 2 == 0)) }
{
    BitSet::from_iter(alloc, (0..n).filter(|x| *x % 2 == 0))
}

/// The members, in ascending order.
pub fn members<B: BitBlock>(alloc: Global, set: &BitSet<B>) -> Result<Vec<usize>, AllocError>
    ensures { IfOk result (λ members. members.items ≡ elements set.now.values) }
{
    set.iter().collect(alloc)
}

/// Inserts one number and removes another. Allocates nothing if the first is below the capacity.
pub fn exchange<B: BitBlock>(set: &mut BitSet<B>, new: usize, old: usize) -> Result<(), SetError>
    ensures members { OnOk result ((x : ℕ) → has (elements set.new.values) x
        ≡ (not (old == x) && (new == x || has (elements set.old.values) x))) }
    ensures succeeds { new < set.old.capacity → IsOk result }
{
    set.insert(new)?;
    set.remove(old);
    Ok(())
}

/// Inserts a number if it is absent, and removes it if it is present. Returns whether it is present now.
pub fn toggle<B: BitBlock>(set: &mut BitSet<B>, value: usize) -> Result<bool, SetError>
    ensures returned { IfOk result (λ there. there ≡ not (has (elements set.old.values) value)) }
    ensures members { OnOk result ((x : ℕ) → has (elements set.new.values) x
        ≡ (if value == x then not (has (elements set.old.values) x) else has (elements set.old.values) x)) }
{
    if set.remove(value) {
        return Ok(false);
    }
    set.insert(value)?;
    Ok(true)
}

/// Two sets have the same members exactly if their lists are equal, whichever block types they have.
pub fn lists_of_members<A: BitBlock, B: BitBlock>(a: &BitSet<A>, b: &BitSet<B>)
    ensures { IsSameSet (elements a.now.values) (elements b.now.values)
        ↔ (elements a.now.values ≡ elements b.now.values) }
{
    laws::sets_ascend();
    laws::sets_are_their_members();
}

/// Keeps a number under a set, and finds it again under any set of the same members.
pub fn keep_under<B: BitBlock>(
    numbers: &mut BTreeMap<BitSet<B>, u32>,
    set: BitSet<B>,
    number: u32,
    same: &BitSet<B>,
) -> Result<Option<u32>, AllocFailed<(BitSet<B>, u32)>>
    requires { IsSameSet (elements set.values) (elements same.now.values) }
    ensures { IfOk result (λ found. found ≡ Some number) }
{
    numbers.insert(set, number)?;
    Ok(numbers.get(same).copied())
}
