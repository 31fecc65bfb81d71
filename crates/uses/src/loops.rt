//! Loops over sets. Each needs only its invariant, except those with an `Answers.antt` in `proofs/`.
ghost use Rattle.std.specs.Prelude.{◌≡◌, ℕ, ◌+◌, ◌^◌, ◌<◌, ◌≤◌, ◌↔◌, length, slice_index_or, sum, IfNone, IfOk, IfSome, IsTrue, OnOk};
ghost use Rattle.bit_set.specs.Members.{IsUnion};
ghost use Rattle.bit_set.specs.Sets.{elements, has};

use bit_set::{BitBlock, BitSet, SetError};
use std::alloc::Global;

/// The sum of the members, if it fits a `usize`.
pub fn sum_of_members<B: BitBlock>(set: &BitSet<B>) -> Option<usize>
    ensures some { IfSome result (λ total. total ≡ sum (elements set.now.values)) }
    ensures none { IfNone result (2 ^ 64 ≤ sum (elements set.now.values)) }
{
    let mut total: usize = 0;
    for member in set {
        total = total.checked_add(member)?;
    }
    Some(total)
}

/// Whether all members are below `n`.
pub fn all_below<B: BitBlock>(set: &BitSet<B>, n: usize) -> bool
    ensures { IsTrue result ↔ ((x : ℕ) → IsTrue (has (elements set.now.values) x) → x < n) }
{
    for member in set {
        if member >= n {
            return false;
        }
    }
    true
}

/// Inserts the members of another set, which may have another block type.
#[tactic(auto, using(std::proofs::lemmas::Bool::Decides::nat_tests))]
pub fn insert_members<A: BitBlock, B: BitBlock>(
    set: &mut BitSet<A>,
    other: &BitSet<B>,
) -> Result<(), SetError>
    ensures { OnOk result (IsUnion (elements set.old.values) (elements other.now.values) (elements set.new.values)) }
{
    for member in other {
        set.insert(member)?;
    }
    Ok(())
}

/// Whether the number after some member is a member too.
#[tactic(auto, using(bit_set::proofs::CallerLemmas::set_steps))]
pub fn has_neighbours<B: BitBlock>(set: &BitSet<B>) -> bool
    ensures { IsTrue result ↔ ((m : ℕ) × IsTrue (has (elements set.now.values) m)
        × IsTrue (has (elements set.now.values) (m + 1))) }
{
    for member in set {
        prove!(set.contains(member));
        if set.contains(member + 1) {
            return true;
        }
    }
    false
}

/// The numbers that a walk meets which goes from each to its `next`, from `start` on, up to one that it met before or
/// that has none.
#[tactic(auto, using(bit_set::proofs::CallerLemmas::set_steps))]
pub fn follow<B: BitBlock>(
    alloc: Global,
    next: &[usize],
    start: usize,
) -> Result<BitSet<B>, SetError>
    ensures starts { IfOk result (λ seen. IsTrue (has (elements seen.values) start)) }
    ensures closed { IfOk result (λ seen. (k d : ℕ) → k < length next.now → IsTrue (has (elements seen.values) k)
        → IsTrue (has (elements seen.values) (slice_index_or next.now k d))) }
{
    let mut seen = BitSet::new_general(alloc);
    let mut at = start;
    while seen.insert(at)? {
        if at >= next.len() {
            return Ok(seen);
        }
        at = next[at];
    }
    Ok(seen)
}
