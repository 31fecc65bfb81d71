//! Sets that are filled, and from which numbers are removed.
ghost use Rattle.std.specs.Prelude.{◌≡◌, ℕ, ◌+◌, ◌%◌, ◌<◌, ◌≤◌, ◌==◌, ◌&&◌, ◌||◌, nat_le, nat_lt, not, IfOk};
ghost use Rattle.std.specs.List.{list_any};
ghost use Rattle.bit_set.specs.Sets.{elements, has};

use bit_set::{BitBlock, BitSet, SetError};
use std::alloc::Global;

/// The numbers below `n`, except those from `low` up to `high`.
pub fn with_hole<B: BitBlock>(
    alloc: Global,
    n: usize,
    low: usize,
    high: usize,
) -> Result<BitSet<B>, SetError>
    ensures { IfOk result (λ set. (x : ℕ) → has (elements set.values) x
        ≡ (nat_lt x n && not (nat_le low x && nat_lt x high))) }
{
    let mut set = BitSet::new_general(alloc);
    set.insert_range(0..n)?;
    set.remove_range(low..high);
    Ok(set)
}

/// Removes each number of another set, and the one after it.
pub fn remove_pairs<B: BitBlock>(set: &mut BitSet<B>, firsts: &BitSet<B>)
    ensures { (x : ℕ) → has (elements set.new.values) x ≡ (has (elements set.old.values) x
        && not (list_any (λ first. first == x || first + 1 == x) (elements firsts.now.values))) }
{
    for first in firsts {
        set.remove(first);
        set.remove(first + 1);
    }
}

/// Removes the multiples of `step` below `end`.
#[tactic(auto, using(bit_set::proofs::CallerLemmas::steps))]
pub fn remove_multiples<B: BitBlock>(set: &mut BitSet<B>, step: usize, end: usize)
    requires step { 0 < step }
    requires fits { end + step ≤ usize.MAX }
    ensures { (x : ℕ) → has (elements set.new.values) x
        ≡ (has (elements set.old.values) x && not (nat_lt x end && x % step == 0)) }
{
    let mut multiple = 0;
    while multiple < end {
        set.remove(multiple);
        multiple += step;
    }
}
