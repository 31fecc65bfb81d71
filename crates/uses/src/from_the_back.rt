//! Members in descending order.
ghost use Rattle.std.specs.Prelude.{◌≡◌, ℕ, ◌<◌, ◌≤◌, false, length, min, reverse, take, IfOk, IsTrue, MatchOption};
ghost use Rattle.bit_set.specs.Members.{IsSubset};
ghost use Rattle.bit_set.specs.Sets.{elements, has};

use bit_set::{BitBlock, BitSet};
use std::alloc::{AllocError, Global};

/// The k greatest, the greatest first.
pub fn greatest_k<B: BitBlock>(
    alloc: Global,
    set: &BitSet<B>,
    k: usize,
) -> Result<Vec<usize>, AllocError>
    ensures { IfOk result (λ list. list.items ≡ take k (reverse (elements set.now.values))) }
{
    set.iter().rev().take(k).collect(alloc)
}

/// The greatest member below `n`, or None if no member is below it.
pub fn last_below<B: BitBlock>(set: &BitSet<B>, n: usize) -> Option<usize>
    ensures { MatchOption result
        ((x : ℕ) → IsTrue (has (elements set.now.values) x) → n ≤ x)
        (λ m. IsTrue (has (elements set.now.values) m) × (m < n)
        × ((x : ℕ) → IsTrue (has (elements set.now.values) x) → x < n → x ≤ m)) }
{
    for member in set.iter().rev() {
        if member < n {
            return Some(member);
        }
    }
    None
}

/// Removes the greatest member, again and again, until no more than `most` are left.
pub fn keep_least<B: BitBlock>(set: &mut BitSet<B>, most: usize)
    ensures count { length (elements set.new.values) ≡ min most (length (elements set.old.values)) }
    ensures kept { IsSubset (elements set.new.values) (elements set.old.values) }
    ensures least { (x y : ℕ) → IsTrue (has (elements set.new.values) x)
        → IsTrue (has (elements set.old.values) y) → has (elements set.new.values) y ≡ false → x < y }
{
    while set.count() > most {
        set.pop_last();
    }
}
