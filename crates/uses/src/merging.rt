//! Many sets at once.
ghost use Rattle.std.specs.Prelude.{◌≡◌, ℕ, ◌↔◌, All, IfOk, IsTrue};
ghost use Rattle.std.specs.List.{list_any};
ghost use Rattle.bit_set.specs.Sets.{elements, has};

use bit_set::{BitBlock, BitSet};
use std::alloc::{AllocError, Global};

/// Whether each set has the value, by a loop.
#[tactic(auto, using(bit_set::proofs::CallerLemmas::rows))]
pub fn all_have_loop<B: BitBlock>(sets: &[BitSet<B>], value: usize) -> bool
    ensures { IsTrue result ↔ All (λ one. IsTrue (has (elements one.values) value)) sets.now }
{
    for one in sets {
        if !one.contains(value) {
            return false;
        }
    }
    true
}

/// What is in some set of a row.
pub fn union_of_all<B: BitBlock>(alloc: Global, sets: &[BitSet<B>]) -> Result<BitSet<B>, AllocError>
    ensures { IfOk result (λ all. (x : ℕ) → has (elements all.values) x
        ≡ list_any (λ one. has (elements one.values) x) sets.now) }
{
    let mut all = BitSet::new_general(alloc);
    for one in sets {
        all.union_with(one)?;
    }
    Ok(all)
}
