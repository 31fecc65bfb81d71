//! Prints the even numbers below ten.
#![tactic(auto, using(bit_set::proofs::CallerLemmas::calls))]

ghost use Rattle.std.specs.Prelude.{◌≡◌, ℕ, ◌%◌, ◌==◌, ◌&&◌, nat_lt, IfOk};
ghost use Rattle.bit_set.specs.Sets.{elements, has};

use bit_set::{BitSet, SetError};
use std::alloc::Global;
use std::io;

/// The even numbers below `n`.
pub fn evens(alloc: Global, n: usize) -> Result<BitSet, SetError>
    ensures { IfOk result (λ set. (x : ℕ) → has (elements set.values) x ≡ (nat_lt x n && x % 2 == 0)) }
{
    let mut set = BitSet::new(alloc);
    for number in 0..n {
        if number % 2 == 0 {
            set.insert(number)?;
        }
    }
    Ok(set)
}

fn main(rt: HostRuntime) -> io::Result<()> {
    match evens(rt.alloc(), 10) {
        Ok(set) => println!(rt; "{set}"),
        Err(_) => println!(rt; "no memory"),
    }
}
