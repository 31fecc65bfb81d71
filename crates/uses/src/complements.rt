//! Absent numbers.
ghost use Rattle.std.specs.Prelude.{◌≡◌, ℕ, ◌+◌, ◌&&◌, length, nat_le, nat_lt, not, IfOk};
ghost use Rattle.bit_set.specs.Sets.{elements, has, those_below, IsAscending};

use bit_set::{BitBlock, BitSet, SetError};
use std::alloc::{AllocError, Global};

/// The numbers below `n` that are not in the set.
pub fn complement_below<B: BitBlock>(
    alloc: Global,
    set: &BitSet<B>,
    n: usize,
) -> Result<BitSet<B>, SetError>
    ensures { IfOk result (λ rest. (x : ℕ) → has (elements rest.values) x
        ≡ (nat_lt x n && not (has (elements set.now.values) x))) }
{
    let mut rest = BitSet::new_general(alloc);
    rest.insert_range(0..n)?;
    rest.difference_with(set)?;
    Ok(rest)
}

/// The pupils below `size` that are not present.
pub fn absent<B: BitBlock>(
    alloc: Global,
    present: &BitSet<B>,
    size: usize,
) -> Result<BitSet<B>, SetError>
    ensures members { IfOk result (λ set. (x : ℕ) → has (elements set.values) x
        ≡ (nat_lt x size && not (has (elements present.now.values) x))) }
    ensures count { IfOk result (λ set. length (elements set.values)
        + length (those_below (elements present.now.values) size) ≡ size) }
{
    let mut set = present.clone(alloc)?;
    set.truncate(size);
    set.toggle_range(0..size)?;
    Ok(set)
}

/// The ports from `low` up to `high` that are not in use, in ascending order.
pub fn free_ports<B: BitBlock>(
    alloc: Global,
    used: &BitSet<B>,
    low: usize,
    high: usize,
) -> Result<Vec<usize>, AllocError>
    ensures members { IfOk result (λ ports. (x : ℕ) → has ports.items x
        ≡ (nat_le low x && nat_lt x high && not (has (elements used.now.values) x))) }
    ensures ascends { IfOk result (λ ports. IsAscending ports.items) }
{
    let mut ports = Vec::new(alloc);
    for port in low..high {
        if !used.contains(port) {
            ports.push(port)?;
        }
    }
    Ok(ports)
}
