//! Sets that are read and written.
ghost use Rattle.std.specs.Prelude.{◌≡◌, ℕ, ◌-◌, ◌/◌, ◌%◌, ◌==◌, ◌||◌, slice_index, IfOk, OnErr, OnOk};
ghost use Rattle.std.specs.Int.{bit_at};
ghost use Rattle.bit_set.specs.Members.{IsSameSet, IsUnion};
ghost use Rattle.bit_set.specs.Sets.{elements, has};

use bit_set::{BitBlock, BitSet, SetError};
use std::alloc::Global;

/// The set that its bytes represent.
pub fn through_bytes<B: BitBlock>(alloc: Global, set: &BitSet<B>) -> Result<BitSet<u32>, SetError>
    ensures { IfOk result (λ copy. IsSameSet (elements copy.values) (elements set.now.values)) }
{
    let bytes = set.to_bytes(alloc)?;
    BitSet::from_bytes(alloc, &bytes)
}

/// Inserts a number, and returns the bytes: the bits that are 1 are those of the members.
pub fn bytes_with<B: BitBlock>(
    alloc: Global,
    set: &mut BitSet<B>,
    number: usize,
) -> Result<Vec<u8>, SetError>
    ensures { IfOk result (λ bytes. (x : ℕ) → (bit_at (slice_index bytes.items (x / 8)) (7 - x % 8) == 1)
        ≡ (x == number || has (elements set.old.values) x)) }
{
    set.insert(number)?;
    Ok(set.to_bytes(alloc)?)
}

/// Inserts all of the numbers, or none.
pub fn insert_all<B: BitBlock>(set: &mut BitSet<B>, items: &[usize]) -> Result<(), SetError>
    ensures ok { OnOk result (IsUnion (elements set.old.values) items.now (elements set.new.values)) }
    ensures err { OnErr result (elements set.new.values ≡ elements set.old.values) }
{
    let mut len: usize = 0;
    for item in items {
        if *item == usize::MAX {
            return Err(SetError::Element);
        }
        len = len.max(*item + 1);
    }
    set.reserve_len(len)?;
    for item in items {
        set.insert(*item)?;
    }
    Ok(())
}
