// Reading a value, with every check that it must pass. Nothing here allocates.
ghost use Rattle.std.specs.Prelude.{◌≡◌, ◌↔◌, ℕ, All, IsTrue, IfOk, IfErr, MatchOption, Some, length};
ghost use Rattle.bit_blocks.specs.Bits.{blocks_for};
ghost use Rattle.serde_json.specs.View.{view, items_view};
ghost use Rattle.bit_set.specs.{Json.{HasShape, HasZeroTail, IsFirstFault, Spells, members_in, number_in}, Entries.{AreParts, HasLength, IsEntry, numbers_of}};

use super::{JsonBlock, JsonError};
use serde_json::Value;

// The entries of a value that represents a set, and its length.
pub(super) fn entries_and_len<B: JsonBlock>(value: &Value) -> Result<(&[Value], usize), JsonError>
    ensures ok { IfOk result (λ found. Spells B.width (view value.now) (numbers_of found.0.now) found.1) }
    ensures entries { IfOk result (λ found. All (IsEntry B.width) found.0.now) }
    ensures err { IfErr result (IsFirstFault B.width (view value.now)) }
{
    let (entries, nbits) = parts(value).ok_or(JsonError::Shape)?;
    let len = length_of::<B>(entries, nbits).ok_or(JsonError::Number)?;
    if entries.len() != len.div_ceil(B::bits()) {
        return Err(JsonError::Blocks);
    }
    if !has_zero_tail::<B>(entries, len) {
        return Err(JsonError::Unclean);
    }
    Ok((entries, len))
}

// The values at `storage` and at `nbits`, if the value has the right shape.
fn parts(value: &Value) -> Option<(&[Value], &Value)>
    ensures { MatchOption result (¬ HasShape (view value.now))
        (λ found. AreParts (view value.now) (items_view found.0.now) (view found.1.now)) }
{
    if !has_members(value, 1) {
        return None;
    }
    let bit_vec = value.get("bit_vec")?;
    if !has_members(bit_vec, 2) {
        return None;
    }
    let entries = bit_vec.get("storage")?.as_array()?;
    let nbits = bit_vec.get("nbits")?;
    Some((entries.as_slice(), nbits))
}

// Whether the value is an object with exactly this many members.
fn has_members(value: &Value, count: usize) -> bool
    ensures { IsTrue result ↔ (members_in (view value.now) ≡ Some count) }
{
    match value.as_object() {
        Some(members) => members.len() == count,
        None => false,
    }
}

// The length, if it and each entry are valid numbers.
fn length_of<B: JsonBlock>(entries: &[Value], nbits: &Value) -> Option<usize>
    ensures { MatchOption result ((n : ℕ) → ¬ HasLength B.width entries.now (view nbits.now) n)
        (HasLength B.width entries.now (view nbits.now)) }
{
    let len = nbits.as_u64()?;
    if !are_entries::<B>(entries) {
        return None;
    }
    Some(len as usize)
}

// Whether each value is the number of a block.
fn are_entries<B: JsonBlock>(entries: &[Value]) -> bool
    ensures { IsTrue result ↔ All (IsEntry B.width) entries.now }
{
    entries.iter().all(|entry| block_in::<B>(entry).is_some())
}

// The block of an entry, if it is the number of one.
fn block_in<B: JsonBlock>(entry: &Value) -> Option<B>
    ensures { MatchOption result (¬ IsEntry B.width entry.now)
        (λ block. B.is_block block × (number_in (view entry.now) ≡ Some (B.number block))) }
{
    match entry.as_u64() {
        Some(number) => B::from_number(number),
        None => None,
    }
}

// The block of an entry.
pub(super) fn block_of<B: JsonBlock>(entry: &Value) -> B
    requires { IsEntry B.width entry.now }
    ensures of_block { B.is_block result }
    ensures of_number { number_in (view entry.now) ≡ Some (B.number result) }
{
    block_in(entry).unwrap()
}

// Whether the last block has no 1 at or past the length.
fn has_zero_tail<B: JsonBlock>(entries: &[Value], len: usize) -> bool
    requires each { All (IsEntry B.width) entries.now }
    requires count { length entries.now ≡ blocks_for B.width len }
    ensures { IsTrue result ↔ HasZeroTail B.width (numbers_of entries.now) len }
{
    let used = len % B::bits();
    if used == 0 {
        return true;
    }
    let last = block_of::<B>(&entries[entries.len() - 1]);
    last.shift_right(used) == B::zero()
}
