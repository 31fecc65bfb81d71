//! Numbers that are handed out.
ghost use Rattle.std.specs.Prelude.{◌≡◌, ℕ, ◌+◌, ◌<◌, ◌≤◌, ◌&&◌, ◌||◌, false, nat_le, nat_lt, true, IfNone, IfOk, IfSome, IsOk, IsTrue, MatchOption, OnErr};
ghost use Rattle.bit_set.specs.Gaps.{HasAmong, IsFirstGap};
ghost use Rattle.bit_set.specs.Members.{Updates};
ghost use Rattle.bit_set.specs.Sets.{elements, has};

use bit_set::{BitBlock, BitSet, SetError};

/// Takes the lowest free number below `limit` into use and returns it, or None if all of them are in use. On an
/// error nothing changed; a capacity of `limit` rules errors out.
pub fn take_lowest<B: BitBlock>(
    used: &mut BitSet<B>,
    limit: usize,
) -> Result<Option<usize>, SetError>
    ensures lowest { IfOk result (λ taken. MatchOption taken
        ((x : ℕ) → x < limit → IsTrue (has (elements used.old.values) x))
        (λ id. (id < limit) × (has (elements used.old.values) id ≡ false)
        × ((x : ℕ) → x < id → IsTrue (has (elements used.old.values) x)))) }
    ensures marked { IfOk result (λ taken. MatchOption taken
        (elements used.new.values ≡ elements used.old.values)
        (λ id. Updates (elements used.old.values) (elements used.new.values) id true)) }
    ensures unchanged { OnErr result (elements used.new.values ≡ elements used.old.values) }
    ensures succeeds { limit ≤ used.old.capacity → IsOk result }
{
    let id = used.next_missing(0);
    if id >= limit {
        return Ok(None);
    }
    used.insert(id)?;
    Ok(Some(id))
}

/// Claims the first `count` free pages in a row that end by `limit`, and returns the first of them; None if there
/// are no such pages, and then the pages are unchanged.
pub fn claim_run<B: BitBlock>(
    used: &mut BitSet<B>,
    count: usize,
    limit: usize,
) -> Result<Option<usize>, SetError>
    ensures first { IfOk result (λ found. IfSome found (λ at. IsFirstGap (elements used.old.values) 0 count at)) }
    ensures within { IfOk result (λ found. IfSome found (λ at. at + count ≤ limit)) }
    ensures claimed { IfOk result (λ found. IfSome found (λ at. (x : ℕ) → has (elements used.new.values) x
        ≡ ((nat_le at x && nat_lt x (at + count)) || has (elements used.old.values) x))) }
    ensures none { IfOk result (λ found. IfNone found
        ((at : ℕ) → at + count ≤ limit → HasAmong (elements used.old.values) count at)) }
    ensures unchanged { IfOk result (λ found. IfNone found (elements used.new.values ≡ elements used.old.values)) }
    ensures err { OnErr result (elements used.new.values ≡ elements used.old.values) }
    ensures succeeds { limit ≤ used.old.capacity → IsOk result }
{
    match used.first_gap(0, count) {
        Some(at) if at + count <= limit => {
            used.insert_range(at..at + count)?;
            Ok(Some(at))
        }
        _ => Ok(None),
    }
}
