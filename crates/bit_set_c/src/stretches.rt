// Calls that search for numbers in a row: members, or absent numbers.
ghost use Rattle.std.specs.Prelude.{◌≡◌, ℕ, ◌≤◌, IfSome, List, MatchOption, [], ◌∷◌, false, length, max};
ghost use Rattle.std.specs.declared.ops.Range.{Range};
ghost use Rattle.bit_blocks.specs.Searches.{FindsFrom};
ghost use Rattle.bit_set.specs.{Gaps.{FindsGap, is_gap}, Members.HasNone, Runs.{IsFirstRun, runs_of}, Sets.{elements, those_from}};
ghost use Rattle.c_handles.specs.Handed.{IsAt};
ghost use Rattle.bit_set_c.specs.Answers.{given, given_range};

use crate::handed::Shared;

/// Looks for the least number at or above `from` at which `count` absent numbers in a row begin, and returns
/// whether there is one, which is written to `gap`.
#[unsafe(no_mangle)]
pub extern "C" fn bit_set_first_gap(
    set: &mut Shared,
    from: usize,
    count: usize,
    gap: &mut usize,
) -> bool
    requires here { IsAt set.ref_ptr set.old.at }
    ensures elements { FindsFrom (is_gap (elements set.old.bits.values) count) from (given result gap.new) }
    ensures members { FindsGap (elements set.old.bits.values) from count (given result gap.new) }
    ensures within { IfSome (given result gap.new) (λ first. first ≤ max from (length set.old.bits.values)) }
    ensures none { result ≡ false → gap.new ≡ gap.old }
    ensures kept { set.new ≡ set.old }
{
    match set.get().first_gap(from, count) {
        Some(first) => {
            *gap = first;
            true
        }
        None => false,
    }
}

/// Looks for the first run of members at or above `from`, the longest range of numbers that are all members, and
/// returns whether there is one, which is written to `start` and `end`. A run that begins before `from` is cut
/// there.
#[unsafe(no_mangle)]
pub extern "C" fn bit_set_next_run(
    set: &mut Shared,
    from: usize,
    start: &mut usize,
    end: &mut usize,
) -> bool
    requires here { IsAt set.ref_ptr set.old.at }
    ensures runs { MatchOption (given_range result start.new end.new)
        (runs_of (those_from (elements set.old.bits.values) from) ≡ [])
        (λ run. (rest : List (Range ℕ)) × (runs_of (those_from (elements set.old.bits.values) from) ≡ run ∷ rest)) }
    ensures members { MatchOption (given_range result start.new end.new)
        (HasNone (those_from (elements set.old.bits.values) from))
        (IsFirstRun (those_from (elements set.old.bits.values) from)) }
    ensures within { IfSome (given_range result start.new end.new) (λ run. run.end ≤ length set.old.bits.values) }
    ensures none { result ≡ false → (start.new ≡ start.old) × (end.new ≡ end.old) }
    ensures kept { set.new ≡ set.old }
{
    let set = set.get();
    let Some(first) = set.next(from) else {
        return false;
    };
    *start = first;
    *end = set.next_missing(first);
    true
}
