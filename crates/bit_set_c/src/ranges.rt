// Calls on the numbers of a range: from `start` up to `end`, and none if `end` is `start` or below.
ghost use Rattle.std.specs.Prelude.{◌≡◌, ℕ, ◌+◌, ◌-◌, ◌<◌, ◌≤◌, ◌↔◌, ◌++◌, false, length, max, not, true, IsTrue, OnOk};
ghost use Rattle.bit_set.specs.{Members.UpdatesRange, Ranges.{span, span_end, those_in_range}, Sets.{elements, has, is_disjoint, is_subset, symmetric_difference, those_below, those_from, union}, Sizes.{KeepsSize, Lengthens}};
ghost use Rattle.c_handles.specs.{Answers.done, Handed.IsAt};

use crate::handed::{Exclusive, Shared};

/// Inserts each number of the range, and returns whether it could.
#[unsafe(no_mangle)]
pub extern "C" fn bit_set_insert_range(set: &mut Exclusive, start: usize, end: usize) -> bool
    requires here { IsAt set.ref_ptr set.old.at }
    ensures elements { OnOk (done result) (elements set.new.bits.values
        ≡ union (elements set.old.bits.values) (span start end)) }
    ensures members { OnOk (done result) (UpdatesRange (λ _. true) (elements set.old.bits.values)
        (elements set.new.bits.values) start end) }
    ensures count { OnOk (done result) (length (elements set.new.bits.values)
        + length (those_in_range (elements set.old.bits.values) start end)
        ≡ length (elements set.old.bits.values) + (end - start)) }
    ensures grows { Lengthens (span_end start end) (done result) set.old.bits set.new.bits }
    ensures place { set.new.at ≡ set.old.at }
{
    set.get().insert_range(start..end).is_ok()
}

/// Removes each number of the range.
#[unsafe(no_mangle)]
pub extern "C" fn bit_set_remove_range(set: &mut Exclusive, start: usize, end: usize)
    requires here { IsAt set.ref_ptr set.old.at }
    ensures elements { elements set.new.bits.values ≡ those_below (elements set.old.bits.values) start
        ++ those_from (elements set.old.bits.values) (max start end) }
    ensures members { UpdatesRange (λ _. false) (elements set.old.bits.values) (elements set.new.bits.values)
        start end }
    ensures count { length (elements set.new.bits.values)
        + length (those_in_range (elements set.old.bits.values) start end)
        ≡ length (elements set.old.bits.values) }
    ensures size { KeepsSize set.old.bits set.new.bits }
    ensures place { set.new.at ≡ set.old.at }
{
    set.get().remove_range(start..end);
}

/// Removes each number of the range that is present, inserts each other, and returns whether it could.
#[unsafe(no_mangle)]
pub extern "C" fn bit_set_toggle_range(set: &mut Exclusive, start: usize, end: usize) -> bool
    requires here { IsAt set.ref_ptr set.old.at }
    ensures elements { OnOk (done result) (elements set.new.bits.values
        ≡ symmetric_difference (elements set.old.bits.values) (span start end)) }
    ensures members { OnOk (done result) (UpdatesRange not (elements set.old.bits.values)
        (elements set.new.bits.values) start end) }
    ensures grows { Lengthens (span_end start end) (done result) set.old.bits set.new.bits }
    ensures place { set.new.at ≡ set.old.at }
{
    set.get().toggle_range(start..end).is_ok()
}

/// Whether every number of the range is a member; true if the range is empty.
#[unsafe(no_mangle)]
pub extern "C" fn bit_set_contains_all_in_range(set: &mut Shared, start: usize, end: usize) -> bool
    requires here { IsAt set.ref_ptr set.old.at }
    ensures returned { result ≡ is_subset (span start end) (elements set.old.bits.values) }
    ensures members { IsTrue result ↔ ((n : ℕ) → start ≤ n → n < end
        → IsTrue (has (elements set.old.bits.values) n)) }
    ensures kept { set.new ≡ set.old }
{
    set.get().contains_all_in_range(start..end)
}

/// Whether any number of the range is a member.
#[unsafe(no_mangle)]
pub extern "C" fn bit_set_contains_any_in_range(set: &mut Shared, start: usize, end: usize) -> bool
    requires here { IsAt set.ref_ptr set.old.at }
    ensures returned { result ≡ not (is_disjoint (span start end) (elements set.old.bits.values)) }
    ensures members { (result ≡ false) ↔ ((n : ℕ) → start ≤ n → n < end
        → has (elements set.old.bits.values) n ≡ false) }
    ensures kept { set.new ≡ set.old }
{
    set.get().contains_any_in_range(start..end)
}

/// How many numbers of the range are members.
#[unsafe(no_mangle)]
pub extern "C" fn bit_set_count_in_range(set: &mut Shared, start: usize, end: usize) -> usize
    requires here { IsAt set.ref_ptr set.old.at }
    ensures value { result ≡ length (those_in_range (elements set.old.bits.values) start end) }
    ensures kept { set.new ≡ set.old }
{
    set.get().count_in_range(start..end)
}
