// Calls that remove the least or the greatest member.
ghost use Rattle.std.specs.{Prelude.{◌≡◌, ◌+◌, MatchOption, if◌then◌else◌, is_some, length}, Iterator.{YieldsFirst, YieldsLast}};
ghost use Rattle.bit_set.specs.{Members.{HasNone, TakesGreatest, TakesLeast}, Sets.elements, Sizes.KeepsSize};
ghost use Rattle.c_handles.specs.{Answers.found, Handed.IsAt};

use crate::handed::Exclusive;
use crate::searching::or_max;

/// Removes the least member and returns it, or `usize::MAX` if there is none.
#[tactic(auto, using(set_algebra::proofs::ValueLemmas::members_are_below_lengths))]
#[unsafe(no_mangle)]
pub extern "C" fn bit_set_pop_first(set: &mut Exclusive) -> usize
    requires here { IsAt set.ref_ptr set.old.at }
    ensures elements { YieldsFirst elements set.old.bits.values (found result) set.new.bits.values }
    ensures members { MatchOption (found result) (HasNone (elements set.old.bits.values))
        (λ m. TakesLeast (elements set.old.bits.values) m (elements set.new.bits.values)) }
    ensures count { length (elements set.new.bits.values) + (if is_some (found result) then 1 else 0)
        ≡ length (elements set.old.bits.values) }
    ensures size { KeepsSize set.old.bits set.new.bits }
    ensures place { set.new.at ≡ set.old.at }
{
    let set = set.get();
    prove!(set.get_ref().len() <= usize::MAX);
    or_max(set.pop_first())
}

/// Removes the greatest member and returns it, or `usize::MAX` if there is none.
#[tactic(auto, using(set_algebra::proofs::ValueLemmas::members_are_below_lengths))]
#[unsafe(no_mangle)]
pub extern "C" fn bit_set_pop_last(set: &mut Exclusive) -> usize
    requires here { IsAt set.ref_ptr set.old.at }
    ensures elements { YieldsLast elements set.old.bits.values (found result) set.new.bits.values }
    ensures members { MatchOption (found result) (HasNone (elements set.old.bits.values))
        (λ m. TakesGreatest (elements set.old.bits.values) m (elements set.new.bits.values)) }
    ensures count { length (elements set.new.bits.values) + (if is_some (found result) then 1 else 0)
        ≡ length (elements set.old.bits.values) }
    ensures size { KeepsSize set.old.bits set.new.bits }
    ensures place { set.new.at ≡ set.old.at }
{
    let set = set.get();
    prove!(set.get_ref().len() <= usize::MAX);
    or_max(set.pop_last())
}
