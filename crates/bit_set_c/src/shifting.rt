// Calls that move each member by one distance.
ghost use Rattle.std.specs.Prelude.{◌≡◌, ◌<◌, ◌↔◌, IsErrOf, OnOk, length};
ghost use Rattle.bit_set.specs.{Moved.{IsLowered, IsRaised, lowered, raised}, Sets.{bound_of, elements}, Sizes.{KeepsSize, Lengthens}};
ghost use Rattle.c_handles.specs.Handed.{IsAt};
ghost use Rattle.bit_set_c.specs.Answers.{moved};

use crate::handed::Exclusive;
use bit_set::SetError;

// What C receives for a call that inserts what may not be an element.
fn answer_of(outcome: Result<(), SetError>) -> i32
    ensures { moved result ≡ outcome }
{
    match outcome {
        Ok(()) => 1,
        Err(SetError::Memory(_)) => -1,
        Err(SetError::Element) => -2,
        Err(SetError::Length) => -3,
    }
}

/// Moves each member up by the distance: 1 if it could, -1 if memory runs out, -2 if one would become `usize::MAX`
/// or more.
#[unsafe(no_mangle)]
pub extern "C" fn bit_set_shift_up(set: &mut Exclusive, distance: usize) -> i32
    requires here { IsAt set.ref_ptr set.old.at }
    ensures elements { OnOk (moved result)
        (elements set.new.bits.values ≡ raised (elements set.old.bits.values) distance) }
    ensures members { OnOk (moved result)
        (IsRaised (elements set.old.bits.values) (elements set.new.bits.values) distance) }
    ensures unfit { IsErrOf (moved result) SetError.Element
        ↔ (usize.MAX < bound_of (raised (elements set.old.bits.values) distance)) }
    ensures never_long { IsErrOf (moved result) SetError.Length → ⊥ }
    ensures grows { Lengthens (bound_of (raised (elements set.old.bits.values) distance)) (moved result)
        set.old.bits set.new.bits }
    ensures place { set.new.at ≡ set.old.at }
{
    answer_of(set.get().shift_up(distance))
}

/// Moves each member down by the distance; those below the distance are removed. The length stays.
#[unsafe(no_mangle)]
pub extern "C" fn bit_set_shift_down(set: &mut Exclusive, distance: usize)
    requires here { IsAt set.ref_ptr set.old.at }
    ensures elements { elements set.new.bits.values ≡ lowered (elements set.old.bits.values) distance }
    ensures members { IsLowered (elements set.old.bits.values) (elements set.new.bits.values) distance }
    ensures size { KeepsSize set.old.bits set.new.bits }
    ensures place { set.new.at ≡ set.old.at }
{
    set.get().shift_down(distance);
}
