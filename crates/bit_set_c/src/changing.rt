// Calls that change a whole set.
ghost use Rattle.std.specs.Prelude.{◌≡◌, max, min, OnOk, false, [], length, replicate};
ghost use Rattle.bit_blocks.specs.Bits.{blocks_for, capacity_of};
ghost use Rattle.bit_words.specs.Growth.{Grows};
ghost use Rattle.bit_set.specs.{Members.{HasNone, IsSameSet, KeepsBelow}, Sets.{elements, those_below}};
ghost use Rattle.c_handles.specs.{Answers.done, Handed.{AreAt, BothStay, IsAt}};
ghost use Rattle.bit_set_c.specs.Block.{width};

use crate::handed::{Exclusive, Shared};

/// Keeps the members below `len`, and shortens the length to it.
#[unsafe(no_mangle)]
pub extern "C" fn bit_set_truncate(set: &mut Exclusive, len: usize)
    requires here { IsAt set.ref_ptr set.old.at }
    ensures elements { elements set.new.bits.values ≡ those_below (elements set.old.bits.values) len }
    ensures members { KeepsBelow (elements set.old.bits.values) (elements set.new.bits.values) len }
    ensures length { length set.new.bits.values ≡ min (length set.old.bits.values) len }
    ensures capacity { set.new.bits.capacity ≡ set.old.bits.capacity }
    ensures place { set.new.at ≡ set.old.at }
{
    set.get().truncate(len);
}

/// Removes every member; the length stays.
#[unsafe(no_mangle)]
pub extern "C" fn bit_set_make_empty(set: &mut Exclusive)
    requires here { IsAt set.ref_ptr set.old.at }
    ensures whole { set.new.bits ≡ record {
      values = replicate (length set.old.bits.values) false;
      capacity = set.old.bits.capacity;
    } }
    ensures elements { elements set.new.bits.values ≡ [] }
    ensures members { HasNone (elements set.new.bits.values) }
    ensures place { set.new.at ≡ set.old.at }
{
    set.get().make_empty();
}

/// Removes every member and sets the length to 0; the capacity stays.
#[unsafe(no_mangle)]
pub extern "C" fn bit_set_reset(set: &mut Exclusive)
    requires here { IsAt set.ref_ptr set.old.at }
    ensures whole { set.new.bits ≡ record { values = []; capacity = set.old.bits.capacity } }
    ensures place { set.new.at ≡ set.old.at }
{
    set.get().reset();
}

/// Becomes equal to the other set, and returns whether it could.
#[unsafe(no_mangle)]
pub extern "C" fn bit_set_copy(set: &mut Exclusive, other: &mut Shared) -> bool
    requires here { AreAt set.ref_ptr set.old.at other.ref_ptr other.old.at }
    ensures ok { OnOk (done result) (set.new.bits.values ≡ other.old.bits.values) }
    ensures members { OnOk (done result)
        (IsSameSet (elements set.new.bits.values) (elements other.old.bits.values)) }
    ensures grows { Grows (length other.old.bits.values) (done result) set.old.bits set.new.bits }
    ensures exact { OnOk (done result) (set.new.bits.capacity ≡ max set.old.bits.capacity
        (capacity_of width (blocks_for width (length other.old.bits.values)))) }
    ensures kept { BothStay set.old.at set.new.at other.old other.new }
{
    set.get().clone_from(other.get()).is_ok()
}
