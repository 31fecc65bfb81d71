// Calls that change the capacity.
ghost use Rattle.std.specs.Prelude.{◌≡◌, ◌*◌, ◌<◌, ◌≤◌, max, IsOk, OnErr, OnOk, [], length};
ghost use Rattle.bit_blocks.specs.Bits.{blocks_for, capacity_of, whole_blocks};
ghost use Rattle.bit_words.specs.Growth.{Grows};
ghost use Rattle.bit_set.specs.{Members.IsSameSet, Sets.{bound_of, elements}};
ghost use Rattle.c_handles.specs.{Answers.done, Handed.IsAt};
ghost use Rattle.bit_set_c.specs.Block.{width};

use crate::handed::Exclusive;

/// Reserves capacity for members below `len`, and returns whether it could.
#[unsafe(no_mangle)]
pub extern "C" fn bit_set_reserve(set: &mut Exclusive, len: usize) -> bool
    requires here { IsAt set.ref_ptr set.old.at }
    ensures values { set.new.bits.values ≡ set.old.bits.values }
    ensures grows { Grows len (done result) set.old.bits set.new.bits }
    ensures place { set.new.at ≡ set.old.at }
{
    set.get().reserve_len(len).is_ok()
}

/// As `bit_set_reserve`, but no more than requested.
#[unsafe(no_mangle)]
pub extern "C" fn bit_set_reserve_exact(set: &mut Exclusive, len: usize) -> bool
    requires here { IsAt set.ref_ptr set.old.at }
    ensures values { set.new.bits.values ≡ set.old.bits.values }
    ensures grows { Grows len (done result) set.old.bits set.new.bits }
    ensures exact { OnOk (done result) (set.new.bits.capacity
        ≡ max set.old.bits.capacity (capacity_of width (blocks_for width len))) }
    ensures place { set.new.at ≡ set.old.at }
{
    set.get().reserve_len_exact(len).is_ok()
}

/// Gives back the capacity that the members do not need, and returns whether it could.
#[unsafe(no_mangle)]
pub extern "C" fn bit_set_shrink_to_fit(set: &mut Exclusive) -> bool
    requires here { IsAt set.ref_ptr set.old.at }
    ensures elements { elements set.new.bits.values ≡ elements set.old.bits.values }
    ensures members { IsSameSet (elements set.new.bits.values) (elements set.old.bits.values) }
    ensures length { length set.new.bits.values ≡ whole_blocks width set.old.bits.values }
    ensures ok { OnOk (done result) (set.new.bits.capacity
        ≡ capacity_of width (blocks_for width (length set.new.bits.values))) }
    ensures err { OnErr (done result) (capacity_of width (blocks_for width (length set.new.bits.values))
        < set.new.bits.capacity) }
    ensures capacity { set.new.bits.capacity ≤ set.old.bits.capacity }
    ensures empty { elements set.old.bits.values ≡ [] → IsOk (done result) }
    ensures place { set.new.at ≡ set.old.at }
{
    set.get().shrink_to_fit().is_ok()
}
