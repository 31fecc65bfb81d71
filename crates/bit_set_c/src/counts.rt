// How many members the merges of two sets have. Both may be the same set.
ghost use Rattle.std.specs.Prelude.{◌≡◌, length};
ghost use Rattle.bit_set.specs.Sets.{difference, elements, intersection, symmetric_difference, union};
ghost use Rattle.c_handles.specs.Handed.{AreAt, BothStay};

use crate::handed::Shared;

/// How many numbers are in either set.
#[unsafe(no_mangle)]
pub extern "C" fn bit_set_union_count(set: &mut Shared, other: &mut Shared) -> usize
    requires here { AreAt set.ref_ptr set.old.at other.ref_ptr other.old.at }
    ensures value { result ≡ length (union (elements set.old.bits.values) (elements other.old.bits.values)) }
    ensures kept { BothStay set.old set.new other.old other.new }
{
    set.get().union_count(other.get())
}

/// How many numbers are in both sets.
#[unsafe(no_mangle)]
pub extern "C" fn bit_set_intersection_count(set: &mut Shared, other: &mut Shared) -> usize
    requires here { AreAt set.ref_ptr set.old.at other.ref_ptr other.old.at }
    ensures value { result ≡ length (intersection (elements set.old.bits.values) (elements other.old.bits.values)) }
    ensures kept { BothStay set.old set.new other.old other.new }
{
    set.get().intersection_count(other.get())
}

/// How many members the other set lacks.
#[unsafe(no_mangle)]
pub extern "C" fn bit_set_difference_count(set: &mut Shared, other: &mut Shared) -> usize
    requires here { AreAt set.ref_ptr set.old.at other.ref_ptr other.old.at }
    ensures value { result ≡ length (difference (elements set.old.bits.values) (elements other.old.bits.values)) }
    ensures kept { BothStay set.old set.new other.old other.new }
{
    set.get().difference_count(other.get())
}

/// How many numbers are in exactly one of the two sets.
#[unsafe(no_mangle)]
pub extern "C" fn bit_set_symmetric_difference_count(set: &mut Shared, other: &mut Shared) -> usize
    requires here { AreAt set.ref_ptr set.old.at other.ref_ptr other.old.at }
    ensures value { result ≡ length (symmetric_difference (elements set.old.bits.values) (elements other.old.bits.values)) }
    ensures kept { BothStay set.old set.new other.old other.new }
{
    set.get().symmetric_difference_count(other.get())
}
