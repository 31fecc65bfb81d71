// Calls that merge a set in place with another. They must be two different sets.
ghost use Rattle.std.specs.Prelude.{◌≡◌, OnErr, OnOk, [], length};
ghost use Rattle.bit_set.specs.{Members.{HasNone, IsDifference, IsIntersection, IsSymmetricDifference, IsUnion}, Sets.{difference, elements, intersection, symmetric_difference, union}, Sizes.{KeepsSize, Lengthens}};
ghost use Rattle.c_handles.specs.{Answers.done, Handed.{AreAt, BothStay}};

use crate::handed::{Exclusive, Shared};

/// Inserts the members of the other set, and returns whether it could.
#[unsafe(no_mangle)]
pub extern "C" fn bit_set_union_with(set: &mut Exclusive, other: &mut Shared) -> bool
    requires here { AreAt set.ref_ptr set.old.at other.ref_ptr other.old.at }
    ensures elements { OnOk (done result) (elements set.new.bits.values
        ≡ union (elements set.old.bits.values) (elements other.old.bits.values)) }
    ensures members { OnOk (done result) (IsUnion (elements set.old.bits.values) (elements other.old.bits.values)
        (elements set.new.bits.values)) }
    ensures grows { Lengthens (length other.old.bits.values) (done result) set.old.bits set.new.bits }
    ensures kept { BothStay set.old.at set.new.at other.old other.new }
{
    set.get().union_with(other.get()).is_ok()
}

/// Keeps the members that the other set has too, and returns whether it could.
#[unsafe(no_mangle)]
pub extern "C" fn bit_set_intersect_with(set: &mut Exclusive, other: &mut Shared) -> bool
    requires here { AreAt set.ref_ptr set.old.at other.ref_ptr other.old.at }
    ensures elements { OnOk (done result) (elements set.new.bits.values
        ≡ intersection (elements set.old.bits.values) (elements other.old.bits.values)) }
    ensures members { OnOk (done result) (IsIntersection (elements set.old.bits.values) (elements other.old.bits.values)
        (elements set.new.bits.values)) }
    ensures grows { Lengthens (length other.old.bits.values) (done result) set.old.bits set.new.bits }
    ensures kept { BothStay set.old.at set.new.at other.old other.new }
{
    set.get().intersect_with(other.get()).is_ok()
}

/// Removes the members of the other set, and returns whether it could.
#[unsafe(no_mangle)]
pub extern "C" fn bit_set_difference_with(set: &mut Exclusive, other: &mut Shared) -> bool
    requires here { AreAt set.ref_ptr set.old.at other.ref_ptr other.old.at }
    ensures elements { OnOk (done result) (elements set.new.bits.values
        ≡ difference (elements set.old.bits.values) (elements other.old.bits.values)) }
    ensures members { OnOk (done result) (IsDifference (elements set.old.bits.values) (elements other.old.bits.values)
        (elements set.new.bits.values)) }
    ensures grows { Lengthens (length other.old.bits.values) (done result) set.old.bits set.new.bits }
    ensures kept { BothStay set.old.at set.new.at other.old other.new }
{
    set.get().difference_with(other.get()).is_ok()
}

/// Leaves what is in exactly one of the two sets, and returns whether it could.
#[unsafe(no_mangle)]
pub extern "C" fn bit_set_symmetric_difference_with(set: &mut Exclusive, other: &mut Shared) -> bool
    requires here { AreAt set.ref_ptr set.old.at other.ref_ptr other.old.at }
    ensures elements { OnOk (done result) (elements set.new.bits.values
        ≡ symmetric_difference (elements set.old.bits.values) (elements other.old.bits.values)) }
    ensures members { OnOk (done result) (IsSymmetricDifference (elements set.old.bits.values) (elements other.old.bits.values)
        (elements set.new.bits.values)) }
    ensures grows { Lengthens (length other.old.bits.values) (done result) set.old.bits set.new.bits }
    ensures kept { BothStay set.old.at set.new.at other.old other.new }
{
    set.get().symmetric_difference_with(other.get()).is_ok()
}

/// Moves the members of the other set into this one, and returns whether it could.
#[unsafe(no_mangle)]
pub extern "C" fn bit_set_append(set: &mut Exclusive, other: &mut Exclusive) -> bool
    requires here { AreAt set.ref_ptr set.old.at other.ref_ptr other.old.at }
    ensures elements { OnOk (done result) (elements set.new.bits.values
        ≡ union (elements set.old.bits.values) (elements other.old.bits.values)) }
    ensures members { OnOk (done result) (IsUnion (elements set.old.bits.values) (elements other.old.bits.values)
        (elements set.new.bits.values)) }
    ensures emptied { OnOk (done result) (elements other.new.bits.values ≡ []) }
    ensures other_members { OnOk (done result) (HasNone (elements other.new.bits.values)) }
    ensures other_size { KeepsSize other.old.bits other.new.bits }
    ensures err_other { OnErr (done result) (other.new.bits ≡ other.old.bits) }
    ensures grows { Lengthens (length other.old.bits.values) (done result) set.old.bits set.new.bits }
    ensures places { BothStay set.old.at set.new.at other.old.at other.new.at }
{
    set.get().append(other.get()).is_ok()
}
