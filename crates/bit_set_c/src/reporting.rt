// Calls that merge a set in place with others, and say whether that changed it: 1 if it did, 0 if not, -1 if memory
// runs out. The set that is changed must differ from the others.
ghost use Rattle.std.specs.Prelude.{◌≡◌, ◌+◌, ◌≤◌, not, if◌then◌else◌, IfOk, OnOk, length, false};
ghost use Rattle.bit_set.specs.Members.{IsDifference, IsIntersection, IsSymmetricDifference, IsUnion, IsUnionWithDifference, IsUnionWithIntersection};
ghost use Rattle.bit_set.specs.{Sets.{elements, union, intersection, difference, symmetric_difference, is_subset}, Sizes.Lengthens};
ghost use Rattle.c_handles.specs.{Answers.changed, Handed.{AreAt, BothStay, IsAt}};
ghost use Rattle.bit_set_c.specs.Answers.{TellsChange};

use crate::handed::{Exclusive, Shared};
use c_handles::answer_of_change;

/// Inserts the members of the other set, and says whether any of them was absent.
#[unsafe(no_mangle)]
pub extern "C" fn bit_set_union_changes(set: &mut Exclusive, other: &mut Shared) -> i32
    requires here { AreAt set.ref_ptr set.old.at other.ref_ptr other.old.at }
    ensures elements { OnOk (changed result) (elements set.new.bits.values
        ≡ union (elements set.old.bits.values) (elements other.old.bits.values)) }
    ensures members { OnOk (changed result) (IsUnion (elements set.old.bits.values)
        (elements other.old.bits.values) (elements set.new.bits.values)) }
    ensures changed { TellsChange result (elements set.old.bits.values) (elements set.new.bits.values) }
    ensures were_in { IfOk (changed result) (λ changed. changed
        ≡ not (is_subset (elements other.old.bits.values) (elements set.old.bits.values))) }
    ensures count { IfOk (changed result) (λ changed. length (elements set.old.bits.values)
        + (if changed then 1 else 0) ≤ length (elements set.new.bits.values)) }
    ensures grows { Lengthens (length other.old.bits.values) (changed result) set.old.bits set.new.bits }
    ensures kept { BothStay set.old.at set.new.at other.old other.new }
{
    answer_of_change(set.get().union_changes(other.get()))
}

/// Keeps the members that the other set has too, and says whether it removed any.
#[unsafe(no_mangle)]
pub extern "C" fn bit_set_intersection_changes(set: &mut Exclusive, other: &mut Shared) -> i32
    requires here { AreAt set.ref_ptr set.old.at other.ref_ptr other.old.at }
    ensures elements { OnOk (changed result) (elements set.new.bits.values
        ≡ intersection (elements set.old.bits.values) (elements other.old.bits.values)) }
    ensures members { OnOk (changed result) (IsIntersection (elements set.old.bits.values)
        (elements other.old.bits.values) (elements set.new.bits.values)) }
    ensures changed { TellsChange result (elements set.old.bits.values) (elements set.new.bits.values) }
    ensures count { IfOk (changed result) (λ changed. length (elements set.new.bits.values)
        + (if changed then 1 else 0) ≤ length (elements set.old.bits.values)) }
    ensures grows { Lengthens (length other.old.bits.values) (changed result) set.old.bits set.new.bits }
    ensures kept { BothStay set.old.at set.new.at other.old other.new }
{
    answer_of_change(set.get().intersection_changes(other.get()))
}

/// Removes the members of the other set, and says whether any of them was present.
#[unsafe(no_mangle)]
pub extern "C" fn bit_set_difference_changes(set: &mut Exclusive, other: &mut Shared) -> i32
    requires here { AreAt set.ref_ptr set.old.at other.ref_ptr other.old.at }
    ensures elements { OnOk (changed result) (elements set.new.bits.values
        ≡ difference (elements set.old.bits.values) (elements other.old.bits.values)) }
    ensures members { OnOk (changed result) (IsDifference (elements set.old.bits.values)
        (elements other.old.bits.values) (elements set.new.bits.values)) }
    ensures changed { TellsChange result (elements set.old.bits.values) (elements set.new.bits.values) }
    ensures count { IfOk (changed result) (λ changed. length (elements set.new.bits.values)
        + (if changed then 1 else 0) ≤ length (elements set.old.bits.values)) }
    ensures grows { Lengthens (length other.old.bits.values) (changed result) set.old.bits set.new.bits }
    ensures kept { BothStay set.old.at set.new.at other.old other.new }
{
    answer_of_change(set.get().difference_changes(other.get()))
}

/// Leaves what is in exactly one of the two sets, and says whether that changed the set.
#[unsafe(no_mangle)]
pub extern "C" fn bit_set_symmetric_difference_changes(
    set: &mut Exclusive,
    other: &mut Shared,
) -> i32
    requires here { AreAt set.ref_ptr set.old.at other.ref_ptr other.old.at }
    ensures elements { OnOk (changed result) (elements set.new.bits.values
        ≡ symmetric_difference (elements set.old.bits.values) (elements other.old.bits.values)) }
    ensures members { OnOk (changed result) (IsSymmetricDifference (elements set.old.bits.values)
        (elements other.old.bits.values) (elements set.new.bits.values)) }
    ensures changed { TellsChange result (elements set.old.bits.values) (elements set.new.bits.values) }
    ensures grows { Lengthens (length other.old.bits.values) (changed result) set.old.bits set.new.bits }
    ensures kept { BothStay set.old.at set.new.at other.old other.new }
{
    answer_of_change(set.get().symmetric_difference_changes(other.get()))
}

/// Inserts the members of the other set that are not in `except`, and says whether any of them was absent.
#[unsafe(no_mangle)]
pub extern "C" fn bit_set_union_with_difference(
    set: &mut Exclusive,
    other: &mut Shared,
    except: &mut Shared,
) -> i32
    requires here { AreAt set.ref_ptr set.old.at other.ref_ptr other.old.at }
    requires beyond { IsAt except.ref_ptr except.old.at }
    ensures elements { OnOk (changed result) (elements set.new.bits.values ≡ union (elements set.old.bits.values)
        (difference (elements other.old.bits.values) (elements except.old.bits.values))) }
    ensures members { OnOk (changed result) (IsUnionWithDifference (elements set.old.bits.values)
        (elements other.old.bits.values) (elements except.old.bits.values) (elements set.new.bits.values)) }
    ensures changed { TellsChange result (elements set.old.bits.values) (elements set.new.bits.values) }
    ensures count { IfOk (changed result) (λ changed. length (elements set.old.bits.values)
        + (if changed then 1 else 0) ≤ length (elements set.new.bits.values)) }
    ensures grows { Lengthens (length other.old.bits.values) (changed result) set.old.bits set.new.bits }
    ensures kept { BothStay set.old.at set.new.at other.old other.new }
    ensures except_kept { except.new ≡ except.old }
{
    answer_of_change(set.get().union_with_difference(other.get(), except.get()))
}

/// Inserts what the other set and `also` have in common, and says whether any of it was absent.
#[unsafe(no_mangle)]
pub extern "C" fn bit_set_union_with_intersection(
    set: &mut Exclusive,
    other: &mut Shared,
    also: &mut Shared,
) -> i32
    requires here { AreAt set.ref_ptr set.old.at other.ref_ptr other.old.at }
    requires beyond { IsAt also.ref_ptr also.old.at }
    ensures elements { OnOk (changed result) (elements set.new.bits.values ≡ union (elements set.old.bits.values)
        (intersection (elements other.old.bits.values) (elements also.old.bits.values))) }
    ensures members { OnOk (changed result) (IsUnionWithIntersection (elements set.old.bits.values)
        (elements other.old.bits.values) (elements also.old.bits.values) (elements set.new.bits.values)) }
    ensures changed { TellsChange result (elements set.old.bits.values) (elements set.new.bits.values) }
    ensures were_in { IfOk (changed result) (λ changed. changed
        ≡ not (is_subset (intersection (elements other.old.bits.values) (elements also.old.bits.values))
        (elements set.old.bits.values))) }
    ensures count { IfOk (changed result) (λ changed. length (elements set.old.bits.values)
        + (if changed then 1 else 0) ≤ length (elements set.new.bits.values)) }
    ensures grows { Lengthens (length other.old.bits.values) (changed result) set.old.bits set.new.bits }
    ensures kept { BothStay set.old.at set.new.at other.old other.new }
    ensures also_kept { also.new ≡ also.old }
{
    answer_of_change(set.get().union_with_intersection(other.get(), also.get()))
}

/// Sets the members to those of the other set that are not in `except`, and says whether that changed them.
#[unsafe(no_mangle)]
pub extern "C" fn bit_set_become_difference(
    set: &mut Exclusive,
    other: &mut Shared,
    except: &mut Shared,
) -> i32
    requires here { AreAt set.ref_ptr set.old.at other.ref_ptr other.old.at }
    requires beyond { IsAt except.ref_ptr except.old.at }
    ensures elements { OnOk (changed result) (elements set.new.bits.values
        ≡ difference (elements other.old.bits.values) (elements except.old.bits.values)) }
    ensures members { OnOk (changed result) (IsDifference (elements other.old.bits.values)
        (elements except.old.bits.values) (elements set.new.bits.values)) }
    ensures changed { TellsChange result (elements set.old.bits.values) (elements set.new.bits.values) }
    ensures grows { Lengthens (length other.old.bits.values) (changed result) set.old.bits set.new.bits }
    ensures kept { BothStay set.old.at set.new.at other.old other.new }
    ensures except_kept { except.new ≡ except.old }
{
    answer_of_change(set.get().copy_difference(other.get(), except.get()))
}
