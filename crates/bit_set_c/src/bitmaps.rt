// Sets made of Roaring bitmaps, and these made of sets.
ghost use Rattle.std.specs.Prelude.{◌≡◌, ◌^◌, ◌<◌, ◌↔◌, [], IfSome, IsErrOf, None, is_some, length};
ghost use Rattle.std.specs.Result.{is_ok};
ghost use Rattle.bit_blocks.specs.Bits.{blocks_for, capacity_of};
ghost use Rattle.bit_set.specs.Sets.{bound_of, elements};
ghost use Rattle.roaring_bit_sets.specs.declared.from_bit_set_error.FromBitSetError.TheVariants.{TooGreat};
ghost use Rattle.c_handles.specs.Handed.{IsAt};
ghost use Rattle.bit_set_c.specs.{Answers.{converted, spelled_conversion}, Block.width};

use crate::handed::{Owned, Shared};
use crate::making::boxed;
use c_handles::{OwnedBitmap, SharedBitmap};
use roaring_bit_sets::{FromBitSetError, from_bit_set, to_bit_set};
use std::alloc::Global;

/// The set of the members of a Roaring bitmap, with the least length that its greatest member allows, or none if memory
/// runs out.
#[unsafe(no_mangle)]
pub extern "C" fn bit_set_from_roaring(
    alloc: Global,
    out: &mut Owned,
    bitmap: &mut SharedBitmap,
) -> bool
    requires empty { out.old.held ≡ None }
    requires here { IsAt bitmap.ref_ptr bitmap.old.at }
    ensures made { result ≡ is_some out.new.held }
    ensures members { IfSome out.new.held (λ set. elements set.values ≡ bitmap.old.bitmap.members) }
    ensures length { IfSome out.new.held (λ set. length set.values ≡ bound_of bitmap.old.bitmap.members) }
    ensures capacity { IfSome out.new.held (λ set. set.capacity
        ≡ capacity_of width (blocks_for width (bound_of bitmap.old.bitmap.members))) }
    ensures kept { bitmap.new ≡ bitmap.old }
{
    match to_bit_set(alloc, bitmap.get()) {
        Ok(set) => boxed(alloc, out, set),
        Err(_) => false,
    }
}

/// Makes a Roaring bitmap of the members: 1 if it did, -1 if memory runs out, -2 if a member is above `u32::MAX`.
#[unsafe(no_mangle)]
pub extern "C" fn bit_set_to_roaring(alloc: Global, out: &mut OwnedBitmap, set: &mut Shared) -> i32
    requires empty { out.old.held ≡ None }
    requires here { IsAt set.ref_ptr set.old.at }
    ensures made { is_ok (converted result) ≡ is_some out.new.held }
    ensures members { IfSome out.new.held (λ bitmap. bitmap.members ≡ elements set.old.bits.values) }
    ensures runs { IfSome out.new.held (λ bitmap. bitmap.run_keys ≡ []) }
    ensures too_great { IsErrOf (converted result) TooGreat
        ↔ (2 ^ 32 < bound_of (elements set.old.bits.values)) }
    ensures exact { result ≡ spelled_conversion (converted result) }
    ensures kept { set.new ≡ set.old }
{
    match from_bit_set(alloc, set.get()) {
        Ok(bitmap) => { if out.store(alloc, bitmap) { 1 } else { -1 } }
        Err(FromBitSetError::Memory) => -1,
        Err(FromBitSetError::TooGreat) => -2,
    }
}
