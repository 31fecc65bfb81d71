// Calls that read a set.
ghost use Rattle.std.specs.Prelude.{◌≡◌, ◌≤◌, ◌↔◌, IsTrue, [], length};
ghost use Rattle.bit_blocks.specs.Bits.{IsCapacityOfBlocks};
ghost use Rattle.bit_set.specs.{Members.{HasNone, IsCounted}, Sets.elements};
ghost use Rattle.c_handles.specs.{Handed.IsAt, Hash.hash_of};
ghost use Rattle.bit_set_c.specs.Block.{width};

use crate::block::Block;
use crate::handed::Shared;
use bit_set::BitSet;

/// How many members there are.
#[unsafe(no_mangle)]
pub extern "C" fn bit_set_count(set: &mut Shared) -> usize
    requires here { IsAt set.ref_ptr set.old.at }
    ensures value { result ≡ length (elements set.old.bits.values) }
    ensures counted { IsCounted set.old.bits.values }
    ensures kept { set.new ≡ set.old }
{
    set.get().count()
}

/// Whether there is no member.
#[unsafe(no_mangle)]
pub extern "C" fn bit_set_is_empty(set: &mut Shared) -> bool
    requires here { IsAt set.ref_ptr set.old.at }
    ensures elements { IsTrue result ↔ (elements set.old.bits.values ≡ []) }
    ensures members { IsTrue result ↔ HasNone (elements set.old.bits.values) }
    ensures kept { set.new ≡ set.old }
{
    set.get().is_empty()
}

/// The length of the list of truth values: each member is below it.
#[unsafe(no_mangle)]
pub extern "C" fn bit_set_length(set: &mut Shared) -> usize
    requires here { IsAt set.ref_ptr set.old.at }
    ensures value { result ≡ length set.old.bits.values }
    ensures kept { set.new ≡ set.old }
{
    set.get().get_ref().len()
}

/// The number below which inserting a member allocates nothing.
#[unsafe(no_mangle)]
pub extern "C" fn bit_set_capacity(set: &mut Shared) -> usize
    requires here { IsAt set.ref_ptr set.old.at }
    ensures value { result ≡ set.old.bits.capacity }
    ensures holds_values { length set.old.bits.values ≤ result }
    ensures whole { IsCapacityOfBlocks width set.old.bits }
    ensures kept { set.new ≡ set.old }
{
    set.get().capacity()
}

// 2 ^ 64 over the golden ratio.
const MULTIPLIER: u64 = 11_400_714_819_323_198_485;

fn hash_members(set: &BitSet<Block>) -> u64
    ensures { result ≡ hash_of (elements set.now.values) }
{
    let mut state: u64 = 1;
    for member in set {
        state = state.wrapping_add(member as u64).wrapping_mul(MULTIPLIER);
    }
    state ^ (state >> 32)
}

/// A hash that depends only on the members: equal sets have the same hash.
#[unsafe(no_mangle)]
pub extern "C" fn bit_set_hash(set: &mut Shared) -> u64
    requires here { IsAt set.ref_ptr set.old.at }
    ensures value { result ≡ hash_of (elements set.old.bits.values) }
    ensures kept { set.new ≡ set.old }
{
    hash_members(set.get())
}
