// The blocks of a merge of two sets, copied out. Both may be the same set.
ghost use Rattle.std.specs.Prelude.{◌≡◌, ℕ, ◌<◌, get_or, length, max};
ghost use Rattle.bit_blocks.specs.{Digits.is_one, Merges.merge_of_values};
ghost use Rattle.c_handles.specs.{Copies.FillsFront, Handed.{AreAt, BothStay}};
ghost use Rattle.bit_set_c.specs.{Block.width, Copies.CopiesMerged};

use crate::block::Block;
use crate::blocks::blocks_from;
use crate::handed::Shared;
use bit_set::BitSet;
use bit_set::bit_vec::{Merge, block_or_zero};

fn merge_front(a: &[Block], b: &[Block], merge: Merge, to: &mut [Block]) -> usize
    ensures fills { FillsFront result (max (length a.now) (length b.now)) to.old to.new }
    ensures digits { (k j : ℕ) → k < result → j < width → is_one (get_or to.new k 0) j
        ≡ merge_of_values merge (is_one (get_or a.now k 0) j) (is_one (get_or b.now k 0) j) }
{
    let count = to.len().min(a.len().max(b.len()));
    for k in 0..count {
        to[k] = merge.of_blocks(block_or_zero(a, k), block_or_zero(b, k));
    }
    count
}

fn copy_merged(
    set: &BitSet<Block>,
    other: &BitSet<Block>,
    merge: Merge,
    from: usize,
    blocks: &mut [Block],
) -> usize
    ensures { CopiesMerged merge set.now.values other.now.values from result blocks.old blocks.new }
{
    merge_front(
        blocks_from(set, from),
        blocks_from(other, from),
        merge,
        blocks,
    )
}

/// Copies the blocks of what is in either set, from an index on, as many as fit, and returns how many.
#[unsafe(no_mangle)]
pub extern "C" fn bit_set_copy_union(
    set: &mut Shared,
    other: &mut Shared,
    from: usize,
    blocks: &mut [Block],
) -> usize
    requires here { AreAt set.ref_ptr set.old.at other.ref_ptr other.old.at }
    ensures copied { CopiesMerged Merge.Union set.old.bits.values other.old.bits.values from result
        blocks.old blocks.new }
    ensures kept { BothStay set.old set.new other.old other.new }
{
    copy_merged(set.get(), other.get(), Merge::Union, from, blocks)
}

/// Copies the blocks of what is in both sets, from an index on, as many as fit, and returns how many.
#[unsafe(no_mangle)]
pub extern "C" fn bit_set_copy_intersection(
    set: &mut Shared,
    other: &mut Shared,
    from: usize,
    blocks: &mut [Block],
) -> usize
    requires here { AreAt set.ref_ptr set.old.at other.ref_ptr other.old.at }
    ensures copied { CopiesMerged Merge.Intersection set.old.bits.values other.old.bits.values from result
        blocks.old blocks.new }
    ensures kept { BothStay set.old set.new other.old other.new }
{
    copy_merged(set.get(), other.get(), Merge::Intersection, from, blocks)
}

/// Copies the blocks of what is only in the first set, from an index on, as many as fit, and returns how many.
#[unsafe(no_mangle)]
pub extern "C" fn bit_set_copy_difference(
    set: &mut Shared,
    other: &mut Shared,
    from: usize,
    blocks: &mut [Block],
) -> usize
    requires here { AreAt set.ref_ptr set.old.at other.ref_ptr other.old.at }
    ensures copied { CopiesMerged Merge.Difference set.old.bits.values other.old.bits.values from result
        blocks.old blocks.new }
    ensures kept { BothStay set.old set.new other.old other.new }
{
    copy_merged(set.get(), other.get(), Merge::Difference, from, blocks)
}

/// Copies the blocks of what is in exactly one of the two sets, from an index on, as many as fit, and returns how
/// many.
#[unsafe(no_mangle)]
pub extern "C" fn bit_set_copy_symmetric_difference(
    set: &mut Shared,
    other: &mut Shared,
    from: usize,
    blocks: &mut [Block],
) -> usize
    requires here { AreAt set.ref_ptr set.old.at other.ref_ptr other.old.at }
    ensures copied { CopiesMerged Merge.Symmetric set.old.bits.values other.old.bits.values from result
        blocks.old blocks.new }
    ensures kept { BothStay set.old set.new other.old other.new }
{
    copy_merged(set.get(), other.get(), Merge::Symmetric, from, blocks)
}
