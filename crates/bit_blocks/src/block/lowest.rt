// The lowest 1 of a block, by a not, an addition, two masks, two subtractions and a count of ones.
ghost use Rattle.std.specs.Prelude.{◌≡◌, ◌-◌, ◌^◌, ◌<◌};
ghost use Rattle.bit_blocks.specs.Lowest.{IsLowest, IsCleared, IsIsolated};

use crate::block::BitBlock;
use crate::block::operators::{block_and, block_not, block_sub};

/// Removes the lowest 1 of a nonzero block, and returns its index. Constant time: all iterators find their items by
/// this step.
///
/// ```
/// let mut block = 0b0110u8;
/// assert_eq!(take_lowest_one(&mut block), 1);
/// assert_eq!(block, 0b0100);
/// ```
#[inline]
pub fn take_lowest_one<B: BitBlock>(block: &mut B) -> usize
    requires of_block { B.is_block block.old }
    requires not_zero { 0 < B.number block.old }
    ensures within { result < B.width }
    ensures lowest { IsLowest (B.number block.old) result }
    ensures of_block { B.is_block block.new }
    ensures cleared { IsCleared B.width (B.number block.old) result (B.number block.new) }
{
    let whole = *block;
    let below = block_sub(isolate_lowest_one(whole), B::one());
    *block = block_and(whole, block_sub(whole, B::one()));
    below.count_ones()
}

// The index of the lowest 1 of a block that is not zero.
#[inline]
pub(crate) fn lowest_one<B: BitBlock>(block: B) -> usize
    requires of_block { B.is_block block }
    requires not_zero { 0 < B.number block }
    ensures within { result < B.width }
    ensures lowest { IsLowest (B.number block) result }
{
    let mut rest = block;
    take_lowest_one(&mut rest)
}

// The lowest 1 of a block, and zeros else.
#[inline]
fn isolate_lowest_one<B: BitBlock>(block: B) -> B
    requires of_block { B.is_block block }
    requires not_zero { 0 < B.number block }
    ensures of_block { B.is_block result }
    ensures isolated { IsIsolated B.width (B.number block) (B.number result) }
{
    block_and(block, wrapping_neg(block))
}

// What gives zero when it is added to a block, past its highest digit.
#[inline]
fn wrapping_neg<B: BitBlock>(block: B) -> B
    requires of_block { B.is_block block }
    requires not_zero { 0 < B.number block }
    ensures of_block { B.is_block result }
    ensures of_number { B.number result ≡ 2 ^ B.width - B.number block }
{
    block_not(block) + B::one()
}
