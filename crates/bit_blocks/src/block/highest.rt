// The highest 1 of a block.
ghost use Rattle.std.specs.Prelude.{◌<◌};
ghost use Rattle.bit_blocks.specs.{Highest.IsHighest, Lowest.IsCleared};

use crate::block::BitBlock;
use crate::block::masks::with_bit;

/// Removes the highest 1 of a nonzero block, and returns its index, by [`highest_one`](BitBlock::highest_one):
/// iterators from the back find their items by this step.
///
/// ```
/// let mut block = 0b0110u8;
/// assert_eq!(take_highest_one(&mut block), 2);
/// assert_eq!(block, 0b0010);
/// ```
#[inline]
pub fn take_highest_one<B: BitBlock>(block: &mut B) -> usize
    requires of_block { B.is_block block.old }
    requires not_zero { 0 < B.number block.old }
    ensures within { result < B.width }
    ensures highest { IsHighest (B.number block.old) result }
    ensures of_block { B.is_block block.new }
    ensures cleared { IsCleared B.width (B.number block.old) result (B.number block.new) }
{
    let index = block.highest_one();
    *block = with_bit(*block, index, false);
    index
}
