// Tables of bits in a list of blocks, by functions on the blocks: each row has equally many blocks.
ghost use Rattle.std.specs.Prelude.{◌≡◌, ◌+◌, ◌*◌, ◌^◌, ◌<◌, ◌≤◌, MatchOption, drop, length, take};

use crate::BitBlock;

// The index of a bit in the list, which has this many rows or more.
#[inline]
pub(crate) fn bit_index_of<B: BitBlock>(stride: usize, row: usize, column: usize) -> usize
    requires fits { row * (stride * B.width) + column < 2 ^ 64 }
    requires within { stride * B.width < 2 ^ 64 }
    ensures { result ≡ row * (stride * B.width) + column }
{
    row * (stride * B::bits()) + column
}

// How many blocks this many rows have, or `None` if a `usize` does not count their bits.
pub(crate) fn blocks_of_rows<B: BitBlock>(rows: usize, stride: usize) -> Option<usize>
    ensures { MatchOption result (usize.MAX < rows * (stride * B.width))
        (λ count. (count ≡ rows * stride) × (rows * (stride * B.width) ≤ usize.MAX)) }
{
    let count = rows.checked_mul(stride)?;
    let _bits = count.checked_mul(B::bits())?;
    Some(count)
}

// The blocks of a row.
#[inline]
pub(crate) fn row_of_blocks<B: BitBlock>(blocks: &[B], stride: usize, row: usize) -> &[B]
    requires within { row * stride + stride ≤ length blocks.now }
    ensures { result.now ≡ take stride (drop (row * stride) blocks.now) }
{
    blocks.split_at(row * stride).1.split_at(stride).0
}
