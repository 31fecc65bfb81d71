// Squares of bits, as many rows as a block has bits, transposed in place. What is next to each other in a row is done
// together, as one operation on whole blocks; so the compiler makes vector code of it. The width of a block is a multiple
// of 8, and no power of two in general: squares are made of four smaller ones as long as these go into all rows, and in the
// end that of all rows of as many as are left.
ghost use Rattle.std.specs.Prelude.{◌≡◌, ℕ, ◌+◌, ◌*◌, ◌/◌, ◌%◌, ◌<◌, ◌≤◌, ◌==◌, All, get_or, length, map};
ghost use Rattle.bit_blocks.specs.{Digits.is_one, Written.WritesBlocks};
ghost use Rattle.bit_matrix.specs.Squares.{AreExchanged, AreSquaresExchanged, ArePairsExchanged, AreRowsTransposed, HasColumn, IsExchanged, IsStrip, IsTransposedStrip};

use crate::BitBlock;
use bit_blocks::block::masks::with_one_if;
use bit_blocks::block::operators::{block_and, block_not, block_or, shift_left};
use bit_blocks::packed::{block_at, put_in};

// The block with a 1 at each index that is in the square `square` of those of this size, of which `count` are a group.
#[inline(always)]
fn columns_of<B: BitBlock>(size: usize, count: usize, square: usize) -> B
    requires size { 0 < size }
    requires count { 0 < count }
    ensures of_block { B.is_block result }
    ensures digits { (c : ℕ) → c < B.width → is_one (B.number result) c ≡ (c / size % count == square) }
{
    let mut columns = B::zero();
    for c in 0..B::bits() {
        columns = with_one_if(columns, c, c / size % count == square);
    }
    columns
}

// Exchanges the digits of the upper block that are in `right` with those of the lower that are in `left`, which are lower
// by `distance`.
#[inline(always)]
fn exchange<B: BitBlock>(upper: B, lower: B, left: B, right: B, distance: usize) -> (B, B)
    requires upper { B.is_block upper }
    requires lower { B.is_block lower }
    requires left { B.is_block left }
    requires right { B.is_block right }
    requires within { distance < B.width }
    ensures exchanged { IsExchanged B.width distance (B.number left) (B.number right) (B.number upper) (B.number lower)
        (B.number result.0) (B.number result.1) }
    ensures upper { B.is_block result.0 }
    ensures lower { B.is_block result.1 }
{
    let up = block_and(shift_left(lower, distance), right);
    let down = block_and(upper.shift_right(distance), left);
    (
        block_or(block_and(upper, block_not(right)), up),
        block_or(block_and(lower, block_not(left)), down),
    )
}

// Exchanges so in as many blocks of two rows, which begin at `upper` and at `lower`.
#[inline(always)]
fn exchange_rows<B: BitBlock>(
    blocks: &mut [B],
    upper: usize,
    lower: usize,
    count: usize,
    left: B,
    right: B,
    distance: usize,
)
    requires apart { upper + count ≤ lower }
    requires inside { lower + count ≤ length blocks.old }
    requires each { All B.is_block blocks.old }
    requires left { B.is_block left }
    requires right { B.is_block right }
    requires within { distance < B.width }
    ensures exchanged { AreExchanged B.width distance (B.number left) (B.number right) upper lower count
        (map B.number blocks.old) (map B.number blocks.new) }
    ensures written { WritesBlocks B.is_block blocks.old blocks.new }
{
    for g in 0..count {
        let (above, below) = exchange(
            block_at(blocks, upper + g),
            block_at(blocks, lower + g),
            left,
            right,
            distance,
        );
        put_in(blocks, upper + g, above);
        put_in(blocks, lower + g, below);
    }
}

// In each group of squares exchanges the one that is in the rows of square `a` and the columns of `b` with the one that is
// in the rows of `b` and the columns of `a`.
#[inline(always)]
fn exchange_squares<B: BitBlock>(
    blocks: &mut [B],
    stride: usize,
    size: usize,
    count: usize,
    a: usize,
    b: usize,
)
    requires size { 0 < size }
    requires whole { B.width % (count * size) ≡ 0 }
    requires order { a < b }
    requires square { b < count }
    requires strip { IsStrip B.is_block B.width stride blocks.old }
    ensures exchanged { ArePairsExchanged B.width stride size count a b (map B.number blocks.old) (map B.number blocks.new) }
    ensures written { WritesBlocks B.is_block blocks.old blocks.new }
{
    let left = columns_of::<B>(size, count, a);
    let right = columns_of::<B>(size, count, b);
    let distance = (b - a) * size;
    for i in 0..B::bits() / count {
        let row = (i / size * count + a) * size + i % size;
        let upper = row * stride;
        let lower = (row + distance) * stride;
        exchange_rows(blocks, upper, lower, stride, left, right, distance);
    }
}

// Makes of squares that are transposed groups that are.
#[inline(always)]
fn transpose_groups<B: BitBlock>(blocks: &mut [B], stride: usize, size: usize, count: usize)
    requires size { 0 < size }
    requires count { 0 < count }
    requires whole { B.width % (count * size) ≡ 0 }
    requires strip { IsStrip B.is_block B.width stride blocks.old }
    ensures exchanged { AreSquaresExchanged B.width stride size count (map B.number blocks.old) (map B.number blocks.new) }
    ensures written { WritesBlocks B.is_block blocks.old blocks.new }
{
    for b in 0..count {
        for a in 0..b {
            exchange_squares(blocks, stride, size, count, a, b);
        }
    }
}

// The block of row `row` of this many, and 0 where there is no such row.
#[inline(always)]
fn block_of_row<B: BitBlock>(blocks: &[B], stride: usize, rows: usize, row: usize, k: usize) -> B
    requires { HasColumn B.is_block rows stride k blocks.now }
    ensures of_block { B.is_block result }
    ensures of_number { B.number result ≡ get_or (map B.number blocks.now) (row * stride + k) 0 }
{
    if row < rows {
        block_at(blocks, row * stride + k)
    } else {
        B::zero()
    }
}

// The block `k` of each row, and then 0, as many as the strip has: those of one row after another are below each other.
#[inline(always)]
fn load_strip<B: BitBlock>(
    strip: &mut [B],
    width: usize,
    blocks: &[B],
    stride: usize,
    rows: usize,
    k: usize,
)
    requires strip { IsStrip B.is_block B.width width strip.old }
    requires from { HasColumn B.is_block rows stride k blocks.now }
    ensures loaded { (i g : ℕ) → i < B.width → g < width → get_or (map B.number strip.new) (i * width + g) 0
        ≡ get_or (map B.number blocks.now) ((g * B.width + i) * stride + k) 0 }
    ensures written { WritesBlocks B.is_block strip.old strip.new }
{
    for row in 0..B::bits() * width {
        let block = block_of_row(blocks, stride, rows, row, k);
        put_in(strip, row % B::bits() * width + row / B::bits(), block);
    }
}

// The strip, of as many rows as a block has bits, becomes block `k` of each row, transposed.
fn transpose_strip<B: BitBlock>(
    strip: &mut [B],
    width: usize,
    blocks: &[B],
    stride: usize,
    rows: usize,
    k: usize,
)
    requires strip { IsStrip B.is_block B.width width strip.old }
    requires from { HasColumn B.is_block rows stride k blocks.now }
    ensures transposed { IsTransposedStrip B.width width stride k (map B.number blocks.now) (map B.number strip.new) }
    ensures written { WritesBlocks B.is_block strip.old strip.new }
{
    load_strip(strip, width, blocks, stride, rows, k);
    // A square of one bit is transposed as it is.
    let mut size: usize = 1;
    while B::bits() / size % 2 == 0 {
        transpose_groups(strip, width, size, 2);
        size *= 2;
    }
    transpose_groups(strip, width, size, B::bits() / size);
}

// The rows from that of the first bit of block `k` on, as many as a block has bits, become block `k` of each row of the other
// blocks, transposed.
pub(crate) fn transpose_into<B: BitBlock>(
    blocks: &mut [B],
    width: usize,
    others: &[B],
    stride: usize,
    rows: usize,
    k: usize,
)
    requires inside { k * (B.width * width) + B.width * width ≤ length blocks.old }
    requires each { All B.is_block blocks.old }
    requires from { HasColumn B.is_block rows stride k others.now }
    ensures transposed { AreRowsTransposed B.width width stride k (map B.number others.now) (map B.number blocks.old)
        (map B.number blocks.new) }
    ensures written { WritesBlocks B.is_block blocks.old blocks.new }
{
    let count = B::bits() * width;
    let (_, back) = blocks.split_at_mut(k * count);
    let (strip, _) = back.split_at_mut(count);
    transpose_strip(strip, width, others, stride, rows, k);
}
