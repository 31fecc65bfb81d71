// How many ones a slice of blocks has, block by block. By a summary it is in `summary`.
ghost use Rattle.std.specs.Prelude.{◌≡◌, ◌+◌, ◌*◌, ◌^◌, ◌<◌, ◌≤◌, All, length, take};
ghost use Rattle.bit_blocks.specs.Storage.{ones_in};

use crate::block::BitBlock;
use crate::packed::groups::{GROUP, group_from};

/// The sum of the ones of all blocks, most of which are read a group at a time.
#[inline]
pub fn ones_of<B: BitBlock>(blocks: &[B]) -> usize
    requires each { All B.is_block blocks.now }
    requires fits { ones_in B.number blocks.now < 2 ^ 64 }
    ensures { result ≡ ones_in B.number blocks.now }
{
    let groups = blocks.len() / GROUP;
    let ones = ones_of_groups(blocks, groups);
    add_ones(ones, blocks.split_at(groups * GROUP).1)
}

// The ones of the first groups of blocks. The compiler knows how many blocks a group has, and adds up their ones
// with no loop.
#[inline]
fn ones_of_groups<B: BitBlock>(blocks: &[B], groups: usize) -> usize
    requires within { groups * GROUP ≤ length blocks.now }
    requires each { All B.is_block blocks.now }
    requires fits { ones_in B.number blocks.now < 2 ^ 64 }
    ensures { result ≡ ones_in B.number (take (groups * GROUP) blocks.now) }
{
    let mut ones = 0;
    for group in 0..groups {
        ones = add_ones(ones, group_from(blocks, group * GROUP));
    }
    ones
}

// A number, and the ones of each block. The sum goes on from the number, so that it stays in one register.
#[inline]
fn add_ones<B: BitBlock>(before: usize, blocks: &[B]) -> usize
    requires each { All B.is_block blocks.now }
    requires fits { before + ones_in B.number blocks.now < 2 ^ 64 }
    ensures { result ≡ before + ones_in B.number blocks.now }
{
    let mut ones = before;
    for block in blocks {
        ones += block.count_ones();
    }
    ones
}
