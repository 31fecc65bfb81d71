//! The iterator over the columns of a row.
ghost use Rattle.std.specs.{Prelude.{◌≡◌, ℕ, ◌*◌, ◌^◌, ◌<◌, ◌&&◌, All, List, length, map, nat_le}, Iterator.item_count};
ghost use Rattle.bit_blocks.specs.Storage.{value_at};
ghost use Rattle.bit_set.specs.Sets.{IsAscending, has};
ghost use Rattle.bit_matrix.specs.Walks.{AdvancesInRow};

use crate::BitBlock;
use bit_blocks::packed::block_at;
use bit_words::bit_vec::{clear_below, take_lowest_one};
use std::marker::Model;

/// The columns of a row in ascending order, each once. Reads each block of the row once.
#[derive(Drop)]
pub struct Iter<'a, B: BitBlock> {
    // The blocks past the one in hand.
    rest: &'a [B],
    // What is left of the block in hand.
    block: B,
    // The index of its lowest bit.
    index: usize,
}

impl<'a, B: BitBlock> Model for Iter<'a, B> {
    ghost use Rattle.std.specs.Prelude.{ℕ, List, map};
    ghost use Rattle.bit_set.specs.Indexes.{indexes, values_in};
    ghost use Rattle.bit_matrix.specs.Walks.{IsRowWalk};

    ghost Value = { List ℕ };

    ghost view = { λ it. indexes B.width it.index (B.number it.block) (values_in B.width (map B.number it.rest.now)) };

    ghost invariant = { λ it. IsRowWalk B.width B.number B.is_block it.rest.now it.block it.index };
}

impl<'a, B: BitBlock> Iter<'a, B> {
    // The iterator over the indexes of the ones of a list of blocks, from `from` on.
    #[inline]
    pub(crate) fn over(blocks: &'a [B], from: usize) -> Self
        requires each { All B.is_block blocks.now }
        requires fits { length blocks.now * B.width < 2 ^ 64 }
        ensures members { (n : ℕ) → has result n
            ≡ (nat_le from n && value_at B.width (map B.number blocks.now) n) }
        ensures ascends { IsAscending result }
    {
        let first = from / B::bits();
        if first >= blocks.len() {
            return Iter {
                rest: blocks.split_at(blocks.len()).1,
                block: B::zero(),
                index: 0,
            };
        }
        let index = first * B::bits();
        Iter {
            rest: blocks.split_at(first + 1).1,
            block: clear_below(block_at(blocks, first), from - index),
            index,
        }
    }

    /// Another iterator over what is left. Constant time.
    #[inline]
    pub fn clone(&self) -> Self
        ensures { result ≡ self.now }
    {
        Iter {
            rest: self.rest,
            block: self.block,
            index: self.index,
        }
    }
}

impl<'a, B: BitBlock> Iterator for Iter<'a, B> {
    type Item = usize;

    ghost next_gives = { AdvancesInRow };

    ghost remaining = { item_count (λ (left : List ℕ). left) };

    /// The least column that is left, and `None` for good once there is none. Constant time within a block.
    #[inline]
    fn next(&mut self) -> Option<usize> {
        while self.block == B::zero() {
            let (first, rest) = self.rest.split_first()?;
            self.block = *first;
            self.rest = rest;
            self.index += B::bits();
        }
        // `index` is a multiple of the width, so this adds as an or does if the width is a power of two.
        Some(self.index + take_lowest_one(&mut self.block))
    }
}
