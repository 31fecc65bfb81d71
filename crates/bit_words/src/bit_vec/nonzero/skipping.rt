// The walk over the blocks that are not 0, past many of them at once.
ghost use Rattle.std.specs.{Prelude.{◌≡◌, ◌+◌, ◌<◌, ◌≤◌, ◌^◌, All, IfSome, None, min}, List.sum_by};
ghost use Rattle.bit_blocks.specs.Storage.{ones_in};
ghost use Rattle.bit_words.specs.Nonzero.{ones_left, SkipsBlocks};

use crate::bit_vec::Nonzero;
use crate::summary::is_nonzero;
use crate::summary::queries::first_blocks;
use bit_blocks::block::BitBlock;
use bit_blocks::packed::groups::{GROUP, group_from};
use bit_blocks::steps::Steps;

impl<'a, B: BitBlock> Nonzero<'a, B> {
    /// Passes over blocks at the front, as many as it likes, whose ones are no more than `most`, and returns how many
    /// ones they have. Each that is not zero is a pull. It goes on by as many blocks at once as a block has bits: where a
    /// block of the summary that says of them is stored, and is next, and more than a sixteenth of them are not zero.
    /// Reads each block that it passes once.
    ///
    /// ```
    /// // Of 1000 values, all true, over blocks of 8 bits.
    /// let mut walk = bits.nonzero_past(7);
    /// assert_eq!(walk.skip_blocks(200), 192);
    /// assert_eq!(walk.next(), Some((32, 0xff)));
    /// ```
    #[inline]
    pub fn skip_blocks(&mut self, most: usize) -> usize
        requires fits { ones_left B.number self.old.left < 2 ^ 64 }
        ensures within { result ≤ most }
        ensures skips { SkipsBlocks B.number self.old result self.new }
    {
        let mut ones = 0;
        while let Some(more) = self.skip_chunk(most - ones) {
            ones += more;
        }
        ones
    }

    // Passes over the next chunk, as many blocks as a block has bits, if its ones are no more than `most`: it returns
    // how many they are. Where few of its blocks are not zero, to look at these takes less than to count all.
    #[inline]
    fn skip_chunk(&mut self, most: usize) -> Option<usize>
        requires fits { ones_left B.number self.old.left < 2 ^ 64 }
        ensures none { result ≡ None → self.new ≡ self.old }
        ensures some { IfSome result (λ ones. (ones ≤ most) × SkipsBlocks B.number self.old ones self.new
            × (self.new.summary_left < self.old.summary_left)) }
    {
        let used = self.pending.next_chunk()?;
        if used.count_ones() <= B::bits() / 16 {
            return None;
        }
        let start = self.pending.index + B::bits();
        let mut steps = self.steps.clone();
        let ones = pull_chunk(first_blocks(self.blocks.split_at(start).1).0, &mut steps);
        if ones > most {
            return None;
        }
        self.pending.pass_chunk();
        self.steps = steps;
        Some(ones)
    }
}

// How many ones the blocks have, each of which is read, most of them a group at a time. One that is not zero is a pull.
#[inline]
fn pull_chunk<B: BitBlock>(blocks: &[B], steps: &mut Steps) -> usize
    requires each { All B.is_block blocks.now }
    requires fits { ones_in B.number blocks.now < 2 ^ 64 }
    ensures ones { result ≡ ones_in B.number blocks.now }
    ensures steps { steps.new ≡ steps.old + sum_by (λ block. min 1 (B.number block)) blocks.now }
{
    let groups = blocks.len() / GROUP;
    let mut ones = 0;
    for group in 0..groups {
        ones = pull_ones(ones, group_from(blocks, group * GROUP), steps);
    }
    pull_ones(ones, blocks.split_at(groups * GROUP).1, steps)
}

// A number, and the ones of each block.
#[inline]
fn pull_ones<B: BitBlock>(before: usize, blocks: &[B], steps: &mut Steps) -> usize
    requires each { All B.is_block blocks.now }
    requires fits { before + ones_in B.number blocks.now < 2 ^ 64 }
    ensures ones { result ≡ before + ones_in B.number blocks.now }
    ensures steps { steps.new ≡ steps.old + sum_by (λ block. min 1 (B.number block)) blocks.now }
{
    let mut ones = before;
    for block in blocks {
        ones += block.count_ones();
        if is_nonzero(*block) {
            steps.tick();
        }
    }
    ones
}
