// Whole blocks of a list, written at once.
ghost use Rattle.std.specs.Prelude.{◌≡◌, ◌+◌, ◌*◌, ◌≤◌, All, length, map};
ghost use Rattle.bit_words.specs.Kept.{PutsBlocks};

use crate::bit_vec::BitVec;
use crate::summary::follow_one;
use crate::summary::spans::put_span;
use bit_blocks::block::BitBlock;
use bit_blocks::packed::access::block_index;

impl<B: BitBlock> BitVec<B> {
    /// Replaces the blocks from block `from` on by these, each of which must lie within the list. Copies them all
    /// at once, and if a summary is stored, computes their bits in it anew, a block of the summary at a time.
    pub fn put_blocks(&mut self, from: usize, blocks: &[B])
        requires within { (from + length blocks.now) * B.width ≤ length self.old.values }
        requires each { All B.is_block blocks.now }
        ensures values { PutsBlocks B.width from (map B.number blocks.now) self.old.values self.new.values }
        ensures capacity { self.new.capacity ≡ self.old.capacity }
    {
        follow_one(&mut self.search_start, block_index::<B>(from), true);
        put_span(&mut self.blocks, &mut self.summary, from, blocks);
    }
}
