// The blocks that a walk has still to look at, by chunks: as many blocks as a block has bits.
ghost use Rattle.std.specs.Prelude.{◌≡◌, ◌+◌, ◌<◌, ◌≤◌, ◌^◌, IfSome, drop};
ghost use Rattle.bit_words.specs.Pending.{IsNextChunk};

use crate::bit_vec::pending::Pending;
use crate::summary::is_nonzero;
use bit_blocks::block::BitBlock;

impl<'a, B: BitBlock> Pending<'a, B> {
    // Which blocks of the next chunk are not zero, by the stored block of the summary: the chunk is those past what
    // the block of the summary in hand covers, as many as a block has bits. `None` if that one is not used up yet,
    // if none is stored, or if the iterator ends within the chunk.
    #[inline]
    pub(crate) fn next_chunk(&self) -> Option<B>
        requires walk { self.now.index ≤ self.now.end }
        requires of_block { B.is_block self.now.bits }
        ensures { IfSome result (IsNextChunk B.width B.number
            self.now.index self.now.end self.now.bits self.now.summary.left) }
    {
        if is_nonzero(self.bits) || (self.end - self.index) / B::bits() < 2 {
            return None;
        }
        let used = *self.summary.as_slice().first()?;
        Some(used)
    }

    // Passes over that chunk.
    #[inline]
    pub(crate) fn pass_chunk(&mut self)
        requires fits { self.old.index + B.width < 2 ^ 64 }
        ensures index { self.new.index ≡ self.old.index + B.width }
        ensures end { self.new.end ≡ self.old.end }
        ensures bits { self.new.bits ≡ self.old.bits }
        ensures left { self.new.summary.left ≡ drop 1 self.old.summary.left }
        ensures pulls { self.new.summary.pulls ≡ self.old.summary.pulls + 1 }
    {
        self.index += B::bits();
        let _used = self.summary.next();
    }
}
