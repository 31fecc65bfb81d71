// The walk over the blocks of a bit vector that are not 0, by its summary.
ghost use Rattle.std.specs.{Prelude.{◌≡◌, ◌+◌, ◌-◌, ◌*◌, ◌<◌, ◌≤◌, ◌^◌, ◌==◌, All, IfSome, not, Some, [], length, map, slice_get}, Iterator.item_count};
ghost use Rattle.bit_blocks.specs.Bits.{blocks_for, blocks_of, IsWithinCapacity};
ghost use Rattle.bit_words.specs.Nonzero.{ones_left, PullsNonzero, Refills, StartsPast, TakesFirst};

use crate::bit_vec::BitVec;
use crate::bit_vec::pending::{Pending, Unstored};
use crate::summary::is_nonzero;
use crate::summary::queries::{first_blocks, ones_by_summary};
use bit_blocks::block::BitBlock;
use bit_blocks::block::lowest::take_lowest_one;
use bit_blocks::packed::ones::ones_of;
use bit_blocks::steps::Steps;
use std::marker::Model;

mod back;
mod skipping;

/// A walk over the blocks of a bit vector that are not zero, past the one at which it was made, each with its index, in
/// ascending order, from both ends. It finds them by the summary, and so passes over as many zero blocks at once as a block has bits.
/// Of few blocks no summary is stored: then it looks at each block.
///
/// Contracts see all its blocks, those that are left, `pulls`, and how many times a block of the summary was pulled, or
/// made up where none is stored. A pull is a block that the walk takes, or the end that it finds, and the block that it
/// is made past.
#[derive(Drop)]
pub struct Nonzero<'a, B: BitBlock> {
    blocks: &'a [B],
    pending: Pending<'a, B>,
    steps: Steps,
}

impl<'a, B: BitBlock> Model for Nonzero<'a, B> {
    ghost use Rattle.std.specs.Prelude.{◌+◌, ◌-◌};
    ghost use Rattle.bit_blocks.specs.Bits.{blocks_for};
    ghost use Rattle.bit_words.specs.{Nonzero.Nonzeros, Pending.{IsPending, left_from, next_at}};

    ghost Value = { Nonzeros B };

    ghost view = { λ it. record {
      blocks = it.blocks.now;
      left = left_from B.number (next_at B.width it.pending.index (B.number it.pending.bits)) it.pending.end
          it.blocks.now;
      pulls = it.steps;
      summary_pulls = it.pending.summary.pulls;
      summary_left = blocks_for B.width (it.pending.end - (it.pending.index + B.width));
    } };

    ghost invariant = { λ it. IsPending B.width B.number B.is_block
        it.pending.index it.pending.end it.pending.bits it.blocks.now it.pending.summary.left };
}

impl<'a, B: BitBlock> Nonzero<'a, B> {
    // The walk past the block at `first`. Where there is no block, its end.
    #[inline]
    pub(crate) fn after(bits: &'a BitVec<B>, first: usize, unstored: Unstored) -> Self
        requires inside { first ≤ blocks_for B.width (length bits.now.values) - 1 }
        ensures blocks { map B.number result.blocks ≡ blocks_of B.width bits.now.values }
        ensures each { All B.is_block result.blocks }
        ensures start { StartsPast B.width B.number first result }
        ensures fits { IsWithinCapacity bits.now }
    {
        let blocks = bits.blocks.as_slice();
        let pending = Pending::after(blocks, &bits.summary, first, unstored);
        let mut steps = Steps::new();
        steps.tick();
        Nonzero {
            blocks,
            pending,
            steps,
        }
    }

    /// All the blocks that it goes over, as a slice. Constant time.
    #[inline]
    pub fn as_slice(&self) -> &'a [B]
        ensures { result.now ≡ self.now.blocks }
    {
        self.blocks
    }

    /// A walk from the same place, whose counts go on from this one's. Constant time.
    #[inline]
    pub fn clone(&self) -> Self
        ensures { result ≡ self.now }
    {
        Nonzero {
            blocks: self.blocks,
            pending: self.pending.clone(),
            steps: self.steps.clone(),
        }
    }

    /// Fills the hand at the front of a walk by two hands: where `block` is zero, makes it the next block that is not
    /// zero, and `index` that of its first bit. Where none is left it takes over the block in the other hand, `back`,
    /// which is zero then. Returns whether `block` is not zero then: at the end both are zero.
    /// Of few blocks it looks at each, and those that are zero count no pull.
    #[inline(always)]
    pub fn refill(
        &mut self,
        block: &mut B,
        index: &mut usize,
        back: &mut B,
        back_index: usize,
    ) -> bool
        requires of_block { B.is_block block.old }
        requires of_back { B.is_block back.old }
        requires fits { (length self.old.blocks - 1) * B.width < 2 ^ 64 }
        ensures of_block { B.is_block block.new }
        ensures of_back { B.is_block back.new }
        ensures found { result ≡ not (B.number block.new == 0) }
        ensures refills { Refills TakesFirst PullsNonzero B.width B.number
            self.old (record { block = block.old; index = index.old }) (record { block = back.old; index = back_index })
            result
            self.new (record { block = block.new; index = index.new }) (record { block = back.new; index = back_index }) }
    {
        if is_nonzero(*block) {
            return true;
        }
        if let Some((k, next)) = self.take_first() {
            *block = next;
            *index = k * B::bits();
            return true;
        }
        if is_nonzero(*back) {
            *block = *back;
            *index = back_index;
            *back = B::zero();
            return true;
        }
        self.count_end();
        false
    }

    // The next block, with its index, as a pull. Where there is none it counts no pull.
    #[inline(always)]
    fn take_first(&mut self) -> Option<(usize, B)>
        ensures steps { TakesFirst self.old result self.new }
        ensures found { IfSome result (λ entry. (entry.0 < length self.old.blocks)
            × B.is_block entry.1 × (0 < B.number entry.1)) }
    {
        while let Some(k) = self.pending.next_block(self.blocks) {
            let block = at(self.blocks, k);
            if is_nonzero(block) {
                self.steps.tick();
                return Some((k, block));
            }
        }
        None
    }

    // Counts the end that `take_first` found as a pull.
    #[inline]
    fn count_end(&mut self)
        requires left { self.old.left ≡ [] }
        requires summary { self.old.summary_left ≡ 0 }
        ensures blocks { self.new.blocks ≡ self.old.blocks }
        ensures left { self.new.left ≡ [] }
        ensures pulls { self.new.pulls ≡ self.old.pulls + 1 }
        ensures summary_pulls { self.new.summary_pulls ≡ self.old.summary_pulls + 1 }
        ensures summary_left { self.new.summary_left ≡ 0 }
    {
        self.steps.tick();
        let _end = self.pending.summary.next();
    }

    /// How many ones the blocks that are left have. Adds up those of each, and passes over as many blocks
    /// at once as a block has bits where they are all zero.
    pub fn count_ones(self) -> usize
        requires fits { ones_left B.number self.left < 2 ^ 64 }
        ensures { result ≡ ones_left B.number self.entry.left }
    {
        let before = self.blocks.split_at(self.pending.end).0;
        let (chunk, rest) = first_blocks(before.split_at(self.pending.index).1);
        let ones = ones_by_summary(rest, self.pending.summary.as_slice());
        let mut pending = self.pending.bits;
        if !is_nonzero(pending) {
            return ones;
        }
        // From its lowest bit on the block in hand says of each block whether it is zero.
        ones + ones_of(chunk.split_at(take_lowest_one(&mut pending)).1)
    }
}

impl<'a, B: BitBlock> Iterator for Nonzero<'a, B> {
    ghost use Rattle.bit_words.specs.Nonzero.{PullsNonzero};

    type Item = (usize, B);

    ghost next_gives = { PullsNonzero };

    ghost remaining = { item_count (λ walk. walk.left) };

    /// The next block that is not zero, with its index.
    // Where it is a call, the walk that it is called on goes through memory.
    #[inline(always)]
    fn next(&mut self) -> Option<(usize, B)> {
        let next = self.take_first();
        if next.is_none() {
            self.count_end();
        }
        next
    }
}

// The block itself: what `block_at` says is its number.
#[inline]
fn at<B: BitBlock>(blocks: &[B], k: usize) -> B
    requires { k < length blocks.now }
    ensures { slice_get blocks.now k ≡ Some result }
{
    blocks[k]
}
