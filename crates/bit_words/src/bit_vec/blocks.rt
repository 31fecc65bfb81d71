// The walk over all blocks of a bit vector.
ghost use Rattle.std.specs.{Prelude.{◌≡◌, ◌≢◌, ℕ, ◌+◌, ◌<◌, ◌≤◌, All, IfSome, Some, drop, get_or, length, map, take}, Iterator.{UpTo, item_count, SizeHint.IsWithinCount}};
ghost use Rattle.bit_words.specs.Source.{PullsIf};

use bit_blocks::block::BitBlock;
use bit_blocks::packed::zeros::zeros_before;
use bit_blocks::steps::Steps;
use std::marker::Model;

/// A walk over the blocks of a bit vector, from the first to the last.
///
/// Contracts see the blocks that are left, and `pulls`. A pull is a block that the walk takes, or the end that it finds:
/// a call of `next`, or of `next_if` where the block is wanted.
#[derive(Drop)]
pub struct Blocks<'a, B: BitBlock> {
    blocks: &'a [B],
    // How many of them it is past.
    at: usize,
    steps: Steps,
}

impl<'a, B: BitBlock> Model for Blocks<'a, B> {
    ghost use Rattle.std.specs.Prelude.{◌≤◌, drop, length};
    ghost use Rattle.bit_words.specs.Source.{Source};

    ghost Value = { Source B };

    ghost view = { λ it. record { left = drop it.at it.blocks.now; pulls = it.steps } };

    ghost invariant = { λ it. it.at ≤ length it.blocks.now };
}

impl<'a, B: BitBlock> Blocks<'a, B> {
    // The walk over these blocks, not yet pulled.
    #[inline]
    pub(crate) fn over(blocks: &'a [B]) -> Self
        ensures left { result.left ≡ blocks.now }
        ensures pulls { result.pulls ≡ 0 }
    {
        Blocks {
            blocks,
            at: 0,
            steps: Steps::new(),
        }
    }

    /// The blocks that are left, as a slice. Constant time.
    #[inline]
    pub fn as_slice(&self) -> &'a [B]
        ensures { result.now ≡ self.now.left }
    {
        self.blocks.split_at(self.at).1
    }

    /// [`next`](Self::next) where the block is wanted. Else it gives a block of zeros, makes no pull and
    /// leaves the walk as it was. No branch depends on `wanted`: for a caller whose branch on it would be
    /// predicted badly. Constant time.
    #[inline]
    pub fn next_if(&mut self, wanted: bool) -> Option<B>
        ensures { PullsIf B.is_block B.number wanted self.old result self.new }
    {
        if wanted {
            self.steps.tick();
        }
        let Some(next) = self.as_slice().first() else {
            return (!wanted).then_some(B::zero());
        };
        // Read in any case, so that what depends on `wanted` is a conditional move.
        let block = *next;
        self.at += usize::from(wanted);
        Some(if wanted { block } else { B::zero() })
    }

    // Pulls the blocks before the first that is not 0, each by itself. Returns how many they are.
    #[inline]
    pub(crate) fn pass_zeros(&mut self) -> usize
        requires each { All B.is_block self.old.left }
        ensures there { result ≤ length self.old.left }
        ensures zeros { (k : ℕ) → k < result → get_or (map B.number self.old.left) k 0 ≡ 0 }
        ensures end { result < length self.old.left → get_or (map B.number self.old.left) result 0 ≢ 0 }
        ensures left { self.new.left ≡ drop result self.old.left }
        ensures fewer { length self.new.left + result ≡ length self.old.left }
        ensures pulls { self.new.pulls ≡ self.old.pulls + result }
    {
        let zeros = zeros_before(self.as_slice());
        for _ in 0..zeros {
            self.pass();
        }
        zeros
    }

    // Pulls a block, whatever it is.
    #[inline(always)]
    fn pass(&mut self)
        requires some { 0 < length self.old.left }
        ensures left { self.new.left ≡ drop 1 self.old.left }
        ensures pulls { self.new.pulls ≡ self.old.pulls + 1 }
    {
        self.steps.tick();
        self.at += 1;
    }

    // Leaves only so many of the blocks that are left.
    #[inline(always)]
    pub(crate) fn keep_first(&mut self, count: usize)
        ensures left { self.new.left ≡ take count self.old.left }
        ensures pulls { self.new.pulls ≡ self.old.pulls }
    {
        let end = self.at + count.min(self.blocks.len() - self.at);
        self.blocks = self.blocks.split_at(end).0;
    }

    /// How many blocks are left. Constant time.
    #[inline]
    pub fn count(self) -> usize
        ensures { result ≡ length self.entry.left }
    {
        self.blocks.len() - self.at
    }

    /// A walk from the same place, whose count goes on from this one's. Constant time.
    #[inline]
    pub fn clone(&self) -> Self
        ensures { result ≡ self.now }
    {
        Blocks {
            blocks: self.blocks,
            at: self.at,
            steps: self.steps.clone(),
        }
    }
}

/// Each block that is left, from the first on. A `for` takes the walk itself.
impl<'a, B: BitBlock> Iterator for Blocks<'a, B> {
    ghost use Rattle.bit_words.specs.Source.{Pulls};

    type Item = B;

    ghost next_gives = { Pulls };

    ghost remaining = { item_count (λ source. source.left) };

    /// The first of the blocks that are left, or `None` where there is none; counts one pull in either
    /// case. Constant time.
    #[inline]
    fn next(&mut self) -> Option<B> {
        self.steps.tick();
        let block = *self.blocks.get(self.at)?;
        self.at += 1;
        Some(block)
    }

    /// How many blocks are left, on both sides. Constant time.
    #[inline]
    fn size_hint(&self) -> (usize, Option<usize>)
        ensures exact { result ≡ (length self.now.left, Some (length self.now.left)) }
        ensures lower { IsWithinCount result.0 (item_count (λ source. source.left) self.now) }
        ensures upper { IfSome result.1 (UpTo (item_count (λ source. source.left) self.now)) }
    {
        let left = self.blocks.len() - self.at;
        (left, Some(left))
    }
}
