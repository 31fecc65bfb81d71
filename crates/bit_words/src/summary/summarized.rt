// What a list that has a summary is merged with, where summaries say which blocks of that may have a 1.
ghost use Rattle.std.specs.Prelude.{◌≡◌, ℕ, ◌+◌, ◌*◌, ◌^◌, ◌<◌, ◌≤◌, ◌&&◌, All, Bool, false, length, map, true};
ghost use Rattle.bit_blocks.specs.{BlockMerges.{except_at, other_at}, Digits.is_one, Storage.is_used};
ghost use Rattle.bit_words.specs.Summary.{IsStoredSummary};

use crate::summary::merges::touched::block_or_zero;
use crate::summary::queries::summary_at;
use bit_blocks::block::BitBlock;
use bit_blocks::block::operation::{Difference, Intersection, Operation};
use bit_blocks::packed::access::block_at;
use bit_blocks::packed::others::{Both, Others};

/// The other side of a merge, with what is known about its blocks without reading them.
pub(crate) trait Summarized<B: BitBlock>: Others<B> {
    // Whether the summaries are those of the lists that the blocks are made of.
    ghost are_summarized: { Self → Type 0 };

    // Whether block k may have a 1.
    ghost may_use: { Self → ℕ → Bool };

    /// Which of the blocks that block `q` of a summary covers may have a 1.
    fn used_at(self, q: usize) -> B
        requires summaries { are_summarized self }
        requires fits { q * B.width < 2 ^ 64 }
        ensures of_block { B.is_block result }
        ensures digits { (p : ℕ) → p < B.width → is_one (B.number result) p ≡ may_use self (q * B.width + p) }
        ensures within { (k : ℕ) → may_use self k ≡ true → k < Self.count self }
        ensures zeros { (k j : ℕ) → may_use self k ≡ false → Self.digit self k j ≡ false };

    /// Which of these may nevertheless have none.
    fn unsure_at(self, q: usize) -> B
        requires summaries { are_summarized self }
        requires fits { q * B.width < 2 ^ 64 }
        ensures of_block { B.is_block result }
        ensures sure { (p : ℕ) → p < B.width → is_one (B.number result) p ≡ false
            → ((j : ℕ) → j < B.width → Self.digit self (q * B.width + p) j ≡ false)
            → may_use self (q * B.width + p) ≡ false };
}

/// The blocks of a list, and the summary that is stored for them.
#[derive(Clone, Copy)]
pub(crate) struct Listed<'a, B> {
    pub(crate) blocks: &'a [B],
    pub(crate) summary: &'a [B],
}

impl<'a, B: BitBlock> Others<B> for Listed<'a, B> {
    ghost count = { λ list. length list.blocks.now };

    ghost digit = { λ list. other_at (map B.number list.blocks.now) };

    ghost are_blocks = { λ list. All B.is_block list.blocks.now };

    #[inline(always)]
    fn len(self) -> usize {
        self.blocks.len()
    }

    #[inline(always)]
    fn block(self, k: usize) -> B {
        block_at(self.blocks, k)
    }
}

impl<'a, B: BitBlock> Summarized<B> for Listed<'a, B> {
    ghost are_summarized = { λ list. All B.is_block list.blocks.now
        × IsStoredSummary B.width B.number B.is_block list.blocks.now list.summary.now };

    ghost may_use = { λ list. is_used (map B.number list.blocks.now) };

    #[inline(always)]
    fn used_at(self, q: usize) -> B {
        summary_at(self.blocks, self.summary, q)
    }

    #[inline(always)]
    fn unsure_at(self, q: usize) -> B {
        B::zero()
    }
}

/// The bits that two lists of blocks have in common, and the summaries that are stored for the lists.
pub(crate) type Common<'a, B> = Both<Listed<'a, B>, Listed<'a, B>>;

impl<B: BitBlock, F: Summarized<B>, S: Summarized<B>> Summarized<B> for Both<F, S> {
    ghost are_summarized = { λ both. F.are_summarized both.first × S.are_summarized both.second };

    ghost may_use = { λ both k. F.may_use both.first k && S.may_use both.second k };

    #[inline(always)]
    fn used_at(self, q: usize) -> B {
        Intersection::of_blocks(self.first.used_at(q), self.second.used_at(q))
    }

    // Two blocks that are not 0 may have no 1 in common.
    #[inline(always)]
    fn unsure_at(self, q: usize) -> B {
        self.used_at(q)
    }
}

/// The blocks of one list without the ones of another that is no shorter, and the summaries that are stored for
/// both.
#[derive(Clone, Copy)]
pub(crate) struct Apart<'a, B> {
    pub(crate) others: Listed<'a, B>,
    pub(crate) except: Listed<'a, B>,
}

impl<'a, B: BitBlock> Others<B> for Apart<'a, B> {
    ghost count = { λ apart. length apart.others.blocks.now };

    ghost digit = { λ apart. except_at (map B.number apart.others.blocks.now) (map B.number apart.except.blocks.now) };

    ghost are_blocks = { λ apart. All B.is_block apart.others.blocks.now × All B.is_block apart.except.blocks.now
        × (length apart.others.blocks.now ≤ length apart.except.blocks.now) };

    #[inline(always)]
    fn len(self) -> usize {
        self.others.blocks.len()
    }

    #[inline(always)]
    fn block(self, k: usize) -> B {
        Difference::of_blocks(
            block_at(self.others.blocks, k),
            block_at(self.except.blocks, k),
        )
    }
}

impl<'a, B: BitBlock> Summarized<B> for Apart<'a, B> {
    ghost are_summarized = { λ apart.
        (All B.is_block apart.others.blocks.now
        × IsStoredSummary B.width B.number B.is_block apart.others.blocks.now apart.others.summary.now)
        × (All B.is_block apart.except.blocks.now
        × IsStoredSummary B.width B.number B.is_block apart.except.blocks.now apart.except.summary.now) };

    ghost may_use = { λ apart. is_used (map B.number apart.others.blocks.now) };

    #[inline(always)]
    fn used_at(self, q: usize) -> B {
        self.others.used_at(q)
    }

    // Only where `except` has a block can it remove all of one.
    #[inline(always)]
    fn unsure_at(self, q: usize) -> B {
        self.except.used_at(q)
    }
}

/// The blocks of one list without the ones of another of any length, and the summaries that are stored for both. It
/// tests for the end of the other list at each block, so the compiler makes no vector code of it.
#[derive(Clone, Copy)]
pub(crate) struct Outside<'a, B> {
    pub(crate) others: Listed<'a, B>,
    pub(crate) except: Listed<'a, B>,
}

impl<'a, B: BitBlock> Others<B> for Outside<'a, B> {
    ghost count = { λ outside. length outside.others.blocks.now };

    ghost digit = { λ outside. except_at (map B.number outside.others.blocks.now)
        (map B.number outside.except.blocks.now) };

    ghost are_blocks = { λ outside. All B.is_block outside.others.blocks.now
        × All B.is_block outside.except.blocks.now };

    #[inline(always)]
    fn len(self) -> usize {
        self.others.blocks.len()
    }

    #[inline(always)]
    fn block(self, k: usize) -> B {
        Difference::of_blocks(
            block_at(self.others.blocks, k),
            block_or_zero(self.except.blocks, k),
        )
    }
}

impl<'a, B: BitBlock> Summarized<B> for Outside<'a, B> {
    ghost are_summarized = { λ outside.
        (All B.is_block outside.others.blocks.now
        × IsStoredSummary B.width B.number B.is_block outside.others.blocks.now outside.others.summary.now)
        × (All B.is_block outside.except.blocks.now
        × IsStoredSummary B.width B.number B.is_block outside.except.blocks.now outside.except.summary.now) };

    ghost may_use = { λ outside. is_used (map B.number outside.others.blocks.now) };

    #[inline(always)]
    fn used_at(self, q: usize) -> B {
        self.others.used_at(q)
    }

    #[inline(always)]
    fn unsure_at(self, q: usize) -> B {
        self.except.used_at(q)
    }
}
