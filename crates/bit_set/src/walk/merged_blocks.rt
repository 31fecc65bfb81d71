// The blocks of two sets, merged.
ghost use Rattle.std.specs.Prelude.{◌≡◌, ◌<◌, ◌^◌, max, IfSome, All, length};
ghost use Rattle.bit_blocks.specs.Bits.{blocks_for};
ghost use Rattle.set_algebra.specs.Sets.{elements, merge_of_sets};
ghost use Rattle.bit_set.specs.Indexes.{IsMergedPull, IsWalkable, PullsBlock, PullsBlockIf};

use crate::BitBlock;
use crate::bit_vec::operation::Operation;
use crate::bit_vec::{BitVec, Blocks, count_merged_blocks};
use std::marker::{Model, PhantomData};

// Up to this many ones in a block, the branch that leaves a block costs more than steps without one.
const FEW: usize = 6;

// Two sides that are pulled together, even after one has ended.
#[derive(Drop)]
pub(crate) struct Pairs<'a, B: BitBlock, O: Operation> {
    first: Blocks<'a, B>,
    second: Blocks<'a, B>,
    operation: PhantomData<O>,
}

impl<'a, B: BitBlock, O: Operation> Model for Pairs<'a, B, O> {
    ghost use Rattle.std.specs.Prelude.{◌≡◌, map, max, length, All};
    ghost use Rattle.bit_blocks.specs.Merges.{merge_of};
    ghost use Rattle.bit_set.specs.Indexes.{Ahead, values_in};

    ghost Value = { Ahead };

    ghost view = { λ pairs. record {
      values = merge_of O.merge (values_in B.width (map B.number pairs.first.left))
          (values_in B.width (map B.number pairs.second.left));
      blocks = max (length pairs.first.left) (length pairs.second.left);
      pulls = pairs.first.pulls;
    } };

    ghost invariant = { λ pairs. (All B.is_block pairs.first.left) × (All B.is_block pairs.second.left)
        × (pairs.second.pulls ≡ pairs.first.pulls) };
}

impl<'a, B: BitBlock, O: Operation> Pairs<'a, B, O> {
    // The blocks of two bit vectors, none pulled yet.
    #[inline]
    pub(crate) fn over(first: &'a BitVec<B>, second: &'a BitVec<B>) -> Self
        ensures can { IsWalkable B.width result }
        ensures values { elements result.values
            ≡ merge_of_sets O.merge (elements first.now.values) (elements second.now.values) }
        ensures blocks { result.blocks
            ≡ max (blocks_for B.width (length first.now.values)) (blocks_for B.width (length second.now.values)) }
        ensures pulls { result.pulls ≡ 0 }
    {
        Pairs {
            first: first.blocks(),
            second: second.blocks(),
            operation: PhantomData,
        }
    }

    // The next block, or `None` for good, and whether the blocks are assumed to have few ones.
    #[inline]
    pub(crate) fn pull_with_kind(&mut self) -> (Option<B>, bool)
        ensures steps { PullsBlock B.width B.number self.old result.0 self.new }
        ensures given { IfSome result.0 B.is_block }
    {
        let first = self.first.next();
        let second = self.second.next();
        let block = merge_of_blocks::<B, O>(first, second);
        // Two blocks of zeros say nothing about that.
        let is_sparse = has_few_ones(block) && (has_ones(first) || has_ones(second));
        (block, is_sparse)
    }

    // The next block if it is wanted; otherwise some block, and nothing is pulled. `None`, with nothing pulled,
    // once a side has ended: from there only `pull_with_kind` continues, so that a pull that finds the end of both
    // is counted once. That test is a branch too, but a predicted one.
    #[inline(always)]
    pub(crate) fn pull_if(&mut self, wanted: bool) -> Option<B>
        ensures steps { PullsBlockIf B.width B.number wanted self.old result self.new }
        ensures given { IfSome result B.is_block }
    {
        if self.first.size_hint().0 == 0 || self.second.size_hint().0 == 0 {
            return None;
        }
        let (Some(a), Some(b)) = (self.first.next_if(wanted), self.second.next_if(wanted)) else {
            return None;
        };
        Some(O::of_blocks(a, b))
    }

    // How many blocks are ahead.
    #[inline]
    pub(crate) fn blocks_left(&self) -> usize
        ensures { result ≡ self.now.blocks }
    {
        self.first.size_hint().0.max(self.second.size_hint().0)
    }

    // How many ones are ahead.
    #[inline]
    pub(crate) fn count_ones(self) -> usize
        requires { length (elements self.values) < 2 ^ 64 }
        ensures { result ≡ length (elements self.entry.values) }
    {
        count_merged_blocks::<B, O>(self.first.as_slice(), self.second.as_slice())
    }

    // What is ahead, with the count of pulls continued.
    #[inline]
    pub(crate) fn clone(&self) -> Self
        ensures { result ≡ self.now }
    {
        Pairs {
            first: self.first.clone(),
            second: self.second.clone(),
            operation: PhantomData,
        }
    }
}

// Whether a block was pulled that has few ones.
#[inline]
fn has_few_ones<B: BitBlock>(block: Option<B>) -> bool
    requires { IfSome block B.is_block }
{
    match block {
        Some(block) => block.count_ones() <= FEW,
        None => false,
    }
}

#[inline]
fn has_ones<B: BitBlock>(block: Option<B>) -> bool {
    match block {
        Some(block) => block != B::zero(),
        None => false,
    }
}

// The result of a pull of both sides. A side that has ended is extended by zeros.
#[inline]
fn merge_of_blocks<B: BitBlock, O: Operation>(first: Option<B>, second: Option<B>) -> Option<B>
    requires first { IfSome first B.is_block }
    requires second { IfSome second B.is_block }
    ensures merged { IsMergedPull B.width B.number O.merge first second result }
    ensures of_block { IfSome result B.is_block }
{
    match (first, second) {
        (Some(a), Some(b)) => Some(O::of_blocks(a, b)),
        (Some(a), None) => Some(O::of_blocks(a, B::zero())),
        (None, Some(b)) => Some(O::of_blocks(B::zero(), b)),
        (None, None) => None,
    }
}
