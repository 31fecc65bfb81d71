//! Iterators over numbers: all that is left of one, or what is left after some.

ghost use Rattle.std.specs.Prelude.{◌≡◌, ◌≢◌, ℕ, List, [], Option, drop, length, IfOk, OnErr};
ghost use Rattle.std.specs.Iterator.{IsFinite, YieldsFirst};
ghost use Rattle.bit_set_run.specs.Run.{rest_of};
ghost use Rattle.bit_set_commands.specs.declared.commands.Reply.TheVariants.{Items};

use crate::{Numbers, Reply};
use bit_set::bit_vec::operation::Operation;
use bit_set::{BitBlock, Intersection, Iter, TwoSets};
use std::alloc::{AllocError, Global};

/// An iterator over numbers that ends.
pub(crate) trait NumberWalk: Iterator<Item = usize> {
    ghost left: { Self → List ℕ };

    /// How many numbers are left, as a clone of the iterator counts them.
    fn count_left(&self) -> usize
        ensures { result ≡ length (left self.now) };

    ghost can: { (s : Self) → Self.can_next s };

    ghost ends: { (s : Self) → IsFinite (Self.remaining s) };

    ghost gives: { (s : Self) (r : Option ℕ) (t : Self) → Self.next_gives s r t → YieldsFirst left s r t };
}

impl<B: BitBlock> NumberWalk for Iter<'_, B> {
    ghost left = { λ walk. walk.left };

    ghost can = { λ s. tt };

    ghost ends = { λ s. tt };

    ghost gives = { λ s r t step. step.item };

    fn count_left(&self) -> usize {
        self.clone().count()
    }
}

impl<B: BitBlock, O: Operation> NumberWalk for TwoSets<'_, B, O> {
    ghost left = { λ walk. walk.left };

    ghost can = { λ s. tt };

    ghost ends = { λ s. tt };

    ghost gives = { λ s r t step. step.item };

    fn count_left(&self) -> usize {
        self.clone().count()
    }
}

impl<B: BitBlock> NumberWalk for Intersection<'_, B> {
    ghost left = { λ walk. walk.walk.left };

    ghost can = { λ s. tt };

    ghost ends = { λ s. tt };

    ghost gives = { λ s r t step. step.walk.item };

    fn count_left(&self) -> usize {
        self.clone().count()
    }
}

// The numbers that an iterator has left. If there are none, it allocates nothing.
fn numbers_of<W: NumberWalk>(alloc: Global, walk: W) -> Result<Numbers, AllocError>
    ensures all { IfOk result (λ numbers. numbers ≡ W.left walk) }
    ensures fails { OnErr result (W.left walk ≢ []) }
{
    let mut numbers = Vec::new(alloc);
    for number in walk {
        numbers.push(number)?;
    }
    Ok(Numbers::from_vec(numbers))
}

/// All that is left of an iterator.
pub(crate) fn items<W: NumberWalk>(alloc: Global, walk: W) -> Result<Reply, AllocError>
    ensures reply { IfOk result (λ reply. reply ≡ Items (W.left walk)) }
    ensures fails { OnErr result (W.left walk ≢ []) }
{
    Ok(Reply::Items(numbers_of(alloc, walk)?))
}

// Takes this many numbers of an iterator, or all if there are fewer.
fn pass_over<W: NumberWalk>(walk: &mut W, count: usize)
    ensures { W.left walk.new ≡ drop count (W.left walk.old) }
{
    if count > 0 {
        let _last = walk.nth(count - 1);
    }
}

/// What is left of an iterator after this many of its numbers, or after all if there are fewer.
pub(crate) fn rest<W: NumberWalk>(
    alloc: Global,
    mut walk: W,
    taken: usize,
) -> Result<Reply, AllocError>
    ensures reply { IfOk result (λ reply. reply ≡ rest_of taken (W.left walk)) }
    ensures fails { OnErr result (drop taken (W.left walk) ≢ []) }
{
    pass_over(&mut walk, taken);
    let count = walk.count_left();
    Ok(Reply::Rest(count, numbers_of(alloc, walk)?))
}
