// The iterator over what two sets have in common.
ghost use Rattle.std.specs.{Prelude.{◌≡◌, Some, min, IfSome, length}, Iterator.{UpTo, item_count, Runs.YieldsInOrder, SizeHint.IsWithinCount}};
ghost use Rattle.set_algebra.specs.{Members.IsIntersection, Sets.{elements, intersection}};
ghost use Rattle.bit_set.specs.Walk.{AdvancesWithBound, StartsOverTwo};

use super::two_sets::TwoSets;
use crate::bit_vec::operation;
use crate::{BitBlock, BitSet};
use std::marker::Model;

/// What two sets have in common, in ascending order, each once. Pulls each block of both sets once. It keeps a
/// bound on the number of elements left.
#[derive(Drop)]
pub struct Intersection<'a, B: BitBlock> {
    walk: TwoSets<'a, B, operation::Intersection>,
    bound: usize,
}

impl<'a, B: BitBlock> Model for Intersection<'a, B> {
    ghost use Rattle.std.specs.Prelude.{◌≤◌, length};
    ghost use Rattle.bit_set.specs.Walk.{BoundedWalk};

    ghost Value = { BoundedWalk };

    ghost view = { λ it. record { walk = it.walk; bound = it.bound } };

    ghost invariant = { λ it. length it.walk.left ≤ it.bound };
}

impl<'a, B: BitBlock> Intersection<'a, B> {
    /// How many elements are left. Adds up the ones of each remaining pair of blocks.
    pub fn count(self) -> usize
        ensures { result ≡ length self.entry.walk.left }
    {
        self.walk.count()
    }

    /// Another iterator over what is left, whose count of pulls continues from this one's. Constant time.
    #[inline]
    pub fn clone(&self) -> Self
        ensures { result ≡ self.now }
    {
        Intersection {
            walk: self.walk.clone(),
            bound: self.bound,
        }
    }
}

impl<'a, B: BitBlock> Iterator for Intersection<'a, B> {
    type Item = usize;

    ghost next_gives = { AdvancesWithBound B.width };

    ghost remaining = { item_count (λ it. it.walk.left) };

    /// The least element that is left, and `None` for good once there is none. Pulls each block that it passes
    /// once, in both sets; constant time within a block.
    #[inline]
    fn next(&mut self) -> Option<usize> {
        self.bound = self.bound.saturating_sub(1);
        self.walk.next()
    }

    /// From 0 up to the smaller length of the two sets, less the number of calls of `next`, and at least 0. So it
    /// is 0 from the start if a set has length 0. Constant time.
    #[inline]
    fn size_hint(&self) -> (usize, Option<usize>)
        ensures exact { result ≡ (0, Some self.now.bound) }
        ensures lower { IsWithinCount result.0 (item_count (λ it. it.walk.left) self.now) }
        ensures upper { IfSome result.1 (UpTo (item_count (λ it. it.walk.left) self.now)) }
    {
        (0, Some(self.bound))
    }
}

impl<B: BitBlock> BitSet<B> {
    /// An iterator over what is in this set and in the other one, in ascending order. Constant time.
    #[inline]
    pub fn intersection<'a>(&'a self, other: &'a Self) -> Intersection<'a, B>
        ensures left { result.walk.left ≡ intersection (elements self.now.values) (elements other.now.values) }
        ensures members { IsIntersection (elements self.now.values) (elements other.now.values) result.walk.left }
        ensures start { StartsOverTwo B.width self.now.values other.now.values result.walk }
        ensures runs { YieldsInOrder (AdvancesWithBound B.width) (λ it. it.walk.left) }
        ensures bound { result.bound ≡ min (length self.now.values) (length other.now.values) }
    {
        Intersection {
            walk: TwoSets::over(self, other),
            bound: self.get_ref().len().min(other.get_ref().len()),
        }
    }
}
