//! The four merges, each as a type.
ghost use Rattle.std.specs.{Prelude.{◌≡◌, ℕ, ◌<◌, ◌==◌, ◌↔◌, true}, Int.bit_at};
ghost use Rattle.bit_blocks.specs.{Merges.merge_of_values, declared.block.merge.Merge.Merge};

use crate::block::BitBlock;
use crate::block::operators::{block_and, block_not, block_or, block_xor};

/// A `Merge` as a type. Generic code is then compiled once for each, with no branch on the operation.
pub trait Operation: Copy {
    ghost merge: { Merge };

    /// The merge of two blocks, bit by bit, as by `Merge::of_blocks`. Constant time.
    fn of_blocks<B: BitBlock>(a: B, b: B) -> B
        requires left { B.is_block a }
        requires right { B.is_block b }
        ensures of_block { B.is_block result }
        ensures digits { (i : ℕ) → i < B.width
            → (bit_at (B.number result) i == 1)
            ≡ merge_of_values merge (bit_at (B.number a) i == 1) (bit_at (B.number b) i == 1) };

    /// Whether it is the union. Constant time.
    fn is_union() -> bool
        ensures { (result ≡ true) ↔ (merge ≡ Merge.Union) };
}

/// `Merge::Union`.
#[derive(Clone, Copy)]
pub struct Union;

/// `Merge::Intersection`.
#[derive(Clone, Copy)]
pub struct Intersection;

/// `Merge::Difference`.
#[derive(Clone, Copy)]
pub struct Difference;

/// `Merge::Symmetric`.
#[derive(Clone, Copy)]
pub struct Symmetric;

impl Operation for Union {
    ghost merge = { Merge.Union };

    #[inline]
    fn of_blocks<B: BitBlock>(a: B, b: B) -> B {
        block_or(a, b)
    }

    #[inline(always)]
    fn is_union() -> bool {
        true
    }
}

impl Operation for Intersection {
    ghost merge = { Merge.Intersection };

    #[inline]
    fn of_blocks<B: BitBlock>(a: B, b: B) -> B {
        block_and(a, b)
    }

    #[inline(always)]
    fn is_union() -> bool {
        false
    }
}

impl Operation for Difference {
    ghost merge = { Merge.Difference };

    #[inline]
    fn of_blocks<B: BitBlock>(a: B, b: B) -> B {
        block_and(a, block_not(b))
    }

    #[inline(always)]
    fn is_union() -> bool {
        false
    }
}

impl Operation for Symmetric {
    ghost merge = { Merge.Symmetric };

    #[inline]
    fn of_blocks<B: BitBlock>(a: B, b: B) -> B {
        block_xor(a, b)
    }

    #[inline(always)]
    fn is_union() -> bool {
        false
    }
}
