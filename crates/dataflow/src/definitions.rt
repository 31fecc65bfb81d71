// Reaching definitions: values that flow on from each definition until one overwrites it.
ghost use Rattle.std.specs.Prelude.{◌≡◌, ℕ, ◌↔◌, IfOk, IsOk, IsTrue, length};
ghost use Rattle.bit_set.specs.Sets.{has};
ghost use Rattle.dataflow.specs.{Analyses.{AreReachingDefinitions, ReachesEnd}, Flow.{lists_of, set_at}};

use crate::{Block, solve};
use bit_set::{BitBlock, BitSet};
use std::alloc::{AllocError, Global};

/// A block of code, and the definitions that it makes and overwrites. Definitions are numbers.
#[derive(Drop)]
pub struct DefinitionBlock<B: BitBlock> {
    /// The blocks that may run just before. No definition comes from a number that is not a block.
    pub predecessors: Vec<usize>,
    /// The definitions in the block that reach its end.
    pub defined: BitSet<B>,
    /// The definitions that the block overwrites: those of the variables that it assigns. Whether its own are among
    /// them makes no difference.
    pub overwritten: BitSet<B>,
}

impl<B: BitBlock> Block<B> for DefinitionBlock<B> {
    ghost use Rattle.std.specs.Prelude.{length};
    ghost use Rattle.bit_set.specs.Sets.{elements};

    ghost flow = { λ block. record {
      sources = block.predecessors.items;
      generated = elements block.defined.values;
      killed = elements block.overwritten.values;
    } };

    ghost generated_length = { λ block. length block.defined.values };

    #[inline]
    fn sources(&self) -> &[usize] {
        self.predecessors.as_slice()
    }

    #[inline]
    fn generated(&self) -> &BitSet<B> {
        &self.defined
    }

    #[inline]
    fn killed(&self) -> &BitSet<B> {
        &self.overwritten
    }
}

/// For each block the set of the definitions that reach its end: those from which a path leads there with no block
/// on the way that overwrites them. They are the least sets with `out[b] = defined[b] ∪ (⋃ out[p] over the
/// predecessors p of b − overwritten[b])`. Fails only if memory runs out, and never if there are no blocks.
///
/// ```
/// // Block 0, which comes before block 1, makes 3.
/// let out = reaching_definitions(alloc, blocks)?;
/// for set in &out {
///     assert!(set.contains(3));
/// }
/// ```
pub fn reaching_definitions<B: BitBlock>(
    alloc: Global,
    blocks: &[DefinitionBlock<B>],
) -> Result<Vec<BitSet<B>>, AllocError>
    ensures long { IfOk result (λ out. length out.items ≡ length blocks.now) }
    ensures solution { IfOk result (λ out. AreReachingDefinitions blocks.now (lists_of out.items)) }
    ensures reaches { IfOk result (λ out. (b d : ℕ) → IsTrue (has (set_at (lists_of out.items) b) d)
        ↔ ReachesEnd blocks.now d b) }
    ensures none { length blocks.now ≡ 0 → IsOk result }
{
    solve(alloc, blocks)
}
