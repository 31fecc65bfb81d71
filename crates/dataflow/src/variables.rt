// Live variables: values that flow back from each use to the assignments before it.
ghost use Rattle.std.specs.Prelude.{◌≡◌, ℕ, ◌↔◌, IfOk, IsOk, IsTrue, length};
ghost use Rattle.bit_set.specs.Sets.{has};
ghost use Rattle.dataflow.specs.{Analyses.{AreLive, IsLive}, Flow.{lists_of, set_at}};

use crate::{Block, solve};
use bit_set::{BitBlock, BitSet};
use std::alloc::{AllocError, Global};

/// A block of code, and the variables that it uses and assigns. Variables are numbers.
#[derive(Drop)]
pub struct VariableBlock<B: BitBlock> {
    /// The blocks that may run next. Nothing is live at a number that is not a block.
    pub successors: Vec<usize>,
    /// The variables that the block uses before it assigns them.
    pub used: BitSet<B>,
    /// The variables that the block assigns.
    pub assigned: BitSet<B>,
}

impl<B: BitBlock> Block<B> for VariableBlock<B> {
    ghost use Rattle.std.specs.Prelude.{length};
    ghost use Rattle.bit_set.specs.Sets.{elements};

    ghost flow = { λ block. record {
      sources = block.successors.items;
      generated = elements block.used.values;
      killed = elements block.assigned.values;
    } };

    ghost generated_length = { λ block. length block.used.values };

    #[inline]
    fn sources(&self) -> &[usize] {
        self.successors.as_slice()
    }

    #[inline]
    fn generated(&self) -> &BitSet<B> {
        &self.used
    }

    #[inline]
    fn killed(&self) -> &BitSet<B> {
        &self.assigned
    }
}

/// For each block the set of the variables that are live where it begins: those with a path from there to a use of
/// the variable, with no assignment to it on the way. They are the least sets with `live_in[b] = used[b] ∪ (⋃
/// live_in[s] over the successors s of b − assigned[b])`. Fails only if memory runs out, and never if there are no
/// blocks.
///
/// ```
/// // Block 1, which comes after block 0, uses 3.
/// let live_in = live_variables(alloc, blocks)?;
/// for set in &live_in {
///     assert!(set.contains(3));
/// }
/// ```
pub fn live_variables<B: BitBlock>(
    alloc: Global,
    blocks: &[VariableBlock<B>],
) -> Result<Vec<BitSet<B>>, AllocError>
    ensures long { IfOk result (λ live_in. length live_in.items ≡ length blocks.now) }
    ensures solution { IfOk result (λ live_in. AreLive blocks.now (lists_of live_in.items)) }
    ensures live { IfOk result (λ live_in. (b v : ℕ) → IsTrue (has (set_at (lists_of live_in.items) b) v)
        ↔ IsLive blocks.now v b) }
    ensures none { length blocks.now ≡ 0 → IsOk result }
{
    solve(alloc, blocks)
}
