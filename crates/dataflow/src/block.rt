// What the solver must know about a block of code.
ghost use Rattle.std.specs.Prelude.{◌≡◌, ℕ, length};
ghost use Rattle.bit_set.specs.Sets.{elements};
ghost use Rattle.dataflow.specs.Flow.{Flow};

use bit_set::{BitBlock, BitSet};

/// A block of code, as an analysis sees it. Blocks and values are numbers.
pub trait Block<B: BitBlock> {
    ghost flow: { Self → Flow };

    // How long the set is that is generated.
    ghost generated_length: { Self → ℕ };

    /// The blocks from which values flow into this one: its successors in a backward analysis, its predecessors in
    /// a forward one. Nothing flows from a number that is not a block. Constant time.
    fn sources(&self) -> &[usize]
        ensures { result.now ≡ (flow self.now).sources };

    /// The values that the block generates. Constant time.
    fn generated(&self) -> &BitSet<B>
        ensures elements { elements result.now.values ≡ (flow self.now).generated }
        ensures length { length result.now.values ≡ generated_length self.now };

    /// The values that do not pass through the block. It does not kill what it generates itself. Constant time.
    fn killed(&self) -> &BitSet<B>
        ensures { elements result.now.values ≡ (flow self.now).killed };
}

/// A block as the three parts of its equation.
#[derive(Drop)]
pub struct FlowBlock<B: BitBlock> {
    /// The blocks from which values flow into this one.
    pub sources: Vec<usize>,
    /// The values that the block generates.
    pub generated: BitSet<B>,
    /// The values that do not pass through the block.
    pub killed: BitSet<B>,
}

impl<B: BitBlock> Block<B> for FlowBlock<B> {
    ghost use Rattle.std.specs.Prelude.{length};
    ghost use Rattle.bit_set.specs.Sets.{elements};

    ghost flow = { λ block. record {
      sources = block.sources.items;
      generated = elements block.generated.values;
      killed = elements block.killed.values;
    } };

    ghost generated_length = { λ block. length block.generated.values };

    #[inline]
    fn sources(&self) -> &[usize] {
        self.sources.as_slice()
    }

    #[inline]
    fn generated(&self) -> &BitSet<B> {
        &self.generated
    }

    #[inline]
    fn killed(&self) -> &BitSet<B> {
        &self.killed
    }
}
