// Available expressions: those that are not missing, where what is missing flows from the entries and the kills.
ghost use Rattle.std.specs.Prelude.{◌≡◌, ℕ, ◌<◌, ◌↔◌, IfOk, IsOk, IsTrue, OnOk, length, map};
ghost use Rattle.bit_set.specs.Sets.{elements, has};
ghost use Rattle.dataflow.specs.Availability.{AreAvailable, AreComplements, IsComplement, IsMissing, flow_of, missing_flow, starts_with_none};
ghost use Rattle.dataflow.specs.Flow.{lists_of, set_at};

use crate::waiting::all_below;
use crate::{Block, solve};
use bit_set::laws::members_of_merged_sets;
use bit_set::{BitBlock, BitSet, SetError};
use std::alloc::{AllocError, Global};

/// A block of code, and the expressions that it computes and kills. Expressions are numbers.
#[derive(Drop)]
pub struct ExpressionBlock<B: BitBlock> {
    /// The blocks that may run just before. If there are none, or one of them is not a block, no expression is
    /// available where the block begins.
    pub predecessors: Vec<usize>,
    /// The expressions that the block computes, and to no operand of which it assigns afterwards.
    pub computed: BitSet<B>,
    /// The expressions to an operand of which the block assigns. Those that it computes afterwards may be among
    /// them.
    pub killed: BitSet<B>,
}

// A block in the problem of which expressions are missing.
#[derive(Drop)]
struct MissingBlock<'a, B: BitBlock> {
    block: &'a ExpressionBlock<B>,
    missing: BitSet<B>,
}

impl<'a, B: BitBlock> Block<B> for MissingBlock<'a, B> {
    ghost use Rattle.std.specs.Prelude.{length};
    ghost use Rattle.dataflow.specs.Availability.{flow_of};

    ghost flow = { flow_of };

    ghost generated_length = { λ it. length it.missing.values };

    #[inline]
    fn sources(&self) -> &[usize] {
        self.block.predecessors.as_slice()
    }

    #[inline]
    fn generated(&self) -> &BitSet<B> {
        &self.missing
    }

    #[inline]
    fn killed(&self) -> &BitSet<B> {
        &self.block.computed
    }
}

/// For each block the set of the expressions below `count` that are available at its end: on each path from an
/// entry some block computes the expression, and none kills it after that. They are the greatest sets with `out[b]
/// = computed[b] ∪ (⋂ out[p] over the predecessors p of b − killed[b])`. An entry is a block with no predecessor,
/// or a number that is not a block. Where no path leads from an entry, every expression that is not killed is
/// available. Fails only if memory runs out, and never if there are no blocks and no expressions.
///
/// ```
/// // Block 0, which comes before block 1, computes 3.
/// let out = available_expressions(alloc, blocks, 10)?;
/// for set in &out {
///     assert!(set.contains(3));
/// }
/// ```
pub fn available_expressions<B: BitBlock>(
    alloc: Global,
    blocks: &[ExpressionBlock<B>],
    count: usize,
) -> Result<Vec<BitSet<B>>, AllocError>
    ensures long { IfOk result (λ out. length out.items ≡ length blocks.now) }
    ensures solution { IfOk result (λ out. AreAvailable blocks.now count (lists_of out.items)) }
    ensures available { IfOk result (λ out. (b e : ℕ) → e < count
        → IsTrue (has (set_at (lists_of out.items) b) e) ↔ (IsMissing blocks.now e b → ⊥)) }
    ensures none { length blocks.now ≡ 0 → count ≡ 0 → IsOk result }
{
    members_of_merged_sets();
    let all = all_below(alloc, count)?;
    let missing = missing_blocks(alloc, blocks, &all)?;
    let mut sets = solve(alloc, missing.as_slice())?;
    complement_each(count, sets.as_mut_slice())?;
    Ok(sets)
}

// For each block what it makes missing.
fn missing_blocks<'a, B: BitBlock>(
    alloc: Global,
    blocks: &'a [ExpressionBlock<B>],
    all: &BitSet<B>,
) -> Result<Vec<MissingBlock<'a, B>>, AllocError>
    ensures missing { IfOk result (λ missing. map flow_of missing.items
        ≡ map (missing_flow (length blocks.now) (elements all.now.values)) blocks.now) }
    ensures none { length blocks.now ≡ 0 → IsOk result }
{
    let mut missing_blocks = Vec::with_capacity(alloc, blocks.len())?;
    for block in blocks {
        let none = starts_empty(block.predecessors.as_slice(), blocks.len());
        let mut missing = if none {
            all.clone(alloc)?
        } else {
            block.killed.clone(alloc)?
        };
        missing.difference_with(&block.computed)?;
        missing_blocks.push(MissingBlock { block, missing })?;
    }
    Ok(missing_blocks)
}

// Whether no expression is available where a block begins.
fn starts_empty(predecessors: &[usize], blocks: usize) -> bool
    ensures { result ≡ starts_with_none predecessors.now blocks }
{
    predecessors.is_empty() || predecessors.iter().any(|p| *p >= blocks)
}

// Each set becomes the numbers below `count` that it lacks.
fn complement_each<B: BitBlock>(count: usize, sets: &mut [BitSet<B>]) -> Result<(), AllocError>
    ensures complements { OnOk result (AreComplements count (lists_of sets.old) (lists_of sets.new)) }
    ensures none { length sets.old ≡ 0 → IsOk result }
{
    for index in 0..sets.len() {
        complement(count, &mut sets[index])?;
    }
    Ok(())
}

// The set becomes the numbers below `count` that it lacks, in place and in one pass.
fn complement<B: BitBlock>(count: usize, set: &mut BitSet<B>) -> Result<(), AllocError>
    ensures { OnOk result (IsComplement count (elements set.old.values) (elements set.new.values)) }
{
    set.truncate(count);
    match set.toggle_range(0..count) {
        Err(SetError::Memory(fault)) => Err(fault),
        // No other error comes.
        _ => Ok(()),
    }
}
