// Live variables, as the least solution of the blocks' equations.
use bit_set::{BitBlock, BitSet, SetError};
use dataflow::{FlowBlock, solve};
use std::alloc::Global;

// The set of the variables, with capacity for all that there are.
fn set_of<B: BitBlock>(
    alloc: Global,
    variables: usize,
    members: &[usize],
) -> Result<BitSet<B>, SetError> {
    let mut set = BitSet::with_capacity_general(alloc, variables)?;
    set.extend(members.iter().copied())?;
    Ok(set)
}

// A block for each 18 numbers: two successors, then the eight variables that the block generates, then the eight that
// it kills.
fn blocks_of<B: BitBlock>(
    alloc: Global,
    variables: usize,
    numbers: &[usize],
) -> Result<Vec<FlowBlock<B>>, SetError> {
    let mut blocks = Vec::new(alloc);
    for row in numbers.chunks(18) {
        let (successors, sets) = row.split_at(row.len().min(2));
        let (generated, killed) = sets.split_at(sets.len() / 2);
        blocks.push(FlowBlock {
            sources: Vec::from_slice(alloc, successors)?,
            generated: set_of(alloc, variables, generated)?,
            killed: set_of(alloc, variables, killed)?,
        })?;
    }
    Ok(blocks)
}

// Adds up how many variables are live at the starts of the blocks.
pub(crate) fn count_live<B: BitBlock>(
    alloc: Global,
    variables: usize,
    numbers: &[usize],
    turns: usize,
) -> Result<usize, SetError> {
    let blocks = blocks_of::<B>(alloc, variables, numbers)?;
    let mut sum = 0usize;
    for _turn in 0..turns {
        let live = solve(alloc, blocks.as_slice())?;
        for set in &live {
            sum = sum.wrapping_add(set.count());
        }
    }
    Ok(sum)
}
