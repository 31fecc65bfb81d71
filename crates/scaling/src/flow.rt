// Data-flow problems of n blocks, each of which has one source: the values of the first, or of the last, flow through all.
use crate::faults::Fault;
use crate::work::{Sets, Work};
use bit_set::BitSet;
use dataflow::{FlowBlock, solve};
use std::alloc::Global;

#[derive(Clone, Copy)]
pub enum Flow {
    /// From each block to the next one.
    Onward,
    /// From each block to the one before.
    Back,
}

// How many values a block may generate: each generates one of them.
const VALUES: usize = 512;

// One more or one less, or a number that is no block.
fn source_of(flow: Flow, block: usize) -> usize {
    match flow {
        Flow::Onward => block.wrapping_sub(1),
        Flow::Back => block.wrapping_add(1),
    }
}

// A block with one source, which generates a value and kills another.
fn block_of(alloc: Global, flow: Flow, place: usize) -> Result<FlowBlock<u64>, Fault> {
    let mut sources = Vec::new(alloc);
    sources.push(source_of(flow, place))?;
    let mut generated = BitSet::with_capacity_general(alloc, VALUES)?;
    generated.insert(place % VALUES)?;
    let mut killed = BitSet::with_capacity_general(alloc, VALUES)?;
    killed.insert(VALUES - 1)?;
    Ok(FlowBlock {
        sources,
        generated,
        killed,
    })
}

fn solved(alloc: Global, flow: Flow, n: usize) -> Result<usize, Fault> {
    let mut blocks = Vec::new(alloc);
    for place in 0..n {
        blocks.push(block_of(alloc, flow, place)?)?;
    }
    let mut sum = 0usize;
    for set in &solve(alloc, blocks.as_slice())? {
        sum = sum.wrapping_add(set.count());
    }
    Ok(sum)
}

impl Work for Flow {
    fn from_name(name: &str) -> Option<Self> {
        Some(match name {
            "solve" => Flow::Onward,
            "solve_back" => Flow::Back,
            _ => return None,
        })
    }

    fn turn(self, alloc: Global, _sets: &mut Sets, n: usize) -> Result<usize, Fault> {
        solved(alloc, self, n)
    }
}
