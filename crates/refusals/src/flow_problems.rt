// Calls of the solver of data-flow problems, and of the analyses above it.
use crate::asks::Ask;
use crate::faults::Fault;
use crate::states::{has_just, push, works};
use crate::sweep::{Row, Trial, table};
use bit_set::{BitBlock, BitSet, SetError};
use dataflow::{
    DefinitionBlock, ExpressionBlock, FlowBlock, VariableBlock, available_expressions,
    live_variables, reaching_definitions, solve,
};
use std::alloc::{AllocError, Global};

// How many blocks of code a problem has.
const BLOCKS: usize = 12;

// A block of code, for whichever problem: the blocks from which it has its values, those that it gains, those that it
// loses, and those of its set.
struct Block(
    &'static [usize],
    &'static [usize],
    &'static [usize],
    &'static [usize],
);

const ALL: &[usize] = &[1, 11, 21, 31, 41, 51, 61, 71, 81, 91, 101, 111, 5000];

const ALL_BUT_31: &[usize] = &[1, 11, 21, 41, 51, 61, 71, 81, 91, 101, 111, 5000];

// From each block on to the one that is five before it, and past the first on to the last ones. The value 31 of block 3
// comes to the blocks 10 and 5, and is lost in block 0.
const RING: &[Block] = &[
    Block(&[5, 5000], &[1, 5000], &[31], ALL_BUT_31),
    Block(&[6, 5000], &[11, 5000], &[], ALL_BUT_31),
    Block(&[7, 5000], &[21, 5000], &[], ALL_BUT_31),
    Block(&[8, 5000], &[31, 5000], &[], ALL),
    Block(&[9, 5000], &[41, 5000], &[], ALL_BUT_31),
    Block(&[10, 5000], &[51, 5000], &[], ALL),
    Block(&[11, 5000], &[61, 5000], &[], ALL_BUT_31),
    Block(&[0, 5000], &[71, 5000], &[], ALL_BUT_31),
    Block(&[1, 5000], &[81, 5000], &[], ALL_BUT_31),
    Block(&[2, 5000], &[91, 5000], &[], ALL_BUT_31),
    Block(&[3, 5000], &[101, 5000], &[], ALL),
    Block(&[4, 5000], &[111, 5000], &[], ALL_BUT_31),
];

// From the first block to the last, and from that to the second again. Block 4 loses 11 and 5000, so that 5000
// comes to block 1 from block 0 alone, and not from the last.
const CHAIN: &[Block] = &[
    Block(&[], &[1, 5000], &[], &[1, 5000]),
    Block(&[0, 11], &[11], &[], &[1, 11]),
    Block(&[1], &[21], &[], &[1, 11, 21]),
    Block(&[2], &[31], &[], &[1, 11, 21, 31]),
    Block(&[3], &[41], &[11, 5000], &[1, 21, 31, 41]),
    Block(&[4], &[51], &[], &[1, 21, 31, 41, 51]),
    Block(&[5], &[61], &[], &[1, 21, 31, 41, 51, 61]),
    Block(&[6], &[71], &[], &[1, 21, 31, 41, 51, 61, 71]),
    Block(&[7], &[81], &[], &[1, 21, 31, 41, 51, 61, 71, 81]),
    Block(&[8], &[91], &[], &[1, 21, 31, 41, 51, 61, 71, 81, 91]),
    Block(&[9], &[101], &[], &[1, 21, 31, 41, 51, 61, 71, 81, 91, 101]),
    Block(
        &[10],
        &[111],
        &[],
        &[1, 21, 31, 41, 51, 61, 71, 81, 91, 101, 111],
    ),
];

// The memory that a call over the ring may ask for: twelve sets, the blocks that wait, and a vector with the row of
// each block, of those that follow it: these are few, and lie in the row. A visit of a block asks for nothing.
const RING_ASKS: &[Ask] = &[
    Ask::Lists(12, 5001),
    Ask::Other(1, 8),
    Ask::Other(2, BLOCKS * (48 + 64)),
];

// Of expressions the set of all and those that are missing at each block come to it.
const CHAIN_ASKS: &[Ask] = &[
    Ask::Lists(13, 5001),
    Ask::Other(1, BLOCKS * (64 + 8)),
    Ask::Lists(12, 5001),
    Ask::Other(1, 8),
    Ask::Other(2, BLOCKS * (48 + 64)),
];

pub enum Call {
    Solve,
    LiveVariables,
    ReachingDefinitions,
    AvailableExpressions,
}

pub const ROWS: &[Row<Call>] = table! {
    "solve", RING_ASKS, Call::Solve;
    "live_variables", RING_ASKS, Call::LiveVariables;
    "reaching_definitions", RING_ASKS, Call::ReachingDefinitions;
    "available_expressions", CHAIN_ASKS, Call::AvailableExpressions;
};

impl Call {
    // The blocks of its problem.
    fn blocks(&self) -> &'static [Block] {
        match self {
            Call::AvailableExpressions => CHAIN,
            _ => RING,
        }
    }
}

// A set of these values, of length 5001.
fn long_set<B: BitBlock>(alloc: Global, values: &[usize]) -> Result<BitSet<B>, SetError> {
    let mut set = BitSet::with_capacity_general(alloc, 5001)?;
    set.extend(values.iter().copied())?;
    Ok(set)
}

fn flow_block<B: BitBlock>(alloc: Global, block: &Block) -> Result<FlowBlock<B>, SetError> {
    let Block(sources, gained, lost, _) = block;
    let sources = sources.to_vec(alloc)?;
    let generated = long_set(alloc, gained)?;
    let killed = long_set(alloc, lost)?;
    Ok(FlowBlock {
        sources,
        generated,
        killed,
    })
}

/// The blocks of a call.
#[derive(Drop)]
pub enum Problem<B: BitBlock> {
    Solve(Vec<FlowBlock<B>>),
    LiveVariables(Vec<VariableBlock<B>>),
    ReachingDefinitions(Vec<DefinitionBlock<B>>),
    AvailableExpressions(Vec<ExpressionBlock<B>>),
}

macro_rules! push_block {
    ($blocks:ident, $block:ident { $($field:ident: $part:ident),* }) => {
        push($blocks, $block { $($field: $part),* })
    };
}

impl<B: BitBlock> Problem<B> {
    // That of a call, with no blocks.
    fn new(alloc: Global, call: &Call) -> Self {
        match call {
            Call::Solve => Problem::Solve(Vec::new(alloc)),
            Call::LiveVariables => Problem::LiveVariables(Vec::new(alloc)),
            Call::ReachingDefinitions => Problem::ReachingDefinitions(Vec::new(alloc)),
            Call::AvailableExpressions => Problem::AvailableExpressions(Vec::new(alloc)),
        }
    }

    // Appends a block, in the problem's own words.
    fn append(&mut self, block: FlowBlock<B>) -> Result<(), AllocError> {
        let FlowBlock {
            sources,
            generated,
            killed,
        } = block;
        match self {
            Problem::Solve(blocks) => push_block! {
                blocks, FlowBlock { sources: sources, generated: generated, killed: killed }
            },
            Problem::LiveVariables(blocks) => push_block! {
                blocks, VariableBlock { successors: sources, used: generated, assigned: killed }
            },
            Problem::ReachingDefinitions(blocks) => push_block! {
                blocks, DefinitionBlock { predecessors: sources, defined: generated, overwritten: killed }
            },
            Problem::AvailableExpressions(blocks) => push_block! {
                blocks, ExpressionBlock { predecessors: sources, computed: generated, killed: killed }
            },
        }
    }

    fn solved(&self, alloc: Global) -> Result<Vec<BitSet<B>>, AllocError> {
        match self {
            Problem::Solve(blocks) => solve(alloc, blocks.as_slice()),
            Problem::LiveVariables(blocks) => live_variables(alloc, blocks.as_slice()),
            Problem::ReachingDefinitions(blocks) => reaching_definitions(alloc, blocks.as_slice()),
            Problem::AvailableExpressions(blocks) => {
                available_expressions(alloc, blocks.as_slice(), 5001)
            }
        }
    }
}

// Whether the sets of the blocks are right, and work.
fn are_solved<B: BitBlock>(blocks: &[Block], sets: &mut [BitSet<B>]) -> bool {
    let mut is_right = sets.len() == blocks.len();
    for (set, Block(_, _, _, solved)) in sets.iter_mut().zip(blocks) {
        is_right &= has_just(set, solved, usize::MAX) & works(set);
    }
    is_right
}

impl<B: BitBlock> Trial<Call> for Problem<B> {
    fn prepare(alloc: Global, call: &Call) -> Result<Self, Fault> {
        let mut problem = Problem::new(alloc, call);
        for block in call.blocks() {
            problem.append(flow_block(alloc, block)?)?;
        }
        Ok(problem)
    }

    fn make(&mut self, alloc: Global, call: &Call) -> Result<bool, Fault> {
        let mut sets = self.solved(alloc)?;
        Ok(are_solved(call.blocks(), sets.as_mut_slice()))
    }

    // The blocks are as before after the call: a further one solves them.
    fn is_right(&mut self, alloc: Global, call: &Call, _returned: bool) -> Result<bool, Fault> {
        self.make(alloc, call)
    }
}
