//! The solver and the analyses, over programs of textbooks, problems at the edge and chains of many blocks, and the
//! examples of the doc comments.
use crate::expect::{Test, expect, expect_eq, ok, table};
use bit_set::{BitBlock, BitSet};
use dataflow::{
    DefinitionBlock, ExpressionBlock, FlowBlock, VariableBlock, available_expressions,
    live_variables, reaching_definitions, solve,
};
use std::alloc::AllocError;

// A block as masks: its neighbours, the values that it generates, and those that it kills.
type Row = (u32, u32, u32);

// The blocks of a problem.
#[derive(Clone, Copy)]
enum Problem {
    // A block for each row.
    Rows(&'static [Row]),
    // So many blocks, each with the next one as its neighbour. The last generates 200 values, and the one in the middle
    // kills half of them.
    Chain(usize),
}

// What is asked of the blocks.
#[derive(Clone, Copy)]
enum Analysis {
    Flow,
    Live,
    Reaching,
    // Of so many expressions.
    Available(usize),
}

fn count_of(problem: Problem) -> usize {
    match problem {
        Problem::Rows(rows) => rows.len(),
        Problem::Chain(count) => count,
    }
}

// What each kind of blocks has, by names of its own.
#[derive(Drop)]
struct Parts<B: BitBlock> {
    neighbours: Vec<usize>,
    generated: BitSet<B>,
    killed: BitSet<B>,
}

// The numbers of the bits.
fn numbers(rt: &impl Test, mask: u32) -> Vec<usize> {
    let mut numbers = Vec::new(rt.alloc());
    for number in 0..32 {
        if mask >> number & 1 == 1 {
            ok(rt, numbers.push(number));
        }
    }
    numbers
}

fn set_of<B: BitBlock>(rt: &impl Test, mask: u32) -> BitSet<B> {
    let numbers = numbers(rt, mask);
    ok(rt, BitSet::from_iter(rt.alloc(), numbers.iter().copied()))
}

fn parts_of_row<B: BitBlock>(rt: &impl Test, row: Row) -> Parts<B> {
    Parts {
        neighbours: numbers(rt, row.0),
        generated: set_of(rt, row.1),
        killed: set_of(rt, row.2),
    }
}

// The numbers below the end.
fn below<B: BitBlock>(rt: &impl Test, end: usize) -> BitSet<B> {
    ok(rt, BitSet::from_iter(rt.alloc(), 0..end))
}

// The block of this number, of a chain of so many.
fn parts_of_link<B: BitBlock>(rt: &impl Test, number: usize, count: usize) -> Parts<B> {
    let next = number.saturating_add(1);
    Parts {
        neighbours: ok(rt, vec![in rt.alloc(); next; 1]),
        generated: below(rt, if next == count { 200 } else { 0 }),
        killed: below(rt, if number == count / 2 { 100 } else { 0 }),
    }
}

fn parts_of<B: BitBlock>(rt: &impl Test, problem: Problem, number: usize) -> Parts<B> {
    match problem {
        Problem::Rows(rows) => parts_of_row(rt, rows.get(number).copied().unwrap_or((0, 0, 0))),
        Problem::Chain(count) => parts_of_link(rt, number, count),
    }
}

// The blocks of a problem, of a kind with these fields.
macro_rules! blocks_of {
    ($rt:expr, $problem:expr => $block:ident: $neighbours:ident, $generated:ident, $killed:ident) => {{
        let mut blocks = Vec::new($rt.alloc());
        for number in 0..count_of($problem) {
            let Parts { neighbours, generated, killed } = parts_of($rt, $problem, number);
            let block = $block { $neighbours: neighbours, $generated: generated, $killed: killed };
            expect($rt, blocks.push(block).is_ok());
        }
        blocks
    }};
}

fn flow_blocks<B: BitBlock>(rt: &impl Test, problem: Problem) -> Vec<FlowBlock<B>> {
    blocks_of!(rt, problem => FlowBlock: sources, generated, killed)
}

fn variable_blocks<B: BitBlock>(rt: &impl Test, problem: Problem) -> Vec<VariableBlock<B>> {
    blocks_of!(rt, problem => VariableBlock: successors, used, assigned)
}

fn definition_blocks<B: BitBlock>(rt: &impl Test, problem: Problem) -> Vec<DefinitionBlock<B>> {
    blocks_of!(rt, problem => DefinitionBlock: predecessors, defined, overwritten)
}

fn expression_blocks<B: BitBlock>(rt: &impl Test, problem: Problem) -> Vec<ExpressionBlock<B>> {
    blocks_of!(rt, problem => ExpressionBlock: predecessors, computed, killed)
}

// The set of each block.
fn sets_of<B: BitBlock>(rt: &impl Test, analysis: Analysis, problem: Problem) -> Vec<BitSet<B>> {
    let alloc = rt.alloc();
    let sets = match analysis {
        Analysis::Flow => solve(alloc, &flow_blocks::<B>(rt, problem)),
        Analysis::Live => live_variables(alloc, &variable_blocks::<B>(rt, problem)),
        Analysis::Reaching => reaching_definitions(alloc, &definition_blocks::<B>(rt, problem)),
        Analysis::Available(count) => {
            available_expressions(alloc, &expression_blocks::<B>(rt, problem), count)
        }
    };
    ok(rt, sets)
}

fn mask_of<B: BitBlock>(set: &BitSet<B>) -> u32 {
    let mut mask = 0;
    for number in 0..32 {
        if set.contains(number) {
            mask |= 1 << number;
        }
    }
    mask
}

// The sets of the blocks of these rows are those of the masks.
fn has_sets(rt: &impl Test, analysis: Analysis, rows: &'static [Row], masks: &[u32]) {
    let sets = sets_of::<u32>(rt, analysis, Problem::Rows(rows));
    expect_eq(rt, &sets.len(), &masks.len());
    for (number, set) in sets.iter().enumerate() {
        let mask = masks.get(number).copied();
        expect_eq(rt, &Some(mask_of(set)), &mask);
    }
}

// From block 0 into a loop of blocks 1 and 2 at both of them, and from block 1 out to block 3. Block 2 overwrites the
// definition of block 0, and block 3 that of block 1.
const IRREDUCIBLE: &[Row] = &[
    (0, 0b0001, 0b0100),
    (0b101, 0b0010, 0),
    (0b011, 0b0100, 0b0001),
    (0b010, 0b1000, 0b0010),
];

// A block whose neighbour is itself, and one that has a neighbour past the end too.
const OWN: &[Row] = &[(0b1, 0b001, 0b011)];

const PAST: &[Row] = &[(0b101, 0b001, 0b011)];

// Programs, with the results worked out by hand.
const PROGRAMS: &[(Analysis, &[Row], &[u32])] = table! {
    // a = 0; do { b = a + 1; c = c + b; a = b * 2; } while a < n; return c, with a block for each statement. The values
    // are a, b and c. Before the loop c alone is live, at its first statement and its test a and c, between them b and c.
    Analysis::Live,
        &[(0b10, 0b000, 0b001), (0b100, 0b001, 0b010), (0b1000, 0b110, 0b100),
            (0b1_0000, 0b010, 0b001), (0b10_0010, 0b001, 0), (0, 0b100, 0)],
        &[0b100, 0b101, 0b110, 0b110, 0b101, 0b100];
    // Seven definitions, of i, j, a in the first block, of i and j in the second, of a in the third and of i in the fourth.
    // The second is the head of a loop that the fourth ends, with the third on one of two ways between them.
    Analysis::Reaching,
        &[(0, 0b000_0111, 0b111_1000), (0b1001, 0b001_1000, 0b100_0011), (0b10, 0b010_0000, 0b000_0100),
            (0b110, 0b100_0000, 0b000_1001)],
        &[0b000_0111, 0b011_1100, 0b011_1000, 0b111_0100];
    // x = a + b; y = a * b; while y > a + b { a = a + 1; x = a + b; }. The expressions are a + b, a * b and a + 1.
    Analysis::Available(3),
        &[(0, 0b001, 0), (0b1, 0b010, 0), (0b1_0010, 0b001, 0), (0b100, 0, 0b111), (0b1000, 0b001, 0)],
        &[0b001, 0b011, 0b001, 0, 0b001];
    Analysis::Reaching, IRREDUCIBLE, &[0b0001, 0b0111, 0b0110, 0b1101];
    Analysis::Available(4), IRREDUCIBLE, &[0b0001, 0b0010, 0b0100, 0b1000];
    // Block 0 assigns x and goes on to block 2, which uses it. Block 1, which uses y, is never entered.
    Analysis::Live, &[(0b100, 0, 0b01), (0b100, 0b10, 0), (0, 0b01, 0)], &[0, 0b11, 0b01];
    // A loop that is never entered. All is available there that it does not kill.
    Analysis::Available(4), &[(0, 0b001, 0), (0b10, 0b010, 0b100)], &[0b0001, 0b1011];
    // No block, and no expression.
    Analysis::Flow, &[], &[];
    Analysis::Available(7), &[], &[];
    Analysis::Available(0), &[(0b1, 0b11, 0)], &[0];
    Analysis::Flow, OWN, &[0b001];
    Analysis::Available(3), OWN, &[0b101];
    Analysis::Flow, PAST, &[0b001];
    Analysis::Available(3), PAST, &[0b001];
};

#[test]
fn programs_have_their_sets(rt: HostRuntime) {
    for (analysis, rows, masks) in PROGRAMS {
        has_sets(&rt, *analysis, rows, masks);
    }
}

// How many values a set has, and which of two.
fn values_of<B: BitBlock>(set: &BitSet<B>) -> (usize, bool, bool) {
    (set.count(), set.contains(5), set.contains(199))
}

// Past the middle of a chain of this many blocks each has all values, and up to it each has those that are not
// killed.
fn flows_back<B: BitBlock>(rt: &impl Test, analysis: Analysis, count: usize) {
    let sets = sets_of::<B>(rt, analysis, Problem::Chain(count));
    expect_eq(rt, &sets.len(), &count);
    for (number, set) in sets.iter().enumerate() {
        let wanted = if number > count / 2 {
            (200, true, true)
        } else {
            (100, false, true)
        };
        assert_eq!(rt; values_of(set), wanted, "at {number}");
    }
}

#[test]
fn chains_of_many_blocks(rt: HostRuntime) {
    flows_back::<u32>(&rt, Analysis::Live, 10000);
    for analysis in [Analysis::Flow, Analysis::Reaching, Analysis::Available(200)] {
        flows_back::<u64>(&rt, analysis, 1000);
    }
}

fn flows(rt: &impl Test, blocks: &[FlowBlock<u32>]) -> Result<(), AllocError> {
    let alloc = rt.alloc();
    // The values of block 1 come from block 0, which generates 3.
    let sets = solve(alloc, blocks)?;
    for set in &sets {
        expect(rt, set.contains(3));
    }
    Ok(())
}

fn lives(rt: &impl Test, blocks: &[VariableBlock<u32>]) -> Result<(), AllocError> {
    let alloc = rt.alloc();
    // Block 1, which comes after block 0, uses 3.
    let live_in = live_variables(alloc, blocks)?;
    for set in &live_in {
        expect(rt, set.contains(3));
    }
    Ok(())
}

fn reaches(rt: &impl Test, blocks: &[DefinitionBlock<u32>]) -> Result<(), AllocError> {
    let alloc = rt.alloc();
    // Block 0, which comes before block 1, makes 3.
    let out = reaching_definitions(alloc, blocks)?;
    for set in &out {
        expect(rt, set.contains(3));
    }
    Ok(())
}

fn are_there(rt: &impl Test, blocks: &[ExpressionBlock<u32>]) -> Result<(), AllocError> {
    let alloc = rt.alloc();
    // Block 0, which comes before block 1, computes 3.
    let out = available_expressions(alloc, blocks, 10)?;
    for set in &out {
        expect(rt, set.contains(3));
    }
    Ok(())
}

// Two blocks, of which the other has its values from the first, or the first from the other.
const BEFORE: Problem = Problem::Rows(&[(0, 0b1000, 0), (0b1, 0, 0)]);

const AFTER: Problem = Problem::Rows(&[(0b10, 0, 0), (0, 0b1000, 0)]);

#[test]
fn examples_of_analyses(rt: HostRuntime) {
    ok(&rt, flows(&rt, &flow_blocks(&rt, BEFORE)));
    ok(&rt, lives(&rt, &variable_blocks(&rt, AFTER)));
    ok(&rt, reaches(&rt, &definition_blocks(&rt, BEFORE)));
    ok(&rt, are_there(&rt, &expression_blocks(&rt, BEFORE)));
}
