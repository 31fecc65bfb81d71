// Deterministic automata of others.
use crate::graphs::sets;
use automata::{Dfa, DfaError, Nfa, accepts, determinize, equivalent};
use bit_set::{BitBlock, BitSet, SetError};
use std::alloc::Global;

// An automaton of two symbols that starts in state 0 and accepts in one state. From each state each symbol leads to as
// many; the first half of the ends are those of the first symbol.
fn nfa_of<B: BitBlock>(
    alloc: Global,
    states: usize,
    each: usize,
    ends: &[usize],
    accepts_in: usize,
) -> Result<Nfa<B>, SetError> {
    let (first, second) = ends.split_at(ends.len() / 2);
    let mut moves = Vec::new(alloc);
    moves.push(sets::<B>(alloc, states, each, first)?)?;
    moves.push(sets::<B>(alloc, states, each, second)?)?;
    let mut starts = BitSet::with_capacity_general(alloc, states)?;
    starts.insert(0)?;
    let mut accepting = BitSet::with_capacity_general(alloc, states)?;
    accepting.insert(accepts_in)?;
    Ok(Nfa::new(moves, starts, accepting))
}

fn dfa_of<B: BitBlock>(alloc: Global, nfa: &Nfa<B>) -> Result<Dfa<B>, SetError> {
    match determinize(alloc, nfa, usize::MAX) {
        Ok(dfa) => Ok(dfa),
        Err(DfaError::TooMany) => Err(SetError::Length),
        Err(DfaError::Memory(fault)) => Err(SetError::from(fault)),
    }
}

// Adds up how many states the deterministic automata have.
pub(crate) fn count_states<B: BitBlock>(
    alloc: Global,
    states: usize,
    each: usize,
    ends: &[usize],
    turns: usize,
) -> Result<usize, SetError> {
    let nfa = nfa_of::<B>(alloc, states, each, ends, states.saturating_sub(1))?;
    let mut sum = 0usize;
    for _turn in 0..turns {
        sum = sum.wrapping_add(dfa_of(alloc, &nfa)?.states());
    }
    Ok(sum)
}

// Adds up how often the word is accepted. From each state each symbol leads to two.
fn count_accepted(
    alloc: Global,
    states: usize,
    ends: &[usize],
    word: &[usize],
    turns: usize,
) -> Result<usize, SetError> {
    let nfa = nfa_of::<u32>(alloc, states, 2, ends, states.saturating_sub(1))?;
    let mut sum = 0usize;
    for _turn in 0..turns {
        sum = sum.wrapping_add(usize::from(accepts(alloc, &nfa, word)?));
    }
    Ok(sum)
}

#[unsafe(no_mangle)]
pub extern "C" fn bench_accepts(
    alloc: Global,
    states: usize,
    ends: &[usize],
    word: &[usize],
    turns: usize,
) -> usize {
    count_accepted(alloc, states, ends, word, turns).unwrap_or(usize::MAX)
}

// Adds up how often a deterministic automaton is found to accept what one of a single state does. Neither accepts a
// word.
fn count_equivalent(
    alloc: Global,
    states: usize,
    ends: &[usize],
    turns: usize,
) -> Result<usize, SetError> {
    let one = dfa_of(alloc, &nfa_of::<u32>(alloc, states, 2, ends, states)?)?;
    let other = dfa_of(alloc, &nfa_of::<u32>(alloc, 1, 1, &[], 1)?)?;
    let mut sum = 0usize;
    for _turn in 0..turns {
        let found = equivalent(alloc, &one, &other)?;
        sum = sum.wrapping_add(usize::from(found.is_none()));
    }
    Ok(sum)
}

#[unsafe(no_mangle)]
pub extern "C" fn bench_equivalent(
    alloc: Global,
    states: usize,
    ends: &[usize],
    turns: usize,
) -> usize {
    count_equivalent(alloc, states, ends, turns).unwrap_or(usize::MAX)
}
