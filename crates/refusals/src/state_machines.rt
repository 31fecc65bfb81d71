// Calls of the library of finite automata.
use crate::asks::Ask;
use crate::faults::Fault;
use crate::states::{push, set_of, sets_of};
use crate::sweep::{Row, Trial, table};
use automata::{Dfa, Nfa, accepts, determinize, equivalent};
use bit_set::{BitBlock, BitSet, SetError};
use std::alloc::{AllocError, Global};
use std::mem;

// Words, of which the automaton over two symbols below accepts those whose third symbol from the end is 1, or where it
// accepts in state 2, the second.
const THIRD: &[usize] = &[0, 1, 0, 0];

const SECOND: &[usize] = &[0, 0, 1, 0];

pub enum Call {
    // A short word, and one of a thousand symbols, for whose runs there are two sets.
    Accept,
    AcceptThousand,
    Determinize,
    // Looks for a word that only one of two automata accepts, of which one accepts in state 5000 and the other in this
    // one. It is this word, or empty where there is none.
    Compare(usize, &'static [usize]),
    // Makes an automaton that starts nowhere and accepts nowhere, and reads a table.
    Make,
}

// Of determinizing: two copies of each of eight sets, of which the first is {0}, and a spare set; the accepting states;
// the list of the sets, of 64 bytes each, and the sixteen numbers of the table, two lists that double; and a leaf of
// the map from sets to their numbers, with places for fifteen of both and a word for how many there are.
const DETERMINIZE: &[Ask] = &[
    Ask::Lists(2, 1),
    Ask::Lists(15, 5001),
    Ask::Exact(8),
    Ask::Other(2, (4 + 8) * 64),
    Ask::Other(3, (4 + 8 + 16) * 8),
    Ask::Other(1, 15 * (64 + 8) + 8),
];

// Of a comparison: nine rows of nine bits, each at whole blocks, four words for each pair that is met, and the word. Of
// equal automata eight pairs are met, in a list that doubles once, and else those of the words `1`, `10`, `11` and the
// empty one.
pub const ROWS: &[Row<Call>] = table! {
    "accepts", &[Ask::Lists(2, 5001)], Call::Accept;
    "accepts_thousand", &[Ask::Lists(2, 5001)], Call::AcceptThousand;
    "determinize", DETERMINIZE, Call::Determinize;
    "equivalent", &[Ask::Rows(9, 9), Ask::Other(2, (4 + 8) * 32)], Call::Compare(5000, &[]);
    "equivalent_differ", &[Ask::Rows(9, 9), Ask::Other(1, 4 * 32), Ask::Other(1, 4 * 8)], Call::Compare(2, &[1, 0]);
    "automata", &[], Call::Make;
};

// The sets to which each of two symbols leads from the states 0, 1 and 2.
const MOVES: [[&[usize]; 3]; 2] = [[&[0], &[2], &[5000]], [&[0, 1], &[2], &[5000]]];

fn moves<B: BitBlock>(alloc: Global) -> Result<Vec<Vec<BitSet<B>>>, SetError> {
    let mut moves = Vec::new(alloc);
    for rows in &MOVES {
        push(&mut moves, sets_of(alloc, rows)?)?;
    }
    Ok(moves)
}

// The automaton that accepts in this state.
fn automaton<B: BitBlock>(alloc: Global, accepting: usize) -> Result<Nfa<B>, SetError> {
    let moves = moves(alloc)?;
    let starts = set_of(alloc, &[0])?;
    let accepting = set_of(alloc, &[accepting])?;
    Ok(Nfa::new(moves, starts, accepting))
}

// That which accepts in this state, as a table.
fn table_of<B: BitBlock>(alloc: Global, accepting: usize) -> Result<Dfa<B>, Fault> {
    let nfa = automaton::<B>(alloc, accepting)?;
    Ok(determinize(alloc, &nfa, 8)?)
}

// Whether the automaton accepts a word of a thousand symbols, of which the third from the end alone is 1.
fn accepts_thousand<B: BitBlock>(alloc: Global, nfa: &Nfa<B>) -> Result<bool, AllocError> {
    let mut word = [0; 1000];
    word[997] = 1;
    accepts(alloc, nfa, &word)
}

// Whether the automaton accepts just the first of the two words.
fn is_whole<B: BitBlock>(alloc: Global, nfa: &Nfa<B>) -> Result<bool, AllocError> {
    let is_third = accepts(alloc, nfa, THIRD)?;
    let is_second = accepts(alloc, nfa, SECOND)?;
    Ok(is_third & !is_second)
}

// Whether it is that of the eight sets that words reach, and accepts just the first of the two words.
fn is_table<B: BitBlock>(dfa: &Dfa<B>) -> bool {
    (dfa.states() == 8) & dfa.accepts(THIRD) & !dfa.accepts(SECOND)
}

// Whether this is the word that is found, which just one of the two accepts, or none is and it is empty.
fn tells_apart<B: BitBlock>(
    alloc: Global,
    a: &Dfa<B>,
    b: &Dfa<B>,
    wanted: &[usize],
) -> Result<bool, AllocError> {
    match equivalent(alloc, a, b)? {
        Some(word) => Ok(word.as_slice() == wanted),
        None => Ok(wanted.is_empty()),
    }
}

// The automaton of these moves that starts nowhere.
fn idle<B: BitBlock>(alloc: Global, moves: &mut Vec<Vec<BitSet<B>>>) -> Nfa<B> {
    let moves = mem::replace(moves, Vec::new(alloc));
    Nfa::new(
        moves,
        BitSet::new_general(alloc),
        BitSet::new_general(alloc),
    )
}

/// An automaton, moves of which one is made in its place, and two tables.
#[derive(Drop)]
pub struct Machines<B: BitBlock> {
    nfa: Nfa<B>,
    moves: Vec<Vec<BitSet<B>>>,
    a: Dfa<B>,
    b: Dfa<B>,
}

impl<B: BitBlock> Trial<Call> for Machines<B> {
    fn prepare(alloc: Global, call: &Call) -> Result<Self, Fault> {
        let accepting = match call {
            Call::Compare(accepting, _) => *accepting,
            _ => 5000,
        };
        let nfa = automaton(alloc, 5000)?;
        let moves = moves(alloc)?;
        let a = table_of(alloc, 5000)?;
        let b = table_of(alloc, accepting)?;
        Ok(Machines { nfa, moves, a, b })
    }

    fn make(&mut self, alloc: Global, call: &Call) -> Result<bool, Fault> {
        match call {
            Call::Accept => Ok(accepts(alloc, &self.nfa, THIRD)?),
            Call::AcceptThousand => Ok(accepts_thousand(alloc, &self.nfa)?),
            Call::Determinize => {
                let dfa = determinize(alloc, &self.nfa, 8)?;
                Ok(is_table(&dfa))
            }
            Call::Compare(_, word) => Ok(tells_apart(alloc, &self.a, &self.b, word)?),
            Call::Make => {
                self.nfa = idle(alloc, &mut self.moves);
                Ok(is_table(&self.a) & (self.a.symbols() == 2))
            }
        }
    }

    fn is_right(&mut self, alloc: Global, call: &Call, _returned: bool) -> Result<bool, Fault> {
        let are_tables = is_table(&self.a) & (self.b.accepts(SECOND) != self.b.accepts(THIRD));
        let is_right = match call {
            Call::Make => self.nfa.symbols() == 2 && !accepts(alloc, &self.nfa, THIRD)?,
            _ => is_whole(alloc, &self.nfa)?,
        };
        Ok(are_tables & is_right)
    }
}
