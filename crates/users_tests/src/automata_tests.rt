//! Automata of textbooks, worked out by hand, the examples of the doc comments, and large automata.
use crate::expect::{Test, expect, expect_eq, ok, set_of, sets_of, shows, table};
use automata::{Dfa, DfaError, Nfa, accepts, determinize, equivalent};
use bit_set::{BitBlock, BitSet};
use std::alloc::AllocError;

// An automaton: its edges, each from a state by a symbol to a state, its starts and its accepting states.
#[derive(Clone, Copy, Drop)]
struct Edges<'a> {
    states: usize,
    symbols: usize,
    edges: &'a [(usize, usize, usize)],
    starts: &'a [usize],
    accepting: &'a [usize],
}

fn automaton<B: BitBlock>(rt: &impl Test, of: &Edges<'_>) -> Nfa<B> {
    let mut moves = Vec::new(rt.alloc());
    for symbol in 0..of.symbols {
        ok(rt, moves.push(row_of(rt, of, symbol)));
    }
    Nfa::new(moves, set_of(rt, of.starts), set_of(rt, of.accepting))
}

// For each state where the symbol leads from it.
fn row_of<B: BitBlock>(rt: &impl Test, of: &Edges<'_>, symbol: usize) -> Vec<BitSet<B>> {
    let mut row = Vec::new(rt.alloc());
    for _ in 0..of.states {
        ok(rt, row.push(BitSet::new_general(rt.alloc())));
    }
    for (from, by, to) in of.edges {
        if *by == symbol {
            put_into(rt, row.as_mut_slice(), *from, *to);
        }
    }
    row
}

// Puts a state into the set of another.
fn put_into<B: BitBlock>(rt: &impl Test, row: &mut [BitSet<B>], state: usize, to: usize) {
    if let Some(set) = row.get_mut(state) {
        ok(rt, set.insert(to));
    }
}

// The deterministic one, of this many states at most.
fn deterministic<B: BitBlock>(
    rt: &impl Test,
    of: &Edges<'_>,
    most: usize,
) -> Result<Dfa<B>, DfaError> {
    determinize(rt.alloc(), &automaton::<B>(rt, of), most)
}

fn one_word(rt: &impl Test, nfa: &Nfa<u32>) -> Result<(), AllocError> {
    let alloc = rt.alloc();
    // The one word is of one symbol.
    expect(rt, accepts(alloc, &nfa, &[0])?);
    expect(rt, !accepts(alloc, &nfa, &[0, 0])?);
    Ok(())
}

fn made_deterministic(rt: &impl Test, nfa: &Nfa<u32>) -> Result<Dfa<u32>, DfaError> {
    let alloc = rt.alloc();
    let dfa = determinize(alloc, &nfa, 10)?;
    // Words lead to {0}, {1} and {}.
    expect_eq(rt, &dfa.states(), &3);
    Ok(dfa)
}

fn example(rt: &impl Test, dfa: &Dfa<u32>) -> Result<(), AllocError> {
    let alloc = rt.alloc();
    expect_eq(rt, &dfa.symbols(), &1);
    expect(rt, dfa.accepts(&[0]));
    expect(rt, !dfa.accepts(&[0, 0]));
    expect(rt, equivalent(alloc, &dfa, &dfa)?.is_none());
    Ok(())
}

#[test]
fn examples_of_automata(rt: HostRuntime) {
    let mut moves = Vec::new(rt.alloc());
    ok(&rt, moves.push(sets_of(&rt, &[&[1], &[]])));
    let (starts, accepting) = (set_of(&rt, &[0]), set_of(&rt, &[1]));
    // Symbol 0 leads from state 0, the start, to state 1, which accepts.
    let nfa = Nfa::new(moves, starts, accepting);
    expect_eq(&rt, &nfa.symbols(), &1);
    ok(&rt, one_word(&rt, &nfa));
    let dfa = ok(&rt, made_deterministic(&rt, &nfa));
    ok(&rt, example(&rt, &dfa));
}

macro_rules! edges {
    ($($from:literal $by:literal $to:literal),*) => { &[$(($from, $by, $to)),*] };
}

// The words of 0 and 1 whose third symbol from the end is 1.
const THIRD_FROM_END: Edges<'static> = Edges {
    states: 4,
    symbols: 2,
    edges: edges!(0 0 0, 0 1 0, 0 1 1, 1 0 2, 1 1 2, 2 0 3, 2 1 3),
    starts: &[0],
    accepting: &[3],
};

// The same with its states in another order, and one more way to the third from the end.
const THIRD_FROM_END_AGAIN: Edges<'static> = Edges {
    states: 5,
    symbols: 2,
    edges: edges!(3 0 3, 3 1 3, 3 1 1, 3 1 4, 1 0 2, 1 1 2, 4 1 2, 2 0 0, 2 1 0),
    starts: &[3],
    accepting: &[0],
};

// No state and no symbol, so that no word is accepted.
const NOTHING: Edges<'static> = Edges {
    states: 0,
    symbols: 0,
    edges: &[],
    starts: &[],
    accepting: &[],
};

// The empty word alone.
const EMPTY_WORD: Edges<'static> = Edges {
    states: 1,
    starts: &[0],
    accepting: &[0],
    ..NOTHING
};

// All words of zeros, over the symbol 0 alone.
const ONE_SYMBOL: Edges<'static> = Edges {
    symbols: 1,
    edges: &[(0, 0, 0)],
    ..EMPTY_WORD
};

// The same over the symbols 0 and 1: symbol 1 leads nowhere.
const ZEROS: Edges<'static> = Edges {
    symbols: 2,
    ..ONE_SYMBOL
};

// All words of 0 and 1.
const ANY_WORD: Edges<'static> = Edges {
    edges: &[(0, 0, 0), (0, 1, 0)],
    ..ZEROS
};

// No word, over the symbols 0 and 1.
const NONE_ACCEPTS: Edges<'static> = Edges {
    accepting: &[],
    ..THIRD_FROM_END
};

// No word, over the symbol 0 alone.
const NEVER: Edges<'static> = Edges {
    accepting: &[],
    ..ONE_SYMBOL
};

// States 80, which starts and accepts, and 99 lead nowhere.
const FAR_STATES: Edges<'static> = Edges {
    states: 100,
    symbols: 1,
    edges: &[(0, 0, 70), (70, 0, 99)],
    starts: &[0, 80],
    accepting: &[99, 80],
};

// Words of zeros: those whose length has not the remainder 2 by 3, and those where it is not 4 by 5. The least length
// that is in neither is 14.
const NOT_FOURTEEN: Edges<'static> = Edges {
    states: 8,
    symbols: 1,
    edges: edges!(0 0 1, 1 0 2, 2 0 0, 3 0 4, 4 0 5, 5 0 6, 6 0 7, 7 0 3),
    starts: &[0, 3],
    accepting: &[0, 1, 3, 4, 5, 6],
};

// An automaton, and the deterministic one that is made of it.
#[derive(Drop)]
struct Both<B: BitBlock> {
    nfa: Nfa<B>,
    dfa: Dfa<B>,
}

fn two_of<B: BitBlock>(rt: &impl Test, of: &Edges<'_>, most: usize) -> Both<B> {
    let nfa = automaton(rt, of);
    let dfa = ok(rt, determinize(rt.alloc(), &nfa, most));
    Both { nfa, dfa }
}

// Both accept the word where that is expected, and else neither.
fn accept<B: BitBlock>(rt: &impl Test, both: &Both<B>, word: &[usize], expected: bool) {
    let is_accepted = ok(rt, accepts(rt.alloc(), &both.nfa, word));
    expect_eq(rt, &[is_accepted, both.dfa.accepts(word)], &[expected; 2]);
}

// The last eight digits of a number in base 2, the highest first.
fn digits_of(number: usize) -> [usize; 8] {
    let mut digits = [0; 8];
    let mut rest = number;
    for place in 0..8 {
        digits[7 - place] = rest % 2;
        rest /= 2;
    }
    digits
}

// Both accept just the words of this length that are marked. The marks are those of the words of 0 and 1 in the order
// of their numbers in base 2, `1` for a word that is accepted.
fn accept_marked<B: BitBlock>(rt: &impl Test, both: &Both<B>, length: usize, marks: &[u8]) {
    for (number, mark) in marks.iter().enumerate() {
        let digits = digits_of(number);
        let word = digits.get(8usize.saturating_sub(length)..).unwrap_or(&[]);
        accept(rt, both, word, *mark == b'1');
    }
}

// An automaton, how many states the deterministic one may have, the marks of the words of each length, and how many
// states and symbols the deterministic one has.
const WORDS: &[(Edges<'static>, usize, &[&[u8]], (usize, usize))] = table! {
    THIRD_FROM_END, 8, &[b"0", b"00", b"0000", b"00001111", b"0000111100001111"], (8, 2);
    THIRD_FROM_END, 100, &[], (8, 2);
    NOTHING, 1, &[b"0", b"00"], (1, 0);
    EMPTY_WORD, 1, &[b"1", b"00"], (1, 0);
    NONE_ACCEPTS, 8, &[b"0", b"00", b"0000", b"00000000"], (8, 2);
    // The second state of the deterministic one is the empty set.
    ZEROS, 2, &[b"1", b"10", b"1000", b"10000000"], (2, 2);
    // Its states are past the first blocks of sets.
    FAR_STATES, 10, &[b"1", b"00", b"1000", b"00000000"], (4, 1);
};

#[test]
fn automata_accept_their_words(rt: HostRuntime) {
    for (of, most, marks, size) in WORDS {
        let both = two_of::<u32>(&rt, of, *most);
        for (length, row) in marks.iter().enumerate() {
            accept_marked(&rt, &both, length, row);
        }
        expect_eq(&rt, &(both.dfa.states(), both.dfa.symbols()), size);
    }
    // A word with a symbol that an automaton does not have is not accepted.
    let both = two_of::<u8>(&rt, &THIRD_FROM_END, 1000);
    for word in [&[1, 2, 0][..], &[2, 1, 0, 0]] {
        accept(&rt, &both, word, false);
    }
}

// Whether the deterministic one has more states than that.
fn has_more_states(rt: &impl Test, of: &Edges<'_>, most: usize) -> bool {
    deterministic::<u32>(rt, of, most).err() == Some(DfaError::TooMany)
}

#[test]
fn deterministic_automata_may_have_too_many_states(rt: HostRuntime) {
    expect(&rt, has_more_states(&rt, &THIRD_FROM_END, 7));
    expect(&rt, has_more_states(&rt, &NOTHING, 0));
}

// A word that just one of the automata accepts.
fn difference<B: BitBlock>(rt: &impl Test, a: &Edges<'_>, b: &Edges<'_>) -> Option<Vec<usize>> {
    let left = ok(rt, deterministic::<B>(rt, a, usize::MAX));
    let right = ok(rt, deterministic::<B>(rt, b, usize::MAX));
    ok(rt, equivalent(rt.alloc(), &left, &right))
}

fn is_word(found: Option<&Vec<usize>>, wanted: Option<&[usize]>) -> bool {
    match (found, wanted) {
        (Some(found), Some(wanted)) => found.as_slice() == wanted,
        (found, wanted) => found.is_none() && wanted.is_none(),
    }
}

// Two automata, and a word that just one of them accepts, where there is one.
const PAIRS: &[(Edges<'static>, Edges<'static>, Option<&[usize]>)] = &[
    (THIRD_FROM_END, THIRD_FROM_END, None),
    (THIRD_FROM_END, THIRD_FROM_END_AGAIN, None),
    (THIRD_FROM_END_AGAIN, THIRD_FROM_END, None),
    (NOT_FOURTEEN, ONE_SYMBOL, Some(&[0; 14])),
    (ONE_SYMBOL, NOT_FOURTEEN, Some(&[0; 14])),
    // They have different symbols.
    (ONE_SYMBOL, ZEROS, None),
    (ZEROS, ONE_SYMBOL, None),
    (ONE_SYMBOL, ANY_WORD, Some(&[1])),
    (ANY_WORD, ONE_SYMBOL, Some(&[1])),
    // They accept nothing.
    (NOTHING, NOTHING, None),
    (NOTHING, NONE_ACCEPTS, None),
    (NOTHING, EMPTY_WORD, Some(&[])),
    (THIRD_FROM_END, NOTHING, Some(&[1, 0, 0])),
];

#[test]
fn automata_are_compared(rt: HostRuntime) {
    for (a, b, wanted) in PAIRS {
        let found = difference::<u32>(&rt, a, b);
        expect(&rt, is_word(found.as_ref(), *wanted));
    }
}

// A word of zeros of this length, with a 1 at a place from the end, or none at place 0.
fn word_with_one(rt: &impl Test, length: usize, from_end: usize) -> Vec<usize> {
    let mut word = ok(rt, vec![in rt.alloc(); 0; length]);
    if let Some(symbol) = word.get_mut(length.saturating_sub(from_end)) {
        *symbol = 1;
    }
    word
}

#[test]
fn words_of_five_thousand_letters(rt: HostRuntime) {
    let both = two_of::<u32>(&rt, &THIRD_FROM_END, 8);
    for (from_end, expected) in [(2, false), (3, true), (4, false), (5000, false)] {
        let word = word_with_one(&rt, 5000, from_end);
        accept(&rt, &both, word.as_slice(), expected);
    }
}

// The edges of 2,000 states in a ring, by the symbol 0.
fn ring(rt: &impl Test) -> Vec<(usize, usize, usize)> {
    let mut edges = Vec::new(rt.alloc());
    for state in 0..2000usize {
        ok(rt, edges.push((state, 0, (state + 1) % 2000)));
    }
    edges
}

// From state 0 of the ring to the last of its states: words of zeros whose length has the remainder 1,999 by 2,000.
fn around<'a>(ring: &'a [(usize, usize, usize)]) -> Edges<'a> {
    Edges {
        states: 2000,
        symbols: 1,
        edges: ring,
        starts: &[0],
        accepting: &[1999],
    }
}

#[test]
fn two_thousand_states(rt: HostRuntime) {
    let ring = ring(&rt);
    let of = around(ring.as_slice());
    let both = two_of::<u32>(&rt, &of, 2000);
    expect_eq(&rt, &[both.dfa.states(), both.dfa.symbols()], &[2000, 1]);
    for (length, expected) in [(1999, true), (2000, false), (5999, true), (6000, false)] {
        let word = word_with_one(&rt, length, 0);
        accept(&rt, &both, word.as_slice(), expected);
    }
    expect(&rt, has_more_states(&rt, &of, 1999));
}

#[test]
fn automata_of_two_thousand_states_are_compared(rt: HostRuntime) {
    let ring = ring(&rt);
    let of = around(ring.as_slice());
    expect(&rt, difference::<u64>(&rt, &of, &of).is_none());
    let word = difference::<u64>(&rt, &of, &NEVER);
    let zeros = word_with_one(&rt, 1999, 0);
    expect(&rt, is_word(word.as_ref(), Some(zeros.as_slice())));
}

// The words of 0 and 1 with a 1 at a place from the end: each state but 0, which stays, leads to the next by both
// symbols. The deterministic one has a state for each word of that length.
fn one_from_end(rt: &impl Test, place: usize) -> Dfa<u64> {
    let mut edges = ok(
        rt,
        Vec::from_slice(rt.alloc(), &[(0, 0, 0), (0, 1, 0), (0, 1, 1)]),
    );
    for state in 1..place {
        for symbol in 0..2 {
            ok(rt, edges.push((state, symbol, state.saturating_add(1))));
        }
    }
    let of = Edges {
        states: place.saturating_add(1),
        symbols: 2,
        edges: edges.as_slice(),
        starts: &[0],
        accepting: &[place],
    };
    ok(rt, deterministic(rt, &of, usize::MAX))
}

// How long a word is, and its first symbol.
fn begin_of(word: Option<&Vec<usize>>) -> Option<(usize, usize)> {
    let word = word?;
    Some((word.len(), *word.first()?))
}

// There are more than 2^33 pairs of states. The shortest words that just one accepts have a 1 and 15 letters more.
#[test]
fn tables_with_many_pairs_are_compared(rt: HostRuntime) {
    let (a, b) = (one_from_end(&rt, 16), one_from_end(&rt, 17));
    expect_eq(&rt, &[a.states(), b.states()], &[65_536, 131_072]);
    let word = ok(&rt, equivalent(rt.alloc(), &a, &b));
    expect_eq(&rt, &begin_of(word.as_ref()), &Some((16, 1)));
}

#[test]
fn faults_have_texts(rt: HostRuntime) {
    shows(&rt, &DfaError::TooMany, "too many states");
    shows(&rt, &DfaError::Memory(AllocError), "no memory");
}
