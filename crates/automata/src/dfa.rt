// Deterministic automata.
ghost use Rattle.std.specs.Prelude.{◌≡◌, ◌<◌, ◌≤◌, ◌↔◌, IfNone, IfSome, IsTrue};
ghost use Rattle.automata.specs.{Pairs.{does_accept, step_of}, Tables.{IsAcceptedBy, IsTable, IsWordOver, end_from}};

use bit_set::{BitBlock, BitSet};
use std::marker::Model;

/// A deterministic automaton: from each of its states, each symbol leads to one state. It starts in state 0.
#[derive(Drop)]
pub struct Dfa<B: BitBlock> {
    pub(crate) states: usize,
    pub(crate) symbols: usize,
    // Where the symbol leads from the state, at `state * symbols + symbol`.
    pub(crate) next: Vec<usize>,
    pub(crate) accepting: BitSet<B>,
}

impl<B: BitBlock> Model for Dfa<B> {
    ghost use Rattle.bit_set.specs.Sets.{elements};
    ghost use Rattle.automata.specs.Tables.{IsTable, Table};

    ghost Value = { Table };

    ghost view = { λ it. record {
      states = it.states;
      symbols = it.symbols;
      next = it.next.items;
      accepting = elements it.accepting.values;
    } };

    ghost invariant = { λ it. IsTable it.states it.symbols it.next.items };
}

impl<B: BitBlock> Dfa<B> {
    /// How many states there are: those below this number. Constant time.
    ///
    /// ```
    /// // Words lead to {0}, {1} and {}.
    /// assert_eq!(dfa.states(), 3);
    /// ```
    pub fn states(&self) -> usize
        ensures value { result ≡ self.now.states }
        ensures table { IsTable self.now.states self.now.symbols self.now.next }
    {
        self.states
    }

    /// How many symbols there are: those below this number. Constant time.
    ///
    /// ```
    /// assert_eq!(dfa.symbols(), 1);
    /// ```
    pub fn symbols(&self) -> usize
        ensures { result ≡ self.now.symbols }
    {
        self.symbols
    }

    /// Whether the word leads to an accepting state. A word with a symbol that the automaton does not have is not
    /// accepted. One look-up for each symbol.
    ///
    /// ```
    /// assert!(dfa.accepts(&[0]));
    /// assert!(!dfa.accepts(&[0, 0]));
    /// ```
    pub fn accepts(&self, word: &[usize]) -> bool
        ensures { IsTrue result ↔ IsAcceptedBy self.now word.now }
    {
        match end_of(self.next.as_slice(), self.states, self.symbols, word) {
            Some(state) => self.accepting.contains(state),
            None => false,
        }
    }

    // Where the symbol leads from the state: to `states` if it is none of the symbols, and also from `states`
    // itself.
    pub(crate) fn step(&self, state: usize, symbol: usize) -> usize
        ensures value { result ≡ step_of self.now state symbol }
        ensures inside { result ≤ self.now.states }
    {
        if state < self.states && symbol < self.symbols {
            self.next[state * self.symbols + symbol]
        } else {
            self.states
        }
    }

    // Whether the state is one of the automaton's, and accepting.
    pub(crate) fn is_accepting(&self, state: usize) -> bool
        ensures { result ≡ does_accept self.now state }
    {
        state < self.states && self.accepting.contains(state)
    }
}

// The state to which the word leads from state 0, or `None` if one of its symbols is not in the table.
fn end_of(next: &[usize], states: usize, symbols: usize, word: &[usize]) -> Option<usize>
    requires { IsTable states symbols next.now }
    ensures outside { IfNone result (¬ IsWordOver symbols word.now) }
    ensures over { IfSome result (λ _. IsWordOver symbols word.now) }
    ensures end { IfSome result (λ state. state ≡ end_from symbols next.now 0 word.now) }
{
    let mut state = 0;
    for &symbol in word {
        if symbol >= symbols {
            return None;
        }
        state = next[state * symbols + symbol];
    }
    Some(state)
}
