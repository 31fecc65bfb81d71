// Nondeterministic automata.
ghost use Rattle.std.specs.Prelude.{◌≡◌, ◌≤◌, ◌↔◌, ℕ, IfOk, IsOk, IsTrue, OnOk, length};
ghost use Rattle.bit_set.specs.Sets.{elements};
ghost use Rattle.automata.specs.Bounds.{AreWithin, IsLongest, IsRowWithin};
ghost use Rattle.automata.specs.Runs.{Accepts, IsEnd, IsImage, row_of, rows_of_sets};

use crate::step::step;
use bit_set::{BitBlock, BitSet};
use std::alloc::{AllocError, Global};
use std::marker::Model;
use std::mem;

/// An automaton: for each symbol and state a set of states, a set of starts, and a set of accepting states. A symbol
/// or a state with no set of its own leads nowhere.
#[derive(Drop)]
pub struct Nfa<B: BitBlock> {
    moves: Vec<Vec<BitSet<B>>>,
    starts: BitSet<B>,
    accepting: BitSet<B>,
    // The length of the longest set in `moves`, or of `starts`.
    longest: usize,
}

impl<B: BitBlock> Model for Nfa<B> {
    ghost use Rattle.bit_set.specs.Sets.{elements};
    ghost use Rattle.automata.specs.Bounds.{IsLongest};
    ghost use Rattle.automata.specs.Runs.{Automaton, rows_of_sets};

    ghost Value = { Automaton };

    ghost view = { λ it. record {
      moves = rows_of_sets it.moves.items;
      starts = elements it.starts.values;
      accepting = elements it.accepting.values;
      longest = it.longest;
    } };

    ghost invariant = { λ it. IsLongest it.longest it.moves.items it.starts };
}

impl<B: BitBlock> Nfa<B> {
    /// The automaton with these sets: `moves[symbol][state]` has the states to which the symbol leads from the
    /// state. Looks at each set once.
    ///
    /// ```
    /// // Symbol 0 leads from state 0, the start, to state 1, which accepts.
    /// let nfa = Nfa::new(moves, starts, accepting);
    /// assert_eq!(nfa.symbols(), 1);
    /// ```
    pub fn new(moves: Vec<Vec<BitSet<B>>>, starts: BitSet<B>, accepting: BitSet<B>) -> Self
        ensures moves { result.moves ≡ rows_of_sets moves.items }
        ensures starts { result.starts ≡ elements starts.values }
        ensures accepting { result.accepting ≡ elements accepting.values }
        ensures longest { IsLongest result.longest moves.items starts }
    {
        let longest = longest_of_rows(moves.as_slice()).max(starts.get_ref().len());
        Nfa {
            moves,
            starts,
            accepting,
            longest,
        }
    }

    /// How many symbols have sets of their own: those below this number. Constant time.
    ///
    /// ```
    /// assert_eq!(nfa.symbols(), 1);
    /// ```
    pub fn symbols(&self) -> usize
        ensures { result ≡ length self.now.moves }
    {
        self.moves.len()
    }

    // The starts.
    pub(crate) fn starts(&self) -> &BitSet<B>
        ensures { elements result.now.values ≡ self.now.starts }
    {
        &self.starts
    }

    // The accepting states.
    pub(crate) fn accepting(&self) -> &BitSet<B>
        ensures { elements result.now.values ≡ self.now.accepting }
    {
        &self.accepting
    }

    // The length of the longest set of states to which a symbol leads, or of the starts.
    pub(crate) fn longest(&self) -> usize
        ensures { result ≡ self.now.longest }
    {
        self.longest
    }

    // Sets `into` to the states to which the symbol leads from those in `states`.
    pub(crate) fn step(
        &self,
        symbol: usize,
        states: &BitSet<B>,
        into: &mut BitSet<B>,
    ) -> Result<(), AllocError>
        ensures { OnOk result (IsImage (row_of self.now.moves symbol)
            (elements states.now.values) (elements into.new.values)) }
    {
        step(self.moves.as_slice(), symbol, states, into)
    }
}

/// Whether some run from a start to an accepting state spells the word. Allocates two sets of states, as long as
/// the longest of the automaton's, and nothing else: it fails only if memory for these runs out, and never for the
/// empty word, which does not need them. For each symbol of the word it makes at most one union for each state.
///
/// ```
/// // The one word is of one symbol.
/// assert!(accepts(alloc, &nfa, &[0])?);
/// assert!(!accepts(alloc, &nfa, &[0, 0])?);
/// ```
pub fn accepts<B: BitBlock>(alloc: Global, nfa: &Nfa<B>, word: &[usize]) -> Result<bool, AllocError>
    ensures accepted { IfOk result (λ is. IsTrue is ↔ Accepts nfa.now word.now) }
    ensures empty { length word.now ≡ 0 → IsOk result }
    ensures no_length { nfa.now.longest ≡ 0 → IsOk result }
{
    if word.is_empty() {
        return Ok(!nfa.starts.is_disjoint(&nfa.accepting));
    }
    let mut states = BitSet::with_capacity_general(alloc, nfa.longest)?;
    let mut next = BitSet::with_capacity_general(alloc, nfa.longest)?;
    // It has the capacity for the starts.
    states.clone_from(&nfa.starts).unwrap();
    follow(nfa.moves.as_slice(), word, &mut states, &mut next);
    Ok(!states.is_disjoint(&nfa.accepting))
}

// Follows the word from a set of states, one step for each symbol. Allocates nothing.
fn follow<B: BitBlock>(
    moves: &[Vec<BitSet<B>>],
    word: &[usize],
    states: &mut BitSet<B>,
    next: &mut BitSet<B>,
)
    requires states { AreWithin states.old.capacity moves.now }
    requires next { AreWithin next.old.capacity moves.now }
    ensures { IsEnd (rows_of_sets moves.now) (elements states.old.values) word.now (elements states.new.values) }
{
    for &symbol in word {
        step(moves, symbol, states, next).unwrap();
        mem::swap(states, next);
    }
}

// The length of the longest set in the rows.
fn longest_of_rows<B: BitBlock>(rows: &[Vec<BitSet<B>>]) -> usize
    ensures all { AreWithin result rows.now }
    ensures least { (n : ℕ) → AreWithin n rows.now → result ≤ n }
{
    let mut longest: usize = 0;
    for row in rows {
        longest = longest.max(longest_of_row(row.as_slice()));
    }
    longest
}

// The length of the longest set in the row.
fn longest_of_row<B: BitBlock>(row: &[BitSet<B>]) -> usize
    ensures all { IsRowWithin result row.now }
    ensures least { (n : ℕ) → IsRowWithin n row.now → result ≤ n }
{
    let mut longest: usize = 0;
    for set in row {
        longest = longest.max(set.get_ref().len());
    }
    longest
}
