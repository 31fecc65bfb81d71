// The deterministic automaton that accepts the same words.
ghost use Rattle.std.specs.Prelude.{◌≡◌, ◌+◌, ◌*◌, ◌<◌, ◌≤◌, ◌↔◌, ℕ, IfOk, IsErrOf, IsOk, IsTrue, List, OnOk, [], length};
ghost use Rattle.bit_set.specs.Sets.{elements, has};
ghost use Rattle.automata.specs.{Building.{Builds, Meets}, Numbering.set_of, Runs.Accepts};
ghost use Rattle.automata.specs.Tables.{IsAcceptedBy, IsSubsetTable, ReachesMoreThan};

use crate::numbering::Numbering;
use crate::{Dfa, DfaError, Nfa};
use bit_set::laws::{sets_are_their_members, sets_ascend};
use bit_set::{BitBlock, BitSet};
use std::alloc::{AllocError, Global};

/// The deterministic automaton that accepts exactly the words that `nfa` accepts, by the subset construction. Its
/// states are the sets of states that words reach, each once. Fails with [`DfaError::TooMany`] only if there are
/// more of these sets than `most_states`, at once if that is 0, and otherwise only if memory runs out; and succeeds
/// only if there are not more. For each state and symbol it takes the successors of one set, and looks for that set
/// in a map.
///
/// ```
/// let dfa = determinize(alloc, &nfa, 10)?;
/// // Words lead to {0}, {1} and {}.
/// assert_eq!(dfa.states(), 3);
/// ```
pub fn determinize<B: BitBlock>(
    alloc: Global,
    nfa: &Nfa<B>,
    most_states: usize,
) -> Result<Dfa<B>, DfaError>
    ensures words { IfOk result (λ dfa. (word : List ℕ) → IsAcceptedBy dfa word ↔ Accepts nfa.now word) }
    ensures sets { IfOk result (λ dfa. (sets : List (List ℕ)) × IsSubsetTable nfa.now dfa sets) }
    ensures few { IfOk result (λ dfa. dfa.states ≤ most_states) }
    ensures too_many { IsErrOf result DfaError.TooMany → ReachesMoreThan most_states nfa.now }
    ensures no_more { IsOk result → ¬ ReachesMoreThan most_states nfa.now }
    ensures no_states { most_states ≡ 0 → IsErrOf result DfaError.TooMany }
{
    let mut numbering = first_set(alloc, nfa, most_states)?;
    let next = fill(alloc, nfa, &mut numbering, most_states)?;
    let accepting = accepting_numbers(alloc, &numbering, nfa)?;
    Ok(Dfa {
        states: numbering.len(),
        symbols: nfa.symbols(),
        next,
        accepting,
    })
}

// The starts as the set of number 0.
fn first_set<B: BitBlock>(
    alloc: Global,
    nfa: &Nfa<B>,
    most: usize,
) -> Result<Numbering<B>, DfaError>
    ensures builds { IfOk result (λ sets. Builds nfa.now sets []) }
    ensures few { IfOk result (λ sets. length sets ≤ most) }
    ensures too_many { IsErrOf result DfaError.TooMany → ReachesMoreThan most nfa.now }
    ensures no_states { most ≡ 0 → IsErrOf result DfaError.TooMany }
{
    sets_ascend();
    let mut numbering = Numbering::new(alloc);
    numbering.number_of(alloc, nfa.starts(), most)?;
    Ok(numbering)
}

// The whole table: a row for each set, where the sets to which symbols lead are numbered on the way.
fn fill<B: BitBlock>(
    alloc: Global,
    nfa: &Nfa<B>,
    numbering: &mut Numbering<B>,
    most: usize,
) -> Result<Vec<usize>, DfaError>
    requires builds { Builds nfa.now numbering.old [] }
    requires few { length numbering.old ≤ most }
    ensures builds { IfOk result (λ next. Builds nfa.now numbering.new next.items) }
    ensures whole { IfOk result (λ next. length next.items ≡ length numbering.new * length nfa.now.moves) }
    ensures few { OnOk result (length numbering.new ≤ most) }
    ensures too_many { IsErrOf result DfaError.TooMany → ReachesMoreThan most nfa.now }
{
    let mut into = BitSet::with_capacity_general(alloc, nfa.longest())?;
    let mut next = Vec::new(alloc);
    let mut state = 0;
    while state < numbering.len() {
        add_row(alloc, nfa, state, numbering, &mut into, &mut next, most)?;
        state += 1;
    }
    Ok(next)
}

// The row of one set, symbol by symbol.
fn add_row<B: BitBlock>(
    alloc: Global,
    nfa: &Nfa<B>,
    state: usize,
    numbering: &mut Numbering<B>,
    into: &mut BitSet<B>,
    next: &mut Vec<usize>,
    most: usize,
) -> Result<(), DfaError>
    requires builds { Builds nfa.now numbering.old next.old.items }
    requires whole { length next.old.items ≡ state * length nfa.now.moves }
    requires inside { state < length numbering.old }
    requires few { length numbering.old ≤ most }
    ensures builds { OnOk result (Builds nfa.now numbering.new next.new.items) }
    ensures whole { OnOk result (length next.new.items ≡ (state + 1) * length nfa.now.moves) }
    ensures inside { OnOk result (state < length numbering.new) }
    ensures few { OnOk result (length numbering.new ≤ most) }
    ensures too_many { IsErrOf result DfaError.TooMany → ReachesMoreThan most nfa.now }
{
    sets_ascend();
    sets_are_their_members();
    for symbol in 0..nfa.symbols() {
        nfa.step(symbol, numbering.set(state), into)?;
        let number = numbering.number_of(alloc, into, most)?;
        next.push(number)?;
    }
    Ok(())
}

// The numbers of the sets that have an accepting state.
fn accepting_numbers<B: BitBlock>(
    alloc: Global,
    numbering: &Numbering<B>,
    nfa: &Nfa<B>,
) -> Result<BitSet<B>, AllocError>
    ensures { IfOk result (λ set. (i : ℕ) → IsTrue (has (elements set.values) i)
        ↔ ((i < length numbering.now) × Meets (set_of numbering.now i) nfa.now.accepting)) }
{
    let mut numbers = BitSet::with_capacity_general(alloc, numbering.len())?;
    for number in 0..numbering.len() {
        if !numbering.set(number).is_disjoint(nfa.accepting()) {
            numbers.insert(number).unwrap();
        }
    }
    Ok(numbers)
}
