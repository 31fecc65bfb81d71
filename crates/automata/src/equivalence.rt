// Whether two deterministic automata accept the same words.
ghost use Rattle.std.specs.Prelude.{◌≡◌, ◌+◌, ◌*◌, ◌<◌, ◌≤◌, ◌++◌, ◌∷◌, ◌||◌, ◌==◌, [], ℕ, false, if◌then◌else◌, IfNone, IfOk, IfSome, OnOk, length};
ghost use Rattle.bit_matrix.specs.Matrices.{ChangesRow, has_at};
ghost use Rattle.automata.specs.{Pairs.symbols_of, Searching.{Explores, HasPlaces, Spells, pair_at}};
ghost use Rattle.automata.specs.Tables.{AcceptTheSame, IsAcceptedByOne};

use crate::Dfa;
use bit_matrix::{BitMatrix, MatrixError};
use bit_set::BitBlock;
use std::alloc::{AllocError, Global};

// Two states that one word reaches, each in its automaton. The word is that of the pair at `parent` and then `symbol`;
// the first pair is that of the empty word.
#[derive(Clone, Copy)]
pub(crate) struct Pair {
    parent: usize,
    symbol: usize,
    left: usize,
    right: usize,
}

/// Whether two automata accept the same words: `None` if they do, else a word that exactly one of them accepts. A
/// word with a symbol that an automaton does not have is not accepted by it, so the two need not have the same
/// symbols. Follows each symbol once from each pair of states that some word reaches, in the order of the words'
/// lengths. Allocates a bit for each pair of states, with one extra state for each automaton, in a row of whole
/// blocks for each state of the first, and writes all of them first. Allocates four words for each pair that is
/// reached, in a list that doubles. Fails only if memory runs out, which includes that these rows would have more
/// bits than a `usize` can count.
///
/// ```
/// assert!(equivalent(alloc, &dfa, &dfa)?.is_none());
/// ```
pub fn equivalent<B: BitBlock>(
    alloc: Global,
    a: &Dfa<B>,
    b: &Dfa<B>,
) -> Result<Option<Vec<usize>>, AllocError>
    ensures same { IfOk result (λ found. IfNone found (AcceptTheSame a.now b.now)) }
    ensures differ { IfOk result (λ found. IfSome found (λ word. IsAcceptedByOne a.now b.now word.items)) }
{
    let mut met = no_pairs(alloc, a.states(), b.states())?;
    let mut queue = first_pairs(alloc, a, b, &mut met)?;
    let mut done = 0;
    while done < queue.len() {
        let pair = queue[done];
        if a.is_accepting(pair.left) != b.is_accepting(pair.right) {
            return Ok(Some(word_of(alloc, queue.as_slice(), done)?));
        }
        add_successors(a, b, done, &mut queue, &mut met)?;
        done += 1;
    }
    Ok(None)
}

// An empty matrix with a row for each state of one automaton and a column for each of the other, and one more of
// each.
fn no_pairs<B: BitBlock>(
    alloc: Global,
    left: usize,
    right: usize,
) -> Result<BitMatrix<B>, AllocError>
    ensures none { IfOk result (λ met. (l r : ℕ) → has_at met l r ≡ false) }
    ensures rows { IfOk result (λ met. length met.rows ≡ left + 1) }
    ensures columns { IfOk result (λ met. met.columns ≡ right + 1) }
{
    let Some(rows) = left.checked_add(1) else {
        return Err(AllocError);
    };
    let Some(columns) = right.checked_add(1) else {
        return Err(AllocError);
    };
    match BitMatrix::new_general(alloc, rows, columns) {
        Ok(met) => Ok(met),
        Err(MatrixError::Memory(fault)) => Err(fault),
        Err(MatrixError::Length) => Err(AllocError),
    }
}

// The pair of the two starts.
fn first_pairs<B: BitBlock>(
    alloc: Global,
    a: &Dfa<B>,
    b: &Dfa<B>,
    met: &mut BitMatrix<B>,
) -> Result<Vec<Pair>, AllocError>
    requires none { (l r : ℕ) → has_at met.old l r ≡ false }
    requires places { HasPlaces a.now b.now met.old }
    ensures explores { IfOk result (λ queue. Explores a.now b.now queue.items met.new 0) }
    ensures places { HasPlaces a.now b.now met.new }
{
    let mut queue = Vec::new(alloc);
    met.insert(0, 0);
    queue.push(Pair {
        parent: 0,
        symbol: 0,
        left: 0,
        right: 0,
    })?;
    Ok(queue)
}

// Adds to the queue the pairs to which symbols lead from one pair, if they were not met before.
fn add_successors<B: BitBlock>(
    a: &Dfa<B>,
    b: &Dfa<B>,
    done: usize,
    queue: &mut Vec<Pair>,
    met: &mut BitMatrix<B>,
) -> Result<(), AllocError>
    requires explores { Explores a.now b.now queue.old.items met.old (done * symbols_of a.now b.now) }
    requires inside { done < length queue.old.items }
    requires places { HasPlaces a.now b.now met.old }
    ensures explores { OnOk result (Explores a.now b.now queue.new.items met.new ((done + 1) * symbols_of a.now b.now)) }
    ensures more { OnOk result (length queue.old.items ≤ length queue.new.items) }
    ensures same { OnOk result ((i : ℕ) → i < length queue.old.items
        → pair_at queue.new.items i ≡ pair_at queue.old.items i) }
    ensures places { OnOk result (HasPlaces a.now b.now met.new) }
{
    let from = queue[done];
    for symbol in 0..a.symbols().max(b.symbols()) {
        let pair = Pair {
            parent: done,
            symbol,
            left: a.step(from.left, symbol),
            right: b.step(from.right, symbol),
        };
        add(pair, queue, met)?;
    }
    Ok(())
}

// Adds the pair to the queue, if it was not met before.
fn add<B: BitBlock>(
    pair: Pair,
    queue: &mut Vec<Pair>,
    met: &mut BitMatrix<B>,
) -> Result<(), AllocError>
    requires left { pair.left < length met.old.rows }
    requires right { pair.right < met.old.columns }
    ensures met { ChangesRow met.old met.new pair.left (λ r. pair.right == r || has_at met.old pair.left r) }
    ensures queue { OnOk result (queue.new.items ≡ (if has_at met.old pair.left pair.right
        then queue.old.items else queue.old.items ++ pair ∷ [])) }
{
    if met.insert(pair.left, pair.right) {
        queue.push(pair)?;
    }
    Ok(())
}

// The word that reaches the pair at that place.
fn word_of(alloc: Global, queue: &[Pair], place: usize) -> Result<Vec<usize>, AllocError>
    requires inside { place < length queue.now }
    requires before { (i : ℕ) → 0 < i → i < length queue.now → (pair_at queue.now i).parent < i }
    ensures { IfOk result (λ word. Spells queue.now place word.items) }
{
    let mut word = Vec::new(alloc);
    let mut at = place;
    while at > 0 {
        word.push(queue[at].symbol)?;
        at = queue[at].parent;
    }
    word.reverse();
    Ok(word)
}
