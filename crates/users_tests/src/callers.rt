//! What a caller may conclude of the libraries that use sets by their contracts alone, where no test can see it. These are
//! proved, and not run.
ghost use Rattle.std.specs.Prelude.{◌≡◌, ℕ, ◌<◌, ◌==◌, ◌&&◌, not, All, IfNone, IfOk, IfSome, length};
ghost use Rattle.bit_set.specs.Sets.{elements, has};

use automata::{Nfa, accepts};
use bit_set::{BitBlock, BitSet, SetError};
use dataflow::{Block, solve};
use free_slots::Slots;
use graph_walks::{Effort, Graph, close, reachable_counted};
use std::alloc::Global;

// An automaton of sets of length 0 reads words without memory.
pub(crate) fn accepts_by_no_lengths<B: BitBlock>(
    alloc: Global,
    nfa: &Nfa<B>,
    word: &[usize],
) -> bool
    requires { nfa.now.longest ≡ 0 }
{
    accepts(alloc, nfa, word).unwrap()
}

// No blocks are solved without memory.
pub(crate) fn solve_no_blocks<B: BitBlock, N: Block<B>>(
    alloc: Global,
    blocks: &[N],
) -> Vec<BitSet<B>>
    requires { length blocks.now ≡ 0 }
{
    solve(alloc, blocks).unwrap()
}

// Rows of length 0 are closed without memory.
pub(crate) fn close_no_lengths<B: BitBlock>(alloc: Global, rows: &mut [BitSet<B>])
    requires { All (λ row. length row.values ≡ 0) rows.old }
{
    close(alloc, rows).unwrap();
}

// Each node that is reached is counted once.
pub(crate) fn reach_and_count<B: BitBlock, G: Graph>(
    alloc: Global,
    graph: G,
    start: usize,
) -> Result<(BitSet<B>, Effort), SetError>
    ensures { IfOk result (λ both. both.1.nodes ≡ length (elements both.0.values)) }
{
    let mut effort = Effort::new();
    let reached = reachable_counted(alloc, graph, start, &mut effort)?;
    Ok((reached, effort))
}

/// Takes the two lowest free slots, or none if there are not two.
#[tactic(auto, using(bit_set::proofs::CallerLemmas::calls))]
pub fn take_pair<B: BitBlock>(slots: &mut Slots<B>) -> Option<(usize, usize)>
    ensures none { IfNone result (slots.new.free ≡ slots.old.free) }
    ensures in_order { IfSome result (λ pair. pair.0 < pair.1) }
    ensures free { IfSome result (λ pair. (x : ℕ) → has slots.new.free x
        ≡ (not (pair.0 == x) && not (pair.1 == x) && has slots.old.free x)) }
{
    let first = slots.take()?;
    match slots.take() {
        Some(second) => Some((first, second)),
        None => {
            slots.give_back(first);
            None
        }
    }
}
