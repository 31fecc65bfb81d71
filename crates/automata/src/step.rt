// Sets of states, from one symbol to the next.
ghost use Rattle.std.specs.Prelude.{◌≡◌, OnOk, IsOk};
ghost use Rattle.bit_set.specs.Sets.{elements};
ghost use Rattle.automata.specs.{Bounds.{AreWithin, IsRowWithin}, Runs.{IsImage, row_of, row_of_sets, rows_of_sets}};

use bit_set::{BitBlock, BitSet};
use std::alloc::AllocError;

// Sets `into` to the states to which the symbol leads from those in `states`. Allocates only if `into` lacks the
// capacity for each set of the row.
pub(crate) fn step<B: BitBlock>(
    moves: &[Vec<BitSet<B>>],
    symbol: usize,
    states: &BitSet<B>,
    into: &mut BitSet<B>,
) -> Result<(), AllocError>
    ensures image { OnOk result (IsImage (row_of (rows_of_sets moves.now) symbol)
        (elements states.now.values) (elements into.new.values)) }
    ensures succeeds { AreWithin into.old.capacity moves.now → IsOk result }
    ensures capacity { AreWithin into.old.capacity moves.now → into.new.capacity ≡ into.old.capacity }
{
    match moves.get(symbol) {
        Some(row) => image(row.as_slice(), states, into),
        None => {
            into.make_empty();
            Ok(())
        }
    }
}

// Sets `into` to the states to which the row leads from those in `states`.
fn image<B: BitBlock>(
    row: &[BitSet<B>],
    states: &BitSet<B>,
    into: &mut BitSet<B>,
) -> Result<(), AllocError>
    ensures image { OnOk result (IsImage (row_of_sets row.now)
        (elements states.now.values) (elements into.new.values)) }
    ensures succeeds { IsRowWithin into.old.capacity row.now → IsOk result }
    ensures capacity { IsRowWithin into.old.capacity row.now → into.new.capacity ≡ into.old.capacity }
{
    into.make_empty();
    for state in states {
        match row.get(state) {
            Some(successors) => into.union_with(successors)?,
            None => {}
        }
    }
    Ok(())
}
