// For each block the blocks that it flows into.
ghost use Rattle.std.specs.Prelude.{◌≡◌, ◌<◌, ℕ, IfOk, IsOk, OnOk, [], length, map};
ghost use Rattle.dataflow.specs.Worklist.{AddsDependent, AreDependents, row_at, rows_of};

use crate::Block;
use bit_set::BitBlock;
use smallvec::SmallVec;
use std::alloc::{AllocError, Global};

// The blocks into which one block flows. A few of them need no allocation.
pub(crate) type Row = SmallVec<usize, 4>;

// A row for each block, with the blocks of which it is a source.
pub(crate) fn dependents_of<B: BitBlock, N: Block<B>>(
    alloc: Global,
    blocks: &[N],
) -> Result<Vec<Row>, AllocError>
    ensures dependents { IfOk result (λ rows. AreDependents (map N.flow blocks.now) (rows_of rows.items)) }
    ensures none { length blocks.now ≡ 0 → IsOk result }
{
    let mut rows = empty_rows(alloc, blocks.len())?;
    for (number, block) in blocks.iter().enumerate() {
        add_dependent(block.sources(), number, rows.as_mut_slice())?;
    }
    Ok(rows)
}

// This many empty rows.
fn empty_rows(alloc: Global, count: usize) -> Result<Vec<Row>, AllocError>
    ensures long { IfOk result (λ rows. length rows.items ≡ count) }
    ensures empty { IfOk result (λ rows. (s : ℕ) → row_at (rows_of rows.items) s ≡ []) }
    ensures none { count ≡ 0 → IsOk result }
{
    let mut rows = Vec::with_capacity(alloc, count)?;
    'rows: for _ in 0..count {
        rows.push(SmallVec::new(alloc))?;
    }
    Ok(rows)
}

// Inserts the block into the row of each of its sources.
fn add_dependent(sources: &[usize], number: usize, rows: &mut [Row]) -> Result<(), AllocError>
    ensures { OnOk result (AddsDependent sources.now number (rows_of rows.old) (rows_of rows.new)) }
{
    for &source in sources {
        if source < rows.len() {
            rows[source].push(number)?;
        }
    }
    Ok(())
}
