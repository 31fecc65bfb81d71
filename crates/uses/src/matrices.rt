//! Matrices as relations: where column b of row a is in, a leads to b.
ghost use Rattle.std.specs.Prelude.{◌≡◌, ℕ, ◌<◌, ◌==◌, ◌&&◌, ◌↔◌, length, not, IfOk, IsTrue};
ghost use Rattle.std.specs.List.{list_any};
ghost use Rattle.bit_set.specs.Sets.{elements, has};
ghost use Rattle.bit_matrix.specs.Matrices.{has_at};

use bit_matrix::{BitBlock, BitMatrix};
use bit_set::BitSet;
use std::alloc::{AllocError, Global};

/// Removes the column from each row.
pub fn remove_column<B: BitBlock>(matrix: &mut BitMatrix<B>, column: usize)
    requires { column < matrix.old.columns }
    ensures members { (r c : ℕ) → r < length matrix.old.rows
        → has_at matrix.new r c ≡ (not (column == c) && has_at matrix.old r c) }
    ensures rows { length matrix.new.rows ≡ length matrix.old.rows }
    ensures columns { matrix.new.columns ≡ matrix.old.columns }
{
    for row in 0..matrix.rows() {
        matrix.remove(row, column);
    }
}

/// Whether the relation is symmetric.
pub fn is_symmetric<B: BitBlock>(matrix: &BitMatrix<B>) -> bool
    requires { matrix.now.columns ≡ length matrix.now.rows }
    ensures { IsTrue result ↔ ((r c : ℕ) → has_at matrix.now r c ≡ has_at matrix.now c r) }
{
    for r in 0..matrix.rows() {
        for c in matrix.iter(r) {
            if !matrix.contains(c, r) {
                return false;
            }
        }
    }
    true
}

/// What some member of `from` is related to.
pub fn image<B: BitBlock>(
    alloc: Global,
    matrix: &BitMatrix<B>,
    from: &BitSet<B>,
) -> Result<BitSet<B>, AllocError>
    ensures { IfOk result (λ to. (c : ℕ) → has (elements to.values) c
        ≡ list_any (λ r. has_at matrix.now r c) (elements from.now.values)) }
{
    let mut to = BitSet::new_general(alloc);
    for r in from {
        if r < matrix.rows() {
            let row = matrix.row_to_set(alloc, r)?;
            to.union_with(&row)?;
        }
    }
    Ok(to)
}
