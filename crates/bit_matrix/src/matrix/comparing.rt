// Equality of matrices, and their hash.
ghost use Rattle.std.specs.{Prelude.{◌≡◌, ◌↔◌, ℕ, IsTrue}, Cmp.{on_equiv, on_per, partial_equiv_from_equiv, Lexicographic.{lists_equiv, lists_per, nat_list_eq_equiv}}};
ghost use Rattle.bit_matrix.specs.{Compared.{key_of, same_matrices}, Matrices.{KeepsShape, has_at}};

use crate::{BitBlock, BitMatrix};
use bit_words::bit_vec::same_blocks;

/// Matrices are equal if they have equally many columns and the same rows. Compares the blocks up to the first
/// group that differs.
impl<B: BitBlock> PartialEq for BitMatrix<B> {
    ghost eq = { same_matrices };

    ghost laws = { on_per key_of (lists_per (partial_equiv_from_equiv nat_list_eq_equiv)) };

    fn eq(&self, other: &Self) -> bool
        ensures tells { result ≡ same_matrices self.now other.now }
        ensures same { IsTrue result ↔ (self.now ≡ other.now) }
        ensures members { IsTrue result
            ↔ (KeepsShape self.now other.now × ((r c : ℕ) → has_at other.now r c ≡ has_at self.now r c)) }
    {
        if self.rows != other.rows {
            return false;
        }
        if self.columns != other.columns {
            return false;
        }
        same_blocks(&self.blocks, &other.blocks)
    }
}

impl<B: BitBlock> Eq for BitMatrix<B> {
    ghost laws = { on_equiv key_of (lists_equiv nat_list_eq_equiv) };
}
