//! The hash of a matrix, which depends on its rows and the number of columns.
ghost use Rattle.std.{specs.{Prelude.{◌≡◌, ◌<◌, length, nat_eq}, Cmp.Lexicographic.{bytes_decides, pointwise, pointwise_decides}, List.{fold}}, proofs.Common.{ap}};
ghost use Rattle.bit_matrix.specs.{Compared.{fed_of_key, fed_of_row, key_of}, Matrices.{row_of}};

use crate::{BitBlock, BitMatrix};
use std::hash::{Hash, Hasher};

/// Feeds the number of columns, and for each row the number of its columns, followed by these in ascending order.
/// Goes over each row, even if there are no columns.
impl<B: BitBlock> Hash for BitMatrix<B> {
    ghost hash_input = { λ m. fed_of_key (key_of m) };

    ghost respects_eq = { λ a b same.
        ap fed_of_key ((pointwise_decides {E = pointwise nat_eq} bytes_decides (key_of a) (key_of b)).0 same) };

    fn hash<H: Hasher>(&self, state: &mut H) {
        state.write_usize(self.columns());
        for row in 0..self.rows() {
            feed_row(self, row, state);
        }
    }
}

// Feeds one row.
fn feed_row<B: BitBlock, H: Hasher>(matrix: &BitMatrix<B>, row: usize, state: &mut H)
    requires { row < length matrix.now.rows }
    ensures { state.new ≡ fold H.write state.old (fed_of_row (row_of matrix.now row)) }
{
    state.write_usize(matrix.count(row));
    for column in matrix.iter(row) {
        state.write_usize(column);
    }
}
