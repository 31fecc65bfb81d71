// Calls on whole rows. Each is one pass over the blocks of the row.
ghost use Rattle.std.specs.{Prelude.{◌≡◌, ℕ, ◌*◌, ◌^◌, ◌<◌, ◌≤◌, ◌↔◌, ◌&&◌, ◌||◌, All, IsTrue, List, false, length, map, not}, Iterator.Runs.YieldsInOrder};
ghost use Rattle.bit_blocks.specs.{Bits.blocks_for, Storage.value_at};
ghost use Rattle.bit_set.specs.{Members.{IsDisjoint, IsSubset}, Order.same_sets, Sets.{difference, intersection, is_disjoint, is_subset, merge_of_sets, those_from, union}};
ghost use Rattle.bit_matrix.specs.{Matrices.{ChangesRow, IsMatrix, has_at, row_of, with_row}, Walks.AdvancesInRow};

use crate::merges::merge_within;
use crate::table::row_of_blocks;
use crate::{BitBlock, BitMatrix, Iter};
use bit_blocks::packed::{difference_is_zero, intersection_is_zero, ones_in_span};
use bit_words::bit_vec::operation::{Difference, Intersection, Operation, Union};

impl<B: BitBlock> BitMatrix<B> {
    // The blocks of a row.
    #[inline]
    pub(crate) fn row_blocks(&self, row: usize) -> &[B]
        requires { row < length self.now.rows }
        ensures bits { (c : ℕ) → value_at B.width (map B.number result.now) c ≡ has_at self.now row c }
        ensures each { All B.is_block result.now }
        ensures len { length result.now ≡ blocks_for B.width self.now.columns }
        ensures enough { self.now.columns ≤ length result.now * B.width }
        ensures fits { length result.now * B.width < 2 ^ 64 }
        ensures matrix { IsMatrix self.now }
    {
        row_of_blocks(&self.blocks, self.stride, row)
    }

    /// How many columns are in the row. Adds up the ones of each block.
    ///
    /// ```
    /// matrix.insert_range(1, 2..5);
    /// assert_eq!(matrix.count(1), 3);
    /// ```
    pub fn count(&self, row: usize) -> usize
        requires { row < length self.now.rows }
        ensures { result ≡ length (row_of self.now row) }
    {
        if self.columns == 0 {
            return 0;
        }
        ones_in_span(self.row_blocks(row), 0, self.columns)
    }

    /// An iterator over the columns of the row, in ascending order. Constant time.
    ///
    /// ```
    /// matrix.insert_range(1, 2..5);
    /// assert!(matrix.iter(1).eq([2, 3, 4]));
    /// ```
    #[inline]
    pub fn iter(&self, row: usize) -> Iter<'_, B>
        requires { row < length self.now.rows }
        ensures left { result ≡ row_of self.now row }
        ensures columns { (c : ℕ) → IsTrue (has_at self.now row c) → c < self.now.columns }
        ensures runs { YieldsInOrder AdvancesInRow (λ (left : List ℕ). left) }
    {
        Iter::over(self.row_blocks(row), 0)
    }

    /// An iterator over the columns of the row that are `from` or above, in ascending order. Constant time.
    ///
    /// ```
    /// matrix.insert_range(1, 2..5);
    /// assert!(matrix.iter_from(1, 3).eq([3, 4]));
    /// ```
    #[inline]
    pub fn iter_from(&self, row: usize, from: usize) -> Iter<'_, B>
        requires { row < length self.now.rows }
        ensures left { result ≡ those_from (row_of self.now row) from }
        ensures columns { (c : ℕ) → IsTrue (has_at self.now row c) → c < self.now.columns }
        ensures runs { YieldsInOrder AdvancesInRow (λ (left : List ℕ). left) }
    {
        Iter::over(self.row_blocks(row), from)
    }

    // The row `write` becomes its merge with the row `read`. Returns whether it changed.
    #[inline(always)]
    fn merge_rows<O: Operation>(&mut self, read: usize, write: usize) -> bool
        requires read { read < length self.old.rows }
        requires write { write < length self.old.rows }
        ensures matrix { self.new ≡ with_row self.old write
            (merge_of_sets O.merge (row_of self.old write) (row_of self.old read)) }
        ensures changed { result ≡ not (same_sets (row_of self.old write) (row_of self.new write)) }
        ensures unchanged { result ≡ false → self.new ≡ self.old }
    {
        let stride = self.stride;
        merge_within::<B, O>(
            self.blocks.as_mut_slice(),
            read * stride,
            write * stride,
            stride,
        )
    }

    /// Inserts the columns of the row `read` into the row `write`, and returns whether any of them was absent. One
    /// pass over the blocks of both.
    ///
    /// ```
    /// // What the node 0 reaches, it reaches by the node 1 too.
    /// assert!(reaches.union_rows(1, 0));
    /// assert!(!reaches.union_rows(1, 0));
    /// ```
    #[inline]
    pub fn union_rows(&mut self, read: usize, write: usize) -> bool
        requires read { read < length self.old.rows }
        requires write { write < length self.old.rows }
        ensures matrix { self.new ≡ with_row self.old write (union (row_of self.old write) (row_of self.old read)) }
        ensures members { ChangesRow self.old self.new write (λ c. has_at self.old write c || has_at self.old read c) }
        ensures changed { result ≡ not (same_sets (row_of self.old write) (row_of self.new write)) }
        ensures unchanged { result ≡ false → self.new ≡ self.old }
    {
        self.merge_rows::<Union>(read, write)
    }

    /// Keeps in the row `write` the columns that the row `read` has too, and returns whether it removed any. One
    /// pass over the blocks of both.
    #[inline]
    pub fn intersect_rows(&mut self, read: usize, write: usize) -> bool
        requires read { read < length self.old.rows }
        requires write { write < length self.old.rows }
        ensures matrix { self.new ≡ with_row self.old write
            (intersection (row_of self.old write) (row_of self.old read)) }
        ensures members { ChangesRow self.old self.new write (λ c. has_at self.old write c && has_at self.old read c) }
        ensures changed { result ≡ not (same_sets (row_of self.old write) (row_of self.new write)) }
        ensures unchanged { result ≡ false → self.new ≡ self.old }
    {
        self.merge_rows::<Intersection>(read, write)
    }

    /// Removes the columns of the row `read` from the row `write`, and returns whether any of them was present. One
    /// pass over the blocks of both.
    #[inline]
    pub fn difference_rows(&mut self, read: usize, write: usize) -> bool
        requires read { read < length self.old.rows }
        requires write { write < length self.old.rows }
        ensures matrix { self.new ≡ with_row self.old write
            (difference (row_of self.old write) (row_of self.old read)) }
        ensures members { ChangesRow self.old self.new write
            (λ c. has_at self.old write c && not (has_at self.old read c)) }
        ensures changed { result ≡ not (same_sets (row_of self.old write) (row_of self.new write)) }
        ensures unchanged { result ≡ false → self.new ≡ self.old }
    {
        self.merge_rows::<Difference>(read, write)
    }

    /// Whether each column of the first row is in the second. Reads the blocks of both up to the one that decides.
    pub fn is_subset_row(&self, row: usize, other: usize) -> bool
        requires row { row < length self.now.rows }
        requires other { other < length self.now.rows }
        ensures returned { result ≡ is_subset (row_of self.now row) (row_of self.now other) }
        ensures members { IsTrue result ↔ IsSubset (row_of self.now row) (row_of self.now other) }
    {
        difference_is_zero(self.row_blocks(row), self.row_blocks(other))
    }

    /// Whether the two rows have no column in common. Reads the blocks of both up to the one that decides.
    pub fn is_disjoint_row(&self, row: usize, other: usize) -> bool
        requires row { row < length self.now.rows }
        requires other { other < length self.now.rows }
        ensures returned { result ≡ is_disjoint (row_of self.now row) (row_of self.now other) }
        ensures members { IsTrue result ↔ IsDisjoint (row_of self.now row) (row_of self.now other) }
    {
        intersection_is_zero(self.row_blocks(row), self.row_blocks(other))
    }
}
