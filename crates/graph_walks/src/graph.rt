// What a search must know about a graph.
ghost use Rattle.std.specs.Prelude.{◌≡◌, ◌≤◌, ℕ, IfNone, IfSome, List, Option, length, map};
ghost use Rattle.std.specs.Iterator.{IsFinite, YieldsFirst};
ghost use Rattle.graph_walks.specs.Paths.{rows_of, successors};

use bit_matrix::BitMatrix;
use bit_set::{BitBlock, BitSet, Iter};
use std::iter::Copied;
use std::slice;

/// A graph whose nodes are the numbers from 0 up to some length. An edge may lead anywhere: a node at or
/// past the length has no edges of its own.
pub trait Graph: Copy {
    /// The nodes to which edges lead from one node.
    type Successors: Iterator<Item = usize> + Drop;

    ghost rows: { Self → List (List ℕ) };

    // What such an iterator has not yet yielded.
    ghost left: { Self.Successors → List ℕ };

    /// How many nodes there are that can have edges of their own: those below this number. Constant time.
    fn nodes(self) -> usize
        ensures { result ≡ length (rows self) };

    /// The nodes to which an edge leads from `node`, or `None` if the graph has no such node. Constant time.
    fn successors(self, node: usize) -> Option<Self::Successors>
        ensures past { IfNone result (length (rows self) ≤ node) }
        ensures all { IfSome result (λ walk. left walk ≡ successors (rows self) node) }
        ensures can { IfSome result Self.Successors.can_next }
        ensures ends { IfSome result (λ walk. IsFinite (Self.Successors.remaining walk)) };

    ghost in_order: { (s t : Self.Successors) (item : Option ℕ) → Self.Successors.next_gives s item t
        → YieldsFirst left s item t };
}

/// A row of successors for each node.
impl<'a> Graph for &'a [Vec<usize>] {
    type Successors = Copied<slice::Iter<'a, usize>>;

    ghost use Rattle.graph_walks.specs.RowLaws.{copied_rest, copies_in_order};

    ghost rows = { λ graph. map (λ row. row.items) graph.now };

    ghost left = { copied_rest };

    #[inline]
    fn nodes(self) -> usize {
        self.len()
    }

    #[inline]
    fn successors(self, node: usize) -> Option<Copied<slice::Iter<'a, usize>>> {
        match self.get(node) {
            Some(row) => Some(row.iter().copied()),
            None => None,
        }
    }

    ghost in_order = { copies_in_order };
}

/// A set of successors for each node.
impl<'a, B: BitBlock> Graph for &'a [BitSet<B>] {
    type Successors = Iter<'a, B>;

    ghost rows = { λ graph. rows_of graph.now };

    ghost left = { λ walk. walk.left };

    #[inline]
    fn nodes(self) -> usize {
        self.len()
    }

    #[inline]
    fn successors(self, node: usize) -> Option<Iter<'a, B>> {
        match self.get(node) {
            Some(row) => Some(row.iter()),
            None => None,
        }
    }

    ghost in_order = { λ s t item step. step.item };
}

/// A row of a matrix for each node: an edge leads to each of its columns.
impl<'a, B: BitBlock> Graph for &'a BitMatrix<B> {
    type Successors = bit_matrix::Iter<'a, B>;

    ghost rows = { λ graph. graph.now.rows };

    ghost left = { λ walk. walk };

    #[inline]
    fn nodes(self) -> usize {
        self.rows()
    }

    #[inline]
    fn successors(self, node: usize) -> Option<bit_matrix::Iter<'a, B>> {
        if node >= self.rows() {
            return None;
        }
        Some(self.iter(node))
    }

    ghost in_order = { λ s t item step. step.item };
}
