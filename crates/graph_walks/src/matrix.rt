// The transitive closure of a graph that is a matrix of bits.
ghost use Rattle.std.specs.Prelude.{◌≡◌, ◌≢◌, ℕ, ◌<◌, ◌≤◌, ◌&&◌, ◌||◌, ◌==◌, IfNone, IfSome, IsTrue, List, length, nat_lt};
ghost use Rattle.bit_matrix.specs.Matrices.{IsMatrix, KeepsShape, has_at, row_of};
ghost use Rattle.graph_walks.specs.{Closed.{Follows, HasNoneIn, IsClosed, IsClosureOf, IsOnTheWay, IsReflexiveClosureOf}, Paths.Edge};

use bit_matrix::{BitBlock, BitMatrix};
use bit_set::laws::{members_of_sets, sets_ascend};

/// Sets row `u`, which has the nodes to which an edge leads from `u`, to all nodes to which a path of at least one
/// edge leads from `u`: Warren's algorithm. It goes over the rows twice: each is united with the rows of its nodes
/// that come before it, and then with those that come after it. So no row is united with another more than once,
/// and there are at most as many unions of rows as the closure has edges. Allocates nothing.
///
/// ```
/// reaches.insert(0, 1);
/// reaches.insert(1, 2);
/// transitive_closure(&mut reaches);
/// assert!(reaches.contains(0, 2));
/// ```
pub fn transitive_closure<B: BitBlock>(reaches: &mut BitMatrix<B>)
    ensures closure { IsClosureOf reaches.old.rows reaches.new.rows }
    ensures closed { IsClosed reaches.new.rows }
    ensures more { (u v : ℕ) → Edge reaches.old.rows u v → Edge reaches.new.rows u v }
    ensures least { (other : List (List ℕ)) → IsClosed other
        → ((u v : ℕ) → Edge reaches.old.rows u v → Edge other u v)
        → (u v : ℕ) → Edge reaches.new.rows u v → Edge other u v }
    ensures shape { KeepsShape reaches.old reaches.new }
{
    let rows = reaches.rows();
    for row in 0..rows {
        take_in(reaches, row, 0, row);
    }
    for row in 0..rows {
        take_in(reaches, row, row + 1, rows);
    }
}

/// Sets row `u` to all nodes to which a path of any number of edges leads from `u`, including `u` itself:
/// [`transitive_closure`], and then each node in its own row. A row has no node past the columns, so not its own
/// node if there are more rows than columns; a node past the last row has no row. Allocates nothing.
///
/// ```
/// reaches.insert(0, 1);
/// reaches.insert(1, 2);
/// reflexive_transitive_closure(&mut reaches);
/// assert!(reaches.iter(0).eq([0, 1, 2]));
/// assert!(reaches.iter(2).eq([2]));
/// ```
pub fn reflexive_transitive_closure<B: BitBlock>(reaches: &mut BitMatrix<B>)
    ensures closure { IsReflexiveClosureOf reaches.old reaches.new }
    ensures closed { IsClosed reaches.new.rows }
    ensures shape { KeepsShape reaches.old reaches.new }
{
    transitive_closure(reaches);
    put_each_in_its_row(reaches);
}

// Inserts each row's own node into it, if that is a column.
fn put_each_in_its_row<B: BitBlock>(matrix: &mut BitMatrix<B>)
    ensures matrix { IsMatrix matrix.old }
    ensures bits { (u v : ℕ) → has_at matrix.new u v ≡ (has_at matrix.old u v
        || (u == v && (nat_lt u (length matrix.old.rows) && nat_lt u matrix.old.columns))) }
    ensures shape { KeepsShape matrix.old matrix.new }
{
    for node in 0..matrix.rows().min(matrix.columns()) {
        matrix.insert(node, node);
    }
}

// Unites the row with the row of each of its nodes from `from` up to `to`, in ascending order, including greater
// nodes that are inserted on the way.
fn take_in<B: BitBlock>(reaches: &mut BitMatrix<B>, row: usize, from: usize, to: usize)
    requires row { row < length reaches.old.rows }
    requires to { to ≤ length reaches.old.rows }
    ensures follows { (graph : List (List ℕ))
        → ((j : ℕ) → from ≤ j → j < to → Follows graph j j (row_of reaches.old j))
        → Follows graph row from (row_of reaches.old row) → Follows graph row to (row_of reaches.new row) }
    ensures way { IsOnTheWay reaches.old.rows reaches.new.rows }
    ensures others { (q : ℕ) → q ≢ row → row_of reaches.new q ≡ row_of reaches.old q }
    ensures shape { KeepsShape reaches.old reaches.new }
{
    let mut next = from;
    while let Some(node) = next_in(reaches, row, next, to) {
        reaches.union_rows(node, row);
        next = node + 1;
    }
}

// The least node in the row from `from` up to `to`.
fn next_in<B: BitBlock>(reaches: &BitMatrix<B>, row: usize, from: usize, to: usize) -> Option<usize>
    requires { row < length reaches.now.rows }
    ensures inside { IfSome result (λ node. (from ≤ node) × (node < to) × IsTrue (has_at reaches.now row node)) }
    ensures least { IfSome result (λ node. HasNoneIn (row_of reaches.now row) from node) }
    ensures none { IfNone result (HasNoneIn (row_of reaches.now row) from to) }
{
    members_of_sets();
    sets_ascend();
    // Also says that each row ascends.
    let _ = reaches.rows();
    match reaches.iter_from(row, from).next() {
        Some(node) if node < to => Some(node),
        _ => None,
    }
}
